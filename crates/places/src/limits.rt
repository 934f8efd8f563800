/// The most slots of a mapping.
pub const MAX_SLOTS: u64 = 1 << 24;

/// The most bytes in all blobs of a mapping.
pub const MAX_BLOB_BYTES: u64 = 1 << 28;

/// The most bits in all blobs of a mapping.
pub const MAX_BLOB_BITS: u64 = 8 * MAX_BLOB_BYTES;

/// The most lanes of a block.
pub const MAX_LANES: u32 = 64;

/// The most bits of a cell.
pub const MAX_WIDTH: u32 = 64;
