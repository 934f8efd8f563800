/// Where the numbers of a leaf lie in a blob. Rows go in groups, the last of which may not be full. That of row `r` begins at
/// `base + r / lanes * block + r % lanes * lane`, and where rows are in Morton order, at `base + z * block`, where z has the binary digits of
/// `r / lanes` and of `r % lanes` in turn. It is a byte, and of a field of bits a bit.
#[repr(C)]
#[derive(Clone, Copy)]
pub struct Places {
    pub blob: usize,
    /// How many bytes the blob has.
    pub bytes: u64,
    pub base: u64,
    /// How many rows a group has.
    pub lanes: u64,
    /// From a row to the next in its group.
    pub lane: u64,
    /// From a group to the next.
    pub block: u64,
    /// The bits of a number.
    pub width: u32,
    pub is_signed: bool,
    /// Whether its bytes stand the most significant first.
    pub is_turned: bool,
    /// Whether it is a field of bits.
    pub in_bits: bool,
    /// Whether rows are in Morton order.
    pub in_digits: bool,
}
