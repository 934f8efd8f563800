/// A byte of a blob.
#[derive(Clone, Copy, PartialEq, Eq)]
pub struct Place {
    /// The number of the blob.
    pub blob: usize,
    /// The number of the byte in it.
    pub byte: u64,
}
