/// In which order slots follow the indices of an array.
#[derive(Clone, Copy, PartialEq, Eq)]
pub enum Order {
    /// The last component of an index is the fastest.
    Row,
    /// The first component of an index is the fastest.
    Col,
    /// The binary digits of the components interleaved, the last component the lowest (the Z order).
    Morton,
}
