use arrayvec::ArrayVec;

/// A term of a stencil: an entry and its weight.
#[derive(Drop)]
pub struct Term {
    pub weight: i64,
    /// The number of the leaf that is read.
    pub leaf: usize,
    /// How far away it is read in each dimension.
    pub offsets: ArrayVec<i64, 4>,
}
