/// How the cells of one slot lie behind one another.
#[derive(Clone, Copy, PartialEq, Eq)]
pub enum AosForm {
    /// No gaps.
    Packed,
    /// Each cell at the next multiple of its size; the slot padded to a multiple of its greatest size.
    Aligned,
    /// As aligned, with the cells in order of falling size, ties in cell order.
    Min,
}

/// How the arrays of the cells lie behind one another.
#[derive(Clone, Copy, PartialEq, Eq)]
pub enum SoaForm {
    /// In one blob, no gaps.
    Single,
    /// In one blob, each array at the next multiple of its cell's size. Nothing lies behind the last.
    Aligned,
    /// Each in a blob of its own.
    Multi,
}
