/// How a row becomes the slot of its place.
#[derive(Clone, Copy)]
pub enum Walk {
    /// By rows, in blocks of one row.
    Plain,
    /// By rows, in blocks of a power of two.
    Blocks,
    /// Over lines and columns, by columns and in blocks of one row.
    Columns,
    /// Over lines and columns, in Morton order and in blocks of one row.
    Morton,
    /// There is no short form: the whole rule.
    None,
}
