/// How a view stores a value that does not fit.
#[derive(Clone, Copy, PartialEq, Eq)]
pub enum StoreMode {
    /// It refuses the value.
    Strict,
    /// It keeps of the value the low bits that fit.
    Wrap,
}
