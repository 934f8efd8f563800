use thiserror::Error;

/// Why an update ends. The fault is the first one, in the order of rows.
#[derive(Clone, Copy, Debug, PartialEq, Eq, Error)]
#[error("{kind} record {row}")]
pub struct UpdateFault {
    pub row: u64,
    pub kind: UpdateKind,
}

/// What went wrong in the row.
#[derive(Clone, Copy, Debug, PartialEq, Eq, Error)]
pub enum UpdateKind {
    /// A result lies outside of 128 bits.
    #[error("Overflow")]
    Overflow,
    /// A divisor is 0.
    #[error("DivideByZero")]
    DivideByZero,
    /// The value lies outside of the declared range of its leaf, and the view is strict.
    #[error("Range leaf {leaf}")]
    Range { leaf: usize },
    /// The value lies in the declared range and not in that of how the leaf is stored, and the view is strict.
    #[error("Narrow leaf {leaf}")]
    Narrow { leaf: usize },
}
