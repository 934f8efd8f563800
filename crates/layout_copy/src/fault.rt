use thiserror::Error;

/// Why a table is not copied, or not whole.
#[derive(Clone, Copy, Debug, PartialEq, Eq, Error)]
pub enum CopyFault {
    /// The views have other records or other extents.
    #[error("the views have other records or other extents")]
    Mismatch,
    /// The target is strict and does not hold this value, which is the first such by rows, then leaves.
    #[error("the target does not hold the value of record {row} leaf {leaf}")]
    Narrow { row: u64, leaf: usize },
}
