ghost use Rattle.std.specs.Prelude.{◌≡◌};
ghost use Rattle.csv_rows.specs.declared.fault.RowFault.TheVariants.{NoMemory};

use std::alloc::{AllocError, AllocFailed};
use thiserror::Error;

/// Why a dataset is no table for a view. Rows are counted from 0 behind the header, and leaves as the schema numbers them.
#[derive(Clone, Copy, Debug, PartialEq, Eq, Error)]
pub enum RowFault {
    /// No column names the leaf.
    #[error("MissingColumn leaf {leaf}")]
    MissingColumn { leaf: usize },
    /// Two columns name the leaf.
    #[error("ColumnTwice leaf {leaf}")]
    ColumnTwice { leaf: usize },
    /// The row has no field in the leaf's column.
    #[error("ShortRow record {row} leaf {leaf}")]
    ShortRow { row: u64, leaf: usize },
    /// The field is no number.
    #[error("Number record {row} leaf {leaf}")]
    Number { row: u64, leaf: usize },
    /// The view is strict, and the number lies outside of the leaf's declared range.
    #[error("Range record {row} leaf {leaf}")]
    Range { row: u64, leaf: usize },
    /// The view is strict, and the number lies in the declared range and not in that of how the leaf is stored.
    #[error("Narrow record {row} leaf {leaf}")]
    Narrow { row: u64, leaf: usize },
    /// There is no memory for a record, or for the list of columns.
    #[error("NoMemory")]
    NoMemory,
}

impl From<AllocError> for RowFault {
    ghost from_gives = { λ _ f. f ≡ NoMemory };

    fn from(_e: AllocError) -> RowFault {
        RowFault::NoMemory
    }
}

impl<T: Drop> From<AllocFailed<T>> for RowFault {
    ghost from_gives = { λ _ f. f ≡ NoMemory };

    fn from(_e: AllocFailed<T>) -> RowFault {
        RowFault::NoMemory
    }
}
