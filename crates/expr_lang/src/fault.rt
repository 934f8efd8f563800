use record_dim::Path;
use std::alloc::{AllocError, AllocFailed};
use thiserror::Error;

/// Why an expression is not bound to a schema.
#[derive(Debug, Drop, Error)]
pub enum BindFault {
    /// No leaf has this path.
    #[error("no leaf has this path")]
    UnknownPath(Path),
    /// This is no number of a dimension.
    #[error("there is no dimension i{0}")]
    UnknownIndex(u32),
    /// Memory ran out.
    #[error("memory ran out")]
    NoMemory,
}

impl From<AllocError> for BindFault {
    ghost use Rattle.expr_lang.specs.declared.fault.BindFault.TheVariants.{NoMemory};
    ghost use Rattle.std.specs.Prelude.{◌≡◌};

    ghost from_gives = { λ _ e. e ≡ NoMemory };

    fn from(_error: AllocError) -> BindFault {
        BindFault::NoMemory
    }
}

impl<T: Drop> From<AllocFailed<T>> for BindFault {
    ghost use Rattle.expr_lang.specs.declared.fault.BindFault.TheVariants.{NoMemory};
    ghost use Rattle.std.specs.Prelude.{◌≡◌};

    ghost from_gives = { λ _ e. e ≡ NoMemory };

    fn from(_error: AllocFailed<T>) -> BindFault {
        BindFault::NoMemory
    }
}

/// Why an expression has no value on a row.
#[derive(Clone, Copy, Debug, PartialEq, Eq, Error)]
pub enum EvalFault {
    /// An exact result lies outside `-2^127` to `2^127 - 1`.
    #[error("a result is out of range")]
    Overflow,
    /// A divisor is 0.
    #[error("a divisor is 0")]
    DivideByZero,
}
