use std::alloc::{AllocError, AllocFailed};
use thiserror::Error;

/// Why a record is refused, in the order in which the causes are looked for.
#[derive(Clone, Copy, Debug, PartialEq, Eq, Error)]
pub enum BadRecord {
    /// Fields and arrays nest more than 8 deep.
    #[error("fields and arrays nest more than 8 deep")]
    TooDeep,
    /// Some record has no field.
    #[error("a record has no field")]
    Empty,
    /// Two fields of one record share a name.
    #[error("two fields of a record share a name")]
    Twice,
    /// Some array has no element.
    #[error("an array has no element")]
    NoElements,
    /// There are more than 64 leaves.
    #[error("there are more than 64 leaves")]
    TooManyLeaves,
}

/// Why a schema is not made.
#[derive(Clone, Copy, Debug, PartialEq, Eq, Error)]
pub enum MakeSchema {
    /// The record is refused.
    #[error(transparent)]
    Bad(BadRecord),
    /// Memory ran out.
    #[error("memory ran out")]
    NoMemory,
}

impl From<AllocError> for MakeSchema {
    ghost use Rattle.record_dim.specs.declared.fault.MakeSchema.TheVariants.{NoMemory};
    ghost use Rattle.std.specs.Prelude.{◌≡◌};

    ghost from_gives = { λ _ e. e ≡ NoMemory };

    fn from(_error: AllocError) -> MakeSchema {
        MakeSchema::NoMemory
    }
}

impl<T: Drop> From<AllocFailed<T>> for MakeSchema {
    ghost use Rattle.record_dim.specs.declared.fault.MakeSchema.TheVariants.{NoMemory};
    ghost use Rattle.std.specs.Prelude.{◌≡◌};

    ghost from_gives = { λ _ e. e ≡ NoMemory };

    fn from(_error: AllocFailed<T>) -> MakeSchema {
        MakeSchema::NoMemory
    }
}
