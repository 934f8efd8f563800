ghost use Rattle.std.specs.Prelude.{◌≡◌};
ghost use Rattle.map_checks.specs.Inner.Faults.{fault_of};
ghost use Rattle.map_checks.specs.declared.fault.MakeMap.TheVariants.{NoMemory};

use map_expr::BadMapping;
use places::NewMapping;
use std::alloc::{AllocError, AllocFailed};
use thiserror::Error;

/// Why an expression was not made a mapping.
#[derive(Clone, Copy, Debug, PartialEq, Eq, Error)]
pub enum MakeMap {
    /// The expression is no mapping of these cells.
    #[error("BadMapping {0:?}")]
    Bad(BadMapping),
    /// A base mapping has more than 2^24 slots, or all blobs have more than 2^28 bytes.
    #[error("TooBig")]
    TooBig,
    #[error("NoMemory")]
    NoMemory,
}

impl From<AllocError> for MakeMap {
    ghost from_gives = { λ _ e. e ≡ NoMemory };

    fn from(_e: AllocError) -> MakeMap {
        MakeMap::NoMemory
    }
}

impl<T: Drop> From<AllocFailed<T>> for MakeMap {
    ghost from_gives = { λ _ e. e ≡ NoMemory };

    fn from(_e: AllocFailed<T>) -> MakeMap {
        MakeMap::NoMemory
    }
}

impl From<NewMapping> for MakeMap {
    ghost from_gives = { λ why e. e ≡ fault_of why };

    fn from(why: NewMapping) -> MakeMap {
        match why {
            NewMapping::Lanes => MakeMap::Bad(BadMapping::Lanes),
            NewMapping::Width => MakeMap::Bad(BadMapping::Width),
            NewMapping::NotFull => MakeMap::Bad(BadMapping::NotFull),
            NewMapping::Side => MakeMap::Bad(BadMapping::Side),
            NewMapping::TooBig => MakeMap::TooBig,
            NewMapping::NoMemory => MakeMap::NoMemory,
        }
    }
}
