ghost use Rattle.std.specs.Prelude.{◌≡◌};
ghost use Rattle.advisor.specs.declared.advice.AdviseFault.TheVariants.{NoMemory};

use map_expr::{BadMapping, MapExpr};
use record_dim::Sequence;
use std::alloc::{AllocError, AllocFailed};
use thiserror::Error;

/// What each listed candidate costs, in order, and None where it does not suit.
pub type CostList = Sequence<Option<u64>>;

/// The cheapest candidate that suits, and of several the first. Its expression counts nothing.
#[derive(Drop)]
pub struct Best {
    pub cost: u64,
    pub expr: MapExpr,
}

/// What candidates cost, in touched granules, and which is the best. It is None exactly where no candidate suits.
#[derive(Drop)]
pub struct Advice {
    pub costs: CostList,
    pub best: Option<Best>,
}

/// Why there is no advice. Candidates are counted from 0.
#[derive(Clone, Copy, Debug, PartialEq, Eq, Error)]
pub enum AdviseFault {
    /// The first listed candidate that is no layout within the limits is no mapping of the leaves.
    #[error("BadMapping candidate {candidate} {fault:?}")]
    Bad { candidate: usize, fault: BadMapping },
    /// It has more than 2^24 slots, more than 2^28 bytes or more than 2^24 granules.
    #[error("TooBig candidate {candidate}")]
    TooBig { candidate: usize },
    #[error("NoMemory")]
    NoMemory,
}

impl From<AllocError> for AdviseFault {
    ghost from_gives = { λ _ f. f ≡ NoMemory };

    fn from(_e: AllocError) -> AdviseFault {
        AdviseFault::NoMemory
    }
}

impl<T: Drop> From<AllocFailed<T>> for AdviseFault {
    ghost from_gives = { λ _ f. f ≡ NoMemory };

    fn from(_e: AllocFailed<T>) -> AdviseFault {
        AdviseFault::NoMemory
    }
}
