ghost use Rattle.std.specs.Prelude.{◌≡◌};
ghost use Rattle.views.specs.declared.fault.MakeView.TheVariants.{NoMemory};
ghost use Rattle.views.specs.Refusals.{made_view, heated_view};

use instrument::HeatFault;
use map_any::{BadMapping, MakeMap};
use std::alloc::{AllocError, AllocFailed};
use thiserror::Error;

/// Why a value was not stored.
#[derive(Clone, Copy, Debug, PartialEq, Eq, Error)]
pub enum StoreFault {
    /// The value lies outside of the declared range of its leaf.
    #[error("Range")]
    Range,
    /// The value lies in the declared range and not in the range of how the leaf is stored.
    #[error("Narrow")]
    Narrow,
}

/// Why no view was made.
#[derive(Clone, Copy, Debug, PartialEq, Eq, Error)]
pub enum MakeView {
    /// The expression is no mapping of the leaves.
    #[error("BadMapping {0:?}")]
    Bad(BadMapping),
    /// A base mapping has more than 2^24 slots, or all blobs have more than 2^28 bytes.
    #[error("TooBig")]
    TooBig,
    #[error("NoMemory")]
    NoMemory,
}

impl From<MakeMap> for MakeView {
    ghost from_gives = { λ m v. v ≡ made_view m };

    fn from(e: MakeMap) -> MakeView {
        match e {
            MakeMap::Bad(bad) => MakeView::Bad(bad),
            MakeMap::TooBig => MakeView::TooBig,
            MakeMap::NoMemory => MakeView::NoMemory,
        }
    }
}

impl From<HeatFault> for MakeView {
    ghost from_gives = { λ fault v. v ≡ heated_view fault };

    fn from(e: HeatFault) -> MakeView {
        match e {
            HeatFault::TooBig => MakeView::TooBig,
            HeatFault::NoMemory => MakeView::NoMemory,
        }
    }
}

impl From<AllocError> for MakeView {
    ghost from_gives = { λ _ e. e ≡ NoMemory };

    fn from(_e: AllocError) -> MakeView {
        MakeView::NoMemory
    }
}

impl<T: Drop> From<AllocFailed<T>> for MakeView {
    ghost from_gives = { λ _ e. e ≡ NoMemory };

    fn from(_e: AllocFailed<T>) -> MakeView {
        MakeView::NoMemory
    }
}

/// Why a value of some lanes was not stored: the first lane whose value does not fit.
#[derive(Clone, Copy)]
pub struct LaneFault {
    pub lane: usize,
    pub fault: StoreFault,
}
