ghost use Rattle.std.specs.Prelude.{◌≡◌};
ghost use Rattle.actors.specs.declared.fault.ActorFault.TheVariants as actor;
ghost use Rattle.actors.specs.declared.fault.CutFault.TheVariants as cut;

use row_updates::UpdateFault;
use std::alloc::{AllocError, AllocFailed};
use thiserror::Error;

/// Why rows are not split among actors at some cuts.
#[derive(Clone, Copy, Debug, PartialEq, Eq, Error)]
pub enum CutFault {
    /// A byte holds bits of rows of two actors. It is the first such byte, by blob, then byte.
    #[error("SharedByte blob {blob} byte {byte}")]
    SharedByte { blob: usize, byte: u64 },
    /// Memory ran out.
    #[error("memory ran out")]
    NoMemory,
}

impl From<AllocError> for CutFault {
    ghost from_gives = { λ _ fault. fault ≡ cut.NoMemory };

    fn from(_error: AllocError) -> CutFault {
        CutFault::NoMemory
    }
}

/// Why no run is made.
#[derive(Clone, Copy, Debug, PartialEq, Eq, Error)]
pub enum ActorFault {
    /// The plain update meets this fault.
    #[error("{0}")]
    Update(UpdateFault),
    /// Memory ran out.
    #[error("memory ran out")]
    NoMemory,
}

impl From<UpdateFault> for ActorFault {
    ghost from_gives = { λ fault met. met ≡ actor.Update fault };

    fn from(fault: UpdateFault) -> ActorFault {
        ActorFault::Update(fault)
    }
}

impl From<AllocError> for ActorFault {
    ghost from_gives = { λ _ fault. fault ≡ actor.NoMemory };

    fn from(_error: AllocError) -> ActorFault {
        ActorFault::NoMemory
    }
}

impl<T: Drop> From<AllocFailed<T>> for ActorFault {
    ghost from_gives = { λ _ fault. fault ≡ actor.NoMemory };

    fn from(_error: AllocFailed<T>) -> ActorFault {
        ActorFault::NoMemory
    }
}
