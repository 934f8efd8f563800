ghost use Rattle.std.specs.Prelude.{◌≡◌};
ghost use Rattle.command_checks.specs.declared.fault.StepFault.TheVariants.{Command, NoMemory, Sink};

use layout_io::Failed;
use std::alloc::{AllocError, AllocFailed};
use worlds::CommandFault;

/// Why a command was not done.
#[derive(Drop)]
pub enum StepFault {
    /// It is refused.
    Command(CommandFault),
    /// The file of a load or of an open was not read.
    Source,
    /// A write failed.
    Sink,
    NoMemory,
}

impl From<AllocError> for StepFault {
    ghost from_gives = { λ _ fault. fault ≡ NoMemory };

    fn from(_error: AllocError) -> StepFault {
        StepFault::NoMemory
    }
}

impl<T: Drop> From<AllocFailed<T>> for StepFault {
    ghost from_gives = { λ _ fault. fault ≡ NoMemory };

    fn from(_error: AllocFailed<T>) -> StepFault {
        StepFault::NoMemory
    }
}

impl From<Failed> for StepFault {
    ghost from_gives = { λ _ fault. fault ≡ Sink };

    fn from(_error: Failed) -> StepFault {
        StepFault::Sink
    }
}

impl From<CommandFault> for StepFault {
    ghost from_gives = { λ refusal fault. fault ≡ Command refusal };

    fn from(refusal: CommandFault) -> StepFault {
        StepFault::Command(refusal)
    }
}
