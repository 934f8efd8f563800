ghost use Rattle.std.specs.Prelude.{◌≡◌};

use std::alloc::{AllocError as NoMemory, AllocFailed};
use thiserror::Error;

/// Why no phrase was read.
#[derive(Clone, Copy, Debug, Error)]
pub enum ReadError {
    /// Memory ran out.
    #[error("memory ran out")]
    NoMemory,
    /// So many tokens are left where they stop being the beginning of a phrase.
    #[error("the tokens are no phrase where {0} are left")]
    Syntax(usize),
}

impl From<NoMemory> for ReadError {
    ghost use Rattle.std.specs.Prelude.{◌≡◌};
    ghost use Rattle.line_phrases.specs.declared.fault.ReadError.TheVariants.{NoMemory};

    ghost from_gives = { λ _ e. e ≡ NoMemory };

    fn from(_e: NoMemory) -> ReadError {
        ReadError::NoMemory
    }
}

impl<T: Drop> From<AllocFailed<T>> for ReadError {
    ghost use Rattle.std.specs.Prelude.{◌≡◌};
    ghost use Rattle.line_phrases.specs.declared.fault.ReadError.TheVariants.{NoMemory};

    ghost from_gives = { λ _ e. e ≡ NoMemory };

    fn from(_e: AllocFailed<T>) -> ReadError {
        ReadError::NoMemory
    }
}
