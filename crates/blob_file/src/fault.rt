ghost use Rattle.std.specs.Prelude.{◌≡◌};
ghost use Rattle.blob_file.specs.declared.fault.SaveEnd.TheVariants.{Failed as SinkFailed, NoMemory as NoRoom};
ghost use Rattle.blob_file.specs.declared.fault.FileFault.TheVariants.{Contents, NoMemory};

use layout_io::Failed;
use std::alloc::{AllocError, AllocFailed};
use thiserror::Error;
use views::StoreFault;

/// Why a view was not written as a file.
#[derive(Clone, Copy, Debug, PartialEq, Eq, Error)]
pub enum SaveEnd {
    /// One of the two texts of the header has more than 4,096 bytes.
    #[error("a text of the header has more than 4,096 bytes")]
    TooBig,
    /// A write failed.
    #[error("a write failed")]
    Failed,
    /// Memory ran out.
    #[error("memory ran out")]
    NoMemory,
}

impl From<AllocError> for SaveEnd {
    ghost from_gives = { λ _ end. end ≡ NoRoom };

    fn from(_error: AllocError) -> SaveEnd {
        SaveEnd::NoMemory
    }
}

impl From<Failed> for SaveEnd {
    ghost from_gives = { λ _ end. end ≡ SinkFailed };

    fn from(_error: Failed) -> SaveEnd {
        SaveEnd::Failed
    }
}

/// Why bytes were not opened as a view, in the order in which the causes are looked for.
#[derive(Clone, Copy, Debug, PartialEq, Eq, Error)]
pub enum FileFault {
    /// The first eight bytes are not those of a blob file.
    #[error("Magic")]
    Magic,
    /// Behind them there is no header: the number of its bytes, and the canonical texts of two lines.
    #[error("Header")]
    Header,
    /// No view is made of the header's record, extents and mapping.
    #[error("Layout")]
    Layout,
    /// The bytes behind the header are not as many as those of the blobs.
    #[error("Length")]
    Length,
    /// They are not the image of rows that such a view may hold.
    #[error("Contents")]
    Contents,
    /// Memory ran out.
    #[error("NoMemory")]
    NoMemory,
}

impl From<AllocError> for FileFault {
    ghost from_gives = { λ _ fault. fault ≡ NoMemory };

    fn from(_error: AllocError) -> FileFault {
        FileFault::NoMemory
    }
}

/// A number of a file that its leaf refuses.
impl From<StoreFault> for FileFault {
    ghost from_gives = { λ _ fault. fault ≡ Contents };

    fn from(_refused: StoreFault) -> FileFault {
        FileFault::Contents
    }
}

impl<T: Drop> From<AllocFailed<T>> for FileFault {
    ghost from_gives = { λ _ fault. fault ≡ NoMemory };

    fn from(_error: AllocFailed<T>) -> FileFault {
        FileFault::NoMemory
    }
}
