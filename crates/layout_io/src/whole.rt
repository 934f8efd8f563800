// Whole files and whole texts: loops over the single reads and writes.
ghost use Rattle.std.specs.Prelude.{◌≡◌, ◌⊎◌, [], ◌<◌, ◌≤◌, IsOk, Err, IsErrOf};
ghost use Rattle.layout_io.specs.Writing.{Writes};
ghost use Rattle.layout_io.specs.Files.{IsMissing};
ghost use Rattle.layout_io.specs.Reading.{ReadsWhole};

use crate::ends::{Failed, Shelf, Sink};
use std::alloc::Global;
use std::marker::Model;
use thiserror::Error;

// How many bytes one read asks for.
const PIECE_BYTES: usize = 65_536;

/// The bytes of a whole file. Contracts see them as a list.
#[derive(Drop)]
pub struct Bytes {
    bytes: Vec<u8>,
}

impl Model for Bytes {
    ghost use Rattle.std.specs.Prelude.{ℕ, List};

    ghost Value = { List ℕ };

    ghost view = { λ b. b.bytes.items };
}

impl Bytes {
    /// The bytes, in their order.
    pub fn as_slice(&self) -> &[u8]
        ensures { result.now ≡ self.now }
    {
        self.bytes.as_slice()
    }
}

/// Why a file was not read.
#[derive(Clone, Copy, Debug, PartialEq, Eq, Error)]
pub enum ReadEnd {
    /// A read failed, or the file is not there.
    #[error("a read failed, or the file is not there")]
    Failed,
    /// The file has more bytes than the limit.
    #[error("the file has more bytes than the limit")]
    TooLong,
    /// There was no memory for the bytes.
    #[error("there was no memory for the bytes")]
    NoMemory,
}

/// Reads the whole file, of at most `limit` bytes.
pub fn read_all<H: Shelf>(
    alloc: Global,
    shelf: &mut H,
    name: &str,
    limit: usize,
) -> Result<Bytes, ReadEnd>
    ensures files { H.files shelf.new ≡ H.files shelf.old }
    ensures whole { ReadsWhole (H.files shelf.old) name.now limit (H.faults shelf.old) (H.faults shelf.new) result }
    ensures missing { IsMissing (H.files shelf.old) name.now
        → IsErrOf result ReadEnd.Failed × (H.faults shelf.new ≡ H.faults shelf.old) }
{
    let mut bytes = Vec::new(alloc);
    let mut piece = [0u8; PIECE_BYTES];
    loop {
        let Ok(count) = shelf.read_at(name, bytes.len() as u64, &mut piece) else {
            return Err(ReadEnd::Failed);
        };
        if count == 0 {
            return Ok(Bytes { bytes });
        }
        if limit - bytes.len() < count {
            return Err(ReadEnd::TooLong);
        }
        if bytes.extend_from_slice(&piece[..count]).is_err() {
            return Err(ReadEnd::NoMemory);
        }
    }
}

/// Writes all of the bytes. Where a write fails, a proper prefix of them was taken.
pub fn write_all<K: Sink>(sink: &mut K, bytes: &[u8]) -> Result<(), Failed>
    ensures writes { Writes K.taken K.faults sink.old sink.new result bytes.now }
    ensures idle { bytes.now ≡ [] → (sink.new ≡ sink.old) × IsOk result }
{
    let mut done = 0;
    while done < bytes.len() {
        done += sink.write(&bytes[done..])?;
    }
    Ok(())
}
