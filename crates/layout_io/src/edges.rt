// The real edges: files of the system, and a writer such as standard output. They count faults and
// tell nothing else.
ghost use Rattle.std.specs.Prelude.{◌≡◌, ◌≤◌, ◌<◌, None, length, IfOk};
ghost use Rattle.std.specs.Io.{ReadsAtMost, WritesAtMost};
ghost use Rattle.std.specs.Io.KnownBytes.{ReadConsumes, WriteAppends};

use crate::ends::{Failed, Shelf, Sink};
use std::fs::File;
use std::io::{ErrorKind, Read, Seek, SeekFrom, Write};
use std::rt::Files;

// The longest name, in bytes, of a file that stays open between two reads: it is kept whole. Linux
// opens none of a longer one.
const NAME_BYTES: usize = 4096;

// One read, tried again where a signal interrupted it.
fn read_some<F: Read>(file: &mut F, into: &mut [u8]) -> Result<usize, Failed>
    ensures bound { ReadsAtMost result into.new }
    ensures bytes { ReadConsumes (F.remaining file.old) (F.remaining file.new) result into.new }
{
    for _ in 0..u64::MAX {
        match file.read(into) {
            Ok(count) => return Ok(count),
            Err(error) if error.kind() == ErrorKind::Interrupted => {}
            Err(_) => return Err(Failed),
        }
    }
    Err(Failed)
}

// One write, tried again where a signal interrupted it. One of a byte or more takes at least one.
fn write_some<W: Write>(writer: &mut W, bytes: &[u8]) -> Result<usize, Failed>
    ensures bound { WritesAtMost result bytes.now }
    ensures moves { IfOk result (λ count. 0 < length bytes.now → 0 < count) }
    ensures bytes { WriteAppends (W.contents writer.old) (W.contents writer.new) result bytes.now }
{
    for _ in 0..u64::MAX {
        match writer.write(bytes) {
            Ok(count) if count > 0 || bytes.is_empty() => return Ok(count),
            Err(error) if error.kind() == ErrorKind::Interrupted => {}
            _ => return Err(Failed),
        }
    }
    Err(Failed)
}

/// The files of a runtime. Each error that it meets is counted. The file of the last read stays
/// open, so that the next piece of it costs neither an open nor a seek, and a pipe is read whole.
#[derive(Drop)]
pub struct FileShelf<R: Files + Drop> {
    files: R,
    opened: Option<Opened<R::File>>,
    // The name of the open file. It stays in its place, since it is too long to be moved at each
    // read.
    name: OpenedName,
    faults: u64,
}

// An open file, and where the next read of it begins.
#[derive(Drop)]
struct Opened<F> {
    file: F,
    at: u64,
}

impl<F: Read> Opened<F> {
    fn read(&mut self, into: &mut [u8]) -> Result<usize, Failed>
        ensures { ReadsAtMost result into.new }
    {
        let count = read_some(&mut self.file, into)?;
        self.at = self.at.saturating_add(count as u64);
        Ok(count)
    }
}

// A name, kept whole where it has at most `NAME_BYTES`. No name is a longer one.
#[derive(Drop)]
struct OpenedName {
    bytes: [u8; 4096],
    length: usize,
}

impl OpenedName {
    fn new() -> OpenedName {
        OpenedName {
            bytes: [0; NAME_BYTES],
            length: 0,
        }
    }

    fn set(&mut self, name: &str) {
        let kept = name.len().min(NAME_BYTES);
        self.bytes[..kept].copy_from_slice(&name.as_bytes()[..kept]);
        self.length = name.len();
    }

    fn is(&self, name: &str) -> bool {
        self.length <= NAME_BYTES && &self.bytes[..self.length] == name.as_bytes()
    }
}

// Opens a file for a read from this place.
fn open_anew<R: Files>(files: &R, name: &str, at: u64) -> Result<Opened<R::File>, Failed> {
    let Ok(mut file) = File::open(files, name) else {
        return Err(Failed);
    };
    if at > 0 && file.seek(SeekFrom::Start(at)).is_err() {
        return Err(Failed);
    }
    Ok(Opened { file, at })
}

impl<R: Files + Drop> FileShelf<R> {
    /// A shelf over the files of this runtime, with no fault.
    pub fn new(files: R) -> FileShelf<R>
        ensures { ⟦<FileShelf<R> as Shelf>⟧.faults result ≡ 0 }
    {
        FileShelf {
            files,
            opened: None,
            name: OpenedName::new(),
            faults: 0,
        }
    }

    // The file at this place: the open one, where its next read is this one.
    fn open_at(&mut self, name: &str, at: u64) -> Result<Opened<R::File>, Failed>
        ensures { self.new.faults ≡ self.old.faults }
    {
        match self.opened.take() {
            Some(opened) if opened.at == at && self.name.is(name) => Ok(opened),
            _ => {
                self.name.set(name);
                open_anew(&self.files, name, at)
            }
        }
    }

    fn read_piece(&mut self, name: &str, at: u64, into: &mut [u8]) -> Result<usize, Failed>
        ensures bound { ReadsAtMost result into.new }
        ensures faults { self.new.faults ≡ self.old.faults }
    {
        let mut opened = self.open_at(name, at)?;
        let count = opened.read(into)?;
        if count > 0 {
            self.opened = Some(opened);
        }
        Ok(count)
    }
}

impl<R: Files + Drop> Shelf for FileShelf<R> {
    ghost files = { λ _. None };

    ghost faults = { λ s. s.faults };

    fn read_at(&mut self, name: &str, at: u64, into: &mut [u8]) -> Result<usize, Failed> {
        match self.read_piece(name, at, into) {
            Ok(count) => Ok(count),
            Err(Failed) => {
                self.faults = self.faults.saturating_add(1);
                Err(Failed)
            }
        }
    }
}

/// What writes to a writer, as standard output. Each error that it meets is counted, and so is a
/// write of a byte or more that took nothing.
#[derive(Drop)]
pub struct OutSink<W: Write + Drop> {
    writer: W,
    faults: u64,
}

impl<W: Write + Drop> OutSink<W> {
    /// A sink over this writer, with no fault.
    pub fn new(writer: W) -> OutSink<W>
        ensures { ⟦<OutSink<W> as Sink>⟧.faults result ≡ 0 }
    {
        OutSink { writer, faults: 0 }
    }
}

impl<W: Write + Drop> Sink for OutSink<W> {
    ghost taken = { λ _. None };

    ghost faults = { λ s. s.faults };

    fn write(&mut self, bytes: &[u8]) -> Result<usize, Failed> {
        match write_some(&mut self.writer, bytes) {
            Ok(count) => Ok(count),
            Err(Failed) => {
                self.faults = self.faults.saturating_add(1);
                Err(Failed)
            }
        }
    }
}
