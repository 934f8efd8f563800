// A view, written as a file.
ghost use Rattle.std.specs.Prelude.{◌≡◌, ◌⊎◌, ◌+◌, ◌≤◌, [], ◌∷◌, ◌++◌, length, take, drop, IfOk, IfErr, OnOk};
ghost use Rattle.blob_file.specs.Imports.{Puts, Writes, joined};
ghost use Rattle.blob_file.specs.Files.{four_bytes, two_lines, file_of, record_text, view_text, IsShort, IsFile};
ghost use Rattle.blob_file.specs.Saving.{header_of, blobs_of, head_of, IsSaved};
ghost use Rattle.blob_file.specs.declared.fault.SaveEnd.TheVariants.{TooBig, NoMemory};

use crate::fault::SaveEnd;
use crate::texts::{record_text, view_text};
use blobs::Blob;
use layout_io::{BUFFER_BYTES, Failed, Sink, TextBuffer, write_all};
use places::{Mapping, laws_of};
use record_dim::Text;
use schema_lang::MAX_LINE_BYTES;
use std::alloc::Global;
use views::{View, laws_of_table};

/// The first bytes of each file.
pub const MAGIC: [u8; 8] = [b'L', b'L', b'A', b'M', b'A', b'B', b'1', b'\n'];

// The most bytes of a blob that go to the sink at once.
const BLOCK_BYTES: usize = 16_384;

/// Writes a view as a file: a header, which says its record, its extents, how it stores and its mapping, and the bytes of its blobs. `TooBig`
/// comes exactly where a text of the header has more than 4,096 bytes. All memory is taken before the first write. A blob of more than 4,096
/// bytes is written in blocks of 16,384, and smaller ones are gathered.
pub fn write_file<K: Sink>(alloc: Global, view: &View, sink: &mut K) -> Result<(), SaveEnd>
    ensures saved { IsSaved K.taken K.faults sink.old sink.new (header_of view.now) (blobs_of view.now) result }
    ensures file { IsShort (header_of view.now) → IsFile (file_of (header_of view.now) (blobs_of view.now)) (header_of view.now) (blobs_of view.now) }
{
    laws_of_table(view);
    let (record, shown) = header_texts(alloc, view)?;
    put_file(
        view,
        record.as_str().as_bytes(),
        shown.as_str().as_bytes(),
        sink,
    )?;
    Ok(())
}

/// How many bytes the file of a view has. Only the texts of its header are made. `TooBig` comes exactly where it does of `write_file`.
pub fn file_len(alloc: Global, view: &View) -> Result<usize, SaveEnd>
    ensures len { IfOk result (λ len. len ≡ length (file_of (header_of view.now) (blobs_of view.now))) }
    ensures short { OnOk result (IsShort (header_of view.now)) }
    ensures refused { IfErr result (λ end. (end ≡ NoMemory) ⊎ ((end ≡ TooBig) × (IsShort (header_of view.now) → ⊥))) }
{
    laws_of(view.map());
    let (record, shown) = header_texts(alloc, view)?;
    let lines = lines_len(record.as_str().as_bytes(), shown.as_str().as_bytes());
    Ok(MAGIC.len() + 4 + lines + view.blob_bytes() as usize)
}

// The two texts of the header of a view, neither of which is too long.
fn header_texts(alloc: Global, view: &View) -> Result<(Text, Text), SaveEnd>
    ensures record { IfOk result (λ texts. texts.0 ≡ record_text (header_of view.now)) }
    ensures shown { IfOk result (λ texts. texts.1 ≡ view_text (header_of view.now)) }
    ensures short { OnOk result (IsShort (header_of view.now)) }
    ensures refused { IfErr result (λ end. (end ≡ NoMemory) ⊎ ((end ≡ TooBig) × (IsShort (header_of view.now) → ⊥))) }
{
    let record = record_text(alloc, view)?;
    let shown = view_text(alloc, view)?;
    if record.as_str().len().max(shown.as_str().len()) > MAX_LINE_BYTES {
        return Err(SaveEnd::TooBig);
    }
    Ok((record, shown))
}

// Writes the file whose header has these texts.
fn put_file<K: Sink>(view: &View, first: &[u8], second: &[u8], sink: &mut K) -> Result<(), Failed>
    requires few { length first.now ≤ 4096 }
    requires less { length second.now ≤ 4096 }
    ensures { Writes K.taken K.faults sink.old sink.new result
        (head_of first.now second.now ++ joined (blobs_of view.now)) }
{
    let mut buffer = TextBuffer::new();
    put_header(first, second, &mut buffer, sink)?;
    put_blobs(view, &mut buffer, sink)?;
    buffer.flush(sink)
}

fn put_header<K: Sink>(
    first: &[u8],
    second: &[u8],
    buffer: &mut TextBuffer,
    sink: &mut K,
) -> Result<(), Failed>
    requires few { length first.now ≤ 4096 }
    requires less { length second.now ≤ 4096 }
    ensures { Puts K.taken K.faults sink.old sink.new buffer.old buffer.new result
        (head_of first.now second.now) }
{
    let size = size_of(first, second);
    buffer.put(&MAGIC, sink)?;
    buffer.put(&size, sink)?;
    put_line(first, buffer, sink)?;
    put_line(second, buffer, sink)
}

// Puts a text and LF.
fn put_line<K: Sink>(text: &[u8], buffer: &mut TextBuffer, sink: &mut K) -> Result<(), Failed>
    ensures { Puts K.taken K.faults sink.old sink.new buffer.old buffer.new result (text.now ++ 10 ∷ []) }
{
    buffer.put(text, sink)?;
    buffer.put(b"\n", sink)
}

/// The number of bytes of two texts, each with LF behind it, as a file says it.
pub fn size_of(first: &[u8], second: &[u8]) -> [u8; 4]
    requires few { length first.now ≤ 4096 }
    requires less { length second.now ≤ 4096 }
    ensures { result ≡ four_bytes (length (two_lines first.now second.now)) }
{
    let size = lines_len(first, second) as u32;
    size.to_le_bytes()
}

// The same as a number.
fn lines_len(first: &[u8], second: &[u8]) -> usize
    requires few { length first.now ≤ 4096 }
    requires less { length second.now ≤ 4096 }
    ensures lines { result ≡ length (two_lines first.now second.now) }
    ensures few { result ≤ 8194 }
{
    first.len() + second.len() + 2
}

// Puts the bytes of all blobs, in order.
fn put_blobs<K: Sink>(view: &View, buffer: &mut TextBuffer, sink: &mut K) -> Result<(), Failed>
    ensures { Puts K.taken K.faults sink.old sink.new buffer.old buffer.new result (joined (blobs_of view.now)) }
{
    for b in 0..view.map().blob_count() {
        let blob = view.blob(b);
        blob.bytes_law();
        put_blob(blob, buffer, sink)?;
    }
    Ok(())
}

// Puts the bytes of a blob. One that the buffer cannot hold goes to the sink itself, behind what was put before it.
fn put_blob<K: Sink>(blob: &Blob, buffer: &mut TextBuffer, sink: &mut K) -> Result<(), Failed>
    ensures { Puts K.taken K.faults sink.old sink.new buffer.old buffer.new result blob.now }
{
    if blob.len() > BUFFER_BYTES {
        buffer.flush(sink)?;
        return write_blob(blob, sink);
    }
    let mut block = [0; BUFFER_BYTES];
    let bytes = &mut block[..blob.len()];
    copy_out(blob, 0, bytes);
    buffer.put(bytes, sink)
}

// Writes the bytes of a blob, block after block.
fn write_blob<K: Sink>(blob: &Blob, sink: &mut K) -> Result<(), Failed>
    ensures { Writes K.taken K.faults sink.old sink.new result blob.now }
{
    let mut block = [0; BLOCK_BYTES];
    let mut done = 0;
    while done < blob.len() {
        let len = BLOCK_BYTES.min(blob.len() - done);
        let bytes = &mut block[..len];
        copy_out(blob, done, bytes);
        write_all(sink, bytes)?;
        done += len;
    }
    Ok(())
}

// Makes bytes those of a blob from a place on. The loop becomes a copy of sixteen at a time.
fn copy_out(blob: &Blob, from: usize, bytes: &mut [u8])
    requires { from + length bytes.old ≤ length blob.now }
    ensures { bytes.new ≡ take (length bytes.old) (drop from blob.now) }
{
    let there = blob.len() - from;
    prove!(bytes.len() <= there);
    for at in 0..bytes.len() {
        bytes[at] = blob.get(from + at);
    }
}
