// The lines of a header, cut and read.
ghost use Rattle.std.specs.Prelude.{ℕ, ◌≡◌, ◌≢◌, ◌<◌, ◌≤◌, ◌⊎◌, MatchOption, IfNone, IfSome, IfOk, IfErr, OnOk, Some, None, true, false, length, slice_index};
ghost use Rattle.blob_file.specs.Imports.{sentence_of, canonical, HasItsFields};
ghost use Rattle.blob_file.specs.Opened.{bytes_to_line_end, line_told, same_bytes};
ghost use Rattle.blob_file.specs.Inner.Refusals.{refusal};
ghost use Rattle.blob_file.specs.declared.fault.FileFault.TheVariants as fault;

use crate::fault::FileFault;
use schema_lang::{Line, LineFault, MAX_LINE_BYTES, Version, parse_line, write_line};
use std::alloc::Global;

/// The bytes before the first LF, and those behind it.
pub fn cut_line(bytes: &[u8]) -> Option<(&[u8], &[u8])>
    ensures { MatchOption result (bytes_to_line_end bytes.now ≡ None) (λ cut. bytes_to_line_end bytes.now ≡ Some (cut.0.now, cut.1.now)) }
{
    match line_end(bytes) {
        Some(end) => Some((&bytes[..end], &bytes[end + 1..])),
        None => None,
    }
}

// The place of the first LF.
fn line_end(bytes: &[u8]) -> Option<usize>
    ensures within { IfSome result (λ end. end < length bytes.now) }
    ensures found { IfSome result (λ end. slice_index bytes.now end ≡ 10) }
    ensures before { IfSome result (λ end. (k : ℕ) → k < end → slice_index bytes.now k ≢ 10) }
    ensures none { IfNone result ((k : ℕ) → k < length bytes.now → slice_index bytes.now k ≢ 10) }
{
    for (at, byte) in bytes.iter().enumerate() {
        if *byte == b'\n' {
            return Some(at);
        }
    }
    None
}

/// The line of which a text is the canonical one in the second version of the language. `Header` comes exactly where it is none, or passes a
/// limit on lines.
pub fn read_line(alloc: Global, text: &[u8]) -> Result<Line, FileFault>
    ensures told { IfOk result (λ line. line_told text.now ≡ Some (sentence_of line)) }
    ensures whole { IfOk result HasItsFields }
    ensures short { OnOk result (length text.now ≤ 4096) }
    ensures refused { IfErr result (λ found. (found ≡ fault.NoMemory) ⊎ ((found ≡ fault.Header) × (line_told text.now ≡ None))) }
{
    if text.len() > MAX_LINE_BYTES {
        return Err(FileFault::Header);
    }
    match parse_line(alloc, text, Version::Two) {
        Ok(line) => spelled(alloc, line, text),
        Err(fault) => Err(refusal(fault)),
    }
}

// The line, where a text is its canonical one.
fn spelled(alloc: Global, line: Line, text: &[u8]) -> Result<Line, FileFault>
    ensures same { IfOk result (λ same. (same ≡ line) × (same_bytes (canonical (sentence_of line)) text.now ≡ true)) }
    ensures other { IfErr result (λ found. (found ≡ fault.NoMemory) ⊎ ((found ≡ fault.Header) × (same_bytes (canonical (sentence_of line)) text.now ≡ false))) }
{
    match spelling(alloc, &line, text) {
        Ok(()) => Ok(line),
        Err(fault) => {
            drop(line);
            Err(fault)
        }
    }
}

// The fault of a text that is not the canonical one of a line.
fn spelling(alloc: Global, line: &Line, text: &[u8]) -> Result<(), FileFault>
    ensures same { OnOk result (same_bytes (canonical (sentence_of line.now)) text.now ≡ true) }
    ensures other { IfErr result (λ found. (found ≡ fault.NoMemory) ⊎ ((found ≡ fault.Header) × (same_bytes (canonical (sentence_of line.now)) text.now ≡ false))) }
{
    let written = write_line(alloc, line)?;
    if is_same(written.as_str().as_bytes(), text) {
        Ok(())
    } else {
        Err(FileFault::Header)
    }
}

// The fault of a text that is no line.
fn refusal(fault: LineFault) -> FileFault
    ensures { result ≡ refusal fault }
{
    match fault {
        LineFault::Syntax { .. } | LineFault::TooDeep => FileFault::Header,
        LineFault::NoMemory => FileFault::NoMemory,
    }
}

/// Whether both are the same bytes.
pub fn is_same(written: &[u8], text: &[u8]) -> bool
    ensures { result ≡ same_bytes written.now text.now }
{
    written == text
}
