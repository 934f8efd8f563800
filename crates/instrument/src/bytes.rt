ghost use Rattle.std.specs.Prelude.{◌≡◌, ◌<◌, flat_map};
ghost use Rattle.std.specs.List.{enumerate_from};
ghost use Rattle.blobs.specs.Bits.{bits_of};
ghost use Rattle.layout_io.specs.Prelude.{Puts, Writes};
ghost use Rattle.instrument.specs.BlobTexts.{bytes_of, hex_digit, byte_text, line_end, bytes_text};

use blobs::Blob;
use layout_io::{Failed, Sink, TextBuffer};

/// Writes the bytes of a blob as hexadecimal digits, 16 bytes a line. A blob without bytes gives no line.
#[tactic(auto, unfolding(crate::specs::BlobTexts::bytes_text))]
pub fn write_bytes<K: Sink>(blob: &Blob, sink: &mut K) -> Result<(), Failed>
    ensures { Writes K.taken K.faults sink.old sink.new result (bytes_text (bytes_of (bits_of blob.now))) }
{
    let mut buffer = TextBuffer::new();
    put_bytes(blob, &mut buffer, sink)?;
    put_line_end(blob, &mut buffer, sink)?;
    buffer.flush(sink)
}

// The bytes, and what stands before each.
fn put_bytes<K: Sink>(blob: &Blob, buffer: &mut TextBuffer, sink: &mut K) -> Result<(), Failed>
    ensures { Puts K.taken K.faults sink.old sink.new buffer.old buffer.new result
        (flat_map byte_text (enumerate_from 0 (bytes_of (bits_of blob.now)))) }
{
    for at in 0..blob.len() {
        put_byte(at, blob.get(at), buffer, sink)?;
    }
    Ok(())
}

// The end of the last line, where there is one.
fn put_line_end<K: Sink>(blob: &Blob, buffer: &mut TextBuffer, sink: &mut K) -> Result<(), Failed>
    ensures { Puts K.taken K.faults sink.old sink.new buffer.old buffer.new result (line_end (bytes_of (bits_of blob.now))) }
{
    if blob.len() == 0 {
        return Ok(());
    }
    buffer.put(b"\n", sink)
}

fn put_byte<K: Sink>(
    at: usize,
    byte: u8,
    buffer: &mut TextBuffer,
    sink: &mut K,
) -> Result<(), Failed>
    ensures { Puts K.taken K.faults sink.old sink.new buffer.old buffer.new result (byte_text (at, byte)) }
{
    let high = hex_digit(byte / 16);
    let low = hex_digit(byte % 16);
    if at == 0 {
        return buffer.put(&[high, low], sink);
    }
    if at % 16 == 0 {
        return buffer.put(&[b'\n', high, low], sink);
    }
    buffer.put(&[b' ', high, low], sink)
}

fn hex_digit(digit: u8) -> u8
    requires { digit < 16 }
    ensures { result ≡ hex_digit digit }
{
    if digit < 10 {
        b'0' + digit
    } else {
        b'a' + (digit - 10)
    }
}
