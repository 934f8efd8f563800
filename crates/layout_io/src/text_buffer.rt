// A buffer that gathers small pieces of text, so that a sink is called once for each 4,096 bytes.
ghost use Rattle.std.specs.Prelude.{◌≡◌, ℕ, ◌+◌, ◌≤◌, ◌<◌, List, [], ◌++◌, length, pos, IsOk, OnErr, flat_map};
ghost use Rattle.layout_io.specs.Writing.{Writes};
ghost use Rattle.layout_io.specs.Gathering.{Gathers, GathersOrStops, Puts};
ghost use Rattle.layout_io.specs.Decimal.{decimal_text, digits_text};

use crate::ends::{Failed, Sink};
use crate::whole::write_all;
use std::marker::Model;

/// How many bytes a `TextBuffer` holds at most, and each write but the last one of a text has.
pub const BUFFER_BYTES: usize = 4096;

/// A part of a text.
#[derive(Clone, Copy)]
pub enum Part<'a> {
    /// These bytes.
    Text(&'a [u8]),
    /// The decimal text of a count.
    Count(u64),
    /// The decimal text of a number.
    Number(i128),
}

/// The end of a text that was not yet handed to its sink. Contracts see it as the list of the bytes
/// that it holds.
#[derive(Drop)]
pub struct TextBuffer {
    bytes: [u8; 4096],
    length: usize,
}

impl Model for TextBuffer {
    ghost use Rattle.std.specs.Prelude.{ℕ, List, take, ◌≤◌};

    ghost Value = { List ℕ };

    ghost view = { λ b. take b.length b.bytes };

    ghost invariant = { λ b. b.length ≤ 4096 };
}

impl TextBuffer {
    ghost use Rattle.layout_io.specs.Inner.Parts.{text_of_part};

    /// A buffer that holds nothing.
    pub fn new() -> TextBuffer
        ensures { result ≡ [] }
    {
        TextBuffer {
            bytes: [0; 4096],
            length: 0,
        }
    }

    /// Appends the piece. Full buffers go to the sink on the way, and nothing else does. Where a
    /// write fails the buffer is left empty.
    #[inline]
    pub fn put<K: Sink>(&mut self, piece: &[u8], sink: &mut K) -> Result<(), Failed>
        ensures { Puts K.taken K.faults sink.old sink.new self.old self.new result piece.now }
    {
        if piece.len() <= self.room() {
            self.append(piece);
            return Ok(());
        }
        self.put_long(piece, sink)
    }

    /// Appends the decimal text of a number, as `put` does.
    pub fn put_number<K: Sink>(&mut self, value: &i128, sink: &mut K) -> Result<(), Failed>
        ensures { Puts K.taken K.faults sink.old sink.new self.old self.new result (decimal_text value.now) }
    {
        self.put(itoa::Buffer::new().format(*value).as_bytes(), sink)
    }

    /// Appends the decimal text of a count, as `put` does.
    pub fn put_count<K: Sink>(&mut self, count: u64, sink: &mut K) -> Result<(), Failed>
        ensures { Puts K.taken K.faults sink.old sink.new self.old self.new result (digits_text count) }
    {
        self.put(itoa::Buffer::new().format(count).as_bytes(), sink)
    }

    /// Appends the part, as `put` does.
    pub fn put_part<K: Sink>(&mut self, part: &Part<'_>, sink: &mut K) -> Result<(), Failed>
        ensures { Puts K.taken K.faults sink.old sink.new self.old self.new result (text_of_part part.now) }
    {
        match part {
            Part::Text(bytes) => self.put(bytes, sink),
            Part::Count(count) => self.put_count(*count, sink),
            Part::Number(value) => self.put_number(value, sink),
        }
    }

    /// Appends the parts one after another, as `put` does.
    pub fn put_parts<K: Sink>(&mut self, parts: &[Part<'_>], sink: &mut K) -> Result<(), Failed>
        ensures { Puts K.taken K.faults sink.old sink.new self.old self.new result (flat_map text_of_part parts.now) }
    {
        for part in parts {
            self.put_part(part, sink)?;
        }
        Ok(())
    }

    /// Hands what the buffer holds to the sink, and leaves the buffer empty. Where it holds nothing,
    /// no call is made.
    pub fn flush<K: Sink>(&mut self, sink: &mut K) -> Result<(), Failed>
        ensures writes { (first : K) (text : List ℕ)
            → Gathers K.taken K.faults first sink.old self.old text
            → Writes K.taken K.faults first sink.new result text }
        ensures emptied { self.new ≡ [] }
        ensures idle { self.old ≡ [] → (sink.new ≡ sink.old) × IsOk result }
    {
        let outcome = write_all(sink, &self.bytes[..self.length]);
        self.length = 0;
        outcome
    }

    // How many bytes more the buffer can hold.
    fn room(&self) -> usize
        ensures { result + length self.now ≡ 4096 }
    {
        BUFFER_BYTES - self.length
    }

    fn append(&mut self, piece: &[u8])
        requires { length self.old + length piece.now ≤ 4096 }
        ensures { self.new ≡ self.old ++ piece.now }
    {
        let end = self.length + piece.len();
        self.bytes[self.length..end].copy_from_slice(piece);
        self.length = end;
    }

    #[inline(never)]
    fn put_long<K: Sink>(&mut self, piece: &[u8], sink: &mut K) -> Result<(), Failed>
        requires { 4096 < length self.old + length piece.now }
        ensures gathers { (first : K) (text : List ℕ)
            → Gathers K.taken K.faults first sink.old self.old text
            → GathersOrStops K.taken K.faults first sink.new result self.new (text ++ piece.now) }
        ensures held { length self.new ≤ 4096 }
        ensures stopped { OnErr result (self.new ≡ []) }
    {
        let mut rest = piece;
        while self.room() < rest.len() {
            let (front, back) = rest.split_at(self.room());
            self.append(front);
            self.flush(sink)?;
            rest = back;
        }
        self.append(rest);
        Ok(())
    }
}

/// Writes the parts one after another as one text.
pub fn write_parts<K: Sink>(sink: &mut K, parts: &[&[u8]]) -> Result<(), Failed>
    ensures { Writes K.taken K.faults sink.old sink.new result (flat_map (λ part. part.now) parts.now) }
{
    let mut buffer = TextBuffer::new();
    for part in parts {
        buffer.put(part, sink)?;
    }
    buffer.flush(sink)
}
