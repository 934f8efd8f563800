// The records of a text without quotes, read in place.
ghost use Rattle.std.specs.Prelude.{◌≡◌, ◌<◌, true, false, get_or, length};
ghost use Rattle.csv_rows.specs.Inner.Unquoted.{is_line_end, line_start, HasNoQuote, IsAt};
ghost use Rattle.csv_rows.specs.Inner.Readers.{text_behind};

use crate::line::{Line, from_place};
use crate::number::unspaced;
use crate::reads::Records;
use std::alloc::AllocError as NoMemory;

/// The records of a text without quotes, which are its lines that have a byte. Each is read where it stands, up to its end.
#[derive(Drop)]
pub struct Lines<'a> {
    /// The text from the line that was read last on, or the whole text.
    pub line: Line<'a>,
    /// Whether a line was read.
    pub is_begun: bool,
}

impl<'a> Lines<'a> {
    // The text behind the line that was read last.
    #[inline(always)]
    fn behind(&self) -> &'a [u8]
        requires { IsAt self.now.line.text.now self.now.line.column self.now.line.start self.now.line.known }
        ensures { result.now ≡ text_behind self.now.is_begun self.now.line.text.now }
    {
        if self.is_begun {
            return self.line.behind();
        }
        self.line.text
    }
}

impl Records for Lines<'_> {
    ghost use Rattle.std.specs.List.{slice_split};
    ghost use Rattle.csv.specs.declared.parser.State.TheVariants as st;
    ghost use Rattle.csv_rows.specs.Inner.Unquoted.{is_comma, first_line, HasNoQuote, IsAt};
    ghost use Rattle.csv_rows.specs.Inner.Readers.{rows_from, text_behind};

    ghost left = { λ lines. rows_from st.StartRecord (text_behind lines.is_begun lines.line.text.now) };

    ghost fields = { λ lines. slice_split is_comma (first_line lines.line.text.now) };

    ghost stands = { λ lines. IsAt lines.line.text.now lines.line.column lines.line.start lines.line.known × HasNoQuote lines.line.text.now };

    #[inline(always)]
    fn next(&mut self) -> Result<bool, NoMemory> {
        let text = behind_ends(self.behind());
        if text.is_empty() {
            return Ok(false);
        }
        self.line = Line::new(text);
        self.is_begun = true;
        Ok(true)
    }

    fn is_named(&mut self, column: usize, name: &[u8]) -> Option<bool> {
        let field = self.line.field(column)?;
        Some(unspaced(field) == name)
    }

    #[inline(always)]
    fn number(&mut self, column: usize) -> Option<Option<i128>> {
        self.line.number(column)
    }
}

/// The records of a text without quotes. It takes no memory.
pub fn lines_of(text: &[u8]) -> Lines<'_>
    requires { HasNoQuote text.now }
    ensures at { IsAt result.line.text.now result.line.column result.line.start result.line.known }
    ensures plain { HasNoQuote result.line.text.now }
    ensures text { text_behind result.is_begun result.line.text.now ≡ text.now }
{
    Lines {
        line: Line::new(text),
        is_begun: false,
    }
}

/// What stands behind the ends of lines at the start. Most often this is one end.
#[inline(always)]
pub fn behind_ends(bytes: &[u8]) -> &[u8]
    ensures { result.now ≡ line_start bytes.now }
{
    if has_one_end(bytes) {
        return from_place(bytes, 1);
    }
    behind_all_ends(bytes)
}

// Whether one end of a line stands at the start, and another byte behind it.
#[inline(always)]
fn has_one_end(bytes: &[u8]) -> bool
    ensures { result ≡ true → (1 < length bytes.now) × (is_line_end (get_or bytes.now 0 0) ≡ true) × (is_line_end (get_or bytes.now 1 0) ≡ false) }
{
    bytes.len() > 1 && is_line_end(bytes[0]) && !is_line_end(bytes[1])
}

// The same of any number of ends.
#[inline(never)]
fn behind_all_ends(bytes: &[u8]) -> &[u8]
    ensures { result.now ≡ line_start bytes.now }
{
    for start in 0..bytes.len() {
        if !is_line_end(bytes[start]) {
            return &bytes[start..];
        }
    }
    &bytes[bytes.len()..]
}

/// Whether a byte ends a line.
pub fn is_line_end(byte: u8) -> bool
    ensures { result ≡ is_line_end byte }
{
    byte == b'\r' || byte == b'\n'
}
