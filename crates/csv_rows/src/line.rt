// The fields of a line, asked for one after another.
ghost use Rattle.std.specs.Prelude.{◌≡◌, ◌+◌, ◌≤◌, ◌<◌, ◌^◌, None, MatchBool, IfSome, drop, length, get_or, true, false, option_map};
ghost use Rattle.std.specs.List.{slice_get, slice_split};
ghost use Rattle.csv_rows.specs.Datasets.{unspaced, number_behind_sign};
ghost use Rattle.piece_bits.specs.Prelude.{shortened};
ghost use Rattle.csv_rows.specs.Inner.Unquoted.{is_comma, is_line_end, line_length, first_line, behind_line, IsFieldHere, IsAt};

use crate::number::{field_number, plain_number};
use memchr::{memchr2, memchr3};

/// The first line of a text, and the place in it from which the next field is looked for. No field is copied or kept, and the line's end
/// is not looked for before its last field.
#[derive(Drop)]
pub struct Line<'a> {
    pub text: &'a [u8],
    pub column: usize,
    pub start: usize,
    /// The length of the line, where it was found.
    pub known: Option<usize>,
}

impl<'a> Line<'a> {
    /// The first line of a text, at its first field.
    pub fn new(text: &'a [u8]) -> Line<'a>
        ensures text { result.text.now ≡ text.now }
        ensures at { IsAt result.text.now result.column result.start result.known }
    {
        Line {
            text,
            column: 0,
            start: 0,
            known: None,
        }
    }

    /// What stands from the end of the line on.
    #[inline(always)]
    pub fn behind(&self) -> &'a [u8]
        requires { IsAt self.now.text.now self.now.column self.now.start self.now.known }
        ensures { result.now ≡ behind_line self.now.text.now }
    {
        if let Some(length) = self.known {
            return from_place(self.text, length);
        }
        self.behind_far()
    }

    // The same, where the line's end has to be looked for.
    #[inline(never)]
    fn behind_far(&self) -> &'a [u8]
        requires { IsAt self.now.text.now self.now.column self.now.start self.now.known }
        ensures { result.now ≡ behind_line self.now.text.now }
    {
        let rest = self.rest();
        match memchr2(b'\r', b'\n', rest) {
            Some(end) => from_place(rest, end),
            None => from_place(rest, rest.len()),
        }
    }

    /// The field of a column, if there is one.
    pub fn field(&mut self, column: usize) -> Option<&'a [u8]>
        requires { IsAt self.old.text.now self.old.column self.old.start self.old.known }
        ensures text { self.new.text.now ≡ self.old.text.now }
        ensures at { IsAt self.new.text.now self.new.column self.new.start self.new.known }
        ensures few { IfSome result (λ field. column + 1 < 2 ^ 64) }
        ensures field { option_map (λ field. field.now) result ≡ slice_get (slice_split is_comma (first_line self.old.text.now)) column }
    {
        if !self.seek(column) {
            return None;
        }
        let rest = self.rest();
        let count = first_field(rest);
        self.step(count);
        Some(&rest[..count])
    }

    /// The number of the field of a column, if there is such a column, and it is a number. What most fields need stands in the loop of the
    /// caller.
    #[inline(always)]
    pub fn number(&mut self, column: usize) -> Option<Option<i128>>
        requires { IsAt self.old.text.now self.old.column self.old.start self.old.known }
        ensures text { self.new.text.now ≡ self.old.text.now }
        ensures at { IsAt self.new.text.now self.new.column self.new.start self.new.known }
        ensures number { result ≡ option_map (λ field. option_map shortened (number_behind_sign (unspaced field))) (slice_get (slice_split is_comma (first_line self.old.text.now)) column) }
    {
        if !self.seek(column) {
            return None;
        }
        if let Some((value, count)) = plain_number(self.rest()) {
            self.step(count);
            return Some(Some(value));
        }
        self.far_number(column)
    }

    // The same of any field.
    #[inline(never)]
    fn far_number(&mut self, column: usize) -> Option<Option<i128>>
        requires { IsAt self.old.text.now self.old.column self.old.start self.old.known }
        ensures text { self.new.text.now ≡ self.old.text.now }
        ensures at { IsAt self.new.text.now self.new.column self.new.start self.new.known }
        ensures number { result ≡ option_map (λ field. option_map shortened (number_behind_sign (unspaced field))) (slice_get (slice_split is_comma (first_line self.old.text.now)) column) }
    {
        let field = self.field(column)?;
        Some(field_number(field))
    }

    // Goes to the field of a column, if there is one.
    #[inline(always)]
    fn seek(&mut self, column: usize) -> bool
        requires { IsAt self.old.text.now self.old.column self.old.start self.old.known }
        ensures text { self.new.text.now ≡ self.old.text.now }
        ensures at { IsAt self.new.text.now self.new.column self.new.start self.new.known }
        ensures there { MatchBool result
            (self.new.column ≡ column)
            (slice_get (slice_split is_comma (first_line self.old.text.now)) column ≡ None) }
    {
        if self.column == column {
            return true;
        }
        self.seek_far(column)
    }

    // The same of a column at which the line does not stand.
    #[inline(never)]
    fn seek_far(&mut self, column: usize) -> bool
        requires { IsAt self.old.text.now self.old.column self.old.start self.old.known }
        ensures text { self.new.text.now ≡ self.old.text.now }
        ensures at { IsAt self.new.text.now self.new.column self.new.start self.new.known }
        ensures there { MatchBool result
            (self.new.column ≡ column)
            (slice_get (slice_split is_comma (first_line self.old.text.now)) column ≡ None) }
    {
        self.restart(column);
        while self.column < column {
            let count = first_field(self.rest());
            if !self.step(count) {
                return false;
            }
        }
        true
    }

    // Goes to the first field, unless the column is still to come.
    fn restart(&mut self, column: usize)
        requires { IsAt self.old.text.now self.old.column self.old.start self.old.known }
        ensures text { self.new.text.now ≡ self.old.text.now }
        ensures at { IsAt self.new.text.now self.new.column self.new.start self.new.known }
        ensures low { self.new.column ≤ column }
    {
        if self.column <= column {
            return;
        }
        self.column = 0;
        self.start = 0;
    }

    // What is left of the line from the field on.
    #[inline(always)]
    fn rest(&self) -> &'a [u8]
        requires { IsAt self.now.text.now self.now.column self.now.start self.now.known }
        ensures { result.now ≡ drop self.now.start self.now.text.now }
    {
        &self.text[self.start..]
    }

    // Goes behind the field, if another one follows.
    #[inline(always)]
    fn step(&mut self, count: usize) -> bool
        requires at { IsAt self.old.text.now self.old.column self.old.start self.old.known }
        requires field { IsFieldHere (drop self.old.start self.old.text.now) count }
        ensures text { self.new.text.now ≡ self.old.text.now }
        ensures at { IsAt self.new.text.now self.new.column self.new.start self.new.known }
        ensures more { MatchBool result
            (self.new.column ≡ self.old.column + 1)
            (length (slice_split is_comma (first_line self.old.text.now)) ≤ self.old.column + 1) }
    {
        let end = self.start + count;
        if !has_comma(self.text, end) {
            self.known = Some(end);
            return false;
        }
        self.column += 1;
        self.start = end + 1;
        true
    }
}

// The length of the first field of what is left of the first line of a text.
fn first_field(bytes: &[u8]) -> usize
    ensures { IsFieldHere bytes.now result }
{
    match memchr3(b',', b'\r', b'\n', bytes) {
        Some(end) => end,
        None => bytes.len(),
    }
}

// Whether a comma stands at a place.
#[inline(always)]
fn has_comma(bytes: &[u8], place: usize) -> bool
    ensures { MatchBool result
        ((place < length bytes.now) × (is_comma (get_or bytes.now place 0) ≡ true))
        (place < length bytes.now → is_comma (get_or bytes.now place 0) ≡ false) }
{
    place < bytes.len() && bytes[place] == b','
}

/// The bytes from a place on.
#[inline(always)]
pub fn from_place(bytes: &[u8], place: usize) -> &[u8]
    requires { place ≤ length bytes.now }
    ensures { result.now ≡ drop place bytes.now }
{
    &bytes[place..]
}
