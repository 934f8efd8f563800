// The number that a field spells.
ghost use Rattle.std.specs.Prelude.{◌≡◌, ◌≤◌, ◌<◌, ◌^◌, ◌||◌, ℕ, pos, neg_ℤ, Some, true, false, IfSome, option_map, take, length, get_or};
ghost use Rattle.std.specs.Char.{is_ascii_digit};
ghost use Rattle.csv_rows.specs.Datasets.{is_blank, behind_blanks, before_blanks, unspaced, all_digits, digits_number, number_behind_sign};
ghost use Rattle.piece_bits.specs.Prelude.{folded, shortened};
ghost use Rattle.csv_rows.specs.Inner.Unquoted.{is_comma, is_line_end, IsFieldHere};

use crate::lines::is_line_end;
use piece_bits::folded;

/// The number of a field: without blanks at its ends an optional sign, and one or more digits. Of a number that is 2^65
/// from 0 or further, one is answered that is as well, and has the same 64 low bits: no leaf of a strict view can store either, and any
/// other keeps the same of both.
pub fn field_number(field: &[u8]) -> Option<i128>
    ensures { result ≡ option_map shortened (number_behind_sign (unspaced field.now)) }
{
    signed_number(unspaced(field))
}

fn signed_number(text: &[u8]) -> Option<i128>
    ensures { result ≡ option_map shortened (number_behind_sign text.now) }
{
    if text.is_empty() {
        return None;
    }
    let first = text[0];
    if first == b'+' {
        return digits_number(&text[1..]);
    }
    if first == b'-' {
        return Some(-digits_number(&text[1..])?);
    }
    digits_number(text)
}

fn digits_number(digits: &[u8]) -> Option<i128>
    ensures { result ≡ option_map (λ n. pos (folded n)) (digits_number digits.now) }
{
    if digits.is_empty() {
        return None;
    }
    let (value, count) = leading_digits(digits);
    if count == digits.len() {
        return Some(i128::from(value));
    }
    if count < MAX_DIGITS {
        return None;
    }
    Some(many_digits(digits)? as i128)
}

/// The number of the first field of what is left of the first line of a text, and the field's length, where it is one as most are: up to 18 digits, behind a
/// minus or not.
#[inline(always)]
pub fn plain_number(bytes: &[u8]) -> Option<(i128, usize)>
    ensures field { IfSome result (λ found. IsFieldHere bytes.now found.1) }
    ensures number { IfSome result (λ found. option_map shortened (number_behind_sign (unspaced (take found.1 bytes.now))) ≡ Some found.0) }
{
    if bytes.is_empty() {
        return None;
    }
    if bytes[0] == b'-' {
        let (value, count) = plain_digits(&bytes[1..])?;
        return Some((negated(value), count + 1));
    }
    let (value, count) = plain_digits(bytes)?;
    Some((i128::from(value), count))
}

fn negated(value: u64) -> i128
    ensures { result ≡ neg_ℤ (pos value) }
{
    -i128::from(value)
}

// The same of digits alone.
#[inline(always)]
fn plain_digits(bytes: &[u8]) -> Option<(u64, usize)>
    ensures field { IfSome result (λ found. IsFieldHere bytes.now found.1) }
    ensures number { IfSome result (λ found. digits_number (take found.1 bytes.now) ≡ Some found.0) }
{
    let (value, count) = leading_digits(bytes);
    if count == 0 || !ends_field(bytes, count) {
        return None;
    }
    Some((value, count))
}

// Whether a field ends here: at a comma, or with the line.
#[inline(always)]
fn ends_field(bytes: &[u8], end: usize) -> bool
    requires { end ≤ length bytes.now }
    ensures { result ≡ true → end < length bytes.now → (is_comma (get_or bytes.now end 0) || is_line_end (get_or bytes.now end 0)) ≡ true }
{
    end == bytes.len() || bytes[end] == b',' || is_line_end(bytes[end])
}

// The most digits that are read by the word: their number lies below 2^64 whatever they are.
const MAX_DIGITS: usize = 18;

// The digits at the start, 18 at most, as a number, and how many they are. Where so many bytes are left, their number is known when this
// is built, and no loop counts them.
#[inline(always)]
fn leading_digits(bytes: &[u8]) -> (u64, usize)
    ensures within { result.1 ≤ length bytes.now }
    ensures number { all_digits (take result.1 bytes.now) ≡ Some result.0 }
    ensures ended { result.1 < 18 → result.1 < length bytes.now → is_ascii_digit (get_or bytes.now result.1 0) ≡ false }
{
    if bytes.len() >= MAX_DIGITS {
        return first_digits(bytes, MAX_DIGITS);
    }
    first_digits(bytes, bytes.len())
}

// The same of so many bytes at most.
#[inline(always)]
fn first_digits(bytes: &[u8], most: usize) -> (u64, usize)
    requires within { most ≤ length bytes.now }
    requires few { most ≤ 18 }
    ensures within { result.1 ≤ most }
    ensures number { all_digits (take result.1 bytes.now) ≡ Some result.0 }
    ensures ended { result.1 < most → is_ascii_digit (get_or bytes.now result.1 0) ≡ false }
{
    let mut value = 0;
    for count in 0..most {
        if !bytes[count].is_ascii_digit() {
            return (value, count);
        }
        value = value * 10 + u64::from(bytes[count] - b'0');
    }
    (value, most)
}

fn many_digits(digits: &[u8]) -> Option<u128>
    ensures number { result ≡ option_map folded (all_digits digits.now) }
    ensures small { IfSome result (λ n. n < 2 ^ 66) }
{
    let mut value = 0u128;
    for digit in digits {
        if !digit.is_ascii_digit() {
            return None;
        }
        value = folded(value * 10 + u128::from(*digit - b'0'));
    }
    Some(value)
}

/// A field without blanks at its ends.
pub fn unspaced(field: &[u8]) -> &[u8]
    ensures { result.now ≡ unspaced field.now }
{
    before_blanks(behind_blanks(field))
}

// What is left behind the blanks at the start.
fn behind_blanks(bytes: &[u8]) -> &[u8]
    ensures { result.now ≡ behind_blanks bytes.now }
{
    for start in 0..bytes.len() {
        if !is_blank(bytes[start]) {
            return &bytes[start..];
        }
    }
    &bytes[bytes.len()..]
}

// What is left before the blanks at the end.
fn before_blanks(bytes: &[u8]) -> &[u8]
    ensures { result.now ≡ before_blanks bytes.now }
{
    for blanks in 0..bytes.len() {
        let end = bytes.len() - blanks;
        if !is_blank(bytes[end - 1]) {
            return &bytes[..end];
        }
    }
    &bytes[..0]
}

fn is_blank(byte: u8) -> bool
    ensures { result ≡ is_blank byte }
{
    byte == b' ' || byte == b'\t'
}
