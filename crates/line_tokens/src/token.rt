//! The next token of a line's text.

ghost use Rattle.std.specs.Prelude.{◌≡◌, ◌↔◌, ℕ, ℤ, pos, ◌+◌, ◌^◌, ◌<◌, ◌≤◌, length, slice_range, IfSome};
ghost use Rattle.std.specs.Char.{is_ascii_digit};
ghost use Rattle.std.specs.List.{AllPass, prefix_len};
ghost use Rattle.std.specs.Str.Parse.{digits_value};
ghost use Rattle.line_tokens.specs.Bytes.{is_space_byte, is_letter, is_word_byte, is_text_byte};
ghost use Rattle.line_tokens.specs.Next.{next_of, number_at, sign_at, standing, string_at, token_at, digits_value_of, word_at};
ghost use Rattle.line_tokens.specs.Tokens.{IsBadFrom, IsEnd, IsInside, IsTokenFrom, rest_of};

use crate::sign::{Sign, double_sign, single_sign};

/// The most bytes of a word.
const MAX_WORD_BYTES: usize = 32;

/// The most bytes between the quotes of a string.
pub const MAX_STRING_BYTES: usize = 200;

/// The greatest number.
const MAX_NUMBER: u128 = (1 << 127) - 1;

/// The most brackets that are open at once.
pub const MAX_BRACKETS: u32 = 64;

/// What stands next in a line's text. Places are byte offsets from the start of the text.
#[derive(Clone, Copy)]
pub enum Next {
    /// Only spaces, tabs and a comment are left.
    End,
    /// A bad token, whose first byte is at `from`.
    Bad {
        from: usize,
    },
    /// The bytes from `from` up to, and without, `end`.
    Token {
        from: usize,
        end: usize,
        kind: TokenKind,
    },
}

/// The kind of a token, with its value or sign.
#[derive(Clone, Copy)]
pub enum TokenKind {
    /// A letter or `_`, then letters, digits and `_`: at most 32 bytes.
    Word,
    /// Digits, and their value in base ten.
    Number(i128),
    /// A string with its quotes.
    Text,
    /// One of the signs.
    Sign(Sign),
}

/// The first token of `text` from place `at` on, by longest match, where `brackets` brackets are open
/// before it. It takes no memory.
pub fn next_token(text: &[u8], at: usize, brackets: u32) -> Next
    requires within { at ≤ length text.now }
    requires few { brackets ≤ 64 }
    // Only spaces, tabs and a comment are left.
    ensures end { (result ≡ Next.End) ↔ IsEnd (rest_of text.now at) }
    // What stands next is a bad token.
    ensures bad { (from : ℕ) → (result ≡ Next.Bad from) ↔ IsBadFrom text.now at brackets from }
    // What stands next is a token, with its kind and its value or sign.
    ensures token { (from end : ℕ) (kind : TokenKind)
        → (result ≡ Next.Token from end kind) ↔ IsTokenFrom text.now at brackets from end kind }
    ensures number { (from end : ℕ) (value : ℤ) → result ≡ Next.Token from end (TokenKind.Number value)
        → value ≡ pos (digits_value 10 (slice_range text.now from end)) }
    ensures inside { IsInside text.now at result }
    ensures next { result ≡ next_of text.now at brackets }
{
    let from = at + count_blanks(&text[at..]);
    standing(from, &text[from..], brackets)
}

fn is_blank(byte: u8) -> bool
    ensures { result ≡ is_space_byte byte }
{
    byte == b' ' || byte == b'\t'
}

fn is_letter(byte: u8) -> bool
    ensures { result ≡ is_letter byte }
{
    byte.is_ascii_alphabetic() || byte == b'_'
}

fn is_word_byte(byte: u8) -> bool
    ensures { result ≡ is_word_byte byte }
{
    is_letter(byte) || byte.is_ascii_digit()
}

fn is_text_byte(byte: u8) -> bool
    ensures { result ≡ is_text_byte byte }
{
    (0x20..=0x7E).contains(&byte) && byte != b'"' && byte != b'\\'
}

// How many bytes at the front are of one class.
fn count_blanks(bytes: &[u8]) -> usize
    ensures count { result ≡ prefix_len is_space_byte bytes.now }
    ensures fits { result ≤ length bytes.now }
{
    bytes.iter().take_while(|byte| is_blank(**byte)).count()
}

fn count_word_bytes(bytes: &[u8]) -> usize
    ensures count { result ≡ prefix_len is_word_byte bytes.now }
    ensures fits { result ≤ length bytes.now }
{
    bytes.iter().take_while(|byte| is_word_byte(**byte)).count()
}

fn count_digits(bytes: &[u8]) -> usize
    ensures count { result ≡ prefix_len is_ascii_digit bytes.now }
    ensures fits { result ≤ length bytes.now }
{
    bytes
        .iter()
        .take_while(|byte| byte.is_ascii_digit())
        .count()
}

fn count_text_bytes(bytes: &[u8]) -> usize
    ensures count { result ≡ prefix_len is_text_byte bytes.now }
    ensures fits { result ≤ length bytes.now }
{
    bytes.iter().take_while(|byte| is_text_byte(**byte)).count()
}

// What stands at the front of `rest`, which begins at place `from` with no blank.
fn standing(from: usize, rest: &[u8], brackets: u32) -> Next
    requires { from + length rest.now < 2 ^ 64 }
    ensures { result ≡ standing from rest.now brackets }
{
    if rest.is_empty() || rest[0] == b'#' {
        return Next::End;
    }
    match token_at(rest, brackets) {
        Some((length, kind)) => Next::Token {
            from,
            end: from + length,
            kind,
        },
        None => Next::Bad { from },
    }
}

// The token at the front of `rest`, with its length. None is a bad token.
fn token_at(rest: &[u8], brackets: u32) -> Option<(usize, TokenKind)>
    requires { 0 < length rest.now }
    ensures token { result ≡ token_at rest.now brackets }
    ensures fits { IfSome result (λ token. token.0 ≤ length rest.now) }
{
    let first = rest[0];
    if is_letter(first) {
        word_at(rest)
    } else if first.is_ascii_digit() {
        number_at(rest)
    } else if first == b'"' {
        string_at(rest)
    } else {
        let (length, sign) = sign_at(rest)?;
        let is_extra = sign.opens() && brackets >= MAX_BRACKETS;
        if is_extra {
            None
        } else {
            Some((length, TokenKind::Sign(sign)))
        }
    }
}

fn word_at(rest: &[u8]) -> Option<(usize, TokenKind)>
    ensures token { result ≡ word_at rest.now }
    ensures fits { IfSome result (λ token. token.0 ≤ length rest.now) }
{
    let length = count_word_bytes(rest);
    if length <= MAX_WORD_BYTES {
        Some((length, TokenKind::Word))
    } else {
        None
    }
}

fn number_at(rest: &[u8]) -> Option<(usize, TokenKind)>
    ensures token { result ≡ number_at rest.now }
    ensures fits { IfSome result (λ token. token.0 ≤ length rest.now) }
{
    let length = count_digits(rest);
    let value = value_of(&rest[..length])?;
    Some((length, TokenKind::Number(value)))
}

// The value of decimal digits, or none above the greatest number.
fn value_of(digits: &[u8]) -> Option<i128>
    requires { AllPass is_ascii_digit digits.now }
    ensures { result ≡ digits_value_of digits.now }
{
    let mut value = 0u128;
    for byte in digits {
        if value > MAX_NUMBER / 10 {
            return None;
        }
        value = value * 10 + u128::from(*byte - b'0');
    }
    if value <= MAX_NUMBER {
        Some(value as i128)
    } else {
        None
    }
}

fn string_at(rest: &[u8]) -> Option<(usize, TokenKind)>
    requires { 0 < length rest.now }
    ensures token { result ≡ string_at rest.now }
    ensures fits { IfSome result (λ token. token.0 ≤ length rest.now) }
{
    let inside = count_text_bytes(&rest[1..]);
    let is_closed = rest.len() > inside + 1 && rest[inside + 1] == b'"';
    if 1 <= inside && inside <= MAX_STRING_BYTES && is_closed {
        Some((inside + 2, TokenKind::Text))
    } else {
        None
    }
}

// The longest sign at the front of `rest`, with its length.
fn sign_at(rest: &[u8]) -> Option<(usize, Sign)>
    requires { 0 < length rest.now }
    ensures sign { result ≡ sign_at rest.now }
    ensures fits { IfSome result (λ sign. sign.0 ≤ length rest.now) }
{
    if rest.len() > 1 {
        if let Some(sign) = double_sign(rest[0], rest[1]) {
            return Some((2, sign));
        }
    }
    let sign = single_sign(rest[0])?;
    Some((1, sign))
}
