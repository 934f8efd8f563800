// The tokens of a text, and the columns of their places.
ghost use Rattle.std.specs.Prelude.{◌≡◌, ◌+◌, ◌-◌, ◌<◌, ◌≤◌, ◌^◌, if◌then◌else◌};
ghost use Rattle.schema_lang.specs.Imports.{length, All, IfOk, Some, None, Spot, is_name, is_file_name, column_behind, tokens_of, token_of};
ghost use Rattle.schema_lang.specs.Inner.Spelled.{IsSpelled};

use line_grammar::{Quoted, Token};
use line_tokens::{Spot, TokenKind};
use record_dim::Name;
use std::alloc::{AllocError as NoMemory, Global};

// The tokens at these spots of the text.
pub(crate) fn tokens_of<'a>(
    alloc: Global,
    text: &'a [u8],
    spots: &[Spot],
) -> Result<Vec<Token<'a>>, NoMemory>
    requires { All (IsSpelled text.now) spots.now }
    ensures { IfOk result (λ tokens. tokens.items ≡ tokens_of text.now spots.now) }
{
    let mut tokens = Vec::new(alloc);
    for spot in spots {
        tokens.push(token_of(text, spot))?;
    }
    Ok(tokens)
}

pub(crate) fn token_of<'a>(text: &'a [u8], spot: &Spot) -> Token<'a>
    requires { IsSpelled text.now spot.now }
    ensures { result ≡ token_of text.now spot.now }
{
    match spot.kind {
        None => Token::Bad,
        Some(TokenKind::Word) => match name_of(&text[spot.from..spot.end]) {
            Some(name) => Token::Word(name),
            None => unreachable!(),
        },
        Some(TokenKind::Number(value)) => Token::Number(value),
        Some(TokenKind::Text) => match quoted_of(&text[spot.from + 1..spot.end - 1]) {
            Some(quoted) => Token::Text(quoted),
            None => unreachable!(),
        },
        Some(TokenKind::Sign(sign)) => Token::Sign(sign),
    }
}

fn name_of(text: &[u8]) -> Option<Name>
    ensures { result ≡ (if is_name text.now then Some text.now else None) }
{
    match str::from_utf8(text) {
        Ok(text) => Name::new(text),
        Err(_) => None,
    }
}

fn quoted_of(text: &[u8]) -> Option<Quoted<'_>>
    ensures { result ≡ (if is_file_name text.now then Some text.now else None) }
{
    match str::from_utf8(text) {
        Ok(text) => Quoted::new(text),
        Err(_) => None,
    }
}

// The column, counted from 1, where so many of the tokens are left.
#[tactic(auto, using(crate::proofs::SpellingLaws::columns))]
pub(crate) fn column_of(spots: &[Spot], left: usize) -> u64
    requires { All (λ spot. (spot.from < 2 ^ 63) × (spot.end < 2 ^ 63)) spots.now }
    ensures { result ≡ column_behind (length spots.now - left) spots.now }
{
    let behind = spots.len().saturating_sub(left);
    if behind < spots.len() {
        return spots[behind].from as u64 + 1;
    }
    if spots.is_empty() {
        return 1;
    }
    spots[spots.len() - 1].end as u64 + 1
}
