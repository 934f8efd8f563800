// The tokens of a text.
use crate::forms::{cut, no_form, number_of};
use line_tokens::{MAX_BRACKETS, Next, TokenKind, next_token, spots_of};
use std::alloc::{AllocError as NoMemory, Global};

pub(crate) fn next_answer(alloc: Global, asked: &[u8]) -> Result<String, NoMemory> {
    let (at, rest) = cut(asked, b' ');
    let (brackets, text) = cut(rest, b' ');
    let (Some(at), Some(brackets)) = (number_of(at), number_of(brackets)) else {
        return no_form(alloc);
    };
    if at > text.len() || brackets > MAX_BRACKETS as usize {
        return no_form(alloc);
    }
    match next_token(text, at, brackets as u32) {
        Next::End => String::from_str(alloc, "end"),
        Next::Bad { from } => format!(in alloc; "{from} bad"),
        Next::Token { from, end, kind } => token_text(alloc, from, end, kind),
    }
}

pub(crate) fn tokens_answer(alloc: Global, text: &[u8]) -> Result<String, NoMemory> {
    let spots = spots_of(alloc, text)?;
    let mut answer = String::new(alloc);
    for spot in spots.as_slice() {
        if !answer.is_empty() {
            answer.push_str(", ")?;
        }
        let token = match spot.kind {
            Some(kind) => token_text(alloc, spot.from, spot.end, kind)?,
            None => format!(in alloc; "{} bad", spot.from)?,
        };
        answer.push_str(token.as_str())?;
    }
    Ok(answer)
}

fn token_text(alloc: Global, from: usize, end: usize, kind: TokenKind) -> Result<String, NoMemory> {
    match kind {
        TokenKind::Word => format!(in alloc; "{from}-{end} word"),
        TokenKind::Number(value) => format!(in alloc; "{from}-{end} {value}"),
        TokenKind::Text => format!(in alloc; "{from}-{end} text"),
        TokenKind::Sign(sign) => format!(in alloc; "{from}-{end} {}", sign.text()),
    }
}
