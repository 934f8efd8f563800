//! All tokens of a line with their places, as a parser reads them.

ghost use Rattle.std.specs.Prelude.{◌≡◌, ◌≤◌, length, All, IfOk, List};
ghost use Rattle.line_tokens.specs.Spots.{brackets_after, Spots};

use crate::token::{Next, TokenKind, next_token};
use record_dim::Sequence;
use std::alloc::{AllocError as NoMemory, Global};

/// A token with its place in the line: the bytes from `from` up to, and without, `end`.
#[derive(Clone, Copy)]
pub struct Spot {
    /// The offset of the first byte.
    pub from: usize,
    /// The offset behind the last byte; of a bad token it is `from` again.
    pub end: usize,
    /// None is a bad token.
    pub kind: Option<TokenKind>,
}

/// The tokens of a line, in order.
pub type SpotList = Sequence<Spot>;

ghost use Rattle.line_tokens.specs.declared.spots.Spot.{Spot};

/// All tokens of `text`, up to its end or to its first bad token, which is then the last.
pub fn spots_of(alloc: Global, text: &[u8]) -> Result<SpotList, NoMemory>
    ensures spots { IfOk result (λ spots. Spots text.now 0 0 spots) }
    ensures inside { IfOk result (λ spots.
        All (λ spot. (spot.from ≤ spot.end) × (spot.end ≤ length text.now)) spots) }
    // No text has two such lists.
    ensures only { (other : List Spot) → Spots text.now 0 0 other → IfOk result (λ spots. spots ≡ other) }
{
    let mut spots = SpotList::new(alloc);
    let mut at = 0;
    let mut brackets = 0;
    loop {
        match next_token(text, at, brackets) {
            Next::End => return Ok(spots),
            Next::Bad { from } => {
                spots.push(Spot {
                    from,
                    end: from,
                    kind: None,
                })?;
                return Ok(spots);
            }
            Next::Token { from, end, kind } => {
                spots.push(Spot {
                    from,
                    end,
                    kind: Some(kind),
                })?;
                brackets = brackets_after(kind, brackets);
                at = end;
            }
        }
    }
}

// How many brackets are open behind the token.
fn brackets_after(kind: TokenKind, brackets: u32) -> u32
    requires { brackets ≤ 64 }
    ensures { result ≡ brackets_after kind brackets }
{
    match kind {
        TokenKind::Sign(sign) if sign.opens() => brackets + 1,
        TokenKind::Sign(sign) if sign.closes() => brackets.saturating_sub(1),
        _ => brackets,
    }
}
