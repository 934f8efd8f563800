// The version line of a script, and blank lines.
ghost use Rattle.std.specs.Prelude.{◌≡◌, ◌≤◌};
ghost use Rattle.schema_lang.specs.Imports.{length, IfSome, next_of};
ghost use Rattle.schema_lang.specs.Inner.NextTokens.{is_end, token_next};
ghost use Rattle.schema_lang.specs.VersionOf.{is_blank_line, version_of};

use crate::token_list::token_of;
use line_grammar::{Count, Item, Token};
use line_tokens::{Next, Spot, next_token};

/// The number of a version line: a text whose tokens are the word `version` and a COUNT. It takes no memory.
pub fn version_of(text: &[u8]) -> Option<u32>
    requires { length text.now ≤ 4096 }
    ensures { result ≡ version_of text.now }
{
    let (word, behind) = token_next(text, 0)?;
    if !word.is_word("version") {
        return None;
    }
    let (count, behind) = token_next(text, behind)?;
    let number = Count::of(&count)?;
    if is_end(text, behind) {
        Some(number)
    } else {
        None
    }
}

/// Whether the text has no token. It takes no memory.
pub fn is_blank(text: &[u8]) -> bool
    ensures { result ≡ is_blank_line text.now }
{
    is_end(text, 0)
}

// The token that stands next from a place on, where no bracket is open, and the place behind it. A bad token is none.
fn token_next(text: &[u8], at: usize) -> Option<(Token<'_>, usize)>
    requires { at ≤ length text.now }
    ensures token { result ≡ token_next text.now at }
    ensures inside { IfSome result (λ found. found.1 ≤ length text.now) }
{
    match next_token(text, at, 0) {
        Next::Token { from, end, kind } => {
            let spot = Spot {
                from,
                end,
                kind: Some(kind),
            };
            Some((token_of(text, &spot), end))
        }
        Next::Bad { from: _ } | Next::End => None,
    }
}

// Whether no token is left from a place on, and no bad one.
fn is_end(text: &[u8], at: usize) -> bool
    requires { at ≤ length text.now }
    ensures { result ≡ is_end (next_of text.now at 0) }
{
    matches!(next_token(text, at, 0), Next::End)
}
