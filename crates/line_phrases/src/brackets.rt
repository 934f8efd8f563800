ghost use Rattle.std.specs.Prelude.{◌≡◌, ◌<◌};
ghost use Rattle.line_phrases.specs.Imports.{length, OnOk, read, count, bracket_list, cuts, fixed, extent_word};
ghost use Rattle.line_phrases.specs.Inner.Gives.{Gives};

use crate::lists::{Phrase, read_bracketed, read_list};
use crate::{ReadError, Tokens};
use extents::ExtentWord;
use line_grammar::{Count, ExtentWords, IndexWords};
use line_tokens::Sign;
use std::alloc::Global;

/// The index of a row, in brackets.
pub fn read_index(alloc: Global, tokens: &mut Tokens) -> Result<IndexWords, ReadError>
    ensures gives { Gives (λ x. (x, tokens.new)) result (read (bracket_list count) tokens.old) }
    ensures shorter { OnOk result (length tokens.new < length tokens.old) }
{
    read_bracketed::<Count>(alloc, tokens)
}

/// The cuts between actors, in brackets. There may be none.
#[tactic(auto, unfolding(line_grammar::specs::Language::cuts))]
pub fn read_cuts(alloc: Global, tokens: &mut Tokens) -> Result<IndexWords, ReadError>
    ensures { Gives (λ x. (x, tokens.new)) result (read cuts tokens.old) }
{
    tokens.sign(Sign::OpenBracket)?;
    if tokens.begins_sign(Sign::CloseBracket) {
        tokens.sign(Sign::CloseBracket)?;
        return Ok(IndexWords::new(alloc));
    }
    let cuts = read_list::<Count>(alloc, tokens)?;
    tokens.sign(Sign::CloseBracket)?;
    Ok(cuts)
}

impl Phrase for Count {
    type Value = u32;

    ghost phrase = { count };

    fn read(_alloc: Global, tokens: &mut Tokens) -> Result<u32, ReadError> {
        tokens.item::<Count>()
    }
}

/// The extents of a view, in brackets, which are all numbers.
pub fn read_fixed_extents(alloc: Global, tokens: &mut Tokens) -> Result<ExtentWords, ReadError>
    ensures gives { Gives (λ x. (x, tokens.new)) result (read (bracket_list fixed) tokens.old) }
    ensures shorter { OnOk result (length tokens.new < length tokens.old) }
{
    read_bracketed::<Fixed>(alloc, tokens)
}

// An extent that is a number.
struct Fixed;

impl Phrase for Fixed {
    type Value = ExtentWord;

    ghost phrase = { fixed };

    #[tactic(auto, unfolding(line_grammar::specs::Language::fixed))]
    fn read(_alloc: Global, tokens: &mut Tokens) -> Result<ExtentWord, ReadError> {
        let count = tokens.item::<Count>()?;
        Ok(ExtentWord::Fixed(count))
    }
}

/// The extents of a view, in brackets, each a number or `?`.
pub fn read_extents(alloc: Global, tokens: &mut Tokens) -> Result<ExtentWords, ReadError>
    ensures gives { Gives (λ x. (x, tokens.new)) result (read (bracket_list extent_word) tokens.old) }
    ensures shorter { OnOk result (length tokens.new < length tokens.old) }
{
    read_bracketed::<ExtentWord>(alloc, tokens)
}

impl Phrase for ExtentWord {
    type Value = ExtentWord;

    ghost phrase = { extent_word };

    #[tactic(auto, unfolding(line_grammar::specs::Language::extent_word))]
    fn read(alloc: Global, tokens: &mut Tokens) -> Result<ExtentWord, ReadError> {
        if tokens.begins_sign(Sign::Question) {
            tokens.sign(Sign::Question)?;
            return Ok(ExtentWord::Rows);
        }
        Fixed::read(alloc, tokens)
    }
}
