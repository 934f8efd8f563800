// Lists of phrases with a comma between each two.
ghost use Rattle.std.specs.Prelude.{◌≡◌, ◌<◌};
ghost use Rattle.line_phrases.specs.Imports.{length, OnOk, read, bracket_list, listed};
ghost use Rattle.line_phrases.specs.Inner.Gives.{Gives};

use crate::{ReadError, Tokens};
use line_tokens::Sign;
use record_dim::Sequence;
use std::alloc::Global;

// A phrase of such a list.
pub(crate) trait Phrase {
    ghost use Rattle.line_phrases.specs.Imports.{Grammar, Token};

    // What it stands for.
    type Value: Drop;

    ghost phrase: { Grammar Token Self.Value };

    // Takes it from the front.
    fn read(alloc: Global, tokens: &mut Tokens) -> Result<Self::Value, ReadError>
        ensures gives { Gives (λ x. (x, tokens.new)) result (read phrase tokens.old) }
        ensures shorter { OnOk result (length tokens.new < length tokens.old) };
}

// The list at the front, which has one phrase at least.
#[tactic(auto, unfolding(line_grammar::specs::Language::listed), using(crate::specs::ListLaws::comma_steps))]
pub(crate) fn read_list<P: Phrase>(
    alloc: Global,
    tokens: &mut Tokens,
) -> Result<Sequence<P::Value>, ReadError>
    ensures gives { Gives (λ x. (x, tokens.new)) result (read (listed P.phrase) tokens.old) }
    ensures shorter { OnOk result (length tokens.new < length tokens.old) }
{
    let mut found = Sequence::new(alloc);
    found.push(P::read(alloc, tokens)?)?;
    while tokens.begins_sign(Sign::Comma) {
        tokens.sign(Sign::Comma)?;
        found.push(P::read(alloc, tokens)?)?;
    }
    Ok(found)
}

// Such a list in brackets.
#[tactic(auto, unfolding(line_grammar::specs::Language::bracket_list))]
pub(crate) fn read_bracketed<P: Phrase>(
    alloc: Global,
    tokens: &mut Tokens,
) -> Result<Sequence<P::Value>, ReadError>
    ensures gives { Gives (λ x. (x, tokens.new)) result (read (bracket_list P.phrase) tokens.old) }
    ensures shorter { OnOk result (length tokens.new < length tokens.old) }
{
    tokens.sign(Sign::OpenBracket)?;
    let found = read_list::<P>(alloc, tokens)?;
    tokens.sign(Sign::CloseBracket)?;
    Ok(found)
}
