// A window, and weighted terms.
ghost use Rattle.std.specs.Prelude.{◌≡◌};
ghost use Rattle.line_phrases.specs.Imports.{read, constant, span, term, terms, window};
ghost use Rattle.line_phrases.specs.Inner.Gives.{Gives};

use crate::lists::{Phrase, read_bracketed, read_list};
use crate::{ReadError, Tokens, read_const, read_path};
use extents::Span;
use line_grammar::{Count, TermText, TermTextList, WindowWords};
use line_tokens::Sign;
use std::alloc::Global;

/// The word `window`, and the spans of the window in brackets.
#[tactic(auto, unfolding(line_grammar::specs::Language::window))]
pub fn read_window(alloc: Global, tokens: &mut Tokens) -> Result<WindowWords, ReadError>
    ensures { Gives (λ x. (x, tokens.new)) result (read window tokens.old) }
{
    tokens.word("window")?;
    read_bracketed::<Span>(alloc, tokens)
}

impl Phrase for Span {
    type Value = Span;

    ghost phrase = { span };

    #[tactic(auto, unfolding(line_grammar::specs::Language::span))]
    fn read(_alloc: Global, tokens: &mut Tokens) -> Result<Span, ReadError> {
        let from = tokens.item::<Count>()?;
        tokens.sign(Sign::Colon)?;
        let end = tokens.item::<Count>()?;
        Ok(Span { from, end })
    }
}

/// Weighted terms, in parentheses.
#[tactic(auto, unfolding(line_grammar::specs::Language::terms))]
pub fn read_terms(alloc: Global, tokens: &mut Tokens) -> Result<TermTextList, ReadError>
    ensures { Gives (λ x. (x, tokens.new)) result (read terms tokens.old) }
{
    tokens.sign(Sign::OpenParen)?;
    let terms = read_list::<TermText>(alloc, tokens)?;
    tokens.sign(Sign::CloseParen)?;
    Ok(terms)
}

impl Phrase for TermText {
    type Value = TermText;

    ghost phrase = { term };

    #[tactic(auto, unfolding(line_grammar::specs::Language::term))]
    fn read(alloc: Global, tokens: &mut Tokens) -> Result<TermText, ReadError> {
        let weight = read_const(tokens)?;
        tokens.sign(Sign::Star)?;
        let path = read_path(alloc, tokens)?;
        tokens.word("at")?;
        let offsets = read_bracketed::<Constant>(alloc, tokens)?;
        Ok(TermText {
            weight,
            path,
            offsets,
        })
    }
}

// A number with or without a minus.
struct Constant;

impl Phrase for Constant {
    type Value = i128;

    ghost phrase = { constant };

    fn read(_alloc: Global, tokens: &mut Tokens) -> Result<i128, ReadError> {
        read_const(tokens)
    }
}
