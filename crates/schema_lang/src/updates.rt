ghost use Rattle.std.specs.Prelude.{◌≡◌, ◌<◌};
ghost use Rattle.schema_lang.specs.Imports.{length, map, option_map, OnOk, term_of, assignment_of, read, assignment, filter, listed, Gives};

use expr_lang::Expr;
use line_grammar::{SetList, SetText};
use line_phrases::{ReadError, Tokens, read_expr, read_path};
use line_tokens::Sign;
use std::alloc::Global;

// `where` and a filter, or nothing.
#[tactic(auto, unfolding(line_grammar::specs::Language::filter))]
pub(crate) fn read_filter(alloc: Global, tokens: &mut Tokens) -> Result<Option<Expr>, ReadError>
    ensures gives { Gives (λ x. (option_map term_of x, tokens.new)) result (read filter tokens.old) }
{
    if !tokens.begins_word("where") {
        return Ok(None);
    }
    tokens.word("where")?;
    let filter = read_expr(alloc, tokens)?;
    Ok(Some(filter))
}

// The assignments of an update.
#[tactic(auto, unfolding(line_grammar::specs::Language::listed), using(line_phrases::specs::ListLaws::viewed_steps))]
pub(crate) fn read_sets(alloc: Global, tokens: &mut Tokens) -> Result<SetList, ReadError>
    ensures gives { Gives (λ x. (map assignment_of x, tokens.new)) result (read (listed assignment) tokens.old) }
{
    let mut sets = SetList::new(alloc);
    sets.push(read_assignment(alloc, tokens)?)?;
    while tokens.begins_sign(Sign::Comma) {
        tokens.sign(Sign::Comma)?;
        sets.push(read_assignment(alloc, tokens)?)?;
    }
    Ok(sets)
}

#[tactic(auto, unfolding(line_grammar::specs::Language::assignment))]
fn read_assignment(alloc: Global, tokens: &mut Tokens) -> Result<SetText, ReadError>
    ensures gives { Gives (λ x. (assignment_of x, tokens.new)) result (read assignment tokens.old) }
    ensures shorter { OnOk result (length tokens.new < length tokens.old) }
{
    let path = read_path(alloc, tokens)?;
    tokens.sign(Sign::Equals)?;
    let value = read_expr(alloc, tokens)?;
    Ok(SetText { path, value })
}
