ghost use Rattle.std.specs.Prelude.{◌≡◌, ◌≤◌};
ghost use Rattle.schema_lang.specs.Imports.{nat_le, map, option_map, List, list_all, depth_of, term_of, assignment_of, deepest, deepest_set, filter_depth, sentence_of};

use expr_lang::Expr;
use line_grammar::{Line, SetText};

/// The most that an expression of a line may be deep.
const MAX_DEPTH: u64 = 32;

// Whether no expression of the line is too deep.
pub(crate) fn is_shallow(line: &Line) -> bool
    ensures { result ≡ nat_le (deepest (sentence_of line.now)) 32 }
{
    match line {
        Line::Assign { value, .. } => is_low(value),
        Line::Update { filter, sets, .. } | Line::Actors { filter, sets, .. } => {
            is_low_filter(filter) && are_low(sets.as_slice())
        }
        Line::Count { filter, .. } => is_low(filter),
        _ => true,
    }
}

fn is_low(value: &Expr) -> bool
    ensures { result ≡ nat_le (depth_of (term_of value.now)) 32 }
{
    value.depth() <= MAX_DEPTH
}

fn is_low_filter(filter: &Option<Expr>) -> bool
    ensures { result ≡ nat_le (filter_depth (option_map term_of filter.now)) 32 }
{
    match filter {
        None => true,
        Some(filter) => is_low(filter),
    }
}

#[tactic(auto, using(crate::proofs::Depths::low_first))]
fn are_low(sets: &[SetText]) -> bool
    ensures { result ≡ nat_le (deepest_set (map assignment_of sets.now)) 32 }
{
    match sets {
        [] => true,
        [first, rest @ ..] => is_low(&first.value) && are_low(rest),
    }
}
