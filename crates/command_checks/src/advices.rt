// What an adviser is asked.
ghost use Rattle.std.specs.Prelude.{◌≡◌, ◌+◌, ◌++◌, ◌≤◌, All, IfOk, OnOk, is_some, length, map, not, true};
ghost use Rattle.command_checks.specs.Imports.{range_with_len, bad_granule, term_of, schema_fields, asked, bound_pass, fit_advice, leaves_at, leaves_under, nameless, each};
ghost use Rattle.command_checks.specs.Inner.Bases.{is_nameless};
ghost use Rattle.command_checks.specs.SessionEntries.{mapping_of};
ghost use Rattle.command_checks.specs.Inner.Gives.{Gives};
ghost use Rattle.command_checks.specs.Inner.Questions.{IsQuestion, question_of};

use crate::entry_list::MappingList;
use crate::fault::StepFault;
use crate::leaves::unknown_path;
use crate::mappings::nameless;
use advisor::{LeafList, Pass, PassList};
use line_grammar::PassText;
use map_expr::{MapExpr, MapExprList};
use record_dim::Path;
use std::alloc::{AllocError as NoMemory, Global};
use views::View;
use worlds::{BadAdvice, CommandFault};

/// The most passes, and the most candidates that are listed.
const MAX_LISTED: usize = 16;

/// The passes that a layout is chosen for, and the candidates that are listed.
#[derive(Drop)]
pub struct Question {
    pub passes: PassList,
    pub exprs: MapExprList,
}

/// What these words ask of a view, in granules of so many bytes.
pub fn asked(
    alloc: Global,
    mappings: &MappingList,
    view: &View,
    granule: u32,
    texts: &[PassText],
    exprs: &[MapExpr],
) -> Result<Question, StepFault>
    ensures asked { Gives question_of result (asked (map mapping_of mappings.now) view.now granule texts.now (map term_of exprs.now)) }
    ensures able { IfOk result (IsQuestion granule) }
{
    let whole = all_nameless(alloc, mappings, exprs)?;
    let passes = bound_passes(alloc, view, texts)?;
    fit_advice(granule, texts.len(), exprs.len())?;
    Ok(Question {
        passes,
        exprs: whole,
    })
}

// Mapping expressions with what their names stand for in their places.
fn all_nameless(
    alloc: Global,
    mappings: &MappingList,
    exprs: &[MapExpr],
) -> Result<MapExprList, StepFault>
    ensures whole { Gives (λ whole. map term_of whole) result (each (nameless (map mapping_of mappings.now)) (map term_of exprs.now)) }
    ensures nameless { IfOk result (All (λ expr. is_nameless (term_of expr) ≡ true)) }
    ensures long { IfOk result (λ whole. length whole ≡ length exprs.now) }
{
    let mut whole = MapExprList::new(alloc);
    for expr in exprs {
        let expr = nameless(alloc, mappings, expr)?;
        whole.push(expr)?;
    }
    Ok(whole)
}

// Passes with the numbers of their leaves.
fn bound_passes(alloc: Global, view: &View, texts: &[PassText]) -> Result<PassList, StepFault>
    ensures passes { Gives (λ passes. passes) result (each (bound_pass view.now.fields) texts.now) }
    ensures long { IfOk result (λ passes. length passes ≡ length texts.now) }
{
    let mut passes = PassList::new(alloc);
    for text in texts {
        let pass = bound_pass(alloc, view, text)?;
        passes.push(pass)?;
    }
    Ok(passes)
}

fn bound_pass(alloc: Global, view: &View, text: &PassText) -> Result<Pass, StepFault>
    ensures { Gives (λ pass. pass) result (bound_pass view.now.fields text.now) }
{
    let leaves = leaves_under(alloc, view, text.paths.as_slice())?;
    let times = text.times;
    Ok(Pass { leaves, times })
}

// The leaves under paths, one path behind another.
fn leaves_under(alloc: Global, view: &View, paths: &[Path]) -> Result<LeafList, StepFault>
    ensures { Gives (λ leaves. leaves) result (leaves_under view.now.fields paths.now) }
{
    let mut leaves = LeafList::new(alloc);
    for path in paths {
        let (first, count) = leaves_at(alloc, view, path)?;
        push_range(&mut leaves, first, count)?;
    }
    Ok(leaves)
}

// The first leaf under a path, and how many there are.
fn leaves_at(alloc: Global, view: &View, path: &Path) -> Result<(usize, usize), StepFault>
    ensures leaves { Gives (λ found. range_with_len found.0 found.1) result (leaves_at view.now.fields path.now) }
    ensures few { IfOk result (λ found. found.0 + found.1 ≤ 64) }
{
    let schema = view.schema();
    let _leaves = schema.leaf_count();
    match schema.leaves_under(path) {
        Some(found) => Ok(found),
        None => Err(unknown_path(path.copy(alloc)?)),
    }
}

// Puts so many numbers from one on behind others.
fn push_range(numbers: &mut LeafList, first: usize, count: usize) -> Result<(), NoMemory>
    requires { first + count ≤ 64 }
    ensures { OnOk result (numbers.new ≡ numbers.old ++ range_with_len first count) }
{
    for number in first..first + count {
        numbers.push(number)?;
    }
    Ok(())
}

// That an adviser may be asked for granules of so many bytes, with so many passes and candidates.
fn fit_advice(granule: u32, passes: usize, candidates: usize) -> Result<(), StepFault>
    ensures { Gives (λ done. tt) result (fit_advice granule passes candidates) }
{
    if !is_granule(granule) {
        return Err(StepFault::Command(CommandFault::BadAdvice(BadAdvice::Granule)));
    }
    if passes > MAX_LISTED {
        return Err(StepFault::Command(CommandFault::BadAdvice(BadAdvice::Passes)));
    }
    if candidates > MAX_LISTED {
        return Err(StepFault::Command(CommandFault::BadAdvice(BadAdvice::Candidates)));
    }
    Ok(())
}

fn is_granule(granule: u32) -> bool
    ensures { result ≡ not (is_some (bad_granule granule)) }
{
    matches!(
        granule,
        1 | 2 | 4 | 8 | 16 | 32 | 64 | 128 | 256 | 512 | 1024 | 2048 | 4096
    )
}
