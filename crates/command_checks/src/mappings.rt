// Mapping expressions without names.
ghost use Rattle.std.specs.Prelude.{◌≡◌, IfOk, map, true};
ghost use Rattle.command_checks.specs.Imports.{Named, Split, term_of, nameless};
ghost use Rattle.command_checks.specs.Inner.Bases.{around, boxed_term, is_nameless};
ghost use Rattle.command_checks.specs.SessionEntries.{mapping_of};
ghost use Rattle.command_checks.specs.Inner.Gives.{Gives};

use crate::entry_list::MappingList;
use crate::fault::StepFault;
use map_expr::MapExpr;
use record_dim::{Name, Path};
use std::alloc::{AllocError as NoMemory, Global};

/// A mapping expression with what its names stand for in their places.
pub fn nameless(alloc: Global, mappings: &MappingList, expr: &MapExpr) -> Result<MapExpr, StepFault>
    ensures whole { Gives term_of result (nameless (map mapping_of mappings.now) (term_of expr.now)) }
    ensures nameless { IfOk result (λ whole. is_nameless (term_of whole) ≡ true) }
{
    let whole = boxed_nameless(alloc, mappings, expr)?;
    Ok(Box::into_inner(whole))
}

// The same in a box. A level takes little of the stack: what it makes is made by functions of its own.
#[tactic(auto, using(crate::specs::BasesLaws::nameless_split))]
fn boxed_nameless(
    alloc: Global,
    mappings: &MappingList,
    expr: &MapExpr,
) -> Result<Box<MapExpr>, StepFault>
    ensures whole { Gives boxed_term result (nameless (map mapping_of mappings.now) (term_of expr.now)) }
    ensures nameless { IfOk result (λ whole. is_nameless (boxed_term whole) ≡ true) }
{
    match expr {
        MapExpr::Named(name) => boxed_named(alloc, mappings, *name),
        MapExpr::Split { path, first, rest } => {
            let first = boxed_nameless(alloc, mappings, first)?;
            let rest = boxed_nameless(alloc, mappings, rest)?;
            Ok(boxed_split(alloc, path, first, rest)?)
        }
        MapExpr::Byteswap(inner)
        | MapExpr::Bytesplit(inner)
        | MapExpr::Change {
            from: _,
            to: _,
            inner,
        }
        | MapExpr::Count(inner)
        | MapExpr::Heat { granule: _, inner } => {
            let inner = boxed_nameless(alloc, mappings, inner)?;
            Ok(boxed_around(alloc, expr, inner)?)
        }
        _ => Ok(boxed_copy(alloc, expr)?),
    }
}

// What a name stands for.
#[inline(never)]
fn boxed_named(alloc: Global, mappings: &MappingList, name: Name) -> Result<Box<MapExpr>, StepFault>
    ensures whole { Gives boxed_term result (nameless (map mapping_of mappings.now) (Named name)) }
    ensures nameless { IfOk result (λ whole. is_nameless (boxed_term whole) ≡ true) }
{
    let entry = mappings.known(name)?;
    Ok(boxed_copy(alloc, &entry.expr)?)
}

#[inline(never)]
fn boxed_copy(alloc: Global, expr: &MapExpr) -> Result<Box<MapExpr>, NoMemory>
    ensures { IfOk result (λ whole. boxed_term whole ≡ term_of expr.now) }
{
    let copy = expr.copy(alloc)?;
    let whole = Box::new(alloc, copy)?;
    Ok(whole)
}

#[inline(never)]
fn boxed_split(
    alloc: Global,
    path: &Path,
    first: Box<MapExpr>,
    rest: Box<MapExpr>,
) -> Result<Box<MapExpr>, NoMemory>
    ensures { IfOk result (λ whole. boxed_term whole ≡ Split path.now (boxed_term first) (boxed_term rest)) }
{
    let path = path.copy(alloc)?;
    let whole = Box::new(alloc, MapExpr::Split { path, first, rest })?;
    Ok(whole)
}

// An expression with another one in place of the one that is in it.
#[inline(never)]
fn boxed_around(
    alloc: Global,
    expr: &MapExpr,
    inner: Box<MapExpr>,
) -> Result<Box<MapExpr>, NoMemory>
    ensures { IfOk result (λ whole. boxed_term whole ≡ around (term_of expr.now) (boxed_term inner)) }
{
    let whole = match expr {
        MapExpr::Byteswap(_) => MapExpr::Byteswap(inner),
        MapExpr::Bytesplit(_) => MapExpr::Bytesplit(inner),
        MapExpr::Change { from, to, inner: _ } => MapExpr::Change {
            from: *from,
            to: *to,
            inner,
        },
        MapExpr::Count(_) => MapExpr::Count(inner),
        MapExpr::Heat { granule, inner: _ } => MapExpr::Heat {
            granule: *granule,
            inner,
        },
        _ => return Ok(inner),
    };
    let whole = Box::new(alloc, whole)?;
    Ok(whole)
}
