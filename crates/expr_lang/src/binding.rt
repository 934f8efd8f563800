ghost use Rattle.std.specs.Prelude.{◌≡◌, ℕ, [], unwrap_or, IfOk, OnOk, IfErr};
ghost use Rattle.std.specs.List.{slice_get};
ghost use Rattle.std.specs.Option.{option_or};
ghost use Rattle.record_dim.specs.Prelude.{paths_of, schema_fields};
ghost use Rattle.expr_lang.specs.Terms.{Term, term_of};
ghost use Rattle.expr_lang.specs.Chains.{operand_term, step_term, links_term, chain_term};
ghost use Rattle.expr_lang.specs.Bounds.{IsBoundTo};
ghost use Rattle.expr_lang.specs.Binding.{leaf_number, numbered, unknown_path, unknown_index, unknowns, IsFirstUnknown};
ghost use Rattle.expr_lang.specs.Inner.Unknowns.{told};

use crate::bound::{Bound, Chain, Link, Links, Operand, Step};
use crate::{BindFault, Expr};
use record_dim::{Path, Schema};
use std::alloc::{AllocError as NoMemory, Global};

/// The expression with the number of its leaf in place of each path, or the first path or index from left to right that
/// names no leaf of the schema or no dimension below the rank. Only right operands that nest take stack.
#[tactic(auto, using(crate::proofs::Unknown::none_first))]
pub fn bind(alloc: Global, expr: &Expr, schema: &Schema, rank: usize) -> Result<Bound, BindFault>
    ensures bound { IfOk result (IsBoundTo (schema_fields schema.now) rank (term_of expr.now)) }
    ensures known { OnOk result (unknowns (paths_of (schema_fields schema.now)) rank (term_of expr.now) ≡ []) }
    ensures fault { IfErr result (IsFirstUnknown (unknowns (paths_of (schema_fields schema.now)) rank (term_of expr.now))) }
{
    match first_unknown(expr, schema, rank) {
        Some(Unknown::Path(path)) => return Err(BindFault::UnknownPath(path.copy(alloc)?)),
        Some(Unknown::Index(dimension)) => return Err(BindFault::UnknownIndex(dimension)),
        None => {}
    }
    let chain = chain_of(alloc, expr, schema)?;
    Ok(Bound {
        chain,
        leaves: schema.leaf_count(),
        rank,
    })
}

/// A path or an index that names nothing.
#[derive(Clone, Copy)]
pub enum Unknown<'a> {
    Path(&'a Path),
    Index(u32),
}

// The first path or index that names nothing. What is found further left, which is further down, counts.
#[tactic(auto, using(crate::proofs::Unknown::first_or))]
fn first_unknown<'a>(expr: &'a Expr, schema: &Schema, rank: usize) -> Option<Unknown<'a>>
    ensures { told result ≡ slice_get (unknowns (paths_of (schema_fields schema.now)) rank (term_of expr.now)) 0 }
{
    let mut found = None;
    let mut node = expr;
    loop {
        match node {
            Expr::Number(_) => return found,
            Expr::Path(path) => return earlier(unknown_path(path, schema), found),
            Expr::Index(dimension) => return earlier(unknown_index(*dimension, rank), found),
            Expr::Neg(inner) => node = inner,
            Expr::Not(inner) => node = inner,
            Expr::Binary { op: _, left, right } => {
                found = earlier(first_unknown(right, schema, rank), found);
                node = left;
            }
        }
    }
}

fn earlier<'a>(found: Option<Unknown<'a>>, further: Option<Unknown<'a>>) -> Option<Unknown<'a>>
    ensures { told result ≡ option_or (told found.entry) (told further.entry) }
{
    found.or(further)
}

fn unknown_path<'a>(path: &'a Path, schema: &Schema) -> Option<Unknown<'a>>
    ensures { told result ≡ slice_get (unknown_path (paths_of (schema_fields schema.now)) path.now) 0 }
{
    match schema.leaf_of(path) {
        Some(_) => None,
        None => Some(Unknown::Path(path)),
    }
}

fn unknown_index<'a>(dimension: u32, rank: usize) -> Option<Unknown<'a>>
    ensures { told result ≡ slice_get (unknown_index rank dimension) 0 }
{
    if (dimension as usize) < rank {
        None
    } else {
        Some(Unknown::Index(dimension))
    }
}

// The chain of an expression.
fn chain_of(alloc: Global, expr: &Expr, schema: &Schema) -> Result<Chain, NoMemory>
    ensures { IfOk result (λ chain. chain_term chain ≡ numbered (paths_of (schema_fields schema.now)) (term_of expr.now)) }
{
    let mut links = Links::End;
    let mut node = expr;
    loop {
        match node {
            Expr::Number(number) => return Ok(chain(Operand::Number(*number), links)),
            Expr::Path(path) => {
                let leaf = leaf_or_first(path, schema);
                return Ok(chain(Operand::Leaf(leaf), links));
            }
            Expr::Index(dimension) => {
                return Ok(chain(Operand::Index(*dimension as usize), links));
            }
            Expr::Neg(inner) => {
                links = with_step(alloc, Step::Neg, links)?;
                node = inner;
            }
            Expr::Not(inner) => {
                links = with_step(alloc, Step::Not, links)?;
                node = inner;
            }
            Expr::Binary { op, left, right } => {
                let right = chain_of(alloc, right, schema)?;
                links = with_step(alloc, Step::Binary { op: *op, right }, links)?;
                node = left;
            }
        }
    }
}

// The number of the leaf that has the path. `bind` has made sure that there is one; else this is leaf 0.
fn leaf_or_first(path: &Path, schema: &Schema) -> usize
    ensures { result ≡ unwrap_or (leaf_number (paths_of (schema_fields schema.now)) path.now) 0 }
{
    schema.leaf_of(path).unwrap_or(0)
}

fn chain(first: Operand, links: Links) -> Chain
    ensures { chain_term result ≡ links_term (operand_term first) links }
{
    Chain { first, links }
}

fn with_step(alloc: Global, step: Step, rest: Links) -> Result<Links, NoMemory>
    ensures { IfOk result (λ links. (term : Term ℕ) → links_term term links ≡ links_term (step_term term step) rest) }
{
    Ok(Links::More(Box::new(alloc, Link { step, rest })?))
}
