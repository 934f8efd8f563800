ghost use Rattle.std.specs.Prelude.{◌≡◌, ◌≤◌, ◌+◌, List, [], ◌∷◌, length, MatchOption, IfSome, IfNone, None};
ghost use Rattle.record_dim.specs.declared.path.PathStep.{PathStep};
ghost use Rattle.record_dim.specs.Trees.{tree_of, fields_of, Record};
ghost use Rattle.record_dim.specs.Leaves.{leaves_of, leaves};
ghost use Rattle.record_dim.specs.Paths.{BeginsWithName};
ghost use Rattle.record_dim.specs.Nodes.{node_at, node_in, HasChild, HasField, LeadsTo};

use crate::checks::count_leaves;
use crate::{Dim, Field, FieldList, Name, PathStep};

/// The node to which steps lead down from the fields of a record, and the number of leaves before it.
#[tactic(auto, using(crate::proofs::Lookup::leads_in))]
pub fn find<'a>(fields: &'a FieldList, steps: &[PathStep]) -> Option<(usize, &'a Dim)>
    requires few { length (leaves (fields_of fields.now)) ≤ 64 }
    requires named { BeginsWithName steps.now }
    ensures none { IfNone result (node_at (Record (fields_of fields.now)) steps.now ≡ None) }
    ensures some { IfSome result (λ found. LeadsTo (Record (fields_of fields.now)) steps.now found.0 (tree_of found.1.now)) }
{
    let Some((step, rest)) = first_step(steps) else {
        return None;
    };
    match step {
        PathStep::Name(name) => {
            let (before, field) = find_field(fields, name)?;
            let (inside, node) = find_below(&field.dim, rest)?;
            Some((before + inside, node))
        }
        PathStep::At(_) => None,
    }
}

// The same from any node.
#[tactic(auto, using(crate::proofs::Lookup::leads))]
fn find_below<'a>(dim: &'a Dim, steps: &[PathStep]) -> Option<(usize, &'a Dim)>
    requires { length (leaves_of (tree_of dim.now)) ≤ 64 }
    ensures none { IfNone result (node_at (tree_of dim.now) steps.now ≡ None) }
    ensures few { IfSome result (λ found. found.0 + length (leaves_of (tree_of found.1.now)) ≤ length (leaves_of (tree_of dim.now))) }
    ensures some { IfSome result (λ found. LeadsTo (tree_of dim.now) steps.now found.0 (tree_of found.1.now)) }
{
    let Some((step, rest)) = first_step(steps) else {
        return Some((0, dim));
    };
    let (before, below) = find_child(dim, step)?;
    let (inside, node) = find_below(below, rest)?;
    Some((before + inside, node))
}

// The node one step down, and the number of leaves before it.
#[tactic(auto, using(crate::proofs::Lookup::children))]
fn find_child(dim: &Dim, step: PathStep) -> Option<(usize, &Dim)>
    requires { length (leaves_of (tree_of dim.now)) ≤ 64 }
    ensures none { IfNone result ((steps : List PathStep) → node_at (tree_of dim.now) (step ∷ steps) ≡ None) }
    ensures few { IfSome result (λ found. found.0 + length (leaves_of (tree_of found.1.now)) ≤ 64) }
    ensures some { IfSome result (λ found. HasChild (tree_of dim.now) step found.0 (tree_of found.1.now)) }
{
    match (dim, step) {
        (Dim::Fields(fields), PathStep::Name(name)) => {
            let (before, field) = find_field(fields, name)?;
            Some((before, &field.dim))
        }
        (Dim::Array { len, element }, PathStep::At(number)) if number < *len => {
            Some((number as usize * count_leaves(element), element))
        }
        _ => None,
    }
}

fn first_step(steps: &[PathStep]) -> Option<(PathStep, &[PathStep])>
    ensures { MatchOption result (steps.now ≡ []) (λ found. steps.now ≡ found.0 ∷ found.1.now) }
{
    let (first, rest) = steps.split_first()?;
    Some((*first, rest))
}

// The field of this name, and the number of leaves before it.
#[tactic(auto, using(crate::proofs::Lookup::lefts))]
fn find_field(fields: &FieldList, name: Name) -> Option<(usize, &Field)>
    requires { length (leaves (fields_of fields.now)) ≤ 64 }
    ensures none { IfNone result ((steps : List PathStep) → node_in (fields_of fields.now) name steps ≡ None) }
    ensures few { IfSome result (λ found. found.0 + length (leaves_of (tree_of found.1.now.dim)) ≤ 64) }
    ensures some { IfSome result (λ found. HasField (fields_of fields.now) name found.0 (tree_of found.1.now.dim)) }
{
    let mut before = 0;
    let mut left = fields;
    while let FieldList::More { field, rest } = left {
        if field.name == name {
            return Some((before, field));
        }
        before += count_leaves(&field.dim);
        left = rest;
    }
    None
}
