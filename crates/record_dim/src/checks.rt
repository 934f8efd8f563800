ghost use Rattle.std.specs.Prelude.{◌≡◌, true, min, length, nat_eq, nat_le, IfOk};
ghost use Rattle.std.specs.List.{list_all, list_any};
ghost use Rattle.record_dim.specs.Trees.{tree_of, fields_of};
ghost use Rattle.record_dim.specs.Leaves.{depth_of, greatest_depth, records_of, records_below, lengths_of, lengths_below, leaves_of, leaves, has_names, is_empty_record, shares_name, record_fault};

use crate::{BadRecord, Dim, FieldList, Name};
use std::alloc::{AllocError as NoMemory, Global};
use std::collections::BTreeSet;

const MAX_DEPTH: u32 = 8;

const MAX_LEAVES: usize = 64;

/// The first cause for which a record is refused. The depth is tested first, and the other walks go only as deep as it allows.
pub fn first_fault(alloc: Global, dim: &Dim) -> Result<Option<BadRecord>, NoMemory>
    ensures { IfOk result (λ fault. fault ≡ record_fault (tree_of dim.now)) }
{
    if !is_within(dim, MAX_DEPTH) {
        return Ok(Some(BadRecord::TooDeep));
    }
    if any_empty(dim) {
        return Ok(Some(BadRecord::Empty));
    }
    if any_twice(alloc, dim)? {
        return Ok(Some(BadRecord::Twice));
    }
    if any_without_elements(dim) {
        return Ok(Some(BadRecord::NoElements));
    }
    if count_leaves(dim) > MAX_LEAVES {
        return Ok(Some(BadRecord::TooManyLeaves));
    }
    Ok(None)
}

// Whether the depth is at most `most`. It looks no deeper than that.
#[cycle(within)]
#[tactic(auto, using(crate::proofs::Walks::within))]
fn is_within(dim: &Dim, most: u32) -> bool
    ensures { result ≡ nat_le (depth_of (tree_of dim.now)) most }
{
    match dim {
        Dim::Leaf(_) => true,
        Dim::Fields(fields) => most > 0 && are_within(fields, most - 1),
        Dim::Array { len: _, element } => most > 0 && is_within(element, most - 1),
    }
}

#[cycle(within)]
#[tactic(auto, using(crate::proofs::Walks::within))]
fn are_within(fields: &FieldList, most: u32) -> bool
    ensures { result ≡ nat_le (greatest_depth (fields_of fields.now)) most }
{
    let mut left = fields;
    while let FieldList::More { field, rest } = left {
        if !is_within(&field.dim, most) {
            return false;
        }
        left = rest;
    }
    true
}

// Whether some record has no field.
#[cycle(empty)]
#[tactic(auto, using(crate::proofs::Walks::any))]
fn any_empty(dim: &Dim) -> bool
    ensures { result ≡ list_any is_empty_record (records_of (tree_of dim.now)) }
{
    match dim {
        Dim::Leaf(_) => false,
        Dim::Fields(FieldList::End) => true,
        Dim::Fields(fields) => any_empty_below(fields),
        Dim::Array { len: _, element } => any_empty(element),
    }
}

#[cycle(empty)]
#[tactic(auto, using(crate::proofs::Walks::any))]
fn any_empty_below(fields: &FieldList) -> bool
    ensures { result ≡ list_any is_empty_record (records_below (fields_of fields.now)) }
{
    let mut left = fields;
    while let FieldList::More { field, rest } = left {
        if any_empty(&field.dim) {
            return true;
        }
        left = rest;
    }
    false
}

// Whether two fields of some record share a name.
#[cycle(twice)]
#[tactic(auto, using(crate::proofs::Walks::any))]
fn any_twice(alloc: Global, dim: &Dim) -> Result<bool, NoMemory>
    ensures { IfOk result (λ found. found ≡ list_any shares_name (records_of (tree_of dim.now))) }
{
    match dim {
        Dim::Leaf(_) => Ok(false),
        Dim::Fields(fields) => {
            if shares_name(alloc, fields)? {
                return Ok(true);
            }
            any_twice_below(alloc, fields)
        }
        Dim::Array { len: _, element } => any_twice(alloc, element),
    }
}

#[cycle(twice)]
#[tactic(auto, using(crate::proofs::Walks::any))]
fn any_twice_below(alloc: Global, fields: &FieldList) -> Result<bool, NoMemory>
    ensures { IfOk result (λ found. found ≡ list_any shares_name (records_below (fields_of fields.now))) }
{
    let mut left = fields;
    while let FieldList::More { field, rest } = left {
        if any_twice(alloc, &field.dim)? {
            return Ok(true);
        }
        left = rest;
    }
    Ok(false)
}

// Whether two fields of this record share a name. The names so far stand in a set, so that a long list takes little time.
fn shares_name(alloc: Global, fields: &FieldList) -> Result<bool, NoMemory>
    ensures { IfOk result (λ found. found ≡ shares_name (fields_of fields.now)) }
{
    let mut seen: BTreeSet<Name> = BTreeSet::new(alloc);
    let mut left = fields;
    while let FieldList::More { field, rest } = left {
        if !seen.insert(field.name)? {
            return Ok(true);
        }
        left = rest;
    }
    Ok(false)
}

// Whether some array has length 0.
#[cycle(elements)]
#[tactic(auto, using(crate::proofs::Walks::any))]
fn any_without_elements(dim: &Dim) -> bool
    ensures { result ≡ list_any (nat_eq 0) (lengths_of (tree_of dim.now)) }
{
    match dim {
        Dim::Leaf(_) => false,
        Dim::Fields(fields) => any_without_elements_below(fields),
        Dim::Array { len, element } => *len == 0 || any_without_elements(element),
    }
}

#[cycle(elements)]
#[tactic(auto, using(crate::proofs::Walks::any))]
fn any_without_elements_below(fields: &FieldList) -> bool
    ensures { result ≡ list_any (nat_eq 0) (lengths_below (fields_of fields.now)) }
{
    let mut left = fields;
    while let FieldList::More { field, rest } = left {
        if any_without_elements(&field.dim) {
            return true;
        }
        left = rest;
    }
    false
}

/// The number of leaves, and 65 where there are more than 64. It looks at each array once, however long it is.
#[cycle(count)]
#[tactic(auto, using(crate::proofs::Walks::count))]
pub fn count_leaves(dim: &Dim) -> usize
    ensures { result ≡ min 65 (length (leaves_of (tree_of dim.now))) }
{
    match dim {
        Dim::Leaf(_) => 1,
        Dim::Fields(fields) => count_leaves_below(fields),
        Dim::Array { len, element } => {
            let elements = (*len as usize).min(MAX_LEAVES + 1);
            (elements * count_leaves(element)).min(MAX_LEAVES + 1)
        }
    }
}

/// The same of all fields of a record.
#[cycle(count)]
#[tactic(auto, using(crate::proofs::Walks::count))]
pub fn count_leaves_below(fields: &FieldList) -> usize
    ensures { result ≡ min 65 (length (leaves (fields_of fields.now))) }
{
    let mut count = 0usize;
    let mut left = fields;
    while let FieldList::More { field, rest } = left {
        count = (count + count_leaves(&field.dim)).min(MAX_LEAVES + 1);
        left = rest;
    }
    count
}

/// Each name in a record is one, for `Name` says so of itself alone. It changes nothing.
#[cycle(names)]
pub fn names_in(dim: &Dim)
    ensures { list_all has_names (records_of (tree_of dim.now)) ≡ true }
{
    match dim {
        Dim::Leaf(_) => {}
        Dim::Fields(fields) => names_below(fields),
        Dim::Array { len: _, element } => names_in(element),
    }
}

#[cycle(names)]
fn names_below(fields: &FieldList)
    ensures own { has_names (fields_of fields.now) ≡ true }
    ensures below { list_all has_names (records_below (fields_of fields.now)) ≡ true }
{
    match fields {
        FieldList::End => {}
        FieldList::More { field, rest } => {
            let _name = field.name.as_str();
            names_in(&field.dim);
            names_below(rest);
        }
    }
}
