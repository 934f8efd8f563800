// How far from 0 the values of leaves and the numbers of indices may lie, so that no part of some expressions can fail.
ghost use Rattle.std.specs.Prelude.{◌≡◌, ◌≤◌, true, IfSome, All, length};
ghost use Rattle.row_updates.specs.Imports.{bound_term, bound_leaves, bound_rank, IsSafe, leaf_count_of};
ghost use Rattle.row_updates.specs.Rows.{IsBoundOver, IsSetOf};
ghost use Rattle.row_updates.specs.Inner.ValueRuns.{IsIdle, IsSized};

use crate::update::Assign;
use expr_lang::{Bound, most};
use record_dim::LeafType;
use views::View;

/// The limits of leaves of 64 bits that are tried, from the greatest on.
const WIDES: [u64; 5] = [1 << 62, 1 << 56, 1 << 48, 1 << 40, 1 << 32];

/// Finds limits with which no part of a filter and of right sides can fail, over a view that counts nothing. False says nothing.
pub fn find_limits(
    view: &View,
    filter: Option<&Bound>,
    sets: &[Assign],
    leaves: &mut [u64],
    places: &mut [u64],
) -> bool
    requires filter { IfSome filter (λ bound. IsBoundOver view.now bound.now) }
    requires sets { All (IsSetOf view.now) sets.now }
    requires leaves { length leaves.old ≡ leaf_count_of view.now }
    requires places { length places.old ≡ length view.now.extents }
    ensures idle { result ≡ true → IsIdle view.now }
    ensures filter { result ≡ true → IfSome filter.entry (λ bound. IsSafe leaves.new places.new (bound_term bound.now)) }
    ensures sets { result ≡ true → All (λ set. IsSafe leaves.new places.new (bound_term set.value)) sets.now }
{
    if !view.counts_nothing() {
        return false;
    }
    put_places(view, places);
    for wide in WIDES {
        put_leaves(view, wide, leaves);
        if filter_is_safe(filter, leaves, places) && are_safe(sets, leaves, places) {
            return true;
        }
    }
    false
}

// An index lies below its extent.
fn put_places(view: &View, places: &mut [u64])
    requires { length places.old ≡ length view.now.extents }
{
    let extents = view.extents();
    for d in 0..places.len() {
        places[d] = extents.at(d);
    }
}

// A value lies in the range of its type, and where that is a wide one, no further than this.
fn put_leaves(view: &View, wide: u64, leaves: &mut [u64])
    requires { length leaves.old ≡ leaf_count_of view.now }
{
    let schema = view.schema();
    for leaf in 0..leaves.len() {
        leaves[leaf] = limit_of(schema.leaf_type(leaf), wide);
    }
}

fn limit_of(kind: LeafType, wide: u64) -> u64
    ensures { result ≤ wide }
{
    match u64::try_from(kind.greatest().max(-kind.least())) {
        Ok(far) => far.min(wide),
        Err(_) => wide,
    }
}

fn filter_is_safe(filter: Option<&Bound>, leaves: &[u64], places: &[u64]) -> bool
    requires { IfSome filter (λ bound. IsSized leaves.now places.now bound.now) }
    ensures { result ≡ true → IfSome filter.entry (λ bound. IsSafe leaves.now places.now (bound_term bound.now)) }
{
    match filter {
        None => true,
        Some(bound) => most(bound, leaves, places).is_some(),
    }
}

fn are_safe(sets: &[Assign], leaves: &[u64], places: &[u64]) -> bool
    requires { All (λ set. IsSized leaves.now places.now set.value) sets.now }
    ensures { result ≡ true → All (λ set. IsSafe leaves.now places.now (bound_term set.value)) sets.now }
{
    sets.iter()
        .all(|set| most(&set.value, leaves, places).is_some())
}
