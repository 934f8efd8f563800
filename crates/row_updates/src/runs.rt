// The values of an expression in consecutive rows at once, where no part of it can fail.
ghost use Rattle.std.specs.Prelude.{ℕ, ◌≡◌, ◌+◌, ◌^◌, ◌<◌, ◌≤◌, ◌≤ℤ◌, true, ℤ, pos, neg_ℤ, unsigned_abs, length, slice_index_or, if◌then◌else◌};
ghost use Rattle.row_updates.specs.Imports.{chain_term, operand_term, IsStepWithin, IsWithin, IsSafe, IsStepSafe, IsDeclared, leaf_count_of};
ghost use Rattle.row_updates.specs.Inner.ValueRuns.{IsIdle, IsRunOf, AreWorth, AreRights, AreNear, ArePlaces};

use crate::index::put_index;
use expr_lang::{Chain, Links, Operand, Step, apply_step, lone_number};
use piece_bits::are_within;
use record_dim::{LeafType, Steps};
use std::sync::ledger::Ledger;
use views::{RUN, View};

/// Consecutive rows from one on, and how far from 0 the values of each leaf and the numbers of their indices may lie.
#[derive(Clone, Copy)]
pub struct Run<'a> {
    pub first: u64,
    pub leaves: &'a [u64],
    pub places: &'a [u64],
}

/// Evaluates an expression in as many rows as there is room for, and says whether each value is exact. It is not where a number that it
/// names lies too far from 0.
#[cycle(run)]
pub fn chain_run<L: Ledger>(
    view: &mut View,
    chain: &Chain,
    run: &Run<'_>,
    values: &mut [i64],
    steps: &mut Steps<L>,
) -> bool
    requires idle { IsIdle view.old }
    requires within { IsWithin (leaf_count_of view.old) (length view.old.extents) (chain_term chain.now) }
    requires safe { IsSafe run.now.leaves.now run.now.places.now (chain_term chain.now) }
    requires rows { IsRunOf view.old run.now (length values.old) }
    ensures same { view.new ≡ view.old }
    ensures worth { result ≡ true → AreWorth view.old run.now (chain_term chain.now) values.new }
{
    if !operand_run(view, chain.first, run, values, steps) {
        return false;
    }
    let mut buffer = [0; RUN];
    let other = &mut buffer[..values.len()];
    let mut links = &chain.links;
    while let Links::More(link) = links {
        if !right_run(view, &link.step, run, other, steps) {
            return false;
        }
        apply_step(&link.step, values, other, run.leaves, run.places);
        links = &link.rest;
    }
    true
}

// Evaluates the right side of a step, where it is more than a number.
#[cycle(run)]
fn right_run<L: Ledger>(
    view: &mut View,
    step: &Step,
    run: &Run<'_>,
    values: &mut [i64],
    steps: &mut Steps<L>,
) -> bool
    requires idle { IsIdle view.old }
    requires within { IsStepWithin (leaf_count_of view.old) (length view.old.extents) step.now }
    requires safe { IsStepSafe run.now.leaves.now run.now.places.now step.now }
    requires rows { IsRunOf view.old run.now (length values.old) }
    ensures same { view.new ≡ view.old }
    ensures rights { result ≡ true → AreRights view.old run.now step.now values.new }
{
    match step {
        Step::Neg => true,
        Step::Not => true,
        Step::Binary { right, .. } => match lone_number(right, run.leaves, run.places) {
            Some(_) => true,
            None => chain_run(view, right, run, values, steps),
        },
    }
}

fn operand_run<L: Ledger>(
    view: &mut View,
    operand: Operand,
    run: &Run<'_>,
    values: &mut [i64],
    steps: &mut Steps<L>,
) -> bool
    requires idle { IsIdle view.old }
    requires within { IsWithin (leaf_count_of view.old) (length view.old.extents) (operand_term operand) }
    requires safe { IsSafe run.now.leaves.now run.now.places.now (operand_term operand) }
    requires rows { IsRunOf view.old run.now (length values.old) }
    ensures same { view.new ≡ view.old }
    ensures worth { result ≡ true → AreWorth view.old run.now (operand_term operand) values.new }
{
    match operand {
        Operand::Number(number) => {
            fill(values, number as i64);
            true
        }
        Operand::Leaf(leaf) => leaf_run(view, leaf, run.first, run.leaves[leaf], values, steps),
        Operand::Index(dimension) => {
            index_run(view, dimension, run.first, run.places[dimension], values)
        }
    }
}

fn fill(values: &mut [i64], number: i64)
    ensures { (k : ℕ) → k < length values.new → slice_index_or values.new k (pos 0) ≡ number }
{
    for k in 0..values.len() {
        values[k] = number;
    }
}

/// Reads a leaf in as many rows as there is room for, and says whether each value lies no further from 0 than this. Where the type says so,
/// none is looked at.
pub fn leaf_run<L: Ledger>(
    view: &mut View,
    leaf: usize,
    first: u64,
    limit: u64,
    values: &mut [i64],
    steps: &mut Steps<L>,
) -> bool
    requires idle { IsIdle view.old }
    requires leaf_in { leaf < leaf_count_of view.old }
    requires rows_in { first + length values.old ≤ length view.old.rows }
    requires small { limit < 2 ^ 63 }
    ensures same { view.new ≡ view.old }
    ensures near { result ≡ true → AreNear view.old leaf first limit values.new }
{
    let kind = view.schema().leaf_type(leaf);
    view.read_run(leaf, first, values, steps);
    is_within(kind, limit) || are_near(values, kind.signed(), limit)
}

// Whether all values of a type lie no further from 0 than this.
fn is_within(kind: LeafType, limit: u64) -> bool
    ensures { result ≡ true → (value : ℤ) → IsDeclared kind value → unsigned_abs value ≤ limit }
{
    let limit = i128::from(limit);
    -limit <= kind.least() && kind.greatest() <= limit
}

// Whether each of these lies no further from 0 than this, and where there is no sign, none below it.
fn are_near(values: &[i64], signed: bool, limit: u64) -> bool
    requires { limit < 2 ^ 63 }
    ensures { result ≡ true → (k : ℕ) → k < length values.now
        → ((if signed then neg_ℤ (pos limit) else pos 0) ≤ℤ slice_index_or values.now k (pos 0)) × (slice_index_or values.now k (pos 0) ≤ℤ pos limit) }
{
    let greatest = limit as i64;
    let least = if signed { -greatest } else { 0 };
    are_within(least, greatest, values)
}

// The numbers of the index in a dimension, and whether each is no greater than this.
fn index_run(view: &View, dimension: usize, first: u64, limit: u64, values: &mut [i64]) -> bool
    requires dimension { dimension < length view.now.extents }
    requires rows_in { first + length values.old ≤ length view.now.rows }
    requires small { limit < 2 ^ 63 }
    ensures { result ≡ true → ArePlaces view.now dimension first limit values.new }
{
    let extents = view.extents();
    let _rows = extents.count();
    let mut numbers = [0; 4];
    for k in 0..values.len() {
        put_index(&extents, first + k as u64, &mut numbers);
        if numbers[dimension] > limit {
            return false;
        }
        values[k] = numbers[dimension] as i64;
    }
    true
}
