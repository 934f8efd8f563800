// The values of a stencil in rows one behind another, in 64 bits.
ghost use Rattle.std.specs.Prelude.{ℕ, ◌≡◌, ◌<◌, ◌≤◌, ◌+◌, true, pos, ◌+ℤ◌, ◌*ℤ◌, ◌<ℤ◌, int_div, FitsSigned, length, slice_index_or};
ghost use Rattle.subviews.specs.Plans.{IsIdle, IsPlanOf, IsRunOf, planned};
ghost use Rattle.subviews.specs.Stencils.{stencil_value};
ghost use mir.Syntax.{w64};

use crate::far::row_away;
use crate::plan::Plan;
use crate::runs::Run;
use record_dim::Steps;
use std::sync::ledger::Ledger;
use views::{View, laws_of_table};

/// Works out the values of a stencil in a run of rows of its window, in a view that counts nothing. What is read stands in a buffer of as many
/// numbers.
pub fn sum_run<L: Ledger>(
    view: &mut View,
    plan: &Plan<'_>,
    run: Run,
    sums: &mut [i64],
    read: &mut [i64],
    steps: &mut Steps<L>,
)
    requires idle { IsIdle view.old }
    requires plan { IsPlanOf view.old.fields view.old.extents plan.now }
    requires near { plan.now.near ≡ true }
    requires run { IsRunOf plan.now.window.now run }
    requires sums { length sums.old ≡ run.rows }
    requires read { length read.old ≡ run.rows }
    ensures same { view.new ≡ view.old }
    ensures count { length sums.new ≡ run.rows }
    ensures values { (k : ℕ) → k < run.rows
        → slice_index_or sums.new k (pos 0) ≡ stencil_value (planned plan.now) view.old.rows (run.first + k) }
{
    laws_of_table(view);
    clear(sums);
    for (place, term) in plan.terms.iter().enumerate() {
        let first = row_away(run.first, plan.far[place]);
        view.read_run(term.leaf, first, read, steps);
        add_times(term.weight, read, sums);
    }
    divide(plan.divisor, sums);
}

fn clear(sums: &mut [i64])
    ensures long { length sums.new ≡ length sums.old }
    ensures each { (k : ℕ) → k < length sums.old → slice_index_or sums.new k (pos 0) ≡ pos 0 }
{
    for k in 0..sums.len() {
        sums[k] = 0;
    }
}

// Adds to each sum so many times the value that was read beside it.
fn add_times(weight: i64, read: &[i64], sums: &mut [i64])
    requires beside { length read.now ≡ length sums.old }
    requires products { (k : ℕ) → k < length sums.old → FitsSigned w64 (weight *ℤ slice_index_or read.now k (pos 0)) }
    requires fits { (k : ℕ) → k < length sums.old
        → FitsSigned w64 (slice_index_or sums.old k (pos 0) +ℤ weight *ℤ slice_index_or read.now k (pos 0)) }
    ensures long { length sums.new ≡ length sums.old }
    ensures each { (k : ℕ) → k < length sums.old
        → slice_index_or sums.new k (pos 0) ≡ slice_index_or sums.old k (pos 0) +ℤ weight *ℤ slice_index_or read.now k (pos 0) }
{
    for k in 0..sums.len() {
        sums[k] = plus_times(sums[k], weight, read[k]);
    }
}

#[inline(always)]
fn plus_times(sum: i64, weight: i64, value: i64) -> i64
    requires product { FitsSigned w64 (weight *ℤ value) }
    requires fits { FitsSigned w64 (sum +ℤ weight *ℤ value) }
    ensures { result ≡ sum +ℤ weight *ℤ value }
{
    sum + weight * value
}

// Divides each sum, cut toward zero.
fn divide(divisor: i64, sums: &mut [i64])
    requires { pos 0 <ℤ divisor }
    ensures long { length sums.new ≡ length sums.old }
    ensures each { (k : ℕ) → k < length sums.old → slice_index_or sums.new k (pos 0) ≡ int_div (slice_index_or sums.old k (pos 0)) divisor }
{
    if divisor == 1 {
        return;
    }
    for k in 0..sums.len() {
        sums[k] /= divisor;
    }
}
