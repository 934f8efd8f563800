// Updates of many rows at once, in a view that counts nothing.
ghost use Rattle.std.specs.Prelude.{ℕ, ◌≡◌, ◌+◌, ◌<◌, ◌≤◌, true, false, pos, OnOk, IfErr, IfSome, Option, Some, None, All, [], ◌∷◌, count_by, length, map, slice_index_or, if◌then◌else◌, ◌-◌};
ghost use Rattle.row_updates.specs.Imports.{bound_term, Term, is_true, IsSafe, in_leaf, Table, leaf_count_of};
ghost use Rattle.row_updates.specs.Rows.{IsBoundOver, IsSetOf, setting_of, filter_term};
ghost use Rattle.row_updates.specs.Inner.ValueRuns.{IsIdle, IsRunOf, AreGiven, row_of};
ghost use Rattle.row_updates.specs.Inner.Updated.{AreUpdated, IsStopped, IsStill, IsRunUpdated, lane_test, AreTested};

use crate::fault::UpdateFault;
use crate::runs::{Run, chain_run, leaf_run};
use crate::update::{Assign, update_between};
use expr_lang::Bound;
use record_dim::Steps;
use std::sync::ledger::Ledger;
use views::{RUN, View, laws_of_table};

// How far from 0 what stands in a leaf may lie, since it is stored again as 64 bits with a sign.
const FAR: u64 = 1 << 62;

/// Updates all rows, as many as there are up to 256 at once, and row by row where values lie too far from 0 or a leaf does not take one.
pub fn update_by_runs<L: Ledger>(
    view: &mut View,
    filter: Option<&Bound>,
    sets: &[Assign],
    leaves: &[u64],
    places: &[u64],
    steps: &mut Steps<L>,
) -> Result<(), UpdateFault>
    requires idle { IsIdle view.old }
    requires filter { IfSome filter (λ bound. IsBoundOver view.old bound.now × IsSafe leaves.now places.now (bound_term bound.now)) }
    requires sets { All (IsSetOf view.old) sets.now }
    requires safe { All (λ set. IsSafe leaves.now places.now (bound_term set.value)) sets.now }
    requires few { length sets.now ≤ 64 }
    requires leaves { length leaves.now ≡ leaf_count_of view.old }
    requires places { length places.now ≡ length view.old.extents }
    ensures done { OnOk result (AreUpdated view.old (filter_term filter.entry) (map setting_of sets.now) view.new (length view.old.rows)) }
    ensures stopped { IfErr result (IsStopped view.old (filter_term filter.entry) (map setting_of sets.now) view.new) }
{
    let count = view.extents().count();
    let mut first = 0;
    while first < count {
        let run = Run {
            first,
            leaves,
            places,
        };
        let end = (first + RUN as u64).min(count);
        update_next(view, filter, sets, &run, end, steps)?;
        first = end;
    }
    Ok(())
}

// Updates the rows of a run up to this one.
fn update_next<L: Ledger>(
    view: &mut View,
    filter: Option<&Bound>,
    sets: &[Assign],
    run: &Run<'_>,
    end: u64,
    steps: &mut Steps<L>,
) -> Result<(), UpdateFault>
    requires idle { IsIdle view.old }
    requires filter { IfSome filter (λ bound. IsBoundOver view.old bound.now × IsSafe run.now.leaves.now run.now.places.now (bound_term bound.now)) }
    requires sets { All (IsSetOf view.old) sets.now }
    requires safe { All (λ set. IsSafe run.now.leaves.now run.now.places.now (bound_term set.value)) sets.now }
    requires few { length sets.now ≤ 64 }
    requires order { run.now.first ≤ end }
    requires rows { IsRunOf view.old run.now (end - run.now.first) }
    ensures done { (old : Table) → IsIdle old → AreUpdated old (filter_term filter.entry) (map setting_of sets.now) view.old run.now.first
        → OnOk result (AreUpdated old (filter_term filter.entry) (map setting_of sets.now) view.new end) }
    ensures stopped { (old : Table) → IsIdle old → AreUpdated old (filter_term filter.entry) (map setting_of sets.now) view.old run.now.first
        → IfErr result (IsStopped old (filter_term filter.entry) (map setting_of sets.now) view.new) }
{
    let count = (end - run.first) as usize;
    let done = update_run(view, filter, sets, run, count, steps);
    update_between(view, filter, sets, run.first + done as u64, end, steps)
}

// Updates rows of a run, from the first on, at once, and tells how many: none or fewer than all where the next one has to be tried alone.
fn update_run<L: Ledger>(
    view: &mut View,
    filter: Option<&Bound>,
    sets: &[Assign],
    run: &Run<'_>,
    count: usize,
    steps: &mut Steps<L>,
) -> usize
    requires idle { IsIdle view.old }
    requires filter { IfSome filter (λ bound. IsBoundOver view.old bound.now × IsSafe run.now.leaves.now run.now.places.now (bound_term bound.now)) }
    requires sets { All (IsSetOf view.old) sets.now }
    requires safe { All (λ set. IsSafe run.now.leaves.now run.now.places.now (bound_term set.value)) sets.now }
    requires rows { IsRunOf view.old run.now count }
    ensures few { result ≤ count }
    ensures updated { IsRunUpdated view.old (filter_term filter.entry) (map setting_of sets.now) run.now.first result view.new }
{
    match filter {
        None => given_run(view, sets, run, count, None, steps),
        Some(filter) => passed_run(view, filter, sets, run, count, steps),
    }
}

// The same of the rows that pass a filter.
fn passed_run<L: Ledger>(
    view: &mut View,
    filter: &Bound,
    sets: &[Assign],
    run: &Run<'_>,
    count: usize,
    steps: &mut Steps<L>,
) -> usize
    requires idle { IsIdle view.old }
    requires over { IsBoundOver view.old filter.now }
    requires safe_filter { IsSafe run.now.leaves.now run.now.places.now (bound_term filter.now) }
    requires sets { All (IsSetOf view.old) sets.now }
    requires safe { All (λ set. IsSafe run.now.leaves.now run.now.places.now (bound_term set.value)) sets.now }
    requires rows { IsRunOf view.old run.now count }
    ensures few { result ≤ count }
    ensures updated { IsRunUpdated view.old (Some (bound_term filter.now)) (map setting_of sets.now) run.now.first result view.new }
{
    let mut buffer = [0; RUN];
    let mask = &mut buffer[..count];
    if !chain_run(view, filter.chain(), run, mask, steps) {
        return 0;
    }
    let passing = count_passing(mask);
    if passing == 0 {
        return count;
    }
    if passing == count {
        return given_run(view, sets, run, count, None, steps);
    }
    given_run(view, sets, run, count, Some(&*mask), steps)
}

/// How many of these are not 0.
pub fn count_passing(mask: &[i64]) -> usize
    ensures { result ≡ count_by is_true mask.now }
{
    let mut passing = 0;
    for value in mask {
        passing += usize::from(*value != 0);
    }
    passing
}

// Gives rows of a run their values, of which those pass where the number is not 0.
fn given_run<L: Ledger>(
    view: &mut View,
    sets: &[Assign],
    run: &Run<'_>,
    count: usize,
    mask: Option<&[i64]>,
    steps: &mut Steps<L>,
) -> usize
    requires idle { IsIdle view.old }
    requires sets { All (IsSetOf view.old) sets.now }
    requires safe { All (λ set. IsSafe run.now.leaves.now run.now.places.now (bound_term set.value)) sets.now }
    requires rows { IsRunOf view.old run.now count }
    requires mask { IfSome mask (λ numbers. length numbers.now ≡ count) }
    ensures few { result ≤ count }
    ensures updated { (filter : Option (Term ℕ)) → AreTested view.old filter run.now.first count (lane_test mask.entry)
        → IsRunUpdated view.old filter (map setting_of sets.now) run.now.first result view.new }
{
    if sets.len() == 1 {
        return lone_run(view, &sets[0], run, count, mask, steps);
    }
    if sets_run(view, sets, run, count, mask, steps) {
        count
    } else {
        0
    }
}

// The same of one right side. Its store alone tests the values.
fn lone_run<L: Ledger>(
    view: &mut View,
    set: &Assign,
    run: &Run<'_>,
    count: usize,
    mask: Option<&[i64]>,
    steps: &mut Steps<L>,
) -> usize
    requires idle { IsIdle view.old }
    requires set { IsSetOf view.old set.now }
    requires safe { IsSafe run.now.leaves.now run.now.places.now (bound_term set.now.value) }
    requires rows { IsRunOf view.old run.now count }
    requires mask { IfSome mask (λ numbers. length numbers.now ≡ count) }
    ensures few { result ≤ count }
    ensures updated { (filter : Option (Term ℕ)) → AreTested view.old filter run.now.first count (lane_test mask.entry)
        → IsRunUpdated view.old filter (setting_of set.now ∷ []) run.now.first result view.new }
{
    laws_of_table(view);
    let mut buffer = [0; RUN];
    let values = &mut buffer[..count];
    if !value_run(view, set, run, mask, values, steps) {
        return 0;
    }
    match view.store_run(set.leaf, run.first, values, steps) {
        Ok(()) => count,
        Err(fault) => fault.lane,
    }
}

// The same of any number of right sides, of all rows or none: the last is evaluated before one is stored, and is stored last.
fn sets_run<L: Ledger>(
    view: &mut View,
    sets: &[Assign],
    run: &Run<'_>,
    count: usize,
    mask: Option<&[i64]>,
    steps: &mut Steps<L>,
) -> bool
    requires idle { IsIdle view.old }
    requires sets { All (IsSetOf view.old) sets.now }
    requires safe { All (λ set. IsSafe run.now.leaves.now run.now.places.now (bound_term set.value)) sets.now }
    requires rows { IsRunOf view.old run.now count }
    requires mask { IfSome mask (λ numbers. length numbers.now ≡ count) }
    ensures still { IsStill view.old view.new }
    ensures none { result ≡ false → view.new ≡ view.old }
    ensures updated { result ≡ true → (filter : Option (Term ℕ)) → AreTested view.old filter run.now.first count (lane_test mask.entry)
        → IsRunUpdated view.old filter (map setting_of sets.now) run.now.first count view.new }
{
    laws_of_table(view);
    if sets.is_empty() {
        return true;
    }
    let before = sets.len() - 1;
    let last = &sets[before];
    let mut buffer = [0; RUN];
    let values = &mut buffer[..count];
    if !value_run(view, last, run, mask, values, steps) || !view.takes_run(last.leaf, values) {
        return false;
    }
    if !sets_run(view, &sets[..before], run, count, mask, steps) {
        return false;
    }
    view.put_run(last.leaf, run.first, values, steps);
    true
}

// The values of a right side in the rows of a run that pass, and in the others what stands there. False where one lies too far from 0.
fn value_run<L: Ledger>(
    view: &mut View,
    set: &Assign,
    run: &Run<'_>,
    mask: Option<&[i64]>,
    values: &mut [i64],
    steps: &mut Steps<L>,
) -> bool
    requires idle { IsIdle view.old }
    requires set { IsSetOf view.old set.now }
    requires safe { IsSafe run.now.leaves.now run.now.places.now (bound_term set.now.value) }
    requires rows { IsRunOf view.old run.now (length values.old) }
    requires mask { IfSome mask (λ numbers. length numbers.now ≡ length values.old) }
    ensures same { view.new ≡ view.old }
    ensures given { result ≡ true → AreGiven view.old run.now (setting_of set.now) (lane_test mask.entry) values.new }
{
    if !chain_run(view, set.value.chain(), run, values, steps) {
        return false;
    }
    match mask {
        None => true,
        Some(mask) => keep_others(view, set.leaf, run, mask, values, steps),
    }
}

// Puts what stands in a leaf in place of the values of rows that do not pass.
fn keep_others<L: Ledger>(
    view: &mut View,
    leaf: usize,
    run: &Run<'_>,
    mask: &[i64],
    values: &mut [i64],
    steps: &mut Steps<L>,
) -> bool
    requires idle { IsIdle view.old }
    requires inside { leaf < leaf_count_of view.old }
    requires rows { IsRunOf view.old run.now (length values.old) }
    requires mask { length mask.now ≡ length values.old }
    ensures same { view.new ≡ view.old }
    ensures kept { result ≡ true → (k : ℕ) → k < length values.old → slice_index_or values.new k (pos 0)
        ≡ (if is_true (slice_index_or mask.now k (pos 0)) then slice_index_or values.old k (pos 0) else in_leaf leaf (row_of view.old (run.now.first + k))) }
{
    let mut buffer = [0; RUN];
    let old = &mut buffer[..values.len()];
    if !leaf_run(view, leaf, run.first, FAR, old, steps) {
        return false;
    }
    choose(mask, old, values);
    true
}

// Puts the others in place of the numbers where the test is 0.
fn choose(mask: &[i64], others: &[i64], values: &mut [i64])
    requires mask { length mask.now ≡ length values.old }
    requires others { length others.now ≡ length values.old }
    ensures { (k : ℕ) → k < length values.old → slice_index_or values.new k (pos 0)
        ≡ (if is_true (slice_index_or mask.now k (pos 0)) then slice_index_or values.old k (pos 0) else slice_index_or others.now k (pos 0)) }
{
    for k in 0..values.len() {
        values[k] = chosen(mask[k], values[k], others[k]);
    }
}

// A number where the test is not 0, and else the other.
#[inline(always)]
fn chosen(test: i64, value: i64, other: i64) -> i64
    ensures { result ≡ (if is_true test then value else other) }
{
    if test == 0 { other } else { value }
}
