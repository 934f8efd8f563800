// Rows where an expression is not 0, counted.
ghost use Rattle.std.specs.Prelude.{◌≡◌, ◌+◌, ◌≤◌, ◌-◌, ℕ, OnOk, IfOk, IfErr, length};
ghost use Rattle.row_updates.specs.Imports.{bound_term, IsSafe, Table, leaf_count_of, after_log};
ghost use Rattle.row_updates.specs.Rows.{IsBoundOver, counted};
ghost use Rattle.row_updates.specs.Logs.{count_log};
ghost use Rattle.row_updates.specs.Inner.ValueRuns.{IsIdle, IsRunOf};
ghost use Rattle.row_updates.specs.Inner.Updated.{IsCounted, IsCountStopped};

use crate::fault::UpdateFault;
use crate::index::put_index;
use crate::limits::find_limits;
use crate::run_updates::count_passing;
use crate::runs::{Run, chain_run};
use crate::value::passes;
use expr_lang::Bound;
use record_dim::Steps;
use std::sync::ledger::Ledger;
use views::{RUN, View};

/// In how many rows an expression is not 0, or its first fault in the order of rows. The table stands, the
/// reads are counted, and no memory is taken.
pub fn count_where<L: Ledger>(
    view: &mut View,
    filter: &Bound,
    steps: &mut Steps<L>,
) -> Result<u64, UpdateFault>
    requires { IsBoundOver view.old filter.now }
    ensures value { result ≡ counted (bound_term filter.now) view.old.extents view.old.rows }
    ensures same { OnOk result (view.new ≡ after_log view.old (count_log (bound_term filter.now) view.old.extents view.old.rows (length view.old.rows))) }
    ensures so_far { IfErr result (λ fault. view.new ≡ after_log view.old (count_log (bound_term filter.now) view.old.extents view.old.rows (fault.row + 1))) }
{
    let mut leaves = [0; 64];
    let mut places = [0; 4];
    let leaves = &mut leaves[..view.schema().leaf_count()];
    let places = &mut places[..view.extents().rank()];
    if find_limits(view, Some(filter), &[], leaves, places) {
        return count_by_runs(view, filter, leaves, places, steps);
    }
    let count = view.extents().count();
    count_between(view, filter, 0, count, steps)
}

// Counts as many rows at once as there are up to 256, and row by row where values lie too far from 0.
fn count_by_runs<L: Ledger>(
    view: &mut View,
    filter: &Bound,
    leaves: &[u64],
    places: &[u64],
    steps: &mut Steps<L>,
) -> Result<u64, UpdateFault>
    requires idle { IsIdle view.old }
    requires over { IsBoundOver view.old filter.now }
    requires safe { IsSafe leaves.now places.now (bound_term filter.now) }
    requires leaves { length leaves.now ≡ leaf_count_of view.old }
    requires places { length places.now ≡ length view.old.extents }
    ensures done { IfOk result (λ more. IsCounted view.old (bound_term filter.now) view.new (length view.old.rows) more) }
    ensures stopped { IfErr result (IsCountStopped view.old (bound_term filter.now) view.new) }
{
    let count = view.extents().count();
    let mut passing = 0;
    let mut first = 0;
    while first < count {
        let run = Run {
            first,
            leaves,
            places,
        };
        let end = (first + RUN as u64).min(count);
        passing += count_next(view, filter, &run, end, steps)?;
        first = end;
    }
    Ok(passing)
}

// Counts the rows of a run up to this one.
fn count_next<L: Ledger>(
    view: &mut View,
    filter: &Bound,
    run: &Run<'_>,
    end: u64,
    steps: &mut Steps<L>,
) -> Result<u64, UpdateFault>
    requires idle { IsIdle view.old }
    requires over { IsBoundOver view.old filter.now }
    requires safe { IsSafe run.now.leaves.now run.now.places.now (bound_term filter.now) }
    requires order { run.now.first ≤ end }
    requires rows { IsRunOf view.old run.now (end - run.now.first) }
    ensures few { IfOk result (λ more. run.now.first + more ≤ end) }
    ensures done { (old : Table) (before : ℕ) → IsIdle old → IsCounted old (bound_term filter.now) view.old run.now.first before
        → IfOk result (λ more. IsCounted old (bound_term filter.now) view.new end (before + more)) }
    ensures stopped { (old : Table) (before : ℕ) → IsIdle old → IsCounted old (bound_term filter.now) view.old run.now.first before
        → IfErr result (IsCountStopped old (bound_term filter.now) view.new) }
{
    let mut buffer = [0; RUN];
    let values = &mut buffer[..(end - run.first) as usize];
    if chain_run(view, filter.chain(), run, values, steps) {
        return Ok(count_passing(values) as u64);
    }
    count_between(view, filter, run.first, end, steps)
}

// The same of the rows from one to another, row by row.
fn count_between<L: Ledger>(
    view: &mut View,
    filter: &Bound,
    first: u64,
    end: u64,
    steps: &mut Steps<L>,
) -> Result<u64, UpdateFault>
    requires over { IsBoundOver view.old filter.now }
    requires order { first ≤ end }
    requires rows_in { end ≤ length view.old.rows }
    ensures few { IfOk result (λ more. first + more ≤ end) }
    ensures done { (old : Table) (before : ℕ) → IsCounted old (bound_term filter.now) view.old first before
        → IfOk result (λ more. IsCounted old (bound_term filter.now) view.new end (before + more)) }
    ensures stopped { (old : Table) (before : ℕ) → IsCounted old (bound_term filter.now) view.old first before
        → IfErr result (IsCountStopped old (bound_term filter.now) view.new) }
{
    let extents = view.extents();
    let mut numbers = [0; 4];
    let mut count = 0;
    for row in first..end {
        put_index(&extents, row, &mut numbers);
        let index = &numbers[..extents.rank()];
        count += u64::from(passes(view, row, index, Some(filter), steps)?);
    }
    Ok(count)
}
