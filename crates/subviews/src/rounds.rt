// Rounds of a stencil over a window, and their buffer.
ghost use Rattle.std.specs.Prelude.{◌≡◌, ◌+◌, ◌<◌, ◌≤◌, ℕ, true, pos, ◌<ℤ◌, int_div, All, Contains, Ok, Err, OnOk, OnErr, IfOk, IfErr, length, map};
ghost use Rattle.subviews.specs.Imports.{entry, column_reads, column_writes, run_of, Table, leaf_count_of, answer_of, after_log, after_stores, with_values};
ghost use Rattle.subviews.specs.SubViews.{rows_of};
ghost use Rattle.subviews.specs.Stencils.{Stencil, weighted, stencil_value, values_fault, new_entry, with_entries, round, stenciled, term_reads, round_reads, round_writes, tried_rows, rounds_log, refused_log};
ghost use Rattle.subviews.specs.Plans.{IsTermOf, IsBufferOf, IsPlanOf, IsRunOf, IsFilled, stencil_by, planned};

use crate::far::{all_far, row_away};
use crate::fault::StencilFault;
use crate::limits::are_near;
use crate::plan::Plan;
use crate::runs::{Run, Walk};
use crate::sums::sum_run;
use crate::term::Term;
use extents::Window;
use piece_bits::StoreMode;
use record_dim::Steps;
use std::alloc::{AllocError as NoMemory, Global};
use std::sync::ledger::Ledger;
use views::{RUN, View, laws_of_table};

/// A buffer for stencils over a view: it lies as the view does, without the view's counters.
pub fn buffer_for(alloc: Global, view: &View) -> Result<View, NoMemory>
    ensures { IfOk result (IsBufferOf view.now) }
{
    let _map = view.map();
    let expr = view.expr().uncounted();
    let most = view.blob_bytes();
    match View::new_within(
        alloc,
        view.schema(),
        view.extents(),
        expr,
        view.mode(),
        most,
    ) {
        Ok(buffer) => Ok(buffer),
        // The view itself keeps all limits, so only memory can be wanting.
        Err(_) => Err(NoMemory),
    }
}

/// Sets a leaf in each row of a window to the sum of the terms there, divided and cut toward zero, so many times. All values of a round are
/// worked out over the table before it, into the buffer, and only then stored. On a fault the table is that after the rounds before, and what
/// was read up to the named row counts. The buffer holds anything afterwards. It takes no memory.
pub fn stencil<L: Ledger>(
    view: &mut View,
    buffer: &mut View,
    window: &Window,
    leaf: usize,
    terms: &[Term],
    divisor: u32,
    rounds: u32,
    steps: &mut Steps<L>,
) -> Result<(), StencilFault>
    requires window { window.now.0 ≡ view.old.extents }
    requires leaf_in { leaf < leaf_count_of view.old }
    requires terms { All (IsTermOf (leaf_count_of view.old) window.now) terms.now }
    requires few { length terms.now ≤ 64 }
    requires divisor { 0 < divisor }
    requires buffer { IsBufferOf view.old buffer.old }
    ensures stored { OnOk result (stenciled view.old (stencil_by window.now leaf terms.now divisor) rounds ≡ Ok view.new.rows) }
    ensures refused { IfErr result (λ fault. stenciled view.old (stencil_by window.now leaf terms.now divisor) rounds ≡ Err fault) }
    ensures so_far { IfErr result (λ fault. (done : ℕ) × (done < rounds)
        × (stenciled view.old (stencil_by window.now leaf terms.now divisor) done ≡ Ok view.new.rows)
        × (round (answer_of view.old) (stencil_by window.now leaf terms.now divisor) view.new.rows ≡ Err fault)
        × (view.new ≡ after_stores view.old view.new.rows (refused_log (answer_of view.old) (stencil_by window.now leaf terms.now divisor) done view.new.rows))) }
    ensures counted { OnOk result (view.new ≡ after_stores view.old view.new.rows (rounds_log (stencil_by window.now leaf terms.now divisor) rounds)) }
    ensures same { view.new ≡ record view.old { rows = view.new.rows; tally = view.new.tally } }
    ensures buffer { buffer.new ≡ record buffer.old { rows = buffer.new.rows; tally = buffer.new.tally } }
{
    let plan = Plan {
        window,
        leaf,
        terms,
        far: all_far(window, terms),
        divisor: i64::from(divisor),
        near: are_near(view, terms),
    };
    let mut values = [0; RUN];
    let mut read = [0; RUN];
    for _round in 0..rounds {
        fill(view, buffer, &plan, &mut values, &mut read, steps)?;
        store_back(view, buffer, &plan, &mut values, steps);
    }
    Ok(())
}

// Puts what is kept of each value of a round into the buffer. The table stands.
fn fill<L: Ledger>(
    view: &mut View,
    buffer: &mut View,
    plan: &Plan<'_>,
    values: &mut [i64; RUN],
    read: &mut [i64; RUN],
    steps: &mut Steps<L>,
) -> Result<(), StencilFault>
    requires plan { IsPlanOf view.old.fields view.old.extents plan.now }
    requires buffer { IsBufferOf view.old buffer.old }
    ensures fits { OnOk result (values_fault (answer_of view.old) (planned plan.now) view.old.rows (rows_of plan.now.window.now) ≡ Ok tt) }
    ensures refused { IfErr result (λ fault. values_fault (answer_of view.old) (planned plan.now) view.old.rows (rows_of plan.now.window.now) ≡ Err fault) }
    ensures read { OnOk result (view.new ≡ after_log view.old (round_reads (planned plan.now) (rows_of plan.now.window.now))) }
    ensures so_far { OnErr result (view.new ≡ after_log view.old
        (round_reads (planned plan.now) (tried_rows (answer_of view.old) (planned plan.now) view.old.rows (rows_of plan.now.window.now)))) }
    ensures same { view.new ≡ record view.old { tally = view.new.tally } }
    ensures filled { OnOk result ((row : ℕ) → Contains (rows_of plan.now.window.now) row
        → entry buffer.new.rows row plan.now.leaf ≡ new_entry (answer_of view.old) (planned plan.now) view.old.rows row) }
    ensures buffer { buffer.new ≡ record buffer.old { rows = buffer.new.rows; tally = buffer.new.tally } }
{
    let count = plan.window.count();
    let mut walk = Walk::new(plan.window);
    let mut row = 0;
    while row < count {
        let run = walk.next_run(plan.window, row);
        let done = fill_run(view, buffer, plan, run, values, read, steps);
        for outer in run.first + done..run.first + run.rows {
            laws_of_table(buffer);
            let value = value_at(view, plan, outer, steps);
            if let Err(fault) = buffer.set(outer, plan.leaf, value, steps) {
                return Err(StencilFault { row: outer, fault });
            }
        }
        row += run.rows;
    }
    Ok(())
}

// The same of a run, up to the first value that does not fit, where nothing is counted and no sum passes 64 bits. It tells of how many rows.
fn fill_run<L: Ledger>(
    view: &mut View,
    buffer: &mut View,
    plan: &Plan<'_>,
    run: Run,
    values: &mut [i64; RUN],
    read: &mut [i64; RUN],
    steps: &mut Steps<L>,
) -> u64
    requires plan { IsPlanOf view.old.fields view.old.extents plan.now }
    requires buffer { IsBufferOf view.old buffer.old }
    requires run { IsRunOf plan.now.window.now run }
    ensures few { result ≤ run.rows }
    ensures same { view.new ≡ view.old }
    ensures filled { (old first : Table) → IsBufferOf old first → IsFilled old view.old first buffer.old plan.now run.row
        → IsFilled old view.new first buffer.new plan.now (run.row + result) }
    ensures buffer { buffer.new ≡ record buffer.old { rows = buffer.new.rows; tally = buffer.new.tally } }
{
    if !plan.near || !view.counts_nothing() {
        return 0;
    }
    let sums = &mut values[..run.rows as usize];
    sum_run(view, plan, run, sums, &mut read[..run.rows as usize], steps);
    laws_of_table(buffer);
    match buffer.store_run(plan.leaf, run.first, sums, steps) {
        Ok(()) => run.rows,
        Err(fault) => fault.lane as u64,
    }
}

// The value of a stencil at a row of its window.
#[inline(always)]
fn value_at<L: Ledger>(view: &mut View, plan: &Plan<'_>, row: u64, steps: &mut Steps<L>) -> i128
    requires plan { IsPlanOf view.old.fields view.old.extents plan.now }
    requires row_in { Contains (rows_of plan.now.window.now) row }
    ensures value { result ≡ stencil_value (planned plan.now) view.old.rows row }
    ensures read { view.new ≡ after_log view.old (term_reads (planned plan.now) row) }
{
    laws_of_table(view);
    let mut sum = 0;
    for (place, term) in plan.terms.iter().enumerate() {
        let at = row_away(row, plan.far[place]);
        sum += i128::from(term.weight) * view.get(at, term.leaf, steps);
    }
    quotient(sum, plan.divisor)
}

// A quotient, cut toward zero. Most sums fit an i64, which the processor divides by itself.
#[inline(always)]
fn quotient(sum: i128, divisor: i64) -> i128
    requires { pos 0 <ℤ divisor }
    ensures { result ≡ int_div sum divisor }
{
    match i64::try_from(sum) {
        Ok(near) => i128::from(near / divisor),
        Err(_) => sum / i128::from(divisor),
    }
}

// Stores in each row of the window what the buffer holds there.
fn store_back<L: Ledger>(
    view: &mut View,
    buffer: &mut View,
    plan: &Plan<'_>,
    values: &mut [i64; RUN],
    steps: &mut Steps<L>,
)
    requires plan { IsPlanOf view.old.fields view.old.extents plan.now }
    requires buffer { IsBufferOf view.old buffer.old }
    ensures stored { view.new ≡ after_stores view.old
        (with_entries plan.now.leaf (λ row. entry buffer.old.rows row plan.now.leaf) (rows_of plan.now.window.now) view.old.rows)
        (round_writes (planned plan.now) (rows_of plan.now.window.now)) }
    ensures buffer { buffer.new ≡ record buffer.old { tally = buffer.new.tally } }
{
    let count = plan.window.count();
    let mut walk = Walk::new(plan.window);
    let mut row = 0;
    while row < count {
        laws_of_table(view);
        laws_of_table(buffer);
        let run = walk.next_run(plan.window, row);
        copy_back(view, buffer, plan.leaf, run, values, steps);
        row += run.rows;
    }
}

// Makes a leaf of a view, in the rows of a run, what it is in the buffer, which keeps what the view keeps.
fn copy_back<L: Ledger>(
    view: &mut View,
    buffer: &mut View,
    leaf: usize,
    run: Run,
    values: &mut [i64; RUN],
    steps: &mut Steps<L>,
)
    requires buffer { IsBufferOf view.old buffer.old }
    requires leaf_in { leaf < leaf_count_of view.old }
    requires few { run.rows ≤ 256 }
    requires rows_in { run.first + run.rows ≤ length view.old.rows }
    ensures stored { view.new ≡ after_stores view.old
        (with_values leaf run.first (run_of leaf run.first run.rows buffer.old) view.old.rows) (column_writes leaf run.first run.rows) }
    ensures read { buffer.new ≡ after_log buffer.old (column_reads leaf run.first run.rows) }
{
    laws_of_table(view);
    laws_of_table(buffer);
    let lows = &mut values[..run.rows as usize];
    buffer.read_run(leaf, run.first, lows, steps);
    match view.mode() {
        StoreMode::Strict => view.put_run(leaf, run.first, lows, steps),
        StoreMode::Wrap => {
            let _taken = view.store_run(leaf, run.first, lows, steps);
        }
    }
}
