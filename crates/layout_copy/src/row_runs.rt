// A copy that goes by runs of rows, leaf after leaf.
ghost use Rattle.std.specs.Prelude.{◌≡◌, ◌+◌, ◌*◌, ◌≤◌, true, length};
ghost use Rattle.views.specs.Prelude.{AreRowsMoved, CountsNothing, leaf_count_of};
ghost use Rattle.layout_copy.specs.Copies.{AreAlike};
ghost use Rattle.layout_copy.specs.Inner.RowRuns.{AllTake};

use record_dim::Steps;
use std::sync::ledger::Ledger;
use views::{RUN, View, laws_of_table};

// Whether no side counts, and each leaf of the target takes each value of its type.
pub(crate) fn may_go_by_runs(source: &View, target: &View) -> bool
    ensures source { result ≡ true → CountsNothing source.now }
    ensures target { result ≡ true → CountsNothing target.now }
    ensures takes { result ≡ true → AllTake target.now }
{
    source.counts_nothing() && target.counts_nothing() && all_take(target)
}

// Whether each leaf of a view takes each value of its type.
fn all_take(view: &View) -> bool
    ensures { result ≡ true → AllTake view.now }
{
    for leaf in 0..view.schema().leaf_count() {
        if !view.holds_all(leaf) {
            return false;
        }
    }
    true
}

// Makes the rows of a view those of another one, which is alike.
pub(crate) fn copy_row_runs<L: Ledger>(source: &mut View, target: &mut View, steps: &mut Steps<L>)
    requires alike { AreAlike source.old target.old }
    requires from { CountsNothing source.old }
    requires to { CountsNothing target.old }
    requires takes { AllTake target.old }
    ensures source { source.new ≡ source.old }
    ensures rows { target.new ≡ record target.old { rows = source.old.rows } }
    ensures steps { steps.new ≤ steps.old + 2 * (length source.old.rows * leaf_count_of source.old) }
{
    let mut buffer = [0; RUN];
    let count = source.extents().count();
    let mut first = 0;
    while first < count {
        let rows = (count - first).min(RUN as u64);
        copy_leaves(source, target, first, &mut buffer[..rows as usize], steps);
        first += rows;
    }
    laws_of_table(target);
}

// Copies a run of as many rows as the buffer has room for, leaf after leaf.
fn copy_leaves<L: Ledger>(
    source: &mut View,
    target: &mut View,
    first: u64,
    buffer: &mut [i64],
    steps: &mut Steps<L>,
)
    requires alike { AreAlike source.old target.old }
    requires rows_in { first + length buffer.old ≤ length source.old.rows }
    requires from { CountsNothing source.old }
    requires to { CountsNothing target.old }
    requires takes { AllTake target.old }
    ensures source { source.new ≡ source.old }
    ensures same { target.new ≡ record target.old { rows = target.new.rows } }
    ensures moved { AreRowsMoved (leaf_count_of target.old) first (length buffer.old) source.old.rows target.old.rows target.new.rows }
    ensures steps { steps.new ≤ steps.old + 2 * (length buffer.old * leaf_count_of target.old) }
    ensures count { length buffer.new ≡ length buffer.old }
{
    laws_of_table(source);
    for leaf in 0..target.schema().leaf_count() {
        laws_of_table(target);
        target.copy_run(leaf, first, source, buffer, steps);
    }
}
