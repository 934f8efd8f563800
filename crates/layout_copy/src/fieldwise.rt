// A copy that goes by the leaves of one row after another, or by runs of rows.
ghost use Rattle.std.specs.Prelude.{◌≡◌, ◌+◌, ◌*◌, ◌<◌, ◌≤◌, [], IfNone, IfSome, length, slice_index_or, slice_set};
ghost use Rattle.views.specs.Prelude.{kept_row, leaf_count_of, answer_of, kept_of, after_log, after_stores, Read, Write, row_accesses, all_touches};
ghost use Rattle.layout_copy.specs.Copies.{AreAlike, IsCopied, refusing, source_log};

use crate::fault::CopyFault;
use crate::row_runs::{copy_row_runs, may_go_by_runs};
use record_dim::Steps;
use std::sync::ledger::Ledger;
use views::{View, laws_of_table};

// A copy of a table to a view that is alike: by runs of rows where none is refused and no side counts, and else row by row. `Narrow` comes
// exactly where the target refuses a value, and names the first by rows, then leaves; exactly the rows before it are copied.
pub(crate) fn copy_fields<L: Ledger>(
    source: &mut View,
    target: &mut View,
    steps: &mut Steps<L>,
) -> Result<(), CopyFault>
    requires alike { AreAlike source.old target.old }
    requires rows { length source.old.rows ≡ length target.old.rows }
    ensures copied { IsCopied source.old target.old target.new result }
    ensures source { source.new ≡ after_log source.old (source_log (leaf_count_of source.old) (length source.old.rows) result) }
    ensures steps { steps.new ≤ steps.old + 2 * (length source.old.rows * leaf_count_of source.old) }
{
    if may_go_by_runs(source, target) {
        laws_of_table(source);
        laws_of_table(target);
        copy_row_runs(source, target, steps);
        return Ok(());
    }
    let mut buffer = [0; 64];
    let values = &mut buffer[..source.schema().leaf_count()];
    for row in 0..source.extents().count() {
        if let Some(leaf) = copy_row(source, target, row, values, steps) {
            return Err(CopyFault::Narrow { row, leaf });
        }
    }
    Ok(())
}

/// A copy of a view onto itself: its table stands, and each leaf of each row is read once and written once.
pub fn copy_self(view: &mut View)
    ensures { view.new ≡ after_log view.old (all_touches 1 1 (leaf_count_of view.old) (length view.old.rows)) }
{
    view.touch_all(1, 1);
}

// Copies a row, or leaves it and names the first leaf whose value the target refuses. The values are kept in `values`.
fn copy_row<L: Ledger>(
    source: &mut View,
    target: &mut View,
    row: u64,
    values: &mut [i128],
    steps: &mut Steps<L>,
) -> Option<usize>
    requires source_row { row < length source.old.rows }
    requires target_row { row < length target.old.rows }
    requires leaves { leaf_count_of target.old ≡ leaf_count_of source.old }
    requires values { length values.old ≡ leaf_count_of source.old }
    ensures refused { result ≡ refusing (answer_of target.old) 0 (slice_index_or source.old.rows row []) }
    ensures stored { IfNone result (target.new ≡ after_stores target.old (slice_set target.old.rows row
        (kept_row (kept_of target.old) (slice_index_or source.old.rows row []))) (row_accesses Write (leaf_count_of target.old) row)) }
    ensures kept { IfSome result (λ _. target.new ≡ target.old) }
    ensures all_read { IfNone result (source.new ≡ after_log source.old (row_accesses Read (leaf_count_of source.old) row)) }
    ensures some_read { IfSome result (λ leaf. source.new ≡ after_log source.old (row_accesses Read (leaf + 1) row)) }
    ensures steps { steps.new ≤ steps.old + 2 * leaf_count_of source.old }
    ensures count { length values.new ≡ length values.old }
{
    if let Some(leaf) = read_row(source, target, row, values, steps) {
        return Some(leaf);
    }
    target.store_row(row, values, steps);
    None
}

// Reads the values of a row up to the first leaf whose value the target refuses, and names that leaf.
fn read_row<L: Ledger>(
    source: &mut View,
    target: &View,
    row: u64,
    values: &mut [i128],
    steps: &mut Steps<L>,
) -> Option<usize>
    requires row_in { row < length source.old.rows }
    requires leaves { leaf_count_of target.now ≡ leaf_count_of source.old }
    requires values { length values.old ≡ leaf_count_of source.old }
    ensures refused { result ≡ refusing (answer_of target.now) 0 (slice_index_or source.old.rows row []) }
    ensures read { IfNone result (values.new ≡ slice_index_or source.old.rows row []) }
    ensures all_read { IfNone result (source.new ≡ after_log source.old (row_accesses Read (leaf_count_of source.old) row)) }
    ensures some_read { IfSome result (λ leaf. source.new ≡ after_log source.old (row_accesses Read (leaf + 1) row)) }
    ensures steps { steps.new ≤ steps.old + leaf_count_of source.old }
    ensures count { length values.new ≡ length values.old }
{
    laws_of_table(source);
    for leaf in 0..values.len() {
        let value = source.get(row, leaf, steps);
        if target.fits(leaf, value).is_err() {
            return Some(leaf);
        }
        values[leaf] = value;
    }
    None
}
