// New values of leaves, row by row.
ghost use Rattle.std.specs.Prelude.{◌≡◌, ◌<◌, ◌≤◌, ◌+◌, ℕ, ℤ, pos, true, is_ok, Ok, OnOk, OnErr, IfOk, IfErr, IfSome, Some, None, if◌then◌else◌, All, [], ◌∷◌, List, length, map, take, drop, slice_index_or, slice_set};
ghost use Rattle.row_updates.specs.Imports.{bound_term, Table, answer_of, kept_of, after_log, after_stores, index_at};
ghost use Rattle.row_updates.specs.Rows.{IsBoundOver, IsSetOf, Setting, setting_of, filter_term, each, store_kind, new_value, with_values, tried_row, updated_row, updated_of};
ghost use Rattle.row_updates.specs.Logs.{value_log, sides_log, stores_log, tried_log, row_log, update_log};
ghost use Rattle.row_updates.specs.Inner.Updated.{AreUpdated, IsStopped};

use crate::fault::{UpdateFault, UpdateKind};
use crate::index::put_index;
use crate::limits::find_limits;
use crate::run_updates::update_by_runs;
use crate::value::{passes, value_of};
use expr_lang::Bound;
use record_dim::Steps;
use std::sync::ledger::Ledger;
use views::{StoreFault, View};

/// How many right sides go by runs, since each has a buffer on the stack.
const MOST_SETS: usize = 4;

/// A leaf, and the expression of its new value.
#[derive(Drop)]
pub struct Assign {
    pub leaf: usize,
    pub value: Bound,
}

/// Stores the values of the right sides in each row where the filter is not 0, row by row, as the view keeps them. All right sides of a row
/// are evaluated, each tested right after it where the view is strict, before one is stored. On a fault exactly the rows before the named one
/// are changed, and what was read of that one counts. A row that the filter leaves out is read by the filter alone. It takes no memory.
pub fn update_rows<L: Ledger>(
    view: &mut View,
    filter: Option<&Bound>,
    sets: &[Assign],
    steps: &mut Steps<L>,
) -> Result<(), UpdateFault>
    requires filter { IfSome filter (λ bound. IsBoundOver view.old bound.now) }
    requires sets { All (IsSetOf view.old) sets.now }
    requires few { length sets.now ≤ 64 }
    ensures stored { OnOk result (updated_of view.old (filter_term filter.entry) (map setting_of sets.now) (length view.old.rows) ≡ Ok view.new.rows) }
    ensures refused { IfErr result (λ fault. updated_of view.old (filter_term filter.entry) (map setting_of sets.now) (length view.old.rows) ≡ Err fault) }
    ensures before { IfErr result (λ fault. updated_of view.old (filter_term filter.entry) (map setting_of sets.now) fault.row ≡ Ok (take fault.row view.new.rows)) }
    ensures behind { IfErr result (λ fault. drop fault.row view.new.rows ≡ drop fault.row view.old.rows) }
    ensures same { OnOk result (view.new ≡ after_stores view.old view.new.rows
        (update_log view.old (filter_term filter.entry) (map setting_of sets.now) (length view.old.rows))) }
    ensures so_far { IfErr result (λ fault. view.new ≡ after_stores view.old view.new.rows
        (update_log view.old (filter_term filter.entry) (map setting_of sets.now) (fault.row + 1))) }
{
    let mut leaves = [0; 64];
    let mut places = [0; 4];
    let leaves = &mut leaves[..view.schema().leaf_count()];
    let places = &mut places[..view.extents().rank()];
    if sets.len() <= MOST_SETS && find_limits(view, filter, sets, leaves, places) {
        return update_by_runs(view, filter, sets, leaves, places, steps);
    }
    let count = view.extents().count();
    update_between(view, filter, sets, 0, count, steps)
}

/// The same of the rows from one to another, row by row.
pub(crate) fn update_between<L: Ledger>(
    view: &mut View,
    filter: Option<&Bound>,
    sets: &[Assign],
    first: u64,
    end: u64,
    steps: &mut Steps<L>,
) -> Result<(), UpdateFault>
    requires filter { IfSome filter (λ bound. IsBoundOver view.old bound.now) }
    requires sets { All (IsSetOf view.old) sets.now }
    requires few { length sets.now ≤ 64 }
    requires order { first ≤ end }
    requires rows_in { end ≤ length view.old.rows }
    ensures done { (old : Table) → AreUpdated old (filter_term filter.entry) (map setting_of sets.now) view.old first
        → OnOk result (AreUpdated old (filter_term filter.entry) (map setting_of sets.now) view.new end) }
    ensures stopped { (old : Table) → AreUpdated old (filter_term filter.entry) (map setting_of sets.now) view.old first
        → IfErr result (IsStopped old (filter_term filter.entry) (map setting_of sets.now) view.new) }
{
    let extents = view.extents();
    let mut numbers = [0; 4];
    let mut values = [0; 64];
    for row in first..end {
        put_index(&extents, row, &mut numbers);
        let index = &numbers[..extents.rank()];
        update_row(view, row, index, filter, sets, &mut values, steps)?;
    }
    Ok(())
}

// Updates one row, or leaves it as it was.
#[inline(always)]
fn update_row<L: Ledger>(
    view: &mut View,
    row: u64,
    index: &[u64],
    filter: Option<&Bound>,
    sets: &[Assign],
    values: &mut [i128; 64],
    steps: &mut Steps<L>,
) -> Result<(), UpdateFault>
    requires row_in { row < length view.old.rows }
    requires rank { length index.now ≡ length view.old.extents }
    requires filter { IfSome filter (λ bound. IsBoundOver view.old bound.now) }
    requires sets { All (IsSetOf view.old) sets.now }
    requires few { length sets.now ≤ 64 }
    ensures stored { OnOk result ((new : List ℤ)
        × (updated_row (answer_of view.old) (kept_of view.old) (filter_term filter.entry) (map setting_of sets.now)
        row (slice_index_or view.old.rows row []) index.now ≡ Ok new)
        × (view.new ≡ after_stores view.old (slice_set view.old.rows row new) (row_log (answer_of view.old) (filter_term filter.entry)
        (map setting_of sets.now) row (slice_index_or view.old.rows row []) index.now))) }
    ensures refused { IfErr result (λ fault. updated_row (answer_of view.old) (kept_of view.old) (filter_term filter.entry) (map setting_of sets.now)
        row (slice_index_or view.old.rows row []) index.now ≡ Err fault) }
    ensures named { IfErr result (λ fault. fault.row ≡ row) }
    ensures kept { OnErr result (view.new ≡ after_log view.old (row_log (answer_of view.old) (filter_term filter.entry)
        (map setting_of sets.now) row (slice_index_or view.old.rows row []) index.now)) }
{
    if !try_at(view, row, index, filter, sets, values, steps)? {
        return Ok(());
    }
    store_values(view, row, sets, values, steps);
    Ok(())
}

/// Whether a row passes the filter, and if it does, what the right sides give on it, each tested for its leaf: those are the first of
/// `values`. It stores nothing. What was read counts, also before a fault, and no memory is taken.
pub fn try_row<L: Ledger>(
    view: &mut View,
    row: u64,
    filter: Option<&Bound>,
    sets: &[Assign],
    values: &mut [i128; 64],
    steps: &mut Steps<L>,
) -> Result<bool, UpdateFault>
    requires row_in { row < length view.old.rows }
    requires filter { IfSome filter (λ bound. IsBoundOver view.old bound.now) }
    requires sets { All (IsSetOf view.old) sets.now }
    requires few { length sets.now ≤ 64 }
    ensures tried { IfOk result (λ passed. tried_row (answer_of view.old) (filter_term filter.entry) (map setting_of sets.now)
        row (slice_index_or view.old.rows row []) (index_at view.old.extents row) ≡ Ok (if passed then Some (take (length sets.now) values.new) else None)) }
    ensures refused { IfErr result (λ fault. tried_row (answer_of view.old) (filter_term filter.entry) (map setting_of sets.now)
        row (slice_index_or view.old.rows row []) (index_at view.old.extents row) ≡ Err fault) }
    ensures named { IfErr result (λ fault. fault.row ≡ row) }
    ensures same { view.new ≡ after_log view.old (tried_log (answer_of view.old) (filter_term filter.entry)
        (map setting_of sets.now) row (slice_index_or view.old.rows row []) (index_at view.old.extents row)) }
{
    let extents = view.extents();
    let mut numbers = [0; 4];
    put_index(&extents, row, &mut numbers);
    let index = &numbers[..extents.rank()];
    try_at(view, row, index, filter, sets, values, steps)
}

// The same at the index of the row.
fn try_at<L: Ledger>(
    view: &mut View,
    row: u64,
    index: &[u64],
    filter: Option<&Bound>,
    sets: &[Assign],
    values: &mut [i128; 64],
    steps: &mut Steps<L>,
) -> Result<bool, UpdateFault>
    requires row_in { row < length view.old.rows }
    requires rank { length index.now ≡ length view.old.extents }
    requires filter { IfSome filter (λ bound. IsBoundOver view.old bound.now) }
    requires sets { All (IsSetOf view.old) sets.now }
    requires few { length sets.now ≤ 64 }
    ensures tried { IfOk result (λ passed. tried_row (answer_of view.old) (filter_term filter.entry) (map setting_of sets.now)
        row (slice_index_or view.old.rows row []) index.now ≡ Ok (if passed then Some (take (length sets.now) values.new) else None)) }
    ensures refused { IfErr result (λ fault. tried_row (answer_of view.old) (filter_term filter.entry) (map setting_of sets.now)
        row (slice_index_or view.old.rows row []) index.now ≡ Err fault) }
    ensures named { IfErr result (λ fault. fault.row ≡ row) }
    ensures same { view.new ≡ after_log view.old (tried_log (answer_of view.old) (filter_term filter.entry)
        (map setting_of sets.now) row (slice_index_or view.old.rows row []) index.now) }
{
    if !passes(view, row, index, filter, steps)? {
        return Ok(false);
    }
    new_values(view, row, index, sets, values, steps)?;
    Ok(true)
}

// The values of all right sides on the row as it stands, each tested for its leaf.
fn new_values<L: Ledger>(
    view: &mut View,
    row: u64,
    index: &[u64],
    sets: &[Assign],
    values: &mut [i128; 64],
    steps: &mut Steps<L>,
) -> Result<(), UpdateFault>
    requires row_in { row < length view.old.rows }
    requires rank { length index.now ≡ length view.old.extents }
    requires sets { All (IsSetOf view.old) sets.now }
    requires few { length sets.now ≤ 64 }
    ensures values { OnOk result (each (new_value (answer_of view.old) row (slice_index_or view.old.rows row []) index.now) (map setting_of sets.now)
        ≡ Ok (take (length sets.now) values.new)) }
    ensures refused { IfErr result (λ fault. each (new_value (answer_of view.old) row (slice_index_or view.old.rows row []) index.now) (map setting_of sets.now)
        ≡ Err fault) }
    ensures named { IfErr result (λ fault. fault.row ≡ row) }
    ensures same { view.new ≡ after_log view.old (sides_log (answer_of view.old) row (slice_index_or view.old.rows row []) index.now (map setting_of sets.now)) }
{
    for (place, set) in sets.iter().enumerate() {
        values[place] = new_value(view, row, index, set, steps)?;
    }
    Ok(())
}

// The value of one right side on the row as it stands, tested for its leaf.
#[inline(always)]
fn new_value<L: Ledger>(
    view: &mut View,
    row: u64,
    index: &[u64],
    set: &Assign,
    steps: &mut Steps<L>,
) -> Result<i128, UpdateFault>
    requires row_in { row < length view.old.rows }
    requires rank { length index.now ≡ length view.old.extents }
    requires set { IsSetOf view.old set.now }
    ensures value { result ≡ new_value (answer_of view.old) row (slice_index_or view.old.rows row []) index.now (setting_of set.now) }
    ensures named { IfErr result (λ fault. fault.row ≡ row) }
    ensures same { view.new ≡ after_log view.old (value_log row (slice_index_or view.old.rows row []) index.now (bound_term set.now.value)) }
{
    let value = value_of(view, row, index, &set.value, steps)?;
    match view.fits(set.leaf, value) {
        Ok(()) => Ok(value),
        Err(fault) => Err(UpdateFault {
            row,
            kind: store_kind(set.leaf, fault),
        }),
    }
}

// Stores values in the leaves of a row that take them.
fn store_values<L: Ledger>(
    view: &mut View,
    row: u64,
    sets: &[Assign],
    values: &[i128; 64],
    steps: &mut Steps<L>,
)
    requires row_in { row < length view.old.rows }
    requires sets { All (IsSetOf view.old) sets.now }
    requires few { length sets.now ≤ 64 }
    requires taken { (place : ℕ) (other : Setting) → place < length sets.now
        → is_ok (answer_of view.old (slice_index_or (map setting_of sets.now) place other).leaf (slice_index_or values.now place (pos 0))) ≡ true }
    ensures { view.new ≡ after_stores view.old
        (slice_set view.old.rows row (with_values (kept_of view.old) (map setting_of sets.now) (take (length sets.now) values.now) (slice_index_or view.old.rows row [])))
        (stores_log row (map setting_of sets.now)) }
{
    for (place, set) in sets.iter().enumerate() {
        let _taken = view.set(row, set.leaf, values[place], steps);
    }
}

/// The fault of a store in a leaf.
#[inline(always)]
pub fn store_kind(leaf: usize, fault: StoreFault) -> UpdateKind
    ensures { result ≡ store_kind leaf fault }
{
    match fault {
        StoreFault::Range => UpdateKind::Range { leaf },
        StoreFault::Narrow => UpdateKind::Narrow { leaf },
    }
}
