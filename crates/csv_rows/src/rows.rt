// A record of a dataset, read into a row of a view.
ghost use Rattle.std.specs.Prelude.{◌≡◌, ◌<◌, ℕ, pos, true, is_ok, IfOk, IfErr, OnOk, Ok, Err, length, slice_index_or, slice_set};
ghost use Rattle.views.specs.Prelude.{kept_row, Write, row_accesses, leaf_count_of, answer_of, kept_of, after_stores};
ghost use Rattle.csv_rows.specs.Datasets.{refusal, value_at, row_values};
ghost use Rattle.csv_rows.specs.Loads.{place_of, leaves_in};
ghost use Rattle.csv_rows.specs.Inner.Readers.{IsAsked};

use crate::fault::RowFault;
use crate::reads::Records;
use record_dim::Steps;
use std::sync::ledger::Ledger;
use views::{StoreFault, View, laws_of_table};

/// Reads the record that was read last into a row, all of it or, where a leaf is refused, nothing. What the view keeps of `values` are the
/// values of the row.
pub fn load_row<R: Records, L: Ledger>(
    records: &mut R,
    row: u64,
    columns: &[usize],
    view: &mut View,
    values: &mut [i128],
    steps: &mut Steps<L>,
) -> Result<(), RowFault>
    requires reading { R.stands records.old }
    requires row_in { row < length view.old.rows }
    requires columns { length columns.now ≡ leaf_count_of view.old }
    requires values { length values.old ≡ leaf_count_of view.old }
    ensures count { length values.new ≡ length values.old }
    ensures read { OnOk result (row_values row (R.fields records.old) 0 (leaves_in view.old columns.now) ≡ Ok (kept_row (kept_of view.old) values.new)) }
    ensures stored { OnOk result (view.new ≡ after_stores view.old (slice_set view.old.rows row (kept_row (kept_of view.old) values.new))
        (row_accesses Write (leaf_count_of view.old) row)) }
    ensures refused { IfErr result (λ f. row_values row (R.fields records.old) 0 (leaves_in view.old columns.now) ≡ Err f) }
    ensures same { IfErr result (λ f. view.new ≡ view.old) }
    ensures asked { OnOk result (IsAsked R.stands R.fields R.left records.old records.new) }
{
    read_row(records, row, columns, view, values)?;
    view.store_row(row, values, steps);
    Ok(())
}

// Reads a value for each leaf, of which the view keeps that of the row.
fn read_row<R: Records>(
    records: &mut R,
    row: u64,
    columns: &[usize],
    view: &View,
    values: &mut [i128],
) -> Result<(), RowFault>
    requires reading { R.stands records.old }
    requires columns { length columns.now ≡ leaf_count_of view.now }
    requires values { length values.old ≡ leaf_count_of view.now }
    ensures count { length values.new ≡ length values.old }
    ensures read { OnOk result (row_values row (R.fields records.old) 0 (leaves_in view.now columns.now) ≡ Ok (kept_row (kept_of view.now) values.new)) }
    ensures taken { OnOk result ((leaf : ℕ) → leaf < leaf_count_of view.now → is_ok (answer_of view.now leaf (slice_index_or values.new leaf (pos 0))) ≡ true) }
    ensures refused { IfErr result (λ f. row_values row (R.fields records.old) 0 (leaves_in view.now columns.now) ≡ Err f) }
    ensures asked { OnOk result (IsAsked R.stands R.fields R.left records.old records.new) }
{
    laws_of_table(view);
    for leaf in 0..columns.len() {
        values[leaf] = value_at(records, columns[leaf], row, leaf, view)?;
    }
    Ok(())
}

// A value of which a leaf keeps that of the field.
#[inline(always)]
fn value_at<R: Records>(
    records: &mut R,
    column: usize,
    row: u64,
    leaf: usize,
    view: &View,
) -> Result<i128, RowFault>
    requires reading { R.stands records.old }
    requires leaf_in { leaf < leaf_count_of view.now }
    ensures kept { IfOk result (λ value. value_at (place_of view.now row leaf column) (R.fields records.old) ≡ Ok (kept_of view.now leaf value)) }
    ensures taken { IfOk result (λ value. is_ok (answer_of view.now leaf value) ≡ true) }
    ensures refused { IfErr result (λ f. value_at (place_of view.now row leaf column) (R.fields records.old) ≡ Err f) }
    ensures asked { IsAsked R.stands R.fields R.left records.old records.new }
{
    let Some(number) = records.number(column) else {
        return Err(RowFault::ShortRow { row, leaf });
    };
    let Some(value) = number else {
        return Err(RowFault::Number { row, leaf });
    };
    match view.fits(leaf, value) {
        Ok(()) => Ok(value),
        Err(fault) => Err(refusal(row, leaf, fault)),
    }
}

fn refusal(row: u64, leaf: usize, fault: StoreFault) -> RowFault
    ensures { result ≡ refusal row leaf fault }
{
    match fault {
        StoreFault::Range => RowFault::Range { row, leaf },
        StoreFault::Narrow => RowFault::Narrow { row, leaf },
    }
}
