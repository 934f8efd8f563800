// The table of a dataset, loaded into a view.
ghost use Rattle.std.specs.Prelude.{◌≡◌, ◌⊎◌, IfErr, OnOk, Ok, Err, length};
ghost use Rattle.piece_bits.specs.declared.mode.StoreMode.TheVariants.{Wrap};
ghost use Rattle.views.specs.Prelude.{Write, all_accesses, leaf_count_of, after_stores};
ghost use Rattle.csv_rows.specs.Datasets.{csv_records, records_behind, table_from};
ghost use Rattle.csv_rows.specs.Loads.{leaves_in, dataset_of, IsNoRefusal, Keeps, KeepsRows};
ghost use Rattle.csv_rows.specs.Inner.Unquoted.{HasNoQuote};
ghost use Rattle.csv_rows.specs.declared.fault.RowFault.TheVariants.{NoMemory};

use crate::columns::leaf_columns;
use crate::copies::copies_of;
use crate::fault::RowFault;
use crate::lines::lines_of;
use crate::reads::{Records, has_quote, without_marks};
use crate::rows::load_row;
use record_dim::{Schema, Steps};
use std::alloc::Global;
use std::sync::ledger::Ledger;
use views::View;

/// Loads the table of a dataset into a view that has as many rows. A number that does not fit is a fault in a strict view; any other keeps
/// the low bits of it, of any length. On a fault the rows before the one that it names are changed, and no other; want of memory comes at
/// some row. Each leaf of a row that is changed is written once.
pub fn load_rows<L: Ledger>(
    alloc: Global,
    bytes: &[u8],
    view: &mut View,
    steps: &mut Steps<L>,
) -> Result<(), RowFault>
    requires { length view.old.rows ≡ length (records_behind (csv_records bytes.now)) }
    ensures loaded { OnOk result (dataset_of view.old (csv_records bytes.now) ≡ Ok view.new.rows) }
    ensures refused { IfErr result (λ f. (f ≡ NoMemory) ⊎ (dataset_of view.old (csv_records bytes.now) ≡ Err f)) }
    ensures taken { IfErr result (λ f. view.old.mode ≡ Wrap → IsNoRefusal f) }
    ensures kept { IfErr result (λ f. Keeps view.old (csv_records bytes.now) view.new f) }
    ensures same { OnOk result (view.new ≡ after_stores view.old view.new.rows (all_accesses Write (leaf_count_of view.old) (length view.old.rows))) }
{
    let text = without_marks(bytes);
    if has_quote(text) || goes_back(alloc, text, view.schema()) {
        return load_from(alloc, &mut copies_of(alloc, bytes), view, steps);
    }
    load_from(alloc, &mut lines_of(text), view, steps)
}

// Whether the columns of the leaves stand in such an order that the fields of a line would be passed many times, as a line is gone through
// from its start for a column that was passed.
fn goes_back(alloc: Global, text: &[u8], schema: &Schema) -> bool
    requires { HasNoQuote text.now }
{
    let mut lines = lines_of(text);
    let Ok(true) = lines.next() else {
        return false;
    };
    match leaf_columns(alloc, &mut lines, schema) {
        Ok(columns) => passes_many(columns.as_slice()),
        Err(_) => false,
    }
}

// Whether more fields are passed again than twice those up to the last column.
fn passes_many(columns: &[usize]) -> bool {
    let mut before = 0;
    let mut most = 0;
    let mut again = 0usize;
    for column in columns {
        if *column < before {
            again = again.saturating_add(*column);
        }
        before = *column;
        most = before.max(most);
    }
    again / 2 > most
}

// The same of the records that are left.
fn load_from<R: Records, L: Ledger>(
    alloc: Global,
    records: &mut R,
    view: &mut View,
    steps: &mut Steps<L>,
) -> Result<(), RowFault>
    requires reading { R.stands records.old }
    requires rows { length view.old.rows ≡ length (records_behind (R.left records.old)) }
    ensures loaded { OnOk result (dataset_of view.old (R.left records.old) ≡ Ok view.new.rows) }
    ensures refused { IfErr result (λ f. (f ≡ NoMemory) ⊎ (dataset_of view.old (R.left records.old) ≡ Err f)) }
    ensures kept { IfErr result (λ f. Keeps view.old (R.left records.old) view.new f) }
    ensures same { OnOk result (view.new ≡ after_stores view.old view.new.rows (all_accesses Write (leaf_count_of view.old) (length view.old.rows))) }
{
    let leaf_count = view.schema().leaf_count();
    if !records.next()? {
        // an empty header names no leaf
        return Err(RowFault::MissingColumn { leaf: 0 });
    }
    let columns = leaf_columns(alloc, records, view.schema())?;
    let mut room = [0; 64];
    let values = &mut room[..leaf_count];
    load_records(view, columns.as_slice(), values, records, steps)
}

// Reads the records that are left into the rows.
fn load_records<R: Records, L: Ledger>(
    view: &mut View,
    columns: &[usize],
    values: &mut [i128],
    records: &mut R,
    steps: &mut Steps<L>,
) -> Result<(), RowFault>
    requires reading { R.stands records.old }
    requires rows { length view.old.rows ≡ length (R.left records.old) }
    requires columns { length columns.now ≡ leaf_count_of view.old }
    requires values { length values.old ≡ leaf_count_of view.old }
    ensures loaded { OnOk result (table_from 0 (R.left records.old) (leaves_in view.old columns.now) ≡ Ok view.new.rows) }
    ensures refused { IfErr result (λ f. (f ≡ NoMemory) ⊎ (table_from 0 (R.left records.old) (leaves_in view.old columns.now) ≡ Err f)) }
    ensures kept { IfErr result (λ f. KeepsRows view.old columns.now (R.left records.old) view.new f) }
    ensures same { OnOk result (view.new ≡ after_stores view.old view.new.rows (all_accesses Write (leaf_count_of view.old) (length view.old.rows))) }
{
    let _extents = view.extents();
    let mut row = 0u64;
    while records.next()? {
        load_row(records, row, columns, view, values, steps)?;
        row += 1;
    }
    Ok(())
}
