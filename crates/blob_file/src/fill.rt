// The rows of a view, stored by the raw numbers that blobs hold.
ghost use Rattle.std.specs.Prelude.{ℕ, ℤ, ◌≡◌, ◌⊎◌, ◌+◌, ◌*◌, ◌<◌, ◌≤◌, pos, true, IfErr, OnOk, OnErr, length, slice_index_or};
ghost use Rattle.blob_file.specs.Imports.{is_signed, IsDeclared, IsIn, low_64, AreSized, hold_at, column_writes, with_column, run_steps, AreRowsMoved, CountsNothing, kept_rows, kept_of, leaf_count_of, leaf_type_of, owners_of, table_holds, after_stores, Write, all_accesses};
ghost use Rattle.blob_file.specs.Opened.{raw_in};
ghost use Rattle.blob_file.specs.Inner.Filling.{kept_run, run_writes, AreFitting, AreTaken, IsTaken, IsTakenLeaf};
ghost use Rattle.blob_file.specs.Saving.{header_of};
ghost use Rattle.blob_file.specs.declared.fault.FileFault.TheVariants as fault;

use crate::fault::FileFault;
use blobs::Blob;
use piece_bits::read_entry;
use places::{Hold, Mapping, laws_of};
use record_dim::{LeafType, Steps};
use std::sync::ledger::Ledger;
use views::{RUN, View, laws_of_table, read_rows};

/// Stores the raw numbers that blobs hold as the rows of a view of zeros. `Contents` comes exactly where a leaf refuses its number.
pub fn fill_rows<L: Ledger>(
    blobs: &[Blob],
    view: &mut View,
    steps: &mut Steps<L>,
) -> Result<(), FileFault>
    requires { AreSized (owners_of view.old) blobs.now }
    ensures taken { OnOk result (IsTaken view.old (raw_in (header_of view.old) blobs.now)) }
    ensures stored { OnOk result (view.new ≡ after_stores view.old (kept_rows (kept_of view.old) (raw_in (header_of view.old) blobs.now))
        (all_accesses Write (leaf_count_of view.old) (length view.old.rows))) }
    ensures refused { IfErr result (λ found. (found ≡ fault.Contents) × (IsTaken view.old (raw_in (header_of view.old) blobs.now) → ⊥)) }
    ensures steps { OnOk result (steps.new ≡ steps.old + length view.old.rows * leaf_count_of view.old) }
{
    let mut lows = [0; RUN];
    let most = rows_at_once(view);
    let count = view.extents().count();
    let mut first = 0;
    while first < count {
        laws_of_table(view);
        let rows = (count - first).min(most);
        fill_run(blobs, first, &mut lows[..rows as usize], view, steps)?;
        first += rows;
    }
    laws_of_table(view);
    Ok(())
}

// How many rows are stored leaf after leaf: one in a view that counts, whose writes come row by row.
fn rows_at_once(view: &View) -> u64
    ensures some { 1 ≤ result }
    ensures few { result ≤ 256 }
    ensures quiet { (result ≡ 1) ⊎ CountsNothing view.now }
{
    if view.counts_nothing() { RUN as u64 } else { 1 }
}

// Stores as many rows as there is room for, from one on, leaf after leaf, or leaves off where a leaf refuses its number.
fn fill_run<L: Ledger>(
    blobs: &[Blob],
    first: u64,
    lows: &mut [i64],
    view: &mut View,
    steps: &mut Steps<L>,
) -> Result<(), FileFault>
    requires sized { AreSized (owners_of view.old) blobs.now }
    requires rows_in { first + length lows.old ≤ length view.old.rows }
    ensures taken { OnOk result (AreTaken (leaf_count_of view.old) first (length lows.old) view.old (raw_in (header_of view.old) blobs.now)) }
    ensures stored { OnOk result (AreRowsMoved (leaf_count_of view.old) first (length lows.old)
        (kept_rows (kept_of view.old) (raw_in (header_of view.old) blobs.now)) view.old.rows view.new.rows) }
    ensures same { OnOk result (view.new ≡ after_stores view.old view.new.rows (run_writes (leaf_count_of view.old) first (length lows.old))) }
    ensures refused { IfErr result (λ found. (found ≡ fault.Contents)
        × (AreTaken (leaf_count_of view.old) first (length lows.old) view.old (raw_in (header_of view.old) blobs.now) → ⊥)) }
    ensures count { length lows.new ≡ length lows.old }
    ensures steps { OnOk result (steps.new ≡ steps.old + length lows.old * leaf_count_of view.old) }
{
    for leaf in 0..view.schema().leaf_count() {
        laws_of_table(view);
        fill_leaf(blobs, leaf, first, lows, view, steps)?;
    }
    Ok(())
}

// Stores a leaf of as many rows as there is room for: at once where its numbers are read at once and all fit.
fn fill_leaf<L: Ledger>(
    blobs: &[Blob],
    leaf: usize,
    first: u64,
    lows: &mut [i64],
    view: &mut View,
    steps: &mut Steps<L>,
) -> Result<(), FileFault>
    requires sized { AreSized (owners_of view.old) blobs.now }
    requires leaf_in { leaf < leaf_count_of view.old }
    requires rows_in { first + length lows.old ≤ length view.old.rows }
    ensures taken { OnOk result (IsTakenLeaf leaf first (length lows.old) view.old (raw_in (header_of view.old) blobs.now)) }
    ensures stored { OnOk result (view.new ≡ after_stores view.old
        (with_column leaf first (kept_run leaf first (length lows.old) view.old (raw_in (header_of view.old) blobs.now)) view.old.rows)
        (column_writes leaf first (length lows.old))) }
    ensures refused { IfErr result (λ found. (found ≡ fault.Contents)
        × (IsTakenLeaf leaf first (length lows.old) view.old (raw_in (header_of view.old) blobs.now) → ⊥)) }
    ensures count { length lows.new ≡ length lows.old }
    ensures steps { OnOk result (steps.new ≡ steps.old + length lows.old) }
{
    if !read_fitting(blobs, leaf, first, view, lows) {
        return fill_far(blobs, leaf, first, lows.len() as u64, view, steps);
    }
    let kind = view.schema().leaf_type(leaf);
    view.put_run(leaf, first, lows, steps);
    count_rest(kind, lows.len(), steps);
    Ok(())
}

// Stores a leaf of so many rows, row by row.
#[inline(never)]
fn fill_far<L: Ledger>(
    blobs: &[Blob],
    leaf: usize,
    first: u64,
    rows: u64,
    view: &mut View,
    steps: &mut Steps<L>,
) -> Result<(), FileFault>
    requires sized { AreSized (owners_of view.old) blobs.now }
    requires leaf_in { leaf < leaf_count_of view.old }
    requires rows_in { first + rows ≤ length view.old.rows }
    ensures taken { OnOk result (IsTakenLeaf leaf first rows view.old (raw_in (header_of view.old) blobs.now)) }
    ensures stored { OnOk result (view.new ≡ after_stores view.old
        (with_column leaf first (kept_run leaf first rows view.old (raw_in (header_of view.old) blobs.now)) view.old.rows)
        (column_writes leaf first rows)) }
    ensures refused { IfErr result (λ found. (found ≡ fault.Contents)
        × (IsTakenLeaf leaf first rows view.old (raw_in (header_of view.old) blobs.now) → ⊥)) }
    ensures steps { OnOk result (steps.new ≡ steps.old + rows) }
{
    laws_of_table(view);
    let _rows = view.extents().count();
    for k in 0..rows {
        let row = first + k;
        let value = read_entry(view.map(), blobs, row, leaf);
        view.set(row, leaf, value, steps)?;
    }
    Ok(())
}

// Reads the raw numbers of a leaf in as many rows as there is room for, each by its low bits, and says whether its rows lie in stretches and
// each number is one that the leaf holds.
fn read_fitting(blobs: &[Blob], leaf: usize, first: u64, view: &View, lows: &mut [i64]) -> bool
    requires sized { AreSized (owners_of view.now) blobs.now }
    requires leaf_in { leaf < leaf_count_of view.now }
    requires rows_in { first + length lows.old ≤ length view.now.rows }
    ensures count { length lows.new ≡ length lows.old }
    ensures fitting { result ≡ true → AreFitting leaf first view.now (raw_in (header_of view.now) blobs.now) lows.new }
{
    laws_of_table(view);
    let map = view.map();
    laws_of(map);
    if !read_rows(map, blobs, leaf, first, lows) {
        return false;
    }
    are_declared(view.schema().leaf_type(leaf), map.hold(leaf), lows)
}

// Whether each of some numbers that are stored so, told by their low bits, is one of a type. None is looked at where each that can be stored
// so is one.
fn are_declared(kind: LeafType, hold: Hold, lows: &[i64]) -> bool
    requires some { 1 ≤ hold.width }
    requires narrow { hold.width ≤ 64 }
    requires sign { hold.signed ≡ is_signed kind }
    ensures { result ≡ true → (k : ℕ) → k < length lows.now → (raw : ℤ) → IsIn hold.signed hold.width raw
        → slice_index_or lows.now k (pos 0) ≡ low_64 raw → IsDeclared kind raw }
{
    let (least, greatest) = (kind.least(), kind.greatest());
    if least <= hold.least() && hold.greatest() <= greatest {
        return true;
    }
    let mut all = true;
    for low in lows {
        let value = i128::from(*low);
        all &= least <= value;
        all &= value <= greatest;
    }
    all
}

// Takes the steps that are left of one for each of so many rows, behind those of a run.
fn count_rest<L: Ledger>(kind: LeafType, rows: usize, steps: &mut Steps<L>)
    ensures { steps.new + run_steps kind rows ≡ steps.old + rows }
{
    let each = if kind.width() <= 32 { 16 } else { 8 };
    for _row in rows.div_ceil(each)..rows {
        steps.tick();
    }
}
