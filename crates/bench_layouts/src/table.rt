ghost use Rattle.std.specs.Prelude.{◌≡◌, ◌<◌, OnOk};
ghost use Rattle.bench_layouts.specs.Inner.Tables.{measured_fields, IsMeasured};

use crate::count::count_in;
use crate::expr::expr_of;
use crate::fault::BenchFault;
use crate::tables::table_view;
use record_dim::Steps;
use std::alloc::Global;
use std::sync::ledger::Ledger;
use views::{StoreFault, View};

/// The sum of all that is read of a table of this form and grid, which is written whole `sets` times, and then read whole `gets` times.
pub fn sum<L: Ledger>(
    alloc: Global,
    words: &[String],
    steps: &mut Steps<L>,
) -> Result<i128, BenchFault> {
    let [form, grid, rows, sets, gets] = words else {
        return Err(BenchFault::Words);
    };
    let rows = count_in(rows.as_str())?;
    let sets = count_in(sets.as_str())?;
    let gets = count_in(gets.as_str())?;
    let expr = expr_of(alloc, form.as_str())?;
    let mut view = table_view(alloc, &expr, grid.as_str(), rows)?;
    let total = written_and_read(&mut view, sets, gets, steps);
    drop(view);
    Ok(total?)
}

// Does the work on a view.
fn written_and_read<L: Ledger>(
    view: &mut View,
    sets: u32,
    gets: u32,
    steps: &mut Steps<L>,
) -> Result<i128, StoreFault>
    requires { view.old.fields ≡ measured_fields }
{
    let rows = view.extents().count();
    write_rounds(view, rows, sets, steps)?;
    Ok(read_rounds(view, rows, gets, steps))
}

/// Writes the whole table so many times. It is what is measured.
#[inline(never)]
pub fn write_rounds<L: Ledger>(
    view: &mut View,
    rows: u64,
    rounds: u32,
    steps: &mut Steps<L>,
) -> Result<(), StoreFault>
    requires { IsMeasured rows view.old }
    ensures { OnOk result (IsMeasured rows view.new) }
{
    for round in 0..rounds {
        write_round(view, round, rows, steps)?;
    }
    Ok(())
}

// Writes the whole table once.
fn write_round<L: Ledger>(
    view: &mut View,
    round: u32,
    rows: u64,
    steps: &mut Steps<L>,
) -> Result<(), StoreFault>
    requires { IsMeasured rows view.old }
    ensures { OnOk result (IsMeasured rows view.new) }
{
    for row in 0..rows {
        // The leaves of a row, each by a call of its own, as the peers' loops are unrolled.
        write_leaf(view, round, rows, row, 0, steps)?;
        write_leaf(view, round, rows, row, 1, steps)?;
        write_leaf(view, round, rows, row, 2, steps)?;
        write_leaf(view, round, rows, row, 3, steps)?;
    }
    Ok(())
}

// Writes a leaf of a row.
#[inline(always)]
fn write_leaf<L: Ledger>(
    view: &mut View,
    round: u32,
    rows: u64,
    row: u64,
    leaf: usize,
    steps: &mut Steps<L>,
) -> Result<(), StoreFault>
    requires measured { IsMeasured rows view.old }
    requires row_in { row < rows }
    requires leaf_in { leaf < 4 }
    ensures { OnOk result (IsMeasured rows view.new) }
{
    view.set(row, leaf, value(round, row, leaf), steps)
}

// What a round writes in a row and a leaf: every leaf can hold it.
#[inline]
fn value(round: u32, row: u64, leaf: usize) -> i128 {
    let sum = row.wrapping_add(u64::from(round)).wrapping_add(leaf as u64);
    i128::from(sum % 256) - 128
}

/// The sum of all entries, read so many times. It is what is measured.
#[inline(never)]
pub fn read_rounds<L: Ledger>(view: &mut View, rows: u64, rounds: u32, steps: &mut Steps<L>) -> i128
    requires { IsMeasured rows view.old }
{
    let mut total = 0i128;
    for _round in 0..rounds {
        total = total.wrapping_add(read_round(view, rows, steps));
    }
    total
}

// The sum of all entries.
fn read_round<L: Ledger>(view: &mut View, rows: u64, steps: &mut Steps<L>) -> i128
    requires { IsMeasured rows view.old }
    ensures { IsMeasured rows view.new }
{
    let mut total = 0i128;
    for row in 0..rows {
        // The leaves of a row, each by a call of its own, as the peers' loops are unrolled.
        total = read_leaf(view, rows, row, 0, total, steps);
        total = read_leaf(view, rows, row, 1, total, steps);
        total = read_leaf(view, rows, row, 2, total, steps);
        total = read_leaf(view, rows, row, 3, total, steps);
    }
    total
}

// A total with one entry more.
#[inline(always)]
fn read_leaf<L: Ledger>(
    view: &mut View,
    rows: u64,
    row: u64,
    leaf: usize,
    total: i128,
    steps: &mut Steps<L>,
) -> i128
    requires measured { IsMeasured rows view.old }
    requires row_in { row < rows }
    requires leaf_in { leaf < 4 }
    ensures { IsMeasured rows view.new }
{
    total.wrapping_add(view.get(row, leaf, steps))
}
