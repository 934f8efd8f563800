// A table that is copied from one layout to another.
ghost use Rattle.std.specs.Prelude.{◌≡◌, OnOk};
ghost use Rattle.map_expr.specs.Terms.{term_of};
ghost use Rattle.map_checks.specs.Prelude.{IsBuiltTerm};
ghost use Rattle.bench_layouts.specs.Inner.Tables.{measured_fields};

use crate::count::count_in;
use crate::expr::expr_of;
use crate::fault::BenchFault;
use crate::table::{read_rounds, write_rounds};
use crate::tables::table_view;
use layout_copy::{CopyFault, copy};
use map_expr::MapExpr;
use record_dim::Steps;
use std::alloc::Global;
use std::sync::ledger::Ledger;
use views::View;

/// The sum of the copy of a table of so many rows that was written once: it is copied from one form to another, and then again so many times.
pub fn sum<L: Ledger>(
    alloc: Global,
    words: &[String],
    steps: &mut Steps<L>,
) -> Result<i128, BenchFault> {
    let [from, to, rows, again] = words else {
        return Err(BenchFault::Words);
    };
    let rows = count_in(rows.as_str())?;
    let again = count_in(again.as_str())?;
    let from = expr_of(alloc, from.as_str())?;
    let to = expr_of(alloc, to.as_str())?;
    let mut source = table_view(alloc, &from, "line", rows)?;
    let total = copied_to(alloc, &mut source, &to, rows, again, steps);
    drop(source);
    total
}

// The same of a source.
fn copied_to<L: Ledger>(
    alloc: Global,
    source: &mut View,
    to: &MapExpr,
    rows: u32,
    again: u32,
    steps: &mut Steps<L>,
) -> Result<i128, BenchFault>
    requires source { source.old.fields ≡ measured_fields }
    requires built { IsBuiltTerm (term_of to.now) }
{
    let mut target = table_view(alloc, to, "line", rows)?;
    let total = copied_and_read(source, &mut target, again, steps);
    drop(target);
    total
}

// Does the work on two views.
fn copied_and_read<L: Ledger>(
    source: &mut View,
    target: &mut View,
    again: u32,
    steps: &mut Steps<L>,
) -> Result<i128, BenchFault>
    requires source { source.old.fields ≡ measured_fields }
    requires target { target.old.fields ≡ measured_fields }
{
    let rows = source.extents().count();
    write_rounds(source, rows, 1, steps)?;
    copy_rounds(source, target, again, steps)?;
    let copied = target.extents().count();
    Ok(read_rounds(target, copied, 1, steps))
}

// Copies the whole table once, and then again so many times. It is what is measured.
#[inline(never)]
fn copy_rounds<L: Ledger>(
    source: &mut View,
    target: &mut View,
    again: u32,
    steps: &mut Steps<L>,
) -> Result<(), CopyFault>
    requires { target.old.fields ≡ measured_fields }
    ensures { OnOk result (target.new.fields ≡ measured_fields) }
{
    copy(source, target, steps)?;
    for _round in 0..again {
        copy(source, target, steps)?;
    }
    Ok(())
}
