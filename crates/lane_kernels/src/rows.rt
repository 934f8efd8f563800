// What a kernel does with rows one after another.
ghost use Rattle.std.specs.Prelude.{◌≡◌, ◌+◌, ◌*◌, ◌≤◌, ◌^◌, IfOk, None, option_map, length, map, take, drop};
ghost use Rattle.std.specs.Simd.Lanes.{Each1};
ghost use Rattle.views.specs.Prelude.{column, column_reads, run_fault, stored_count, with_run, after_log};
ghost use Rattle.lane_kernels.specs.Inner.Blocks.{sixteens};
ghost use Rattle.lane_kernels.specs.Kernels.{IsNarrow, IsNarrowLeaf, IsKernelOf, row_cost};
ghost use Rattle.lane_kernels.specs.Inner.KernelRows.{fault_in, named_row, number_so_far, AreNext, AreTaken};

use crate::fault::KernelFault;
use crate::kernel::Kernel;
use crate::reduce::Reduction;
use piece_bits::{clamp, count, times_plus};
use record_dim::Steps;
use std::sync::ledger::Ledger;
use views::{LaneFault, View};

/// Does a kernel in as many rows as the buffers hold, from this one on, up to the first that does not take its value. It gives the number of
/// the values up to there.
pub fn on_rows<L: Ledger>(
    view: &mut View,
    kernel: &Kernel,
    row: u64,
    number: Option<i64>,
    values: &mut [i64],
    added: &mut [i64],
    steps: &mut Steps<L>,
) -> Result<Option<i64>, KernelFault>
    requires kernel { IsKernelOf view.old kernel.now }
    requires beside { length added.old ≡ length values.old }
    requires few { length view.old.rows ≤ 2 ^ 24 }
    requires rows { AreNext view.old.rows kernel.now row (length values.old) number }
    ensures taken { AreTaken view.old view.new kernel.now row (length values.old) (fault_in result) }
    ensures number { IfOk result (λ number. number ≡ number_so_far kernel.now (take (row + length values.old) view.old.rows)) }
    ensures steps { steps.new ≡ steps.old + row_cost kernel.now * sixteens (length values.old) }
{
    match *kernel {
        Kernel::Axpy { a, x, y } => {
            read_rows(view, x, row, values, steps);
            read_rows(view, y, row, added, steps);
            times_plus(a, values, added);
            store_rows(view, y, row, values, steps)
        }
        Kernel::Clamp { x, lo, hi } => {
            read_rows(view, x, row, values, steps);
            clamp(lo, hi, values);
            store_rows(view, x, row, values, steps)
        }
        Kernel::Sum { x } => {
            read_rows(view, x, row, values, steps);
            Ok(Reduction::Sum.with_more(number, values))
        }
        Kernel::Least { x } => {
            read_rows(view, x, row, values, steps);
            Ok(Reduction::Least.with_more(number, values))
        }
        Kernel::Greatest { x } => {
            read_rows(view, x, row, values, steps);
            Ok(Reduction::Greatest.with_more(number, values))
        }
        Kernel::CountWhere { x, op, c } => {
            read_rows(view, x, row, values, steps);
            Ok(Some(number.unwrap_or(0) + count(op, c, values) as i64))
        }
    }
}

// The values of a leaf in rows one after another.
fn read_rows<L: Ledger>(
    view: &mut View,
    leaf: usize,
    row: u64,
    values: &mut [i64],
    steps: &mut Steps<L>,
)
    requires leaf { IsNarrowLeaf view.old leaf }
    requires rows_in { row + length values.old ≤ length view.old.rows }
    ensures values { values.new ≡ column leaf (take (length values.old) (drop row view.old.rows)) }
    ensures narrow { Each1 IsNarrow (column leaf view.old.rows) }
    ensures same { view.new ≡ after_log view.old (column_reads leaf row (length values.old)) }
    ensures steps { steps.new ≡ steps.old + sixteens (length values.old) }
{
    let _table = view.extents();
    view.read_run(leaf, row, values, steps);
}

// Stores values in a leaf of rows one after another, up to the first that is not taken.
fn store_rows<L: Ledger>(
    view: &mut View,
    leaf: usize,
    row: u64,
    values: &[i64],
    steps: &mut Steps<L>,
) -> Result<Option<i64>, KernelFault>
    requires leaf { IsNarrowLeaf view.old leaf }
    requires rows_in { row + length values.now ≤ length view.old.rows }
    requires few { length view.old.rows ≤ 2 ^ 24 }
    ensures fault { fault_in result ≡ option_map (named_row row leaf) (run_fault leaf values.now view.old) }
    ensures none { IfOk result (λ number. number ≡ None) }
    ensures stored { view.new ≡ with_run leaf row values.now (stored_count (length values.now) (run_fault leaf values.now view.old)) view.old }
    ensures steps { steps.new ≡ steps.old + sixteens (length values.now) }
{
    match view.store_run(leaf, row, values, steps) {
        Ok(()) => Ok(None),
        Err(LaneFault { lane, fault }) => Err(KernelFault::of(row + lane as u64, leaf, fault)),
    }
}
