ghost use Rattle.std.specs.Prelude.{◌≡◌, ◌+◌, ◌≤◌, length};
ghost use Rattle.lane_kernels.specs.Kernels.{IsKernelOf, IsKernelRun, kernel_cost};

use crate::blocks::step_at;
use crate::fault::KernelFault;
use crate::kernel::Kernel;
use crate::rows::on_rows;
use record_dim::Steps;
use std::sync::ledger::Ledger;
use views::{RUN, View};

/// Runs a kernel in blocks of 1 to 16 rows, and the rest row by row. Each value is stored as the view keeps it. `Range` and `Narrow` come
/// exactly where the view is strict and a value to store does not fit, and name the first row; exactly the rows before it are changed.
/// `Empty` comes exactly where a least or greatest value is asked of no row. It takes no memory.
pub fn run_lanes<L: Ledger>(
    view: &mut View,
    kernel: &Kernel,
    lanes: usize,
    steps: &mut Steps<L>,
) -> Result<Option<i64>, KernelFault>
    requires kernel { IsKernelOf view.old kernel.now }
    requires some { 1 ≤ lanes }
    requires few { lanes ≤ 16 }
    ensures run { IsKernelRun view.old view.new kernel.now lanes result }
    ensures steps { steps.new ≤ steps.old + kernel_cost kernel.now lanes (length view.old.rows) }
{
    let mut values = [0; RUN];
    let mut added = [0; RUN];
    run_rows(view, kernel, lanes, &mut values, &mut added, steps)
}

/// The same row by row.
pub fn run_plain<L: Ledger>(
    view: &mut View,
    kernel: &Kernel,
    steps: &mut Steps<L>,
) -> Result<Option<i64>, KernelFault>
    requires { IsKernelOf view.old kernel.now }
    ensures run { IsKernelRun view.old view.new kernel.now 1 result }
    ensures steps { steps.new ≤ steps.old + kernel_cost kernel.now 1 (length view.old.rows) }
{
    run_lanes(view, kernel, 1, steps)
}

// The loop over all rows. Where nothing counts accesses, a block is as many rows as a buffer holds: then no block is told from another.
fn run_rows<L: Ledger>(
    view: &mut View,
    kernel: &Kernel,
    lanes: usize,
    values: &mut [i64],
    added: &mut [i64],
    steps: &mut Steps<L>,
) -> Result<Option<i64>, KernelFault>
    requires kernel { IsKernelOf view.old kernel.now }
    requires some { 1 ≤ lanes }
    requires few { lanes ≤ 16 }
    requires values { length values.old ≡ 256 }
    requires added { length added.old ≡ 256 }
    ensures run { IsKernelRun view.old view.new kernel.now lanes result }
    ensures steps { steps.new ≤ steps.old + kernel_cost kernel.now lanes (length view.old.rows) }
{
    let count = view.extents().count();
    if count == 0 {
        return kernel.of_no_row();
    }
    let uncounted = view.counts_nothing();
    let mut number = None;
    let mut row = 0;
    while row < count {
        let step = step_at(uncounted, lanes, count, row);
        number = on_rows(
            view,
            kernel,
            row,
            number,
            &mut values[..step],
            &mut added[..step],
            steps,
        )?;
        row += step as u64;
    }
    Ok(number)
}
