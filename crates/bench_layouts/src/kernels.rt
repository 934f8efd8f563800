// A table over which a kernel is run.
ghost use Rattle.std.specs.Prelude.{◌≡◌, ◌≤◌, IfOk, OnOk};
ghost use Rattle.views.specs.Prelude.{Table};
ghost use Rattle.lane_kernels.specs.Kernels.{IsKernelOf};
ghost use Rattle.bench_layouts.specs.Inner.Tables.{measured_fields};

use crate::count::count_in;
use crate::expr::expr_of;
use crate::fault::BenchFault;
use crate::table::write_rounds;
use crate::tables::table_view;
use lane_kernels::{Compare, Kernel, KernelFault, run_lanes};
use record_dim::Steps;
use std::alloc::Global;
use std::sync::ledger::Ledger;
use views::View;

// The kernel of this name, over the leaves b and c of the record.
fn kernel_of(name: &str) -> Result<Kernel, BenchFault>
    ensures { IfOk result (λ kernel. (table : Table) → table.fields ≡ measured_fields → IsKernelOf table kernel) }
{
    match name {
        "axpy" => Ok(Kernel::Axpy { a: 3, x: 1, y: 2 }),
        "clamp" => Ok(Kernel::Clamp {
            x: 2,
            lo: -100,
            hi: 100,
        }),
        "sum" => Ok(Kernel::Sum { x: 2 }),
        "least" => Ok(Kernel::Least { x: 2 }),
        "greatest" => Ok(Kernel::Greatest { x: 2 }),
        "count" => Ok(Kernel::CountWhere {
            x: 2,
            op: Compare::Ge,
            c: 4,
        }),
        _ => Err(BenchFault::Words),
    }
}

// How many rows a kernel takes at once.
fn lanes_of(text: &str) -> Result<usize, BenchFault>
    ensures some { IfOk result (λ lanes. 1 ≤ lanes) }
    ensures few { IfOk result (λ lanes. lanes ≤ 16) }
{
    match text {
        "1" => Ok(1),
        "16" => Ok(16),
        _ => Err(BenchFault::Words),
    }
}

/// The sum of what so many runs give over a table of so many rows that is written once, and of the leaf c after them.
pub fn sum<L: Ledger>(
    alloc: Global,
    words: &[String],
    steps: &mut Steps<L>,
) -> Result<i128, BenchFault> {
    let [name, form, lanes, rows, rounds] = words else {
        return Err(BenchFault::Words);
    };
    let kernel = kernel_of(name.as_str())?;
    let lanes = lanes_of(lanes.as_str())?;
    let rows = count_in(rows.as_str())?;
    let rounds = count_in(rounds.as_str())?;
    let expr = expr_of(alloc, form.as_str())?;
    let mut view = table_view(alloc, &expr, "line", rows)?;
    let total = written_and_run(&mut view, &kernel, lanes, rounds, steps);
    drop(view);
    total
}

// Does the work on a view.
fn written_and_run<L: Ledger>(
    view: &mut View,
    kernel: &Kernel,
    lanes: usize,
    rounds: u32,
    steps: &mut Steps<L>,
) -> Result<i128, BenchFault>
    requires kernel { (table : Table) → table.fields ≡ measured_fields → IsKernelOf table kernel.now }
    requires fields { view.old.fields ≡ measured_fields }
    requires some { 1 ≤ lanes }
    requires few { lanes ≤ 16 }
{
    let rows = view.extents().count();
    write_rounds(view, rows, 1, steps)?;
    let given = run_rounds(view, kernel, lanes, rounds, steps)?;
    let left = run_rounds(view, &kernel_of("sum")?, lanes, 1, steps)?;
    Ok(given.wrapping_add(left))
}

// Runs the kernel so many times. It is what is measured.
#[inline(never)]
fn run_rounds<L: Ledger>(
    view: &mut View,
    kernel: &Kernel,
    lanes: usize,
    rounds: u32,
    steps: &mut Steps<L>,
) -> Result<i128, KernelFault>
    requires kernel { (table : Table) → table.fields ≡ measured_fields → IsKernelOf table kernel.now }
    requires fields { view.old.fields ≡ measured_fields }
    requires some { 1 ≤ lanes }
    requires few { lanes ≤ 16 }
    ensures { OnOk result (view.new.fields ≡ measured_fields) }
{
    let mut total = 0i128;
    for _round in 0..rounds {
        let number = run_lanes(view, kernel, lanes, steps)?;
        total = total.wrapping_add(i128::from(number.unwrap_or(0)));
    }
    Ok(total)
}
