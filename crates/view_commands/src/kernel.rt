// `kernel V .. lanes N`.
ghost use Rattle.std.specs.Prelude.{◌≡◌, ◌+◌, ◌≤◌, Some};
ghost use Rattle.view_commands.specs.Imports.{fit_kernel, kernel_run};
ghost use Rattle.view_commands.specs.Changes.{Changed, kernel_left};
ghost use Rattle.view_commands.specs.Steps.{kernel_steps};

use crate::change::{Change, ChangeFault};
use crate::faults::kernel_fault;
use command_checks::fit_kernel;
use lane_kernels::run_lanes;
use line_grammar::KernelText;
use record_dim::Steps;
use std::alloc::Global;
use std::sync::ledger::Ledger;
use views::View;

/// Runs a kernel over the rows, and gives its number, if it gives one.
#[derive(Drop)]
pub struct RunKernel<'a> {
    pub kernel: &'a KernelText,
    pub lanes: &'a u32,
}

impl Change for RunKernel<'_> {
    ghost does = { λ this table. kernel_run table this.kernel.now this.lanes.now };

    ghost left = { λ this table row. kernel_left table row (fit_kernel table.fields this.kernel.now this.lanes.now) };

    ghost most = { λ this table. Some (kernel_steps table this.kernel.now this.lanes.now) };

    fn run<L: Ledger>(
        &self,
        alloc: Global,
        view: &mut View,
        steps: &mut Steps<L>,
    ) -> Result<Option<i128>, ChangeFault> {
        run_text(alloc, view, self.kernel, *self.lanes, steps)
    }
}

fn run_text<L: Ledger>(
    alloc: Global,
    view: &mut View,
    text: &KernelText,
    lanes: u32,
    steps: &mut Steps<L>,
) -> Result<Option<i128>, ChangeFault>
    ensures number { Changed (kernel_run view.old text.now lanes)
        (λ row. kernel_left view.old row (fit_kernel view.old.fields text.now lanes)) view.old result view.new }
    ensures steps { steps.new ≤ steps.old + kernel_steps view.old text.now lanes }
{
    let kernel = fit_kernel(alloc, view, text, lanes)?;
    match run_lanes(view, &kernel, lanes as usize, steps) {
        Ok(number) => Ok(widened(number)),
        Err(fault) => Err(kernel_fault(fault)),
    }
}

fn widened(number: Option<i64>) -> Option<i128>
    ensures { result ≡ number }
{
    match number {
        Some(number) => Some(i128::from(number)),
        None => None,
    }
}
