// The faults of the crates that work, as those of commands.
ghost use Rattle.std.specs.Prelude.{◌≡◌};
ghost use Rattle.view_commands.specs.Inner.Parts.{eval_fault, fault_of_kernel, fault_of_update, store_fault};

use crate::change::ChangeFault;
use command_checks::StepFault;
use expr_lang::EvalFault;
use lane_kernels::KernelFault;
use row_updates::{UpdateFault, UpdateKind};
use views::StoreFault;
use worlds::CommandFault;

/// Of a store in a leaf of a row.
pub fn store_fault(row: u64, leaf: usize, fault: StoreFault) -> ChangeFault
    ensures { result ≡ store_fault row leaf fault }
{
    match fault {
        StoreFault::Range => ChangeFault::Range { row, leaf },
        StoreFault::Narrow => ChangeFault::Narrow { row, leaf },
    }
}

/// Of an expression in a row.
pub fn eval_fault(row: u64, fault: EvalFault) -> ChangeFault
    ensures { result ≡ eval_fault row fault }
{
    let fault = match fault {
        EvalFault::Overflow => CommandFault::Overflow { row },
        EvalFault::DivideByZero => CommandFault::DivideByZero { row },
    };
    ChangeFault::Other(StepFault::Command(fault))
}

/// Of an update.
pub fn update_fault(fault: UpdateFault) -> ChangeFault
    ensures { result ≡ fault_of_update fault }
{
    let row = fault.row;
    match fault.kind {
        UpdateKind::Overflow => eval_fault(row, EvalFault::Overflow),
        UpdateKind::DivideByZero => eval_fault(row, EvalFault::DivideByZero),
        UpdateKind::Range { leaf } => ChangeFault::Range { row, leaf },
        UpdateKind::Narrow { leaf } => ChangeFault::Narrow { row, leaf },
    }
}

/// Of a kernel.
pub fn kernel_fault(fault: KernelFault) -> ChangeFault
    ensures { result ≡ fault_of_kernel fault }
{
    match fault {
        KernelFault::Empty => ChangeFault::Other(StepFault::Command(CommandFault::Empty)),
        KernelFault::Range { row, leaf } => ChangeFault::Range { row, leaf },
        KernelFault::Narrow { row, leaf } => ChangeFault::Narrow { row, leaf },
    }
}
