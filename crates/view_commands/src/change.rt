// Commands that may store in one view, and write nothing but a number.
ghost use Rattle.std.specs.Prelude.{ℕ, ℤ, ◌≡◌, IfErr, IfOk, List, Option, None};
ghost use Rattle.view_commands.specs.Imports.{Table, Done, Tested, NoMemory};
ghost use Rattle.view_commands.specs.Changes.{Changed, all_left, worded};
ghost use Rattle.view_commands.specs.Steps.{Within};
ghost use Rattle.view_commands.specs.declared.change.ChangeFault.TheVariants.{Other};

use command_checks::{StepFault, leaf_text};
use record_dim::Steps;
use std::alloc::{AllocError, Global};
use std::sync::ledger::Ledger;
use views::View;
use worlds::CommandFault;

/// Why such a command is refused. A leaf is its number.
#[derive(Drop)]
pub enum ChangeFault {
    /// A value lies outside of the declared range of its leaf.
    Range { row: u64, leaf: usize },
    /// It is declared, and the mapping does not hold it.
    Narrow { row: u64, leaf: usize },
    /// A leaf is set a second time.
    Twice { leaf: usize },
    /// What names no leaf.
    Other(StepFault),
}

impl From<StepFault> for ChangeFault {
    ghost from_gives = { λ fault change. change ≡ Other fault };

    fn from(fault: StepFault) -> ChangeFault {
        ChangeFault::Other(fault)
    }
}

impl From<AllocError> for ChangeFault {
    ghost from_gives = { λ _ change. change ≡ Other NoMemory };

    fn from(_error: AllocError) -> ChangeFault {
        ChangeFault::Other(StepFault::NoMemory)
    }
}

/// What may store in one view.
pub trait Change {
    // What it does to a table.
    ghost does: { Self → Table → Tested Done };

    // The rows that it leaves where it is refused at one.
    ghost left: { Self → Table → ℕ → List (List ℤ) } = { λ this table. all_left table };

    // The most steps that it takes on a table, where something is said of them.
    ghost most: { Self → Table → Option ℕ } = { λ this table. None };

    /// Changes a view, and gives its number, if it gives one.
    fn run<L: Ledger>(
        &self,
        alloc: Global,
        view: &mut View,
        steps: &mut Steps<L>,
    ) -> Result<Option<i128>, ChangeFault>
        ensures changed { Changed (does self.now view.old) (left self.now view.old) view.old result view.new }
        ensures steps { Within (most self.now view.old) steps.old steps.new };
}

/// A fault in the words of a script, or want of memory for the path of its leaf.
pub fn in_words(alloc: Global, view: &View, fault: ChangeFault) -> Result<StepFault, StepFault>
    ensures told { IfOk result (λ told. told ≡ worded view.now.fields fault) }
    ensures starved { IfErr result (λ told. told ≡ NoMemory) }
{
    match fault {
        ChangeFault::Range { row, leaf } => {
            let leaf = leaf_text(alloc, view, leaf)?;
            Ok(StepFault::Command(CommandFault::Range { row, leaf }))
        }
        ChangeFault::Narrow { row, leaf } => {
            let leaf = leaf_text(alloc, view, leaf)?;
            Ok(StepFault::Command(CommandFault::Narrow { row, leaf }))
        }
        ChangeFault::Twice { leaf } => {
            let leaf = leaf_text(alloc, view, leaf)?;
            Ok(StepFault::Command(CommandFault::Twice { leaf }))
        }
        ChangeFault::Other(fault) => Ok(fault),
    }
}
