// `save V`.
ghost use Rattle.view_commands.specs.Imports.{save, telling};

use crate::work::Work;
use blob_file::{SaveEnd, write_file};
use command_checks::StepFault;
use layout_io::Sink;
use record_dim::Steps;
use std::alloc::Global;
use std::sync::ledger::Ledger;
use views::View;
use worlds::CommandFault;

/// Writes the table as the bytes of a file.
#[derive(Drop)]
pub struct Save;

impl Work for Save {
    ghost does = { λ this table. telling save table };

    fn run<K: Sink, L: Ledger>(
        &self,
        alloc: Global,
        view: &mut View,
        out: &mut K,
        _steps: &mut Steps<L>,
    ) -> Result<(), StepFault> {
        match write_file(alloc, view, out) {
            Ok(()) => Ok(()),
            Err(end) => match end {
                SaveEnd::TooBig => Err(StepFault::Command(CommandFault::TooBig)),
                SaveEnd::Failed => Err(StepFault::Sink),
                SaveEnd::NoMemory => Err(StepFault::NoMemory),
            },
        }
    }
}
