ghost use Rattle.std.specs.Prelude.{◌≡◌, ◌+◌, ◌<◌, ◌^◌};
ghost use Rattle.worlds.specs.Imports.{ℕ, List, Some, Bool, IfOk, length, Rose, File};
ghost use Rattle.worlds.specs.Worlds.{World};
ghost use Rattle.worlds.specs.Outcomes.{Outcome, Left};
ghost use Rattle.worlds.specs.RunAnswers.{IsRun, HasCause, ended_status};
ghost use Rattle.worlds.specs.Lines.{lines_in};
ghost use Rattle.worlds.specs.Fold.{run_from};

use crate::script_lines::next_line;
use crate::status::Status;
use crate::{CommandFault, write_fault, write_unread};
use layout_io::{Failed, Shelf, Sink};
use record_dim::{Steps, Text};
use std::sync::ledger::Ledger;

/// Why a run ends at a line.
#[derive(Drop)]
pub enum LineEnd {
    /// The command is refused.
    Command(CommandFault),
    /// This file was not read.
    Source(Text),
    /// A write failed.
    Sink,
    NoMemory,
}

/// What does a script line by line.
pub trait Stepper: Drop {
    ghost use Rattle.worlds.specs.Answers.{StepsTo, StepCause};
    ghost use Rattle.worlds.specs.Inner.Steps.{ending_of};

    // The worlds that it stands for.
    ghost stands: { Self → World → Type 0 };

    // What a line does to a world, over these files, and by whether reading fails in it: the same at each line.
    ghost outcome: { Self → List File → World → List ℕ → Bool → Outcome Left };

    /// Does the line of this text.
    fn step<H: Shelf, K: Sink, L: Ledger>(
        self,
        text: &[u8],
        shelf: &mut H,
        sink: &mut K,
        steps: &mut Steps<L>,
    ) -> Result<Self, LineEnd>
        ensures step { (files : List File) (world : World) → H.files shelf.old ≡ Some files → stands self world
            → StepsTo ending_of stands K.taken K.faults sink.old sink.new (outcome self files world text.now)
            (Rose (H.faults shelf.old) (H.faults shelf.new)) result }
        ensures same { IfOk result (λ next. outcome next ≡ outcome self) }
        ensures files { H.files shelf.new ≡ H.files shelf.old }
        ensures cause { StepCause ending_of (H.files shelf.old) (H.faults shelf.old) (H.faults shelf.new)
            (K.faults sink.old) (K.faults sink.new) result };
}

/// Does the lines of a script in order, up to its end or to the first that ends the run. The number of its first line is one above `before`.
pub fn run_lines<S: Stepper, H: Shelf, K: Sink, L: Ledger>(
    first: S,
    before: u64,
    script: &[u8],
    shelf: &mut H,
    sink: &mut K,
    steps: &mut Steps<L>,
) -> Status
    requires { before + length (lines_in script.now) < 2 ^ 64 }
    ensures run { (files : List File) (world : World) → H.files shelf.old ≡ Some files → S.stands first world
        → IsRun K.taken sink.old sink.new (run_from (S.outcome first files) (before + 1) world (lines_in script.now))
        (Rose (H.faults shelf.old) (H.faults shelf.new)) result }
    ensures cause { HasCause ⊥ (H.files shelf.old) (H.faults shelf.old) (H.faults shelf.new)
        (K.faults sink.old) (K.faults sink.new) result }
{
    let mut session = first;
    let mut rest = script;
    let mut number = before;
    while let Some((line, behind)) = next_line(rest) {
        number += 1;
        rest = behind;
        match session.step(line, shelf, sink, steps) {
            Ok(next) => session = next,
            Err(end) => match end {
                LineEnd::Command(fault) => {
                    return ended(write_fault(number, &fault, sink), Status::CommandFault);
                }
                LineEnd::Source(name) => {
                    return ended(
                        write_unread(number, name.as_str(), sink),
                        Status::SourceFault,
                    );
                }
                LineEnd::Sink => return Status::SinkFault,
                LineEnd::NoMemory => return Status::NoMemory,
            },
        }
    }
    Status::Done
}

/// The status that is due, unless the write that ends the run failed.
pub fn ended(written: Result<(), Failed>, status: Status) -> Status
    ensures { result ≡ ended_status written status }
{
    match written {
        Ok(()) => status,
        Err(Failed) => Status::SinkFault,
    }
}
