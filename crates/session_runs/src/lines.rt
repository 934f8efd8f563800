// The lines of a script, done by a session.
ghost use Rattle.std.specs.Prelude.{◌≡◌, IfOk, IsSome, List, Some};
ghost use Rattle.session_runs.specs.Imports.{Rose, File, sentence_of, file_read_by, HasItsFields, ending_of, StepsTo, StepCause, step, World, Stands};
ghost use Rattle.session_runs.specs.Steps.{step_text, EndsAs, TellsFile};

use layout_io::{Shelf, Sink};
use record_dim::{Steps, Text};
use schema_lang::{FileName, Line, LineFault, MAX_LINE_BYTES, Version, parse_line};
use session::{CommandFault, Session, StepFault};
use std::alloc::{AllocError as NoMemory, Global};
use std::sync::ledger::Ledger;
use worlds::{LineEnd, Stepper};

/// A session that does the lines of a script.
#[derive(Drop)]
pub struct Running {
    pub alloc: Global,
    pub version: Version,
    pub session: Session,
}

impl Stepper for Running {
    ghost stands = { λ running world. Stands running.session world };

    ghost outcome = { λ running. step_text running.version };

    fn step<H: Shelf, K: Sink, L: Ledger>(
        self,
        text: &[u8],
        shelf: &mut H,
        sink: &mut K,
        steps: &mut Steps<L>,
    ) -> Result<Running, LineEnd> {
        let (alloc, version) = (self.alloc, self.version);
        match do_line(alloc, version, self.session, text, shelf, sink, steps) {
            Ok(session) => Ok(Running {
                alloc,
                version,
                session,
            }),
            Err(end) => Err(end),
        }
    }
}

// Does the line of this text.
fn do_line<H: Shelf, K: Sink, L: Ledger>(
    alloc: Global,
    version: Version,
    session: Session,
    text: &[u8],
    shelf: &mut H,
    sink: &mut K,
    steps: &mut Steps<L>,
) -> Result<Session, LineEnd>
    ensures step { (files : List File) (world : World) → H.files shelf.old ≡ Some files → Stands session world
        → StepsTo ending_of Stands K.taken K.faults sink.old sink.new (step_text version files world text.now)
        (Rose (H.faults shelf.old) (H.faults shelf.new)) result }
    ensures files { H.files shelf.new ≡ H.files shelf.old }
    ensures cause { StepCause ending_of (H.files shelf.old) (H.faults shelf.old) (H.faults shelf.new)
        (K.faults sink.old) (K.faults sink.new) result }
{
    if text.len() > MAX_LINE_BYTES {
        return Err(LineEnd::Command(CommandFault::LineTooLong));
    }
    match parse_line(alloc, text, version) {
        Ok(line) => {
            let done = do_command(alloc, session, &line, shelf, sink, steps);
            // One call: at the end of the block a drop for each kind of line would stand here.
            drop(line);
            done
        }
        Err(fault) => match fault {
            LineFault::Syntax { column } => Err(LineEnd::Command(CommandFault::Syntax { column })),
            LineFault::TooDeep => Err(LineEnd::Command(CommandFault::TooDeep)),
            LineFault::NoMemory => Err(LineEnd::NoMemory),
        },
    }
}

// Does a line.
#[tactic(auto, using(crate::proofs::Texts::fit_of_whole, session::specs::LoadsLaws::told_any))]
fn do_command<H: Shelf, K: Sink, L: Ledger>(
    alloc: Global,
    session: Session,
    line: &Line,
    shelf: &mut H,
    sink: &mut K,
    steps: &mut Steps<L>,
) -> Result<Session, LineEnd>
    requires { HasItsFields line.now }
    ensures step { (files : List File) (world : World) → H.files shelf.old ≡ Some files → Stands session world
        → StepsTo ending_of Stands K.taken K.faults sink.old sink.new (step world (sentence_of line.now) files)
        (Rose (H.faults shelf.old) (H.faults shelf.new)) result }
    ensures files { H.files shelf.new ≡ H.files shelf.old }
    ensures cause { StepCause ending_of (H.files shelf.old) (H.faults shelf.old) (H.faults shelf.new)
        (K.faults sink.old) (K.faults sink.new) result }
{
    match session.step(line, shelf, sink, steps) {
        Ok(next) => Ok(next),
        Err(fault) => Err(line_end(alloc, line, fault)),
    }
}

// The end of the run at a line that is refused so.
fn line_end(alloc: Global, line: &Line, fault: StepFault) -> LineEnd
    requires { fault ≡ StepFault.Source → IsSome (file_read_by (sentence_of line.now)) }
    ensures { EndsAs (file_read_by (sentence_of line.now)) fault result }
{
    match fault {
        StepFault::Command(fault) => LineEnd::Command(fault),
        StepFault::Source => unread_end(alloc, line.file().unwrap()),
        StepFault::Sink => LineEnd::Sink,
        StepFault::NoMemory => LineEnd::NoMemory,
    }
}

// The end of the run at a line whose file was not read.
fn unread_end(alloc: Global, file: &FileName) -> LineEnd
    ensures { TellsFile file.now result }
{
    match file_text(alloc, file) {
        Ok(name) => LineEnd::Source(name),
        Err(NoMemory) => LineEnd::NoMemory,
    }
}

// The name of a file, as a text that owns it.
fn file_text(alloc: Global, file: &FileName) -> Result<Text, NoMemory>
    ensures { IfOk result (λ text. text ≡ file.now) }
{
    let mut text = Text::new(alloc);
    text.push_str(file.as_str())?;
    Ok(text)
}
