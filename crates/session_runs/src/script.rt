// The run of a script that was read, in the version that its version line says.
ghost use Rattle.std.specs.Prelude.{◌≡◌, ◌+◌, ◌^◌, ◌<◌, ◌≤◌, ℕ, List, Some, length};
ghost use Rattle.session_runs.specs.Imports.{strip_bom, Rose, File, IsRun, HasCause, run_from, lines_in, empty};
ghost use Rattle.session_runs.specs.Scripts.{run_form, run_headed, version_line};
ghost use Rattle.session_runs.specs.Steps.{step_text};

use crate::lines::Running;
use crate::version::{version_line, version_numbered};
use layout_io::{Shelf, Sink};
use record_dim::Steps;
use schema_lang::Version;
use session::{CommandFault, Session};
use std::alloc::Global;
use std::marker::Brand;
use std::sync::ledger::{Blank, Ledger};
use worlds::{Status, ended, line_count, run_lines, write_fault};

// The most lines of a script.
const SCRIPT_LINES: usize = 65_536;

/// Runs a script that was read, with what its lines read from `shelf` and what it writes to `sink`.
///
/// Where the shelf tells its files, the bytes that the sink took are those of the specification's `run_form`, as the status says. It is never `Usage`.
pub fn run_form<H: Shelf, K: Sink>(
    alloc: Global,
    script: &[u8],
    shelf: &mut H,
    sink: &mut K,
) -> Status
    ensures run { (files : List File) → H.files shelf.old ≡ Some files
        → IsRun K.taken sink.old sink.new (run_form script.now files)
        (Rose (H.faults shelf.old) (H.faults shelf.new)) result }
    ensures cause { HasCause ⊥ (H.files shelf.old) (H.faults shelf.old) (H.faults shelf.new)
        (K.faults sink.old) (K.faults sink.new) result }
{
    run_counted::<H, K, Brand>(alloc, script, shelf, sink, Blank::new(1))
}

// The same, its steps counted on the ledger that `blank` opens.
fn run_counted<H: Shelf, K: Sink, L: Ledger>(
    alloc: Global,
    script: &[u8],
    shelf: &mut H,
    sink: &mut K,
    blank: Blank,
) -> Status
    requires name { blank.name ≡ L.name }
    requires parts { blank.parts ≡ L.parts }
    requires some { 0 < blank.parts }
    ensures run { (files : List File) → H.files shelf.old ≡ Some files
        → IsRun K.taken sink.old sink.new (run_form script.now files)
        (Rose (H.faults shelf.old) (H.faults shelf.new)) result }
    ensures cause { HasCause ⊥ (H.files shelf.old) (H.faults shelf.old) (H.faults shelf.new)
        (K.faults sink.old) (K.faults sink.new) result }
{
    let lines = without_mark(script);
    if line_count(lines) > SCRIPT_LINES {
        return ended(
            write_fault(0, &CommandFault::ScriptTooLong, sink),
            Status::CommandFault,
        );
    }
    run_headed(alloc, lines, shelf, sink, &mut Steps::<L>::new(blank))
}

// The lines of a script, in the version that its version line says.
fn run_headed<H: Shelf, K: Sink, L: Ledger>(
    alloc: Global,
    lines: &[u8],
    shelf: &mut H,
    sink: &mut K,
    steps: &mut Steps<L>,
) -> Status
    requires { length (lines_in lines.now) ≤ 65536 }
    ensures run { (files : List File) → H.files shelf.old ≡ Some files
        → IsRun K.taken sink.old sink.new (run_headed (version_line (lines_in lines.now)) files (lines_in lines.now))
        (Rose (H.faults shelf.old) (H.faults shelf.new)) result }
    ensures cause { HasCause ⊥ (H.files shelf.old) (H.faults shelf.old) (H.faults shelf.new)
        (K.faults sink.old) (K.faults sink.new) result }
{
    let Some(head) = version_line(lines) else {
        return run_behind(alloc, Version::One, 0, lines, shelf, sink, steps);
    };
    let number = head.before + 1;
    match version_numbered(head.number) {
        Some(version) => run_behind(alloc, version, number, head.rest, shelf, sink, steps),
        None => ended(
            write_fault(number, &CommandFault::BadVersion, sink),
            Status::CommandFault,
        ),
    }
}

// The lines behind so many others, which leave nothing, in a version of the language.
fn run_behind<H: Shelf, K: Sink, L: Ledger>(
    alloc: Global,
    version: Version,
    before: u64,
    lines: &[u8],
    shelf: &mut H,
    sink: &mut K,
    steps: &mut Steps<L>,
) -> Status
    requires { before + length (lines_in lines.now) < 2 ^ 64 }
    ensures run { (files : List File) → H.files shelf.old ≡ Some files
        → IsRun K.taken sink.old sink.new (run_from (step_text version files) (before + 1) empty (lines_in lines.now))
        (Rose (H.faults shelf.old) (H.faults shelf.new)) result }
    ensures cause { HasCause ⊥ (H.files shelf.old) (H.faults shelf.old) (H.faults shelf.new)
        (K.faults sink.old) (K.faults sink.new) result }
{
    let running = Running {
        alloc,
        version,
        session: Session::new(alloc),
    };
    run_lines(running, before, lines, shelf, sink, steps)
}

// The bytes behind a byte order mark.
#[tactic(auto, unfolding(csv::specs::Reading::strip_bom))]
fn without_mark(script: &[u8]) -> &[u8]
    ensures { result.now ≡ strip_bom script.now }
{
    if script.len() >= 3 && script[0] == 0xEF && script[1] == 0xBB && script[2] == 0xBF {
        &script[3..]
    } else {
        script
    }
}
