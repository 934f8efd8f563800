// The files that lines read.
ghost use Rattle.std.specs.Prelude.{◌≡◌, List, Some};
ghost use Rattle.session.specs.Imports.{Rose, File};
ghost use Rattle.session.specs.Loads.{Loads, LoadCause, read_within};

use command_checks::StepFault;
use layout_io::{Bytes, ReadEnd, Shelf, read_all};
use line_grammar::FileName;
use std::alloc::Global;
use worlds::CommandFault;

/// The bytes of a file that has at most so many.
pub(crate) fn file_bytes<H: Shelf>(
    alloc: Global,
    file: &FileName,
    most: usize,
    shelf: &mut H,
) -> Result<Bytes, StepFault>
    ensures loads { (files : List File) → H.files shelf.old ≡ Some files
        → Loads file.now (λ bytes. bytes) (λ unread. read_within most files unread file.now)
        (Rose (H.faults shelf.old) (H.faults shelf.new)) result }
    ensures files { H.files shelf.new ≡ H.files shelf.old }
    ensures cause { LoadCause (H.files shelf.old) (H.faults shelf.old) (H.faults shelf.new) result }
{
    match read_all(alloc, shelf, file.as_str(), most) {
        Ok(bytes) => Ok(bytes),
        Err(end) => match end {
            ReadEnd::Failed => Err(StepFault::Source),
            ReadEnd::TooLong => Err(StepFault::Command(CommandFault::TooBig)),
            ReadEnd::NoMemory => Err(StepFault::NoMemory),
        },
    }
}
