// `open V from "F"`.
ghost use Rattle.std.specs.Prelude.{◌≡◌, true, List, Some, map};
ghost use Rattle.session.specs.Imports.{Rose, File, open_view, opened_table, view_of, Gives};
ghost use Rattle.session.specs.Loads.{Loads, LoadCause, UnreadOnly, ToldFor};
ghost use Rattle.session.specs.Inner.Opens.{file_fault, placed_table, with_room};

use crate::files::file_bytes;
use crate::session::Session;
use blob_file::{FileFault, read_file};
use command_checks::{MAX_LIVE_BYTES, StepFault, ViewEntry, free_view, has_room, live_bytes};
use layout_io::Shelf;
use line_grammar::FileName;
use record_dim::{Name, Steps};
use std::alloc::Global;
use std::sync::ledger::Ledger;
use views::View;
use worlds::{BadFile, CommandFault};

/// The most bytes of a file: those of the blobs of a view, behind the longest header.
const MAX_FILE_BYTES: usize = (1 << 28) + 8206;

impl Session {
    ghost use Rattle.session.specs.Stands.{left_of, world_of};

    /// Makes a view of the bytes of a file.
    pub(crate) fn open<H: Shelf, L: Ledger>(
        self,
        name: Name,
        file: &FileName,
        shelf: &mut H,
        steps: &mut Steps<L>,
    ) -> Result<Session, StepFault>
        ensures loads { (files : List File) → ToldFor (H.files shelf.old) (open_view (world_of self) name file.now files true) files
            → Loads file.now left_of (open_view (world_of self) name file.now files)
            (Rose (H.faults shelf.old) (H.faults shelf.new)) result }
        ensures files { H.files shelf.new ≡ H.files shelf.old }
        ensures cause { LoadCause (H.files shelf.old) (H.faults shelf.old) (H.faults shelf.new) result }
        ensures unread { UnreadOnly (Some file.now) (open_view (world_of self) name file.now) result }
    {
        let view = self.opened_view(name, file, shelf, steps)?;
        let next = self.with_view(name, view)?;
        Ok(next)
    }

    // The view of a file.
    fn opened_view<H: Shelf, L: Ledger>(
        &self,
        name: Name,
        file: &FileName,
        shelf: &mut H,
        steps: &mut Steps<L>,
    ) -> Result<View, StepFault>
        ensures loads { (files : List File) → ToldFor (H.files shelf.old) (opened_table (world_of self.now) name file.now files true) files
            → Loads file.now (λ view. view) (opened_table (world_of self.now) name file.now files)
            (Rose (H.faults shelf.old) (H.faults shelf.new)) result }
        ensures files { H.files shelf.new ≡ H.files shelf.old }
        ensures cause { LoadCause (H.files shelf.old) (H.faults shelf.old) (H.faults shelf.new) result }
        ensures unread { UnreadOnly (Some file.now) (opened_table (world_of self.now) name file.now) result }
    {
        let views = self.views.as_slice();
        free_view(views, name)?;
        has_room(views)?;
        let bytes = file_bytes(self.alloc, file, MAX_FILE_BYTES, shelf)?;
        opened_beside(self.alloc, views, bytes.as_slice(), steps)
    }
}

// The view of the bytes of a file beside these.
fn opened_beside<L: Ledger>(
    alloc: Global,
    views: &[ViewEntry],
    bytes: &[u8],
    steps: &mut Steps<L>,
) -> Result<View, StepFault>
    ensures { Gives (λ view. view) result (placed_table (map view_of views.now) bytes.now) }
{
    match read_file(alloc, bytes, steps) {
        Ok(view) => with_room(views, view),
        Err(fault) => Err(file_fault(fault)),
    }
}

// The view, where its blobs have room beside those of these.
fn with_room(views: &[ViewEntry], view: View) -> Result<View, StepFault>
    ensures { Gives (λ view. view) result (with_room (map view_of views.now) view) }
{
    let bytes = live_bytes(views) + u128::from(view.blob_bytes());
    if bytes > MAX_LIVE_BYTES {
        return Err(StepFault::Command(CommandFault::TooBig));
    }
    Ok(view)
}

// Why bytes were not opened; want of memory is no fault of a file.
fn file_fault(fault: FileFault) -> StepFault
    ensures { result ≡ file_fault fault }
{
    match fault {
        FileFault::Magic => bad_file(BadFile::Magic),
        FileFault::Header => bad_file(BadFile::Header),
        FileFault::Layout => bad_file(BadFile::Layout),
        FileFault::Length => bad_file(BadFile::Length),
        FileFault::Contents => bad_file(BadFile::Contents),
        FileFault::NoMemory => StepFault::NoMemory,
    }
}

fn bad_file(bad: BadFile) -> StepFault
    ensures { result ≡ StepFault.Command (CommandFault.BadFile bad) }
{
    StepFault::Command(CommandFault::BadFile(bad))
}
