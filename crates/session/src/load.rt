// `load V : P [..] wrap as .. from "F"`.
ghost use Rattle.std.specs.Prelude.{◌≡◌, ◌<◌, IfOk, true, List, Some, length, map};
ghost use Rattle.session.specs.Imports.{indices, IsShape, Rose, File, term_of, schema_fields, csv_records, records_behind, load, loaded_table, filled, resolved, is_nameless, view_of, Gives};
ghost use Rattle.session.specs.Inner.Changes.{TellsRow};
ghost use Rattle.session.specs.Loads.{named_of, new_of, filled_table, Loads, LoadCause, UnreadOnly, ToldFor};

use crate::files::file_bytes;
use crate::session::Session;
use crate::view::{Found, New, named};
use command_checks::{MappingList, RecordList, StepFault, ViewEntry, leaf_text, made, resolved};
use csv_rows::{RowFault, count_rows, load_rows};
use extents::{ExtentWord, Extents, Shape};
use layout_io::Shelf;
use line_grammar::FileName;
use record_dim::Steps;
use std::alloc::Global;
use std::sync::ledger::Ledger;
use views::View;
use worlds::CommandFault;

/// The most bytes of a dataset.
const MAX_DATASET_BYTES: usize = 1 << 28;

impl Session {
    ghost use Rattle.session.specs.Stands.{left_of, world_of};

    /// Makes a view with what it keeps of the values of a dataset.
    pub(crate) fn load<H: Shelf, L: Ledger>(
        self,
        new: &New<'_>,
        file: &FileName,
        shelf: &mut H,
        steps: &mut Steps<L>,
    ) -> Result<Session, StepFault>
        ensures loads { (files : List File) → ToldFor (H.files shelf.old) (load (world_of self) (new_of new.now) file.now files true) files
            → Loads file.now left_of (load (world_of self) (new_of new.now) file.now files)
            (Rose (H.faults shelf.old) (H.faults shelf.new)) result }
        ensures files { H.files shelf.new ≡ H.files shelf.old }
        ensures cause { LoadCause (H.files shelf.old) (H.faults shelf.old) (H.faults shelf.new) result }
        ensures unread { UnreadOnly (Some file.now) (load (world_of self) (new_of new.now) file.now) result }
    {
        let view = loaded_view(
            self.alloc,
            &self.records,
            &self.mappings,
            self.views.as_slice(),
            new,
            file,
            shelf,
            steps,
        )?;
        let next = self.with_view(new.name, view)?;
        Ok(next)
    }
}

ghost use Rattle.session.specs.Stands.{world_in};

// The view of a dataset in a file.
fn loaded_view<H: Shelf, L: Ledger>(
    alloc: Global,
    records: &RecordList,
    mappings: &MappingList,
    views: &[ViewEntry],
    new: &New<'_>,
    file: &FileName,
    shelf: &mut H,
    steps: &mut Steps<L>,
) -> Result<View, StepFault>
    ensures loads { (files : List File) → ToldFor (H.files shelf.old) (loaded_table (world_in records.now mappings.now views.now) (new_of new.now) file.now files true) files
        → Loads file.now (λ view. view) (loaded_table (world_in records.now mappings.now views.now) (new_of new.now) file.now files)
        (Rose (H.faults shelf.old) (H.faults shelf.new)) result }
    ensures files { H.files shelf.new ≡ H.files shelf.old }
    ensures cause { LoadCause (H.files shelf.old) (H.faults shelf.old) (H.faults shelf.new) result }
    ensures unread { UnreadOnly (Some file.now) (loaded_table (world_in records.now mappings.now views.now) (new_of new.now) file.now) result }
{
    let found = named(alloc, records, mappings, views, new)?;
    let bytes = file_bytes(alloc, file, MAX_DATASET_BYTES, shelf)?;
    filled_view(alloc, views, &found, new.words, bytes.as_slice(), steps)
}

// The view of a dataset that was read.
fn filled_view<L: Ledger>(
    alloc: Global,
    views: &[ViewEntry],
    found: &Found<'_>,
    words: &[ExtentWord],
    bytes: &[u8],
    steps: &mut Steps<L>,
) -> Result<View, StepFault>
    requires nameless { is_nameless (term_of found.now.expr) ≡ true }
    requires shape { found.now.shape ≡ words.now }
    requires is_shape { IsShape words.now }
    requires few { length views.now < 64 }
    ensures { Gives (λ view. view) result (filled_table (map view_of views.now) (named_of found.now) words.now bytes.now) }
{
    let extents = dataset_extents(alloc, &found.shape, words, bytes)?;
    let mut view = made(alloc, views, found.mode, found.schema, extents, &found.expr)?;
    let _rows = view.schema();
    match fill(alloc, &mut view, bytes, steps) {
        Ok(()) => Ok(view),
        Err(fault) => Err(fault),
    }
}

// The extents for the rows of a dataset.
fn dataset_extents(
    alloc: Global,
    shape: &Shape,
    words: &[ExtentWord],
    bytes: &[u8],
) -> Result<Extents, StepFault>
    requires words { shape.now ≡ words.now }
    requires is_shape { IsShape words.now }
    ensures extents { Gives (λ extents. extents) result (resolved words.now (Some (length (records_behind (csv_records bytes.now))))) }
    ensures rows { IfOk result (λ extents. length (indices extents) ≡ length (records_behind (csv_records bytes.now))) }
{
    let rows = count_rows(alloc, bytes)?;
    let extents = resolved(shape, words, Some(rows))?;
    Ok(extents)
}

// The values of a dataset, stored in a view that has as many rows.
fn fill<L: Ledger>(
    alloc: Global,
    view: &mut View,
    bytes: &[u8],
    steps: &mut Steps<L>,
) -> Result<(), StepFault>
    requires { length view.old.rows ≡ length (records_behind (csv_records bytes.now)) }
    ensures { Gives (λ done. view.new) result (filled view.old (csv_records bytes.now)) }
{
    match load_rows(alloc, bytes, view, steps) {
        Ok(()) => Ok(()),
        Err(fault) => Err(row_fault(alloc, view, fault)?.into()),
    }
}

// The fault of a dataset, with the path text of its leaf.
fn row_fault(alloc: Global, view: &View, fault: RowFault) -> Result<CommandFault, StepFault>
    ensures { TellsRow view.now.fields fault result }
{
    match fault {
        RowFault::MissingColumn { leaf } => {
            let leaf = leaf_text(alloc, view, leaf)?;
            Ok(CommandFault::MissingColumn { leaf })
        }
        RowFault::ColumnTwice { leaf } => {
            let leaf = leaf_text(alloc, view, leaf)?;
            Ok(CommandFault::ColumnTwice { leaf })
        }
        RowFault::ShortRow { row, leaf } => {
            let leaf = leaf_text(alloc, view, leaf)?;
            Ok(CommandFault::ShortRow { row, leaf })
        }
        RowFault::Number { row, leaf } => {
            let leaf = leaf_text(alloc, view, leaf)?;
            Ok(CommandFault::Number { row, leaf })
        }
        RowFault::Range { row, leaf } => {
            let leaf = leaf_text(alloc, view, leaf)?;
            Ok(CommandFault::Range { row, leaf })
        }
        RowFault::Narrow { row, leaf } => {
            let leaf = leaf_text(alloc, view, leaf)?;
            Ok(CommandFault::Narrow { row, leaf })
        }
        RowFault::NoMemory => Err(StepFault::NoMemory),
    }
}
