// A file, opened as a view.
ghost use Rattle.std.specs.Prelude.{◌≡◌, ◌≤◌, ◌+◌, ◌*◌, ◌⊎◌, false, true, IfOk, IfErr, OnOk, Ok, Err, Some, length, map, sum_by};
ghost use Rattle.blob_file.specs.Imports.{list_any, bad_shape, bad_extents, extent_of, is_rows, term_of, accepted, layout_by, leaf_cells, IsBuiltTerm, record_fault, kinds_of, schema_fields, tree_of, Record, IsRecord, AreSized, IsOverLimits, owners_of};
ghost use Rattle.blob_file.specs.Files.{owners_by, Header, IsFile};
ghost use Rattle.blob_file.specs.Headers.{is_nameless, CanLie};
ghost use Rattle.blob_file.specs.Opened.{empty_table, leaf_count, mode_by, opened, row_count, with_blobs, with_body, with_header, IsRead, IsReadInto};
ghost use Rattle.blob_file.specs.Parts.{header_by, header_in};
ghost use Rattle.blob_file.specs.Saving.{header_of, blobs_of};
ghost use Rattle.blob_file.specs.declared.fault.FileFault.TheVariants as fault;

use crate::blobs_in::{cut_blobs, has_blobs};
use crate::fault::FileFault;
use crate::fill::fill_rows;
use crate::header::{FileHeader, behind_magic, read_header};
use blobs::Blob;
use extents::{ExtentWord, Extents, Shape};
use map_expr::MapExpr;
use places::laws_of;
use record_dim::{Dim, MakeSchema, Schema, Steps};
use std::alloc::Global;
use std::sync::ledger::Ledger;
use views::{MakeView, StoreMode, View, bytes_for, laws_of_table};

/// The view of which bytes are the file. It has counted one write of each leaf of each row, and nothing else. The refusals come in the order
/// of `FileFault`, each exactly where `opened` says so; memory may run out at any time. That of the view is taken once the number of bytes
/// behind the header is right. A step is taken for each leaf of each row that is stored.
pub fn read_file<L: Ledger>(
    alloc: Global,
    bytes: &[u8],
    steps: &mut Steps<L>,
) -> Result<View, FileFault>
    ensures read { IsRead (opened bytes.now) result }
    ensures file { IfOk result (λ view. IsFile bytes.now (header_of view) (blobs_of view)) }
    ensures steps { IfOk result (λ view. steps.new ≡ steps.old + row_count (header_of view) * leaf_count (header_of view)) }
{
    let Some(rest) = behind_magic(bytes) else {
        return Err(FileFault::Magic);
    };
    let (header, body) = read_header(alloc, rest)?;
    let view = empty_view(alloc, header, body)?;
    filled(alloc, view, body, steps)
}

/// The view that is like another one in record, extents, mapping and mode, and of whose blobs these are the bytes, one behind another. It has
/// counted one write of each leaf of each row, and nothing else. `Length` comes where there are not as many bytes as the blobs have, `Contents`
/// where they are not the image of rows that such a view may hold; memory may run out at any time. A step is taken for each leaf of each row
/// that is stored.
pub fn read_body<L: Ledger>(
    alloc: Global,
    view: &View,
    body: &[u8],
    steps: &mut Steps<L>,
) -> Result<View, FileFault>
    ensures read { IsRead (with_body (header_of view.now) body.now) result }
    ensures steps { IfOk result (λ view. steps.new ≡ steps.old + row_count (header_of view) * leaf_count (header_of view)) }
{
    let _map = view.map();
    let bytes = body.len() as u64;
    if view.blob_bytes() != bytes {
        return Err(FileFault::Length);
    }
    let (schema, expr) = (view.schema(), view.expr());
    let empty = zeros(alloc, schema, view.extents(), expr, view.mode(), bytes)?;
    filled(alloc, empty, body, steps)
}

// A view of zeros, filled with the rows of which these are the bytes.
fn filled<L: Ledger>(
    alloc: Global,
    mut view: View,
    body: &[u8],
    steps: &mut Steps<L>,
) -> Result<View, FileFault>
    requires empty { view ≡ empty_table (header_of view) }
    requires sized { 8 * length body.now ≡ sum_by length (owners_of view) }
    ensures read { IsRead (with_body (header_of view) body.now) result }
    ensures steps { IfOk result (λ view. steps.new ≡ steps.old + row_count (header_of view) * leaf_count (header_of view)) }
{
    match fill_view(alloc, &mut view, body, steps) {
        Ok(()) => Ok(view),
        Err(fault) => {
            drop(view);
            Err(fault)
        }
    }
}

// A view of zeros that the header says, in which nothing was counted, where as many bytes stand behind the header as it has.
#[tactic(auto, using(crate::specs::HeaderLaws::nameless_built))]
fn empty_view(alloc: Global, header: FileHeader, body: &[u8]) -> Result<View, FileFault>
    requires kind { IsRecord header.dim }
    requires plain { list_any is_rows header.words ≡ false }
    requires nameless { is_nameless (term_of header.expr) ≡ true }
    ensures made { IfOk result (λ view. view ≡ empty_table (header_in header)) }
    ensures lies { OnOk result (CanLie (header_in header)) }
    ensures sized { OnOk result (8 * length body.now ≡ sum_by length (owners_by (header_in header))) }
    ensures refused { IfErr result (λ found. IsRead (with_header (Some (header_in header, body.now))) (Err found)) }
{
    let FileHeader {
        dim,
        words,
        wrap,
        expr,
    } = header;
    let schema = schema_of(alloc, dim)?;
    let extents = extents_of(words.as_slice())?;
    let bytes = bytes_of(alloc, &schema, extents, &expr)?;
    if body.len() as u64 != bytes {
        return Err(FileFault::Length);
    }
    zeros(alloc, &schema, extents, &expr, mode_by(wrap), bytes)
}

// The schema of a record.
fn schema_of(alloc: Global, dim: Dim) -> Result<Schema, FileFault>
    requires { IsRecord dim }
    ensures made { IfOk result (λ schema. Record (schema_fields schema) ≡ tree_of dim) }
    ensures fit { OnOk result (record_fault (tree_of dim) ≡ None) }
    ensures refused { IfErr result (λ found. (found ≡ fault.NoMemory) ⊎ ((found ≡ fault.Layout) × (record_fault (tree_of dim) ≡ None → ⊥))) }
{
    match Schema::new(alloc, dim) {
        Ok(schema) => Ok(schema),
        Err(MakeSchema::Bad(_)) => Err(FileFault::Layout),
        Err(MakeSchema::NoMemory) => Err(FileFault::NoMemory),
    }
}

// The extents of words that are all numbers.
fn extents_of(words: &[ExtentWord]) -> Result<Extents, FileFault>
    requires { list_any is_rows words.now ≡ false }
    ensures extents { IfOk result (λ extents. extents ≡ map (extent_of 0) words.now) }
    ensures shaped { OnOk result (bad_shape words.now ≡ None) }
    ensures ranged { OnOk result (bad_extents words.now None ≡ None) }
    ensures refused { IfErr result (λ found. (found ≡ fault.Layout) × (bad_shape words.now ≡ None → bad_extents words.now None ≡ None → ⊥)) }
{
    let Ok(shape) = Shape::new(words) else {
        return Err(FileFault::Layout);
    };
    match shape.resolve(None) {
        Ok(extents) => Ok(extents),
        Err(_) => Err(FileFault::Layout),
    }
}

/// The mode of a view whose line has, or has not, the word `wrap`.
pub fn mode_by(wrap: bool) -> StoreMode
    ensures { result ≡ mode_by wrap }
{
    if wrap {
        StoreMode::Wrap
    } else {
        StoreMode::Strict
    }
}

// How many bytes the blobs of a view of these have. Nothing of their size is made.
#[tactic(auto, using(crate::specs::HeaderLaws::nameless_built))]
fn bytes_of(
    alloc: Global,
    schema: &Schema,
    extents: Extents,
    expr: &MapExpr,
) -> Result<u64, FileFault>
    requires { is_nameless (term_of expr.now) ≡ true }
    ensures bytes { IfOk result (λ bytes. 8 * bytes ≡ sum_by length (layout_by (term_of expr.now) extents (schema_fields schema.now))) }
    ensures mapped { OnOk result (accepted (term_of expr.now) (schema_fields schema.now) (leaf_cells (kinds_of (schema_fields schema.now))) ≡ Ok tt) }
    ensures within { OnOk result (IsOverLimits (term_of expr.now) extents (schema_fields schema.now) → ⊥) }
    ensures refused { IfErr result (λ found. (found ≡ fault.NoMemory) ⊎ ((found ≡ fault.Layout)
        × (accepted (term_of expr.now) (schema_fields schema.now) (leaf_cells (kinds_of (schema_fields schema.now))) ≡ Ok tt
        → (IsOverLimits (term_of expr.now) extents (schema_fields schema.now) → ⊥) → ⊥))) }
{
    match bytes_for(alloc, schema, extents, expr) {
        Ok(bytes) => Ok(bytes),
        Err(MakeView::NoMemory) => Err(FileFault::NoMemory),
        Err(MakeView::Bad(_)) => Err(FileFault::Layout),
        Err(MakeView::TooBig) => Err(FileFault::Layout),
    }
}

// A view of zeros of so many bytes. Those of which `bytes_of` tells them lack nothing but memory.
fn zeros(
    alloc: Global,
    schema: &Schema,
    extents: Extents,
    expr: &MapExpr,
    mode: StoreMode,
    bytes: u64,
) -> Result<View, FileFault>
    requires { IsBuiltTerm (term_of expr.now) }
    ensures made { IfOk result (λ view. view ≡ empty_table (header_by (schema_fields schema.now) extents mode (term_of expr.now))) }
    ensures refused { IfErr result (λ found. found ≡ fault.NoMemory) }
{
    match View::new_within(alloc, schema, extents, expr, mode, bytes) {
        Ok(view) => Ok(view),
        Err(_) => Err(FileFault::NoMemory),
    }
}

// Fills a view of zeros with the rows of a file, whose header it was made of, behind which these bytes stand.
fn fill_view<L: Ledger>(
    alloc: Global,
    view: &mut View,
    body: &[u8],
    steps: &mut Steps<L>,
) -> Result<(), FileFault>
    requires empty { view.old ≡ empty_table (header_of view.old) }
    requires sized { 8 * length body.now ≡ sum_by length (owners_of view.old) }
    ensures read { IsReadInto (with_body (header_of view.old) body.now) view.new result }
    ensures steps { OnOk result (steps.new ≡ steps.old + row_count (header_of view.new) * leaf_count (header_of view.new)) }
{
    laws_of(view.map());
    let blobs = cut_blobs(alloc, view.map(), body)?;
    fill_from(blobs.as_slice(), view, steps)
}

// The same, of the blobs into which the bytes are cut.
fn fill_from<L: Ledger>(
    blobs: &[Blob],
    view: &mut View,
    steps: &mut Steps<L>,
) -> Result<(), FileFault>
    requires empty { view.old ≡ empty_table (header_of view.old) }
    requires sized { AreSized (owners_of view.old) blobs.now }
    ensures read { IsReadInto (with_blobs (header_of view.old) blobs.now) view.new result }
    ensures steps { OnOk result (steps.new ≡ steps.old + row_count (header_of view.new) * leaf_count (header_of view.new)) }
{
    laws_of(view.map());
    laws_of_table(view);
    fill_rows(blobs, view, steps)?;
    if has_blobs(view, blobs) {
        Ok(())
    } else {
        Err(FileFault::Contents)
    }
}
