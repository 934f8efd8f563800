// Blobs of a run: copies of those of a view, and single rows and bytes of them.
ghost use Rattle.std.specs.Prelude.{◌≡◌, ◌<◌, ◌≤◌, IfOk, length, map};
ghost use Rattle.actors.specs.Imports.{bit_in, IsWrite, AreSized, leaf_count_of, owners_of, IsLawful, memory_of, fresh_of, byte_at, with_byte, with_bits_of};
ghost use Rattle.actors.specs.Rows.{row_held, HasByte};

use actor_steps::Place;
use blobs::Blob;
use piece_bits::{declared, encode, held, read_entry, write_pieces};
use places::{Mapping, laws_of};
use std::alloc::{AllocError as NoMemory, Global};
use views::{BlobList, View, laws_of_table};

/// Copies of the blobs of a view.
pub fn copied_blobs(alloc: Global, view: &View) -> Result<BlobList, NoMemory>
    ensures { IfOk result (λ blobs. blobs.items ≡ memory_of view.now) }
{
    let mut blobs = Vec::new(alloc);
    for b in 0..view.map().blob_count() {
        let blob = view.blob(b);
        blob.bytes_law();
        blobs.push(copied(alloc, blob)?)?;
    }
    Ok(blobs)
}

// A copy of a blob.
fn copied(alloc: Global, blob: &Blob) -> Result<Blob, NoMemory>
    ensures { IfOk result (λ copy. copy ≡ blob.now) }
{
    let mut copy = Blob::zeroed(alloc, blob.len())?;
    for at in 0..blob.len() {
        copy.put(at, blob.get(at));
    }
    Ok(copy)
}

/// Blobs of the lengths of a view's whose bytes are 0.
pub fn fresh_blobs(alloc: Global, view: &View) -> Result<BlobList, NoMemory>
    ensures { IfOk result (λ blobs. blobs.items ≡ (fresh_of view.now).loaded) }
{
    let map = view.map();
    let mut blobs = Vec::new(alloc);
    for b in 0..map.blob_count() {
        blobs.push(Blob::zeroed(alloc, map.blob_bytes(b) as usize)?)?;
    }
    Ok(blobs)
}

/// A view's table lies under a layout with its laws, and has few leaves. It does nothing: its contract is the law.
pub fn laws_of_view(view: &View)
    ensures lawful { IsLawful view.now }
    ensures few { leaf_count_of view.now ≤ 64 }
{
    laws_of_table(view);
    laws_of(view.map());
    let _leaves = view.schema().leaf_count();
}

/// Makes `values`, one for each leaf, those of a row that blobs hold, whatever their padding is.
pub fn read_held(view: &View, blobs: &[Blob], row: u64, values: &mut [i128])
    requires sized { AreSized (owners_of view.now) blobs.now }
    requires row_in { row < length view.now.rows }
    requires values { length values.old ≡ leaf_count_of view.now }
    ensures row { values.new ≡ row_held view.now blobs.now row }
    ensures long { length values.new ≡ leaf_count_of view.now }
{
    laws_of_view(view);
    for leaf in 0..values.len() {
        let raw = read_entry(view.map(), blobs, row, leaf);
        values[leaf] = declared(view.schema().leaf_type(leaf), raw);
    }
}

/// The byte at a place.
pub fn byte_at(blobs: &[Blob], place: Place) -> u8
    requires { HasByte blobs.now place }
    ensures { result ≡ byte_at blobs.now place }
{
    blobs[place.blob].get(place.byte as usize)
}

/// Makes the byte at a place this one.
pub fn put_byte(blobs: &mut BlobList, place: Place, byte: u8)
    requires { HasByte blobs.old.items place }
    ensures { blobs.new.items ≡ with_byte blobs.old.items place byte }
{
    blobs[place.blob].put(place.byte as usize, byte);
}

/// A byte with only the bits of a leaf in a row changed, to those of a value. `scratch` has the lengths of the blobs, and its bytes say
/// nothing.
pub fn changed_byte<M: Mapping>(
    mapping: &M,
    scratch: &mut BlobList,
    place: Place,
    row: u64,
    leaf: usize,
    value: i128,
    byte: u8,
) -> u8
    requires row_in { row < M.slot_count mapping.now }
    requires leaf_in { leaf < length (M.cell_list mapping.now) }
    requires sized { AreSized (M.layout mapping.now) scratch.old.items }
    requires place { HasByte scratch.old.items place }
    ensures byte { result ≡ with_bits_of (M.layout mapping.now) place row leaf value byte }
    ensures sized { AreSized (M.layout mapping.now) scratch.new.items }
{
    put_byte(scratch, place, byte);
    write_bits(mapping, scratch, row, leaf, value);
    byte_at(scratch, place)
}

// Makes the bits of a leaf in a row those of a value, as many as it has. All other bits stay.
fn write_bits<M: Mapping>(mapping: &M, blobs: &mut BlobList, slot: u64, cell: usize, value: i128)
    requires slot_in { slot < M.slot_count mapping.now }
    requires cell_in { cell < length (M.cell_list mapping.now) }
    requires sized { AreSized (M.layout mapping.now) blobs.old.items }
    ensures bits { IsWrite (M.layout mapping.now) slot cell value (bit_in blobs.old.items) (bit_in blobs.new.items) }
    ensures lengths { map length blobs.new.items ≡ map length blobs.old.items }
{
    let hold = mapping.hold(cell);
    let pieces = mapping.locate(slot, cell);
    write_pieces(blobs, pieces.as_slice(), encode(hold, held(hold, value)));
}
