ghost use Rattle.std.specs.Prelude.{◌≡◌, ◌<◌, ◌∷◌, [], length, map, slice_index};
ghost use Rattle.piece_bits.specs.Imports.{IsIn, entry, IsLocated};
ghost use Rattle.piece_bits.specs.Tables.{AreSized, AreLaid, hold_at, table_in, with_entry};

use crate::pieces::{read_pieces, write_pieces};
use crate::value::{decode, encode};
use blobs::Blob;
use places::{Hold, Mapping, Piece};

/// The value of a cell in a slot, read off blobs of the mapping's lengths, whose padding may be anything. The pieces come by value: where
/// there is one, `read_piece` is shorter.
#[inline(never)]
pub fn read_entry<M: Mapping>(map: &M, blobs: &[Blob], slot: u64, cell: usize) -> i128
    requires slot_in { slot < M.slot_count map.now }
    requires cell_in { cell < length (M.cell_list map.now) }
    requires sized { AreSized (M.layout map.now) blobs.now }
    ensures { result
        ≡ entry (table_in (M.layout map.now) (M.slot_count map.now) (M.hold_list map.now) blobs.now) slot cell }
{
    let hold = map.hold(cell);
    let pieces = map.locate(slot, cell);
    decode(hold, read_pieces(blobs, pieces.as_slice()))
}

/// Makes the value of a cell in a slot this one. All other values stay, and padding stays 0. The pieces come by value: where there is
/// one, `write_piece` is shorter.
#[inline(never)]
pub fn write_entry<M: Mapping>(map: &M, blobs: &mut Vec<Blob>, slot: u64, cell: usize, value: i128)
    requires slot_in { slot < M.slot_count map.now }
    requires cell_in { cell < length (M.cell_list map.now) }
    requires laid { AreLaid (M.layout map.now) blobs.old.items }
    requires held { let hold = hold_at (M.hold_list map.now) cell in IsIn hold.signed hold.width value }
    ensures table { table_in (M.layout map.now) (M.slot_count map.now) (M.hold_list map.now) blobs.new.items
        ≡ with_entry (table_in (M.layout map.now) (M.slot_count map.now) (M.hold_list map.now) blobs.old.items) slot cell value }
    ensures still_laid { AreLaid (M.layout map.now) blobs.new.items }
{
    let hold = map.hold(cell);
    let pieces = map.locate(slot, cell);
    write_pieces(blobs, pieces.as_slice(), encode(hold, value));
}

/// The value of a cell in a slot that lies in one piece.
#[inline(always)]
pub fn read_piece<M: Mapping>(
    mapping: &M,
    blobs: &[Blob],
    slot: u64,
    cell: usize,
    piece: Piece,
) -> i128
    requires slot_in { slot < M.slot_count mapping.now }
    requires cell_in { cell < length (M.cell_list mapping.now) }
    requires laid { AreLaid (M.layout mapping.now) blobs.now }
    requires located { IsLocated (M.layout mapping.now) slot cell (slice_index (map (λ h. h.width) (M.hold_list mapping.now)) cell) (piece ∷ []) }
    ensures { result
        ≡ entry (table_in (M.layout mapping.now) (M.slot_count mapping.now) (M.hold_list mapping.now) blobs.now) slot cell }
{
    let hold = mapping.hold(cell);
    // The piece has the bits of the hold, and their number is at hand.
    let read = Hold {
        signed: hold.signed,
        width: piece.bits,
    };
    decode(read, blobs[piece.blob].bits(piece.bit, piece.bits))
}

/// Makes the value of a cell in a slot that lies in one piece this one. All other values stay, and padding stays 0.
#[inline(always)]
pub fn write_piece<M: Mapping>(
    mapping: &M,
    blobs: &mut Vec<Blob>,
    slot: u64,
    cell: usize,
    piece: Piece,
    value: i128,
)
    requires slot_in { slot < M.slot_count mapping.now }
    requires cell_in { cell < length (M.cell_list mapping.now) }
    requires laid { AreLaid (M.layout mapping.now) blobs.old.items }
    requires located { IsLocated (M.layout mapping.now) slot cell (slice_index (map (λ h. h.width) (M.hold_list mapping.now)) cell) (piece ∷ []) }
    requires held { let hold = hold_at (M.hold_list mapping.now) cell in IsIn hold.signed hold.width value }
    ensures table { table_in (M.layout mapping.now) (M.slot_count mapping.now) (M.hold_list mapping.now) blobs.new.items
        ≡ with_entry (table_in (M.layout mapping.now) (M.slot_count mapping.now) (M.hold_list mapping.now) blobs.old.items) slot cell value }
    ensures still_laid { AreLaid (M.layout mapping.now) blobs.new.items }
{
    let hold = mapping.hold(cell);
    let written = Hold {
        signed: hold.signed,
        width: piece.bits,
    };
    blobs[piece.blob].put_bits(piece.bit, piece.bits, encode(written, value));
}
