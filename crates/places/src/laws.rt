ghost use Rattle.std.specs.Prelude.{ℕ, ◌≡◌, ◌≤◌, ◌<◌, length, map, slice_index, sum_by, All};
ghost use Rattle.places.specs.Lawful.{IsLaidOut, IsLocated, IsPiece};
ghost use Rattle.places.specs.Writes.{WritesKeepOthers, WritesReadBack};

use crate::mapping::Mapping;
use crate::piece::Pieces;

/// Any mapping keeps the laws of a layout, and has a hold for each cell. It does nothing: its contract is the law.
pub fn laws_of<M: Mapping>(_mapping: &M)
    ensures lawful { IsLaidOut (M.layout _mapping.now) (M.slot_count _mapping.now) (map (λ h. h.width) (M.hold_list _mapping.now)) }
    ensures paired { length (M.hold_list _mapping.now) ≡ length (M.cell_list _mapping.now) }
{}

/// Under any mapping, a write to one cell of one slot changes no other cell. It does nothing: its contract is the law.
pub fn writes_keep_others<M: Mapping>(_mapping: &M)
    ensures { WritesKeepOthers (M.layout _mapping.now) }
{}

/// Under any mapping, a value in the range of a cell's hold is read back where it was written. It does nothing: its contract is the law.
pub fn writes_read_back<M: Mapping>(_mapping: &M)
    ensures { WritesReadBack (M.layout _mapping.now) (M.slot_count _mapping.now) (M.hold_list _mapping.now) }
{}

/// Under any mapping, a cell lies in at most 8 pieces, each within its blob, which have as many bits together as its hold.
pub fn pieces_of<M: Mapping>(mapping: &M, slot: u64, cell: usize) -> Pieces
    requires slot_in { slot < M.slot_count mapping.now }
    requires cell_in { cell < length (M.cell_list mapping.now) }
    ensures located { IsLocated (M.layout mapping.now) slot cell (slice_index (map (λ h. h.width) (M.hold_list mapping.now)) cell) result.items }
    ensures few { length result.items ≤ 8 }
    ensures within { All (IsPiece (M.layout mapping.now)) result.items }
    ensures bits { sum_by (λ piece. piece.bits) result.items ≡ slice_index (map (λ h. h.width) (M.hold_list mapping.now)) cell }
{
    mapping.locate(slot, cell)
}
