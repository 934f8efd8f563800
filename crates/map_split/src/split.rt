ghost use Rattle.std.specs.Prelude.{ℕ, ◌≡◌, ◌+◌, ◌^◌, ◌<◌, ◌⊎◌, ◌↔◌, true, not, IsTrue, IfOk, IfErr, OnOk, IsErrOf, length};
ghost use Rattle.std.specs.List.{count_by};
ghost use Rattle.places.specs.Prelude.{split};
ghost use Rattle.map_split.specs.Sides.{first_of, side_rest, merged, is_one_sided, IsTooLong};
ghost use Rattle.map_split.specs.SplitLaws.{split_laws, length-cells};

use crate::bytes::bytes_left;
use crate::shift::shift_blobs;
use crate::sides::{Seat, is_one_sided, seat_of};
use places::{Cell, CellList, Hold, MAX_BLOB_BYTES, Mapping, NewMapping, Pieces};
use record_dim::LeafType;
use std::alloc::Global;

/// Cells that go to two mappings: the blobs of the first side, then those of the rest.
#[derive(Drop)]
pub struct Split<A: Mapping, B: Mapping> {
    first: A,
    rest: B,
    cells: Vec<Cell>,
    /// Whether each cell goes to the first side.
    side: Vec<bool>,
    ghost slots: { A.slot_count first ≡ B.slot_count rest },
    ghost each: { length side.items ≡ length cells.items },
    ghost first_cells: { length (A.hold_list first) ≡ count_by (λ s. s) side.items },
    ghost rest_cells: { length (B.hold_list rest) ≡ count_by not side.items },
    ghost blobs: { length (A.layout first) + length (B.layout rest) < 2 ^ 64 },
}

impl<A: Mapping, B: Mapping> Split<A, B> {
    /// The mapping of `cells` whose first side, where `first_side` is true, is mapped by `first`, and whose others by `rest`. `Side`
    /// comes exactly where all or none are true, and else `TooBig` where both sides together have more than 2^28 bytes. On any refusal
    /// both sides are dropped.
    pub fn new(
        alloc: Global,
        cells: &CellList,
        first_side: &[bool],
        first: A,
        rest: B,
    ) -> Result<Split<A, B>, NewMapping>
        requires each { length first_side.now ≡ length cells.now }
        requires slots { A.slot_count first ≡ B.slot_count rest }
        requires first_cells { A.cell_list first ≡ first_of first_side.now cells.now }
        requires rest_cells { B.cell_list rest ≡ side_rest first_side.now cells.now }
        requires blobs { length (A.layout first) + length (B.layout rest) < 2 ^ 64 }
        ensures slots { IfOk result (λ m. ⟦<Split<A, B> as Mapping>⟧.slot_count m ≡ A.slot_count first) }
        ensures cells { IfOk result (λ m. ⟦<Split<A, B> as Mapping>⟧.cell_list m ≡ cells.now) }
        ensures holds { IfOk result (λ m. ⟦<Split<A, B> as Mapping>⟧.hold_list m ≡ merged first_side.now (A.hold_list first) (B.hold_list rest)) }
        ensures layout { IfOk result (λ m. ⟦<Split<A, B> as Mapping>⟧.layout m ≡ split first_side.now (A.layout first) (B.layout rest)) }
        ensures side { IsErrOf result NewMapping.Side ↔ (is_one_sided first_side.now ≡ true) }

        // Only want of memory comes before the limit.
        ensures fits { OnOk result (IsTooLong (A.layout first) (B.layout rest) → ⊥) }
        ensures too_big { IsErrOf result NewMapping.TooBig → IsTooLong (A.layout first) (B.layout rest) }
        ensures only { IfErr result (λ e. (e ≡ NewMapping.Side) ⊎ ((e ≡ NewMapping.TooBig) ⊎ (e ≡ NewMapping.NoMemory))) }
    {
        if is_one_sided(first_side) {
            return Err(NewMapping::Side);
        }
        if is_too_big(&first, &rest) {
            return Err(NewMapping::TooBig);
        }
        let kept = Vec::from_slice(alloc, cells.as_slice())?;
        let side = Vec::from_slice(alloc, first_side)?;
        Ok(Split {
            first,
            rest,
            cells: kept,
            side,
        })
    }
}

/// Whether the blobs of both mappings have more than 2^28 bytes together.
fn is_too_big<A: Mapping, B: Mapping>(first: &A, rest: &B) -> bool
    ensures { IsTrue result ↔ IsTooLong (A.layout first.now) (B.layout rest.now) }
{
    match bytes_left(first, MAX_BLOB_BYTES) {
        Some(left) => bytes_left(rest, left).is_none(),
        None => true,
    }
}

impl<A: Mapping, B: Mapping> Mapping for Split<A, B> {
    ghost layout = { λ m. split m.side.items (A.layout m.first) (B.layout m.rest) };

    ghost slot_count = { λ m. A.slot_count m.first };

    ghost cell_list = { λ m. m.cells.items };

    ghost hold_list = { λ m. merged m.side.items (A.hold_list m.first) (B.hold_list m.rest) };

    fn slots(&self) -> u64 {
        self.first.slots()
    }

    fn cells(&self) -> usize {
        self.cells.len()
    }

    fn kind(&self, cell: usize) -> LeafType {
        self.cells[cell].kind
    }

    fn hold(&self, cell: usize) -> Hold {
        match seat_of(&self.side, cell) {
            Seat::First(number) => self.first.hold(number),
            Seat::Rest(number) => self.rest.hold(number),
        }
    }

    fn blob_count(&self) -> usize {
        self.first.blob_count() + self.rest.blob_count()
    }

    fn blob_bytes(&self, blob: usize) -> u64 {
        let before = self.first.blob_count();
        if blob < before {
            self.first.blob_bytes(blob)
        } else {
            self.rest.blob_bytes(blob - before)
        }
    }

    fn locate(&self, slot: u64, cell: usize) -> Pieces {
        match seat_of(&self.side, cell) {
            Seat::First(number) => self.first.locate(slot, number),
            Seat::Rest(number) => {
                shift_blobs(&self.rest.locate(slot, number), self.first.blob_count())
            }
        }
    }

    ghost laws = { λ m. split_laws m.side.items (A.layout m.first) (B.layout m.rest) (A.slot_count m.first) (B.slot_count m.rest) (A.hold_list m.first)
        (B.hold_list m.rest) (A.laws m.first) (B.laws m.rest) m.slots m.first_cells m.rest_cells };

    ghost holds_cells = { λ m. length-cells m.side.items (A.hold_list m.first) (B.hold_list m.rest) m.cells.items m.each m.first_cells m.rest_cells };
}
