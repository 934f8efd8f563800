ghost use Rattle.std.specs.Prelude.{ℕ, ◌≡◌, ◌*◌, ◌^◌, ◌<◌, ◌≤◌, ◌⊎◌, ◌↔◌, true, IfOk, IfErr, OnOk, IsErrOf, List, length, take};
ghost use Rattle.std.specs.List.{sum};
ghost use Rattle.places.specs.Prelude.{IsTooBig, narrow_holds, widths_in, Owner, bit_aos};
ghost use Rattle.places.specs.declared.piece.Cell.{Cell};
ghost use Rattle.places.specs.declared.piece.Hold.{Hold};
ghost use Rattle.map_bits.specs.Bits.{LieInBits, AreHolds, has_bad_width};
ghost use Rattle.map_bits.specs.BitLaws.{bit_aos_laws};

use crate::narrow::{has_bad_width, narrow_holds};
use crate::padding::padded;
use crate::part::lay_out;
use places::{
    Cell, CellList, Hold, MAX_BLOB_BITS, MAX_SLOTS, Mapping, NewMapping, PieceRule, Pieces, Ruled,
};
use record_dim::LeafType;
use std::alloc::Global;

/// An array of structs packed to the bit: one blob, slot after slot, each cell in at most its number of bits. Its end is padded to 64 bits.
#[derive(Drop)]
pub struct BitAos {
    slots: u64,
    cells: Vec<Cell>,
    /// How each cell is stored.
    holds: Vec<Hold>,
    /// Where each cell begins, in bits from the slot's beginning on. Empty where there is no slot.
    offsets: Vec<u64>,
    /// The bits of one slot.
    stride: u64,
    ghost held: { AreHolds cells.items holds.items },
    ghost stored: { 0 < slots → LieInBits (widths_in holds.items) offsets.items stride },
    ghost bound: { slots * stride ≤ 2 ^ 31 },
}

impl BitAos {
    /// The mapping of `slots` slots of these cells, each in at most its own number of bits. `Width` comes exactly where one is not 1 to 64,
    /// and else `TooBig` where there are more than 2^24 slots, or more than 2^28 bytes with the padding.
    pub fn new(
        alloc: Global,
        cells: &CellList,
        slots: u64,
        widths: &[u32],
    ) -> Result<BitAos, NewMapping>
        requires { length widths.now ≡ length cells.now }
        ensures slots { IfOk result (λ m. ⟦<BitAos as Mapping>⟧.slot_count m ≡ slots) }
        ensures cells { IfOk result (λ m. ⟦<BitAos as Mapping>⟧.cell_list m ≡ cells.now) }
        ensures holds { IfOk result (λ m. ⟦<BitAos as Mapping>⟧.hold_list m ≡ narrow_holds widths.now cells.now) }
        ensures layout { IfOk result (λ m. ⟦<BitAos as Mapping>⟧.layout m ≡ bit_aos slots (widths_in (narrow_holds widths.now cells.now))) }
        ensures width { IsErrOf result NewMapping.Width ↔ (has_bad_width widths.now ≡ true) }

        // Only want of memory comes before the limits.
        ensures fits { OnOk result (IsTooBig slots (bit_aos slots (widths_in (narrow_holds widths.now cells.now))) → ⊥) }
        ensures too_big { IsErrOf result NewMapping.TooBig → IsTooBig slots (bit_aos slots (widths_in (narrow_holds widths.now cells.now))) }
        ensures only { IfErr result (λ e. (e ≡ NewMapping.Width) ⊎ ((e ≡ NewMapping.TooBig) ⊎ (e ≡ NewMapping.NoMemory))) }
    {
        if has_bad_width(widths) {
            return Err(NewMapping::Width);
        }
        if slots > MAX_SLOTS {
            return Err(NewMapping::TooBig);
        }
        let kept = Vec::from_slice(alloc, cells.as_slice())?;
        let holds = narrow_holds(alloc, cells.as_slice(), widths)?;
        if slots == 0 {
            return Ok(BitAos {
                slots,
                cells: kept,
                holds,
                offsets: Vec::new(alloc),
                stride: 0,
            });
        }
        let part = lay_out(alloc, &holds)?;
        if padded(slots * part.size) > MAX_BLOB_BITS {
            return Err(NewMapping::TooBig);
        }
        Ok(BitAos {
            slots,
            cells: kept,
            holds,
            offsets: part.offsets,
            stride: part.size,
        })
    }

    /// Where a cell begins in its slot; 0 where there is no slot.
    fn offset(&self, cell: usize) -> u64
        requires { cell < length self.now.cells.items }
        ensures place { 0 < self.now.slots → result ≡ sum (take cell (widths_in self.now.holds.items)) }
        ensures low { result ≤ 2 ^ 31 }
    {
        if self.slots == 0 {
            return 0;
        }
        self.offsets[cell]
    }
}

impl Ruled for BitAos {
    ghost lane_count = { λ m. 0 };

    fn rule(&self, cell: usize) -> PieceRule {
        PieceRule {
            blob: 0,
            base: self.offset(cell),
            lanes: 1,
            block: self.stride,
            lane: 0,
            bits: self.holds[cell].width,
        }
    }
}

impl Mapping for BitAos {
    ghost layout = { λ m. bit_aos m.slots (widths_in m.holds.items) };

    ghost slot_count = { λ m. m.slots };

    ghost cell_list = { λ m. m.cells.items };

    ghost hold_list = { λ m. m.holds.items };

    fn slots(&self) -> u64 {
        self.slots
    }

    fn cells(&self) -> usize {
        self.cells.len()
    }

    fn kind(&self, cell: usize) -> LeafType {
        self.cells[cell].kind
    }

    fn hold(&self, cell: usize) -> Hold {
        self.holds[cell]
    }

    fn blob_count(&self) -> usize {
        1
    }

    fn blob_bytes(&self, _blob: usize) -> u64 {
        padded(self.slots * self.stride) / 8
    }

    fn locate(&self, slot: u64, cell: usize) -> Pieces {
        self.rule(cell).pieces(slot)
    }

    ghost laws = { λ m. bit_aos_laws m.slots (widths_in m.holds.items) m.held.low m.held.some };

    ghost holds_cells = { λ m. m.held.each };
}
