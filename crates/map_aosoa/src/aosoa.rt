ghost use Rattle.std.specs.Prelude.{ℕ, ◌≡◌, ◌*◌, ◌%◌, ◌^◌, ◌<◌, ◌≤◌, ◌⊎◌, ◌↔◌, IfOk, IfErr, OnOk, IsErrOf, List, length, slice_index};
ghost use Rattle.places.specs.Prelude.{widths_of, full_holds, IsTooBig, Owner, aosoa, length-full};
ghost use Rattle.places.specs.declared.piece.Cell.{Cell};
ghost use Rattle.places.specs.declared.piece.Hold.{Hold};
ghost use Rattle.map_aosoa.specs.Aosoa.{LieInBlocks, block_count};
ghost use Rattle.map_aosoa.specs.AosoaLaws.{aosoa_laws};

use crate::block::{count_blocks, lay_out};
use places::{
    Cell, CellList, Hold, MAX_BLOB_BITS, MAX_LANES, MAX_SLOTS, Mapping, NewMapping, PieceRule,
    Pieces, Ruled,
};
use record_dim::LeafType;
use std::alloc::Global;

/// An array of structs of arrays: one blob of whole blocks. A block has `lanes` slots, cell after cell, and in a cell lane after lane.
#[derive(Drop)]
pub struct Aosoa {
    lanes: u32,
    slots: u64,
    cells: Vec<Cell>,
    /// Where the lanes of each cell begin, in bits from the block's beginning on. Empty where there is no slot.
    offsets: Vec<u64>,
    /// The bits of one block.
    stride: u64,
    ghost some: { 0 < lanes },
    ghost stored: { 0 < slots → LieInBlocks lanes (widths_of cells.items) offsets.items stride },
    ghost whole: { stride % 8 ≡ 0 },
    ghost bound: { block_count lanes slots * stride ≤ 2 ^ 31 },
}

impl Aosoa {
    /// The mapping of `slots` slots of these cells, in blocks of `lanes`. `Lanes` comes exactly where these are not 1 to 64,
    /// and else `TooBig` where there are more than 2^24 slots, or more than 2^28 bytes with the lanes that no slot has.
    pub fn new(alloc: Global, cells: &CellList, slots: u64, lanes: u32) -> Result<Aosoa, NewMapping>
        ensures slots { IfOk result (λ m. ⟦<Aosoa as Mapping>⟧.slot_count m ≡ slots) }
        ensures dense { IfOk result (λ m. ⟦<Aosoa as Ruled>⟧.lane_count m ≡ lanes) }
        ensures cells { IfOk result (λ m. ⟦<Aosoa as Mapping>⟧.cell_list m ≡ cells.now) }
        ensures holds { IfOk result (λ m. ⟦<Aosoa as Mapping>⟧.hold_list m ≡ full_holds cells.now) }
        ensures layout { IfOk result (λ m. ⟦<Aosoa as Mapping>⟧.layout m ≡ aosoa lanes slots (widths_of cells.now)) }
        ensures lanes { IsErrOf result NewMapping.Lanes ↔ ((lanes ≡ 0) ⊎ (64 < lanes)) }

        // Only want of memory comes before the limits.
        ensures fits { OnOk result (IsTooBig slots (aosoa lanes slots (widths_of cells.now)) → ⊥) }
        ensures too_big { IsErrOf result NewMapping.TooBig → IsTooBig slots (aosoa lanes slots (widths_of cells.now)) }
        ensures only { IfErr result (λ e. (e ≡ NewMapping.Lanes) ⊎ ((e ≡ NewMapping.TooBig) ⊎ (e ≡ NewMapping.NoMemory))) }
    {
        if !(1..=MAX_LANES).contains(&lanes) {
            return Err(NewMapping::Lanes);
        }
        if slots > MAX_SLOTS {
            return Err(NewMapping::TooBig);
        }
        let kept = Vec::from_slice(alloc, cells.as_slice())?;
        if slots == 0 {
            return Ok(Aosoa {
                lanes,
                slots,
                cells: kept,
                offsets: Vec::new(alloc),
                stride: 0,
            });
        }
        let block = lay_out(alloc, &kept, lanes)?;
        let bits = count_blocks(slots, lanes) * block.size;
        if bits > MAX_BLOB_BITS {
            return Err(NewMapping::TooBig);
        }
        Ok(Aosoa {
            lanes,
            slots,
            cells: kept,
            offsets: block.offsets,
            stride: block.size,
        })
    }

    /// Where the lanes of a cell begin in their block; 0 where there is no slot.
    fn offset(&self, cell: usize) -> u64
        requires { cell < length self.now.cells.items }
        ensures place { 0 < self.now.slots → result ≡ slice_index self.now.offsets.items cell }
        ensures bytes { result % 8 ≡ 0 }
        ensures low { result ≤ 2 ^ 31 }
    {
        if self.slots == 0 {
            return 0;
        }
        self.offsets[cell]
    }
}

impl Ruled for Aosoa {
    ghost lane_count = { λ m. m.lanes };

    fn rule(&self, cell: usize) -> PieceRule {
        let width = self.cells[cell].kind.width();
        PieceRule {
            blob: 0,
            base: self.offset(cell),
            lanes: u64::from(self.lanes),
            block: self.stride,
            lane: u64::from(width),
            bits: width,
        }
    }
}

impl Mapping for Aosoa {
    ghost layout = { λ m. aosoa m.lanes m.slots (widths_of m.cells.items) };

    ghost slot_count = { λ m. m.slots };

    ghost cell_list = { λ m. m.cells.items };

    ghost hold_list = { λ m. full_holds m.cells.items };

    fn slots(&self) -> u64 {
        self.slots
    }

    fn cells(&self) -> usize {
        self.cells.len()
    }

    fn kind(&self, cell: usize) -> LeafType {
        self.cells[cell].kind
    }

    fn hold(&self, cell: usize) -> Hold {
        Hold::of(self.cells[cell].kind)
    }

    fn blob_count(&self) -> usize {
        1
    }

    /// Whole blocks, with the lanes that no slot has.
    fn blob_bytes(&self, _blob: usize) -> u64 {
        count_blocks(self.slots, self.lanes) * self.stride / 8
    }

    fn locate(&self, slot: u64, cell: usize) -> Pieces {
        self.rule(cell).pieces(slot)
    }

    ghost laws = { λ m. aosoa_laws m.lanes m.slots m.cells.items m.some };

    ghost holds_cells = { λ m. length-full m.cells.items };
}
