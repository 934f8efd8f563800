ghost use Rattle.std.specs.Prelude.{ℕ, ◌≡◌, ◌*◌, ◌^◌, ◌<◌, ◌≤◌, ◌⊎◌, IfOk, IfErr, OnOk, IsErrOf, List, length, slice_index};
ghost use Rattle.places.specs.Prelude.{widths_of, full_holds, IsTooBig, Owner, aos_layout, length-full};
ghost use Rattle.places.specs.declared.piece.Cell.{Cell};
ghost use Rattle.places.specs.declared.piece.Hold.{Hold};
ghost use Rattle.map_aos.specs.Aos.{LieInParts};
ghost use Rattle.map_aos.specs.AosLaws.{aos_laws};

use crate::part::lay_out;
use places::{
    AosForm, Cell, CellList, Hold, MAX_BLOB_BITS, MAX_SLOTS, Mapping, NewMapping, PieceRule,
    Pieces, Ruled,
};
use record_dim::LeafType;
use std::alloc::Global;

/// An array of structs: one blob, slot after slot.
#[derive(Drop)]
pub struct Aos {
    form: AosForm,
    slots: u64,
    cells: Vec<Cell>,
    /// Where each cell begins, in bits from the slot's beginning on. Empty where there is no slot.
    offsets: Vec<u64>,
    /// The bits of one slot.
    stride: u64,
    ghost stored: { 0 < slots → LieInParts form (widths_of cells.items) offsets.items stride },
    ghost bound: { slots * stride ≤ 2 ^ 31 },
}

impl Aos {
    /// The mapping of `slots` slots of these cells. `TooBig` comes exactly where there are more than 2^24 slots or more than 2^28 bytes.
    pub fn new(
        alloc: Global,
        cells: &CellList,
        slots: u64,
        form: AosForm,
    ) -> Result<Aos, NewMapping>
        ensures slots { IfOk result (λ m. ⟦<Aos as Mapping>⟧.slot_count m ≡ slots) }
        ensures cells { IfOk result (λ m. ⟦<Aos as Mapping>⟧.cell_list m ≡ cells.now) }
        ensures holds { IfOk result (λ m. ⟦<Aos as Mapping>⟧.hold_list m ≡ full_holds cells.now) }
        ensures layout { IfOk result (λ m. ⟦<Aos as Mapping>⟧.layout m ≡ aos_layout form slots (widths_of cells.now)) }

        // Only want of memory comes before the limits.
        ensures fits { OnOk result (IsTooBig slots (aos_layout form slots (widths_of cells.now)) → ⊥) }
        ensures too_big { IsErrOf result NewMapping.TooBig → IsTooBig slots (aos_layout form slots (widths_of cells.now)) }
        ensures only { IfErr result (λ e. (e ≡ NewMapping.TooBig) ⊎ (e ≡ NewMapping.NoMemory)) }
    {
        if slots > MAX_SLOTS {
            return Err(NewMapping::TooBig);
        }
        let kept = Vec::from_slice(alloc, cells.as_slice())?;
        if slots == 0 {
            return Ok(Aos {
                form,
                slots,
                cells: kept,
                offsets: Vec::new(alloc),
                stride: 0,
            });
        }
        let part = lay_out(alloc, &kept, form)?;
        if slots * part.size > MAX_BLOB_BITS {
            return Err(NewMapping::TooBig);
        }
        Ok(Aos {
            form,
            slots,
            cells: kept,
            offsets: part.offsets,
            stride: part.size,
        })
    }

    /// Where a cell begins in its slot; 0 where there is no slot.
    fn offset(&self, cell: usize) -> u64
        requires { cell < length self.now.cells.items }
        ensures place { 0 < self.now.slots → result ≡ slice_index self.now.offsets.items cell }
        ensures low { result ≤ 2 ^ 31 }
    {
        if self.slots == 0 {
            return 0;
        }
        self.offsets[cell]
    }
}

impl Ruled for Aos {
    ghost lane_count = { λ m. 0 };

    fn rule(&self, cell: usize) -> PieceRule {
        PieceRule {
            blob: 0,
            base: self.offset(cell),
            lanes: 1,
            block: self.stride,
            lane: 0,
            bits: self.cells[cell].kind.width(),
        }
    }
}

impl Mapping for Aos {
    ghost layout = { λ m. aos_layout m.form m.slots (widths_of m.cells.items) };

    ghost slot_count = { λ m. m.slots };

    ghost cell_list = { λ m. m.cells.items };

    ghost hold_list = { λ m. full_holds m.cells.items };

    fn slots(&self) -> u64 {
        self.slots
    }

    fn cells(&self) -> usize {
        self.cells.len()
    }

    fn kind(&self, cell: usize) -> LeafType {
        self.cells[cell].kind
    }

    fn hold(&self, cell: usize) -> Hold {
        Hold::of(self.cells[cell].kind)
    }

    fn blob_count(&self) -> usize {
        1
    }

    fn blob_bytes(&self, _blob: usize) -> u64 {
        self.slots * self.stride / 8
    }

    fn locate(&self, slot: u64, cell: usize) -> Pieces {
        self.rule(cell).pieces(slot)
    }

    ghost laws = { λ m. aos_laws m.form m.slots m.cells.items };

    ghost holds_cells = { λ m. length-full m.cells.items };
}
