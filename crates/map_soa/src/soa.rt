ghost use Rattle.std.specs.Prelude.{ℕ, ◌≡◌, ◌%◌, ◌^◌, ◌<◌, ◌≤◌, ◌⊎◌, IfOk, IfErr, OnOk, IsErrOf, List, length, slice_index};
ghost use Rattle.places.specs.Prelude.{widths_of, full_holds, IsTooBig, Owner, soa_layout, length-full};
ghost use Rattle.places.specs.declared.piece.Cell.{Cell};
ghost use Rattle.places.specs.declared.piece.Hold.{Hold};
ghost use Rattle.map_soa.specs.Soa.{LieInArrays, blob_of};
ghost use Rattle.map_soa.specs.SoaLaws.{soa_laws};

use crate::arrays::lay_out;
use places::{
    Cell, CellList, Hold, MAX_SLOTS, Mapping, NewMapping, PieceRule, Pieces, Ruled, SoaForm,
};
use record_dim::LeafType;
use std::alloc::Global;

/// A struct of arrays: for each cell its array, slot after slot.
#[derive(Drop)]
pub struct Soa {
    form: SoaForm,
    slots: u64,
    cells: Vec<Cell>,
    /// Where the array of each cell begins, in bits from its blob's beginning on.
    offsets: Vec<u64>,
    /// The bits of all blobs.
    size: u64,
    ghost stored: { LieInArrays form slots (widths_of cells.items) offsets.items size },
    ghost bound: { size ≤ 2 ^ 31 },
}

impl Soa {
    /// The mapping of `slots` slots of these cells. `TooBig` comes exactly where there are more than 2^24 slots or more than 2^28 bytes.
    pub fn new(
        alloc: Global,
        cells: &CellList,
        slots: u64,
        form: SoaForm,
    ) -> Result<Soa, NewMapping>
        ensures slots { IfOk result (λ m. ⟦<Soa as Mapping>⟧.slot_count m ≡ slots) }
        ensures dense { IfOk result (λ m. ⟦<Soa as Ruled>⟧.lane_count m ≡ slots) }
        ensures cells { IfOk result (λ m. ⟦<Soa as Mapping>⟧.cell_list m ≡ cells.now) }
        ensures holds { IfOk result (λ m. ⟦<Soa as Mapping>⟧.hold_list m ≡ full_holds cells.now) }
        ensures layout { IfOk result (λ m. ⟦<Soa as Mapping>⟧.layout m ≡ soa_layout form slots (widths_of cells.now)) }

        // Only want of memory comes before the limits.
        ensures fits { OnOk result (IsTooBig slots (soa_layout form slots (widths_of cells.now)) → ⊥) }
        ensures too_big { IsErrOf result NewMapping.TooBig → IsTooBig slots (soa_layout form slots (widths_of cells.now)) }
        ensures only { IfErr result (λ e. (e ≡ NewMapping.TooBig) ⊎ (e ≡ NewMapping.NoMemory)) }
    {
        if slots > MAX_SLOTS {
            return Err(NewMapping::TooBig);
        }
        let kept = Vec::from_slice(alloc, cells.as_slice())?;
        let arrays = lay_out(alloc, &kept, slots, form)?;
        Ok(Soa {
            form,
            slots,
            cells: kept,
            offsets: arrays.offsets,
            size: arrays.size,
        })
    }

    /// Where the array of a cell begins in its blob; 0 where there is no slot.
    fn offset(&self, cell: usize) -> u64
        requires { cell < length self.now.cells.items }
        ensures place { 0 < self.now.slots → result ≡ slice_index self.now.offsets.items cell }
        ensures bytes { result % 8 ≡ 0 }
        ensures low { result ≤ 2 ^ 31 }
    {
        if self.slots == 0 {
            return 0;
        }
        self.offsets[cell]
    }

    /// The blob in which the array of a cell lies.
    fn blob(&self, cell: usize) -> usize
        ensures { result ≡ blob_of self.now.form cell }
    {
        match self.form {
            SoaForm::Single | SoaForm::Aligned => 0,
            SoaForm::Multi => cell,
        }
    }
}

impl Ruled for Soa {
    ghost lane_count = { λ m. m.slots };

    fn rule(&self, cell: usize) -> PieceRule {
        let bits = self.cells[cell].kind.width();
        PieceRule {
            blob: self.blob(cell),
            base: self.offset(cell),
            lanes: 1,
            block: u64::from(bits),
            lane: 0,
            bits,
        }
    }
}

impl Mapping for Soa {
    ghost layout = { λ m. soa_layout m.form m.slots (widths_of m.cells.items) };

    ghost slot_count = { λ m. m.slots };

    ghost cell_list = { λ m. m.cells.items };

    ghost hold_list = { λ m. full_holds m.cells.items };

    fn slots(&self) -> u64 {
        self.slots
    }

    fn cells(&self) -> usize {
        self.cells.len()
    }

    fn kind(&self, cell: usize) -> LeafType {
        self.cells[cell].kind
    }

    fn hold(&self, cell: usize) -> Hold {
        Hold::of(self.cells[cell].kind)
    }

    fn blob_count(&self) -> usize {
        match self.form {
            SoaForm::Single | SoaForm::Aligned => 1,
            SoaForm::Multi => self.cells.len(),
        }
    }

    fn blob_bytes(&self, blob: usize) -> u64 {
        match self.form {
            SoaForm::Single | SoaForm::Aligned => self.size / 8,
            SoaForm::Multi => self.slots * u64::from(self.cells[blob].kind.width()) / 8,
        }
    }

    fn locate(&self, slot: u64, cell: usize) -> Pieces {
        self.rule(cell).pieces(slot)
    }

    ghost laws = { λ m. soa_laws m.form m.slots m.cells.items };

    ghost holds_cells = { λ m. length-full m.cells.items };
}
