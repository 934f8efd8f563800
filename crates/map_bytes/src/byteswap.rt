ghost use Rattle.std.specs.Prelude.{ℕ, ◌≡◌, ◌⊎◌, ◌↔◌, IfOk, IfErr, IsErrOf, true, List, map};
ghost use Rattle.map_bytes.specs.Imports.{widths_of, full_holds, Owner, byteswap, length-full, Cell, Hold};
ghost use Rattle.map_bytes.specs.Cells.{differ};
ghost use Rattle.map_bytes.specs.SwapLaws.{byteswap_laws};

use crate::full::has_other_hold;
use crate::swap::swap_pieces;
use places::{Cell, CellList, Hold, Mapping, NewMapping, Pieces};
use record_dim::LeafType;
use std::alloc::Global;

/// A mapping that stores each cell with its bytes in reverse order.
#[derive(Drop)]
pub struct Byteswap<M: Mapping> {
    cells: Vec<Cell>,
    inner: M,
    ghost full: { M.hold_list inner ≡ full_holds cells.items },
}

impl<M: Mapping> Byteswap<M> {
    /// The mapping of these cells over an inner one of the same types. `NotFull` comes exactly where the inner one stores some cell in
    /// another sign or width than its type's; the inner one is dropped then, and where memory is wanting.
    pub fn new(alloc: Global, cells: &CellList, inner: M) -> Result<Byteswap<M>, NewMapping>
        requires kinds { map (λ c. c.kind) (M.cell_list inner) ≡ map (λ c. c.kind) cells.now }
        ensures slots { IfOk result (λ m. ⟦<Byteswap<M> as Mapping>⟧.slot_count m ≡ M.slot_count inner) }
        ensures cells { IfOk result (λ m. ⟦<Byteswap<M> as Mapping>⟧.cell_list m ≡ cells.now) }
        ensures holds { IfOk result (λ m. ⟦<Byteswap<M> as Mapping>⟧.hold_list m ≡ full_holds cells.now) }
        ensures layout { IfOk result (λ m. ⟦<Byteswap<M> as Mapping>⟧.layout m ≡ byteswap (widths_of cells.now) (M.layout inner)) }
        ensures not_full { IsErrOf result NewMapping.NotFull ↔ (differ (M.hold_list inner) (full_holds cells.now) ≡ true) }
        ensures only { IfErr result (λ e. (e ≡ NewMapping.NotFull) ⊎ (e ≡ NewMapping.NoMemory)) }
    {
        if has_other_hold(&inner) {
            return Err(NewMapping::NotFull);
        }
        let cells = Vec::from_slice(alloc, cells.as_slice())?;
        Ok(Byteswap { cells, inner })
    }
}

impl<M: Mapping> Mapping for Byteswap<M> {
    ghost layout = { λ m. byteswap (widths_of m.cells.items) (M.layout m.inner) };

    ghost slot_count = { λ m. M.slot_count m.inner };

    ghost cell_list = { λ m. m.cells.items };

    ghost hold_list = { λ m. full_holds m.cells.items };

    fn slots(&self) -> u64 {
        self.inner.slots()
    }

    fn cells(&self) -> usize {
        self.cells.len()
    }

    fn kind(&self, cell: usize) -> LeafType {
        self.cells[cell].kind
    }

    fn hold(&self, cell: usize) -> Hold {
        Hold::of(self.cells[cell].kind)
    }

    fn blob_count(&self) -> usize {
        self.inner.blob_count()
    }

    fn blob_bytes(&self, blob: usize) -> u64 {
        self.inner.blob_bytes(blob)
    }

    fn locate(&self, slot: u64, cell: usize) -> Pieces {
        swap_pieces(&self.inner.locate(slot, cell))
    }

    ghost laws = { λ m. byteswap_laws (M.layout m.inner) (M.slot_count m.inner) m.cells.items (M.hold_list m.inner) m.full (M.laws m.inner) };

    ghost holds_cells = { λ m. length-full m.cells.items };
}
