ghost use Rattle.std.specs.Prelude.{ℕ, ◌≡◌, IfOk, IfErr, List, length};
ghost use Rattle.map_bytes.specs.Imports.{Owner, Cell, Hold};
ghost use Rattle.map_bytes.specs.Cells.{changed};
ghost use Rattle.map_bytes.specs.ChangeLaws.{changed_holds};

use places::{Cell, CellList, Hold, Mapping, NewMapping, Pieces};
use record_dim::LeafType;
use std::alloc::Global;

/// A mapping that stores each cell of one type as an inner one stores a cell of another, and each other cell as the inner one stores it.
#[derive(Drop)]
pub struct Change<M: Mapping> {
    cells: Vec<Cell>,
    inner: M,
    ghost each: { length (M.cell_list inner) ≡ length cells.items },
}

impl<M: Mapping> Change<M> {
    /// The mapping of these cells over an inner one of the cells with `to` in place of `from`. Only want of memory is refused; the inner
    /// one is dropped then.
    pub fn new(
        alloc: Global,
        cells: &CellList,
        from: LeafType,
        to: LeafType,
        inner: M,
    ) -> Result<Change<M>, NewMapping>
        requires whole { to ≡ LeafType.Bool → ⊥ }
        requires changed { M.cell_list inner ≡ changed from to cells.now }
        ensures slots { IfOk result (λ m. ⟦<Change<M> as Mapping>⟧.slot_count m ≡ M.slot_count inner) }
        ensures cells { IfOk result (λ m. ⟦<Change<M> as Mapping>⟧.cell_list m ≡ cells.now) }
        ensures holds { IfOk result (λ m. ⟦<Change<M> as Mapping>⟧.hold_list m ≡ M.hold_list inner) }
        ensures layout { IfOk result (λ m. ⟦<Change<M> as Mapping>⟧.layout m ≡ M.layout inner) }
        ensures only { IfErr result (λ e. e ≡ NewMapping.NoMemory) }
    {
        let cells = Vec::from_slice(alloc, cells.as_slice())?;
        Ok(Change { cells, inner })
    }
}

impl<M: Mapping> Mapping for Change<M> {
    ghost layout = { λ m. M.layout m.inner };

    ghost slot_count = { λ m. M.slot_count m.inner };

    ghost cell_list = { λ m. m.cells.items };

    ghost hold_list = { λ m. M.hold_list m.inner };

    fn slots(&self) -> u64 {
        self.inner.slots()
    }

    fn cells(&self) -> usize {
        self.cells.len()
    }

    fn kind(&self, cell: usize) -> LeafType {
        self.cells[cell].kind
    }

    fn hold(&self, cell: usize) -> Hold {
        self.inner.hold(cell)
    }

    fn blob_count(&self) -> usize {
        self.inner.blob_count()
    }

    fn blob_bytes(&self, blob: usize) -> u64 {
        self.inner.blob_bytes(blob)
    }

    fn locate(&self, slot: u64, cell: usize) -> Pieces {
        self.inner.locate(slot, cell)
    }

    ghost laws = { λ m. M.laws m.inner };

    ghost holds_cells = { λ m. changed_holds (M.cell_list m.inner) (M.hold_list m.inner) m.cells.items m.each (M.holds_cells m.inner) };
}
