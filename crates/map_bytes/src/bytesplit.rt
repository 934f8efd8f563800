ghost use Rattle.std.specs.Prelude.{ℕ, ◌≡◌, ◌+◌, ◌/◌, ◌^◌, ◌<◌, ◌≤◌, ◌⊎◌, ◌↔◌, IfOk, IfErr, IsErrOf, true, List, length, slice_index};
ghost use Rattle.map_bytes.specs.Imports.{widths_of, full_holds, Owner, bytesplit, length-full, Cell, Hold};
ghost use Rattle.map_bytes.specs.Cells.{differ, byte_cells_of, byte_count};
ghost use Rattle.map_bytes.specs.ByteCellsLaws.{bytes_before};
ghost use Rattle.map_bytes.specs.BytesplitLaws.{bytesplit_laws};

use crate::full::has_other_hold;
use crate::join::join_pieces;
use places::{Cell, CellList, Hold, Mapping, NewMapping, Pieces};
use record_dim::LeafType;
use std::alloc::Global;

/// How many bytes cells have.
fn count_bytes(cells: &[Cell]) -> usize
    requires room { byte_count cells.now < 2 ^ 64 }
    ensures { result ≡ byte_count cells.now }
{
    let mut count = 0;
    for cell in cells {
        count += (cell.kind.width() / 8) as usize;
    }
    count
}

/// A mapping that hands each byte of a cell, least significant first, to an inner one as a cell of its own.
#[derive(Drop)]
pub struct Bytesplit<M: Mapping> {
    cells: Vec<Cell>,
    inner: M,
    ghost full: { M.hold_list inner ≡ full_holds (byte_cells_of cells.items) },
}

impl<M: Mapping> Bytesplit<M> {
    /// The mapping of these cells over an inner one of their bytes. `NotFull` comes exactly where the inner one stores some byte in
    /// another sign or width; the inner one is dropped then, and where memory is wanting.
    pub fn new(alloc: Global, cells: &CellList, inner: M) -> Result<Bytesplit<M>, NewMapping>
        requires bytes { M.cell_list inner ≡ byte_cells_of cells.now }
        ensures slots { IfOk result (λ m. ⟦<Bytesplit<M> as Mapping>⟧.slot_count m ≡ M.slot_count inner) }
        ensures cells { IfOk result (λ m. ⟦<Bytesplit<M> as Mapping>⟧.cell_list m ≡ cells.now) }
        ensures holds { IfOk result (λ m. ⟦<Bytesplit<M> as Mapping>⟧.hold_list m ≡ full_holds cells.now) }
        ensures layout { IfOk result (λ m. ⟦<Bytesplit<M> as Mapping>⟧.layout m ≡ bytesplit (widths_of cells.now) (M.layout inner)) }
        ensures not_full { IsErrOf result NewMapping.NotFull ↔ (differ (M.hold_list inner) (full_holds (byte_cells_of cells.now)) ≡ true) }
        ensures only { IfErr result (λ e. (e ≡ NewMapping.NotFull) ⊎ (e ≡ NewMapping.NoMemory)) }
    {
        if has_other_hold(&inner) {
            return Err(NewMapping::NotFull);
        }
        let cells = Vec::from_slice(alloc, cells.as_slice())?;
        Ok(Bytesplit { cells, inner })
    }

    /// Which of the inner cells is the first byte of a cell.
    fn first_byte(&self, cell: usize) -> usize
        requires { cell < length self.now.cells.items }
        ensures first { result ≡ bytes_before (widths_of self.now.cells.items) cell }
        ensures within { result + slice_index (widths_of self.now.cells.items) cell / 8 ≤ length (M.cell_list self.now.inner) }
        ensures fits { result + slice_index (widths_of self.now.cells.items) cell / 8 < 2 ^ 64 }
    {
        // The inner cells are counted, so the bytes before this cell are, too.
        let _bytes = self.inner.cells();
        count_bytes(&self.cells[..cell])
    }
}

impl<M: Mapping> Mapping for Bytesplit<M> {
    ghost layout = { λ m. bytesplit (widths_of m.cells.items) (M.layout m.inner) };

    ghost slot_count = { λ m. M.slot_count m.inner };

    ghost cell_list = { λ m. m.cells.items };

    ghost hold_list = { λ m. full_holds m.cells.items };

    fn slots(&self) -> u64 {
        self.inner.slots()
    }

    fn cells(&self) -> usize {
        self.cells.len()
    }

    fn kind(&self, cell: usize) -> LeafType {
        self.cells[cell].kind
    }

    fn hold(&self, cell: usize) -> Hold {
        Hold::of(self.cells[cell].kind)
    }

    fn blob_count(&self) -> usize {
        self.inner.blob_count()
    }

    fn blob_bytes(&self, blob: usize) -> u64 {
        self.inner.blob_bytes(blob)
    }

    /// One piece for each byte.
    fn locate(&self, slot: u64, cell: usize) -> Pieces {
        let first = self.first_byte(cell);
        let mut pieces = Pieces::new();
        for byte in 0..(self.cells[cell].kind.width() / 8) as usize {
            join_pieces(&mut pieces, &self.inner.locate(slot, first + byte));
        }
        pieces
    }

    ghost laws = { λ m. bytesplit_laws (M.layout m.inner) (M.slot_count m.inner) m.cells.items (M.hold_list m.inner) m.full (M.laws m.inner) };

    ghost holds_cells = { λ m. length-full m.cells.items };
}
