ghost use Rattle.std.specs.Prelude.{◌≡◌, ◌++◌, ◌/◌, IfOk, OnOk, replicate};
ghost use Rattle.map_checks.specs.Imports.{width_of, U8, byte_cells_of, changed};
ghost use Rattle.map_checks.specs.Inner.InnerCells.{changed_cell};

use places::{Cell, CellList};
use record_dim::LeafType;
use std::alloc::{AllocError as NoMemory, Global};

/// A cell that is of the type `to` if it was of the type `from`.
fn changed_cell(cell: Cell, from: LeafType, to: LeafType) -> Cell
    ensures { result ≡ changed_cell from to cell }
{
    let kind = if cell.kind == from { to } else { cell.kind };
    Cell {
        leaf: cell.leaf,
        kind,
    }
}

/// Cells of the type `from` as cells of the type `to`, and the others as they are.
pub fn changed_cells(
    alloc: Global,
    cells: &CellList,
    from: LeafType,
    to: LeafType,
) -> Result<CellList, NoMemory>
    ensures { IfOk result (λ list. list ≡ changed from to cells.now) }
{
    let mut changed = CellList::new(alloc);
    for cell in cells.as_slice() {
        changed.push(changed_cell(*cell, from, to))?;
    }
    Ok(changed)
}

/// Puts the bytes of a cell at the end of a list, as cells of their own.
fn push_bytes(bytes: &mut CellList, cell: Cell) -> Result<(), NoMemory>
    ensures { OnOk result (bytes.new ≡ bytes.old ++ replicate (width_of cell.kind / 8) (record { leaf = cell.leaf; kind = U8 })) }
{
    let byte = Cell {
        leaf: cell.leaf,
        kind: LeafType::U8,
    };
    for _ in 0..cell.kind.width() / 8 {
        bytes.push(byte)?;
    }
    Ok(())
}

/// The bytes of cells as cells of their own, least significant first.
pub fn bytes_cells(alloc: Global, cells: &CellList) -> Result<CellList, NoMemory>
    ensures { IfOk result (λ bytes. bytes ≡ byte_cells_of cells.now) }
{
    let mut bytes = CellList::new(alloc);
    for cell in cells.as_slice() {
        push_bytes(&mut bytes, *cell)?;
    }
    Ok(bytes)
}
