ghost use Rattle.std.specs.Prelude.{◌≡◌, ◌<◌, Some, IfOk, length, map, slice_get};
ghost use Rattle.map_checks.specs.Imports.{schema_fields, kinds_of};
ghost use Rattle.map_checks.specs.Mappings.{leaf_cells};

use places::{Cell, CellList};
use record_dim::{LeafType, Schema};
use std::alloc::{AllocError as NoMemory, Global};

/// The leaves of a schema as cells, in order.
pub fn cells_of(alloc: Global, schema: &Schema) -> Result<CellList, NoMemory>
    ensures { IfOk result (λ cells. cells ≡ leaf_cells (kinds_of (schema_fields schema.now))) }
{
    let mut cells = CellList::new(alloc);
    for leaf in 0..schema.leaf_count() {
        let kind = schema.leaf_type(leaf);
        cells.push(Cell { leaf, kind })?;
    }
    Ok(cells)
}

/// The type of a cell.
pub fn kind_at(cells: &[Cell], cell: usize) -> LeafType
    requires { cell < length cells.now }
    ensures { slice_get (map (λ c. c.kind) cells.now) cell ≡ Some result }
{
    cells[cell].kind
}
