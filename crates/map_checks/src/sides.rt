ghost use Rattle.std.specs.Prelude.{◌≡◌, IfOk};
ghost use Rattle.map_checks.specs.Imports.{schema_fields, is_under};
ghost use Rattle.map_checks.specs.Sides.{side_of, cells_under, cells_beside};

use places::CellList;
use record_dim::{Path, Schema, Sequence};
use std::alloc::{AllocError as NoMemory, Global};

/// Whether each cell goes to the first side of a split, in order.
pub type SideList = Sequence<bool>;

/// The cells of a split by their sides.
#[derive(Drop)]
pub struct Sides {
    pub side: SideList,
    pub first: CellList,
    pub rest: CellList,
}

/// Whether a leaf is under a path.
pub(crate) fn is_under(schema: &Schema, path: &Path, leaf: usize) -> bool
    ensures { result ≡ is_under (schema_fields schema.now) path.now leaf }
{
    match schema.leaves_under(path) {
        Some((first, count)) => first <= leaf && leaf - first < count,
        None => false,
    }
}

/// The cells whose leaf is under a path, and the others, each in order.
pub fn split_cells(
    alloc: Global,
    schema: &Schema,
    path: &Path,
    cells: &CellList,
) -> Result<Sides, NoMemory>
    ensures side { IfOk result (λ sides. sides.side ≡ side_of (schema_fields schema.now) path.now cells.now) }
    ensures first { IfOk result (λ sides. sides.first ≡ cells_under (schema_fields schema.now) path.now cells.now) }
    ensures rest { IfOk result (λ sides. sides.rest ≡ cells_beside (schema_fields schema.now) path.now cells.now) }
{
    let mut side = SideList::new(alloc);
    let mut first = CellList::new(alloc);
    let mut rest = CellList::new(alloc);
    for cell in cells.as_slice() {
        let is_first = is_under(schema, path, cell.leaf);
        side.push(is_first)?;
        if is_first {
            first.push(*cell)?;
        } else {
            rest.push(*cell)?;
        }
    }
    Ok(Sides { side, first, rest })
}
