ghost use Rattle.std.specs.Prelude.{◌≡◌, IfOk};
ghost use Rattle.map_checks.specs.Imports.{schema_fields, full_holds, term_of};
ghost use Rattle.map_checks.specs.Mappings.{holds_of, held_within};

use crate::hold_list::HoldList;
use crate::inner_cells::changed_cells;
use crate::merge::merge_holds;
use crate::sides::split_cells;
use crate::widths::width_at;
use map_expr::{MapExpr, WidthList};
use places::{CellList, Hold};
use record_dim::Schema;
use std::alloc::{AllocError as NoMemory, Global};

/// Each cell in the sign and the width of its type.
pub fn full_holds(alloc: Global, cells: &CellList) -> Result<HoldList, NoMemory>
    ensures { IfOk result (λ holds. holds ≡ full_holds cells.now) }
{
    let mut holds = HoldList::new(alloc);
    for cell in cells.as_slice() {
        holds.push(Hold::of(cell.kind))?;
    }
    Ok(holds)
}

/// Each cell in its type's sign and at most as many bits as the last of `fields` says that it is under, or `width`.
fn held_within(
    alloc: Global,
    schema: &Schema,
    cells: &CellList,
    width: u32,
    fields: &WidthList,
) -> Result<HoldList, NoMemory>
    ensures { IfOk result (λ holds. holds ≡ held_within (schema_fields schema.now) width fields.now cells.now) }
{
    let mut holds = HoldList::new(alloc);
    for cell in cells.as_slice() {
        let most = width_at(schema, width, fields, cell.leaf);
        holds.push(Hold::within(most, cell.kind))?;
    }
    Ok(holds)
}

/// How an expression stores each of the cells.
pub fn holds_of(
    alloc: Global,
    schema: &Schema,
    cells: &CellList,
    expr: &MapExpr,
) -> Result<HoldList, NoMemory>
    ensures { IfOk result (λ holds. holds ≡ holds_of (term_of expr.now) (schema_fields schema.now) cells.now) }
{
    match expr {
        MapExpr::BitAos { width, fields, .. } | MapExpr::BitSoa { width, fields, .. } => {
            held_within(alloc, schema, cells, *width, fields)
        }
        MapExpr::Split { path, first, rest } => {
            let sides = split_cells(alloc, schema, path, cells)?;
            let left = holds_of(alloc, schema, &sides.first, first)?;
            let right = holds_of(alloc, schema, &sides.rest, rest)?;
            merge_holds(
                alloc,
                sides.side.as_slice(),
                left.as_slice(),
                right.as_slice(),
            )
        }
        MapExpr::Change { from, to, inner } => {
            holds_of(
                alloc,
                schema,
                &changed_cells(alloc, cells, *from, *to)?,
                inner,
            )
        }
        MapExpr::Count(inner) | MapExpr::Heat { inner, .. } => {
            holds_of(alloc, schema, cells, inner)
        }
        _ => full_holds(alloc, cells),
    }
}
