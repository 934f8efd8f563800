ghost use Rattle.std.specs.Prelude.{◌≡◌, IfOk, length};
ghost use Rattle.map_checks.specs.Imports.{schema_fields, full_holds, term_of, differ};
ghost use Rattle.map_checks.specs.Mappings.{holds_of, not_full};

use crate::holds::{full_holds, holds_of};
use crate::inner_cells::{bytes_cells, changed_cells};
use crate::sides::split_cells;
use map_bytes::is_same_hold;
use map_expr::MapExpr;
use places::{CellList, Hold};
use record_dim::Schema;
use std::alloc::{AllocError as NoMemory, Global};

/// Whether some cell is stored in another way than in a list of as many.
pub fn has_other_hold(holds: &[Hold], others: &[Hold]) -> bool
    requires { length holds.now ≡ length others.now }
    ensures { result ≡ differ holds.now others.now }
{
    for (hold, other) in holds.iter().zip(others) {
        if !is_same_hold(*hold, *other) {
            return true;
        }
    }
    false
}

/// Whether an expression stores some of the cells in another sign or width than its type's.
fn has_narrow_cell(
    alloc: Global,
    schema: &Schema,
    cells: &CellList,
    expr: &MapExpr,
) -> Result<bool, NoMemory>
    ensures { IfOk result (λ bad. bad ≡ differ (holds_of (term_of expr.now) (schema_fields schema.now) cells.now) (full_holds cells.now)) }
{
    let holds = holds_of(alloc, schema, cells, expr)?;
    let full = full_holds(alloc, cells)?;
    Ok(has_other_hold(holds.as_slice(), full.as_slice()))
}

/// Whether some part of the expression under byteswap or bytesplit is not full.
pub fn has_part_not_full(
    alloc: Global,
    schema: &Schema,
    cells: &CellList,
    expr: &MapExpr,
) -> Result<bool, NoMemory>
    ensures { IfOk result (λ bad. bad ≡ not_full (term_of expr.now) (schema_fields schema.now) cells.now) }
{
    match expr {
        MapExpr::Split { path, first, rest } => {
            let sides = split_cells(alloc, schema, path, cells)?;
            Ok(
                has_part_not_full(alloc, schema, &sides.first, first)?
                    || has_part_not_full(alloc, schema, &sides.rest, rest)?,
            )
        }
        MapExpr::Byteswap(inner) => Ok(
            has_narrow_cell(alloc, schema, cells, inner)?
                || has_part_not_full(alloc, schema, cells, inner)?,
        ),
        MapExpr::Bytesplit(inner) => {
            let bytes = bytes_cells(alloc, cells)?;
            Ok(
                has_narrow_cell(alloc, schema, &bytes, inner)?
                    || has_part_not_full(alloc, schema, &bytes, inner)?,
            )
        }
        MapExpr::Change { from, to, inner } => {
            has_part_not_full(
                alloc,
                schema,
                &changed_cells(alloc, cells, *from, *to)?,
                inner,
            )
        }
        MapExpr::Count(inner) | MapExpr::Heat { inner, .. } => {
            has_part_not_full(alloc, schema, cells, inner)
        }
        _ => Ok(false),
    }
}
