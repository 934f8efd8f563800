ghost use Rattle.std.specs.Prelude.{◌≡◌, IfOk};
ghost use Rattle.map_checks.specs.Imports.{schema_fields, term_of};
ghost use Rattle.map_checks.specs.Mappings.{bad_side};

use crate::inner_cells::{bytes_cells, changed_cells};
use crate::sides::split_cells;
use map_expr::MapExpr;
use map_split::is_one_sided;
use places::CellList;
use record_dim::Schema;
use std::alloc::{AllocError as NoMemory, Global};

/// Whether some split in the expression has all its cells on one side.
pub fn has_bad_side(
    alloc: Global,
    schema: &Schema,
    cells: &CellList,
    expr: &MapExpr,
) -> Result<bool, NoMemory>
    ensures { IfOk result (λ bad. bad ≡ bad_side (term_of expr.now) (schema_fields schema.now) cells.now) }
{
    match expr {
        MapExpr::Split { path, first, rest } => {
            let sides = split_cells(alloc, schema, path, cells)?;
            Ok(
                is_one_sided(sides.side.as_slice())
                    || has_bad_side(alloc, schema, &sides.first, first)?
                    || has_bad_side(alloc, schema, &sides.rest, rest)?,
            )
        }
        MapExpr::Bytesplit(inner) => {
            has_bad_side(alloc, schema, &bytes_cells(alloc, cells)?, inner)
        }
        MapExpr::Change { from, to, inner } => {
            has_bad_side(
                alloc,
                schema,
                &changed_cells(alloc, cells, *from, *to)?,
                inner,
            )
        }
        MapExpr::Byteswap(inner) | MapExpr::Count(inner) | MapExpr::Heat { inner, .. } => {
            has_bad_side(alloc, schema, cells, inner)
        }
        _ => Ok(false),
    }
}
