ghost use Rattle.std.specs.Prelude.{◌≡◌, IfOk};
ghost use Rattle.map_checks.specs.Imports.{schema_fields, term_of};
ghost use Rattle.map_checks.specs.Mappings.{bad_field};

use crate::inner_cells::{bytes_cells, changed_cells};
use crate::sides::split_cells;
use crate::widths::has_empty;
use map_expr::MapExpr;
use places::CellList;
use record_dim::Schema;
use std::alloc::{AllocError as NoMemory, Global};

/// Whether some bit mapping in the expression says a width of a path that none of its cells is under.
pub fn has_bad_field(
    alloc: Global,
    schema: &Schema,
    cells: &CellList,
    expr: &MapExpr,
) -> Result<bool, NoMemory>
    ensures { IfOk result (λ bad. bad ≡ bad_field (term_of expr.now) (schema_fields schema.now) cells.now) }
{
    match expr {
        MapExpr::BitAos { fields, .. } | MapExpr::BitSoa { fields, .. } => {
            Ok(has_empty(schema, cells, fields))
        }
        MapExpr::Split { path, first, rest } => {
            let sides = split_cells(alloc, schema, path, cells)?;
            Ok(
                has_bad_field(alloc, schema, &sides.first, first)?
                    || has_bad_field(alloc, schema, &sides.rest, rest)?,
            )
        }
        MapExpr::Bytesplit(inner) => {
            has_bad_field(alloc, schema, &bytes_cells(alloc, cells)?, inner)
        }
        MapExpr::Change { from, to, inner } => {
            has_bad_field(
                alloc,
                schema,
                &changed_cells(alloc, cells, *from, *to)?,
                inner,
            )
        }
        MapExpr::Byteswap(inner) | MapExpr::Count(inner) | MapExpr::Heat { inner, .. } => {
            has_bad_field(alloc, schema, cells, inner)
        }
        _ => Ok(false),
    }
}
