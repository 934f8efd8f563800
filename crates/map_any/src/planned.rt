ghost use Rattle.std.specs.Prelude.{◌≡◌};
ghost use Rattle.map_any.specs.Imports.{IfOk, OnOk, IfErr, Ok, schema_fields, term_of, accepted, IsBuiltTerm, IsRefusal, HasArrays, IsPlanOf};

use extents::Extents;
use map_checks::{MakeMap, Plan, has_bad_field, has_bad_side, has_part_not_full, make_plan};
use map_expr::{BadMapping, MapExpr};
use places::CellList;
use record_dim::Schema;
use std::alloc::Global;

/// What a mapping of an expression over cells goes by, whose slots are the rows of an array. `Bad` comes exactly where the expression is
/// refused, and `TooBig` exactly where it is not and is over a limit.
pub fn planned(
    alloc: Global,
    schema: &Schema,
    cells: &CellList,
    extents: &Extents,
    expr: &MapExpr,
) -> Result<Plan, MakeMap>
    requires built { IsBuiltTerm (term_of expr.now) }
    ensures plan { IfOk result (IsPlanOf (term_of expr.now) extents.now (schema_fields schema.now) cells.now) }
    ensures arrays { IfOk result (λ plan. HasArrays (term_of expr.now) extents.now cells.now plan.rules) }

    // Only want of memory comes before the other answers.
    ensures accepted { OnOk result (accepted (term_of expr.now) (schema_fields schema.now) cells.now ≡ Ok tt) }
    ensures refused { IfErr result (IsRefusal (term_of expr.now) extents.now (schema_fields schema.now) cells.now) }
{
    if let Err(bad) = expr.check() {
        return Err(MakeMap::Bad(bad));
    }
    if has_bad_side(alloc, schema, cells, expr)? {
        return Err(MakeMap::Bad(BadMapping::Side));
    }
    if has_bad_field(alloc, schema, cells, expr)? {
        return Err(MakeMap::Bad(BadMapping::Field));
    }
    if has_part_not_full(alloc, schema, cells, expr)? {
        return Err(MakeMap::Bad(BadMapping::NotFull));
    }
    make_plan(alloc, schema, cells, extents, expr)
}
