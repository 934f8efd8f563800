ghost use Rattle.std.specs.Prelude.{◌≡◌, ◌⊎◌, IfOk, IfErr, IsErrOf, true, map};
ghost use Rattle.map_checks.specs.Imports.{schema_fields, term_of};
ghost use Rattle.map_checks.specs.Mappings.{IsBuiltTerm, HasNumbers, IsTooBigFor, not_full};
ghost use Rattle.map_checks.specs.Arrays.{HasArrays};
ghost use Rattle.map_checks.specs.Inner.LeafOrders.{orders_of};
ghost use Rattle.map_checks.specs.Plans.{IsPlanOf};

use crate::base_plan::base_plan;
use crate::bit_plans::{bit_aos_plan, bit_soa_plan};
use crate::join_plan::join_plan;
use crate::orders::count_slots;
use crate::plan::Plan;
use crate::split_plan::split_plan;
use crate::swap_plan::swap_plan;
use crate::{MakeMap, bytes_cells, changed_cells, split_cells};
use extents::Extents;
use map_aos::Aos;
use map_aosoa::Aosoa;
use map_expr::{BadMapping, MapExpr};
use map_soa::Soa;
use places::CellList;
use record_dim::Schema;
use std::alloc::Global;

/// What a mapping of an expression over cells goes by, whose slots are the rows of an array. `TooBig` comes exactly where it is over a
/// limit, and `NotFull` only where a part under byteswap or bytesplit is not full.
pub fn make_plan(
    alloc: Global,
    schema: &Schema,
    cells: &CellList,
    extents: &Extents,
    expr: &MapExpr,
) -> Result<Plan, MakeMap>
    requires built { IsBuiltTerm (term_of expr.now) }
    requires numbers { HasNumbers (term_of expr.now) }
    ensures plan { IfOk result (IsPlanOf (term_of expr.now) extents.now (schema_fields schema.now) cells.now) }
    ensures orders { IfOk result (λ plan. map (λ rule. rule.order) plan.rules ≡ orders_of (term_of expr.now) (schema_fields schema.now) cells.now) }
    ensures arrays { IfOk result (λ plan. HasArrays (term_of expr.now) extents.now cells.now plan.rules) }
    ensures too_big { IsErrOf result MakeMap.TooBig → IsTooBigFor (term_of expr.now) extents.now (schema_fields schema.now) cells.now }
    ensures not_full { IsErrOf result (MakeMap.Bad BadMapping.NotFull) → not_full (term_of expr.now) (schema_fields schema.now) cells.now ≡ true }
    ensures only { IfErr result (λ e. (e ≡ MakeMap.TooBig) ⊎ ((e ≡ MakeMap.Bad BadMapping.NotFull) ⊎ (e ≡ MakeMap.NoMemory))) }
{
    match expr {
        MapExpr::Aos { form, order } => {
            let slots = count_slots(*order, extents)?;
            let mapping = Aos::new(alloc, cells, slots, *form)?;
            let plan = base_plan(alloc, &mapping, *order, extents)?;
            Ok(plan)
        }
        MapExpr::Soa { form, order } => {
            let slots = count_slots(*order, extents)?;
            let mapping = Soa::new(alloc, cells, slots, *form)?;
            let plan = base_plan(alloc, &mapping, *order, extents)?;
            Ok(plan)
        }
        MapExpr::Aosoa { lanes, order } => {
            let slots = count_slots(*order, extents)?;
            let mapping = Aosoa::new(alloc, cells, slots, *lanes)?;
            let plan = base_plan(alloc, &mapping, *order, extents)?;
            Ok(plan)
        }
        MapExpr::BitAos {
            width,
            fields,
            order,
        } => bit_aos_plan(alloc, schema, cells, extents, *order, *width, fields),
        MapExpr::BitSoa {
            width,
            fields,
            order,
        } => bit_soa_plan(alloc, schema, cells, extents, *order, *width, fields),
        MapExpr::Split { path, first, rest } => {
            let sides = split_cells(alloc, schema, path, cells)?;
            let left = make_plan(alloc, schema, &sides.first, extents, first)?;
            let right = make_plan(alloc, schema, &sides.rest, extents, rest)?;
            let plan = split_plan(alloc, sides.side.as_slice(), &left, &right)?;
            Ok(plan)
        }
        MapExpr::Byteswap(inner) => {
            let made = make_plan(alloc, schema, cells, extents, inner)?;
            let plan = swap_plan(alloc, cells, made)?;
            Ok(plan)
        }
        MapExpr::Bytesplit(inner) => {
            let bytes = bytes_cells(alloc, cells)?;
            let made = make_plan(alloc, schema, &bytes, extents, inner)?;
            let plan = join_plan(alloc, cells, &bytes, made)?;
            Ok(plan)
        }
        MapExpr::Change { from, to, inner } => {
            let cells = changed_cells(alloc, cells, *from, *to)?;
            make_plan(alloc, schema, &cells, extents, inner)
        }
        MapExpr::Count(inner) | MapExpr::Heat { inner, .. } => {
            make_plan(alloc, schema, cells, extents, inner)
        }
        _ => unreachable!(),
    }
}
