// What a view would take.
ghost use Rattle.std.specs.Prelude.{◌≡◌, ◌≤◌, ◌*◌, ◌^◌, length, sum_by, IfOk, OnOk, IfErr, Ok};
ghost use Rattle.views.specs.Imports.{kinds_of, schema_fields, term_of, leaf_cells, layout_by, accepted, IsBuiltTerm};
ghost use Rattle.views.specs.Refusals.{IsOverLimits, IsNoView};

use crate::fault::MakeView;
use crate::fresh::has_few_granules;
use extents::Extents;
use map_any::{AnyMap, MapExpr};
use places::{Mapping, laws_of};
use record_dim::Schema;
use std::alloc::Global;

/// How many bytes the blobs of a view of these have. Nothing of its size is made. The refusals are those of `View::new`.
pub fn bytes_for(
    alloc: Global,
    schema: &Schema,
    extents: Extents,
    expr: &MapExpr,
) -> Result<u64, MakeView>
    requires built { IsBuiltTerm (term_of expr.now) }
    ensures bytes { IfOk result (λ bytes. 8 * bytes ≡ sum_by length (layout_by (term_of expr.now) extents (schema_fields schema.now))) }

    // Only want of memory comes before the other answers.
    ensures accepted { OnOk result (accepted (term_of expr.now) (schema_fields schema.now) (leaf_cells (kinds_of (schema_fields schema.now))) ≡ Ok tt) }
    ensures fits { OnOk result (IsOverLimits (term_of expr.now) extents (schema_fields schema.now) → ⊥) }
    ensures refused { IfErr result (IsNoView (term_of expr.now) extents (schema_fields schema.now)) }
{
    let map = AnyMap::new(alloc, schema, &extents, expr)?;
    laws_of(&map);
    if !has_few_granules(alloc, &map, expr)? {
        return Err(MakeView::TooBig);
    }
    Ok(bytes_of(&map))
}

// The bytes of all blobs of a mapping.
fn bytes_of<M: Mapping>(mapping: &M) -> u64
    requires { sum_by length (M.layout mapping.now) ≤ 8 * 2 ^ 28 }
    ensures { 8 * result ≡ sum_by length (M.layout mapping.now) }
{
    let mut bytes = 0;
    for blob in 0..mapping.blob_count() {
        bytes += mapping.blob_bytes(blob);
    }
    bytes
}
