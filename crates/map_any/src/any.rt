ghost use Rattle.std.specs.Prelude.{◌≡◌};
ghost use Rattle.map_any.specs.Imports.{true, false, None, props, kinds_of, schema_fields, term_of, bad_number, layout_by, holds_by, leaf_cells, not_full, IsBuiltTerm, IsBuiltTerm-prop, EachWith, HasLengths, leads};
ghost use Rattle.map_any.specs.Counters.{is_counted};
ghost use Rattle.map_any.specs.LeafArrays.{HaveArrays};
ghost use Rattle.map_any.specs.LeafRules.{AreRuled, IsWideIn};

use crate::leaf_rule::RuleList;
use extents::Extents;
use map_checks::{HoldList, LengthList};
use map_expr::MapExpr;
use record_dim::Schema;

/// A mapping of run time: what an expression says of an array. Its slots are row numbers, and its cells the leaves.
#[derive(Drop)]
pub struct AnyMap {
    pub(crate) schema: Schema,
    pub(crate) extents: Extents,
    pub(crate) expr: MapExpr,
    /// How each leaf is stored.
    pub(crate) holds: HoldList,
    /// The bytes of each blob.
    pub(crate) lengths: LengthList,
    /// Where each leaf lies.
    pub(crate) rules: RuleList,
    ghost built: { IsBuiltTerm (term_of expr) } by { IsBuiltTerm-prop (term_of expr) },
    ghost numbers: { bad_number (term_of expr) ≡ None },
    ghost full: { not_full (term_of expr) (schema_fields schema) (leaf_cells (kinds_of (schema_fields schema))) ≡ false },
    ghost held: { holds ≡ holds_by (term_of expr) (schema_fields schema) },
    ghost sized: { HasLengths (layout_by (term_of expr) extents (schema_fields schema)) lengths },
    ghost ruled: { AreRuled (layout_by (term_of expr) extents (schema_fields schema)) extents (kinds_of (schema_fields schema)) holds rules },
    ghost wide: { EachWith (λ k leaf. IsWideIn lengths leaf) rules },
    ghost arrays: { HaveArrays (term_of expr) extents (leaf_cells (kinds_of (schema_fields schema))) rules } by { Prim.hlevel props },
    ghost uncounted: { is_counted (term_of expr) ≡ true → EachWith (λ k leaf. leads leaf.short.walk ≡ false) rules },
}
