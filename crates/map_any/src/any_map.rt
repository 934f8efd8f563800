ghost use Rattle.std.specs.Prelude.{◌≡◌, ◌<◌, ◌≤ℤ◌, ◌*◌, ◌∷◌};
ghost use Rattle.map_any.specs.Imports.{ℕ, ℤ, List, [], true, false, IfOk, OnOk, IfErr, IfSome, Ok, length, map, slice_index, slice_index_or, indices, is_signed, IsIn, IsDeclared, schema_fields, kinds_of, IsLocated, term_of, leaf_cells, layout_by, holds_by, accepted, IsBuiltTerm, IsTooBigFor, IsRefusal, IsArrayOf, IsRuleOf, IsShortIn, leads, AreReadWide};
ghost use Rattle.map_any.specs.AnyLaws.{any_laws, holds_cells};
ghost use Rattle.map_any.specs.Counters.{is_counted};
ghost use Rattle.map_any.specs.LeafRules.{kind_in, hold_in, IsLeafRule, IsWideIn};
ghost use Rattle.map_any.specs.Maps.{extents_of, term_of_map};

use crate::any::AnyMap;
use crate::leaf_rule::LeafRule;
use crate::leaf_rules::leaf_rules;
use crate::planned::planned;
use extents::Extents;
use map_checks::{MakeMap, Rule, cells_of, slot_of_row};
use map_expr::MapExpr;
use places::{Hold, Mapping, Piece, Pieces, pieces_in};
use record_dim::{LeafType, Schema};
use std::alloc::Global;

impl AnyMap {
    /// The mapping of an expression over the leaves of a schema and the rows of an array. Its slots are row numbers, and its cells the
    /// leaves. `Bad` comes exactly where the expression is refused, and `TooBig` exactly where it is not and is over a limit.
    pub fn new(
        alloc: Global,
        schema: &Schema,
        extents: &Extents,
        expr: &MapExpr,
    ) -> Result<AnyMap, MakeMap>
        requires built { IsBuiltTerm (term_of expr.now) }
        ensures slots { IfOk result (λ m. ⟦<AnyMap as Mapping>⟧.slot_count m ≡ length (indices extents.now)) }
        ensures cells { IfOk result (λ m. ⟦<AnyMap as Mapping>⟧.cell_list m ≡ leaf_cells (kinds_of (schema_fields schema.now))) }
        ensures holds { IfOk result (λ m. ⟦<AnyMap as Mapping>⟧.hold_list m ≡ holds_by (term_of expr.now) (schema_fields schema.now)) }
        ensures extents { IfOk result (λ m. extents_of m ≡ extents.now) }
        ensures term { IfOk result (λ m. term_of_map m ≡ term_of expr.now) }
        ensures layout { IfOk result (λ m. ⟦<AnyMap as Mapping>⟧.layout m ≡ layout_by (term_of expr.now) extents.now (schema_fields schema.now)) }

        // Only want of memory comes before the other answers.
        ensures accepted { OnOk result (accepted (term_of expr.now) (schema_fields schema.now) (leaf_cells (kinds_of (schema_fields schema.now))) ≡ Ok tt) }
        ensures fits { OnOk result (IsTooBigFor (term_of expr.now) extents.now (schema_fields schema.now) (leaf_cells (kinds_of (schema_fields schema.now))) → ⊥) }
        ensures refused { IfErr result (IsRefusal (term_of expr.now) extents.now (schema_fields schema.now) (leaf_cells (kinds_of (schema_fields schema.now)))) }
    {
        let cells = cells_of(alloc, schema)?;
        let plan = planned(alloc, schema, &cells, extents, expr)?;
        let rules = leaf_rules(
            alloc,
            schema,
            extents,
            plan.holds.as_slice(),
            plan.rules.as_slice(),
            plan.lengths.as_slice(),
            is_counted(expr),
        )?;
        let schema = schema.copy(alloc)?;
        let expr = expr.copy(alloc)?;
        Ok(AnyMap {
            schema,
            extents: *extents,
            expr,
            holds: plan.holds,
            lengths: plan.lengths,
            rules,
        })
    }

    /// Where a leaf lies in every row, as a rule that needs no look at the mapping. It takes no memory.
    pub fn rule(&self, leaf: usize) -> Rule
        requires { leaf < length (⟦<AnyMap as Mapping>⟧.cell_list self.now) }
        ensures { IsRuleOf (⟦<AnyMap as Mapping>⟧.layout self.now) (extents_of self.now) leaf
            (slice_index (map (λ h. h.width) (⟦<AnyMap as Mapping>⟧.hold_list self.now)) leaf) result }
    {
        self.leaf_rule(leaf).rule.copy()
    }

    /// What accesses to a leaf go by: the short form of its rule, where it has one, and the rule. A short form is of the sign of the leaf's
    /// type, and a mapping that counts has none, so no access to it goes uncounted.
    #[inline(always)]
    pub fn short(&self, leaf: usize) -> &LeafRule
        requires { leaf < length (⟦<AnyMap as Mapping>⟧.cell_list self.now) }
        ensures form { leads result.now.short.walk ≡ true → IsShortIn (⟦<AnyMap as Mapping>⟧.layout self.now) (⟦<AnyMap as Mapping>⟧.slot_count self.now) leaf
            (slice_index (map (λ h. h.width) (⟦<AnyMap as Mapping>⟧.hold_list self.now)) leaf)
            (hold_in (⟦<AnyMap as Mapping>⟧.hold_list self.now) leaf) result.now.rule.pieces.items result.now.short }
        ensures sign { leads result.now.short.walk ≡ true → (hold_in (⟦<AnyMap as Mapping>⟧.hold_list self.now) leaf).signed
            ≡ is_signed (kind_in (map (λ cell. cell.kind) (⟦<AnyMap as Mapping>⟧.cell_list self.now)) leaf) }
        ensures wide { (bytes : ℕ) → 8 * bytes ≡ length (slice_index_or (⟦<AnyMap as Mapping>⟧.layout self.now) result.now.short.blob [])
            → AreReadWide result.now.short bytes result.now.wide }
        ensures uncounted { leads result.now.short.walk ≡ true → is_counted (term_of_map self.now) ≡ false }
    {
        self.leaf_rule(leaf)
    }

    /// Whether a value is sure to be declared for a leaf and held by it. False says nothing.
    #[inline(always)]
    pub fn takes(&self, leaf: usize, value: i128) -> bool
        requires { leaf < length (⟦<AnyMap as Mapping>⟧.cell_list self.now) }
        ensures declared { result ≡ true → IsDeclared (kind_in (map (λ cell. cell.kind) (⟦<AnyMap as Mapping>⟧.cell_list self.now)) leaf) value }
        ensures held { result ≡ true → let hold = hold_in (⟦<AnyMap as Mapping>⟧.hold_list self.now) leaf in IsIn hold.signed hold.width value }
    {
        let rule = self.leaf_rule(leaf);
        match i64::try_from(value) {
            Ok(near) => rule.least <= near && near <= rule.greatest,
            Err(_) => false,
        }
    }

    /// From the first of these to the second, each value is sure to be declared for a leaf and held by it. Where none is, the first is the
    /// greater.
    #[inline(always)]
    pub fn taken(&self, leaf: usize) -> (i64, i64)
        requires { leaf < length (⟦<AnyMap as Mapping>⟧.cell_list self.now) }
        ensures { (value : ℤ) → result.0 ≤ℤ value → value ≤ℤ result.1 → let hold = hold_in (⟦<AnyMap as Mapping>⟧.hold_list self.now) leaf in
            IsDeclared (kind_in (map (λ cell. cell.kind) (⟦<AnyMap as Mapping>⟧.cell_list self.now)) leaf) value × IsIn hold.signed hold.width value }
    {
        let rule = self.leaf_rule(leaf);
        (rule.least, rule.greatest)
    }

    /// The one piece of a leaf in a row, where it has one. None where there may be several.
    pub fn piece(&self, row: u64, leaf: usize) -> Option<Piece>
        requires slot_in { row < ⟦<AnyMap as Mapping>⟧.slot_count self.now }
        requires cell_in { leaf < length (⟦<AnyMap as Mapping>⟧.cell_list self.now) }
        ensures located { IfSome result (λ piece. IsLocated (⟦<AnyMap as Mapping>⟧.layout self.now) row leaf
            (slice_index (map (λ h. h.width) (⟦<AnyMap as Mapping>⟧.hold_list self.now)) leaf) (piece ∷ [])) }
    {
        let rule = &self.leaf_rule(leaf).rule;
        let [piece] = rule.pieces.as_slice() else {
            return None;
        };
        Some(piece.piece(slot_of_row(rule.order, &self.extents, row)))
    }

    /// What the accesses to a leaf go by.
    #[inline(always)]
    pub(crate) fn leaf_rule(&self, leaf: usize) -> &LeafRule
        requires { leaf < length (⟦<AnyMap as Mapping>⟧.cell_list self.now) }
        ensures places { IsRuleOf (⟦<AnyMap as Mapping>⟧.layout self.now) self.now.extents leaf
            (slice_index (map (λ h. h.width) self.now.holds) leaf) result.now.rule }
        ensures whole { IsLeafRule (kind_in (kinds_of (schema_fields self.now.schema)) leaf) self.now.extents (hold_in self.now.holds leaf) result.now }
        ensures wide { IsWideIn self.now.lengths result.now }
        ensures array { IsArrayOf (term_of_map self.now) (extents_of self.now) (leaf_cells (kinds_of (schema_fields self.now.schema))) leaf result.now.rule }
        ensures uncounted { is_counted (term_of_map self.now) ≡ true → leads result.now.short.walk ≡ false }
    {
        &self.rules.as_slice()[leaf]
    }
}

// Every field of a mapping stands here: it has a rule for each leaf, and no tree of mappings.
fn every_field(map: &AnyMap) {
    let AnyMap {
        schema: _,
        extents: _,
        expr: _,
        holds: _,
        lengths: _,
        rules: _,
    } = map;
}

/// Whether an expression counts accesses, by leaf or by granule.
fn is_counted(expr: &MapExpr) -> bool
    ensures { result ≡ is_counted (term_of expr.now) }
{
    matches!(expr, MapExpr::Count(_) | MapExpr::Heat { .. })
}

impl Mapping for AnyMap {
    ghost layout = { λ m. layout_by (term_of m.expr) m.extents (schema_fields m.schema) };

    ghost slot_count = { λ m. length (indices m.extents) };

    ghost cell_list = { λ m. leaf_cells (kinds_of (schema_fields m.schema)) };

    ghost hold_list = { λ m. m.holds };

    fn slots(&self) -> u64 {
        self.extents.count()
    }

    fn cells(&self) -> usize {
        self.schema.leaf_count()
    }

    fn kind(&self, cell: usize) -> LeafType {
        self.schema.leaf_type(cell)
    }

    fn hold(&self, cell: usize) -> Hold {
        self.holds.as_slice()[cell]
    }

    fn blob_count(&self) -> usize {
        self.lengths.len()
    }

    fn blob_bytes(&self, blob: usize) -> u64 {
        self.lengths.as_slice()[blob]
    }

    fn locate(&self, slot: u64, cell: usize) -> Pieces {
        let rule = &self.leaf_rule(cell).rule;
        pieces_in(&rule.pieces, slot_of_row(rule.order, &self.extents, slot))
    }

    ghost laws = { λ m. any_laws (term_of m.expr) m.extents (schema_fields m.schema) (leaf_cells (kinds_of (schema_fields m.schema))) m.holds m.built m.numbers m.full m.held };

    ghost holds_cells = { λ m. holds_cells (term_of m.expr) (schema_fields m.schema) m.holds m.held };
}
