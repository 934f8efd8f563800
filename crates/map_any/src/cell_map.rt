ghost use Rattle.std.specs.Prelude.{◌≡◌, ◌<◌};
ghost use Rattle.map_any.specs.Imports.{false, None, IfOk, OnOk, IfErr, Ok, length, map, slice_index, indices, schema_fields, term_of, bad_number, layout_of, holds_of, accepted, not_full, IsBuiltTerm, IsTooBigFor, IsRefusal, IsBuiltTerm-prop, IsPlanOf, IsRuleOf};
ghost use Rattle.map_any.specs.AnyLaws.{any_laws, cell_holds};

use crate::planned::planned;
use extents::Extents;
use map_checks::{MakeMap, Plan, Rule, hold_at, kind_at, slot_of_row};
use map_expr::MapExpr;
use places::{Cell, CellList, Hold, Mapping, Pieces, pieces_in};
use record_dim::{LeafType, Schema};
use std::alloc::Global;

/// A mapping of run time over some cells of a schema: what an expression says of a part of a record. Its slots are row numbers.
#[derive(Drop)]
pub struct CellMap {
    schema: Schema,
    cells: Vec<Cell>,
    extents: Extents,
    expr: MapExpr,
    plan: Plan,
    ghost built: { IsBuiltTerm (term_of expr) } by { IsBuiltTerm-prop (term_of expr) },
    ghost numbers: { bad_number (term_of expr) ≡ None },
    ghost full: { not_full (term_of expr) (schema_fields schema) cells.items ≡ false },
    ghost made: { IsPlanOf (term_of expr) extents (schema_fields schema) cells.items plan },
}

impl CellMap {
    /// The mapping of an expression over cells and the rows of an array. Its slots are row numbers; paths are those of the schema's leaves.
    /// `Bad` comes exactly where the expression is refused for these cells, and `TooBig` exactly where it is not and is over a limit.
    pub fn new(
        alloc: Global,
        schema: &Schema,
        cells: &CellList,
        extents: &Extents,
        expr: &MapExpr,
    ) -> Result<CellMap, MakeMap>
        requires built { IsBuiltTerm (term_of expr.now) }
        ensures slots { IfOk result (λ m. ⟦<CellMap as Mapping>⟧.slot_count m ≡ length (indices extents.now)) }
        ensures cells { IfOk result (λ m. ⟦<CellMap as Mapping>⟧.cell_list m ≡ cells.now) }
        ensures holds { IfOk result (λ m. ⟦<CellMap as Mapping>⟧.hold_list m ≡ holds_of (term_of expr.now) (schema_fields schema.now) cells.now) }
        ensures layout { IfOk result (λ m. ⟦<CellMap as Mapping>⟧.layout m ≡ layout_of (term_of expr.now) extents.now (schema_fields schema.now) cells.now) }

        // Only want of memory comes before the other answers.
        ensures accepted { OnOk result (accepted (term_of expr.now) (schema_fields schema.now) cells.now ≡ Ok tt) }
        ensures fits { OnOk result (IsTooBigFor (term_of expr.now) extents.now (schema_fields schema.now) cells.now → ⊥) }
        ensures refused { IfErr result (IsRefusal (term_of expr.now) extents.now (schema_fields schema.now) cells.now) }
    {
        let plan = planned(alloc, schema, cells, extents, expr)?;
        let schema = schema.copy(alloc)?;
        let kept = Vec::from_slice(alloc, cells.as_slice())?;
        let expr = expr.copy(alloc)?;
        Ok(CellMap {
            schema,
            cells: kept,
            extents: *extents,
            expr,
            plan,
        })
    }

    // Where a cell lies in every row.
    fn rule(&self, cell: usize) -> &Rule
        requires { cell < length (⟦<CellMap as Mapping>⟧.cell_list self.now) }
        ensures { IsRuleOf (⟦<CellMap as Mapping>⟧.layout self.now) self.now.extents cell
            (slice_index (map (λ h. h.width) (⟦<CellMap as Mapping>⟧.hold_list self.now)) cell) result.now }
    {
        &self.plan.rules.as_slice()[cell]
    }
}

impl Mapping for CellMap {
    ghost layout = { λ m. layout_of (term_of m.expr) m.extents (schema_fields m.schema) m.cells.items };

    ghost slot_count = { λ m. length (indices m.extents) };

    ghost cell_list = { λ m. m.cells.items };

    ghost hold_list = { λ m. m.plan.holds };

    fn slots(&self) -> u64 {
        self.extents.count()
    }

    fn cells(&self) -> usize {
        self.cells.len()
    }

    fn kind(&self, cell: usize) -> LeafType {
        kind_at(&self.cells, cell)
    }

    fn hold(&self, cell: usize) -> Hold {
        hold_at(self.plan.holds.as_slice(), cell)
    }

    fn blob_count(&self) -> usize {
        self.plan.lengths.len()
    }

    fn blob_bytes(&self, blob: usize) -> u64 {
        self.plan.lengths.as_slice()[blob]
    }

    fn locate(&self, slot: u64, cell: usize) -> Pieces {
        let rule = self.rule(cell);
        pieces_in(&rule.pieces, slot_of_row(rule.order, &self.extents, slot))
    }

    ghost laws = { λ m. any_laws (term_of m.expr) m.extents (schema_fields m.schema) m.cells.items m.plan.holds m.built m.numbers m.full m.made.held };

    ghost holds_cells = { λ m. cell_holds (term_of m.expr) m.extents (schema_fields m.schema) m.cells.items m.plan m.made };
}
