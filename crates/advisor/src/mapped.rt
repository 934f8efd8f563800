ghost use Rattle.std.specs.Prelude.{◌≡◌, ◌<◌, ◌≤◌, ◌^◌, ◌⊎◌, Ok, Err, IfOk, OnOk, IfErr, length, map, slice_index};
ghost use Rattle.advisor.specs.Imports.{indices, term_of, layout_of, holds_of, IsBuiltTerm, IsRuled, IsRuleOf, granules_in, blob_lengths};
ghost use Rattle.advisor.specs.Judged.{judged};

use crate::touched::has_few_granules;
use extents::Extents;
use map_any::CellMap;
use map_checks::{MakeMap, PlanRules, Rule, make_plan};
use map_expr::MapExpr;
use places::{CellList, Mapping, laws_of};
use std::alloc::Global;
use views::View;

/// A mapping of an expression over some leaves, and where its cells lie in the slots that their orders give the rows.
#[derive(Drop)]
pub struct RuledMap {
    pub mapping: CellMap,
    pub extents: Extents,
    rules: PlanRules,
    ghost rows: { ⟦<CellMap as Mapping>⟧.slot_count mapping ≡ length (indices extents) },
    ghost ruled: { IsRuled (⟦<CellMap as Mapping>⟧.layout mapping) extents (map (λ h. h.width) (⟦<CellMap as Mapping>⟧.hold_list mapping)) rules },
}

impl RuledMap {
    /// Where a cell lies.
    pub fn rule(&self, cell: usize) -> &Rule
        requires { cell < length (⟦<CellMap as Mapping>⟧.cell_list self.now.mapping) }
        ensures { IsRuleOf (⟦<CellMap as Mapping>⟧.layout self.now.mapping) self.now.extents cell
            (slice_index (map (λ h. h.width) (⟦<CellMap as Mapping>⟧.hold_list self.now.mapping)) cell) result.now }
    {
        laws_of(&self.mapping);
        &self.rules.as_slice()[cell]
    }
}

/// The mapping of an expression over some leaves of a view and its rows, within all limits. It makes no view of it.
pub fn mapped(
    alloc: Global,
    view: &View,
    cells: &CellList,
    granule: u32,
    expr: &MapExpr,
) -> Result<RuledMap, MakeMap>
    requires built { IsBuiltTerm (term_of expr.now) }
    requires some { 1 ≤ granule }
    ensures cells { IfOk result (λ m. ⟦<CellMap as Mapping>⟧.cell_list m.mapping ≡ cells.now) }
    ensures holds { IfOk result (λ m. ⟦<CellMap as Mapping>⟧.hold_list m.mapping ≡ holds_of (term_of expr.now) view.now.fields cells.now) }
    ensures layout { IfOk result (λ m. ⟦<CellMap as Mapping>⟧.layout m.mapping ≡ layout_of (term_of expr.now) view.now.extents view.now.fields cells.now) }
    ensures few { IfOk result (λ m. granules_in granule (blob_lengths (⟦<CellMap as Mapping>⟧.layout m.mapping)) ≤ 2 ^ 24) }
    ensures good { OnOk result (judged granule (term_of expr.now) view.now.extents view.now.fields cells.now ≡ Ok tt) }
    ensures refused { IfErr result (λ e. (e ≡ MakeMap.NoMemory) ⊎ (judged granule (term_of expr.now) view.now.extents view.now.fields cells.now ≡ Err e)) }
{
    let schema = view.schema();
    let extents = view.extents();
    let mapping = CellMap::new(alloc, schema, cells, &extents, expr)?;
    if !has_few_granules(&mapping, granule) {
        return Err(MakeMap::TooBig);
    }
    // The mapping keeps its rules to itself.
    let plan = make_plan(alloc, schema, cells, &extents, expr)?;
    Ok(RuledMap {
        mapping,
        extents,
        rules: plan.rules,
    })
}
