ghost use Rattle.std.specs.Prelude.{ℕ, ◌≡◌, ◌^◌, ◌≤◌, IfOk, map};
ghost use Rattle.map_checks.specs.Imports.{row_at, slot_count, in_rows};
ghost use Rattle.map_checks.specs.Arrays.{AreArrays};
ghost use Rattle.map_checks.specs.Ruled.{HasLengths, IsRuled};

use crate::HoldList;
use crate::plan::{LengthList, Plan};
use crate::rule::{PlanRules, Rule};
use extents::Extents;
use linearize::Order;
use places::{Mapping, Ruled};
use std::alloc::{AllocError as NoMemory, Global};

/// What a mapping goes by that is made of no other, by the rows that have its slots.
pub fn base_plan<M: Ruled>(
    alloc: Global,
    mapping: &M,
    order: Order,
    extents: &Extents,
) -> Result<Plan, NoMemory>
    requires counted { M.slot_count mapping.now ≡ slot_count order extents.now }
    requires few { slot_count order extents.now ≤ 2 ^ 24 }
    ensures holds { IfOk result (λ plan. plan.holds ≡ M.hold_list mapping.now) }
    ensures lengths { IfOk result (λ plan. HasLengths (in_rows (row_at order extents.now) (M.layout mapping.now)) plan.lengths) }
    ensures rules { IfOk result (λ plan. IsRuled (in_rows (row_at order extents.now) (M.layout mapping.now)) extents.now
        (map (λ h. h.width) (M.hold_list mapping.now)) plan.rules) }
    ensures orders { IfOk result (λ plan. map (λ rule. rule.order) plan.rules ≡ map (λ cell. order) (M.cell_list mapping.now)) }
    ensures arrays { IfOk result (λ plan. AreArrays (M.layout mapping.now) (M.slot_count mapping.now) (M.lane_count mapping.now)
        (map (λ h. h.width) (M.hold_list mapping.now)) plan.rules) }
{
    let holds = holds_of(alloc, mapping)?;
    let lengths = lengths_of(alloc, mapping)?;
    let rules = rules_of(alloc, mapping, order, extents)?;
    Ok(Plan {
        holds,
        lengths,
        rules,
    })
}

/// How each cell of a mapping is stored.
fn holds_of<M: Mapping>(alloc: Global, mapping: &M) -> Result<HoldList, NoMemory>
    ensures { IfOk result (λ holds. holds ≡ M.hold_list mapping.now) }
{
    let mut holds = HoldList::new(alloc);
    for cell in 0..mapping.cells() {
        holds.push(mapping.hold(cell))?;
    }
    Ok(holds)
}

/// How many bytes the blobs of a mapping have.
fn lengths_of<M: Mapping>(alloc: Global, mapping: &M) -> Result<LengthList, NoMemory>
    ensures { IfOk result (λ lengths. HasLengths (M.layout mapping.now) lengths) }
{
    let mut lengths = LengthList::new(alloc);
    for blob in 0..mapping.blob_count() {
        lengths.push(mapping.blob_bytes(blob))?;
    }
    Ok(lengths)
}

/// Where each cell lies in every row that has a slot of the mapping.
fn rules_of<M: Ruled>(
    alloc: Global,
    mapping: &M,
    order: Order,
    extents: &Extents,
) -> Result<PlanRules, NoMemory>
    requires counted { M.slot_count mapping.now ≡ slot_count order extents.now }
    requires few { slot_count order extents.now ≤ 2 ^ 24 }
    ensures rules { IfOk result (λ rules. IsRuled (in_rows (row_at order extents.now) (M.layout mapping.now)) extents.now
        (map (λ h. h.width) (M.hold_list mapping.now)) rules) }
    ensures orders { IfOk result (λ rules. map (λ rule. rule.order) rules ≡ map (λ cell. order) (M.cell_list mapping.now)) }
    ensures arrays { IfOk result (λ rules. AreArrays (M.layout mapping.now) (M.slot_count mapping.now) (M.lane_count mapping.now)
        (map (λ h. h.width) (M.hold_list mapping.now)) rules) }
{
    let mut rules = PlanRules::new(alloc);
    for cell in 0..mapping.cells() {
        rules.push(Rule::of_piece(order, mapping.rule(cell)))?;
    }
    Ok(rules)
}
