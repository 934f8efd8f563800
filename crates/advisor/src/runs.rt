// The granules that a cell touches in the slots of all rows, by runs of slots.
ghost use Rattle.std.specs.Prelude.{ℕ, ◌≡◌, ◌+◌, ◌-◌, ◌*◌, ◌<◌, ◌≤◌, ◌^◌, All, true};
ghost use Rattle.advisor.specs.Imports.{slot_count, heat_counts, IsInside, piece_in};
ghost use Rattle.advisor.specs.Inner.Curve.{has_row};
ghost use Rattle.advisor.specs.Inner.Steady.{IsSteady, HasSteps, is_run_touched, are_slots_touched, are_rows_touched};
ghost use Rattle.advisor.specs.Inner.Warm.{IsWarmed};

use crate::curve::run_from;
use extents::Extents;
use instrument::Heat;
use map_checks::{Rule, slots_of};
use places::{Piece, PieceRule, Pieces};

/// Touches the granules that hold a bit of a cell with this rule in the slot of a row.
pub fn touch_rows(heat: &mut Heat, granule: u32, rule: &Rule, extents: &Extents)
    requires granule { (heat_counts heat.old).granule ≡ granule }
    requires few { slot_count rule.now.order extents.now ≤ 2 ^ 24 }
    requires inside { (slot : ℕ) → has_row rule.now.order extents.now slot ≡ true → All (λ piece. IsInside (heat_counts heat.old) (piece_in piece slot)) rule.now.pieces.items }
    ensures { IsWarmed (heat_counts heat.old) (heat_counts heat.new)
        (are_rows_touched granule rule.now.order extents.now rule.now.pieces.items 0 (slot_count rule.now.order extents.now)) }
{
    let slots = slots_of(rule.order, extents);
    let mut slot = 0;
    while slot < slots {
        let run = run_from(rule.order, extents, slot, slots - slot);
        if run.rows {
            touch_slots(heat, granule, rule.pieces.as_slice(), slot, run.slots);
        }
        slot += run.slots;
    }
}

// Touches the granules that hold a bit of a piece of these rules in one of so many slots from one on.
fn touch_slots(heat: &mut Heat, granule: u32, rules: &[PieceRule], start: u64, count: u64)
    requires granule { (heat_counts heat.old).granule ≡ granule }
    requires end { start + count < 2 ^ 64 }
    requires inside { (k : ℕ) → k < count → All (λ rule. IsInside (heat_counts heat.old) (piece_in rule (start + k))) rules.now }
    ensures { IsWarmed (heat_counts heat.old) (heat_counts heat.new) (are_slots_touched granule rules.now start count) }
{
    for rule in rules {
        touch_rule(heat, granule, rule, start, count);
    }
}

// The same of one rule.
fn touch_rule(heat: &mut Heat, granule: u32, rule: &PieceRule, start: u64, count: u64)
    requires granule { (heat_counts heat.old).granule ≡ granule }
    requires end { start + count < 2 ^ 64 }
    requires inside { (k : ℕ) → k < count → IsInside (heat_counts heat.old) (piece_in rule.now (start + k)) }
    ensures { IsWarmed (heat_counts heat.old) (heat_counts heat.new) (is_run_touched granule rule.now start count) }
{
    let most = run_of(rule, granule);
    let mut done = 0;
    while done < count {
        let slot = start + done;
        let slots = (most - slot % most).min(count - done);
        touch_run(heat, rule, slot, slots);
        done += slots;
    }
}

// Of how many slots from each multiple of this number on the pieces touch what one piece touches that reaches from the first to the last.
fn run_of(rule: &PieceRule, granule: u32) -> u64
    requires granule { 1 ≤ granule }
    ensures some { 0 < result }
    ensures narrow { (result - 1) * (8 * granule) + rule.now.bits < 2 ^ 32 }
    ensures steady { (run count : ℕ) → count ≤ result → IsSteady (8 * granule) rule.now (run * result) count }
{
    let wide = 8 * u64::from(granule);
    let most = u64::from(u32::MAX - rule.bits) / wide + 1;
    if has_steps(rule, wide) {
        most
    } else if rule.lane <= wide && rule.lanes <= most {
        rule.lanes
    } else {
        1
    }
}

// Whether the piece of each slot begins at most so many bits behind that of the slot before it.
fn has_steps(rule: &PieceRule, wide: u64) -> bool
    ensures { result ≡ true → HasSteps wide rule.now }
{
    let Some(across) = (rule.lanes - 1).checked_mul(rule.lane) else {
        return false;
    };
    rule.lane <= wide && across <= rule.block && rule.block - across <= wide
}

// Touches what the pieces of some slots touch, as one piece.
fn touch_run(heat: &mut Heat, rule: &PieceRule, start: u64, count: u64)
    requires some { 0 < count }
    requires end { start + count < 2 ^ 64 }
    requires steady { IsSteady (8 * (heat_counts heat.old).granule) rule.now start count }
    requires narrow { (count - 1) * (8 * (heat_counts heat.old).granule) + rule.now.bits < 2 ^ 32 }
    requires inside { (k : ℕ) → k < count → IsInside (heat_counts heat.old) (piece_in rule.now (start + k)) }
    ensures { IsWarmed (heat_counts heat.old) (heat_counts heat.new) (is_run_touched (heat_counts heat.old).granule rule.now start count) }
{
    let first = rule.piece(start);
    let last = rule.piece(start + (count - 1));
    let bits = last.bit + u64::from(rule.bits) - first.bit;
    let mut pieces = Pieces::new();
    pieces.push(Piece {
        bits: bits as u32,
        ..first
    });
    heat.touch(&pieces);
}
