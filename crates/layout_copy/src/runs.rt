// A copy that goes by runs of slots, between views that lay out arrays whose slots are in one order.
ghost use Rattle.std.specs.Prelude.{◌≡◌, ◌+◌, ◌%◌, ◌<◌, ◌≤◌, Some, min, length, option_map};
ghost use Rattle.layout_copy.specs.Imports.{array_of, slots_in, AreRuns, HasSlots, leaf_count_of};
ghost use Rattle.layout_copy.specs.Copies.{AreAlike};
ghost use Rattle.layout_copy.specs.Costs.{leaf_sizes, round_steps, slot_run_steps};
ghost use Rattle.layout_copy.specs.Inner.CopiedRuns.{order_by, IsPieceMoved};

use map_any::ArraySlots;
use record_dim::Steps;
use std::sync::ledger::Ledger;
use views::{View, laws_of_table};

// The blocks of the shorter ones of two sides that are copied leaf after leaf: few enough that both sides' bytes stay at hand, and so many
// that what is worked out once for each leaf is little beside them.
const ROUND_BLOCKS: u64 = 64;

// Makes the rows of a view those of another one, which is alike. Nothing is counted.
pub(crate) fn copy_runs<L: Ledger>(source: &View, target: &mut View, steps: &mut Steps<L>)
    requires alike { AreAlike target.old source.now }
    requires arrays { AreRuns target.old.mapping source.now.mapping }
    ensures rows { target.new ≡ record target.old { rows = source.now.rows } }
    ensures steps { steps.new ≤ steps.old + slot_run_steps (array_of source.now.mapping) (array_of target.old.mapping) target.old.extents (leaf_sizes target.old.fields) }
{
    let Some(from) = source.array_slots() else {
        return;
    };
    let Some(to) = target.array_slots() else {
        return;
    };
    copy_rounds(source, target, from, to, steps);
}

// Copies all slots, round after round.
fn copy_rounds<L: Ledger>(
    source: &View,
    target: &mut View,
    from: ArraySlots,
    to: ArraySlots,
    steps: &mut Steps<L>,
)
    requires alike { AreAlike target.old source.now }
    requires arrays { AreRuns target.old.mapping source.now.mapping }
    requires from { option_map (slots_in source.now.extents) (array_of source.now.mapping) ≡ Some from }
    requires to { option_map (slots_in target.old.extents) (array_of target.old.mapping) ≡ Some to }
    requires from_lanes { 0 < from.slots → 0 < from.lanes }
    requires to_lanes { 0 < to.slots → 0 < to.lanes }
    ensures rows { target.new ≡ record target.old { rows = source.now.rows } }
    ensures steps { steps.new ≤ steps.old + slot_run_steps (array_of source.now.mapping) (array_of target.old.mapping) target.old.extents (leaf_sizes target.old.fields) }
{
    let mut slot = 0;
    while slot < from.slots {
        let count = round_count(from, to, slot);
        copy_round(source, target, slot, count, steps);
        slot += count;
    }
    laws_of_table(source);
    laws_of_table(target);
}

// How many slots are copied from this one on, leaf after leaf: at most so many blocks of the shorter ones.
fn round_count(from: ArraySlots, to: ArraySlots, slot: u64) -> u64
    requires slot_in { slot < from.slots }
    requires from_lanes { 0 < from.lanes }
    requires to_lanes { 0 < to.lanes }
    ensures some { 0 < result }
    ensures inside { slot + result ≤ from.slots }
    ensures whole { slot + result < from.slots → slot % min from.lanes to.lanes ≡ 0 → (slot + result) % min from.lanes to.lanes ≡ 0 }
{
    let lanes = from.lanes.min(to.lanes);
    (from.slots - slot).min(lanes.saturating_mul(ROUND_BLOCKS))
}

// Copies the slots of a round, leaf after leaf.
fn copy_round<L: Ledger>(
    source: &View,
    target: &mut View,
    slot: u64,
    count: u64,
    steps: &mut Steps<L>,
)
    requires alike { AreAlike target.old source.now }
    requires arrays { AreRuns target.old.mapping source.now.mapping }
    requires slots { HasSlots target.old.mapping target.old.extents slot count }
    ensures same { target.new ≡ record target.old { rows = target.new.rows } }
    ensures moved { IsPieceMoved (order_by target.old.mapping) target.old.extents (leaf_count_of target.old) (leaf_count_of target.old) slot count
        source.now.rows target.old.rows target.new.rows }
    ensures steps { steps.new ≤ steps.old + round_steps (array_of source.now.mapping) (array_of target.old.mapping) target.old.extents
        (leaf_sizes target.old.fields) slot count }
{
    for leaf in 0..target.schema().leaf_count() {
        laws_of_table(target);
        target.move_slots(leaf, slot, count, source, steps);
    }
}
