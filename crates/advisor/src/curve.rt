// Which slots rows have: all slots by rows and by columns, and on the Morton curve those of cubes that lie in the array.
ghost use Rattle.std.specs.Prelude.{ℕ, ◌≡◌, ◌+◌, ◌<◌, ◌≤◌, ◌^◌, IfSome, IsNone, length};
ghost use Rattle.advisor.specs.Imports.{slot_count};
ghost use Rattle.advisor.specs.Inner.Curve.{component, has_row, IsFarFromEnds, IsOutside};

use extents::Extents;
use linearize::Order;
use places::MAX_SLOTS;

/// Slots one after another, each of a row or none.
#[derive(Clone, Copy)]
pub struct SlotRun {
    pub slots: u64,
    /// Whether they are of rows.
    pub rows: bool,
}

// The most binary digits of a slot.
const DIGITS: u32 = 24;

/// The run of slots from one on, of so many that are left.
pub fn run_from(order: Order, extents: &Extents, slot: u64, left: u64) -> SlotRun
    requires some { 0 < left }
    requires end { slot + left ≡ slot_count order extents.now }
    requires few { slot_count order extents.now ≤ 2 ^ 24 }
    ensures some { 0 < result.slots }
    ensures few { result.slots ≤ left }
    ensures rows { (k : ℕ) → k < result.slots → has_row order extents.now (slot + k) ≡ result.rows }
{
    match order {
        Order::Row | Order::Col => SlotRun {
            slots: left,
            rows: true,
        },
        Order::Morton => cube_from(extents, slot, left),
    }
}

// The same on the curve: the slots of the greatest cube that begins with this one, and lies in the array or beside it.
fn cube_from(extents: &Extents, slot: u64, left: u64) -> SlotRun
    requires some { 0 < left }
    requires few { slot + left ≤ 2 ^ 24 }
    ensures some { 0 < result.slots }
    ensures few { result.slots ≤ left }
    ensures rows { (k : ℕ) → k < result.slots → has_row Order.Morton extents.now (slot + k) ≡ result.rows }
{
    let rank = extents.rank() as u32;
    let digits = (slot.trailing_zeros() / rank).min(DIGITS / rank);
    match room_at(extents, slot) {
        Some(room) => SlotRun {
            slots: (1u64 << (rank * digits.min(room.ilog2()))).min(left),
            rows: true,
        },
        None => SlotRun {
            slots: (1u64 << (rank * digits)).min(left),
            rows: false,
        },
    }
}

// How far the index of a slot on the curve is from the nearest end of the array. None where it lies outside.
fn room_at(extents: &Extents, slot: u64) -> Option<u64>
    ensures some { IfSome result (IsFarFromEnds extents.now slot) }
    ensures none { IsNone result → IsOutside extents.now slot }
{
    let mut room = MAX_SLOTS;
    for d in 0..extents.rank() {
        let component = component(slot, extents.rank(), d);
        let extent = extents.at(d);
        if component >= extent {
            return None;
        }
        room = room.min(extent - component);
    }
    Some(room)
}

// A component of the index of a slot on the curve.
fn component(slot: u64, rank: usize, d: usize) -> u64
    requires ranked { (0 < rank) × (rank ≤ 4) }
    requires inside { d < rank }
    ensures { result ≡ component rank slot d }
{
    let mut component = 0;
    for digit in 0..DIGITS as usize / rank {
        let place = digit * rank + (rank - 1 - d);
        component += ((slot >> place) & 1) << digit;
    }
    component
}
