//! Orders: where the index of an array stands among the slots of memory. Nothing here takes memory.
#![tactic(auto)]

ghost use Rattle.std.specs.Prelude.{◌≡◌, ◌-◌, ◌*◌, ◌^◌, ◌<◌, ◌≤◌, ◌↔◌, ℕ, List, length, fold, max, min, reverse, All, IfSome, IsNone, IsSomeAnd, Some, slice_get};
ghost use Rattle.extents.specs.Indices.{indices, product, IsInside};
ghost use Rattle.linearize.specs.Slots.{digits_for, interleaved, place_in, row_at, slot_count, slot_of};

mod columns;
mod digits;

pub use crate::columns::Columns;
pub use crate::digits::in_turn;
use crate::digits::spread;
pub use extents::Order;
use places::MAX_SLOTS;

/// The number of slots over these extents, None where there are more than 2^24.
#[tactic(auto, using(crate::proofs::Auto::steps))]
pub fn slots<const R: usize>(order: Order, extents: &[u64; R]) -> Option<u64>
    requires ranked { (0 < R) × (R ≤ 4) }
    requires narrow { All (λ n. n < 2 ^ 32) extents.now }
    ensures count { IfSome result (λ count. count ≡ slot_count order extents.now) }
    ensures too_many { IsNone result ↔ (2 ^ 24 < slot_count order extents.now) }
{
    let count = saturating_count(order, extents);
    if count > MAX_SLOTS { None } else { Some(count) }
}

/// The slot of an index inside extents with at most 2^24 slots.
#[tactic(auto, using(crate::proofs::Auto::steps))]
pub fn slot<const R: usize>(order: Order, extents: &[u64; R], index: &[u64; R]) -> u64
    requires ranked { (0 < R) × (R ≤ 4) }
    requires narrow { All (λ n. n < 2 ^ 32) extents.now }
    requires few { slot_count order extents.now ≤ 2 ^ 24 }
    requires inside { IsInside extents.now index.now }
    ensures slot { result ≡ slot_of order extents.now index.now }
    ensures below { result < slot_count order extents.now }
    ensures alone { (other : List ℕ) → IsInside extents.now other → slot_of order extents.now other ≡ result → other ≡ index.now }
    ensures row { IsSomeAnd (row_at order extents.now result) (λ row. slice_get (indices extents.now) row ≡ Some index.now) }
{
    place(order, extents, index)
}

#[tactic(auto, using(crate::proofs::Auto::steps))]
fn saturating_count(order: Order, extents: &[u64]) -> u64
    requires { length extents.now ≤ 4 }
    ensures { result ≡ min (slot_count order extents.now) (2 ^ 64 - 1) }
{
    match order {
        Order::Row | Order::Col => saturating_product(extents),
        Order::Morton => saturating_power(extents.len() as u32 * digits_for(extents)),
    }
}

fn place(order: Order, extents: &[u64], index: &[u64]) -> u64
    requires ranked { (0 < length extents.now) × (length extents.now ≤ 4) }
    requires few { slot_count order extents.now ≤ 2 ^ 24 }
    requires inside { IsInside extents.now index.now }
    ensures { result ≡ slot_of order extents.now index.now }
{
    match order {
        Order::Row => place_by_rows(extents, index),
        Order::Col => place_by_columns(extents, index),
        Order::Morton => place_by_digits(extents, index),
    }
}

#[tactic(auto, using(crate::proofs::Auto::steps))]
fn saturating_product(extents: &[u64]) -> u64
    ensures { result ≡ min (product extents.now) (2 ^ 64 - 1) }
{
    let mut count = 1u64;
    for extent in extents {
        count = count.saturating_mul(*extent);
    }
    count
}

fn saturating_power(exponent: u32) -> u64
    ensures { result ≡ min (2 ^ exponent) (2 ^ 64 - 1) }
{
    if exponent < 64 {
        1 << exponent
    } else {
        u64::MAX
    }
}

/// The number of binary digits that the components of an index inside have room in.
#[tactic(auto, using(crate::proofs::Auto::steps))]
fn digits_for(extents: &[u64]) -> u32
    ensures value { result ≡ digits_for extents.now }
    ensures few { result ≤ 64 }
{
    let greatest = greatest(extents);
    if greatest <= 1 {
        0
    } else {
        (greatest - 1).ilog2() + 1
    }
}

fn greatest(extents: &[u64]) -> u64
    ensures { result ≡ fold max 0 extents.now }
{
    let mut greatest = 0u64;
    for extent in extents {
        greatest = greatest.max(*extent);
    }
    greatest
}

/// The place of an index, the last component the fastest.
#[tactic(auto, using(crate::proofs::Auto::steps))]
fn place_by_rows(extents: &[u64], index: &[u64]) -> u64
    requires few { length (indices extents.now) ≤ 2 ^ 24 }
    requires inside { IsInside extents.now index.now }
    ensures { result ≡ place_in (indices extents.now) index.now }
{
    let mut place = 0;
    for (component, extent) in index.iter().zip(extents) {
        place = place * extent + component;
    }
    place
}

/// The place of an index, the first component the fastest.
#[tactic(auto, using(crate::proofs::Auto::steps))]
fn place_by_columns(extents: &[u64], index: &[u64]) -> u64
    requires few { length (indices (reverse extents.now)) ≤ 2 ^ 24 }
    requires inside { IsInside extents.now index.now }
    ensures { result ≡ place_in (indices (reverse extents.now)) (reverse index.now) }
{
    let mut place = 0;
    for d in (0..extents.len()).rev() {
        place = place * extents[d] + index[d];
    }
    place
}

/// The place of an index in Morton order: the digits of its components, each in its turn.
#[tactic(auto, using(crate::proofs::Auto::steps))]
fn place_by_digits(extents: &[u64], index: &[u64]) -> u64
    requires ranked { (0 < length extents.now) × (length extents.now ≤ 4) }
    requires few { 2 ^ (length extents.now * digits_for extents.now) ≤ 2 ^ 24 }
    requires inside { IsInside extents.now index.now }
    ensures { result ≡ interleaved index.now }
{
    let mut place = 0;
    for (d, component) in index.iter().enumerate() {
        place |= spread(*component, index.len()) << (index.len() - 1 - d);
    }
    place
}
