ghost use Rattle.std.specs.Prelude.{ℕ, ◌≡◌, ◌<◌, ◌≤◌, ◌^◌, All, IfOk, IfErr, OnOk, length};
ghost use Rattle.map_checks.specs.Imports.{indices, IsInside, slot_at, slot_count, slot_of};

use crate::MakeMap;
use extents::Extents;
use linearize::{Order, slot, slots};

/// The extents as an array, where there are `R`.
fn sizes<const R: usize>(extents: &Extents) -> [u64; R]
    requires { length extents.now ≡ R }
    ensures { result ≡ extents.now }
{
    let mut sizes = [0; R];
    for d in 0..R {
        sizes[d] = extents.at(d);
    }
    sizes
}

/// The number of slots over these extents. `TooBig` comes exactly where there are more than 2^24.
pub fn count_slots(order: Order, extents: &Extents) -> Result<u64, MakeMap>
    ensures count { IfOk result (λ count. count ≡ slot_count order extents.now) }
    ensures few { OnOk result (slot_count order extents.now ≤ 2 ^ 24) }
    ensures too_many { IfErr result (λ e. (e ≡ MakeMap.TooBig) × (2 ^ 24 < slot_count order extents.now)) }
{
    let count = match extents.rank() {
        1 => slots(order, &sizes::<1>(extents)),
        2 => slots(order, &sizes::<2>(extents)),
        3 => slots(order, &sizes::<3>(extents)),
        _ => slots(order, &sizes::<4>(extents)),
    };
    count.ok_or(MakeMap::TooBig)
}

/// The number of slots over these extents, of which there are at most 2^24.
pub fn slots_of(order: Order, extents: &Extents) -> u64
    requires few { slot_count order extents.now ≤ 2 ^ 24 }
    ensures { result ≡ slot_count order extents.now }
{
    match count_slots(order, extents) {
        Ok(count) => count,
        Err(_) => unreachable!(),
    }
}

/// The slot of an index, where there are `R` extents.
fn slot_of_array<const R: usize>(order: Order, extents: &Extents, index: &[u64]) -> u64
    requires ranked { (0 < R) × (R ≤ 4) }
    requires rank { length extents.now ≡ R }
    requires narrow { All (λ n. n < 2 ^ 32) extents.now }
    requires few { slot_count order extents.now ≤ 2 ^ 24 }
    requires inside { IsInside extents.now index.now }
    ensures { result ≡ slot_of order extents.now index.now }
{
    let mut components = [0; R];
    components.copy_from_slice(index);
    slot(order, &sizes::<R>(extents), &components)
}

/// The slot of an index inside the extents.
fn slot_of_index(order: Order, extents: &Extents, index: &[u64]) -> u64
    requires few { slot_count order extents.now ≤ 2 ^ 24 }
    requires inside { IsInside extents.now index.now }
    ensures { result ≡ slot_of order extents.now index.now }
{
    match extents.rank() {
        1 => slot_of_array::<1>(order, extents, index),
        2 => slot_of_array::<2>(order, extents, index),
        3 => slot_of_array::<3>(order, extents, index),
        _ => slot_of_array::<4>(order, extents, index),
    }
}

// The slot of a row by its index. It is kept out of the way by rows, which needs no index.
#[inline(never)]
fn slot_by_index(order: Order, extents: &Extents, row: u64) -> u64
    requires few { slot_count order extents.now ≤ 2 ^ 24 }
    requires row_in { row < length (indices extents.now) }
    ensures slot { result ≡ slot_at order extents.now row }
    ensures below { result < slot_count order extents.now }
{
    slot_of_index(order, extents, extents.index_of(row).as_slice())
}

/// The slot of a row. By rows it is the row, with no division.
#[inline(always)]
pub fn slot_of_row(order: Order, extents: &Extents, row: u64) -> u64
    requires few { slot_count order extents.now ≤ 2 ^ 24 }
    requires row_in { row < length (indices extents.now) }
    ensures slot { result ≡ slot_at order extents.now row }
    ensures below { result < slot_count order extents.now }
{
    match order {
        Order::Row => row,
        _ => slot_by_index(order, extents, row),
    }
}
