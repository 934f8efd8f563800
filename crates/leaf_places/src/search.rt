// The groups of rows in which the numbers of a leaf lie, found by a look at each row.
ghost use Rattle.std.specs.Prelude.{ℕ, ◌≡◌, ◌≢◌, ◌+◌, ◌<◌, ◌≤◌, IfSome, IsSomeAnd, None, true, false, map, ◌^◌};
ghost use Rattle.leaf_places.specs.Spots.{spot_by};
ghost use Rattle.leaf_places.specs.Inner.Search.{place_in, IsBegun, IsSought, IsWay, StandAlong, StandsAt};

use crate::grouped::Grouped;
use crate::sought::{Sought, stand_of};
use places::{Mapping, laws_of};

/// The groups in which the numbers of a leaf lie, where there are such.
pub fn groups_sought<M: Mapping>(mapping: &M, sought: Sought) -> Option<Grouped>
    requires some { 0 < M.slot_count mapping.now }
    requires sought { IsSought (map (λ h. h.width) (M.hold_list mapping.now)) sought }
    ensures stand { IfSome result (λ groups. StandAlong (M.layout mapping.now) sought (M.slot_count mapping.now) groups.blob (place_in groups)) }
    ensures only { (blob base lanes lane block : ℕ) → 0 < lanes
        → StandAlong (M.layout mapping.now) sought (M.slot_count mapping.now) blob (spot_by false base lanes lane block) → result ≢ None }
{
    laws_of(mapping);
    let rows = mapping.slots();
    let one = one_group(mapping, sought)?;
    let led = rows_led(mapping, sought, one);
    if led == rows {
        return Some(one);
    }
    if led == 0 {
        return None;
    }
    let block = step_to(mapping, sought, one.base, led)?;
    let many = Grouped {
        blob: one.blob,
        base: one.base,
        lanes: led,
        lane: one.lane,
        block,
    };
    if rows_led(mapping, sought, many) == rows {
        Some(many)
    } else {
        None
    }
}

/// All rows as one group, by the first two.
fn one_group<M: Mapping>(mapping: &M, sought: Sought) -> Option<Grouped>
    requires some { 0 < M.slot_count mapping.now }
    requires sought { IsSought (map (λ h. h.width) (M.hold_list mapping.now)) sought }
    ensures { (blob : ℕ) (way : ℕ → ℕ) → IsWay (M.layout mapping.now) sought (M.slot_count mapping.now) blob way
        → IsSomeAnd result (IsBegun (M.slot_count mapping.now) blob way) }
{
    let first = stand_of(mapping, sought, 0)?;
    let lane = first_step(mapping, sought, first.place)?;
    Some(Grouped {
        blob: first.blob,
        base: first.place,
        lanes: mapping.slots(),
        lane,
        block: 0,
    })
}

/// From a place to the second row, if there is one.
fn first_step<M: Mapping>(mapping: &M, sought: Sought, from: u64) -> Option<u64>
    requires { IsSought (map (λ h. h.width) (M.hold_list mapping.now)) sought }
    ensures { (blob : ℕ) (way : ℕ → ℕ) → IsWay (M.layout mapping.now) sought (M.slot_count mapping.now) blob way → from ≡ way 0
        → IsSomeAnd result (λ step. 1 < M.slot_count mapping.now → from + step ≡ way 1) }
{
    if mapping.slots() < 2 {
        return Some(0);
    }
    step_to(mapping, sought, from, 1)
}

/// From a place to that of a row, if it is not behind it.
fn step_to<M: Mapping>(mapping: &M, sought: Sought, from: u64, row: u64) -> Option<u64>
    requires row_in { row < M.slot_count mapping.now }
    requires sought { IsSought (map (λ h. h.width) (M.hold_list mapping.now)) sought }
    ensures { (blob place : ℕ) → StandsAt (M.layout mapping.now) sought row blob place → from ≤ place
        → IsSomeAnd result (λ step. from + step ≡ place) }
{
    let stand = stand_of(mapping, sought, row)?;
    stand.place.checked_sub(from)
}

/// How many rows from the first on groups lead to where their numbers stand.
fn rows_led<M: Mapping>(mapping: &M, sought: Sought, groups: Grouped) -> u64
    requires { IsSought (map (λ h. h.width) (M.hold_list mapping.now)) sought }
    ensures few { result ≤ M.slot_count mapping.now }
    ensures led { StandAlong (M.layout mapping.now) sought result groups.blob (place_in groups) }
    ensures astray { result < M.slot_count mapping.now → StandsAt (M.layout mapping.now) sought result groups.blob (place_in groups result) → ⊥ }
{
    for row in 0..mapping.slots() {
        if !is_led(mapping, sought, groups, row) {
            return row;
        }
    }
    mapping.slots()
}

/// Whether groups lead a row to where its number stands.
fn is_led<M: Mapping>(mapping: &M, sought: Sought, groups: Grouped, row: u64) -> bool
    requires row_in { row < M.slot_count mapping.now }
    requires sought { IsSought (map (λ h. h.width) (M.hold_list mapping.now)) sought }
    ensures yes { result ≡ true → StandsAt (M.layout mapping.now) sought row groups.blob (place_in groups row) }
    ensures no { StandsAt (M.layout mapping.now) sought row groups.blob (place_in groups row) → result ≡ true }
{
    match stand_of(mapping, sought, row) {
        Some(stand) => stand.blob == groups.blob && groups.lead(row, stand.place),
        None => false,
    }
}

impl Grouped {
    /// Whether they lead a row to a place.
    fn lead(self, row: u64, place: u64) -> bool
        ensures yes { result ≡ true → place_in self row ≡ place }
        ensures no { place_in self row ≡ place → result ≡ true }
    {
        match self.place_of(row) {
            Some(there) => there == place,
            None => false,
        }
    }

    /// Where they lead a row. None where the place is no number of 64 bits.
    fn place_of(self, row: u64) -> Option<u64>
        ensures there { IfSome result (λ place. place ≡ place_in self row) }
        ensures far { result ≡ None → 2 ^ 64 ≤ place_in self row }
    {
        let groups = (row / self.lanes).checked_mul(self.block)?;
        let rest = (row % self.lanes).checked_mul(self.lane)?;
        self.base.checked_add(groups)?.checked_add(rest)
    }
}
