// How the numbers of a leaf are to stand, and where that in a row does.
ghost use Rattle.std.specs.Prelude.{ℕ, ◌≡◌, ◌+◌, ◌^◌, ◌<◌, All, IfSome, IsSomeAnd, Some, true, length, map};
ghost use Rattle.piece_bits.specs.Prelude.{spots_of, spot_at};
ghost use Rattle.leaf_places.specs.Spots.{bit_by, first_by, IsForm};
ghost use Rattle.leaf_places.specs.Inner.Search.{IsSought, StandsAt};

use crate::spot::{Spot, spot_in};
use places::{Mapping, Piece, laws_of, pieces_of};

/// The numbers of a leaf, which have so many bits, and how they are to stand.
#[derive(Clone, Copy)]
pub struct Sought {
    pub leaf: usize,
    pub width: u32,
    pub is_turned: bool,
    pub in_bits: bool,
}

/// Where a number stands: at which byte of its blob, or at which bit.
#[derive(Clone, Copy)]
pub struct Stand {
    pub blob: usize,
    pub place: u64,
}

/// Where the number in a row stands, if it does as it is sought.
pub fn stand_of<M: Mapping>(mapping: &M, sought: Sought, row: u64) -> Option<Stand>
    requires row_in { row < M.slot_count mapping.now }
    requires sought { IsSought (map (λ h. h.width) (M.hold_list mapping.now)) sought }
    ensures stands { IfSome result (λ stand. StandsAt (M.layout mapping.now) sought row stand.blob stand.place) }
    ensures only { (blob place : ℕ) → StandsAt (M.layout mapping.now) sought row blob place
        → IsSomeAnd result (λ stand. (stand.blob ≡ blob) × (stand.place ≡ place)) }
{
    laws_of(mapping);
    let found = pieces_of(mapping, row, sought.leaf);
    let pieces = found.as_slice();
    let first = spot_in(pieces, sought.low());
    if !sought.is_from(pieces, first) {
        return None;
    }
    let place = sought.place_of(first.bit)?;
    Some(Stand {
        blob: first.blob,
        place,
    })
}

impl Sought {
    /// Which bit of a number stands first.
    fn low(self) -> u32
        requires { IsForm self.in_bits self.is_turned self.width }
        ensures first { (first : ℕ) → bit_by self.is_turned first self.width result ≡ first }
        ensures inside { 0 < self.width → result < self.width }
    {
        if self.is_turned { self.width - 8 } else { 0 }
    }

    /// How far behind the first bit of a number its bit k stands.
    fn ahead(self, k: u32) -> u32
        requires form { IsForm self.in_bits self.is_turned self.width }
        requires inside { k < self.width }
        ensures { (first : ℕ) → bit_by self.is_turned first self.width k ≡ first + result }
    {
        if self.is_turned {
            8 * (self.width / 8 - 1 - k / 8) + k % 8
        } else {
            k
        }
    }

    /// Whether all bits of pieces stand as those of a number do whose first is this one.
    fn is_from(self, pieces: &[Piece], first: Spot) -> bool
        requires form { IsForm self.in_bits self.is_turned self.width }
        requires wide { length (spots_of pieces.now) ≡ self.width }
        requires bound { All (λ piece. piece.bit + piece.bits < 2 ^ 64) pieces.now }
        ensures yes { result ≡ true → (k : ℕ) → k < self.width
            → spot_at (spots_of pieces.now) k ≡ (first.blob, bit_by self.is_turned first.bit self.width k) }
        ensures no { ((k : ℕ) → k < self.width → spot_at (spots_of pieces.now) k ≡ (first.blob, bit_by self.is_turned first.bit self.width k))
            → result ≡ true }
    {
        for k in 0..self.width {
            let spot = spot_in(pieces, k);
            if !is_behind(spot, first, self.ahead(k)) {
                return false;
            }
        }
        true
    }

    /// The place that a bit begins, if it begins one.
    fn place_of(self, bit: u64) -> Option<u64>
        ensures begins { IfSome result (λ place. first_by self.in_bits place ≡ bit) }
        ensures only { (place : ℕ) → first_by self.in_bits place ≡ bit → result ≡ Some place }
    {
        if self.in_bits {
            return Some(bit);
        }
        if bit % 8 == 0 { Some(bit / 8) } else { None }
    }
}

/// Whether a bit stands so far behind another.
fn is_behind(spot: Spot, first: Spot, ahead: u32) -> bool
    ensures yes { result ≡ true → (spot.blob ≡ first.blob) × (spot.bit ≡ first.bit + ahead) }
    ensures no { spot.blob ≡ first.blob → spot.bit ≡ first.bit + ahead → result ≡ true }
{
    spot.blob == first.blob && spot.bit >= first.bit && spot.bit - first.bit == u64::from(ahead)
}
