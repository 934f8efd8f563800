// Whether numbers lie between two.
ghost use Rattle.std.specs.Prelude.{ℕ, ◌≡◌, ◌<◌, ◌≤ℤ◌, true, pos, length, slice_index_or};
ghost use Rattle.piece_bits.specs.Inner.Distances.{far_of};

/// Whether all numbers lie between two, both included. True is sure. So is false where the two lie one less than a power of two apart. A
/// number costs a subtraction and an `or`.
pub fn are_within(least: i64, greatest: i64, values: &[i64]) -> bool
    ensures { result ≡ true → (k : ℕ) → k < length values.now
        → (least ≤ℤ slice_index_or values.now k (pos 0)) × (slice_index_or values.now k (pos 0) ≤ℤ greatest) }
{
    let mut far = 0;
    for value in values {
        far |= distance(least, *value);
    }
    least <= greatest && far <= distance(least, greatest)
}

// How far a number lies above another, around the end of 64 bits.
#[inline(always)]
fn distance(least: i64, value: i64) -> u64
    ensures { result ≡ far_of least value }
{
    value.cast_unsigned().wrapping_sub_signed(least)
}
