// The low bits of a number, as a hold and as a type say them.
ghost use Rattle.std.specs.Prelude.{ℕ, ◌≡◌, ◌≤◌, ◌<◌, ◌^◌};
ghost use Rattle.piece_bits.specs.Imports.{number, digit};
ghost use Rattle.piece_bits.specs.LowBits.{value_bits, declared, held, kept};

use crate::decode;
use places::Hold;
use record_dim::LeafType;

// The low bits of a number, so many.
fn low_part(value: i128, width: u32) -> u64
    requires { width ≤ 64 }
    ensures value { result ≡ number (digit value) width }
    ensures small { result < 2 ^ width }
{
    let count = 1_u128 << width;
    if value < 0 {
        let above = -(value + 1) as u128 % count;
        (count - 1 - above) as u64
    } else {
        (value as u128 % count) as u64
    }
}

/// What the bits of a hold say once a value is stored in them: the low bits of the value that the hold has room for, read in the hold's
/// sign. A number that the hold can tell is itself.
pub fn held(hold: Hold, value: i128) -> i128
    requires some { 1 ≤ hold.width }
    requires narrow { hold.width ≤ 64 }
    ensures { result ≡ held hold value }
{
    decode(hold, low_part(value, hold.width))
}

// The bits that tell the values of a type apart.
fn value_bits(kind: LeafType) -> u32
    ensures value { result ≡ value_bits kind }
    ensures some { 1 ≤ result }
    ensures narrow { result ≤ 64 }
{
    match kind {
        LeafType::Bool => 1,
        _ => kind.width(),
    }
}

/// The number in the declared range of a type that has the same low bits: of a `bool` the last bit, of every other type as many as the
/// type is wide. A number in the range is itself.
pub fn declared(kind: LeafType, value: i128) -> i128
    ensures { result ≡ declared kind value }
{
    held(
        Hold {
            signed: kind.signed(),
            width: value_bits(kind),
        },
        value,
    )
}

/// The number that is left of a value by a store which keeps the low bits: those that the hold has room for, and of these those that the
/// type has.
pub fn kept(kind: LeafType, hold: Hold, value: i128) -> i128
    requires some { 1 ≤ hold.width }
    requires narrow { hold.width ≤ 64 }
    ensures { result ≡ kept kind hold value }
{
    declared(kind, held(hold, value))
}
