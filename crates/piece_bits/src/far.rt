// Numbers of any length, digit by digit.
ghost use Rattle.std.specs.Prelude.{◌≡◌, ◌<◌, ◌^◌};
ghost use Rattle.piece_bits.specs.Inner.Far.{folded};

/// A number below 2^66 with the same 64 low bits. One below 2^65 is itself, and one from there on stays there, beyond what any leaf
/// reaches. So the digits of a number of any length can be read one by one, with `folded(value * 10 + digit)` in between.
pub fn folded(value: u128) -> u128
    ensures number { result ≡ folded value }
    ensures small { result < 2 ^ 66 }
{
    if value < 1 << 65 {
        value
    } else {
        (1 << 65) + value % (1 << 64)
    }
}
