// The low 64 bits of numbers.
ghost use Rattle.std.specs.Prelude.{◌≡◌, ◌≤◌, ◌<◌, ◌^◌};
ghost use Rattle.piece_bits.specs.Lows.{low_64, IsWithin64};
ghost use Rattle.piece_bits.specs.Imports.{number, digit};

use blobs::bits_in_word;

/// The low 64 bits of a number that has 64 bits with a sign or without, read with a sign.
#[inline(always)]
pub fn low_of(value: i128) -> i64
    requires { IsWithin64 value }
    ensures { result ≡ low_64 value }
{
    match i64::try_from(value) {
        Ok(low) => low,
        Err(_) => (value as u64).cast_signed(),
    }
}

/// So many low bits of a number, as two's complement has them.
#[inline(always)]
pub fn low_bits(value: i64, width: u32) -> u64
    requires some { 1 ≤ width }
    requires narrow { width ≤ 64 }
    ensures bits { result ≡ number (digit value) width }
    ensures few { result < 2 ^ width }
{
    bits_in_word(value.cast_unsigned(), 0, width)
}
