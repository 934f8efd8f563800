ghost use Rattle.std.specs.Prelude.{ℕ, ◌≡◌, ◌^◌, ◌<◌, ◌≤◌, true, pos, ◌-ℤ◌};
ghost use Rattle.piece_bits.specs.Imports.{IsIn, least_in, greatest_in, number, digit, decoded};

use places::Hold;

/// The bits of a value that its hold holds, as a number (two's complement).
#[inline(always)]
pub fn encode(hold: Hold, value: i128) -> u64
    requires some { 1 ≤ hold.width }
    requires narrow { hold.width ≤ 64 }
    requires fits { IsIn hold.signed hold.width value }
    ensures { result ≡ number (digit value) hold.width }
{
    if value >= 0 {
        value as u64
    } else {
        (u64::MAX >> (64 - hold.width)) - (-(value + 1)) as u64
    }
}

/// The value that bits say under a hold (two's complement). One, two, four and eight bytes go by a cast, which is one step with the load.
#[inline(always)]
pub fn decode(hold: Hold, bits: u64) -> i128
    requires some { 1 ≤ hold.width }
    requires narrow { hold.width ≤ 64 }
    requires fits { bits < 2 ^ hold.width }
    ensures { result ≡ decoded hold.signed hold.width bits }
{
    if !hold.signed {
        return i128::from(bits);
    }
    if hold.width <= 16 {
        if hold.width == 8 {
            return from_byte(bits);
        }
        if hold.width == 16 {
            return from_two(bits);
        }
        return from_bits(bits, hold.width);
    }
    if hold.width == 32 {
        return from_four(bits);
    }
    if hold.width == 64 {
        return from_eight(bits);
    }
    from_bits(bits, hold.width)
}

#[inline(always)]
fn from_byte(bits: u64) -> i128
    requires { bits < 2 ^ 8 }
    ensures low { bits < 2 ^ 7 → result ≡ pos bits }
    ensures high { 2 ^ 7 ≤ bits → result ≡ pos bits -ℤ pos (2 ^ 8) }
{
    i128::from((bits as u8).cast_signed())
}

#[inline(always)]
fn from_two(bits: u64) -> i128
    requires { bits < 2 ^ 16 }
    ensures low { bits < 2 ^ 15 → result ≡ pos bits }
    ensures high { 2 ^ 15 ≤ bits → result ≡ pos bits -ℤ pos (2 ^ 16) }
{
    i128::from((bits as u16).cast_signed())
}

#[inline(always)]
fn from_four(bits: u64) -> i128
    requires { bits < 2 ^ 32 }
    ensures low { bits < 2 ^ 31 → result ≡ pos bits }
    ensures high { 2 ^ 31 ≤ bits → result ≡ pos bits -ℤ pos (2 ^ 32) }
{
    i128::from((bits as u32).cast_signed())
}

#[inline(always)]
fn from_eight(bits: u64) -> i128
    ensures low { bits < 2 ^ 63 → result ≡ pos bits }
    ensures high { 2 ^ 63 ≤ bits → result ≡ pos bits -ℤ pos (2 ^ 64) }
{
    i128::from(bits.cast_signed())
}

/// The signed value of any number of bits: half of the range is added, and taken off again.
fn from_bits(bits: u64, width: u32) -> i128
    requires some { 1 ≤ width }
    requires narrow { width ≤ 64 }
    requires fits { bits < 2 ^ width }
    ensures { result ≡ decoded true width bits }
{
    let half = 1u64 << (width - 1);
    let moved = if bits < half {
        bits + half
    } else {
        bits - half
    };
    i128::from(moved) - i128::from(half)
}
