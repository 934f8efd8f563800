ghost use Rattle.std.specs.Prelude.{ℕ, ◌≡◌, ◌+◌, ◌/◌, ◌%◌, ◌^◌, ◌<◌, ◌≤◌};
ghost use Rattle.std.specs.Int.{bit_at};

/// Bits `low` to `low + n - 1` of `word`, as a number.
pub fn bits_in_word(word: u64, low: u32, n: u32) -> u64
    requires some { 0 < n }
    requires within { low + n ≤ 64 }
    ensures { result ≡ (word / 2 ^ low) % 2 ^ n }
{
    (word >> low) & (u64::MAX >> (64 - n))
}

/// `word` with `value` in its bits `low` to `low + n - 1`.
pub fn with_bits(word: u64, low: u32, n: u32, value: u64) -> u64
    requires some { 0 < n }
    requires within { low + n ≤ 64 }
    requires fits { value < 2 ^ n }
    ensures inside { (k : ℕ) → k < n → bit_at result (low + k) ≡ bit_at value k }
    ensures before { (k : ℕ) → k < low → bit_at result k ≡ bit_at word k }
    ensures after { (k : ℕ) → low + n ≤ k → bit_at result k ≡ bit_at word k }
    ensures small { (m : ℕ) → low + n ≤ m → word < 2 ^ m → result < 2 ^ m }
{
    let mask = (u64::MAX >> (64 - n)) << low;
    (word & !mask) | (value << low)
}
