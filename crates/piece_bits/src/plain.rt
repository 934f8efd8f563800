// Loops over numbers of any integer type, which the compiler turns into vector code.
ghost use Rattle.std.specs.Prelude.{◌≡◌, ◌+ℤ◌, ◌*ℤ◌, length, map, fold, count_by};
ghost use Rattle.piece_bits.specs.Imports.{int_min, int_max, zip2};
ghost use Rattle.piece_bits.specs.NumberTypes.{compares, SumsFit, ProductsFit};

use crate::compare::Compare;
use num_traits::{PrimInt, clamp_max, clamp_min};

/// A number and all values, summed.
pub fn sum<T: PrimInt>(start: T, values: &[T]) -> T
    requires { SumsFit T.value T.fits (T.value start) values.now }
    ensures { T.value result ≡ fold (λ sum x. sum +ℤ T.value x) (T.value start) values.now }
{
    let mut sum = start;
    for value in values {
        sum = sum + *value;
    }
    sum
}

/// The least of a number and of all values.
pub fn least<T: PrimInt>(start: T, values: &[T]) -> T
    ensures { T.value result ≡ fold (λ least x. int_min least (T.value x)) (T.value start) values.now }
{
    let mut least = start;
    for value in values {
        least = clamp_max(least, *value);
    }
    least
}

/// The greatest of a number and of all values.
pub fn greatest<T: PrimInt>(start: T, values: &[T]) -> T
    ensures { T.value result ≡ fold (λ greatest x. int_max greatest (T.value x)) (T.value start) values.now }
{
    let mut greatest = start;
    for value in values {
        greatest = clamp_min(*value, greatest);
    }
    greatest
}

/// How many values stand so to a constant. Which comparison it is, is asked before the loop.
pub fn count<T: PrimInt>(op: Compare, c: T, values: &[T]) -> usize
    ensures { result ≡ count_by (λ x. compares op (T.value x) (T.value c)) values.now }
{
    match op {
        Compare::Eq => count_by(Compare::Eq, c, values),
        Compare::Ne => count_by(Compare::Ne, c, values),
        Compare::Lt => count_by(Compare::Lt, c, values),
        Compare::Le => count_by(Compare::Le, c, values),
        Compare::Gt => count_by(Compare::Gt, c, values),
        Compare::Ge => count_by(Compare::Ge, c, values),
    }
}

#[inline(always)]
fn count_by<T: PrimInt>(op: Compare, c: T, values: &[T]) -> usize
    ensures { result ≡ count_by (λ x. compares op (T.value x) (T.value c)) values.now }
{
    let mut count = 0;
    for value in values {
        count += usize::from(op.holds(*value, c));
    }
    count
}

/// Brings each value into `lo` to `hi`.
pub fn clamp<T: PrimInt>(lo: T, hi: T, values: &mut [T])
    ensures { map T.value values.new ≡ map (λ x. int_max (T.value lo) (int_min (T.value x) (T.value hi))) values.old }
{
    for value in values.iter_mut() {
        *value = clamp_min(clamp_max(*value, hi), lo);
    }
}

/// Each value becomes itself times a factor, and the value added that stands beside it.
pub fn times_plus<T: PrimInt>(factor: T, values: &mut [T], added: &[T])
    requires beside { length added.now ≡ length values.old }
    requires fit { ProductsFit T.value T.fits (T.value factor) values.old added.now }
    ensures { map T.value values.new ≡ zip2 (λ x y. T.value factor *ℤ T.value x +ℤ T.value y) values.old added.now }
{
    for at in 0..values.len() {
        values[at] = multiple_plus(factor, values[at], added[at]);
    }
}

// A value times a factor, and another added.
#[inline(always)]
fn multiple_plus<T: PrimInt>(factor: T, value: T, added: T) -> T
    requires product { T.fits (T.value factor *ℤ T.value value) }
    requires sum { T.fits (T.value factor *ℤ T.value value +ℤ T.value added) }
    ensures { T.value result ≡ T.value factor *ℤ T.value value +ℤ T.value added }
{
    factor * value + added
}
