ghost use Rattle.std.specs.Prelude.{◌≡◌, ◌-ℤ◌, ◌*ℤ◌, int_div, neg_ℤ, Ok, IfSome};
ghost use Rattle.expr_lang.specs.Values.{is_true, truth, decided, divided, ranged, result_of};

use crate::{BinOp, EvalFault};

/// Any number but 0 is true.
#[inline(always)]
pub fn is_true(number: i128) -> bool
    ensures { result ≡ is_true number }
{
    number != 0
}

/// 1 for a fact that holds, and 0 for one that does not.
#[inline(always)]
pub fn truth(holds: bool) -> i128
    ensures { result ≡ truth holds }
{
    if holds { 1 } else { 0 }
}

/// The result that the left side gives alone: that of `and` where it is 0, and that of `or` where it is not.
#[inline(always)]
pub fn decided(op: BinOp, left: i128) -> Option<i128>
    ensures { result ≡ decided op left }
{
    match op {
        BinOp::And => if is_true(left) { None } else { Some(0) },
        BinOp::Or => if is_true(left) { Some(1) } else { None },
        _ => None,
    }
}

/// The result of an operator on both sides. Products and quotients of numbers of 64 bits are tried in 64 bits first, where each is one
/// instruction.
#[inline(always)]
pub fn result_of(op: BinOp, left: i128, right: i128) -> Result<i128, EvalFault>
    ensures { result ≡ result_of op left right }
{
    if matches!(op, BinOp::Mul | BinOp::Div | BinOp::Rem) {
        if let (Ok(near), Ok(other)) = (i64::try_from(left), i64::try_from(right)) {
            if let Some(result) = near_result(op, near, other) {
                return Ok(result);
            }
        }
    }
    far_result(op, left, right)
}

// The same of numbers of 64 bits, where 64 bits show it.
#[inline(always)]
fn near_result(op: BinOp, left: i64, right: i64) -> Option<i128>
    ensures { IfSome result (λ number. result_of op left right ≡ Ok number) }
{
    match op {
        BinOp::Mul => Some(i128::from(left.checked_mul(right)?)),
        BinOp::Div => near_quotient(left, right),
        BinOp::Rem => near_remainder(left, right),
        _ => None,
    }
}

#[inline(always)]
fn near_quotient(left: i64, right: i64) -> Option<i128>
    ensures { IfSome result (λ number. divided right (int_div left right) ≡ Ok number) }
{
    if right == 0 {
        return None;
    }
    Some(i128::from(left.checked_div(right)?))
}

#[inline(always)]
fn near_remainder(left: i64, right: i64) -> Option<i128>
    ensures { IfSome result (λ number. divided right (left -ℤ right *ℤ int_div left right) ≡ Ok number) }
{
    if right == 0 {
        return None;
    }
    Some(i128::from(left.wrapping_rem(right)))
}

// The same of all numbers.
#[inline(always)]
fn far_result(op: BinOp, left: i128, right: i128) -> Result<i128, EvalFault>
    ensures { result ≡ result_of op left right }
{
    match op {
        BinOp::Add => left.checked_add(right).ok_or(EvalFault::Overflow),
        BinOp::Sub => left.checked_sub(right).ok_or(EvalFault::Overflow),
        BinOp::Mul => left.checked_mul(right).ok_or(EvalFault::Overflow),
        BinOp::Div => quotient(left, right),
        BinOp::Rem => remainder(left, right),
        BinOp::Min => Ok(left.min(right)),
        BinOp::Max => Ok(left.max(right)),
        BinOp::Eq => Ok(truth(left == right)),
        BinOp::Ne => Ok(truth(left != right)),
        BinOp::Lt => Ok(truth(left < right)),
        BinOp::Le => Ok(truth(left <= right)),
        BinOp::Gt => Ok(truth(left > right)),
        BinOp::Ge => Ok(truth(left >= right)),
        BinOp::And => Ok(truth(is_true(left) && is_true(right))),
        BinOp::Or => Ok(truth(is_true(left) || is_true(right))),
    }
}

/// The number with the other sign.
#[inline(always)]
pub fn negated(number: i128) -> Result<i128, EvalFault>
    ensures { result ≡ ranged (neg_ℤ number) }
{
    number.checked_neg().ok_or(EvalFault::Overflow)
}

fn quotient(left: i128, right: i128) -> Result<i128, EvalFault>
    ensures { result ≡ divided right (int_div left right) }
{
    if right == 0 {
        return Err(EvalFault::DivideByZero);
    }
    left.checked_div(right).ok_or(EvalFault::Overflow)
}

// What `wrapping_rem` leaves is exact: only the quotient of the least number by -1 lies outside the range.
fn remainder(left: i128, right: i128) -> Result<i128, EvalFault>
    ensures { result ≡ divided right (left -ℤ right *ℤ int_div left right) }
{
    if right == 0 {
        return Err(EvalFault::DivideByZero);
    }
    Ok(left.wrapping_rem(right))
}
