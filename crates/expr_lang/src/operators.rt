// Operators on numbers of 64 bits side by side, with no test.
ghost use Rattle.std.specs.Prelude.{ℕ, ◌≡◌, ◌<◌, true, not, ℤ, pos, neg_ℤ, FitsSigned, length, slice_index_or};
ghost use Rattle.expr_lang.specs.Values.{truth, is_true};
ghost use Rattle.expr_lang.specs.Inner.Exacts.{exact_by, has_result};
ghost use Rattle.expr_lang.specs.Inner.Lanes.{AreFit, AreBy};
ghost use mir.Syntax.{w64};

use crate::BinOp;

/// Makes each number on the left the result of the operator with the number beside it. The operator is told apart before the loop, so
/// that each loop is of one.
pub fn apply(op: BinOp, left: &mut [i64], right: &[i64])
    requires total { has_result op (pos 0) ≡ true }
    requires long { length right.now ≡ length left.old }
    requires fits { AreFit op left.old (λ k. slice_index_or right.now k (pos 0)) }
    ensures { AreBy op left.old (λ k. slice_index_or right.now k (pos 0)) left.new }
{
    match op {
        BinOp::Add => each(BinOp::Add, left, right),
        BinOp::Sub => each(BinOp::Sub, left, right),
        BinOp::Mul => each(BinOp::Mul, left, right),
        BinOp::Min => each(BinOp::Min, left, right),
        BinOp::Max => each(BinOp::Max, left, right),
        BinOp::Eq => each(BinOp::Eq, left, right),
        BinOp::Ne => each(BinOp::Ne, left, right),
        BinOp::Lt => each(BinOp::Lt, left, right),
        BinOp::Le => each(BinOp::Le, left, right),
        BinOp::Gt => each(BinOp::Gt, left, right),
        BinOp::Ge => each(BinOp::Ge, left, right),
        BinOp::And => each(BinOp::And, left, right),
        BinOp::Or => each(BinOp::Or, left, right),
        BinOp::Div | BinOp::Rem => unreachable!(),
    }
}

/// The same with one number on the right of all.
pub fn apply_number(op: BinOp, left: &mut [i64], right: i64)
    requires total { has_result op right ≡ true }
    requires fits { AreFit op left.old (λ k. right) }
    ensures { AreBy op left.old (λ k. right) left.new }
{
    match op {
        BinOp::Add => each_number(BinOp::Add, left, right),
        BinOp::Sub => each_number(BinOp::Sub, left, right),
        BinOp::Mul => each_number(BinOp::Mul, left, right),
        BinOp::Min => each_number(BinOp::Min, left, right),
        BinOp::Max => each_number(BinOp::Max, left, right),
        BinOp::Eq => each_number(BinOp::Eq, left, right),
        BinOp::Ne => each_number(BinOp::Ne, left, right),
        BinOp::Lt => each_number(BinOp::Lt, left, right),
        BinOp::Le => each_number(BinOp::Le, left, right),
        BinOp::Gt => each_number(BinOp::Gt, left, right),
        BinOp::Ge => each_number(BinOp::Ge, left, right),
        BinOp::And => each_number(BinOp::And, left, right),
        BinOp::Or => each_number(BinOp::Or, left, right),
        BinOp::Div => each_number(BinOp::Div, left, right),
        BinOp::Rem => each_number(BinOp::Rem, left, right),
    }
}

/// Gives each number the other sign.
pub fn negate(values: &mut [i64])
    requires { (k : ℕ) → k < length values.old → FitsSigned w64 (neg_ℤ (slice_index_or values.old k (pos 0))) }
    ensures long { length values.new ≡ length values.old }
    ensures each { (k : ℕ) → k < length values.old → slice_index_or values.new k (pos 0) ≡ neg_ℤ (slice_index_or values.old k (pos 0)) }
{
    for k in 0..values.len() {
        values[k] = -values[k];
    }
}

/// Makes each number 1 where it is 0, and 0 where it is not.
pub fn invert(values: &mut [i64])
    ensures long { length values.new ≡ length values.old }
    ensures each { (k : ℕ) → k < length values.old → slice_index_or values.new k (pos 0) ≡ truth (not (is_true (slice_index_or values.old k (pos 0)))) }
{
    for k in 0..values.len() {
        values[k] = i64::from(values[k] == 0);
    }
}

#[inline(always)]
fn each(op: BinOp, left: &mut [i64], right: &[i64])
    requires total { has_result op (pos 0) ≡ true }
    requires long { length right.now ≡ length left.old }
    requires fits { AreFit op left.old (λ k. slice_index_or right.now k (pos 0)) }
    ensures { AreBy op left.old (λ k. slice_index_or right.now k (pos 0)) left.new }
{
    for k in 0..left.len() {
        left[k] = result_by(op, left[k], right[k]);
    }
}

#[inline(always)]
fn each_number(op: BinOp, left: &mut [i64], right: i64)
    requires total { has_result op right ≡ true }
    requires fits { AreFit op left.old (λ k. right) }
    ensures { AreBy op left.old (λ k. right) left.new }
{
    for k in 0..left.len() {
        left[k] = result_by(op, left[k], right);
    }
}

#[inline(always)]
fn result_by(op: BinOp, left: i64, right: i64) -> i64
    requires total { has_result op right ≡ true }
    requires fits { FitsSigned w64 (exact_by op left right) }
    ensures { result ≡ exact_by op left right }
{
    match op {
        BinOp::Add => left + right,
        BinOp::Sub => left - right,
        BinOp::Mul => left * right,
        BinOp::Min => left.min(right),
        BinOp::Max => left.max(right),
        BinOp::Eq => i64::from(left == right),
        BinOp::Ne => i64::from(left != right),
        BinOp::Lt => i64::from(left < right),
        BinOp::Le => i64::from(left <= right),
        BinOp::Gt => i64::from(left > right),
        BinOp::Ge => i64::from(left >= right),
        BinOp::And => i64::from(left != 0 && right != 0),
        BinOp::Or => i64::from(left != 0 || right != 0),
        BinOp::Div => left / right,
        BinOp::Rem => left.wrapping_rem(right),
    }
}
