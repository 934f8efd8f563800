// One step of a chain, on many values at once.
ghost use Rattle.std.specs.Prelude.{ℕ, ◌≡◌, ◌<◌, pos, length, slice_index_or};
ghost use Rattle.expr_lang.specs.Chains.{chain_term};
ghost use Rattle.expr_lang.specs.Inner.Exacts.{IsSafe};
ghost use Rattle.expr_lang.specs.Inner.Steps.{lone_part, stepped, IsStepFit, IsStepSafe};

use crate::operators::{apply, apply_number, invert, negate};
use crate::{Chain, Links, Operand, Step};

/// The number that a chain is, where it is no more than one.
pub fn lone_number(chain: &Chain, leaves: &[u64], places: &[u64]) -> Option<i64>
    requires safe { IsSafe leaves.now places.now (chain_term chain.now) }
    ensures { result ≡ lone_part chain.now.first chain.now.links }
{
    match chain.links {
        Links::More(_) => None,
        Links::End => match chain.first {
            Operand::Number(number) => Some(number as i64),
            _ => None,
        },
    }
}

/// Makes each value what a step makes of it, where the values of its right side, if it has one that is more than a number, stand beside it.
pub fn apply_step(step: &Step, values: &mut [i64], other: &[i64], leaves: &[u64], places: &[u64])
    requires safe { IsStepSafe leaves.now places.now step.now }
    requires long { length other.now ≡ length values.old }
    requires fits { (k : ℕ) → k < length values.old → IsStepFit step.now (slice_index_or values.old k (pos 0)) (slice_index_or other.now k (pos 0)) }
    ensures long { length values.new ≡ length values.old }
    ensures each { (k : ℕ) → k < length values.old
        → slice_index_or values.new k (pos 0) ≡ stepped step.now (slice_index_or values.old k (pos 0)) (slice_index_or other.now k (pos 0)) }
{
    match step {
        Step::Neg => negate(values),
        Step::Not => invert(values),
        Step::Binary { op, right } => match lone_number(right, leaves, places) {
            Some(number) => apply_number(*op, values, number),
            None => apply(*op, values, other),
        },
    }
}
