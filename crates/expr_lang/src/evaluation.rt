ghost use Rattle.std.specs.Prelude.{◌≡◌, fold, length, Ok};
ghost use Rattle.expr_lang.specs.Terms.{IsWithin};
ghost use Rattle.expr_lang.specs.Values.{outcome_of};
ghost use Rattle.expr_lang.specs.Chains.{operand_term, chain_term, step_outcome, IsStepWithin};
ghost use Rattle.expr_lang.specs.Bounds.{bound_term, bound_leaves, bound_rank};

use crate::bound::{Bound, Chain, Links, Operand, Step};
use crate::numbers::{decided, is_true, negated, result_of, truth};
use crate::{EvalFault, Row};
use record_dim::Steps;
use std::sync::ledger::Ledger;

/// The value of an expression on a row at an index, or its first fault from left to right. It takes no memory. A chain of
/// operators is walked by a loop, so only right operands that nest take stack.
pub fn eval<R: Row, L: Ledger>(
    expr: &Bound,
    row: &mut R,
    index: &[u64],
    steps: &mut Steps<L>,
) -> Result<i128, EvalFault>
    requires leaves { length (R.numbers row.old) ≡ bound_leaves expr.now }
    requires rank { length index.now ≡ bound_rank expr.now }
    ensures value { result ≡ (outcome_of (R.numbers row.old) index.now (bound_term expr.now)).answer }
    ensures state { R.state row.new ≡ fold R.after (R.state row.old) (outcome_of (R.numbers row.old) index.now (bound_term expr.now)).reads }
    ensures numbers { R.numbers row.new ≡ R.numbers row.old }
{
    chain_value(&expr.chain, row, index, steps)
}

#[cycle(eval)]
#[tactic(auto, using(crate::proofs::Along::along))]
fn chain_value<R: Row, L: Ledger>(
    chain: &Chain,
    row: &mut R,
    index: &[u64],
    steps: &mut Steps<L>,
) -> Result<i128, EvalFault>
    requires { IsWithin (length (R.numbers row.old)) (length index.now) (chain_term chain.now) }
    ensures value { result ≡ (outcome_of (R.numbers row.old) index.now (chain_term chain.now)).answer }
    ensures state { R.state row.new ≡ fold R.after (R.state row.old) (outcome_of (R.numbers row.old) index.now (chain_term chain.now)).reads }
    ensures numbers { R.numbers row.new ≡ R.numbers row.old }
{
    let mut value = operand_value(chain.first, row, index, steps);
    let mut links = &chain.links;
    while let Links::More(link) = links {
        value = step_value(&link.step, value, row, index, steps)?;
        links = &link.rest;
    }
    Ok(value)
}

// What a step makes of the value so far.
#[cycle(eval)]
fn step_value<R: Row, L: Ledger>(
    step: &Step,
    value: i128,
    row: &mut R,
    index: &[u64],
    steps: &mut Steps<L>,
) -> Result<i128, EvalFault>
    requires { IsStepWithin (length (R.numbers row.old)) (length index.now) step.now }
    ensures value { result ≡ (step_outcome (R.numbers row.old) index.now step.now value).answer }
    ensures state { R.state row.new ≡ fold R.after (R.state row.old) (step_outcome (R.numbers row.old) index.now step.now value).reads }
    ensures numbers { R.numbers row.new ≡ R.numbers row.old }
{
    match step {
        Step::Neg => negated(value),
        Step::Not => Ok(truth(!is_true(value))),
        Step::Binary { op, right } => {
            if let Some(result) = decided(*op, value) {
                return Ok(result);
            }
            let right = right_value(right, row, index, steps)?;
            result_of(*op, value, right)
        }
    }
}

// A lone operand is answered in its place.
#[cycle(eval)]
#[inline(always)]
fn right_value<R: Row, L: Ledger>(
    chain: &Chain,
    row: &mut R,
    index: &[u64],
    steps: &mut Steps<L>,
) -> Result<i128, EvalFault>
    requires { IsWithin (length (R.numbers row.old)) (length index.now) (chain_term chain.now) }
    ensures value { result ≡ (outcome_of (R.numbers row.old) index.now (chain_term chain.now)).answer }
    ensures state { R.state row.new ≡ fold R.after (R.state row.old) (outcome_of (R.numbers row.old) index.now (chain_term chain.now)).reads }
    ensures numbers { R.numbers row.new ≡ R.numbers row.old }
{
    match &chain.links {
        Links::End => Ok(operand_value(chain.first, row, index, steps)),
        Links::More(_) => chain_value(chain, row, index, steps),
    }
}

#[inline(always)]
fn operand_value<R: Row, L: Ledger>(
    operand: Operand,
    row: &mut R,
    index: &[u64],
    steps: &mut Steps<L>,
) -> i128
    requires { IsWithin (length (R.numbers row.old)) (length index.now) (operand_term operand) }
    ensures value { Ok result ≡ (outcome_of (R.numbers row.old) index.now (operand_term operand)).answer }
    ensures state { R.state row.new ≡ fold R.after (R.state row.old) (outcome_of (R.numbers row.old) index.now (operand_term operand)).reads }
    ensures numbers { R.numbers row.new ≡ R.numbers row.old }
{
    match operand {
        Operand::Number(number) => number,
        Operand::Leaf(leaf) => row.read(leaf, steps),
        Operand::Index(dimension) => i128::from(index[dimension]),
    }
}
