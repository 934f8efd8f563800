// How far from 0 the values of an expression may lie, where no part of it can fail.
ghost use Rattle.std.specs.Prelude.{◌≡◌, ◌^◌, ◌<◌, IfSome, length};
ghost use Rattle.expr_lang.specs.Bounds.{bound_term, bound_leaves, bound_rank};
ghost use Rattle.expr_lang.specs.Chains.{operand_term, step_term, chain_term, IsStepWithin};
ghost use Rattle.expr_lang.specs.Terms.{Term, IsWithin};
ghost use Rattle.expr_lang.specs.Inner.Mosts.{IsMost, IsMostBy, IsStepMost};

use crate::step::lone_number;
use crate::{BinOp, Bound, Chain, Links, Operand, Step};

/// The first number that is too far from 0.
const TOO_FAR: u64 = 1 << 63;

/// How deep right sides may nest, since who evaluates them has a buffer on the stack for each level.
const LEVELS: u64 = 4;

/// How far from 0 the values may lie, where those of leaves and of the index lie so near, and no part can fail in 64 bits. None says
/// nothing.
pub fn most(expr: &Bound, leaves: &[u64], places: &[u64]) -> Option<u64>
    requires leaves { length leaves.now ≡ bound_leaves expr.now }
    requires rank { length places.now ≡ bound_rank expr.now }
    ensures { IfSome result (IsMost leaves.now places.now 4 (bound_term expr.now)) }
{
    chain_most(expr.chain(), leaves, places, LEVELS)
}

#[cycle(most)]
fn chain_most(chain: &Chain, leaves: &[u64], places: &[u64], levels: u64) -> Option<u64>
    requires { IsWithin (length leaves.now) (length places.now) (chain_term chain.now) }
    ensures { IfSome result (IsMost leaves.now places.now levels (chain_term chain.now)) }
{
    let mut most = operand_most(chain.first, leaves, places)?;
    let mut links = &chain.links;
    while let Links::More(link) = links {
        most = step_most(&link.step, most, leaves, places, levels)?;
        links = &link.rest;
    }
    Some(most)
}

// What a step makes of how far a value may lie.
#[cycle(most)]
fn step_most(step: &Step, most: u64, leaves: &[u64], places: &[u64], levels: u64) -> Option<u64>
    requires within { IsStepWithin (length leaves.now) (length places.now) step.now }
    requires near { most < 2 ^ 63 }
    ensures { IfSome result (IsStepMost leaves.now places.now levels step.now most) }
{
    match step {
        Step::Neg => Some(most),
        Step::Not => Some(1),
        Step::Binary { op, right } => {
            let below = levels.checked_sub(1)?;
            let other = chain_most(right, leaves, places, below)?;
            most_by(*op, most, other, lone_number(right, leaves, places))
        }
    }
}

fn operand_most(operand: Operand, leaves: &[u64], places: &[u64]) -> Option<u64>
    requires { IsWithin (length leaves.now) (length places.now) (operand_term operand) }
    ensures { IfSome result (IsMost leaves.now places.now 0 (operand_term operand)) }
{
    let most = match operand {
        Operand::Number(number) => u64::try_from(number.unsigned_abs()).ok()?,
        Operand::Leaf(leaf) => leaves[leaf],
        Operand::Index(dimension) => places[dimension],
    };
    near(most)
}

// Only by a number is divided here.
fn most_by(op: BinOp, left: u64, right: u64, number: Option<i64>) -> Option<u64>
    requires left { left < 2 ^ 63 }
    requires right { right < 2 ^ 63 }
    ensures { IfSome result (IsMostBy op left right number) }
{
    if matches!(op, BinOp::Div | BinOp::Rem) && number.unwrap_or(0) == 0 {
        return None;
    }
    let most = match op {
        BinOp::Add | BinOp::Sub => left + right,
        BinOp::Mul => left.checked_mul(right)?,
        BinOp::Min | BinOp::Max => left.max(right),
        BinOp::Div | BinOp::Rem => left,
        _ => 1,
    };
    near(most)
}

// A number that is near enough to 0.
fn near(most: u64) -> Option<u64>
    ensures { IfSome result (λ near. (near ≡ most) × (most < 2 ^ 63)) }
{
    if most < TOO_FAR { Some(most) } else { None }
}
