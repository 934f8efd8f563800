ghost use Rattle.std.specs.Prelude.{◌≡◌, All, IfOk, length, not};
ghost use Rattle.map_checks.specs.Imports.{count_by};
ghost use Rattle.map_checks.specs.Inner.Splits.{AreSplitRules, HasBlobRoom, IsShifted};

use crate::rule::{PlanRules, Rule};
use map_split::shift_rules;
use std::alloc::{AllocError as NoMemory, Global};

impl Rule {
    /// The same rule in blobs that stand behind `by` others.
    pub fn shifted(&self, by: usize) -> Rule
        requires room { HasBlobRoom by self.now }
        ensures { IsShifted by self.now result }
    {
        Rule {
            order: self.order,
            pieces: shift_rules(&self.pieces, by),
        }
    }
}

/// The rules of a split: those of the first side's cells, and those of the rest in the blobs behind `by` others.
pub fn split_rules(
    alloc: Global,
    side: &[bool],
    first: &[Rule],
    rest: &[Rule],
    by: usize,
) -> Result<PlanRules, NoMemory>
    requires first { length first.now ≡ count_by (λ s. s) side.now }
    requires rest { length rest.now ≡ count_by not side.now }
    requires room_first { All (HasBlobRoom 0) first.now }
    requires room_rest { All (HasBlobRoom by) rest.now }
    ensures { IfOk result (λ rules. AreSplitRules side.now by first.now rest.now rules) }
{
    let mut rules = PlanRules::new(alloc);
    let mut from_first = 0;
    let mut from_rest = 0;
    for &is_first in side {
        if is_first {
            rules.push(first[from_first].shifted(0))?;
            from_first += 1;
        } else {
            rules.push(rest[from_rest].shifted(by))?;
            from_rest += 1;
        }
    }
    Ok(rules)
}
