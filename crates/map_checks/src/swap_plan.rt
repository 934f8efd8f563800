ghost use Rattle.std.specs.Prelude.{◌≡◌, ◌⊎◌, All, true, IfOk, IfErr, OnOk, IsErrOf, length};
ghost use Rattle.map_checks.specs.Imports.{full_holds, differ};
ghost use Rattle.map_checks.specs.Inner.ByteRules.{HasWholeBytes, IsSwapped, AreSwapped};

use crate::plan::Plan;
use crate::rule::{PlanRules, Rule};
use crate::{MakeMap, check_full};
use map_bytes::swap_rules;
use map_expr::BadMapping;
use places::CellList;
use std::alloc::{AllocError as NoMemory, Global};

impl Rule {
    /// The same rule with the bytes of its pieces in reverse order.
    fn swapped(&self) -> Rule
        requires { HasWholeBytes self.now }
        ensures { IsSwapped self.now result }
    {
        Rule {
            order: self.order,
            pieces: swap_rules(&self.pieces),
        }
    }
}

/// The same rules with the bytes of their pieces in reverse order.
fn swap_all(alloc: Global, rules: &[Rule]) -> Result<PlanRules, NoMemory>
    requires { All HasWholeBytes rules.now }
    ensures { IfOk result (AreSwapped rules.now) }
{
    let mut swapped = PlanRules::new(alloc);
    for rule in rules {
        swapped.push(rule.swapped())?;
    }
    Ok(swapped)
}

/// What a mapping goes by that stores each cell with its bytes in reverse order, given what the inner one goes by. `NotFull` comes exactly
/// where that stores some cell in another sign or width than its type's.
pub fn swap_plan(alloc: Global, cells: &CellList, inner: Plan) -> Result<Plan, MakeMap>
    requires held { length inner.holds ≡ length cells.now }
    requires bytes { inner.holds ≡ full_holds cells.now → All HasWholeBytes inner.rules }
    ensures full { OnOk result (inner.holds ≡ full_holds cells.now) }
    ensures holds { IfOk result (λ plan. plan.holds ≡ full_holds cells.now) }
    ensures lengths { IfOk result (λ plan. plan.lengths ≡ inner.lengths) }
    ensures rules { IfOk result (λ plan. AreSwapped inner.rules plan.rules) }
    ensures not_full { IsErrOf result (MakeMap.Bad BadMapping.NotFull) → differ inner.holds (full_holds cells.now) ≡ true }
    ensures only { IfErr result (λ e. (e ≡ MakeMap.Bad BadMapping.NotFull) ⊎ (e ≡ MakeMap.NoMemory)) }
{
    check_full(alloc, cells, &inner.holds)?;
    let rules = swap_all(alloc, inner.rules.as_slice())?;
    Ok(Plan {
        holds: inner.holds,
        lengths: inner.lengths,
        rules,
    })
}
