ghost use Rattle.std.specs.Prelude.{◌≡◌, All, IfOk};
ghost use Rattle.advisor.specs.Inner.SideCosts.{IsHold};

use map_checks::HoldList;
use map_expr::MapExpr;
use places::{Mapping, laws_of};
use std::alloc::{AllocError as NoMemory, Global};

/// An expression that may be the best, what it costs, and how it stores each leaf.
#[derive(Drop)]
pub struct Candidate {
    pub expr: MapExpr,
    pub cost: u64,
    pub holds: HoldList,
}

/// How a mapping stores each of its cells.
pub fn holds_in<M: Mapping>(alloc: Global, mapping: &M) -> Result<HoldList, NoMemory>
    ensures holds { IfOk result (λ holds. holds ≡ M.hold_list mapping.now) }
    ensures each { IfOk result (All IsHold) }
{
    laws_of(mapping);
    let mut holds = HoldList::new(alloc);
    for cell in 0..mapping.cells() {
        holds.push(mapping.hold(cell))?;
    }
    Ok(holds)
}
