// The listed candidates.
ghost use Rattle.std.specs.Prelude.{◌≡◌, ◌⊎◌, All, Ok, Err, Some, None, IfOk, OnOk, IfErr, map};
ghost use Rattle.advisor.specs.Imports.{term_of, uncounted, leaf_cells, IsBuiltTerm, leaf_types_of};
ghost use Rattle.advisor.specs.Advice.{judge};
ghost use Rattle.advisor.specs.Judged.{fault_at, first_judged_fault};
ghost use Rattle.advisor.specs.Inner.Pools.{IsPriced, terms_in};
ghost use Rattle.advisor.specs.Inner.SideCosts.{IsPrice};

use crate::advice::AdviseFault;
use crate::candidate::{Candidate, holds_in};
use crate::costs::part_cost;
use crate::mapped::mapped;
use crate::price::Price;
use map_checks::{MakeMap, cells_of};
use map_expr::MapExpr;
use places::{CellList, laws_of};
use std::alloc::{AllocError as NoMemory, Global};
use views::View;

/// Expressions without the counters at their tops.
pub fn uncounted(alloc: Global, maps: &[MapExpr]) -> Result<Vec<MapExpr>, NoMemory>
    requires { All (λ expr. IsBuiltTerm (term_of expr)) maps.now }
    ensures terms { IfOk result (λ listed. map term_of listed.items ≡ map uncounted (map term_of maps.now)) }
    ensures built { IfOk result (λ listed. All (λ expr. IsBuiltTerm (term_of expr)) listed.items) }
{
    let mut listed = Vec::new(alloc);
    for at in 0..maps.len() {
        listed.push(maps[at].uncounted().copy(alloc)?)?;
    }
    Ok(listed)
}

/// Each of these expressions as a candidate over all leaves of a view, or the fault of the first that is no layout within the limits.
pub fn listed_candidates(
    alloc: Global,
    view: &View,
    price: &Price<'_>,
    listed: &[MapExpr],
) -> Result<Vec<Candidate>, AdviseFault>
    requires price { IsPrice price.now.granule price.now.passes.now }
    requires built { All (λ expr. IsBuiltTerm (term_of expr)) listed.now }
    ensures priced { IfOk result (λ pool. All (IsPriced view.now price.now.granule price.now.passes.now) pool.items) }
    ensures terms { IfOk result (λ pool. terms_in pool.items ≡ map term_of listed.now) }
    ensures good { OnOk result (first_judged_fault (judge view.now price.now.granule) 0 (map term_of listed.now) ≡ None) }
    ensures refused { IfErr result (λ e. (e ≡ AdviseFault.NoMemory) ⊎ (first_judged_fault (judge view.now price.now.granule) 0 (map term_of listed.now) ≡ Some e)) }
{
    let cells = cells_of(alloc, view.schema())?;
    let mut pool = Vec::new(alloc);
    for at in 0..listed.len() {
        match whole_candidate(alloc, view, &cells, price, &listed[at]) {
            Ok(candidate) => pool.push(candidate)?,
            Err(fault) => return Err(fault_at(at, fault)),
        }
    }
    Ok(pool)
}

fn fault_at(candidate: usize, fault: MakeMap) -> AdviseFault
    ensures { result ≡ fault_at candidate fault }
{
    match fault {
        MakeMap::Bad(fault) => AdviseFault::Bad { candidate, fault },
        MakeMap::TooBig => AdviseFault::TooBig { candidate },
        MakeMap::NoMemory => AdviseFault::NoMemory,
    }
}

// An expression as a candidate over all leaves.
fn whole_candidate(
    alloc: Global,
    view: &View,
    cells: &CellList,
    price: &Price<'_>,
    expr: &MapExpr,
) -> Result<Candidate, MakeMap>
    requires price { IsPrice price.now.granule price.now.passes.now }
    requires built { IsBuiltTerm (term_of expr.now) }
    requires cells { cells.now ≡ leaf_cells (leaf_types_of view.now) }
    ensures priced { IfOk result (IsPriced view.now price.now.granule price.now.passes.now) }
    ensures term { IfOk result (λ candidate. term_of candidate.expr ≡ term_of expr.now) }
    ensures good { OnOk result (judge view.now price.now.granule (term_of expr.now) ≡ Ok tt) }
    ensures refused { IfErr result (λ e. (e ≡ MakeMap.NoMemory) ⊎ (judge view.now price.now.granule (term_of expr.now) ≡ Err e)) }
{
    let map = mapped(alloc, view, cells, price.granule, expr)?;
    laws_of(&map.mapping);
    let cost = part_cost(alloc, &map, cells.as_slice(), price.granule, price.passes)?;
    let holds = holds_in(alloc, &map.mapping)?;
    let expr = expr.copy(alloc)?;
    Ok(Candidate { expr, cost, holds })
}
