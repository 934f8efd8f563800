// What expressions cost over the leaves of one side of a split.
ghost use Rattle.std.specs.Prelude.{ℕ, ◌≡◌, ◌<◌, All, None, IfOk, length, map, slice_index_or};
ghost use Rattle.advisor.specs.Imports.{term_of, IsBuiltTerm};
ghost use Rattle.advisor.specs.Inner.SideCosts.{IsPrice, IsSideCost, term_at};

use crate::costs::part_cost;
use crate::mapped::mapped;
use crate::price::Price;
use map_checks::MakeMap;
use map_expr::MapExpr;
use places::CellList;
use std::alloc::{AllocError as NoMemory, Global};
use views::View;

/// What each expression costs over some leaves of a view. There is no cost where it is no layout of them within the limits.
pub fn side_costs(
    alloc: Global,
    view: &View,
    cells: &CellList,
    price: &Price<'_>,
    listed: &[MapExpr],
) -> Result<Vec<Option<u64>>, NoMemory>
    requires price { IsPrice price.now.granule price.now.passes.now }
    requires built { All (λ expr. IsBuiltTerm (term_of expr)) listed.now }
    ensures each { IfOk result (λ costs. length costs.items ≡ length listed.now) }
    ensures costs { IfOk result (λ costs. (at : ℕ) → at < length listed.now
        → IsSideCost view.now price.now.granule price.now.passes.now cells.now (term_at (map term_of listed.now) at) (slice_index_or costs.items at None)) }
{
    let mut costs = Vec::new(alloc);
    for at in 0..listed.len() {
        costs.push(side_cost(alloc, view, cells, price, &listed[at])?)?;
    }
    Ok(costs)
}

// The same of one expression.
fn side_cost(
    alloc: Global,
    view: &View,
    cells: &CellList,
    price: &Price<'_>,
    expr: &MapExpr,
) -> Result<Option<u64>, NoMemory>
    requires price { IsPrice price.now.granule price.now.passes.now }
    requires built { IsBuiltTerm (term_of expr.now) }
    ensures { IfOk result (IsSideCost view.now price.now.granule price.now.passes.now cells.now (term_of expr.now)) }
{
    match mapped(alloc, view, cells, price.granule, expr) {
        Ok(map) => {
            let cost = part_cost(alloc, &map, cells.as_slice(), price.granule, price.passes)?;
            Ok(Some(cost))
        }
        Err(MakeMap::NoMemory) => Err(NoMemory),
        Err(MakeMap::Bad(_) | MakeMap::TooBig) => Ok(None),
    }
}
