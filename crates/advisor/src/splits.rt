// The candidates that split the record at one of its fields.
ghost use Rattle.std.specs.Prelude.{ℕ, ◌≡◌, ◌<◌, ◌≤◌, ◌^◌, ◌++◌, ◌∷◌, [], All, Ok, None, IfOk, OnOk, IfSome, IfNone, length, map, filter, is_ok, slice_index_or};
ghost use Rattle.advisor.specs.Imports.{Fields, tree_of, fields_of, IsRecord, Record, Split, term_of, leaf_cells, holds_by, IsBuiltTerm, cells_under, cells_beside, leaf_types_of};
ghost use Rattle.advisor.specs.Advice.{judge, own_paths, splits_at, split_terms};
ghost use Rattle.advisor.specs.Inner.Pools.{IsPriced, terms_in};
ghost use Rattle.advisor.specs.Inner.SideCosts.{IsHold, IsPrice, IsSideCost, term_at};

use crate::candidate::{Candidate, holds_in};
use crate::mapped::mapped;
use crate::price::Price;
use crate::sides::side_costs;
use map_checks::{MakeMap, cells_of, split_cells};
use map_expr::MapExpr;
use places::CellList;
use record_dim::{Dim, FieldList, Path};
use std::alloc::{AllocError as NoMemory, Global};
use views::View;

/// An expression for one side, and what it costs there.
#[derive(Clone, Copy)]
pub struct Side<'a> {
    pub expr: &'a MapExpr,
    pub cost: Option<u64>,
}

/// Puts the splits of these expressions at each field of a view's record that are layouts within the limits behind other candidates.
pub fn push_splits(
    alloc: Global,
    view: &View,
    price: &Price<'_>,
    listed: &[MapExpr],
    pool: &mut Vec<Candidate>,
) -> Result<(), NoMemory>
    requires price { IsPrice price.now.granule price.now.passes.now }
    requires built { All (λ expr. IsBuiltTerm (term_of expr)) listed.now }
    requires priced { All (IsPriced view.now price.now.granule price.now.passes.now) pool.old.items }
    ensures priced { OnOk result (All (IsPriced view.now price.now.granule price.now.passes.now) pool.new.items) }
    ensures terms { OnOk result (terms_in pool.new.items
        ≡ terms_in pool.old.items ++ filter (λ term. is_ok (judge view.now price.now.granule term)) (split_terms view.now.fields (map term_of listed.now))) }
{
    let cells = cells_of(alloc, view.schema())?;
    let tree = view.schema().tree(alloc)?;
    let paths = own_paths(alloc, &tree)?;
    for at in 0..paths.len() {
        push_splits_at(alloc, view, &cells, price, listed, &paths[at], pool)?;
    }
    Ok(())
}

// The paths of the fields of a record.
fn own_paths(alloc: Global, dim: &Dim) -> Result<Vec<Path>, NoMemory>
    requires { IsRecord dim.now }
    ensures { IfOk result (λ paths. (fields : Fields) → tree_of dim.now ≡ Record fields → paths.items ≡ own_paths fields) }
{
    let mut paths = Vec::new(alloc);
    match dim {
        Dim::Fields(fields) => push_paths(alloc, fields, &mut paths)?,
        Dim::Leaf(_) => unreachable!(),
        Dim::Array { len: _, element: _ } => unreachable!(),
    }
    Ok(paths)
}

fn push_paths(alloc: Global, fields: &FieldList, paths: &mut Vec<Path>) -> Result<(), NoMemory>
    ensures { OnOk result (paths.new.items ≡ paths.old.items ++ own_paths (fields_of fields.now)) }
{
    match fields {
        FieldList::End => Ok(()),
        FieldList::More { field, rest } => {
            paths.push(Path::new(alloc, field.name)?)?;
            push_paths(alloc, rest, paths)
        }
    }
}

// Puts the splits at a path behind other candidates. Each expression is priced once on each side.
fn push_splits_at(
    alloc: Global,
    view: &View,
    cells: &CellList,
    price: &Price<'_>,
    listed: &[MapExpr],
    path: &Path,
    pool: &mut Vec<Candidate>,
) -> Result<(), NoMemory>
    requires price { IsPrice price.now.granule price.now.passes.now }
    requires cells { cells.now ≡ leaf_cells (leaf_types_of view.now) }
    requires built { All (λ expr. IsBuiltTerm (term_of expr)) listed.now }
    requires priced { All (IsPriced view.now price.now.granule price.now.passes.now) pool.old.items }
    ensures priced { OnOk result (All (IsPriced view.now price.now.granule price.now.passes.now) pool.new.items) }
    ensures terms { OnOk result (terms_in pool.new.items
        ≡ terms_in pool.old.items ++ filter (λ term. is_ok (judge view.now price.now.granule term)) (splits_at (map term_of listed.now) path.now)) }
{
    let sides = split_cells(alloc, view.schema(), path, cells)?;
    let firsts = side_costs(alloc, view, &sides.first, price, listed)?;
    let rests = side_costs(alloc, view, &sides.rest, price, listed)?;
    for at in 0..listed.len() {
        let first = Side {
            expr: &listed[at],
            cost: firsts[at],
        };
        push_rests(
            alloc,
            view,
            cells,
            price,
            listed,
            path,
            first,
            rests.as_slice(),
            pool,
        )?;
    }
    Ok(())
}

// The same of one expression for the first side.
fn push_rests(
    alloc: Global,
    view: &View,
    cells: &CellList,
    price: &Price<'_>,
    listed: &[MapExpr],
    path: &Path,
    first: Side<'_>,
    rests: &[Option<u64>],
    pool: &mut Vec<Candidate>,
) -> Result<(), NoMemory>
    requires price { IsPrice price.now.granule price.now.passes.now }
    requires cells { cells.now ≡ leaf_cells (leaf_types_of view.now) }
    requires built { All (λ expr. IsBuiltTerm (term_of expr)) listed.now }
    requires built_first { IsBuiltTerm (term_of first.expr.now) }
    requires first { IsSideCost view.now price.now.granule price.now.passes.now (cells_under view.now.fields path.now cells.now) (term_of first.expr.now) first.cost }
    requires each { length rests.now ≡ length listed.now }
    requires rests { (at : ℕ) → at < length listed.now → IsSideCost view.now price.now.granule price.now.passes.now
        (cells_beside view.now.fields path.now cells.now) (term_at (map term_of listed.now) at) (slice_index_or rests.now at None) }
    requires priced { All (IsPriced view.now price.now.granule price.now.passes.now) pool.old.items }
    ensures priced { OnOk result (All (IsPriced view.now price.now.granule price.now.passes.now) pool.new.items) }
    ensures terms { OnOk result (terms_in pool.new.items ≡ terms_in pool.old.items
        ++ filter (λ term. is_ok (judge view.now price.now.granule term)) (map (λ rest. Split path.now (term_of first.entry.expr.now) rest) (map term_of listed.now))) }
{
    for at in 0..listed.len() {
        let rest = Side {
            expr: &listed[at],
            cost: rests[at],
        };
        push_split(alloc, view, cells, price, path, first, rest, pool)?;
    }
    Ok(())
}

// The same of one expression for each side.
fn push_split(
    alloc: Global,
    view: &View,
    cells: &CellList,
    price: &Price<'_>,
    path: &Path,
    first: Side<'_>,
    rest: Side<'_>,
    pool: &mut Vec<Candidate>,
) -> Result<(), NoMemory>
    requires price { IsPrice price.now.granule price.now.passes.now }
    requires cells { cells.now ≡ leaf_cells (leaf_types_of view.now) }
    requires built_first { IsBuiltTerm (term_of first.expr.now) }
    requires built_rest { IsBuiltTerm (term_of rest.expr.now) }
    requires first { IsSideCost view.now price.now.granule price.now.passes.now (cells_under view.now.fields path.now cells.now) (term_of first.expr.now) first.cost }
    requires rest { IsSideCost view.now price.now.granule price.now.passes.now (cells_beside view.now.fields path.now cells.now) (term_of rest.expr.now) rest.cost }
    requires priced { All (IsPriced view.now price.now.granule price.now.passes.now) pool.old.items }
    ensures priced { OnOk result (All (IsPriced view.now price.now.granule price.now.passes.now) pool.new.items) }
    ensures terms { OnOk result (terms_in pool.new.items ≡ terms_in pool.old.items
        ++ filter (λ term. is_ok (judge view.now price.now.granule term)) (Split path.now (term_of first.entry.expr.now) (term_of rest.entry.expr.now) ∷ [])) }
{
    let Some(one) = first.cost else {
        return Ok(());
    };
    let Some(two) = rest.cost else {
        return Ok(());
    };
    let expr = split_of(alloc, path, first.expr, rest.expr)?;
    if let Some(candidate) = split_candidate(alloc, view, cells, price.granule, expr, one + two)? {
        pool.push(candidate)?;
    }
    Ok(())
}

// The split at a path.
fn split_of(
    alloc: Global,
    path: &Path,
    first: &MapExpr,
    rest: &MapExpr,
) -> Result<MapExpr, NoMemory>
    ensures { IfOk result (λ expr. term_of expr ≡ Split path.now (term_of first.now) (term_of rest.now)) }
{
    let path = path.copy(alloc)?;
    let first = Box::new(alloc, first.copy(alloc)?)?;
    let rest = Box::new(alloc, rest.copy(alloc)?)?;
    Ok(MapExpr::Split { path, first, rest })
}

// An expression as a candidate that costs so much. None where it is no layout within the limits.
fn split_candidate(
    alloc: Global,
    view: &View,
    cells: &CellList,
    granule: u32,
    expr: MapExpr,
    cost: u64,
) -> Result<Option<Candidate>, NoMemory>
    requires some { 1 ≤ granule }
    requires cells { cells.now ≡ leaf_cells (leaf_types_of view.now) }
    requires built { IsBuiltTerm (term_of expr) }
    ensures term { IfOk result (λ found. IfSome found (λ candidate. term_of candidate.expr ≡ term_of expr)) }
    ensures cost { IfOk result (λ found. IfSome found (λ candidate. candidate.cost ≡ cost)) }
    ensures holds { IfOk result (λ found. IfSome found (λ candidate. candidate.holds ≡ holds_by (term_of expr) view.now.fields)) }
    ensures each { IfOk result (λ found. IfSome found (λ candidate. All IsHold candidate.holds)) }
    ensures good { IfOk result (λ found. IfSome found (λ candidate. judge view.now granule (term_of expr) ≡ Ok tt)) }
    ensures refused { IfOk result (λ found. IfNone found (judge view.now granule (term_of expr) ≡ Ok tt → ⊥)) }
{
    match mapped(alloc, view, cells, granule, &expr) {
        Ok(map) => {
            let holds = holds_in(alloc, &map.mapping)?;
            Ok(Some(Candidate { expr, cost, holds }))
        }
        Err(MakeMap::NoMemory) => Err(NoMemory),
        Err(MakeMap::Bad(_) | MakeMap::TooBig) => Ok(None),
    }
}
