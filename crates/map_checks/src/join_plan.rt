ghost use Rattle.std.specs.Prelude.{◌≡◌, ◌/◌, ◌⊎◌, ◌<◌, ◌≤◌, All, true, IfOk, IfErr, OnOk, IsErrOf, length, slice_index};
ghost use Rattle.map_checks.specs.Imports.{full_holds, widths_of, differ, byte_cells_of, byte_count};
ghost use Rattle.map_checks.specs.Inner.ByteRules.{HasOnePiece, IsJoined, AreJoined};

use crate::plan::Plan;
use crate::rule::{PlanRules, Rule};
use crate::{MakeMap, check_full, full_holds, kind_at};
use map_bytes::join_rules;
use map_expr::BadMapping;
use places::{Cell, CellList, PieceRules};
use std::alloc::{AllocError as NoMemory, Global};

/// The rule of a cell whose bytes have these rules, least significant first.
fn joined(bytes: &[Rule]) -> Rule
    requires some { 0 < length bytes.now }
    requires few { length bytes.now ≤ 8 }
    requires alone { All HasOnePiece bytes.now }
    ensures { IsJoined bytes.now result }
{
    let mut pieces = PieceRules::new();
    for byte in bytes {
        join_rules(&mut pieces, &byte.pieces);
    }
    Rule {
        order: bytes[0].order,
        pieces,
    }
}

/// How many bytes a cell has.
fn bytes_of_cell(cells: &[Cell], cell: usize) -> usize
    requires { cell < length cells.now }
    ensures { result ≡ slice_index (widths_of cells.now) cell / 8 }
{
    (kind_at(cells, cell).width() / 8) as usize
}

/// For each cell the joined rule of its bytes.
fn join_all(alloc: Global, cells: &[Cell], bytes: &[Rule]) -> Result<PlanRules, NoMemory>
    requires each { length bytes.now ≡ byte_count cells.now }
    requires alone { All HasOnePiece bytes.now }
    ensures { IfOk result (AreJoined cells.now bytes.now) }
{
    let mut rules = PlanRules::new(alloc);
    let mut first = 0;
    for cell in 0..cells.len() {
        let next = first + bytes_of_cell(cells, cell);
        rules.push(joined(&bytes[first..next]))?;
        first = next;
    }
    Ok(rules)
}

/// What a mapping goes by that hands each byte of a cell to an inner one as a cell of its own, given what that goes by. `NotFull` comes
/// exactly where that stores some byte in another sign or width.
pub fn join_plan(
    alloc: Global,
    cells: &CellList,
    bytes: &CellList,
    inner: Plan,
) -> Result<Plan, MakeMap>
    requires bytes { bytes.now ≡ byte_cells_of cells.now }
    requires held { length inner.holds ≡ length bytes.now }
    requires each { length inner.rules ≡ byte_count cells.now }
    requires alone { inner.holds ≡ full_holds bytes.now → All HasOnePiece inner.rules }
    ensures full { OnOk result (inner.holds ≡ full_holds bytes.now) }
    ensures holds { IfOk result (λ plan. plan.holds ≡ full_holds cells.now) }
    ensures lengths { IfOk result (λ plan. plan.lengths ≡ inner.lengths) }
    ensures rules { IfOk result (λ plan. AreJoined cells.now inner.rules plan.rules) }
    ensures not_full { IsErrOf result (MakeMap.Bad BadMapping.NotFull) → differ inner.holds (full_holds bytes.now) ≡ true }
    ensures only { IfErr result (λ e. (e ≡ MakeMap.Bad BadMapping.NotFull) ⊎ (e ≡ MakeMap.NoMemory)) }
{
    check_full(alloc, bytes, &inner.holds)?;
    let holds = full_holds(alloc, cells)?;
    let rules = join_all(alloc, cells.as_slice(), inner.rules.as_slice())?;
    Ok(Plan {
        holds,
        lengths: inner.lengths,
        rules,
    })
}
