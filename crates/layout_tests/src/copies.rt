// The steps of copies of 1,000 rows of one leaf of four bytes, in each of the three ways. No run sees a counter of steps, so a bound on
// them is a clause of a function that a test calls.
ghost use Rattle.std.specs.Prelude.{◌≡◌, ◌+◌, ◌<◌, ◌≤◌, ◌∷◌, [], IfOk, IsTrue, length};
ghost use Rattle.extents.specs.Indices.{indices};
ghost use Rattle.record_dim.specs.declared.leaf_type.LeafType.TheVariants.{U32};
ghost use Rattle.record_dim.specs.Prelude.{kinds_of, schema_fields};
ghost use Rattle.map_expr.specs.Terms.{term_of};
ghost use Rattle.map_checks.specs.Prelude.{IsBuiltTerm};
ghost use Rattle.piece_bits.specs.declared.mode.StoreMode.TheVariants.{Strict};
ghost use Rattle.layout_tests.specs.Inner.Ways.{from_of, to_of, most_steps};

use crate::tables::{aos, is_numbered, number, soa, view_of};
use extents::Order;
use layout_copy::{CopyFault, copy};
use map_any::{MapExpr, Strategy};
use places::{AosForm, SoaForm};
use record_dim::{LeafType, Schema, Steps};
use std::alloc::Global;
use std::marker::Brand;
use std::sync::ledger::{Blank, Ledger};
use std::test::Fail;
use views::View;

// A copy that goes this way: by runs, arrays become blocks of 8 lanes; by blobs, records become records; by fields, they become arrays.
fn copy_so<L: Ledger>(
    _way: Strategy,
    source: &mut View,
    target: &mut View,
    steps: &mut Steps<L>,
) -> Result<(), CopyFault>
    requires from { source.old.mapping ≡ from_of _way }
    requires to { target.old.mapping ≡ to_of _way }
    requires strict { (source.old.mode ≡ Strict) × (target.old.mode ≡ Strict) }
    requires rows { length (indices target.old.extents) ≡ 1000 }
    requires leaf { kinds_of target.old.fields ≡ U32 ∷ [] }
    ensures { steps.new ≤ steps.old + most_steps _way }
{
    copy(source, target, steps)
}

fn source_of(way: Strategy) -> MapExpr
    ensures built { IsBuiltTerm (term_of result) }
    ensures term { term_of result ≡ from_of way }
{
    match way {
        Strategy::Runs => soa(SoaForm::Multi),
        Strategy::Blobs | Strategy::Fields => aos(AosForm::Packed),
    }
}

fn target_of(way: Strategy) -> MapExpr
    ensures built { IsBuiltTerm (term_of result) }
    ensures term { term_of result ≡ to_of way }
{
    match way {
        Strategy::Runs => MapExpr::Aosoa {
            lanes: 8,
            order: Order::Row,
        },
        Strategy::Blobs => aos(AosForm::Packed),
        Strategy::Fields => soa(SoaForm::Multi),
    }
}

fn is_one_leaf(schema: &Schema) -> bool
    ensures { IsTrue result → kinds_of (schema_fields schema.now) ≡ U32 ∷ [] }
{
    if schema.leaf_count() != 1 {
        return false;
    }
    schema.leaf_type(0) == LeafType::U32
}

// Whether a view has 1,000 rows of one leaf of four bytes.
fn is_small(view: &View) -> bool
    ensures rows { IsTrue result → length (indices view.now.extents) ≡ 1000 }
    ensures leaf { IsTrue result → kinds_of view.now.fields ≡ U32 ∷ [] }
{
    view.extents().count() == 1000 && is_one_leaf(view.schema())
}

// 1,000 rows of one leaf of four bytes.
fn zeros(alloc: Global, expr: &MapExpr) -> Result<View, Fail>
    requires { IsBuiltTerm (term_of expr.now) }
    ensures mapping { IfOk result (λ view. view.mapping ≡ term_of expr.now) }
    ensures strict { IfOk result (λ view. view.mode ≡ Strict) }
    ensures rows { IfOk result (λ view. length (indices view.extents) ≡ 1000) }
    ensures leaf { IfOk result (λ view. kinds_of view.fields ≡ U32 ∷ []) }
{
    let view = view_of(alloc, &[LeafType::U32], 1000, expr)?;
    if is_small(&view) {
        return Ok(view);
    }
    Err(Fail::new("another view"))
}

// Whether a copy of a view that is numbered brings the numbers.
fn brings<L: Ledger>(
    alloc: Global,
    way: Strategy,
    source: &mut View,
    steps: &mut Steps<L>,
) -> Result<bool, Fail>
    requires from { source.old.mapping ≡ from_of way }
    requires strict { source.old.mode ≡ Strict }
{
    number(source, steps)?;
    let mut target = zeros(alloc, &target_of(way))?;
    let answer = copy_so(way, source, &mut target, steps);
    let brings = answer.is_ok() && is_numbered(&mut target, steps);
    drop(target);
    Ok(brings)
}

fn goes_so<L: Ledger>(alloc: Global, way: Strategy, blank: Blank) -> Result<bool, Fail>
    requires name { blank.name ≡ L.name }
    requires parts { blank.parts ≡ L.parts }
    requires some { 0 < blank.parts }
{
    let mut steps = Steps::<L>::new(blank);
    let mut source = zeros(alloc, &source_of(way))?;
    let goes = brings(alloc, way, &mut source, &mut steps);
    drop(source);
    goes
}

#[test]
fn copies_of_1000_rows_take_at_most_125_or_63_or_2000_steps(rt: HostRuntime) -> Result<(), Fail> {
    for way in [Strategy::Runs, Strategy::Blobs, Strategy::Fields] {
        assert!(rt; goes_so::<Brand>(rt.alloc(), way, Blank::new(1))?);
    }
    Ok(())
}
