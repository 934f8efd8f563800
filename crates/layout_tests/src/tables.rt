// Views that tests make, and their numbers.
ghost use Rattle.std.specs.Prelude.{◌≡◌, IfOk};
ghost use Rattle.extents.specs.declared.order.Order.TheVariants.{Row};
ghost use Rattle.map_expr.specs.Terms.{Aos, Soa, term_of};
ghost use Rattle.map_checks.specs.Prelude.{IsBuiltTerm};
ghost use Rattle.piece_bits.specs.declared.mode.StoreMode.TheVariants.{Strict};

use extents::{ExtentWord, Extents, Order, Shape};
use map_any::MapExpr;
use places::{AosForm, SoaForm};
use record_dim::{Dim, Field, FieldList, LeafType, Name, Schema, Steps};
use std::alloc::Global;
use std::sync::ledger::Ledger;
use std::test::Fail;
use views::View;

// The fields with one more in front.
pub(crate) fn field(
    alloc: Global,
    text: &str,
    dim: Dim,
    rest: FieldList,
) -> Result<FieldList, Fail> {
    let name = Name::new(text).ok_or("no name")?;
    let field = Box::new(alloc, Field { name, dim })?;
    let rest = Box::new(alloc, rest)?;
    Ok(FieldList::More { field, rest })
}

// A flat schema with a leaf of each of these types.
pub(crate) fn schema_of(alloc: Global, kinds: &[LeafType]) -> Result<Schema, Fail> {
    let mut fields = FieldList::End;
    for (number, kind) in kinds.iter().enumerate().rev() {
        let text = format!(in alloc; "f{number}")?;
        fields = field(alloc, text.as_str(), Dim::Leaf(*kind), fields)?;
    }
    Ok(Schema::new(alloc, Dim::Fields(fields))?)
}

fn extents_of(rows: u64) -> Result<Extents, Fail> {
    let shape = Shape::new(&[ExtentWord::Rows]).ok().ok_or("no shape")?;
    Ok(shape.resolve(Some(rows)).ok().ok_or("no extents")?)
}

pub(crate) fn view_of(
    alloc: Global,
    kinds: &[LeafType],
    rows: u64,
    expr: &MapExpr,
) -> Result<View, Fail>
    requires { IsBuiltTerm (term_of expr.now) }
    ensures mapping { IfOk result (λ view. view.mapping ≡ term_of expr.now) }
    ensures strict { IfOk result (λ view. view.mode ≡ Strict) }
{
    let schema = schema_of(alloc, kinds)?;
    let view = View::new(alloc, &schema, extents_of(rows)?, expr);
    Ok(view.ok().ok_or("no view")?)
}

pub(crate) fn aos(form: AosForm) -> MapExpr
    ensures built { IsBuiltTerm (term_of result) }
    ensures term { term_of result ≡ Aos form Row }
{
    MapExpr::Aos {
        form,
        order: Order::Row,
    }
}

pub(crate) fn soa(form: SoaForm) -> MapExpr
    ensures built { IsBuiltTerm (term_of result) }
    ensures term { term_of result ≡ Soa form Row }
{
    MapExpr::Soa {
        form,
        order: Order::Row,
    }
}

// Stores a value in the first leaf of a row.
pub(crate) fn set<L: Ledger>(
    view: &mut View,
    row: u64,
    value: i128,
    steps: &mut Steps<L>,
) -> Result<(), Fail>
    ensures mapping { view.new.mapping ≡ view.old.mapping }
    ensures mode { view.new.mode ≡ view.old.mode }
{
    if row < view.extents().count() && view.schema().leaf_count() > 0 {
        return Ok(view.set(row, 0, value, steps)?);
    }
    Err(Fail::new("outside"))
}

// The value in the first leaf of a row, if it has one.
fn get<L: Ledger>(view: &mut View, row: u64, steps: &mut Steps<L>) -> Option<i128> {
    if row < view.extents().count() && view.schema().leaf_count() > 0 {
        return Some(view.get(row, 0, steps));
    }
    None
}

// Stores in each of 1,000 rows its number, counted from 1.
pub(crate) fn number<L: Ledger>(view: &mut View, steps: &mut Steps<L>) -> Result<(), Fail>
    ensures mapping { view.new.mapping ≡ view.old.mapping }
    ensures mode { view.new.mode ≡ view.old.mode }
{
    for row in 0..1000u64 {
        set(view, row, i128::from(row + 1), steps)?;
    }
    Ok(())
}

// Whether these numbers stand there.
pub(crate) fn is_numbered<L: Ledger>(view: &mut View, steps: &mut Steps<L>) -> bool {
    for row in 0..1000u64 {
        if get(view, row, steps) != Some(i128::from(row + 1)) {
            return false;
        }
    }
    true
}
