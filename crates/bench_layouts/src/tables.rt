// Tables of zeros in each form.
ghost use Rattle.std.specs.Prelude.{◌≡◌, IfOk, count_by};
ghost use Rattle.extents.specs.Shapes.{is_rows};
ghost use Rattle.map_expr.specs.Terms.{term_of};
ghost use Rattle.map_checks.specs.Prelude.{IsBuiltTerm};
ghost use Rattle.bench_layouts.specs.Inner.Tables.{measured_fields};

use crate::fault::BenchFault;
use crate::record::measured_schema;
use extents::{ExtentWord, Extents, Shape};
use map_expr::MapExpr;
use std::alloc::Global;
use views::{MakeView, View};

/// The columns of a plane.
const COLUMNS: u32 = 1000;

/// The lines and the columns of a space.
const SIDE: u32 = 100;

/// The view of zeros over the grid of this name, whose first extent is the number of rows.
pub fn table_view(alloc: Global, expr: &MapExpr, grid: &str, rows: u32) -> Result<View, BenchFault>
    requires { IsBuiltTerm (term_of expr.now) }
    ensures { IfOk result (λ view. view.fields ≡ measured_fields) }
{
    let extents = table_extents(grid, rows)?;
    let schema = measured_schema(alloc)?;
    Ok(View::new(alloc, &schema, extents, expr)?)
}

// The extents of a grid. More than 2^24 rows are too many for every form.
fn table_extents(grid: &str, rows: u32) -> Result<Extents, BenchFault> {
    let rows = ExtentWord::Fixed(rows);
    match grid {
        "line" => extents_of(&[rows]),
        "plane" => extents_of(&[rows, ExtentWord::Fixed(COLUMNS)]),
        "space" => extents_of(&[rows, ExtentWord::Fixed(SIDE), ExtentWord::Fixed(SIDE)]),
        _ => Err(BenchFault::Words),
    }
}

// The extents that these numbers are.
fn extents_of(words: &[ExtentWord]) -> Result<Extents, BenchFault>
    requires { count_by is_rows words.now ≡ 0 }
{
    let Ok(shape) = Shape::new(words) else {
        return Err(MakeView::TooBig.into());
    };
    Ok(shape.resolve(None).ok().ok_or(MakeView::TooBig)?)
}
