ghost use Rattle.std.specs.Prelude.{◌≡◌, ◌≢◌, ◌⊎◌, IfSome, length};
ghost use Rattle.piece_bits.specs.Imports.{Order, Row};
ghost use Rattle.piece_bits.specs.RowPaths.{IsRowPath};

use crate::walk::Walk;
use extents::Extents;
use linearize::{Columns, Order};

/// How the rows of an array become slots.
#[derive(Clone, Copy)]
pub struct Path {
    pub walk: Walk,
    pub lines: u64,
    pub columns: Columns,
}

/// The most columns whose reciprocal is exact for every row.
const MAX_COLUMNS: u64 = 1 << 24;

/// How rows become slots by an order, where the slots lie in blocks of this power of two and there is a short form.
pub fn path_of(order: Order, extents: &Extents, power: u32) -> Option<Path>
    ensures path { IfSome result (λ path. IsRowPath order extents.now power path.walk path.lines path.columns.columns) }
{
    if order == Order::Row || extents.rank() == 1 {
        return Some(by_rows(order, extents, power));
    }
    if extents.rank() == 2 && power == 0 {
        return by_lines(order, extents);
    }
    None
}

/// By rows, or over one extent, where every order is that by rows.
fn by_rows(order: Order, extents: &Extents, power: u32) -> Path
    requires { (order ≡ Row) ⊎ (length extents.now ≡ 1) }
    ensures { IsRowPath order extents.now power result.walk result.lines result.columns.columns }
{
    Path {
        walk: if power == 0 {
            Walk::Plain
        } else {
            Walk::Blocks
        },
        lines: 1,
        columns: Columns::of(1),
    }
}

/// Over lines and columns, in another order than that by rows.
fn by_lines(order: Order, extents: &Extents) -> Option<Path>
    requires rank { length extents.now ≡ 2 }
    requires order { order ≢ Row }
    ensures { IfSome result (λ path. IsRowPath order extents.now 0 path.walk path.lines path.columns.columns) }
{
    let columns = extents.at(1);
    if columns == 0 || columns > MAX_COLUMNS {
        return None;
    }
    Some(Path {
        walk: match order {
            Order::Morton => Walk::Morton,
            _ => Walk::Columns,
        },
        lines: extents.at(0),
        columns: Columns::of(columns),
    })
}
