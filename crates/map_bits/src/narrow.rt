ghost use Rattle.std.specs.Prelude.{◌≡◌, IfOk, length};
ghost use Rattle.places.specs.Prelude.{narrow_holds};
ghost use Rattle.map_bits.specs.Bits.{is_bad_width, has_bad_width};

use places::{Cell, Hold, MAX_WIDTH};
use std::alloc::{AllocError as NoMemory, Global};

/// Whether some width is not 1 to 64.
pub fn has_bad_width(widths: &[u32]) -> bool
    ensures { result ≡ has_bad_width widths.now }
{
    widths.iter().any(|width| is_bad_width(*width))
}

fn is_bad_width(width: u32) -> bool
    ensures { result ≡ is_bad_width width }
{
    !(1..=MAX_WIDTH).contains(&width)
}

/// How cells are stored, each in at most its own number of bits.
pub fn narrow_holds(alloc: Global, cells: &[Cell], widths: &[u32]) -> Result<Vec<Hold>, NoMemory>
    requires { length widths.now ≡ length cells.now }
    ensures { IfOk result (λ holds. holds.items ≡ narrow_holds widths.now cells.now) }
{
    let mut holds = Vec::with_capacity(alloc, cells.len())?;
    for i in 0..cells.len() {
        holds.push(Hold::within(widths[i], cells[i].kind))?;
    }
    Ok(holds)
}
