ghost use Rattle.std.specs.Prelude.{◌≡◌, IfOk, length, not};
ghost use Rattle.map_checks.specs.Imports.{count_by, merged};

use crate::hold_list::{HoldList, hold_at};
use places::Hold;
use std::alloc::{AllocError as NoMemory, Global};

/// How the cells of both sides are stored, in the order of the whole.
pub fn merge_holds(
    alloc: Global,
    side: &[bool],
    first: &[Hold],
    rest: &[Hold],
) -> Result<HoldList, NoMemory>
    requires first { length first.now ≡ count_by (λ s. s) side.now }
    requires rest { length rest.now ≡ count_by not side.now }
    ensures { IfOk result (λ holds. holds ≡ merged side.now first.now rest.now) }
{
    let mut holds = HoldList::new(alloc);
    let mut from_first = 0;
    let mut from_rest = 0;
    for &is_first in side {
        if is_first {
            holds.push(hold_at(first, from_first))?;
            from_first += 1;
        } else {
            holds.push(hold_at(rest, from_rest))?;
            from_rest += 1;
        }
    }
    Ok(holds)
}
