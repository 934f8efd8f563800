ghost use Rattle.std.specs.Prelude.{◌≡◌, ◌⊎◌, true, IfErr, OnOk, IsErrOf, length};
ghost use Rattle.map_checks.specs.Imports.{full_holds, differ};

use crate::fault::MakeMap;
use crate::hold_list::HoldList;
use crate::holds::full_holds;
use crate::not_full::has_other_hold;
use map_expr::BadMapping;
use places::CellList;
use std::alloc::Global;

/// Refuses holds that are not those of the cells' types: `NotFull` comes exactly where some sign or width is another.
pub fn check_full(alloc: Global, cells: &CellList, holds: &HoldList) -> Result<(), MakeMap>
    requires { length holds.now ≡ length cells.now }
    ensures full { OnOk result (holds.now ≡ full_holds cells.now) }
    ensures not_full { IsErrOf result (MakeMap.Bad BadMapping.NotFull) → differ holds.now (full_holds cells.now) ≡ true }
    ensures only { IfErr result (λ e. (e ≡ MakeMap.Bad BadMapping.NotFull) ⊎ (e ≡ MakeMap.NoMemory)) }
{
    let full = full_holds(alloc, cells)?;
    if has_other_hold(holds.as_slice(), full.as_slice()) {
        return Err(MakeMap::Bad(BadMapping::NotFull));
    }
    Ok(())
}
