ghost use Rattle.std.specs.Prelude.{◌≡◌};
ghost use Rattle.map_bytes.specs.Imports.{full_holds};
ghost use Rattle.map_bytes.specs.Cells.{same_hold, differ};

use places::{Hold, Mapping};

/// Whether two ways of storing are the same.
pub fn is_same_hold(hold: Hold, other: Hold) -> bool
    ensures { result ≡ same_hold hold other }
{
    hold.width == other.width && hold.signed == other.signed
}

/// Whether a mapping stores some cell in another sign or width than its type's.
pub fn has_other_hold<M: Mapping>(mapping: &M) -> bool
    ensures { result ≡ differ (M.hold_list mapping.now) (full_holds (M.cell_list mapping.now)) }
{
    for cell in 0..mapping.cells() {
        if !is_same_hold(mapping.hold(cell), Hold::of(mapping.kind(cell))) {
            return true;
        }
    }
    false
}
