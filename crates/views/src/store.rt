ghost use Rattle.std.specs.Prelude.{ℕ, ◌≡◌, ◌≤◌};
ghost use Rattle.views.specs.Imports.{Strict};
ghost use Rattle.views.specs.Stores.{is_between, store_answer, without_number};

use crate::fault::StoreFault;
use places::Hold;
use record_dim::LeafType;

/// Whether a value can be stored in a leaf of this type that is stored so, in a strict view.
pub fn answer(kind: LeafType, hold: Hold, value: i128) -> Result<(), StoreFault>
    requires some { 1 ≤ hold.width }
    requires narrow { hold.width ≤ 64 }
    ensures { result ≡ without_number (store_answer Strict kind hold value) }
{
    if !is_between(kind.least(), kind.greatest(), value) {
        return Err(StoreFault::Range);
    }
    if !is_between(hold.least(), hold.greatest(), value) {
        return Err(StoreFault::Narrow);
    }
    Ok(())
}

/// Whether a value lies between two numbers, both included.
fn is_between(least: i128, greatest: i128, value: i128) -> bool
    ensures { result ≡ is_between least greatest value }
{
    least <= value && value <= greatest
}
