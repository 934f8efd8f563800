ghost use Rattle.std.specs.Prelude.{◌≡◌, ◌<◌, Some, length, slice_get};

use places::Hold;
use record_dim::Sequence;

/// How each cell is stored, in order.
pub type HoldList = Sequence<Hold>;

/// How a cell is stored.
pub fn hold_at(holds: &[Hold], cell: usize) -> Hold
    requires { cell < length holds.now }
    ensures { slice_get holds.now cell ≡ Some result }
{
    holds[cell]
}
