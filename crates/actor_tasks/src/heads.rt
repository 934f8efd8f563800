// The bytes of a leaf in a row, one after another.
ghost use Rattle.std.specs.Prelude.{◌≡◌, ◌+◌, ◌^◌, ◌<◌, IfSome, length};
ghost use Rattle.actor_tasks.specs.Imports.{IsByte};
ghost use Rattle.actor_tasks.specs.Places.{IsHead, byte_behind};

use crate::next::next_byte;
use actor_steps::Place;
use places::{Mapping, laws_of};

/// The first byte at or behind a place that holds a bit of a leaf in a row.
pub fn leaf_byte<M: Mapping>(mapping: &M, row: u64, leaf: usize, from: Place) -> Option<Place>
    requires row_in { row < M.slot_count mapping.now }
    requires leaf_in { leaf < length (M.cell_list mapping.now) }
    ensures head { IsHead (M.layout mapping.now) row leaf from result }
    ensures inside { IfSome result (IsByte (M.layout mapping.now)) }
{
    laws_of(mapping);
    let pieces = mapping.locate(row, leaf);
    next_byte(pieces.as_slice(), from)
}

/// The byte behind a place.
pub fn behind(place: Place) -> Place
    requires { place.byte + 1 < 2 ^ 64 }
    ensures { result ≡ byte_behind place }
{
    Place {
        byte: place.byte + 1,
        ..place
    }
}
