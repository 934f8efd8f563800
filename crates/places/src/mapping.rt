ghost use Rattle.std.specs.Prelude.{ℕ, ◌≡◌, ◌*◌, ◌<◌, List, [], length, map, slice_index, slice_index_or, slice_get, Some};
ghost use Rattle.places.specs.Layout.{Owner};
ghost use Rattle.places.specs.Lawful.{IsLaidOut, IsLocated};
ghost use Rattle.places.specs.declared.mapping.NewMapping.TheVariants.{NoMemory};
ghost use Rattle.places.specs.declared.piece.Cell.{Cell};
ghost use Rattle.places.specs.declared.piece.Hold.{Hold};

use crate::piece::{Cell, Hold, Pieces};
use record_dim::LeafType;
use std::alloc::{AllocError, AllocFailed};
use thiserror::Error;

/// Why a mapping was not made.
#[derive(Clone, Copy, Debug, PartialEq, Eq, Error)]
pub enum NewMapping {
    /// The lanes are not 1 to 64.
    #[error("the lanes are not 1 to 64")]
    Lanes,
    /// The width is not 1 to 64.
    #[error("the width is not 1 to 64")]
    Width,
    /// A cell of the inner mapping has another sign or width than its type.
    #[error("a cell of the inner mapping has another sign or width than its type")]
    NotFull,
    /// All cells or none go to the first side.
    #[error("all cells or none go to the first side")]
    Side,
    /// More than 2^24 slots, or more than 2^28 bytes in all blobs.
    #[error("more than 2^24 slots, or more than 2^28 bytes in all blobs")]
    TooBig,
    #[error("out of memory")]
    NoMemory,
}

impl From<AllocError> for NewMapping {
    ghost from_gives = { λ _ e. e ≡ NoMemory };

    fn from(_e: AllocError) -> NewMapping {
        NewMapping::NoMemory
    }
}

impl<T: Drop> From<AllocFailed<T>> for NewMapping {
    ghost from_gives = { λ _ e. e ≡ NoMemory };

    fn from(_e: AllocFailed<T>) -> NewMapping {
        NewMapping::NoMemory
    }
}

/// Where each cell of each slot lies. Its meaning is a layout, the number of slots, the cells and their holds.
pub trait Mapping: Drop {
    ghost layout: { Self → List (List Owner) };

    ghost slot_count: { Self → ℕ };

    ghost cell_list: { Self → List Cell };

    ghost hold_list: { Self → List Hold };

    /// The number of slots.
    fn slots(&self) -> u64
        ensures { result ≡ slot_count self.now };

    /// The number of cells.
    fn cells(&self) -> usize
        ensures { result ≡ length (cell_list self.now) };

    /// The type of a cell.
    fn kind(&self, cell: usize) -> LeafType
        requires { cell < length (cell_list self.now) }
        ensures { slice_get (map (λ c. c.kind) (cell_list self.now)) cell ≡ Some result };

    /// How a cell is stored.
    fn hold(&self, cell: usize) -> Hold
        requires { cell < length (cell_list self.now) }
        ensures { slice_get (hold_list self.now) cell ≡ Some result };

    /// The number of blobs.
    fn blob_count(&self) -> usize
        ensures { result ≡ length (layout self.now) };

    /// The length of a blob in bytes.
    fn blob_bytes(&self, blob: usize) -> u64
        requires { blob < length (layout self.now) }
        ensures { 8 * result ≡ length (slice_index_or (layout self.now) blob []) };

    /// The places of the bits of a cell in a slot, least significant first.
    fn locate(&self, slot: u64, cell: usize) -> Pieces
        requires slot_in { slot < slot_count self.now }
        requires cell_in { cell < length (cell_list self.now) }
        ensures { IsLocated (layout self.now) slot cell (slice_index (map (λ h. h.width) (hold_list self.now)) cell) result.items };

    ghost laws: { (m : Self) → IsLaidOut (layout m) (slot_count m) (map (λ h. h.width) (hold_list m)) };

    ghost holds_cells: { (m : Self) → length (hold_list m) ≡ length (cell_list m) };
}
