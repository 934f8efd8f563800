use crate::WidthList;
use extents::Order;
use places::{AosForm, SoaForm};
use record_dim::{LeafType, Name, Path, Sequence};

/// Mapping expressions, in order.
pub type MapExprList = Sequence<MapExpr>;

/// How the cells of an array's records are to lie in blobs.
#[derive(Drop)]
pub enum MapExpr {
    /// Slot after slot.
    Aos {
        form: AosForm,
        order: Order,
    },
    /// Cell after cell.
    Soa {
        form: SoaForm,
        order: Order,
    },
    /// Blocks of `lanes` slots, 1 to 64; in a block cell after cell.
    Aosoa {
        lanes: u32,
        order: Order,
    },
    /// Slot after slot, each cell in at most so many bits, 1 to 64: those of the last of `fields` that it is under, and `width` where
    /// it is under none.
    BitAos {
        width: u32,
        fields: WidthList,
        order: Order,
    },
    /// A blob for each cell, each cell in at most so many bits, as in `BitAos`.
    BitSoa {
        width: u32,
        fields: WidthList,
        order: Order,
    },
    /// The cells whose leaf is under `path` as `first` says, the others as `rest` says.
    Split {
        path: Path,
        first: Box<MapExpr>,
        rest: Box<MapExpr>,
    },
    /// Each cell with its bytes in reverse order.
    Byteswap(Box<MapExpr>),
    /// Each cell as one `u8` cell for each of its bytes, least significant first.
    Bytesplit(Box<MapExpr>),
    /// Each cell of type `from` as a cell of type `to`.
    Change {
        from: LeafType,
        to: LeafType,
        inner: Box<MapExpr>,
    },
    /// As `inner`, with a count of accesses for each leaf.
    Count(Box<MapExpr>),
    /// As `inner`, with a count of accesses for each granule of `granule` bytes, a power of two from 1 to 4,096.
    Heat {
        granule: u32,
        inner: Box<MapExpr>,
    },
    /// The expression that this name was given.
    Named(Name),
}
