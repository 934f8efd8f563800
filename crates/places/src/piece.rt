use arrayvec::ArrayVec;
use record_dim::{LeafType, Sequence};

/// What a mapping is built over: a leaf and the type in which it is stored.
#[derive(Clone, Copy)]
pub struct Cell {
    pub leaf: usize,
    pub kind: LeafType,
}

/// The cells of a mapping, in order.
pub type CellList = Sequence<Cell>;

/// How a cell is stored: as a signed or unsigned number of so many bits.
#[derive(Clone, Copy, PartialEq, Eq)]
pub struct Hold {
    pub signed: bool,
    pub width: u32,
}

impl Hold {
    ghost use Rattle.std.specs.Prelude.{◌≡◌, ◌≤◌};
    ghost use Rattle.record_dim.specs.LeafTypes.{least_in, greatest_in};
    ghost use Rattle.places.specs.Holds.{hold_of, hold_within};

    /// How a cell of a type is stored whole: in the type's own sign and width.
    pub fn of(kind: LeafType) -> Hold
        ensures { result ≡ hold_of kind }
    {
        Hold {
            signed: kind.signed(),
            width: kind.width(),
        }
    }

    /// How a cell of a type is stored in at most `width` bits: in the type's own sign.
    pub fn within(width: u32, kind: LeafType) -> Hold
        ensures { result ≡ hold_within width kind }
    {
        Hold {
            width: width.min(kind.width()),
            ..Hold::of(kind)
        }
    }

    /// The least value of a hold of 1 to 64 bits.
    pub fn least(self) -> i128
        requires some { 1 ≤ self.width }
        requires narrow { self.width ≤ 64 }
        ensures { result ≡ least_in self.signed self.width }
    {
        if self.signed {
            -i128::from(u64::MAX >> (64 - self.width) >> 1) - 1
        } else {
            0
        }
    }

    /// The greatest value of a hold of 1 to 64 bits.
    pub fn greatest(self) -> i128
        requires some { 1 ≤ self.width }
        requires narrow { self.width ≤ 64 }
        ensures { result ≡ greatest_in self.signed self.width }
    {
        if self.signed {
            i128::from(u64::MAX >> (64 - self.width) >> 1)
        } else {
            i128::from(u64::MAX >> (64 - self.width))
        }
    }
}

/// Consecutive bits of one blob, from bit `bit` on.
#[derive(Clone, Copy, Default, PartialEq, Eq)]
pub struct Piece {
    pub blob: usize,
    pub bit: u64,
    pub bits: u32,
}

/// Where the bits of one cell in one slot lie, least significant first.
pub type Pieces = ArrayVec<Piece, 8>;

/// Who owns a run of bits: nobody, or consecutive bits of one leaf in one row, from bit `low` of it on.
#[derive(Clone, Copy, PartialEq, Eq)]
pub enum RunOwner {
    Pad,
    Leaf { row: u64, leaf: usize, low: u32 },
}

/// Consecutive bits of one blob that have one owner, from bit `bit` on.
#[derive(Clone, Copy, PartialEq, Eq)]
pub struct Run {
    pub blob: usize,
    pub bit: u64,
    pub bits: u64,
    pub owner: RunOwner,
}

/// The runs of a blob, in the order of its bits.
pub type RunList = Sequence<Run>;
