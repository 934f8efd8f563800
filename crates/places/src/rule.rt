ghost use Rattle.std.specs.Prelude.{◌<◌};

use arrayvec::ArrayVec;

/// Where a piece of a cell lies in every slot. The slots lie in blocks of `lanes`, and the piece of slot `s` is the `bits` bits of the blob
/// from bit `base + s / lanes * block + s % lanes * lane` on.
#[derive(Clone, Copy, PartialEq, Eq)]
pub struct PieceRule {
    /// The number of the blob.
    pub blob: usize,
    /// Where the piece of slot 0 begins, in bits.
    pub base: u64,
    /// The slots of a block, at least 1.
    pub lanes: u64,
    /// The bits from a block to the next.
    pub block: u64,
    /// The bits from a slot to the next in its block.
    pub lane: u64,
    /// The bits of each piece.
    pub bits: u32,
    ghost some: { 0 < lanes },
}

/// The pieces of a cell in every slot, least significant first.
pub type PieceRules = ArrayVec<PieceRule, 8>;

// An `ArrayVec` fills its empty places with it.
impl Default for PieceRule {
    fn default() -> PieceRule {
        PieceRule {
            blob: 0,
            base: 0,
            lanes: 1,
            block: 0,
            lane: 0,
            bits: 0,
        }
    }
}
