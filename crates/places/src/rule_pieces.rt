ghost use Rattle.std.specs.Prelude.{◌≡◌, ◌^◌, ◌<◌, [], ◌∷◌, All};
ghost use Rattle.places.specs.PieceRules.{begin_in, piece_in, pieces_in};

use crate::rule::{PieceRule, PieceRules};
use crate::{Piece, Pieces};

impl PieceRule {
    /// The piece of a slot.
    #[inline(always)]
    pub fn piece(&self, slot: u64) -> Piece
        requires fits { begin_in self.now slot < 2 ^ 64 }
        ensures { result ≡ piece_in self.now slot }
    {
        Piece {
            blob: self.blob,
            bit: self.begin(slot),
            bits: self.bits,
        }
    }

    /// The piece of a slot, alone.
    pub fn pieces(&self, slot: u64) -> Pieces
        requires fits { begin_in self.now slot < 2 ^ 64 }
        ensures { result.items ≡ pieces_in (self.now ∷ []) slot }
    {
        let mut pieces = Pieces::new();
        pieces.push(self.piece(slot));
        pieces
    }

    /// Where the piece of a slot begins. Blocks of one slot need no division, and those of a power of two a shift.
    #[inline(always)]
    fn begin(&self, slot: u64) -> u64
        requires fits { begin_in self.now slot < 2 ^ 64 }
        ensures { result ≡ begin_in self.now slot }
    {
        if self.lanes == 1 {
            return self.base + slot * self.block;
        }
        let power = self.lanes.trailing_zeros();
        if self.lanes == 1u64 << power {
            return self.base + (slot >> power) * self.block + (slot & (self.lanes - 1)) * self.lane;
        }
        self.base + slot / self.lanes * self.block + slot % self.lanes * self.lane
    }
}

/// The pieces of a slot by all rules of a cell, in their order.
pub fn pieces_in(rules: &PieceRules, slot: u64) -> Pieces
    requires fit { All (λ rule. begin_in rule slot < 2 ^ 64) rules.now.items }
    ensures { result.items ≡ pieces_in rules.now.items slot }
{
    let mut pieces = Pieces::new();
    for rule in rules.as_slice() {
        pieces.push(rule.piece(slot));
    }
    pieces
}
