ghost use Rattle.std.specs.Prelude.{◌≡◌, ◌≤◌, ◌<◌, ◌^◌, IfSome};
ghost use Rattle.piece_bits.specs.Inner.Stands.{IsInBits, IsInBytes};

use crate::Word;
use crate::stand::Stand;
use places::PieceRule;

/// The most bits that lie in the eight bytes from their first one on, wherever they begin.
pub(crate) const MAX_FIELD: u32 = 57;

/// The power of two that a number is.
fn power_of(lanes: u64) -> Option<u32>
    requires { 0 < lanes }
    ensures is { IfSome result (λ power. lanes ≡ 2 ^ power) }
    ensures low { IfSome result (λ power. power < 64) }
{
    let power = lanes.trailing_zeros();
    (lanes == 1 << power).then_some(power)
}

/// A field where a rule of at most 57 bits says.
pub fn in_bits(piece: PieceRule) -> Option<Stand>
    ensures { IfSome result (λ stand. IsInBits piece stand × (piece.bits ≤ 57)) }
{
    if piece.bits > MAX_FIELD {
        return None;
    }
    let power = power_of(piece.lanes)?;
    Some(Stand {
        word: Word::Field,
        blob: piece.blob,
        base: piece.base,
        block: piece.block,
        lane: piece.lane,
        power,
    })
}

/// A word where a rule of whole bytes says.
pub fn in_bytes(piece: PieceRule, word: Word) -> Option<Stand>
    ensures { IfSome result (IsInBytes piece word) }
{
    if piece.base % 8 != 0 || piece.block % 8 != 0 || piece.lane % 8 != 0 {
        return None;
    }
    let power = power_of(piece.lanes)?;
    Some(Stand {
        word,
        blob: piece.blob,
        base: piece.base / 8,
        block: piece.block / 8,
        lane: piece.lane / 8,
        power,
    })
}
