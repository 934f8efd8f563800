ghost use Rattle.std.specs.Prelude.{◌≡◌, ◌≤◌, true, length};
ghost use Rattle.piece_bits.specs.Inner.Stands.{AreScattered, AreTurned, IsByteAlong};

use places::PieceRule;

/// Whether a rule is of single bytes, and goes from slot to slot as another.
fn is_byte_along(piece: PieceRule, other: PieceRule) -> bool
    ensures { result ≡ true → IsByteAlong other piece }
{
    piece.bits == 8
        && piece.lanes == other.lanes
        && piece.block == other.block
        && piece.lane == other.lane
}

/// Whether each piece is the byte behind the next one, and the last is this.
pub fn are_turned(pieces: &[PieceRule], last: PieceRule) -> bool
    requires { length pieces.now ≤ 8 }
    ensures { result ≡ true → AreTurned pieces.now last }
{
    for (k, piece) in pieces.iter().enumerate() {
        let behind = 8 * (pieces.len() - 1 - k) as u64;
        if piece.blob != last.blob || !is_byte_along(*piece, last) {
            return false;
        }
        if piece.base < last.base || piece.base - last.base != behind {
            return false;
        }
    }
    true
}

/// Whether each piece is a whole byte, and all go from slot to slot as this one.
pub fn are_scattered(pieces: &[PieceRule], first: PieceRule) -> bool
    ensures { result ≡ true → AreScattered pieces.now first }
{
    for piece in pieces {
        if !is_byte_along(*piece, first) || piece.base % 8 != 0 {
            return false;
        }
    }
    true
}
