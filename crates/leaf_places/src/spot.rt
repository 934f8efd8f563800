// Where a bit lies, among the pieces of a number.
ghost use Rattle.std.specs.Prelude.{◌≡◌, ◌+◌, ◌^◌, ◌<◌, All, length};
ghost use Rattle.piece_bits.specs.Prelude.{spots_of, spot_at};

use places::Piece;

/// Where a bit lies: in which blob, and which of its bits it is.
#[derive(Clone, Copy)]
pub struct Spot {
    pub blob: usize,
    pub bit: u64,
}

/// Where bit k of pieces lies.
pub fn spot_in(pieces: &[Piece], k: u32) -> Spot
    requires inside { k < length (spots_of pieces.now) }
    requires bound { All (λ piece. piece.bit + piece.bits < 2 ^ 64) pieces.now }
    ensures { spot_at (spots_of pieces.now) k ≡ (result.blob, result.bit) }
{
    let mut left = k;
    for piece in pieces {
        if left < piece.bits {
            return Spot {
                blob: piece.blob,
                bit: piece.bit + u64::from(left),
            };
        }
        left -= piece.bits;
    }
    Spot { blob: 0, bit: 0 }
}
