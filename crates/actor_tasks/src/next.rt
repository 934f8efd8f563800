// The bytes of pieces, one after another.
ghost use Rattle.std.specs.Prelude.{◌≡◌, ◌+◌, ◌^◌, ◌<◌, All};
ghost use Rattle.actor_tasks.specs.Inner.Nexts.{Touches, AnyTouches, IsNext, IsEarlier};

use actor_steps::Place;
use places::Piece;

/// The first byte at or behind a place that holds a bit of some pieces.
pub fn next_byte(pieces: &[Piece], from: Place) -> Option<Place>
    requires some { All (λ piece. 0 < piece.bits) pieces.now }
    requires bound { All (λ piece. piece.bit + piece.bits < 2 ^ 64) pieces.now }
    ensures { IsNext (AnyTouches pieces.now) from result }
{
    let mut next = None;
    for piece in pieces {
        next = earlier(next, byte_of(piece, from));
    }
    next
}

// The first byte at or behind a place that holds a bit of a piece.
fn byte_of(piece: &Piece, from: Place) -> Option<Place>
    requires some { 0 < piece.now.bits }
    requires bound { piece.now.bit + piece.now.bits < 2 ^ 64 }
    ensures { IsNext (Touches piece.now) from result }
{
    if piece.blob < from.blob {
        return None;
    }
    let first = Place {
        blob: piece.blob,
        byte: piece.bit / 8,
    };
    if from.blob < piece.blob || from.byte <= first.byte {
        return Some(first);
    }
    let last = (piece.bit + u64::from(piece.bits) - 1) / 8;
    if from.byte <= last { Some(from) } else { None }
}

// The earlier of two bytes.
fn earlier(one: Option<Place>, two: Option<Place>) -> Option<Place>
    ensures { IsEarlier one two result }
{
    match (one, two) {
        (Some(first), Some(second)) => {
            if first.blob < second.blob || first.blob == second.blob && first.byte <= second.byte {
                one
            } else {
                two
            }
        }
        (None, _) => two,
        (_, None) => one,
    }
}
