// Which granules of a blob's bytes pieces have bits in.
ghost use Rattle.std.specs.Prelude.{◌≡◌, ◌≤◌, ◌^◌, nat_le};
ghost use Rattle.places.specs.Prelude.{is_in_granule, is_touched};
ghost use Rattle.instrument.specs.Counters.{granules_in};
ghost use Rattle.instrument.specs.Inner.Touching.{AreGranulesOf};

use places::Piece;

/// The most granules of a view.
pub const MAX_GRANULES: u64 = 1 << 24;

/// Whether blobs of so many bytes have at most 2^24 granules together.
pub fn are_few(granule: u32, blob_bytes: &[u64]) -> bool
    requires { 1 ≤ granule }
    ensures { result ≡ nat_le (granules_in granule blob_bytes.now) (2 ^ 24) }
{
    let mut left = MAX_GRANULES;
    for bytes in blob_bytes {
        let granules = bytes.div_ceil(u64::from(granule));
        if granules > left {
            return false;
        }
        left -= granules;
    }
    true
}

/// The first granule that holds a bit of a piece, and the one behind the last. An empty piece has none.
pub(crate) fn granules_of(piece: &Piece, granule: u32) -> (u64, u64)
    requires granule { 1 ≤ granule }
    ensures { AreGranulesOf granule piece.now result.0 result.1 }
{
    let wide = 8 * u64::from(granule);
    let first = piece.bit / wide;
    if piece.bits == 0 {
        return (first, first);
    }
    // The end of the piece may be past the greatest number, and that of its part in the first granule and behind is not.
    let last = piece.bit % wide + u64::from(piece.bits) - 1;
    (first, first + last / wide + 1)
}

/// Whether one of these pieces has a bit in a granule of a blob.
pub(crate) fn is_touched(pieces: &[Piece], granule: u32, blob: usize, number: u64) -> bool
    requires granule { 1 ≤ granule }
    ensures { result ≡ is_touched granule pieces.now blob number }
{
    for piece in pieces {
        if is_in_granule(piece, granule, blob, number) {
            return true;
        }
    }
    false
}

fn is_in_granule(piece: &Piece, granule: u32, blob: usize, number: u64) -> bool
    requires granule { 1 ≤ granule }
    ensures { result ≡ is_in_granule granule blob number piece.now }
{
    if piece.blob != blob {
        return false;
    }
    let (first, past) = granules_of(piece, granule);
    first <= number && number < past
}
