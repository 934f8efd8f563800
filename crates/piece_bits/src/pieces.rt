ghost use Rattle.std.specs.Prelude.{ℕ, ◌≡◌, ◌<◌, ◌≤◌, All, length, map};
ghost use Rattle.piece_bits.specs.Imports.{number, bit_in, bit_at};
ghost use Rattle.piece_bits.specs.Inner.Spots.{spots_of, bit_at_spot, IsWithin, AreApart, IsOutside};

use blobs::{Blob, bits_in_word};
use places::Piece;

/// The bits of the pieces as a number, least significant first.
pub fn read_pieces(blobs: &[Blob], pieces: &[Piece]) -> u64
    requires within { All (IsWithin blobs.now) pieces.now }
    requires few { length (spots_of pieces.now) ≤ 64 }
    ensures { result ≡ number (bit_at_spot (bit_in blobs.now) (spots_of pieces.now)) (length (spots_of pieces.now)) }
{
    let mut value = 0u64;
    let mut done = 0u32;
    for piece in pieces {
        value += blobs[piece.blob].bits(piece.bit, piece.bits) << done;
        done += piece.bits;
    }
    value
}

/// Makes the bits of the pieces those of `value`, least significant first. All other bits stay.
pub fn write_pieces(blobs: &mut Vec<Blob>, pieces: &[Piece], value: u64)
    requires within { All (IsWithin blobs.old.items) pieces.now }
    requires few { length (spots_of pieces.now) ≤ 64 }
    requires apart { AreApart (spots_of pieces.now) }
    ensures inside { (k : ℕ) → k < length (spots_of pieces.now) → bit_at_spot (bit_in blobs.new.items) (spots_of pieces.now) k ≡ bit_at value k }
    ensures outside { (b p : ℕ) → IsOutside (spots_of pieces.now) b p → bit_in blobs.new.items b p ≡ bit_in blobs.old.items b p }
    ensures lengths { map length blobs.new.items ≡ map length blobs.old.items }
{
    let mut done = 0u32;
    for piece in pieces {
        let part = bits_in_word(value, done, piece.bits);
        blobs[piece.blob].put_bits(piece.bit, piece.bits, part);
        done += piece.bits;
    }
}
