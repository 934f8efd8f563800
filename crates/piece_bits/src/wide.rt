// What stands at a place from which on eight bytes lie within the blob: one load, and no test of a sign or a width.
ghost use Rattle.std.specs.Prelude.{ℕ, ◌≡◌, ◌+◌, ◌*◌, ◌/◌, ◌≤◌, length};
ghost use Rattle.piece_bits.specs.Imports.{number, decoded, bit_of, turned_place, IsTurned};
ghost use Rattle.piece_bits.specs.Words.{IsBitField};

use crate::field::{Field, moved_back};
use blobs::Blob;

/// The number that whole bytes from byte `first` on say.
#[inline(always)]
pub fn whole_wide(blob: &Blob, first: u64, field: &Field) -> i128
    requires form { IsBitField field.now }
    requires room { first + 8 ≤ length blob.now }
    ensures { result ≡ decoded field.now.signed field.now.width (number (λ k. bit_of blob.now (8 * first + k)) field.now.width) }
{
    moved_back(field, blob.whole(first, 64) & field.ones)
}

/// The number that a field from bit `at` on says.
#[inline(always)]
pub fn field_wide(blob: &Blob, at: u64, field: &Field) -> i128
    requires form { IsBitField field.now }
    requires narrow { field.now.width ≤ 57 }
    requires room { at / 8 + 8 ≤ length blob.now }
    ensures { result ≡ decoded field.now.signed field.now.width (number (λ k. bit_of blob.now (at + k)) field.now.width) }
{
    moved_back(field, (blob.whole(at / 8, 64) >> (at % 8)) & field.ones)
}

/// The number that whole bytes in reverse order from byte `first` on say. The bytes behind them are shifted out.
#[inline(always)]
pub fn turned_wide(blob: &Blob, first: u64, field: &Field) -> i128
    requires form { IsBitField field.now }
    requires turned { IsTurned field.now.width }
    requires room { first + 8 ≤ length blob.now }
    ensures { result ≡ decoded field.now.signed field.now.width (number (λ k. bit_of blob.now (8 * first + turned_place field.now.width k)) field.now.width) }
{
    moved_back(field, blob.turned(first, 64) >> (64 - field.width))
}
