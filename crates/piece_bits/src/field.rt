// A field of bits that lies in the eight bytes from the byte of its first bit on: a load or a store of a word, two shifts and a mask.
ghost use Rattle.std.specs.Prelude.{ℕ, ◌≡◌, ◌+◌, ◌-◌, ◌*◌, ◌^◌, ◌<◌, ◌≤◌, length};
ghost use Rattle.piece_bits.specs.Imports.{IsIn, number, digit, decoded, bit_of, bit_at};
ghost use Rattle.piece_bits.specs.Words.{IsBitField};

use crate::value::encode;
use blobs::{Blob, with_bits};
use places::Hold;

/// How the numbers of a leaf are stored in a field of bits. All is worked out once.
#[derive(Clone, Copy)]
pub struct Field {
    pub signed: bool,
    /// From 1 to 64 bits.
    pub width: u32,
    /// As many ones as bits.
    pub ones: u64,
    /// Half of the range, where there is a sign, and else 0.
    pub half: u64,
}

impl Field {
    /// The field of a hold.
    pub fn of(hold: Hold) -> Field
        requires some { 1 ≤ hold.width }
        requires narrow { hold.width ≤ 64 }
        ensures form { IsBitField result }
        ensures signed { result.signed ≡ hold.signed }
        ensures width { result.width ≡ hold.width }
    {
        Field {
            signed: hold.signed,
            width: hold.width,
            ones: u64::MAX >> (64 - hold.width),
            half: if hold.signed {
                1 << (hold.width - 1)
            } else {
                0
            },
        }
    }
}

/// The number that the field from bit `at` on says (two's complement).
#[inline(always)]
pub fn field_at(blob: &Blob, at: u64, field: &Field) -> i128
    requires form { IsBitField field.now }
    requires narrow { field.now.width ≤ 57 }
    requires within { at + field.now.width ≤ 8 * length blob.now }
    ensures { result ≡ decoded field.now.signed field.now.width (number (λ k. bit_of blob.now (at + k)) field.now.width) }
{
    let word = blob.window((at / 8) as usize);
    moved_back(field, (word >> (at % 8)) & field.ones)
}

/// The number that the bits of a field say. Half of the range is added within the width, by its bit alone, and taken off again, so no sign
/// is asked for.
#[inline(always)]
pub(crate) fn moved_back(field: &Field, bits: u64) -> i128
    requires form { IsBitField field.now }
    requires small { bits < 2 ^ field.now.width }
    ensures { result ≡ decoded field.now.signed field.now.width bits }
{
    i128::from(bits ^ field.half) - i128::from(field.half)
}

/// Makes the field from bit `at` on that of a number. All other bits stay.
#[inline(always)]
pub fn put_field_at(blob: &mut Blob, at: u64, field: &Field, value: i128)
    requires form { IsBitField field.now }
    requires narrow { field.now.width ≤ 57 }
    requires within { at + field.now.width ≤ 8 * length blob.old }
    requires held { IsIn field.now.signed field.now.width value }
    ensures inside { (k : ℕ) → k < field.now.width → bit_of blob.new (at + k) ≡ bit_at (number (digit value) field.now.width) k }
    ensures before { (k : ℕ) → k < at → bit_of blob.new k ≡ bit_of blob.old k }
    ensures after { (k : ℕ) → at + field.now.width ≤ k → bit_of blob.new k ≡ bit_of blob.old k }
    ensures len { length blob.new ≡ length blob.old }
{
    let first = (at / 8) as usize;
    let hold = Hold {
        signed: field.signed,
        width: field.width,
    };
    let code = encode(hold, value);
    let word = with_bits(blob.window(first), (at % 8) as u32, field.width, code);
    blob.put_window(first, word);
}
