// What stands at a place of a blob, read and written by its kind: it is decided once, and each kind is a load or a store.
ghost use Rattle.std.specs.Prelude.{ℕ, ◌≡◌, ◌+◌, ◌*◌, ◌<◌, ◌≤◌, length};
ghost use Rattle.piece_bits.specs.Imports.{IsIn, number, digit, decoded, bit_of, IsWholeBytes, turned_place, IsTurned, bit_at};
ghost use Rattle.piece_bits.specs.Words.{IsPlaceWord, word_bit, word_place, word_signed, word_width};

use crate::field::{Field, field_at, put_field_at};
use crate::value::{decode, encode};
use blobs::Blob;
use places::Hold;

/// What stands at a place. The unit of places is a bit for `Field`, and a byte for all others.
#[derive(Clone, Copy)]
pub enum Word {
    // Whole bytes, as a leaf type stores them.
    U8,
    U16,
    U32,
    U64,
    I8,
    I16,
    I32,
    I64,
    // The same with the bytes in reverse order.
    TurnedU16,
    TurnedU32,
    TurnedU64,
    TurnedI16,
    TurnedI32,
    TurnedI64,
    /// A field of 1 to 57 bits, so that the eight bytes from its first one on hold it.
    Field,
    /// Bytes, each at a place of its own.
    Scattered,
}

/// The number that stands at a place of a blob. Scattered bytes have no place of their own, so the whole rule reads them.
#[inline(always)]
pub fn read_word(blob: &Blob, start: u64, word: Word, field: &Field) -> i128
    requires form { IsPlaceWord word field.now }
    requires within { word_bit word start + word_width word field.now ≤ 8 * length blob.now }
    ensures { result ≡ decoded (word_signed word field.now) (word_width word field.now)
        (number (λ k. bit_of blob.now (word_place word start k)) (word_width word field.now)) }
{
    match word {
        Word::U8 => loaded(blob, start, false, 8),
        Word::U16 => loaded(blob, start, false, 16),
        Word::U32 => loaded(blob, start, false, 32),
        Word::U64 => loaded(blob, start, false, 64),
        Word::I8 => loaded(blob, start, true, 8),
        Word::I16 => loaded(blob, start, true, 16),
        Word::I32 => loaded(blob, start, true, 32),
        Word::I64 => loaded(blob, start, true, 64),
        Word::TurnedU16 => turned_loaded(blob, start, false, 16),
        Word::TurnedU32 => turned_loaded(blob, start, false, 32),
        Word::TurnedU64 => turned_loaded(blob, start, false, 64),
        Word::TurnedI16 => turned_loaded(blob, start, true, 16),
        Word::TurnedI32 => turned_loaded(blob, start, true, 32),
        Word::TurnedI64 => turned_loaded(blob, start, true, 64),
        Word::Field => field_at(blob, start, field),
        Word::Scattered => unreachable!(),
    }
}

#[inline(always)]
fn loaded(blob: &Blob, first: u64, signed: bool, width: u32) -> i128
    requires whole { IsWholeBytes width }
    requires within { 8 * first + width ≤ 8 * length blob.now }
    ensures { result ≡ decoded signed width (number (λ k. bit_of blob.now (8 * first + k)) width) }
{
    decode(Hold { signed, width }, blob.whole(first, width))
}

#[inline(always)]
fn turned_loaded(blob: &Blob, first: u64, signed: bool, width: u32) -> i128
    requires turned { IsTurned width }
    requires some { 1 ≤ width }
    requires narrow { width ≤ 64 }
    requires within { 8 * first + width ≤ 8 * length blob.now }
    ensures { result ≡ decoded signed width (number (λ k. bit_of blob.now (8 * first + turned_place width k)) width) }
{
    decode(Hold { signed, width }, blob.turned(first, width))
}

/// Makes what stands at a place of a blob this number. All other bits stay.
#[inline(always)]
pub fn write_word(blob: &mut Blob, start: u64, word: Word, field: &Field, value: i128)
    requires form { IsPlaceWord word field.now }
    requires within { word_bit word start + word_width word field.now ≤ 8 * length blob.old }
    requires held { IsIn (word_signed word field.now) (word_width word field.now) value }
    ensures inside { (k : ℕ) → k < word_width word field.now → bit_of blob.new (word_place word start k)
        ≡ bit_at (number (digit value) (word_width word field.now)) k }
    ensures before { (k : ℕ) → k < word_bit word start → bit_of blob.new k ≡ bit_of blob.old k }
    ensures after { (k : ℕ) → word_bit word start + word_width word field.now ≤ k → bit_of blob.new k ≡ bit_of blob.old k }
    ensures len { length blob.new ≡ length blob.old }
{
    match word {
        Word::U8 => stored(blob, start, false, 8, value),
        Word::U16 => stored(blob, start, false, 16, value),
        Word::U32 => stored(blob, start, false, 32, value),
        Word::U64 => stored(blob, start, false, 64, value),
        Word::I8 => stored(blob, start, true, 8, value),
        Word::I16 => stored(blob, start, true, 16, value),
        Word::I32 => stored(blob, start, true, 32, value),
        Word::I64 => stored(blob, start, true, 64, value),
        Word::TurnedU16 => turned_stored(blob, start, false, 16, value),
        Word::TurnedU32 => turned_stored(blob, start, false, 32, value),
        Word::TurnedU64 => turned_stored(blob, start, false, 64, value),
        Word::TurnedI16 => turned_stored(blob, start, true, 16, value),
        Word::TurnedI32 => turned_stored(blob, start, true, 32, value),
        Word::TurnedI64 => turned_stored(blob, start, true, 64, value),
        Word::Field => put_field_at(blob, start, field, value),
        Word::Scattered => unreachable!(),
    }
}

#[inline(always)]
fn stored(blob: &mut Blob, first: u64, signed: bool, width: u32, value: i128)
    requires whole { IsWholeBytes width }
    requires within { 8 * first + width ≤ 8 * length blob.old }
    requires held { IsIn signed width value }
    ensures inside { (k : ℕ) → k < width → bit_of blob.new (8 * first + k) ≡ bit_at (number (digit value) width) k }
    ensures before { (k : ℕ) → k < 8 * first → bit_of blob.new k ≡ bit_of blob.old k }
    ensures after { (k : ℕ) → 8 * first + width ≤ k → bit_of blob.new k ≡ bit_of blob.old k }
    ensures len { length blob.new ≡ length blob.old }
{
    blob.put_whole(first, width, encode(Hold { signed, width }, value));
}

#[inline(always)]
fn turned_stored(blob: &mut Blob, first: u64, signed: bool, width: u32, value: i128)
    requires turned { IsTurned width }
    requires some { 1 ≤ width }
    requires narrow { width ≤ 64 }
    requires within { 8 * first + width ≤ 8 * length blob.old }
    requires held { IsIn signed width value }
    ensures inside { (k : ℕ) → k < width → bit_of blob.new (8 * first + turned_place width k) ≡ bit_at (number (digit value) width) k }
    ensures before { (k : ℕ) → k < 8 * first → bit_of blob.new k ≡ bit_of blob.old k }
    ensures after { (k : ℕ) → 8 * first + width ≤ k → bit_of blob.new k ≡ bit_of blob.old k }
    ensures len { length blob.new ≡ length blob.old }
{
    blob.put_turned(first, width, encode(Hold { signed, width }, value));
}
