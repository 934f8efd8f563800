// Slots that are cut at the edges of the blocks of two views, and bytes that are moved piece after piece.
ghost use Rattle.std.specs.Prelude.{ℕ, ◌≡◌, ◌+◌, ◌*◌, ◌<◌, ◌≤◌, [], length, slice_index_or, slice_set};
ghost use Rattle.views.specs.Imports.{blocks};
ghost use Rattle.views.specs.Pieces.{ArePieces, IsMovedEach};

use crate::view::BlobList;
use blobs::{Blob, move_bytes};
use map_any::BytePlaces;
use record_dim::Steps;
use std::sync::ledger::Ledger;

/// So many pieces of so many slots each.
#[derive(Clone, Copy)]
pub struct Pieces {
    pub count: u64,
    pub number: u64,
}

/// The pieces from a slot on, where the slots before `end` are cut at the multiples of two numbers. Where a block of one side is whole, as
/// many follow it as one block of the other has.
pub fn pieces_at(one: u64, two: u64, slot: u64, end: u64) -> Pieces
    requires first { 0 < one }
    requires second { 0 < two }
    requires slot_in { slot < end }
    ensures { ArePieces one two end slot result.count result.number }
{
    let first = one - slot % one;
    let second = two - slot % two;
    let left = end - slot;
    let count = left.min(first.min(second));
    if count == two {
        return Pieces {
            count,
            number: left.min(first) / count,
        };
    }
    if count == one {
        return Pieces {
            count,
            number: left.min(second) / count,
        };
    }
    Pieces { count, number: 1 }
}

/// Makes pieces of `len` bytes of a blob those of a blob of others.
pub fn move_pieces<L: Ledger>(
    blobs: &mut BlobList,
    to: BytePlaces,
    others: &[Blob],
    from: BytePlaces,
    len: usize,
    pieces: usize,
    steps: &mut Steps<L>,
)
    requires target { to.blob < length blobs.old.items }
    requires room { (k : ℕ) → k < pieces → to.byte + k * to.step + len ≤ length (slice_index_or blobs.old.items to.blob []) }
    requires source { from.blob < length others.now }
    requires there { (k : ℕ) → k < pieces → from.byte + k * from.step + len ≤ length (slice_index_or others.now from.blob []) }
    ensures beside { blobs.new.items ≡ slice_set blobs.old.items to.blob (slice_index_or blobs.new.items to.blob []) }
    ensures moved { IsMovedEach to.byte to.step (slice_index_or others.now from.blob []) from.byte from.step len pieces
        (slice_index_or blobs.old.items to.blob []) (slice_index_or blobs.new.items to.blob []) }
    ensures steps { steps.new ≡ steps.old + pieces * blocks len }
{
    let target = &mut blobs[to.blob];
    move_each(target, to, &others[from.blob], from, len, pieces, steps);
}

// The same of two blobs. A length that is told apart makes a piece a few moves of registers.
fn move_each<L: Ledger>(
    target: &mut Blob,
    to: BytePlaces,
    source: &Blob,
    from: BytePlaces,
    len: usize,
    pieces: usize,
    steps: &mut Steps<L>,
)
    requires room { (k : ℕ) → k < pieces → to.byte + k * to.step + len ≤ length target.old }
    requires there { (k : ℕ) → k < pieces → from.byte + k * from.step + len ≤ length source.now }
    ensures moved { IsMovedEach to.byte to.step source.now from.byte from.step len pieces target.old target.new }
    ensures steps { steps.new ≡ steps.old + pieces * blocks len }
{
    match len {
        8 => move_equal(target, to, source, from, len, pieces, steps),
        16 => move_equal(target, to, source, from, len, pieces, steps),
        32 => move_equal(target, to, source, from, len, pieces, steps),
        64 => move_equal(target, to, source, from, len, pieces, steps),
        _ => move_equal(target, to, source, from, len, pieces, steps),
    }
}

// The same, of one length.
#[inline(always)]
fn move_equal<L: Ledger>(
    target: &mut Blob,
    to: BytePlaces,
    source: &Blob,
    from: BytePlaces,
    len: usize,
    pieces: usize,
    steps: &mut Steps<L>,
)
    requires room { (k : ℕ) → k < pieces → to.byte + k * to.step + len ≤ length target.old }
    requires there { (k : ℕ) → k < pieces → from.byte + k * from.step + len ≤ length source.now }
    ensures moved { IsMovedEach to.byte to.step source.now from.byte from.step len pieces target.old target.new }
    ensures steps { steps.new ≡ steps.old + pieces * blocks len }
{
    let (_room, _there) = (target.len(), source.len());
    for k in 0..pieces {
        move_bytes(
            target,
            to.byte + k * to.step,
            source,
            from.byte + k * from.step,
            len,
            steps,
        );
    }
}
