ghost use Rattle.std.specs.Prelude.{◌≡◌, ◌≢◌, ◌-◌, ◌^◌, ◌<◌, true, false};
ghost use Rattle.piece_bits.specs.Words.{IsBitField};
ghost use Rattle.piece_bits.specs.declared.word.Word.TheVariants.{Scattered};
ghost use Rattle.piece_bits.specs.Walks.{walks_plain, walks_in_blocks};

use crate::walk::Walk;
use crate::{Field, Word};
use linearize::Columns;

/// The short form of a rule: how a row becomes a place, and what stands there. The unit of places is a bit where the word is a field, and
/// else a byte. Where the walk is `None`, nothing else says anything.
#[derive(Clone, Copy)]
pub struct ShortRule {
    pub walk: Walk,
    /// Whether the walk is `Plain`, and no bytes are scattered: it is asked first, by a flag of its own.
    pub is_plain: bool,
    /// Whether the walk is `Blocks`, and no bytes are scattered: it is asked next.
    pub in_blocks: bool,
    /// How many lines there are, where there are lines and columns.
    pub lines: u64,
    pub columns: Columns,
    pub word: Word,
    /// The sign and the width of what stands there.
    pub field: Field,
    pub blob: usize,
    /// The place of slot 0.
    pub base: u64,
    /// From a block to the next.
    pub block: u64,
    /// From a slot to the next in its block.
    pub lane: u64,
    /// One less than the slots of a block.
    pub mask: u64,
    /// The power of two that the slots of a block are.
    pub power: u32,
    ghost plain: { is_plain ≡ true → (walks_plain walk ≡ true) × (word ≢ Scattered) },
    ghost blocks: { in_blocks ≡ true → (walks_in_blocks walk ≡ true) × (word ≢ Scattered) },
    ghost single: { walks_in_blocks walk ≡ false → power ≡ 0 },
    ghost masked: { mask ≡ 2 ^ power - 1 },
    ghost low: { power < 64 },
    ghost form: { IsBitField field },
}
