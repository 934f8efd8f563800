ghost use Rattle.std.specs.Prelude.{◌≡◌, ◌+◌, ◌*◌, ◌/◌, ◌%◌, ◌^◌, ◌<◌, ◌≤◌, ◌++◌, All, length, sum_by};
ghost use Rattle.map_bytes.specs.Imports.{piece_in, pieces_in};
ghost use Rattle.map_bytes.specs.Cuts.{rule_byte, rule_bytes, swapped, swapped_rules, places_in, groups_back};

use places::{Piece, PieceRule, PieceRules, Pieces, pieces_in};

/// One byte of a rule's pieces.
fn byte_of(rule: &PieceRule, byte: u32) -> PieceRule
    requires fits { rule.now.base + 8 * byte < 2 ^ 64 }
    ensures { result ≡ rule_byte byte rule.now }
{
    PieceRule {
        blob: rule.blob,
        base: rule.base + 8 * u64::from(byte),
        lanes: rule.lanes,
        block: rule.block,
        lane: rule.lane,
        bits: 8,
    }
}

/// Appends each byte of a rule's pieces as a rule of its own.
fn push_bytes(bytes: &mut PieceRules, rule: &PieceRule)
    requires room { length bytes.old.items + rule.now.bits / 8 ≤ 8 }
    requires bound { rule.now.base + rule.now.bits < 2 ^ 64 }
    ensures { bytes.new.items ≡ bytes.old.items ++ rule_bytes rule.now }
{
    for byte in 0..rule.bits / 8 {
        bytes.push(byte_of(rule, byte));
    }
}

/// The rules with their bytes in reverse order: where a cell lies in every slot whose bytes are in reverse order. Each has 8 bits.
pub fn swap_rules(inner: &PieceRules) -> PieceRules
    requires whole { All (λ rule. rule.bits % 8 ≡ 0) inner.now.items }
    requires bound { All (λ rule. rule.base + rule.bits < 2 ^ 64) inner.now.items }
    requires few { sum_by (λ rule. rule.bits) inner.now.items ≤ 64 }
    ensures { result.items ≡ swapped_rules inner.now.items }
{
    let mut bytes = PieceRules::new();
    for rule in inner.as_slice() {
        push_bytes(&mut bytes, rule);
    }
    let mut swapped = PieceRules::new();
    for at in (0..bytes.len()).rev() {
        swapped.push(bytes.as_slice()[at]);
    }
    swapped
}

/// A rule that gives this piece.
fn fixed(piece: &Piece) -> PieceRule
    ensures { piece_in result 0 ≡ piece.now }
{
    PieceRule {
        blob: piece.blob,
        base: piece.bit,
        lanes: 1,
        block: 0,
        lane: 0,
        bits: piece.bits,
    }
}

/// For each piece a rule that gives it.
fn fix_pieces(pieces: &Pieces) -> PieceRules
    ensures { pieces_in result.items 0 ≡ pieces.now.items }
{
    let mut rules = PieceRules::new();
    for piece in pieces.as_slice() {
        rules.push(fixed(piece));
    }
    rules
}

/// The places of the given pieces with their groups of 8 in reverse order: where a cell lies whose bytes are in reverse order. Each piece has
/// 8 bits. It takes no memory.
pub fn swap_pieces(inner: &Pieces) -> Pieces
    requires some { All (λ piece. 0 < piece.bits) inner.now.items }
    requires whole { All (λ piece. piece.bits % 8 ≡ 0) inner.now.items }
    requires bound { All (λ piece. piece.bit + piece.bits < 2 ^ 64) inner.now.items }
    requires few { sum_by (λ piece. piece.bits) inner.now.items ≤ 64 }
    ensures places { places_in result.items ≡ groups_back (length (places_in inner.now.items) / 8) (places_in inner.now.items) }
    ensures some { All (λ piece. 0 < piece.bits) result.items }
    ensures whole { All (λ piece. piece.bits % 8 ≡ 0) result.items }
    ensures bytes { result.items ≡ swapped inner.now.items }
{
    pieces_in(&swap_rules(&fix_pieces(inner)), 0)
}
