ghost use Rattle.std.specs.Prelude.{◌≡◌, ◌+◌, ◌*◌, ◌<◌, ◌≤◌, ◌==◌};
ghost use Rattle.map_any.specs.Imports.{ℕ, All, false, [], IfOk, length, map, slice_index_or, Bit, owner_at};
ghost use Rattle.map_any.specs.Inner.Filling.{IsFilled, IsShown, Show, runs_along};
ghost use Rattle.map_any.specs.BitRuns.{goes_on, run_owner, runs_of};

use crate::any::AnyMap;
use places::{Mapping, Piece, PieceRule, Run, RunList, RunOwner};
use std::alloc::{AllocError as NoMemory, Global};

impl AnyMap {
    /// The bits of a blob as maximal runs of one owner, in the order of the bits.
    pub fn runs(&self, alloc: Global, blob: usize) -> Result<RunList, NoMemory>
        requires blob_in { blob < length (⟦<AnyMap as Mapping>⟧.layout self.now) }
        requires few { length (slice_index_or (⟦<AnyMap as Mapping>⟧.layout self.now) blob []) ≤ 8 * 65536 }
        ensures { IfOk result (λ runs. runs ≡ runs_of (⟦<AnyMap as Mapping>⟧.layout self.now) blob) }
    {
        let owners = self.bit_owners(alloc, blob)?;
        join_bits(alloc, blob, &owners)
    }

    /// Whose each bit of a blob is. Leaves with no piece in the blob take no time, however many rows there are.
    pub fn bit_owners(&self, alloc: Global, blob: usize) -> Result<Vec<RunOwner>, NoMemory>
        requires blob_in { blob < length (⟦<AnyMap as Mapping>⟧.layout self.now) }
        requires few { length (slice_index_or (⟦<AnyMap as Mapping>⟧.layout self.now) blob []) ≤ 8 * 65536 }
        ensures { IfOk result (λ owners. owners.items ≡ map run_owner (slice_index_or (⟦<AnyMap as Mapping>⟧.layout self.now) blob [])) }
    {
        let bits = self.blob_bytes(blob) as usize * 8;
        let mut owners = vec![in alloc; RunOwner::Pad; bits]?;
        for leaf in 0..self.cells() {
            if self.lies_in(leaf, blob) {
                self.show_leaf(leaf, blob, &mut owners);
            }
        }
        Ok(owners)
    }

    // Whether a leaf has a piece in a blob.
    fn lies_in(&self, leaf: usize, blob: usize) -> bool
        requires leaf_in { leaf < length (⟦<AnyMap as Mapping>⟧.cell_list self.now) }
        ensures { result ≡ false → (row place bit : ℕ) → owner_at (⟦<AnyMap as Mapping>⟧.layout self.now) blob place ≡ Bit row leaf bit → ⊥ }
    {
        let rule = self.rule(leaf);
        touches(rule.pieces.as_slice(), blob)
    }

    // Shows in a blob the bits of a leaf, in all rows.
    fn show_leaf(&self, leaf: usize, blob: usize, owners: &mut [RunOwner])
        requires leaf_in { leaf < length (⟦<AnyMap as Mapping>⟧.cell_list self.now) }
        requires size { length owners.old ≡ length (slice_index_or (⟦<AnyMap as Mapping>⟧.layout self.now) blob []) }
        ensures filled { IsFilled (⟦<AnyMap as Mapping>⟧.layout self.now) blob owners.old owners.new }
        ensures shown { (row : ℕ) → Show (⟦<AnyMap as Mapping>⟧.layout self.now) blob row leaf owners.new }
    {
        for row in 0..self.slots() {
            self.show_cell(row, leaf, blob, owners);
        }
    }

    // Shows in a blob the bits of a leaf in a row. Each counts on from the leaf's first bit, whatever blobs the earlier bits lie in.
    fn show_cell(&self, row: u64, leaf: usize, blob: usize, owners: &mut [RunOwner])
        requires row_in { row < ⟦<AnyMap as Mapping>⟧.slot_count self.now }
        requires leaf_in { leaf < length (⟦<AnyMap as Mapping>⟧.cell_list self.now) }
        requires size { length owners.old ≡ length (slice_index_or (⟦<AnyMap as Mapping>⟧.layout self.now) blob []) }
        ensures filled { IsFilled (⟦<AnyMap as Mapping>⟧.layout self.now) blob owners.old owners.new }
        ensures shown { Show (⟦<AnyMap as Mapping>⟧.layout self.now) blob row leaf owners.new }
    {
        let pieces = self.locate(row, leaf);
        let mut low = 0;
        for piece in pieces.as_slice() {
            if piece.blob == blob {
                show_piece(piece, row, leaf, low, owners);
            }
            low += piece.bits;
        }
    }
}

// Whether a piece of some pieces lies in a blob.
fn touches(pieces: &[PieceRule], blob: usize) -> bool
    ensures { result ≡ false → All (λ piece. piece.blob ≡ blob → ⊥) pieces.now }
{
    pieces.iter().any(|piece| piece.blob == blob)
}

// Shows that the bits of a piece are those of a leaf in a row, from its bit `low` on.
fn show_piece(piece: &Piece, row: u64, leaf: usize, low: u32, owners: &mut [RunOwner])
    requires inside { piece.now.bit + piece.now.bits ≤ length owners.old }
    requires narrow { low + piece.now.bits ≤ 64 }
    ensures { IsShown piece.now row leaf low owners.old owners.new }
{
    let begin = piece.bit as usize;
    for k in 0..piece.bits {
        owners[begin + k as usize] = RunOwner::Leaf {
            row,
            leaf,
            low: low + k,
        };
    }
}

// Whether the next bit, which is `owner`'s, goes on with a run.
fn is_next(run: &Run, owner: RunOwner) -> bool
    requires { run.now.bits ≤ 8 * 65536 }
    ensures { result ≡ goes_on run.now.owner run.now.bits owner }
{
    match (run.owner, owner) {
        (RunOwner::Pad, RunOwner::Pad) => true,
        (
            RunOwner::Leaf { row, leaf, low },
            RunOwner::Leaf {
                row: next_row,
                leaf: next_leaf,
                low: next_low,
            },
        ) => row == next_row && leaf == next_leaf && ends_before(low, run.bits, next_low),
        _ => false,
    }
}

// Whether so many bits of a leaf from bit `low` on end right before another bit of it.
fn ends_before(low: u32, bits: u64, next_low: u32) -> bool
    requires { bits ≤ 8 * 65536 }
    ensures { result ≡ (low + bits == next_low) }
{
    u64::from(low) + bits == u64::from(next_low)
}

// The maximal runs of bits that have these owners, in their order.
fn join_bits(alloc: Global, blob: usize, owners: &[RunOwner]) -> Result<RunList, NoMemory>
    requires few { length owners.now ≤ 8 * 65536 }
    ensures { IfOk result (λ runs. runs ≡ runs_along blob 0 owners.now) }
{
    let mut runs = RunList::new(alloc);
    let Some(first) = owners.first() else {
        return Ok(runs);
    };
    let mut run = bit_run(blob, 0, *first);
    for bit in 1..owners.len() {
        let owner = owners[bit];
        if is_next(&run, owner) {
            run.bits += 1;
        } else {
            runs.push(run)?;
            run = bit_run(blob, bit, owner);
        }
    }
    runs.push(run)?;
    Ok(runs)
}

// The run of one bit.
fn bit_run(blob: usize, bit: usize, owner: RunOwner) -> Run
    ensures { result ≡ record { blob = blob; bit = bit; bits = 1; owner = owner } }
{
    Run {
        blob,
        bit: bit as u64,
        bits: 1,
        owner,
    }
}
