ghost use Rattle.std.specs.Prelude.{◌≡◌, ◌+◌, ◌≤◌, length};
ghost use Rattle.blobs.specs.Moves.{IsMoved, blocks};

use crate::blob::Blob;
use record_dim::Steps;
use std::sync::ledger::Ledger;

/// The most bytes that are moved in one step.
const BLOCK_BYTES: usize = 64;

/// Makes the `len` bytes of a blob from `at` on those of another from `from` on. It takes a step for each 64 bytes, and one for the rest.
#[inline(always)]
pub fn move_bytes<L: Ledger>(
    target: &mut Blob,
    at: usize,
    source: &Blob,
    from: usize,
    len: usize,
    steps: &mut Steps<L>,
)
    requires room { at + len ≤ length target.old }
    requires there { from + len ≤ length source.now }
    ensures bytes { IsMoved target.old at source.now from len target.new }
    ensures steps { steps.new ≡ steps.old + blocks len }
{
    let (_room, _there) = (target.len(), source.len());
    // A length that is written out makes a block a few moves of registers; any other would be a call.
    let whole = len / BLOCK_BYTES;
    for block in 0..whole {
        target.move_block(
            at + BLOCK_BYTES * block,
            source,
            from + BLOCK_BYTES * block,
            BLOCK_BYTES,
            steps,
        );
    }
    let rest = len % BLOCK_BYTES;
    if rest > 0 {
        target.move_block(
            at + BLOCK_BYTES * whole,
            source,
            from + BLOCK_BYTES * whole,
            rest,
            steps,
        );
    }
}
