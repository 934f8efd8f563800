// Bytes that are moved from the blobs of one view to those of another.
ghost use Rattle.std.specs.Prelude.{◌≡◌, ◌+◌, ◌*◌, ◌<◌, ◌≤◌, [], length, map, slice_index_or, sum_by};
ghost use Rattle.views.specs.Imports.{blocks, AreMoved};

use crate::view::BlobList;
use blobs::{Blob, move_bytes};
use record_dim::Steps;
use std::sync::ledger::Ledger;

/// Makes all blobs those of others that have the same lengths.
pub fn move_all<L: Ledger>(blobs: &mut BlobList, others: &[Blob], steps: &mut Steps<L>)
    requires lengths { map length blobs.old.items ≡ map length others.now }
    ensures blobs { blobs.new.items ≡ others.now }
    ensures steps { steps.new ≡ steps.old + sum_by (λ blob. blocks (length blob)) others.now }
{
    for blob in 0..others.len() {
        let len = others[blob].len();
        move_bytes(&mut blobs[blob], 0, &others[blob], 0, len, steps);
    }
}

/// Makes `len` bytes of a blob those of a blob of others.
#[inline(always)]
pub fn move_between<L: Ledger>(
    blobs: &mut BlobList,
    target: usize,
    at: usize,
    others: &[Blob],
    source: usize,
    from: usize,
    len: usize,
    steps: &mut Steps<L>,
)
    requires target { target < length blobs.old.items }
    requires room { at + len ≤ length (slice_index_or blobs.old.items target []) }
    requires source { source < length others.now }
    requires there { from + len ≤ length (slice_index_or others.now source []) }
    ensures moved { AreMoved others.now blobs.old.items blobs.new.items source (8 * from) target (8 * at) (8 * len) }
    ensures steps { steps.new ≡ steps.old + blocks len }
{
    move_bytes(&mut blobs[target], at, &others[source], from, len, steps);
}
