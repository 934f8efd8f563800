// Cuts of the rows among actors, and bytes that hold bits of rows of two of them.
ghost use Rattle.std.specs.Prelude.{◌≡◌, ◌*◌, ◌/◌, ◌+◌, ◌<◌, ◌≤◌, None, OnOk, IfErr, length, map, sum_by, take, drop};
ghost use Rattle.actors.specs.Imports.{range_with_len, owners_of, AreCuts, actor_of, is_shared, first_of_all, shared_byte};
ghost use Rattle.actors.specs.Cuts.{IsCutFault, owner_shown, shown_in_byte};

use crate::fault::CutFault;
use places::{Mapping, RunOwner};
use std::alloc::Global;
use views::View;

/// Whether each byte of a view holds bits of rows of one actor at most, where the rows are split at these cuts. `SharedByte` comes exactly
/// where a byte holds bits of rows of two, and names the first one. It takes the memory of the owners of one blob's bits at a time.
pub fn check_cuts(alloc: Global, view: &View, cuts: &[u64]) -> Result<(), CutFault>
    requires cuts { AreCuts 0 cuts.now (length view.now.rows) }
    requires few { sum_by length (owners_of view.now) ≤ 8 * 65536 }
    ensures apart { OnOk result (shared_byte (owners_of view.now) (actor_of cuts.now) ≡ None) }
    ensures shared { IfErr result (IsCutFault (shared_byte (owners_of view.now) (actor_of cuts.now))) }
{
    let map = view.map();
    for blob in 0..map.blob_count() {
        let owners = map.bit_owners(alloc, blob)?;
        if let Some(byte) = first_shared(cuts, &owners) {
            return Err(CutFault::SharedByte { blob, byte });
        }
    }
    Ok(())
}

// The first byte of a blob that holds bits of rows of two actors.
fn first_shared(cuts: &[u64], owners: &[RunOwner]) -> Option<u64>
    ensures { result ≡ first_of_all (λ byte. is_shared (actor_of cuts.now) (shown_in_byte owners.now byte)) (range_with_len 0 (length owners.now / 8)) }
{
    for byte in 0..owners.len() / 8 {
        if is_byte_shared(cuts, owners, byte) {
            return Some(byte as u64);
        }
    }
    None
}

// Whether a byte of a blob does.
fn is_byte_shared(cuts: &[u64], owners: &[RunOwner], byte: usize) -> bool
    requires { 8 * byte + 8 ≤ length owners.now }
    ensures { result ≡ is_shared (actor_of cuts.now) (shown_in_byte owners.now byte) }
{
    let begin = 8 * byte;
    is_shared(cuts, &owners[begin..begin + 8])
}

/// The actor of a row: how many cuts stand at or below it. The cuts do not fall.
pub fn actor_of(cuts: &[u64], row: u64) -> usize
    ensures { result ≡ actor_of cuts.now row }
{
    for (actor, cut) in cuts.iter().enumerate() {
        if row < *cut {
            return actor;
        }
    }
    cuts.len()
}

/// Whether some bits are those of rows of two actors.
pub fn is_shared(cuts: &[u64], owners: &[RunOwner]) -> bool
    ensures { result ≡ is_shared (actor_of cuts.now) (map owner_shown owners.now) }
{
    let mut first = None;
    for owner in owners {
        if let RunOwner::Leaf { row, .. } = owner {
            let actor = actor_of(cuts, *row);
            match first {
                None => first = Some(actor),
                Some(other) => {
                    if other != actor {
                        return true;
                    }
                }
            }
        }
    }
    false
}
