// The bytes behind a header as blobs, and the blobs of a view against them.
ghost use Rattle.std.specs.Prelude.{◌≡◌, ◌*◌, true, false, IfOk, length, sum_by};
ghost use Rattle.blob_file.specs.Imports.{AreSized, owners_of, blob_lengths};
ghost use Rattle.blob_file.specs.Opened.{cut};
ghost use Rattle.blob_file.specs.Saving.{blobs_of};

use blobs::Blob;
use places::{Mapping, laws_of};
use std::alloc::{AllocError as NoMemory, Global};
use views::{BlobList, View};

/// Bytes, cut into blobs of a mapping's lengths.
pub fn cut_blobs<M: Mapping>(alloc: Global, map: &M, body: &[u8]) -> Result<BlobList, NoMemory>
    requires { 8 * length body.now ≡ sum_by length (M.layout map.now) }
    ensures cut { IfOk result (λ blobs. blobs.items ≡ cut (blob_lengths (M.layout map.now)) body.now) }
    ensures sized { IfOk result (λ blobs. AreSized (M.layout map.now) blobs.items) }
{
    laws_of(map);
    let mut blobs = Vec::new(alloc);
    let mut rest = body;
    for b in 0..map.blob_count() {
        let (front, back) = rest.split_at(map.blob_bytes(b) as usize);
        blobs.push(blob_of(alloc, front)?)?;
        rest = back;
    }
    Ok(blobs)
}

// A blob of these bytes.
fn blob_of(alloc: Global, bytes: &[u8]) -> Result<Blob, NoMemory>
    ensures { IfOk result (λ blob. blob ≡ bytes.now) }
{
    let mut blob = Blob::zeroed(alloc, bytes.len())?;
    for at in 0..bytes.len() {
        blob.put(at, bytes[at]);
    }
    Ok(blob)
}

/// Whether the blobs of a view are these, of which there are as many.
pub fn has_blobs(view: &View, blobs: &[Blob]) -> bool
    requires { length blobs.now ≡ length (owners_of view.now) }
    ensures own { result ≡ true → blobs_of view.now ≡ blobs.now }
    ensures other { result ≡ false → blobs_of view.now ≡ blobs.now → ⊥ }
{
    for b in 0..blobs.len() {
        let own = view.blob(b);
        own.bytes_law();
        if !is_same(own, &blobs[b]) {
            return false;
        }
    }
    true
}

// Whether both are the same bytes. The loop asks nothing, so that sixteen are compared at once.
fn is_same(one: &Blob, other: &Blob) -> bool
    ensures same { result ≡ true → one.now ≡ other.now }
    ensures apart { result ≡ false → one.now ≡ other.now → ⊥ }
{
    if one.len() != other.len() {
        return false;
    }
    let mut same = true;
    for at in 0..one.len() {
        same &= one.get(at) == other.get(at);
    }
    same
}
