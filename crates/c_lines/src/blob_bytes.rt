// The blobs of a view.
ghost use Rattle.std.specs.Prelude.{◌≡◌, ◌<◌, ◌≤◌, ◌++◌};
ghost use Rattle.c_lines.specs.Imports.{Ok, drop, length, owners_of};
ghost use Rattle.c_lines.specs.Buffers.{blob_told, buffer_after, lent, needed_after, put_told, ReturnsSame};

use crate::refusal::Refusal;
use blob_file::body_law;
use blobs::Blob;
use places::Mapping;
use views::View;

/// How many blobs a view has.
pub fn blob_count(view: &View) -> usize
    ensures { result ≡ length (owners_of view.now) }
{
    view.map().blob_count()
}

/// Puts the bytes of a blob of a view into a buffer, and tells how many they are.
pub fn put_blob(
    view: &View,
    blob: usize,
    buffer: &mut [u8],
    needed: &mut usize,
) -> Result<(), Refusal>
    ensures told { result ≡ put_told (blob_told blob view.now) buffer.old }
    ensures buffer { buffer.new ≡ buffer_after (blob_told blob view.now) buffer.old }
    ensures needed { needed.new ≡ needed_after (blob_told blob view.now) needed.old }
{
    if blob >= blob_count(view) {
        return Err(Refusal::NoPlace);
    }
    let bytes = blob_of(view, blob);
    *needed = bytes.len();
    if bytes.len() > buffer.len() {
        return Err(Refusal::NoRoom);
    }
    put_bytes(bytes, buffer);
    Ok(())
}

// The bytes of a blob of a view.
pub(crate) fn blob_of(view: &View, blob: usize) -> &Blob
    requires { blob < length (owners_of view.now) }
    ensures { blob_told blob view.now ≡ Ok result.now }
{
    let bytes = view.blob(blob);
    bytes.bytes_law();
    bytes
}

// Makes the front of a buffer the bytes of a blob. The loop becomes a copy of sixteen at a time.
fn put_bytes(blob: &Blob, buffer: &mut [u8])
    requires { length blob.now ≤ length buffer.old }
    ensures { buffer.new ≡ blob.now ++ drop (length blob.now) buffer.old }
{
    for at in 0..blob.len() {
        buffer[at] = blob.get(at);
    }
}

/// Puts the bytes of all blobs of a view, one behind another, into a buffer, and tells how many they are.
#[tactic(auto, using(crate::proofs::BlobBytes::returns_same))]
pub fn lend(view: &View, buffer: &mut [u8], needed: &mut usize) -> Result<(), Refusal>
    ensures told { result ≡ put_told (Ok (lent view.now)) buffer.old }
    ensures buffer { buffer.new ≡ buffer_after (Ok (lent view.now)) buffer.old }
    ensures needed { needed.new ≡ needed_after (Ok (lent view.now)) needed.old }
    ensures back { ReturnsSame view.now }
{
    body_law(view);
    *needed = view.blob_bytes() as usize;
    if *needed > buffer.len() {
        return Err(Refusal::NoRoom);
    }
    put_blobs(view, buffer);
    Ok(())
}

// Makes the front of a buffer the bytes of all blobs of a view.
fn put_blobs(view: &View, buffer: &mut [u8])
    requires { length (lent view.now) ≤ length buffer.old }
    ensures { buffer.new ≡ lent view.now ++ drop (length (lent view.now)) buffer.old }
{
    let mut done = 0;
    for b in 0..blob_count(view) {
        let blob = blob_of(view, b);
        put_bytes(blob, &mut buffer[done..]);
        done += blob.len();
    }
}
