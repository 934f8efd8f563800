ghost use Rattle.std.specs.Prelude.{ℕ, ◌≡◌, ◌+◌, ◌*◌, ◌<◌, IfSome, IsNone, length, sum_by};

use places::Mapping;

/// What is left of `most` bytes where those of all blobs of a mapping are taken off. None exactly where they are more.
pub fn bytes_left<M: Mapping>(mapping: &M, most: u64) -> Option<u64>
    ensures left { IfSome result (λ left. 8 * left + sum_by length (M.layout mapping.now) ≡ 8 * most) }
    ensures over { IsNone result → 8 * most < sum_by length (M.layout mapping.now) }
{
    let mut left = most;
    for blob in 0..mapping.blob_count() {
        let bytes = mapping.blob_bytes(blob);
        if bytes > left {
            return None;
        }
        left -= bytes;
    }
    Some(left)
}
