ghost use Rattle.std.specs.Prelude.{ℕ, ◌≡◌, ◌*◌, ◌<◌, ◌≤◌, ◌^◌, nat_le, length, sum_by, Some, None, IfOk, OnOk, IsErrOf, IfSome, option_map, if◌then◌else◌};
ghost use Rattle.views.specs.Imports.{bit_in, AreLaid, leaf_counts, heat_counts, no_counts, no_heat, term_of, bad_number, has_count, granule_of};
ghost use Rattle.views.specs.Tallies.{blob_lengths, granules_for};

use crate::view::BlobList;
use blobs::Blob;
use instrument::{Counts, Heat, HeatFault, are_few};
use map_any::MapExpr;
use places::Mapping;
use std::alloc::{AllocError as NoMemory, Global};

/// Whether the blobs of a mapping have at most so many bytes together.
pub fn is_within<M: Mapping>(mapping: &M, most: u64) -> bool
    ensures { result ≡ nat_le (sum_by length (M.layout mapping.now)) (8 * most) }
{
    let mut left = most;
    for blob in 0..mapping.blob_count() {
        let bytes = mapping.blob_bytes(blob);
        if bytes > left {
            return false;
        }
        left -= bytes;
    }
    true
}

/// Blobs of a mapping's lengths that are all 0.
pub fn zeroed_blobs<M: Mapping>(alloc: Global, mapping: &M) -> Result<BlobList, NoMemory>
    ensures laid { IfOk result (λ blobs. AreLaid (M.layout mapping.now) blobs.items) }
    ensures zero { IfOk result (λ blobs. (b p : ℕ) → bit_in blobs.items b p ≡ 0) }
{
    let mut blobs = Vec::new(alloc);
    for blob in 0..mapping.blob_count() {
        blobs.push(Blob::zeroed(alloc, mapping.blob_bytes(blob) as usize)?)?;
    }
    Ok(blobs)
}

/// Counts of so many leaves, each 0, exactly where the expression counts accesses by leaf.
pub fn new_counts(alloc: Global, leaves: usize, expr: &MapExpr) -> Result<Option<Counts>, NoMemory>
    ensures { IfOk result (λ counts. option_map leaf_counts counts ≡ (if has_count (term_of expr.now) then Some (no_counts leaves) else None)) }
{
    if !has_count(expr) {
        return Ok(None);
    }
    Ok(Some(Counts::new(alloc, leaves)?))
}

/// Counts of the granules of a mapping's blobs, each 0, exactly where the expression counts accesses by granule.
pub fn new_heat<M: Mapping>(
    alloc: Global,
    mapping: &M,
    expr: &MapExpr,
) -> Result<Option<Heat>, HeatFault>
    requires { bad_number (term_of expr.now) ≡ None }
    ensures zero { IfOk result (λ heat. option_map heat_counts heat
        ≡ option_map (λ granule. no_heat granule (blob_lengths (M.layout mapping.now))) (granule_of (term_of expr.now))) }
    ensures few { OnOk result (granules_for (term_of expr.now) (M.layout mapping.now) ≤ 2 ^ 24) }
    ensures too_big { IsErrOf result HeatFault.TooBig → 2 ^ 24 < granules_for (term_of expr.now) (M.layout mapping.now) }
{
    match granule_of(expr) {
        Some(granule) => {
            let lengths = blob_lengths(alloc, mapping)?;
            Ok(Some(Heat::new(alloc, granule, lengths.as_slice())?))
        }
        None => Ok(None),
    }
}

/// Whether a mapping's blobs have at most 2^24 granules, where the expression counts accesses by granule.
pub fn has_few_granules<M: Mapping>(
    alloc: Global,
    mapping: &M,
    expr: &MapExpr,
) -> Result<bool, NoMemory>
    requires { bad_number (term_of expr.now) ≡ None }
    ensures few { IfOk result (λ few. few ≡ nat_le (granules_for (term_of expr.now) (M.layout mapping.now)) (2 ^ 24)) }
{
    match granule_of(expr) {
        Some(granule) => {
            let lengths = blob_lengths(alloc, mapping)?;
            Ok(are_few(granule, lengths.as_slice()))
        }
        None => Ok(true),
    }
}

// The bytes of each blob.
fn blob_lengths<M: Mapping>(alloc: Global, mapping: &M) -> Result<Vec<u64>, NoMemory>
    ensures { IfOk result (λ lengths. lengths.items ≡ blob_lengths (M.layout mapping.now)) }
{
    let mut lengths = Vec::new(alloc);
    for blob in 0..mapping.blob_count() {
        lengths.push(mapping.blob_bytes(blob))?;
    }
    Ok(lengths)
}

// Whether an expression counts accesses by leaf.
fn has_count(expr: &MapExpr) -> bool
    ensures { result ≡ has_count (term_of expr.now) }
{
    match expr {
        MapExpr::Count(_) => true,
        MapExpr::Heat { inner, .. } => has_count(inner),
        _ => false,
    }
}

// The bytes of a granule, where an expression counts accesses by granule.
fn granule_of(expr: &MapExpr) -> Option<u32>
    requires { bad_number (term_of expr.now) ≡ None }
    ensures value { result ≡ granule_of (term_of expr.now) }
    ensures some { IfSome result (λ granule. 1 ≤ granule) }
{
    match expr {
        MapExpr::Count(inner) => granule_of(inner),
        MapExpr::Heat { granule, .. } => Some(*granule),
        _ => None,
    }
}
