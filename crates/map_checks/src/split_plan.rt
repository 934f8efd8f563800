ghost use Rattle.std.specs.Prelude.{ℕ, ◌≡◌, ◌⊎◌, ◌<◌, ◌≤◌, ◌^◌, ◌↔◌, ◌++◌, All, IsTrue, IfOk, IfErr, OnOk, IsErrOf, length, not};
ghost use Rattle.map_checks.specs.Imports.{count_by, sum, merged};
ghost use Rattle.map_checks.specs.Inner.Splits.{AreSplitRules, LieWithin};

use crate::plan::{LengthList, Plan};
use crate::split_rules::split_rules;
use crate::{MakeMap, merge_holds};
use places::MAX_BLOB_BYTES;
use std::alloc::{AllocError as NoMemory, Global};

/// Whether there are more than 2^28 bytes in all blobs.
fn is_over(lengths: &[u64]) -> bool
    ensures { IsTrue result ↔ (2 ^ 28 < sum lengths.now) }
{
    let mut left = MAX_BLOB_BYTES;
    for &bytes in lengths {
        if bytes > left {
            return true;
        }
        left -= bytes;
    }
    false
}

/// The lengths of the blobs of the first side, then of those of the rest.
fn join_lengths(alloc: Global, first: &[u64], rest: &[u64]) -> Result<LengthList, NoMemory>
    ensures { IfOk result (λ lengths. lengths ≡ first.now ++ rest.now) }
{
    let mut lengths = LengthList::new(alloc);
    for &bytes in first {
        lengths.push(bytes)?;
    }
    for &bytes in rest {
        lengths.push(bytes)?;
    }
    Ok(lengths)
}

/// What a split goes by, given what its sides go by.
pub fn split_plan(alloc: Global, side: &[bool], first: &Plan, rest: &Plan) -> Result<Plan, MakeMap>
    requires first_holds { length first.now.holds ≡ count_by (λ s. s) side.now }
    requires rest_holds { length rest.now.holds ≡ count_by not side.now }
    requires first_rules { length first.now.rules ≡ count_by (λ s. s) side.now }
    requires rest_rules { length rest.now.rules ≡ count_by not side.now }
    requires first_blobs { All (LieWithin (length first.now.lengths)) first.now.rules }
    requires rest_blobs { All (LieWithin (length rest.now.lengths)) rest.now.rules }
    ensures holds { IfOk result (λ plan. plan.holds ≡ merged side.now first.now.holds rest.now.holds) }
    ensures lengths { IfOk result (λ plan. plan.lengths ≡ first.now.lengths ++ rest.now.lengths) }
    ensures rules { IfOk result (λ plan. AreSplitRules side.now (length first.now.lengths) first.now.rules rest.now.rules plan.rules) }
    ensures fits { OnOk result (sum (first.now.lengths ++ rest.now.lengths) ≤ 2 ^ 28) }
    ensures too_big { IsErrOf result MakeMap.TooBig → 2 ^ 28 < sum (first.now.lengths ++ rest.now.lengths) }
    ensures only { IfErr result (λ e. (e ≡ MakeMap.TooBig) ⊎ (e ≡ MakeMap.NoMemory)) }
{
    let lengths = join_lengths(alloc, first.lengths.as_slice(), rest.lengths.as_slice())?;
    if is_over(lengths.as_slice()) {
        return Err(MakeMap::TooBig);
    }
    let _blobs = lengths.len();
    let holds = merge_holds(alloc, side, first.holds.as_slice(), rest.holds.as_slice())?;
    let rules = split_rules(
        alloc,
        side,
        first.rules.as_slice(),
        rest.rules.as_slice(),
        first.lengths.len(),
    )?;
    Ok(Plan {
        holds,
        lengths,
        rules,
    })
}
