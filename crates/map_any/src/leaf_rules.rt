ghost use Rattle.std.specs.Prelude.{◌≡◌, ◌≤ℤ◌};
ghost use Rattle.map_any.specs.Imports.{ℤ, true, false, IfOk, length, slice_index_or, is_signed, IsIn, IsDeclared, schema_fields, kinds_of, EachWith, IsSameRule, IsShortOf, leads};
ghost use Rattle.map_any.specs.LeafRules.{IsLeafRule, AreLeafRules, IsWideIn};

use crate::leaf_rule::{LeafRule, RuleList};
use extents::Extents;
use map_checks::{Rule, hold_at};
use piece_bits::ShortRule;
use places::Hold;
use record_dim::{LeafType, Schema};
use std::alloc::{AllocError as NoMemory, Global};

/// What the accesses to each leaf of a schema over an array go by, given how each is stored and where, and the bytes of each blob. Where
/// accesses are counted there is no short form.
pub fn leaf_rules(
    alloc: Global,
    schema: &Schema,
    extents: &Extents,
    holds: &[Hold],
    rules: &[Rule],
    lengths: &[u64],
    counted: bool,
) -> Result<RuleList, NoMemory>
    requires holds { length holds.now ≡ length (kinds_of (schema_fields schema.now)) }
    requires rules { length rules.now ≡ length (kinds_of (schema_fields schema.now)) }
    ensures whole { IfOk result (AreLeafRules (kinds_of (schema_fields schema.now)) extents.now holds.now rules.now) }
    ensures wide { IfOk result (EachWith (λ k leaf. IsWideIn lengths.now leaf)) }
    ensures uncounted { IfOk result (λ leaves. counted ≡ true → EachWith (λ k leaf. leads leaf.short.walk ≡ false) leaves) }
{
    let mut leaves = RuleList::new(alloc);
    for leaf in 0..schema.leaf_count() {
        let hold = hold_at(holds, leaf);
        let kind = schema.leaf_type(leaf);
        leaves.push(leaf_rule(kind, extents, hold, &rules[leaf], lengths, counted))?;
    }
    Ok(leaves)
}

/// What the accesses to a leaf go by, given its type, how it is stored and where.
fn leaf_rule(
    kind: LeafType,
    extents: &Extents,
    hold: Hold,
    rule: &Rule,
    lengths: &[u64],
    counted: bool,
) -> LeafRule
    ensures rule { IsSameRule rule.now result.rule }
    ensures whole { IsLeafRule kind extents.now hold result }
    ensures wide { IsWideIn lengths.now result }
    ensures uncounted { counted ≡ true → leads result.short.walk ≡ false }
{
    let short = if counted {
        ShortRule::none()
    } else {
        short_rule(kind, extents, hold, rule)
    };
    let (least, greatest) = taken_range(kind, hold);
    LeafRule {
        rule: rule.copy(),
        short,
        wide: short.wide(bytes_of(lengths, short.blob)),
        least,
        greatest,
    }
}

/// The short form of a rule, where it has one and the leaf is stored in the sign of its type.
fn short_rule(kind: LeafType, extents: &Extents, hold: Hold, rule: &Rule) -> ShortRule
    ensures form { leads result.walk ≡ true → IsShortOf rule.now.order extents.now rule.now.pieces.items hold result }
    ensures sign { leads result.walk ≡ true → hold.signed ≡ is_signed kind }
{
    if hold.signed == kind.signed() {
        ShortRule::of(rule.order, extents, rule.pieces.as_slice(), hold)
    } else {
        ShortRule::none()
    }
}

/// The bytes of a blob, and none where there is no such blob.
fn bytes_of(lengths: &[u64], blob: usize) -> u64
    ensures { result ≡ slice_index_or lengths.now blob 0 }
{
    match lengths.get(blob) {
        Some(bytes) => *bytes,
        None => 0,
    }
}

/// The least and the greatest value of 64 bits that are declared and held.
fn taken_range(kind: LeafType, hold: Hold) -> (i64, i64)
    ensures { (value : ℤ) → result.0 ≤ℤ value → value ≤ℤ result.1 → IsDeclared kind value × IsIn hold.signed hold.width value }
{
    let (least, greatest) = whole_range(kind, hold);
    in_words(least, greatest)
}

/// The least and the greatest value that are declared and held. Where no hold is so wide, none is sure to be.
fn whole_range(kind: LeafType, hold: Hold) -> (i128, i128)
    ensures { (value : ℤ) → result.0 ≤ℤ value → value ≤ℤ result.1 → IsDeclared kind value × IsIn hold.signed hold.width value }
{
    if hold.width == 0 || hold.width > 64 {
        return (1, 0);
    }
    (
        kind.least().max(hold.least()),
        kind.greatest().min(hold.greatest()),
    )
}

/// From the least to the greatest value of 64 bits that lie between two numbers.
fn in_words(least: i128, greatest: i128) -> (i64, i64)
    ensures { (value : ℤ) → result.0 ≤ℤ value → value ≤ℤ result.1 → (least ≤ℤ value) × (value ≤ℤ greatest) }
{
    let Ok(low) = i64::try_from(least) else {
        return (1, 0);
    };
    let Ok(high) = i64::try_from(greatest.min(i128::from(i64::MAX))) else {
        return (1, 0);
    };
    (low, high)
}
