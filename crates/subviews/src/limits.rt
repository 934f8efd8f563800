// How far from 0 the values of leaves may lie, so that no sum of terms passes 64 bits.
ghost use Rattle.std.specs.Prelude.{◌≡◌, ◌≤◌, ◌^◌, true, ℤ, All, length, unsigned_abs};
ghost use Rattle.subviews.specs.Imports.{IsDeclared, leaf_count_of, leaf_types_of};
ghost use Rattle.subviews.specs.Plans.{IsLightTermOf, AreNear, all_weights};

use crate::term::Term;
use record_dim::LeafType;
use views::View;

/// Whether no sum of the terms passes 64 bits, whatever their leaves hold.
pub fn are_near(view: &View, terms: &[Term]) -> bool
    requires terms { All (IsLightTermOf (leaf_count_of view.now)) terms.now }
    requires few { length terms.now ≤ 64 }
    ensures { result ≡ true → AreNear (leaf_types_of view.now) terms.now }
{
    let limit = i64::MAX as u64 / total_weight(terms).max(1);
    let schema = view.schema();
    for term in terms {
        if !is_within(schema.leaf_type(term.leaf), limit) {
            return false;
        }
    }
    true
}

// How far from 0 the weights lie, all together.
fn total_weight(terms: &[Term]) -> u64
    requires light { All (λ term. unsigned_abs term.weight ≤ 2 ^ 31) terms.now }
    requires few { length terms.now ≤ 64 }
    ensures { result ≡ all_weights terms.now }
{
    let mut total = 0;
    for term in terms {
        total += term.weight.unsigned_abs();
    }
    total
}

// Whether all values of a type lie no further from 0 than this.
fn is_within(kind: LeafType, limit: u64) -> bool
    ensures { result ≡ true → (value : ℤ) → IsDeclared kind value → unsigned_abs value ≤ limit }
{
    let limit = i128::from(limit);
    -limit <= kind.least() && kind.greatest() <= limit
}
