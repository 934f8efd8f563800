// Which terms and divisors a stencil may have.
ghost use Rattle.std.specs.Prelude.{◌≡◌, pos, length};
ghost use Rattle.subviews.specs.Imports.{list_all, IsWindow};
ghost use Rattle.subviews.specs.Stencils.{is_divisor, is_offset, is_weight, reaches};
ghost use Rattle.subviews.specs.Inner.Reach.{all_stay, stays};

use extents::{Extents, Span, Window};

/// The farthest that an offset reaches in a dimension.
const MAX_OFFSET: i128 = 1 << 32;

/// Weights lie from the negative of this number to below it, and a divisor is at most this number.
const WEIGHTS: i128 = 1 << 31;

/// Whether from each row of a window the offsets, one for each dimension and none past 2^32, lead into the array. `spans` are the window's.
pub fn reaches(window: &Window, spans: &[Span], offsets: &[i128]) -> bool
    requires spans { window.now.1 ≡ spans.now }
    requires is { IsWindow window.now.0 window.now.1 }
    ensures { result ≡ reaches window.now offsets.now }
{
    let extents = window.extents();
    if offsets.len() != extents.rank() || !are_offsets(offsets) {
        return false;
    }
    window.count() == 0 || all_stay(&extents, spans, offsets)
}

fn are_offsets(offsets: &[i128]) -> bool
    ensures { result ≡ list_all is_offset offsets.now }
{
    offsets.iter().all(|offset| is_offset(*offset))
}

fn is_offset(offset: i128) -> bool
    ensures { result ≡ is_offset offset }
{
    -MAX_OFFSET <= offset && offset <= MAX_OFFSET
}

// Whether so far away from a window nothing lies outside the array.
fn all_stay(extents: &Extents, spans: &[Span], offsets: &[i128]) -> bool
    requires spans { length spans.now ≡ length extents.now }
    requires offsets { length offsets.now ≡ length extents.now }
    ensures { result ≡ all_stay extents.now spans.now offsets.now }
{
    for (dimension, offset) in offsets.iter().enumerate() {
        if !stays(extents.at(dimension), spans[dimension], *offset) {
            return false;
        }
    }
    true
}

// The same in one dimension.
fn stays(extent: u64, span: Span, offset: i128) -> bool
    ensures { result ≡ stays extent span offset }
{
    -i128::from(span.from) <= offset && offset <= i128::from(extent) - i128::from(span.end)
}

/// Whether a weight is one that a term may have: from -2^31 to 2^31 - 1.
pub fn is_weight(weight: i128) -> bool
    ensures { result ≡ is_weight weight }
{
    -WEIGHTS <= weight && weight < WEIGHTS
}

/// Whether a divisor is one that a stencil may have: from 1 to 2^31.
pub fn is_divisor(divisor: u32) -> bool
    ensures { result ≡ is_divisor (pos divisor) }
{
    1 <= divisor && i128::from(divisor) <= WEIGHTS
}
