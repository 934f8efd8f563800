// How far away the entries of terms lie, in rows.
ghost use Rattle.std.specs.Prelude.{◌≡◌, ◌<◌, ◌≤◌, ◌^◌, ℕ, true, pos, ◌+ℤ◌, ◌<ℤ◌, ◌≤ℤ◌, length, slice_index_or};
ghost use Rattle.extents.specs.Indices.{indices};
ghost use Rattle.subviews.specs.SubViews.{rows_of};
ghost use Rattle.subviews.specs.Stencils.{reaches};
ghost use Rattle.subviews.specs.Plans.{IsFar};

use crate::term::Term;
use arrayvec::ArrayVec;
use extents::Window;

/// How far away each term reads, the same for each row of the window.
pub fn all_far(window: &Window, terms: &[Term]) -> [i64; 64]
    requires reach { (place : ℕ) (other : Term) → place < length terms.now → reaches window.now (slice_index_or terms.now place other).offsets.items ≡ true }
    requires few { length terms.now ≤ 64 }
    ensures rows { length (indices window.now.0) ≤ 2 ^ 24 }
    ensures far { (place : ℕ) (other : Term) → place < length terms.now
        → IsFar window.now (slice_index_or terms.now place other).offsets.items (slice_index_or result place (pos 0)) }
{
    let mut far = [0; 64];
    let _rank = window.extents().rank();
    if window.count() == 0 {
        return far;
    }
    for (place, term) in terms.iter().enumerate() {
        far[place] = far_of(window, &term.offsets);
    }
    far
}

// The same of one term: as far as it reads from the first row.
fn far_of(window: &Window, offsets: &ArrayVec<i64, 4>) -> i64
    requires some { 0 < length (rows_of window.now) }
    requires reach { reaches window.now offsets.now.items ≡ true }
    ensures { IsFar window.now offsets.now.items result }
{
    let extents = window.extents();
    let first = window.outer(0);
    let from = extents.index_of(first);
    let mut index = ArrayVec::<u64, 4>::new();
    for dimension in 0..extents.rank() {
        index.push((from[dimension] as i64 + offsets[dimension]) as u64);
    }
    extents.row_of(&index) as i64 - first as i64
}

/// The row so many rows away from another one.
#[inline(always)]
pub fn row_away(row: u64, far: i64) -> u64
    requires here { row < 2 ^ 32 }
    requires low { pos 0 ≤ℤ (pos row +ℤ far) }
    requires high { (pos row +ℤ far) <ℤ pos (2 ^ 32) }
    ensures { pos result ≡ pos row +ℤ far }
{
    (row as i64 + far) as u64
}
