ghost use Rattle.std.specs.Prelude.{◌≡◌, ◌↔◌, ◌<◌, ◌≤◌, ◌^◌, ℕ, length, map, nat_eq, slice_index, slice_get, Contains, IsTrue, Some};
ghost use Rattle.std.specs.Cmp.Lexicographic.{pointwise};
ghost use Rattle.std.specs.Cmp.Rules.{comparing};
ghost use Rattle.std.proofs.Common.{rules};
ghost use Rattle.extents.specs.Indices.{indices, product, IsInside, IsExtents};
ghost use Rattle.extents.specs.Shapes.{extent_of, IsRanked};

use crate::words::ExtentWord;
use arrayvec::ArrayVec;
use std::marker::Model;

/// The extents of an array: 1 to 4, each below 2^32, with at most 2^24 rows.
#[derive(Clone, Copy)]
pub struct Extents {
    sizes: [u32; 4],
    rank: usize,
    count: u64,
}

// Clauses see the list of the extents.
impl Model for Extents {
    ghost use Rattle.std.specs.Prelude.{ℕ, List, length, take};
    ghost use Rattle.extents.specs.Indices.{product};
    ghost use Rattle.extents.specs.Stored.{padded, stored_back, StoresExtents};

    ghost Value = { List ℕ };

    ghost view = { λ e. take e.rank e.sizes };

    ghost invariant = { λ e. StoresExtents e.sizes e.rank e.count };

    ghost inverse = { λ e. record { sizes = padded e; rank = length e; count = product e } };

    ghost inverse_ok = { λ a h. let back = stored_back a.sizes a.rank a.count h in λ i. record { sizes = back.0 i; rank = back.1 i; count = back.2 i } };
}

impl PartialEq for Extents {
    ghost eq = { pointwise nat_eq };

    ghost laws = { Prim.search (comparing, rules) };

    fn eq(&self, other: &Extents) -> bool
        ensures value { result ≡ pointwise nat_eq self.now other.now }
        ensures same { IsTrue result ↔ (self.now ≡ other.now) }
    {
        self.sizes() == other.sizes()
    }
}

impl Eq for Extents {
    ghost laws = { Prim.search (comparing, rules) };
}

impl Extents {
    /// The extents with `size` for `Rows`; `count` is their product.
    pub(crate) fn of_words(words: &[ExtentWord], size: u32, count: u64) -> Extents
        requires ranked { IsRanked words.now }
        requires counted { count ≡ product (map (extent_of size) words.now) }
        requires few { count ≤ 2 ^ 24 }
        ensures { result ≡ map (extent_of size) words.now }
    {
        let mut sizes = [0; 4];
        for (d, word) in words.iter().enumerate() {
            sizes[d] = word.extent(size);
        }
        Extents {
            sizes,
            rank: words.len(),
            count,
        }
    }

    pub(crate) fn sizes(&self) -> &[u32]
        ensures value { result.now ≡ self.now }
        ensures extents { IsExtents self.now }
    {
        &self.sizes[..self.rank]
    }

    /// The number of extents, 1 to 4.
    pub fn rank(&self) -> usize
        ensures value { result ≡ length self.now }
        ensures extents { IsExtents self.now }
    {
        self.rank
    }

    /// Extent `d`.
    pub fn at(&self, d: usize) -> u64
        requires { d < length self.now }
        ensures value { result ≡ slice_index self.now d }
        ensures narrow { result < 2 ^ 32 }
    {
        u64::from(self.sizes()[d])
    }

    /// The number of rows.
    pub fn count(&self) -> u64
        ensures rows { result ≡ length (indices self.now) }
        ensures product { result ≡ product self.now }
        ensures few { result ≤ 2 ^ 24 }
    {
        self.count
    }

    /// Whether an index has the right rank and each component is below its extent.
    pub fn holds(&self, index: &[u64]) -> bool
        ensures inside { IsTrue result ↔ IsInside self.now index.now }
        ensures member { IsTrue result ↔ Contains (indices self.now) index.now }
    {
        is_inside(self.sizes(), index)
    }

    /// The index of a row.
    pub fn index_of(&self, row: u64) -> ArrayVec<u64, 4>
        requires { row < length (indices self.now) }
        ensures entry { slice_get (indices self.now) row ≡ Some result.items }
        ensures inside { IsInside self.now result.items }
        ensures alone { (other : ℕ) → slice_get (indices self.now) other ≡ Some result.items → other ≡ row }
    {
        let mut index = ArrayVec::new();
        let mut block = self.count();
        let mut left = row;
        for size in self.sizes() {
            // the rows that share the components so far
            block /= u64::from(*size);
            index.push(left / block);
            left %= block;
        }
        index
    }

    /// The row of an index.
    pub fn row_of(&self, index: &[u64]) -> u64
        requires { IsInside self.now index.now }
        ensures entry { slice_get (indices self.now) result ≡ Some index.now }
        ensures below { result < length (indices self.now) }
        ensures alone { (other : ℕ) → slice_get (indices self.now) other ≡ Some index.now → other ≡ result }
    {
        let mut row = 0;
        for (component, size) in index.iter().zip(self.sizes()) {
            row = row * u64::from(*size) + component;
        }
        row
    }
}

fn is_inside(sizes: &[u32], index: &[u64]) -> bool
    ensures { IsTrue result ↔ IsInside sizes.now index.now }
{
    if index.len() != sizes.len() {
        return false;
    }
    for (component, size) in index.iter().zip(sizes) {
        if *component >= u64::from(*size) {
            return false;
        }
    }
    true
}
