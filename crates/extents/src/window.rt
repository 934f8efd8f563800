ghost use Rattle.std.specs.Prelude.{◌≡◌, ◌↔◌, ◌<◌, ◌≤◌, ◌^◌, ℕ, IsTrue, IsSome, IfSome, length, slice_get, Some};
ghost use Rattle.extents.specs.Indices.{indices};
ghost use Rattle.extents.specs.Windows.{IsWindow, rows_in, sizes, moved};

use crate::rows::Extents;
use crate::words::{ExtentWord, fixed_product};
use arrayvec::ArrayVec;
use std::marker::Model;

/// The components of an index in one dimension: from `from` up to, and without, `end`.
#[derive(Clone, Copy, PartialEq, Eq)]
pub struct Span {
    /// The first component.
    pub from: u32,
    /// The first one behind the span.
    pub end: u32,
}

// An `ArrayVec` fills its empty places with it.
impl Default for Span {
    ghost use Rattle.std.specs.Prelude.{◌≡◌};

    ghost is_default = { λ span. span ≡ record { from = 0; end = 0 } };

    fn default() -> Self {
        Span { from: 0, end: 0 }
    }
}

/// A window of an array: the indices whose components lie in a span for each dimension.
#[derive(Drop)]
pub struct Window {
    extents: Extents,
    inner: Extents,
    spans: ArrayVec<Span, 4>,
}

// Clauses see the extents of the whole array, and the spans.
impl Model for Window {
    ghost use Rattle.std.specs.Prelude.{◌≡◌, List, ℕ};
    ghost use Rattle.extents.specs.Indices.{IsExtents};
    ghost use Rattle.extents.specs.Windows.{Span, IsWindow, sizes};

    ghost Value = { List ℕ × List Span };

    ghost view = { λ w. (w.extents, w.spans.items) };

    ghost invariant = { λ w. IsWindow w.extents w.spans.items × (w.inner ≡ sizes w.spans.items) × IsExtents w.extents };
}

impl Window {
    /// The window of these spans; None exactly where they are no window of the extents.
    pub fn new(extents: &Extents, spans: &[Span]) -> Option<Window>
        ensures some { IsSome result ↔ IsWindow extents.now spans.now }
        ensures window { IfSome result (λ window. window ≡ (extents.now, spans.now)) }
    {
        if !is_window(extents.sizes(), spans) {
            return None;
        }
        let mut kept = ArrayVec::new();
        let mut words = ArrayVec::<ExtentWord, 4>::new();
        for span in spans {
            kept.push(*span);
            words.push(ExtentWord::Fixed(span.end - span.from));
        }
        let rows = fixed_product(words.as_slice()) as u64;
        Some(Window {
            extents: *extents,
            inner: Extents::of_words(words.as_slice(), 0, rows),
            spans: kept,
        })
    }

    /// The extents of the whole array.
    pub fn extents(&self) -> Extents
        ensures { result ≡ self.now.0 }
    {
        self.extents
    }

    /// The extents of the window as an array of its own.
    pub fn inner(&self) -> Extents
        ensures { result ≡ sizes self.now.1 }
    {
        self.inner
    }

    /// The number of rows.
    pub fn count(&self) -> u64
        ensures rows { result ≡ length (rows_in self.now.0 self.now.1) }
        ensures few { result ≤ 2 ^ 24 }
    {
        self.inner.count()
    }

    /// The row of the whole array that is this row of the window.
    pub fn outer(&self, row: u64) -> u64
        requires { row < length (rows_in self.now.0 self.now.1) }
        ensures entry { slice_get (rows_in self.now.0 self.now.1) row ≡ Some result }
        ensures below { result < length (indices self.now.0) }
        ensures alone { (other : ℕ) → slice_get (rows_in self.now.0 self.now.1) other ≡ Some result → other ≡ row }
    {
        let inner = self.inner.index_of(row);
        let mut index = ArrayVec::<u64, 4>::new();
        for (component, span) in inner.iter().zip(self.spans.as_slice()) {
            index.push(u64::from(span.from) + component);
        }
        self.extents.row_of(&index)
    }
}

// Whether there is a span for each extent, and it lies within it.
fn is_window(extents: &[u32], spans: &[Span]) -> bool
    ensures { IsTrue result ↔ IsWindow extents.now spans.now }
{
    if extents.len() != spans.len() {
        return false;
    }
    for (span, extent) in spans.iter().zip(extents) {
        if span.from > span.end || span.end > *extent {
            return false;
        }
    }
    true
}
