// Rows of a view, one after another: those of a list, or those of a window.
ghost use Rattle.std.specs.Prelude.{◌≡◌, ◌<◌};
ghost use Rattle.c_lines.specs.Imports.{ℕ, List, length, nat_lt, slice_index_or, list_all, rows_of, Table};

use extents::Window;
use views::View;

/// Rows, of which each is asked for by its place.
pub trait RowList {
    ghost rows: { Self → List ℕ };

    /// What has to be known of them beside a table.
    ghost is_for: { Self → Table → Type 0 };

    /// How many they are.
    fn row_count(&self) -> u64
        ensures { result ≡ length (rows self.now) };

    /// The row at a place.
    fn row_at(&self, place: u64) -> u64
        requires { place < length (rows self.now) }
        ensures { result ≡ slice_index_or (rows self.now) place 0 };

    /// Whether a view has them all.
    fn are_in(&self, view: &View) -> bool
        requires { is_for self.now view.now }
        ensures { result ≡ list_all (λ row. nat_lt row (length view.now.rows)) (rows self.now) };
}

impl RowList for &[u64] {
    ghost rows = { λ list. list.now };

    ghost is_for = { λ list table. Unit {0} };

    #[inline(always)]
    fn row_count(&self) -> u64 {
        self.len() as u64
    }

    #[inline(always)]
    fn row_at(&self, place: u64) -> u64 {
        self[place as usize]
    }

    fn are_in(&self, view: &View) -> bool {
        are_below(self, view.extents().count())
    }
}

// A window of a view has rows of that view alone.
impl RowList for Window {
    ghost rows = { λ window. rows_of window };

    ghost is_for = { λ window table. window.0 ≡ table.extents };

    #[inline(always)]
    fn row_count(&self) -> u64 {
        self.count()
    }

    #[inline(always)]
    fn row_at(&self, place: u64) -> u64 {
        self.outer(place)
    }

    fn are_in(&self, view: &View) -> bool {
        let _extents = view.extents();
        true
    }
}

// Whether each number of a list is below one.
fn are_below(numbers: &[u64], most: u64) -> bool
    ensures { result ≡ list_all (λ number. nat_lt number most) numbers.now }
{
    numbers.iter().all(|number| *number < most)
}
