ghost use Rattle.std.specs.Prelude.{◌≡◌, ◌+◌, ◌<◌, ℕ, OnOk, OnErr, Some, length, slice_get};
ghost use Rattle.subviews.specs.Imports.{entry, IsDeclared, without_number, leaf_count_of, leaf_type_of, answer_of, after_read, after_write};
ghost use Rattle.subviews.specs.SubViews.{rows_of, outer_row};

use extents::Window;
use record_dim::Steps;
use std::sync::ledger::Ledger;
use views::{StoreFault, View, laws_of_table};

/// The rows of a view that is borrowed whose index a window holds, in row order.
#[derive(Drop)]
pub struct SubView<'a> {
    pub(crate) view: &'a mut View,
    window: &'a Window,
    ghost tied: { window.now.0 ≡ view.now.extents },
}

impl<'a> SubView<'a> {
    /// The subview of this window.
    pub fn new(view: &'a mut View, window: &'a Window) -> SubView<'a>
        requires { window.now.0 ≡ view.old.extents }
        ensures same_view { result.view.ghost_name ≡ view.entry.ghost_name }
        ensures view { result.view.now ≡ view.old }
        ensures window { result.window.now ≡ window.now }
    {
        SubView { view, window }
    }
}

impl SubView<'_> {
    /// The number of rows.
    pub fn count(&self) -> u64
        ensures { result ≡ length (rows_of self.now.window.now) }
    {
        self.window.count()
    }

    /// The view's row that is this row. Different rows have different ones.
    pub fn outer(&self, row: u64) -> u64
        requires { row < length (rows_of self.now.window.now) }
        ensures row { result ≡ outer_row self.now.window.now row }
        ensures alone { (other : ℕ) → slice_get (rows_of self.now.window.now) other ≡ Some result → other ≡ row }
    {
        self.window.outer(row)
    }

    /// The value of a leaf in a row. It takes one step.
    pub fn get<L: Ledger>(&mut self, row: u64, leaf: usize, steps: &mut Steps<L>) -> i128
        requires row_in { row < length (rows_of self.old.window.now) }
        requires leaf_in { leaf < leaf_count_of self.old.view.now }
        ensures value { result ≡ entry self.old.view.now.rows (outer_row self.old.window.now row) leaf }
        ensures declared { IsDeclared (leaf_type_of self.old.view.now leaf) result }
        ensures same { self.new.view.now ≡ after_read self.old.view.now (outer_row self.old.window.now row) leaf }
        ensures same_window { self.new.window.now ≡ self.old.window.now }
        ensures same_view { self.new.view.ghost_name ≡ self.old.view.ghost_name }
        ensures step { steps.new ≡ steps.old + 1 }
    {
        laws_of_table(self.view);
        self.view.get(self.window.outer(row), leaf, steps)
    }

    /// Stores a value in a leaf of a row, as [`View::set`] does.
    pub fn set<L: Ledger>(
        &mut self,
        row: u64,
        leaf: usize,
        value: i128,
        steps: &mut Steps<L>,
    ) -> Result<(), StoreFault>
        requires row_in { row < length (rows_of self.old.window.now) }
        requires leaf_in { leaf < leaf_count_of self.old.view.now }
        ensures answer { result ≡ without_number (answer_of self.old.view.now leaf value) }
        ensures stored { OnOk result (self.new.view.now ≡ after_write self.old.view.now (outer_row self.old.window.now row) leaf value) }
        ensures refused { OnErr result (self.new.view.now ≡ self.old.view.now) }
        ensures same_window { self.new.window.now ≡ self.old.window.now }
        ensures same_view { self.new.view.ghost_name ≡ self.old.view.ghost_name }
        ensures step { steps.new ≡ steps.old + 1 }
    {
        laws_of_table(self.view);
        self.view.set(self.window.outer(row), leaf, value, steps)
    }
}
