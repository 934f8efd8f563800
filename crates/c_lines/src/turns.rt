// What is done with each value of a list in its turn.
ghost use Rattle.std.specs.Prelude.{◌≡◌, ◌<◌};
ghost use Rattle.c_lines.specs.Imports.{ℕ, ℤ, length, IsWithin64, Table, leaf_count_of};
ghost use Rattle.c_lines.specs.ByRows.{Turned, add_there, put_there};

use crate::refusal::Refusal;
use crate::values::put;
use record_dim::Steps;
use std::sync::ledger::Ledger;
use views::View;

/// A way to store a value in a leaf of a row.
pub trait Turn {
    /// What it does to a table with a value, in a leaf of a row.
    ghost store: { ℕ → ℕ → ℤ → Table → Turned };

    /// Stores a value of 64 bits so.
    fn store<L: Ledger>(
        view: &mut View,
        row: u64,
        leaf: usize,
        value: i128,
        steps: &mut Steps<L>,
    ) -> Result<(), Refusal>
        requires row { row < length view.old.rows }
        requires leaf { leaf < leaf_count_of view.old }
        requires value { IsWithin64 value }
        ensures answer { result ≡ (store leaf row value view.old).answer }
        ensures left { view.new ≡ (store leaf row value view.old).left }
        ensures rows { length view.new.rows ≡ length view.old.rows }
        ensures leaves { leaf_count_of view.new ≡ leaf_count_of view.old };
}

/// The value is put there.
pub struct Put;

/// It is added to what stands there.
pub struct Add;

impl Turn for Put {
    ghost store = { put_there };

    #[inline(always)]
    fn store<L: Ledger>(
        view: &mut View,
        row: u64,
        leaf: usize,
        value: i128,
        steps: &mut Steps<L>,
    ) -> Result<(), Refusal> {
        put(view, row, leaf, value, steps)
    }
}

impl Turn for Add {
    ghost store = { add_there };

    #[inline(always)]
    fn store<L: Ledger>(
        view: &mut View,
        row: u64,
        leaf: usize,
        value: i128,
        steps: &mut Steps<L>,
    ) -> Result<(), Refusal> {
        let there = view.get(row, leaf, steps);
        put(view, row, leaf, there + value, steps)
    }
}
