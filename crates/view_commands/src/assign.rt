// `set V[..].path = ..`.
ghost use Rattle.std.specs.Prelude.{◌≡◌, ◌<◌, ◌≤◌, IfOk, OnErr, OnOk, length};
ghost use Rattle.view_commands.specs.Imports.{bound_term, term_of, indices, IsInside, place_in, IsBoundOver, without_number, after_write, answer_of, leaf_count_of, assigned, inside, Gives};
ghost use Rattle.view_commands.specs.Changes.{Changed, all_left};
ghost use Rattle.view_commands.specs.Inner.Parts.{eval_fault, set_in, store_told};

use crate::change::{Change, ChangeFault};
use crate::faults::{eval_fault, store_fault};
use arrayvec::ArrayVec;
use command_checks::{StepFault, bound, leaf_of};
use expr_lang::{Bound, Expr};
use extents::Extents;
use line_grammar::IndexWords;
use record_dim::{Path, Steps};
use row_updates::value_on;
use std::alloc::Global;
use std::sync::ledger::Ledger;
use views::View;
use worlds::CommandFault;

/// Stores the value of an expression in a leaf of the row of an index.
#[derive(Drop)]
pub struct Assign<'a> {
    pub index: &'a IndexWords,
    pub path: &'a Path,
    pub value: &'a Expr,
}

impl Change for Assign<'_> {
    ghost does = { λ this table. assigned table this.index.now this.path.now (term_of this.value.now) };

    fn run<L: Ledger>(
        &self,
        alloc: Global,
        view: &mut View,
        steps: &mut Steps<L>,
    ) -> Result<Option<i128>, ChangeFault> {
        assigned(
            alloc,
            view,
            self.index.as_slice(),
            self.path,
            self.value,
            steps,
        )
    }
}

fn assigned<L: Ledger>(
    alloc: Global,
    view: &mut View,
    index: &[u32],
    path: &Path,
    value: &Expr,
    steps: &mut Steps<L>,
) -> Result<Option<i128>, ChangeFault>
    ensures { Changed (assigned view.old index.now path.now (term_of value.now)) (all_left view.old) view.old result view.new }
{
    let leaf = leaf_of(alloc, view, path)?;
    let value = bound(alloc, view, value)?;
    let index = inside(view.extents(), index)?;
    set_in(view, index.as_slice(), leaf, &value, steps)
}

// The index, which is one of those inside the extents.
fn inside(extents: Extents, index: &[u32]) -> Result<ArrayVec<u64, 4>, StepFault>
    ensures inside { Gives (λ wide. tt) result (inside extents index.now) }
    ensures index { IfOk result (λ wide. wide.items ≡ index.now) }
    ensures member { IfOk result (λ wide. IsInside extents wide.items) }
{
    if index.len() != extents.rank() {
        return Err(bad_index());
    }
    let wide = widened(index);
    if !extents.holds(wide.as_slice()) {
        return Err(bad_index());
    }
    Ok(wide)
}

fn bad_index() -> StepFault
    ensures { result ≡ StepFault.Command CommandFault.BadIndex }
{
    StepFault::Command(CommandFault::BadIndex)
}

/// The same numbers, wider.
pub fn widened<const N: usize>(numbers: &[u32]) -> ArrayVec<u64, N>
    requires { length numbers.now ≤ N }
    ensures { result.items ≡ numbers.now }
{
    let mut wide = ArrayVec::new();
    for number in numbers {
        wide.push(u64::from(*number));
    }
    wide
}

// The value of an expression, stored in a leaf of the row of an index.
fn set_in<L: Ledger>(
    view: &mut View,
    index: &[u64],
    leaf: usize,
    value: &Bound,
    steps: &mut Steps<L>,
) -> Result<Option<i128>, ChangeFault>
    requires inside { IsInside view.old.extents index.now }
    requires rank { length index.now ≡ length view.old.extents }
    requires leaf_in { leaf < leaf_count_of view.old }
    requires over { IsBoundOver view.old value.now }
    ensures { Changed (set_in view.old index.now leaf (bound_term value.now)) (all_left view.old) view.old result view.new }
{
    let row = row_of(view, index);
    match value_on(view, row, value, index, steps) {
        Ok(number) => store(view, row, leaf, number, steps),
        Err(fault) => Err(eval_fault(row, fault)),
    }
}

// A value, stored where the view takes it.
fn store<L: Ledger>(
    view: &mut View,
    row: u64,
    leaf: usize,
    number: i128,
    steps: &mut Steps<L>,
) -> Result<Option<i128>, ChangeFault>
    requires row_in { row < length view.old.rows }
    requires leaf_in { leaf < leaf_count_of view.old }
    ensures told { result ≡ store_told row leaf (without_number (answer_of view.old leaf number)) }
    ensures stored { OnOk result (view.new ≡ after_write view.old row leaf number) }
    ensures kept { OnErr result (view.new ≡ view.old) }
{
    match view.set(row, leaf, number, steps) {
        Ok(()) => Ok(None),
        Err(fault) => Err(store_fault(row, leaf, fault)),
    }
}

// The row of an index.
fn row_of(view: &View, index: &[u64]) -> u64
    requires { IsInside view.now.extents index.now }
    ensures row { result ≡ place_in (indices view.now.extents) index.now }
    ensures below { result < length view.now.rows }
{
    view.extents().row_of(index)
}
