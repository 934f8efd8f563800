// `reduce V sum|min|max path` and `reduce V count where ..`.
ghost use Rattle.std.specs.Prelude.{◌≡◌, ◌<◌};
ghost use Rattle.view_commands.specs.Imports.{term_of, reading, counting, form_of, reduction};
ghost use Rattle.view_commands.specs.Changes.{Changed, all_left};

use crate::change::{Change, ChangeFault};
use crate::faults::update_fault;
use command_checks::{StepFault, bound, leaf_of};
use expr_lang::Expr;
use lane_kernels::{Reduction, reduce_leaf};
use line_grammar::ReduceKind;
use record_dim::{Path, Steps};
use row_updates::count_where;
use std::alloc::Global;
use std::sync::ledger::Ledger;
use views::View;
use worlds::CommandFault;

/// Gives the sum, the least or the greatest of the values of a leaf.
#[derive(Drop)]
pub struct Reduce<'a> {
    pub kind: &'a ReduceKind,
    pub path: &'a Path,
}

impl Change for Reduce<'_> {
    ghost does = { λ this table. reading (λ content. reduction content this.kind.now this.path.now) table };

    fn run<L: Ledger>(
        &self,
        alloc: Global,
        view: &mut View,
        steps: &mut Steps<L>,
    ) -> Result<Option<i128>, ChangeFault> {
        reduction(alloc, view, *self.kind, self.path, steps)
    }
}

/// Gives the number of rows where an expression is not 0.
#[derive(Drop)]
pub struct Count<'a> {
    pub filter: &'a Expr,
}

impl Change for Count<'_> {
    ghost does = { λ this table. reading (λ content. counting content (term_of this.filter.now)) table };

    fn run<L: Ledger>(
        &self,
        alloc: Global,
        view: &mut View,
        steps: &mut Steps<L>,
    ) -> Result<Option<i128>, ChangeFault> {
        counting(alloc, view, self.filter, steps)
    }
}

fn reduction<L: Ledger>(
    alloc: Global,
    view: &mut View,
    kind: ReduceKind,
    path: &Path,
    steps: &mut Steps<L>,
) -> Result<Option<i128>, ChangeFault>
    ensures { Changed (reading (λ content. reduction content kind path.now) view.old) (all_left view.old) view.old result view.new }
{
    let leaf = leaf_of(alloc, view, path)?;
    match reduce_leaf(view, leaf, form_of(kind), steps) {
        Some(number) => Ok(Some(number)),
        None => Err(ChangeFault::Other(StepFault::Command(CommandFault::Empty))),
    }
}

fn counting<L: Ledger>(
    alloc: Global,
    view: &mut View,
    filter: &Expr,
    steps: &mut Steps<L>,
) -> Result<Option<i128>, ChangeFault>
    ensures { Changed (reading (λ content. counting content (term_of filter.now)) view.old) (all_left view.old) view.old result view.new }
{
    let filter = bound(alloc, view, filter)?;
    match count_where(view, &filter, steps) {
        Ok(rows) => Ok(Some(i128::from(rows))),
        Err(fault) => Err(update_fault(fault)),
    }
}

// What a word asks of numbers.
fn form_of(kind: ReduceKind) -> Reduction
    ensures { result ≡ form_of kind }
{
    match kind {
        ReduceKind::Sum => Reduction::Sum,
        ReduceKind::Min => Reduction::Least,
        ReduceKind::Max => Reduction::Greatest,
    }
}
