// The value of an expression on a row of a view.
ghost use Rattle.std.specs.Prelude.{◌≡◌, ◌<◌, IfErr, IfSome, [], length, slice_index_or};
ghost use Rattle.row_updates.specs.Imports.{bound_term, bound_leaves, bound_rank, outcome_of, leaf_count_of, after_log};
ghost use Rattle.row_updates.specs.Rows.{IsBoundOver, filter_term, eval_kind, value_of, passes};
ghost use Rattle.row_updates.specs.Logs.{value_log, filter_log};

use crate::fault::{UpdateFault, UpdateKind};
use expr_lang::{Bound, EvalFault, eval};
use record_dim::Steps;
use std::sync::ledger::Ledger;
use views::{View, laws_of_table};

/// The value of an expression on the row of this number, whose index this is. The table stands, the reads
/// are counted, and no memory is taken.
#[inline(always)]
pub fn value_on<L: Ledger>(
    view: &mut View,
    row: u64,
    expr: &Bound,
    index: &[u64],
    steps: &mut Steps<L>,
) -> Result<i128, EvalFault>
    requires row_in { row < length view.old.rows }
    requires leaves { bound_leaves expr.now ≡ leaf_count_of view.old }
    requires rank { length index.now ≡ bound_rank expr.now }
    ensures value { result ≡ (outcome_of (slice_index_or view.old.rows row []) index.now (bound_term expr.now)).answer }
    ensures same { view.new ≡ after_log view.old (value_log row (slice_index_or view.old.rows row []) index.now (bound_term expr.now)) }
{
    laws_of_table(view);
    let mut entry = view.row_mut(row);
    eval(expr, &mut entry, index, steps)
}

/// The same, with a fault of this row.
#[inline(always)]
pub fn value_of<L: Ledger>(
    view: &mut View,
    row: u64,
    index: &[u64],
    expr: &Bound,
    steps: &mut Steps<L>,
) -> Result<i128, UpdateFault>
    requires row_in { row < length view.old.rows }
    requires rank { length index.now ≡ length view.old.extents }
    requires over { IsBoundOver view.old expr.now }
    ensures value { result ≡ value_of row (slice_index_or view.old.rows row []) index.now (bound_term expr.now) }
    ensures named { IfErr result (λ fault. fault.row ≡ row) }
    ensures same { view.new ≡ after_log view.old (value_log row (slice_index_or view.old.rows row []) index.now (bound_term expr.now)) }
{
    match value_on(view, row, expr, index, steps) {
        Ok(value) => Ok(value),
        Err(fault) => Err(UpdateFault {
            row,
            kind: eval_kind(fault),
        }),
    }
}

/// Whether a row passes the filter: each does where there is none, and else the rows where it is not 0.
#[inline(always)]
pub fn passes<L: Ledger>(
    view: &mut View,
    row: u64,
    index: &[u64],
    filter: Option<&Bound>,
    steps: &mut Steps<L>,
) -> Result<bool, UpdateFault>
    requires row_in { row < length view.old.rows }
    requires rank { length index.now ≡ length view.old.extents }
    requires filter { IfSome filter (λ bound. IsBoundOver view.old bound.now) }
    ensures value { result ≡ passes row (slice_index_or view.old.rows row []) index.now (filter_term filter.entry) }
    ensures named { IfErr result (λ fault. fault.row ≡ row) }
    ensures same { view.new ≡ after_log view.old (filter_log row (slice_index_or view.old.rows row []) index.now (filter_term filter.entry)) }
{
    match filter {
        None => Ok(true),
        Some(filter) => {
            let value = value_of(view, row, index, filter, steps)?;
            Ok(value != 0)
        }
    }
}

fn eval_kind(fault: EvalFault) -> UpdateKind
    ensures { result ≡ eval_kind fault }
{
    match fault {
        EvalFault::Overflow => UpdateKind::Overflow,
        EvalFault::DivideByZero => UpdateKind::DivideByZero,
    }
}
