// One number of the values of a leaf in all rows, run after run.
ghost use Rattle.std.specs.Prelude.{◌≡◌, ◌+◌, ◌<◌, ◌≤◌, FitsSigned, length, map, option_map, slice_get};
ghost use Rattle.std.specs.Int.{w128};
ghost use Rattle.std.specs.Option.{option_or};
ghost use Rattle.std.specs.Simd.Lanes.{Each1};
ghost use Rattle.record_dim.specs.Prelude.{width_of};
ghost use Rattle.views.specs.Prelude.{column, column_reads, raised, run_steps, after_log, leaf_count_of, leaf_type_of};
ghost use Rattle.lane_kernels.specs.Kernels.{IsNarrow};
ghost use Rattle.lane_kernels.specs.Reductions.{reduced_by, with_more, CanAdd};

use num_traits::PrimInt;
use piece_bits::{greatest, least, sum};
use record_dim::{LeafType, Steps};
use std::sync::ledger::Ledger;
use views::{RUN, View, raised};

/// What is asked of some numbers.
#[derive(Clone, Copy)]
pub enum Reduction {
    Sum,
    Least,
    Greatest,
}

impl Reduction {
    /// What it gives of some numbers and of more of them, where `number` is what it gives of the former.
    pub(crate) fn with_more<T: PrimInt>(self, number: Option<T>, more: &[T]) -> Option<T>
        requires { CanAdd T.value T.fits self number more.now }
        ensures { option_map T.value result ≡ with_more self (option_map T.value number) (map T.value more.now) }
    {
        match self {
            Reduction::Sum => Some(sum(number.unwrap_or(T::zero()), more)),
            Reduction::Least => Some(least(begin(number, more)?, more)),
            Reduction::Greatest => Some(greatest(begin(number, more)?, more)),
        }
    }
}

// What the least or the greatest of more numbers is looked for from.
fn begin<T: PrimInt>(number: Option<T>, more: &[T]) -> Option<T>
    ensures { result ≡ option_or number (slice_get more.now 0) }
{
    number.or(more.first().copied())
}

/// The sum, the least or the greatest of the values of a leaf in all rows, exactly. No rows have a least or a greatest. It takes the steps
/// of a read of all rows.
pub fn reduce_leaf<L: Ledger>(
    view: &mut View,
    leaf: usize,
    form: Reduction,
    steps: &mut Steps<L>,
) -> Option<i128>
    requires { leaf < leaf_count_of view.old }
    ensures value { result ≡ reduced_by form (column leaf view.old.rows) }
    ensures read { view.new ≡ after_log view.old (column_reads leaf 0 (length view.old.rows)) }
    ensures steps { steps.new ≡ steps.old + run_steps (leaf_type_of view.old leaf) (length view.old.rows) }
{
    let kind = view.schema().leaf_type(leaf);
    let count = view.extents().count();
    let mut lows = [0; RUN];
    let mut values = [0; RUN];
    let mut number = form.with_more(None, &values[..0]);
    let mut row = 0;
    while row < count {
        let step = (count - row).min(RUN as u64) as usize;
        let run = &mut lows[..step];
        view.read_run(leaf, row, run, steps);
        number = with_run(form, kind, number, run, &mut values[..step]);
        row += step as u64;
    }
    number
}

// What a reduction gives of values of a leaf and of a run of more, whose low bits these are. A run of at most 32 bits is reduced in 64.
fn with_run(
    form: Reduction,
    kind: LeafType,
    number: Option<i128>,
    lows: &[i64],
    values: &mut [i128],
) -> Option<i128>
    requires beside { length values.old ≡ length lows.now }
    requires few { length lows.now ≤ 256 }
    requires narrow { width_of kind ≤ 32 → Each1 IsNarrow lows.now }
    requires fit { CanAdd (λ z. z) (λ z. FitsSigned w128 z) form number (map (raised kind) lows.now) }
    ensures { result ≡ with_more form number (map (raised kind) lows.now) }
{
    if kind.width() > 32 {
        raise(kind, lows, values);
        return form.with_more(number, values);
    }
    match form.with_more(None, lows) {
        Some(run) => form.with_more(number, &[i128::from(run)]),
        None => number,
    }
}

// The values of a leaf whose low bits these are.
fn raise(kind: LeafType, lows: &[i64], values: &mut [i128])
    requires { length values.old ≡ length lows.now }
    ensures { values.new ≡ map (raised kind) lows.now }
{
    for at in 0..lows.len() {
        values[at] = raised(kind, lows[at]);
    }
}
