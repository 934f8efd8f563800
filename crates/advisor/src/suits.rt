// Which candidates the values of a view suit.
ghost use Rattle.std.specs.Prelude.{◌≡◌, ◌+◌, ◌<◌, ◌≤◌, All, IfOk, OnOk, OnErr, length, map, take, drop};
ghost use Rattle.advisor.specs.Imports.{term_of, leaf_count_of, after_log, Read, all_accesses};
ghost use Rattle.advisor.specs.Inner.Pools.{HasKnownHolds};
ghost use Rattle.advisor.specs.Suits.{suits};
ghost use Rattle.advisor.specs.Inner.Trials.{IsTrial, IsFresh, HasTrials, rows_accesses, tried_all, none_failed};

use crate::candidate::Candidate;
use crate::trials::{Trial, none_failed, trials_of, try_leaf};
use record_dim::Steps;
use std::alloc::{AllocError as NoMemory, Global};
use std::sync::ledger::Ledger;
use views::{RUN, View};

/// Whether the values of a view suit each candidate. It takes all its memory first, and then reads each leaf of each row once.
pub fn suiting<L: Ledger>(
    alloc: Global,
    view: &mut View,
    pool: &[Candidate],
    steps: &mut Steps<L>,
) -> Result<Vec<bool>, NoMemory>
    requires { All (HasKnownHolds view.old) pool.now }
    ensures marks { IfOk result (λ marks. marks.items ≡ map (λ candidate. suits view.old (term_of candidate.expr)) pool.now) }
    ensures read { OnOk result (view.new ≡ after_log view.old (all_accesses Read (leaf_count_of view.old) (length view.old.rows))) }
    ensures unread { OnErr result (view.new ≡ view.old) }
{
    let mut marks = vec![in alloc; false; pool.len()]?;
    let mut trials = trials_of(alloc, view.schema(), pool)?;
    mark_suiting(
        view,
        pool,
        trials.as_mut_slice(),
        marks.as_mut_slice(),
        steps,
    );
    Ok(marks)
}

// Tries the values of all rows, and marks the candidates that they suit.
fn mark_suiting<L: Ledger>(
    view: &mut View,
    pool: &[Candidate],
    trials: &mut [Trial],
    marks: &mut [bool],
    steps: &mut Steps<L>,
)
    requires stored { All (HasKnownHolds view.old) pool.now }
    requires trials { All (IsTrial view.old.fields) trials.old }
    requires fresh { All IsFresh trials.old }
    requires all { All (λ candidate. HasTrials trials.old candidate.holds (length candidate.holds)) pool.now }
    requires marks { length marks.old ≡ length pool.now }
    ensures marks { marks.new ≡ map (λ candidate. suits view.old (term_of candidate.expr)) pool.now }
    ensures read { view.new ≡ after_log view.old (all_accesses Read (leaf_count_of view.old) (length view.old.rows)) }
{
    try_rows(view, trials, steps);
    mark(trials, pool, marks);
}

// Tries the values of all rows, run by run.
fn try_rows<L: Ledger>(view: &mut View, trials: &mut [Trial], steps: &mut Steps<L>)
    requires { All (IsTrial view.old.fields) trials.old }
    ensures tried { trials.new ≡ map (tried_all view.old.mode view.old.rows) trials.old }
    ensures read { view.new ≡ after_log view.old (all_accesses Read (leaf_count_of view.old) (length view.old.rows)) }
{
    let mut buffer = [0; RUN];
    let count = view.extents().count();
    let mut first = 0;
    while first < count {
        let rows = (count - first).min(RUN as u64);
        try_run(view, first, &mut buffer[..rows as usize], trials, steps);
        first += rows;
    }
}

// Tries the values of as many rows as the buffer has room for, from one on, leaf by leaf.
fn try_run<L: Ledger>(
    view: &mut View,
    first: u64,
    buffer: &mut [i64],
    trials: &mut [Trial],
    steps: &mut Steps<L>,
)
    requires rows_in { first + length buffer.old ≤ length view.old.rows }
    requires trials { All (IsTrial view.old.fields) trials.old }
    ensures tried { trials.new ≡ map (tried_all view.old.mode (take (length buffer.old) (drop first view.old.rows))) trials.old }
    ensures read { view.new ≡ after_log view.old (rows_accesses Read (leaf_count_of view.old) first (length buffer.old)) }
    ensures count { length buffer.new ≡ length buffer.old }
{
    let mode = view.mode();
    for leaf in 0..view.schema().leaf_count() {
        view.read_run(leaf, first, buffer, steps);
        try_leaf(mode, leaf, buffer, trials);
    }
}

// Marks the candidates of whose ways of storing leaves none failed.
fn mark(trials: &[Trial], pool: &[Candidate], marks: &mut [bool])
    requires each { length marks.old ≡ length pool.now }
    requires inside { All (λ candidate. All (λ trial. trial.leaf < length candidate.holds) trials.now) pool.now }
    ensures { marks.new ≡ map (λ candidate. none_failed candidate.holds trials.now) pool.now }
{
    for at in 0..pool.len() {
        marks[at] = none_failed(trials, pool[at].holds.as_slice());
    }
}
