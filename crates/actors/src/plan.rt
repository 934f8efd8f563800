// What an update asks of each row, found once before an actor moves.
ghost use Rattle.std.specs.Prelude.{◌≡◌, ◌<◌, ◌≤◌, All, None, Err, [], fold, length, map, slice_index_or, IfSome, IfOk, IfErr, OnOk, OnErr};
ghost use Rattle.actors.specs.Imports.{flat_map, index_at, row_log, update_log, IsBoundOver, IsSetOf, filter_term, setting_of, updated_row, updated_of, answer_of, kept_of, after_log, leaf_count_of, reads_in, job_of, memory_of, test_of, filter_reads, set_reads};
ghost use Rattle.actors.specs.Rows.{IsRowPlanOf, ArePlans, marked};
ghost use Rattle.actors.specs.Updates.{HasRead, IsUpdated, IsUpdatedRow, IsMet};

use crate::fault::ActorFault;
use crate::memory::{laws_of_view, read_held};
use crate::noted::value_at;
use actor_tasks::{AskingRows, Asks};
use blobs::Blob;
use expr_lang::Bound;
use record_dim::Steps;
use row_updates::{Assign, UpdateFault, try_row};
use std::alloc::Global;
use std::sync::ledger::Ledger;
use views::View;

/// What an update asks of each row of a view.
#[derive(Drop)]
pub struct Plans {
    rows: Vec<Asks>,
}

impl AskingRows for Plans {
    ghost use Rattle.std.specs.Prelude.{length};
    ghost use Rattle.actors.specs.Rows.{asks_at};

    ghost row_count = { λ p. length p.rows.items };

    ghost asks_of = { λ p. asks_at p.rows.items };

    fn asks(&self, row: u64) -> Asks {
        self.rows[row as usize]
    }
}

/// The plans of all rows of a view whose blobs have these copies. Each row is tried as the plain update tries it, so that what the update reads
/// is counted, and its fault is met.
pub fn plan_rows<L: Ledger>(
    alloc: Global,
    view: &mut View,
    found: &[Blob],
    filter: Option<&Bound>,
    sets: &[Assign],
    steps: &mut Steps<L>,
) -> Result<Plans, ActorFault>
    requires filter { IfSome filter (λ bound. IsBoundOver view.old bound.now) }
    requires sets { All (IsSetOf view.old) sets.now }
    requires few { length sets.now ≤ 64 }
    requires found { found.now ≡ memory_of view.old }
    ensures planned { IfOk result (λ plans. ArePlans (job_of view.old (filter_term filter.entry) (map setting_of sets.now)) (length view.old.rows) plans.rows.items) }
    ensures updated { OnOk result (IsUpdated (updated_of view.old (filter_term filter.entry) (map setting_of sets.now) (length view.old.rows))) }
    ensures read { OnOk result (view.new ≡ after_log view.old
        (reads_in (update_log view.old (filter_term filter.entry) (map setting_of sets.now) (length view.old.rows)))) }
    ensures refused { IfErr result (IsMet (updated_of view.old (filter_term filter.entry) (map setting_of sets.now) (length view.old.rows))) }
    ensures stands { OnErr result (view.new ≡ record view.old { tally = view.new.tally }) }
    ensures so_far { IfErr result (HasRead view.old (filter_term filter.entry) (map setting_of sets.now) view.new) }
{
    let mut plans = Vec::new(alloc);
    for row in 0..view.extents().count() {
        plans.push(plan_row(view, found, filter, sets, row, steps)?)?;
    }
    Ok(Plans { rows: plans })
}

// The plan of a row.
fn plan_row<L: Ledger>(
    view: &mut View,
    found: &[Blob],
    filter: Option<&Bound>,
    sets: &[Assign],
    row: u64,
    steps: &mut Steps<L>,
) -> Result<Asks, UpdateFault>
    requires filter { IfSome filter (λ bound. IsBoundOver view.old bound.now) }
    requires sets { All (IsSetOf view.old) sets.now }
    requires few { length sets.now ≤ 64 }
    requires found { found.now ≡ memory_of view.old }
    requires row_in { row < length view.old.rows }
    ensures planned { IfOk result (IsRowPlanOf (job_of view.old (filter_term filter.entry) (map setting_of sets.now)) row) }
    ensures updated { OnOk result (IsUpdatedRow (updated_row (answer_of view.old) (kept_of view.old) (filter_term filter.entry) (map setting_of sets.now)
        row (slice_index_or view.old.rows row []) (index_at view.old.extents row))) }
    ensures refused { IfErr result (λ fault. updated_row (answer_of view.old) (kept_of view.old) (filter_term filter.entry) (map setting_of sets.now)
        row (slice_index_or view.old.rows row []) (index_at view.old.extents row) ≡ Err fault) }
    ensures named { IfErr result (λ fault. fault.row ≡ row) }
    ensures read { view.new ≡ after_log view.old (reads_in (row_log (answer_of view.old) (filter_term filter.entry)
        (map setting_of sets.now) row (slice_index_or view.old.rows row []) (index_at view.old.extents row))) }
{
    let mut tried = [0; 64];
    let _passed = try_row(view, row, filter, sets, &mut tried, steps)?;
    let mut buffer = [0; 64];
    let values = &mut buffer[..view.schema().leaf_count()];
    read_found(view, found, row, values);
    Ok(plan_of(view, filter, sets, row, values))
}

// Makes `values` those of a row, read off copies of the blobs, so that nothing is counted.
fn read_found(view: &View, found: &[Blob], row: u64, values: &mut [i128])
    requires found { found.now ≡ memory_of view.now }
    requires row_in { row < length view.now.rows }
    requires values { length values.old ≡ leaf_count_of view.now }
    ensures row { values.new ≡ slice_index_or view.now.rows row [] }
    ensures long { length values.new ≡ leaf_count_of view.now }
{
    laws_of_view(view);
    read_held(view, found, row, values);
}

// The plan of a row that has these values.
fn plan_of(view: &View, filter: Option<&Bound>, sets: &[Assign], row: u64, values: &[i128]) -> Asks
    requires filter { IfSome filter (λ bound. IsBoundOver view.now bound.now) }
    requires sets { All (IsSetOf view.now) sets.now }
    requires row_in { row < length view.now.rows }
    requires values { values.now ≡ slice_index_or view.now.rows row [] }
    requires long { length values.now ≡ leaf_count_of view.now }
    requires few { length values.now ≤ 64 }
    ensures { IsRowPlanOf (job_of view.now (filter_term filter.entry) (map setting_of sets.now)) row result }
{
    let mut asked = [false; 64];
    if !lets_through(view, filter, row, values, &mut asked) {
        return Asks {
            reads: asked,
            through: false,
        };
    }
    mark_sets(view, sets, row, values, &mut asked);
    Asks {
        reads: asked,
        through: true,
    }
}

// Whether a filter lets a row through that has these values. What it reads is marked.
fn lets_through(
    view: &View,
    filter: Option<&Bound>,
    row: u64,
    values: &[i128],
    asked: &mut [bool; 64],
) -> bool
    requires filter { IfSome filter (λ bound. IsBoundOver view.now bound.now) }
    requires row_in { row < length view.now.rows }
    requires values { values.now ≡ slice_index_or view.now.rows row [] }
    requires long { length values.now ≡ leaf_count_of view.now }
    requires few { length values.now ≤ 64 }
    ensures through { result ≡ test_of (job_of view.now None []) row (filter_term filter.entry) }
    ensures asked { asked.new ≡ fold marked asked.old (filter_reads (job_of view.now None []) row (filter_term filter.entry)) }
{
    match filter {
        None => true,
        Some(filter) => value_at(view, filter, row, values, asked) != 0,
    }
}

// Marks what the right sides read on a row that has these values.
fn mark_sets(view: &View, sets: &[Assign], row: u64, values: &[i128], asked: &mut [bool; 64])
    requires sets { All (IsSetOf view.now) sets.now }
    requires row_in { row < length view.now.rows }
    requires values { values.now ≡ slice_index_or view.now.rows row [] }
    requires long { length values.now ≡ leaf_count_of view.now }
    requires few { length values.now ≤ 64 }
    ensures { asked.new ≡ fold marked asked.old (flat_map (set_reads (job_of view.now None []) row) (map setting_of sets.now)) }
{
    for set in sets {
        let _value = value_at(view, &set.value, row, values, asked);
    }
}
