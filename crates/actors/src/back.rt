// Rows that a memory holds, stored in a view.
ghost use Rattle.std.specs.Prelude.{ℕ, ◌≡◌, ◌<◌, All, true, false, Ok, pos, [], length, map, slice_index_or, slice_set};
ghost use Rattle.actors.specs.Imports.{AreSized, stores_log, IsSetOf, filter_term, setting_of, after_stores, answer_of, leaf_count_of, owners_of, job_of};
ghost use Rattle.actors.specs.Rows.{ArePlans, row_held, with_held};
ghost use Rattle.actors.specs.ActorRuns.{IsPlainMemory, IsStoredBack};

use crate::memory::{laws_of_view, read_held};
use crate::plan::Plans;
use actor_steps::schedules_agree;
use actor_tasks::AskingRows;
use blobs::Blob;
use expr_lang::Bound;
use record_dim::Steps;
use row_updates::Assign;
use std::sync::ledger::Ledger;
use views::View;

/// Stores each leaf that is set of each row that the filter lets through, as a memory has it, which is that of the plain update. The plans
/// are those of the filter and the sets.
pub fn store_rows<L: Ledger>(
    view: &mut View,
    _filter: Option<&Bound>,
    sets: &[Assign],
    plans: &Plans,
    memory: &[Blob],
    steps: &mut Steps<L>,
)
    requires sets { All (IsSetOf view.old) sets.now }
    requires planned { ArePlans (job_of view.old (filter_term _filter) (map setting_of sets.now)) (length view.old.rows) plans.now.rows.items }
    requires plain { IsPlainMemory view.old (filter_term _filter) (map setting_of sets.now) memory.now }
    ensures { IsStoredBack view.old (filter_term _filter.entry) (map setting_of sets.now) view.new }
{
    laws_of_view(view);
    schedules_agree();
    for row in 0..view.extents().count() {
        store_asked(view, sets, plans.asks(row).through, memory, row, steps);
    }
}

// The same of one row, where the filter lets it through.
fn store_asked<L: Ledger>(
    view: &mut View,
    sets: &[Assign],
    through: bool,
    memory: &[Blob],
    row: u64,
    steps: &mut Steps<L>,
)
    requires sets { All (IsSetOf view.old) sets.now }
    requires row_in { row < length view.old.rows }
    requires sized { AreSized (owners_of view.old) memory.now }
    requires stays { (leaf : ℕ) → leaf < leaf_count_of view.old → answer_of view.old leaf (slice_index_or (row_held view.old memory.now row) leaf (pos 0))
        ≡ Ok (slice_index_or (row_held view.old memory.now row) leaf (pos 0)) }
    ensures stored { through ≡ true → view.new ≡ after_stores view.old
        (slice_set view.old.rows row (with_held (map setting_of sets.now) (row_held view.old memory.now row) (slice_index_or view.old.rows row [])))
        (stores_log row (map setting_of sets.now)) }
    ensures left { through ≡ false → view.new ≡ view.old }
{
    if !through {
        return;
    }
    store_row(view, sets, memory, row, steps);
}

// Stores each leaf that is set of a row, as a memory has it. Each is a value that the view takes as it is.
fn store_row<L: Ledger>(
    view: &mut View,
    sets: &[Assign],
    memory: &[Blob],
    row: u64,
    steps: &mut Steps<L>,
)
    requires sets { All (IsSetOf view.old) sets.now }
    requires row_in { row < length view.old.rows }
    requires sized { AreSized (owners_of view.old) memory.now }
    requires stays { (leaf : ℕ) → leaf < leaf_count_of view.old → answer_of view.old leaf (slice_index_or (row_held view.old memory.now row) leaf (pos 0))
        ≡ Ok (slice_index_or (row_held view.old memory.now row) leaf (pos 0)) }
    ensures { view.new ≡ after_stores view.old
        (slice_set view.old.rows row (with_held (map setting_of sets.now) (row_held view.old memory.now row) (slice_index_or view.old.rows row [])))
        (stores_log row (map setting_of sets.now)) }
{
    let mut buffer = [0; 64];
    let values = &mut buffer[..view.schema().leaf_count()];
    read_held(view, memory, row, values);
    for set in sets {
        let _taken = view.set(row, set.leaf, values[set.leaf], steps);
    }
}
