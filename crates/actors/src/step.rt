// Where an actor stands in its rows, and its next micro-step.
ghost use Rattle.std.specs.Prelude.{◌≡◌, ◌<◌, ◌≤◌, All, IfSome, length};
ghost use Rattle.actors.specs.Imports.{IsByte, Job, AreRowsOf, byte_behind};
ghost use Rattle.actors.specs.Rows.{asks_at};
ghost use Rattle.actors.specs.Standing.{IsCursor, IsStepOf, IsStepNext};

use crate::plan::Plans;
use actor_steps::Place;
use actor_tasks::{behind, next_in_rows};
use places::Mapping;

/// How far an actor is in its rows.
#[derive(Clone, Copy)]
pub struct Cursor {
    /// The row that it is at.
    pub row: u64,
    /// The row behind its last one.
    pub end: u64,
    /// How many tasks of the row are done.
    pub done: usize,
    /// The byte from which on the next one is looked for.
    pub from: Place,
    /// Whether this byte was loaded to be changed, so that its store comes next.
    pub half: bool,
}

/// A micro-step: it loads a byte for values, loads one that is to be changed, or stores it with the bits of a leaf of a row changed.
#[derive(Clone, Copy)]
pub enum Step {
    Fetch(Place),
    Load(Place),
    Store { place: Place, row: u64, set: usize },
}

/// The next micro-step of a cursor, which moves behind it. `targets` are the leaves that are set.
pub fn next_step<M: Mapping>(
    mapping: &M,
    targets: &[usize],
    plans: &Plans,
    cursor: &mut Cursor,
) -> Option<Step>
    requires cursor { IsCursor (M.layout mapping.now) (M.slot_count mapping.now) (length (M.cell_list mapping.now)) (length targets.now) cursor.old }
    requires planned { cursor.old.end ≤ length plans.now.rows.items }
    requires few { length (M.cell_list mapping.now) ≤ 64 }
    requires short { length targets.now ≤ 64 }
    requires targets_in { All (λ leaf. leaf < length (M.cell_list mapping.now)) targets.now }
    ensures next { (job : Job) → AreRowsOf job (M.layout mapping.now) (length (M.cell_list mapping.now)) targets.now (asks_at plans.now.rows.items) cursor.old.end
        → IsStepNext job cursor.old result cursor.new }
    ensures step { IfSome result (IsStepOf (M.layout mapping.now) (M.slot_count mapping.now) (length targets.now)) }
    ensures cursor { IsCursor (M.layout mapping.now) (M.slot_count mapping.now) (length (M.cell_list mapping.now)) (length targets.now) cursor.new }
    ensures same_end { cursor.new.end ≡ cursor.old.end }
{
    let leaves = mapping.cells();
    if cursor.half {
        let step = Step::Store {
            place: cursor.from,
            row: cursor.row,
            set: cursor.done - leaves,
        };
        cursor.from = place_behind(mapping, cursor.from);
        cursor.half = false;
        return Some(step);
    }
    let Some(next) = next_in_rows(
        mapping,
        targets,
        plans,
        cursor.row,
        cursor.end,
        cursor.done,
        cursor.from,
    ) else {
        // rows that ask for no more are not gone through again
        cursor.row = cursor.end;
        return None;
    };
    cursor.row = next.row;
    cursor.done = next.task;
    if next.task < leaves {
        cursor.from = place_behind(mapping, next.place);
        return Some(Step::Fetch(next.place));
    }
    cursor.from = next.place;
    cursor.half = true;
    Some(Step::Load(next.place))
}

// The place behind a byte.
fn place_behind<M: Mapping>(mapping: &M, place: Place) -> Place
    requires { IsByte (M.layout mapping.now) place }
    ensures { result ≡ byte_behind place }
{
    let _bytes = mapping.blob_bytes(place.blob);
    behind(place)
}
