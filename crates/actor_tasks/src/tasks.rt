// The next place of the tasks of a row.
ghost use Rattle.std.specs.Prelude.{◌+◌, ◌<◌, ◌≤◌, All, IfSome, length};
ghost use Rattle.actor_tasks.specs.Imports.{IsByte, Job};
ghost use Rattle.actor_tasks.specs.Marks.{IsRowOf, IsTaskNext, IsRowNext, task_at};

use crate::heads::leaf_byte;
use actor_steps::Place;
use places::Mapping;

/// The next place of a task: a leaf that the row may read, or, behind all leaves, one that is set.
pub fn task_byte<M: Mapping>(
    mapping: &M,
    sets: &[usize],
    asked: &[bool; 64],
    through: bool,
    row: u64,
    task: usize,
    from: Place,
) -> Option<Place>
    requires row_in { row < M.slot_count mapping.now }
    requires few { length (M.cell_list mapping.now) ≤ 64 }
    requires task_in { task < length (M.cell_list mapping.now) + length sets.now }
    requires sets_in { All (λ leaf. leaf < length (M.cell_list mapping.now)) sets.now }
    ensures next { (job : Job) → IsRowOf job (M.layout mapping.now) (length (M.cell_list mapping.now)) sets.now asked.now through row
        → IsTaskNext job row from (task_at job task) result }
    ensures inside { IfSome result (IsByte (M.layout mapping.now)) }
{
    let leaves = mapping.cells();
    if task < leaves {
        if !asked[task] {
            return None;
        }
        return leaf_byte(mapping, row, task, from);
    }
    if !through {
        return None;
    }
    leaf_byte(mapping, row, sets[task - leaves], from)
}

/// The next place of the tasks of a row from one of them on, of that from a place on: its task, and the place.
pub fn next_in_row<M: Mapping>(
    mapping: &M,
    sets: &[usize],
    asked: &[bool; 64],
    through: bool,
    row: u64,
    done: usize,
    from: Place,
) -> Option<(usize, Place)>
    requires row_in { row < M.slot_count mapping.now }
    requires few { length (M.cell_list mapping.now) ≤ 64 }
    requires short { length sets.now ≤ 64 }
    requires done_in { done ≤ length (M.cell_list mapping.now) + length sets.now }
    requires sets_in { All (λ leaf. leaf < length (M.cell_list mapping.now)) sets.now }
    ensures next { (job : Job) → IsRowOf job (M.layout mapping.now) (length (M.cell_list mapping.now)) sets.now asked.now through row
        → IsRowNext job row done from result }
    ensures task_in { IfSome result (λ next. next.0 < length (M.cell_list mapping.now) + length sets.now) }
    ensures inside { IfSome result (λ next. IsByte (M.layout mapping.now) next.1) }
{
    let mut at = from;
    for task in done..mapping.cells() + sets.len() {
        if let Some(place) = task_byte(mapping, sets, asked, through, row, task, at) {
            return Some((task, place));
        }
        at = Place { blob: 0, byte: 0 };
    }
    None
}
