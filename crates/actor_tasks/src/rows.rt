// The next byte of the rows of an actor.
ghost use Rattle.std.specs.Prelude.{ℕ, ◌≡◌, ◌+◌, ◌<◌, ◌≤◌, All, IfSome, length};
ghost use Rattle.actor_tasks.specs.Imports.{IsByte, Job};
ghost use Rattle.actor_tasks.specs.Marks.{AreRowsOf, IsRowsNext};
ghost use Rattle.actor_tasks.specs.declared.rows.Asks.{Asks};

use crate::tasks::next_in_row;
use actor_steps::Place;
use places::Mapping;

/// What a row of an update asks for.
#[derive(Clone, Copy)]
pub struct Asks {
    /// The leaves that it reads.
    pub reads: [bool; 64],
    /// Whether the filter lets it through, so that leaves of it are set.
    pub through: bool,
}

/// Rows of an update that tell what they ask for.
pub trait AskingRows {
    ghost row_count: { Self → ℕ };

    ghost asks_of: { Self → ℕ → Asks };

    /// What a row asks for.
    fn asks(&self, row: u64) -> Asks
        requires { row < row_count self.now }
        ensures { result ≡ asks_of self.now row };
}

/// A byte that is touched next: the row and the number of the task for which it is, and its place.
#[derive(Clone, Copy)]
pub struct NextByte {
    pub row: u64,
    pub task: usize,
    pub place: Place,
}

/// The next byte of the rows from one up to, and without, an end: of the tasks of this row from one of them on, of that from a place on, and
/// then of all tasks of each later row.
pub fn next_in_rows<M: Mapping, R: AskingRows>(
    mapping: &M,
    sets: &[usize],
    rows: &R,
    row: u64,
    end: u64,
    done: usize,
    from: Place,
) -> Option<NextByte>
    requires rows_in { end ≤ M.slot_count mapping.now }
    requires asked_in { end ≤ R.row_count rows.now }
    requires few { length (M.cell_list mapping.now) ≤ 64 }
    requires short { length sets.now ≤ 64 }
    requires done_in { done ≤ length (M.cell_list mapping.now) + length sets.now }
    requires sets_in { All (λ leaf. leaf < length (M.cell_list mapping.now)) sets.now }
    ensures next { (job : Job) → AreRowsOf job (M.layout mapping.now) (length (M.cell_list mapping.now)) sets.now (R.asks_of rows.now) end
        → IsRowsNext job row end done from result }
    ensures row_from { IfSome result (λ next. row ≤ next.row) }
    ensures row_in { IfSome result (λ next. next.row < end) }
    ensures task_in { IfSome result (λ next. next.task < length (M.cell_list mapping.now) + length sets.now) }
    ensures inside { IfSome result (λ next. IsByte (M.layout mapping.now) next.place) }
{
    let mut first = done;
    let mut begin = from;
    for at in row..end {
        let asks = rows.asks(at);
        if let Some((task, place)) = next_in_row(
            mapping,
            sets,
            &asks.reads,
            asks.through,
            at,
            first,
            begin,
        ) {
            return Some(NextByte {
                row: at,
                task,
                place,
            });
        }
        first = 0;
        begin = Place { blob: 0, byte: 0 };
    }
    None
}
