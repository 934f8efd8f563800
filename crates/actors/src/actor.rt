// Actors, and one turn of one of them.
ghost use Rattle.std.specs.Prelude.{◌≡◌, ◌<◌, ◌≤◌, All, None, Option, [], length, map};
ghost use Rattle.actors.specs.Imports.{job_of, row_in, stored, loaded, value_kept_on, AreSized, Term, IsSetOf, setting_of, owners_of};
ghost use Rattle.std.specs.Prelude.{ℕ};
ghost use Rattle.actors.specs.Rows.{ArePlans};
ghost use Rattle.actors.specs.Standing.{IsStanding, IsStepOf, IsTurn, bytes_shown, step_shown};

use crate::memory::{byte_at, changed_byte, laws_of_view, put_byte, read_held};
use crate::noted::value_at;
use crate::plan::Plans;
use crate::step::{Cursor, Step, next_step};
use blobs::Blob;
use row_updates::Assign;
use views::{BlobList, View};

/// The registers of an actor.
#[derive(Drop)]
pub struct Bytes {
    /// The bytes that were loaded for values, each at its own place.
    pub loaded: BlobList,
    /// The byte that is to be changed.
    pub byte: u8,
}

/// An actor: how far it is, and its registers.
#[derive(Drop)]
pub struct Actor {
    pub cursor: Cursor,
    pub bytes: Bytes,
}

// The value that a set stores in a row, worked out from the bytes that were loaded.
fn value_of(view: &View, loaded: &[Blob], row: u64, set: &Assign) -> i128
    requires set { IsSetOf view.now set.now }
    requires sized { AreSized (owners_of view.now) loaded.now }
    requires row_in { row < length view.now.rows }
    ensures { result ≡ value_kept_on (job_of view.now None []) (row_in (job_of view.now None []) loaded.now row) row (setting_of set.now) }
{
    laws_of_view(view);
    let mut buffer = [0; 64];
    let values = &mut buffer[..view.schema().leaf_count()];
    read_held(view, loaded, row, values);
    let mut asked = [false; 64];
    view.kept(
        set.leaf,
        value_at(view, &set.value, row, values, &mut asked),
    )
}

// Makes a micro-step: memory and registers are those behind it.
fn make_step(
    view: &View,
    sets: &[Assign],
    step: Step,
    memory: &mut BlobList,
    scratch: &mut BlobList,
    bytes: &mut Bytes,
)
    requires step { IsStepOf (owners_of view.now) (length view.now.rows) (length sets.now) step }
    requires sets { All (IsSetOf view.now) sets.now }
    requires memory { AreSized (owners_of view.now) memory.old.items }
    requires scratch { AreSized (owners_of view.now) scratch.old.items }
    requires loaded { AreSized (owners_of view.now) bytes.old.loaded.items }
    ensures stored { let job = job_of view.now None (map setting_of sets.now) in
        memory.new.items ≡ stored job (step_shown job step) memory.old.items (bytes_shown bytes.old) }
    ensures loaded { let job = job_of view.now None (map setting_of sets.now) in
        bytes_shown bytes.new ≡ loaded job (step_shown job step) memory.old.items (bytes_shown bytes.old) }
    ensures memory_sized { AreSized (owners_of view.now) memory.new.items }
    ensures scratch_sized { AreSized (owners_of view.now) scratch.new.items }
    ensures loaded_sized { AreSized (owners_of view.now) bytes.new.loaded.items }
{
    laws_of_view(view);
    match step {
        Step::Fetch(place) => put_byte(&mut bytes.loaded, place, byte_at(memory, place)),
        Step::Load(place) => bytes.byte = byte_at(memory, place),
        Step::Store { place, row, set } => {
            let set = &sets[set];
            let value = value_of(view, &bytes.loaded, row, set);
            let byte = changed_byte(view.map(), scratch, place, row, set.leaf, value, bytes.byte);
            put_byte(memory, place, byte);
        }
    }
}

/// Makes the next micro-step of an actor, and tells whether it had one. `targets` are the leaves that are set.
pub fn turn_of(
    view: &View,
    sets: &[Assign],
    targets: &[usize],
    plans: &Plans,
    memory: &mut BlobList,
    scratch: &mut BlobList,
    actor: &mut Actor,
) -> bool
    requires sets { All (IsSetOf view.now) sets.now }
    requires targets { targets.now ≡ map (λ set. set.leaf) sets.now }
    requires few { length targets.now ≤ 64 }
    requires planned { length plans.now.rows.items ≡ length view.now.rows }
    requires memory { AreSized (owners_of view.now) memory.old.items }
    requires scratch { AreSized (owners_of view.now) scratch.old.items }
    requires actor { IsStanding view.now (length targets.now) actor.old }
    ensures turn { (filter : Option (Term ℕ)) → ArePlans (job_of view.now filter (map setting_of sets.now)) (length view.now.rows) plans.now.rows.items
        → IsTurn (job_of view.now filter (map setting_of sets.now)) memory.old.items actor.old result memory.new.items actor.new }
    ensures memory_sized { AreSized (owners_of view.now) memory.new.items }
    ensures scratch_sized { AreSized (owners_of view.now) scratch.new.items }
    ensures standing { IsStanding view.now (length targets.now) actor.new }
{
    laws_of_view(view);
    let Some(step) = next_step(view.map(), targets, plans, &mut actor.cursor) else {
        return false;
    };
    make_step(view, sets, step, memory, scratch, &mut actor.bytes);
    true
}
