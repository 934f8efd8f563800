// The actors of a run before their first micro-step, and the leaves that it sets.
ghost use Rattle.std.specs.Prelude.{ℕ, ◌≡◌, ◌+◌, IfOk, length, map};
ghost use Rattle.actors.specs.Imports.{AreCuts, parts_from, team_of, fresh_of, Job};
ghost use Rattle.actors.specs.RunFields.{AreStanding};
ghost use Rattle.actors.specs.Standing.{IsFresh, actor_shown};

use crate::actor::{Actor, Bytes};
use crate::memory::{fresh_blobs, laws_of_view};
use crate::step::Cursor;
use actor_steps::Place;
use row_updates::Assign;
use std::alloc::{AllocError as NoMemory, Global};
use views::View;

/// The leaves that are set, in order.
pub fn targets_of(alloc: Global, sets: &[Assign]) -> Result<Vec<usize>, NoMemory>
    ensures { IfOk result (λ targets. targets.items ≡ map (λ set. set.leaf) sets.now) }
{
    let mut targets = Vec::new(alloc);
    for set in sets {
        targets.push(set.leaf)?;
    }
    Ok(targets)
}

/// The actors of a view whose rows are split at these cuts, each at the start of its rows.
pub fn team_of(alloc: Global, view: &View, cuts: &[u64]) -> Result<Vec<Actor>, NoMemory>
    requires { AreCuts 0 cuts.now (length view.now.rows) }
    ensures shown { IfOk result (λ actors. (job : Job) → map (actor_shown job) actors.items ≡ team_of job (parts_from 0 cuts.now (length view.now.rows)) (fresh_of view.now)) }
    ensures standing { IfOk result (λ actors. (sets : ℕ) → AreStanding view.now sets actors.items) }
    ensures count { IfOk result (λ actors. length actors.items ≡ length cuts.now + 1) }
{
    laws_of_view(view);
    let mut actors = Vec::new(alloc);
    let mut row = 0;
    for cut in cuts {
        actors.push(fresh_actor(alloc, view, row, *cut)?)?;
        row = *cut;
    }
    actors.push(fresh_actor(alloc, view, row, view.extents().count())?)?;
    Ok(actors)
}

// An actor at the start of the rows from one up to, and without, an end. Nothing was loaded.
fn fresh_actor(alloc: Global, view: &View, row: u64, end: u64) -> Result<Actor, NoMemory>
    ensures { IfOk result (IsFresh view.now row end) }
{
    let cursor = Cursor {
        row,
        end,
        done: 0,
        from: Place { blob: 0, byte: 0 },
        half: false,
    };
    let loaded = fresh_blobs(alloc, view)?;
    Ok(Actor {
        cursor,
        bytes: Bytes { loaded, byte: 0 },
    })
}
