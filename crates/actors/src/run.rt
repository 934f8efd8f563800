// Runs of the actors of an update.
ghost use Rattle.std.specs.Prelude.{ℤ, List, ◌≡◌, ◌<◌, ◌≤◌, ◌+◌, ◌*◌, All, None, false, [], ◌∷◌, IfOk, IfErr, OnOk, OnErr, IfSome, length, map, sum_by, slice_index_or};
ghost use Rattle.actors.specs.Imports.{update_log, IsBoundOver, IsSetOf, filter_term, setting_of, updated_of, after_log, owners_of, reads_in, AreCuts, actor_of, IsParted, turns_left, shared_byte};
ghost use Rattle.actors.specs.RunFields.{IsReached};
ghost use Rattle.actors.specs.ActorRuns.{IsDone, IsPlain, IsStoredBack, without_counts, started_run, after_turns, finished_from, rest_in, has_any};
ghost use Rattle.actors.specs.Updates.{HasRead, IsMet, IsUpdated};

use crate::actor::{Actor, turn_of};
use crate::back::store_rows;
use crate::fault::ActorFault;
use crate::memory::{copied_blobs, fresh_blobs, laws_of_view};
use crate::plan::{Plans, plan_rows};
use crate::team::{targets_of, team_of};
use actor_steps::schedules_agree;
use blobs::Blob;
use expr_lang::Bound;
use extents::Extents;
use map_expr::MapExpr;
use record_dim::{Schema, Steps};
use row_updates::Assign;
use std::alloc::Global;
use std::marker::Model;
use std::sync::ledger::Ledger;
use views::{BlobList, StoreMode, View};

/// An update of a view whose rows are split among actors. It keeps copies of the view's schema, extents, expression, mode and blobs as they were
/// found, and a memory of its own, which begins as these blobs: nothing of the view changes before [`store_back`](ActorRun::store_back).
#[derive(Drop)]
pub struct ActorRun<'a> {
    schema: Schema,
    extents: Extents,
    expr: MapExpr,
    mode: StoreMode,
    /// The blobs of the view as they were found.
    found: BlobList,
    filter: Option<&'a Bound>,
    sets: &'a [Assign],
    cuts: Vec<u64>,
    /// The leaves that are set.
    targets: Vec<usize>,
    /// What the update asks of each row.
    plans: Plans,
    memory: BlobList,
    /// Bytes of the lengths of the blobs that say nothing.
    scratch: BlobList,
    actors: Vec<Actor>,
}

impl<'a> Model for ActorRun<'a> {
    ghost use Rattle.std.specs.Coded.{codes};
    ghost use Rattle.record_dim.specs.Inner.Codes.{coded_fields};
    ghost use Rattle.map_expr.specs.Inner.Codes.{coded_term};
    ghost use Rattle.actors.specs.Inner.Codes.{coded_value};
    ghost use Rattle.actors.specs.ActorRuns.{Run};

    ghost Value = { Run };

    ghost coded = { Prim.hlevel (codes, coded_fields, coded_term, coded_value) };

    ghost use Rattle.record_dim.specs.Schemas.{schema_fields};
    ghost use Rattle.map_expr.specs.Terms.{term_of};
    ghost use Rattle.row_updates.specs.Rows.{filter_term};
    ghost use Rattle.actors.specs.RunFields.{table_at, actor_run_of, IsActorRun};

    ghost view = { λ r. actor_run_of (table_at (schema_fields r.schema) r.extents (term_of r.expr) r.mode r.found.items) (filter_term r.filter) r.sets.now r.cuts.items
        r.memory.items r.actors.items };

    ghost invariant = { λ r. IsActorRun (table_at (schema_fields r.schema) r.extents (term_of r.expr) r.mode r.found.items) (filter_term r.filter) r.sets.now r.cuts.items
        r.memory.items r.scratch.items r.plans.rows.items r.targets.items r.actors.items };
}

impl<'a> ActorRun<'a> {
    /// A run whose memory begins as the view's blobs, and whose actors have the rows between the cuts. No byte of the view holds bits of rows of
    /// two actors. `Update` comes exactly where the plain update would meet this fault. The table stands on each answer. Exactly the reads of the
    /// plain update are counted where there is a run, those up to the named row on a fault, and those of some first rows where memory ran out.
    pub fn new<L: Ledger>(
        alloc: Global,
        view: &mut View,
        filter: Option<&'a Bound>,
        sets: &'a [Assign],
        cuts: &[u64],
        steps: &mut Steps<L>,
    ) -> Result<ActorRun<'a>, ActorFault>
        requires filter { IfSome filter (λ bound. IsBoundOver view.old bound.now) }
        requires sets { All (IsSetOf view.old) sets.now }
        requires few { length sets.now ≤ 64 }
        requires cuts { AreCuts 0 cuts.now (length view.old.rows) }
        requires actors { length cuts.now ≤ 63 }
        requires small { sum_by length (owners_of view.old) ≤ 8 * 65536 }
        requires apart { shared_byte (owners_of view.old) (actor_of cuts.now) ≡ None }
        ensures begun { IfOk result (λ run. run ≡ started_run view.old (filter_term filter.entry) (map setting_of sets.now) cuts.now) }
        ensures updated { OnOk result (IsUpdated (updated_of view.old (filter_term filter.entry) (map setting_of sets.now) (length view.old.rows))) }
        ensures read { OnOk result (view.new ≡ after_log view.old
            (reads_in (update_log view.old (filter_term filter.entry) (map setting_of sets.now) (length view.old.rows)))) }
        ensures refused { IfErr result (IsMet (updated_of view.old (filter_term filter.entry) (map setting_of sets.now) (length view.old.rows))) }
        ensures stands { OnErr result (view.new ≡ record view.old { tally = view.new.tally }) }
        ensures so_far { IfErr result (HasRead view.old (filter_term filter.entry) (map setting_of sets.now) view.new) }
    {
        laws_of_view(view);
        let found = copied_blobs(alloc, view)?;
        let plans = plan_rows(alloc, view, found.as_slice(), filter, sets, steps)?;
        let schema = view.schema().copy(alloc)?;
        let expr = view.expr().copy(alloc)?;
        let memory = copied_blobs(alloc, view)?;
        let scratch = fresh_blobs(alloc, view)?;
        let targets = targets_of(alloc, sets)?;
        let actors = team_of(alloc, view, cuts)?;
        let cuts = Vec::from_slice(alloc, cuts)?;
        Ok(ActorRun {
            schema,
            extents: view.extents(),
            expr,
            mode: view.mode(),
            found,
            filter,
            sets,
            cuts,
            targets,
            plans,
            memory,
            scratch,
            actors,
        })
    }

    /// Makes an actor's next micro-step. It is false exactly where the actor has none left, and then nothing changes. The view is as the run
    /// found it.
    pub fn turn(&mut self, view: &View, actor: usize) -> bool
        requires actor { actor ≤ length self.old.cuts }
        requires view { without_counts view.now ≡ self.old.found }
        ensures made { result ≡ has_any (rest_in self.old actor) }
        ensures turned { self.new ≡ after_turns self.old (actor ∷ []) }
        ensures none { result ≡ false → self.new ≡ self.old }
    {
        turn_of(
            view,
            self.sets,
            self.targets.as_slice(),
            &self.plans,
            &mut self.memory,
            &mut self.scratch,
            &mut self.actors[actor],
        )
    }

    /// Makes the micro-steps that are left, actor by actor. Then no actor has one left, and the memory is that of the blobs that the plain update
    /// leaves, byte for byte. The view is as the run found it.
    pub fn finish(&mut self, view: &View)
        requires view { without_counts view.now ≡ self.old.found }
        ensures finished { self.new ≡ after_turns self.old (turns_left self.old.state) }
        ensures done { IsDone self.new }
        ensures plain { IsPlain self.new }
    {
        schedules_agree();
        self.law();
        for actor in 0..self.actor_count() {
            self.finish_actor(view, actor);
        }
    }

    /// A blob of the memory.
    pub fn memory(&self, blob: usize) -> &Blob
        requires { blob < length (owners_of self.now.found) }
        ensures { result.now ≡ slice_index_or self.now.state.memory blob [] }
    {
        &self.memory[blob]
    }

    /// Sets each leaf that is set of each row that the filter lets through to the reading of the memory, and counts one write of each. No actor has
    /// a micro-step left, and the view is as the run found it. Then its table is that of the plain update.
    pub fn store_back<L: Ledger>(&self, view: &mut View, steps: &mut Steps<L>)
        requires view { without_counts view.old ≡ self.now.found }
        requires done { IsDone self.now }
        ensures { IsStoredBack view.old self.now.filter self.now.sets view.new }
    {
        schedules_agree();
        self.law();
        store_rows(
            view,
            self.filter,
            self.sets,
            &self.plans,
            self.memory.as_slice(),
            steps,
        );
    }

    // Makes what one actor has left, so that all that is left is what those behind it have.
    fn finish_actor(&mut self, view: &View, actor: usize)
        requires actor { actor ≤ length self.old.cuts }
        requires view { without_counts view.now ≡ self.old.found }
        ensures left { finished_from (actor + 1) self.new ≡ finished_from actor self.old }
        ensures same { self.new ≡ record self.old { state = self.new.state } }
        ensures count { length self.new.state.actors ≡ length self.old.state.actors }
    {
        self.law();
        while self.turn(view, actor) {}
    }

    // The number of actors.
    fn actor_count(&self) -> usize
        ensures { result ≡ length self.now.state.actors }
    {
        self.actors.len()
    }

    // What holds of each run. It does nothing: its contract is the law.
    fn law(&self)
        ensures parted { (rows : List (List ℤ)) × IsParted self.now.found self.now.filter self.now.sets self.now.cuts rows }
        ensures reached { IsReached self.now }
        ensures actors { length self.now.state.actors ≡ length self.now.cuts + 1 }
    {
        let _cuts = &self.cuts;
    }
}
