// `update V where .. set .. = .., .. actors [..] schedule S turns N`.
ghost use Rattle.std.specs.Prelude.{◌≡◌, ◌<◌, ◌≤◌, ◌+◌, ◌^◌, All, [], IfOk, IfErr, OnErr, OnOk, length, map, not, nat_lt, option_map};
ghost use Rattle.view_commands.specs.Imports.{AreCuts, actor_of, are_cuts, next, schedule_of, shared_byte, without_counts, started_run, after_turns, IsUpdated, reads_in, owners_of, after_log, term_of, Writes, assignment_of, IsSetOf, setting_of, updated_of, update_log, updated_by_actors, fit_cuts, shared, memory_text, each_once, leaves_of, done_to, ok_or, refused_by, refused_if, small, update_fault, Gives, GivesUp};
ghost use Rattle.view_commands.specs.Inner.Answers.{Answers, IsLeft};
ghost use Rattle.view_commands.specs.Inner.Teams.{IsTeamOf, bindings_of, shared_out, acted};

use crate::assign::widened;
use crate::change::in_words;
use crate::faults::update_fault;
use crate::show::check_small;
use crate::update::{bound_filter, bound_sets, each_once};
use crate::work::Work;
use actors::{ActorFault, ActorRun, Assign, CutFault, check_cuts};
use arrayvec::ArrayVec;
use command_checks::StepFault;
use expr_lang::{Bound, Expr};
use instrument::write_bytes;
use layout_io::{Failed, Sink};
use line_grammar::{IndexWords, SetList};
use places::Mapping;
use record_dim::Steps;
use std::alloc::Global;
use std::sync::ledger::Ledger;
use views::View;
use worlds::{BadActors, CommandFault};

/// The most cuts between the rows of actors.
const MAX_CUTS: usize = 63;

/// The most turns of a schedule.
const MAX_TURNS: u32 = 1 << 20;

/// Stores values in the rows of actors that take turns, and writes the memory in the midst of it.
#[derive(Drop)]
pub struct UpdateByActors<'a> {
    pub filter: &'a Option<Expr>,
    pub sets: &'a SetList,
    pub cuts: &'a IndexWords,
    pub seed: &'a u32,
    pub turns: &'a u32,
}

impl Work for UpdateByActors<'_> {
    ghost does = { λ this table. updated_by_actors table (option_map term_of this.filter.now) (map assignment_of this.sets.now)
        this.cuts.now this.seed.now this.turns.now };

    fn run<K: Sink, L: Ledger>(
        &self,
        alloc: Global,
        view: &mut View,
        out: &mut K,
        steps: &mut Steps<L>,
    ) -> Result<(), StepFault> {
        let team = shared_out(alloc, view, self)?;
        act(alloc, view, &team, *self.seed, *self.turns, out, steps)
    }
}

/// What the words of the update stand for, and the cuts.
#[derive(Drop)]
struct Team {
    filter: Option<Bound>,
    sets: Vec<Assign>,
    cuts: ArrayVec<u64, 63>,
}

// The team, where nothing refuses the update before its values are looked at.
fn shared_out(alloc: Global, view: &View, words: &UpdateByActors<'_>) -> Result<Team, StepFault>
    ensures bound { Gives bindings_of result (shared_out view.now (option_map term_of words.now.filter.now) (map assignment_of words.now.sets.now)
        words.now.cuts.now words.now.turns.now) }
    ensures cuts { IfOk result (λ team. team.cuts.items ≡ words.now.cuts.now) }
    ensures team { IfOk result (IsTeamOf view.now) }
{
    let filter = bound_filter(alloc, view, words.filter)?;
    let sets = bound_sets(alloc, view, words.sets.as_slice())?;
    check_once(alloc, view, sets.as_slice())?;
    let cuts = fit_cuts(view, words.cuts.as_slice())?;
    check_turns(*words.turns)?;
    check_small(view)?;
    check_apart(alloc, view, cuts.as_slice())?;
    Ok(Team { filter, sets, cuts })
}

// That no leaf is set a second time, in the words of a script.
fn check_once(alloc: Global, view: &View, sets: &[Assign]) -> Result<(), StepFault>
    requires { All (IsSetOf view.now) sets.now }
    ensures once { Gives (λ done. tt) result (each_once view.now.fields [] (leaves_of (map setting_of sets.now))) }
    ensures few { OnOk result (length sets.now ≤ 64) }
{
    match each_once(view, sets) {
        Ok(()) => Ok(()),
        Err(fault) => Err(in_words(alloc, view, fault)?),
    }
}

// The cuts, where there are not too many, they do not fall, and none is over the number of rows.
fn fit_cuts(view: &View, cuts: &[u32]) -> Result<ArrayVec<u64, 63>, StepFault>
    ensures fit { Gives (λ wide. tt) result (refused_if (not (fit_cuts cuts.now (length view.now.rows))) (CommandFault.BadActors BadActors.Cuts)) }
    ensures cuts { IfOk result (λ wide. wide.items ≡ cuts.now) }
{
    if cuts.len() > MAX_CUTS || !are_cuts(cuts, view.extents().count()) {
        return Err(bad_actors(BadActors::Cuts));
    }
    Ok(widened(cuts))
}

// Whether the cuts do not fall, and none is over the number of rows.
fn are_cuts(cuts: &[u32], rows: u64) -> bool
    ensures { result ≡ are_cuts 0 cuts.now rows }
{
    let mut from = 0;
    for cut in cuts {
        if *cut < from {
            return false;
        }
        from = *cut;
    }
    u64::from(from) <= rows
}

// That there are not too many turns.
fn check_turns(turns: u32) -> Result<(), StepFault>
    ensures { Gives (λ done. tt) result (refused_if (nat_lt (2 ^ 20) turns) (CommandFault.BadActors BadActors.Turns)) }
{
    if turns > MAX_TURNS {
        return Err(bad_actors(BadActors::Turns));
    }
    Ok(())
}

fn bad_actors(bad: BadActors) -> StepFault
    ensures { result ≡ StepFault.Command (CommandFault.BadActors bad) }
{
    StepFault::Command(CommandFault::BadActors(bad))
}

// That no byte holds bits of rows of two actors.
fn check_apart(alloc: Global, view: &View, cuts: &[u64]) -> Result<(), StepFault>
    requires cuts { AreCuts 0 cuts.now (length view.now.rows) }
    requires small { small view.now ≡ Ok tt }
    ensures { Gives (λ done. tt) result (refused_by shared (shared_byte (owners_of view.now) (actor_of cuts.now))) }
{
    match check_cuts(alloc, view, cuts) {
        Ok(()) => Ok(()),
        Err(CutFault::SharedByte { blob, byte }) => {
            let blob = blob as u64;
            Err(StepFault::Command(CommandFault::SharedByte { blob, byte }))
        }
        Err(CutFault::NoMemory) => Err(StepFault::NoMemory),
    }
}

// Lets the actors of a team take their turns, writes the memory, and stores what they make of it in the end.
fn act<K: Sink, L: Ledger>(
    alloc: Global,
    view: &mut View,
    team: &Team,
    seed: u32,
    turns: u32,
    out: &mut K,
    steps: &mut Steps<L>,
) -> Result<(), StepFault>
    requires { IsTeamOf view.old team.now }
    ensures answers { Answers (IsLeft view.new) K.taken K.faults out.old out.new
        (done_to view.old (acted view.old (bindings_of team.now) team.now.cuts.items seed turns)) result }
    ensures kept { OnErr result (view.new ≡ record view.old { tally = view.new.tally }) }
{
    let mut run = started(alloc, view, team, steps)?;
    let actors = team.cuts.len() as u64 + 1;
    take_turns(&mut run, view, actors, seed, turns);
    write_memory(&run, view.map().blob_count(), out)?;
    run.finish(view);
    run.store_back(view, steps);
    Ok(())
}

// The actors of a team before their first step.
fn started<'a, L: Ledger>(
    alloc: Global,
    view: &mut View,
    team: &'a Team,
    steps: &mut Steps<L>,
) -> Result<ActorRun<'a>, StepFault>
    requires { IsTeamOf view.old team.now }
    ensures run { IfOk result (λ run. run ≡ started_run view.old (bindings_of team.now).test (bindings_of team.now).settings team.now.cuts.items) }
    ensures updated { OnOk result (IsUpdated (updated_of view.old (bindings_of team.now).test (bindings_of team.now).settings (length view.old.rows))) }
    ensures read { OnOk result (view.new ≡ after_log view.old (reads_in
        (update_log view.old (bindings_of team.now).test (bindings_of team.now).settings (length view.old.rows)))) }
    ensures stands { OnErr result (view.new ≡ record view.old { tally = view.new.tally }) }
    ensures refused { IfErr result (GivesUp (ok_or (update_fault view.old.fields)
        (updated_of view.old (bindings_of team.now).test (bindings_of team.now).settings (length view.old.rows)))) }
{
    let filter = team.filter.as_ref();
    let sets = team.sets.as_slice();
    match ActorRun::new(alloc, view, filter, sets, team.cuts.as_slice(), steps) {
        Ok(run) => Ok(run),
        Err(ActorFault::Update(fault)) => Err(in_words(alloc, view, update_fault(fault))?),
        Err(ActorFault::NoMemory) => Err(StepFault::NoMemory),
    }
}

// So many turns of the schedule of a seed.
fn take_turns(run: &mut ActorRun<'_>, view: &View, actors: u64, seed: u32, turns: u32)
    requires actors { actors ≡ length run.old.cuts + 1 }
    requires view { without_counts view.now ≡ run.old.found }
    ensures { run.new ≡ after_turns run.old (schedule_of actors seed turns) }
{
    let mut x = u64::from(seed) % (1 << 31);
    for _turn in 0..turns {
        x = next(x);
        let actor = x / 65_536 % actors;
        let _moved = run.turn(view, actor as usize);
    }
}

// The number that the generator makes of another.
fn next(x: u64) -> u64
    requires { x < 2 ^ 31 }
    ensures next { result ≡ next x }
    ensures below { result < 2 ^ 31 }
{
    (x * 1_103_515_245 + 12_345) % (1 << 31)
}

// Writes the bytes of all blobs.
fn write_memory<K: Sink>(run: &ActorRun<'_>, blobs: usize, out: &mut K) -> Result<(), Failed>
    requires there { blobs ≡ length (owners_of run.now.found) }
    requires all { blobs ≡ length run.now.state.memory }
    ensures { Writes K.taken K.faults out.old out.new result (memory_text run.now.state.memory) }
{
    for blob in 0..blobs {
        let blob = run.memory(blob);
        blob.bytes_law();
        write_bytes(blob, out)?;
    }
    Ok(())
}
