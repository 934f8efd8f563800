ghost use Rattle.std.specs.Prelude.{◌≡◌, Bool, true, List, None};
ghost use Rattle.session.specs.Imports.{Rose, File, sentence_of, file_read_by, StepsTo, StepCause, on_view, step, done_by, empty, found};

use crate::view::New;
use crate::work::work_on;
use command_checks::{
    MappingEntry, MappingList, RecordEntry, RecordList, StepFault, ViewEntry, ViewList, live_bytes,
};
use layout_io::{Shelf, Sink};
use line_grammar::Line;
use record_dim::{Name, Steps};
use std::alloc::Global;
use std::sync::ledger::Ledger;
use view_commands::{
    Advise, Assign, Bytes, Count, Counts, Heat, Layout, Print, PrintWindow, Reduce, RunKernel,
    RunStencil, Save, Update, UpdateByActors, Work, Written,
};

/// What a script has named so far.
#[derive(Drop)]
pub struct Session {
    pub(crate) alloc: Global,
    pub(crate) records: RecordList,
    pub(crate) mappings: MappingList,
    pub(crate) views: ViewList,
}

impl Session {
    ghost use Rattle.session.specs.Stands.{Stands, world_of};
    ghost use Rattle.session.specs.Answers.{TookNone, IsFit, IsOnView, ending_of};
    ghost use Rattle.session.specs.Bounds.{WithinSteps, most_on};
    ghost use Rattle.view_commands.specs.Inner.Answers.{Answers};
    ghost use Rattle.view_commands.specs.Steps.{Within};
    ghost use Rattle.session.specs.Loads.{UnreadOnly, ToldFor};

    /// A session that holds nothing.
    pub fn new(alloc: Global) -> Session
        ensures { Stands result empty }
    {
        Session {
            alloc,
            records: RecordList::new(alloc),
            mappings: MappingList::new(alloc),
            views: Vec::new(alloc),
        }
    }

    /// Does one line of a script: the answer is that of the model where the shelf tells its files, or the line comes to read none. `Source` comes
    /// only of a line that reads a file, and whose outcome is that this file can't be read where reading fails. On every refusal the session
    /// is gone.
    #[tactic(auto, using(crate::specs::LoadsLaws::no_file))]
    pub fn step<H: Shelf, K: Sink, L: Ledger>(
        self,
        line: &Line,
        shelf: &mut H,
        out: &mut K,
        steps: &mut Steps<L>,
    ) -> Result<Session, StepFault>
        requires { IsFit line.now }
        ensures step { (files : List File) → ToldFor (H.files shelf.old) (step (world_of self) (sentence_of line.now) files true) files
            → StepsTo (ending_of (file_read_by (sentence_of line.now))) Stands K.taken K.faults out.old out.new (step (world_of self) (sentence_of line.now) files)
            (Rose (H.faults shelf.old) (H.faults shelf.new)) result }
        ensures files { H.files shelf.new ≡ H.files shelf.old }
        ensures cause { StepCause (ending_of (file_read_by (sentence_of line.now))) (H.files shelf.old) (H.faults shelf.old) (H.faults shelf.new) (K.faults out.old) (K.faults out.new) result }
        ensures unread { UnreadOnly (file_read_by (sentence_of line.now)) (step (world_of self) (sentence_of line.now)) result }
        ensures untaken { TookNone K.taken out.old out.new result }
        ensures bound { WithinSteps (world_of self) (sentence_of line.now) steps.old steps.new }
    {
        match line {
            Line::Load {
                name,
                schema,
                words,
                wrap,
                expr,
                file,
            } => {
                let new = New::of(*name, *schema, words, *wrap, expr);
                self.load(&new, file, shelf, steps)
            }
            Line::OpenFile { name, file } => self.open(*name, file, shelf, steps),
            _ => self.command(line, out, steps),
        }
    }

    // Does a line that reads no file.
    fn command<K: Sink, L: Ledger>(
        self,
        line: &Line,
        out: &mut K,
        steps: &mut Steps<L>,
    ) -> Result<Session, StepFault>
        requires fit { IsFit line.now }
        requires no_file { file_read_by (sentence_of line.now) ≡ None }
        ensures answers { Answers Stands K.taken K.faults out.old out.new (done_by (world_of self) (sentence_of line.now)) result }
        ensures bound { WithinSteps (world_of self) (sentence_of line.now) steps.old steps.new }
    {
        match line {
            Line::Blank => Ok(self),
            Line::Define { name, dim } => self.define(*name, dim),
            Line::Mapping { name, expr } => self.mapping(*name, expr),
            Line::View {
                name,
                schema,
                words,
                wrap,
                expr,
            } => self.view(&New::of(*name, *schema, words, *wrap, expr)),
            Line::Copy { source, target } => self.copy(*source, *target, steps),
            Line::Relayout { view, expr } => self.relayout(*view, expr, steps),
            Line::Drop(view) => self.drop_view(*view),
            _ => self.change(line, out, steps),
        }
    }

    // Does a line that works on one view.
    fn change<K: Sink, L: Ledger>(
        mut self,
        line: &Line,
        out: &mut K,
        steps: &mut Steps<L>,
    ) -> Result<Session, StepFault>
        requires { IsOnView line.now }
        ensures answers { Answers Stands K.taken K.faults out.old out.new (done_by (world_of self) (sentence_of line.now)) result }
        ensures bound { WithinSteps (world_of self) (sentence_of line.now) steps.old steps.new }
    {
        match line {
            Line::Assign {
                view,
                index,
                path,
                value,
            } => {
                let work = Written(Assign { index, path, value });
                self.on_view(*view, &work, out, steps)
            },
            Line::Update { view, filter, sets } => {
                self.on_view(*view, &Written(Update { filter, sets }), out, steps)
            }
            Line::Actors {
                view,
                filter,
                sets,
                cuts,
                seed,
                turns,
            } => {
                let work = UpdateByActors {
                    filter,
                    sets,
                    cuts,
                    seed,
                    turns,
                };
                self.on_view(*view, &work, out, steps)
            }
            Line::Kernel {
                view,
                kernel,
                lanes,
            } => self.on_view(*view, &Written(RunKernel { kernel, lanes }), out, steps),
            Line::Stencil {
                view,
                window,
                path,
                terms,
                divisor,
                rounds,
            } => {
                let work = Written(RunStencil {
                    window,
                    path,
                    terms,
                    divisor,
                    rounds,
                    live: live_bytes(self.views.as_slice()),
                });
                self.on_view(*view, &work, out, steps)
            }
            Line::Reduce { view, kind, path } => {
                self.on_view(*view, &Written(Reduce { kind, path }), out, steps)
            }
            Line::Count { view, filter } => {
                self.on_view(*view, &Written(Count { filter }), out, steps)
            }
            Line::Print(view) => self.on_view(*view, &Print, out, steps),
            Line::PrintWindow { view, window } => {
                self.on_view(*view, &PrintWindow { window }, out, steps)
            }
            Line::Counts(view) => self.on_view(*view, &Counts, out, steps),
            Line::Heat(view) => self.on_view(*view, &Heat, out, steps),
            Line::Layout(view) => self.on_view(*view, &Layout, out, steps),
            Line::Bytes { view, blob } => self.on_view(*view, &Bytes { blob }, out, steps),
            Line::SaveView(view) => self.on_view(*view, &Save, out, steps),
            Line::Advise {
                view,
                granule,
                passes,
                maps,
                splits,
            } => {
                let session = &mut self;
                let work = Advise {
                    mappings: &session.mappings,
                    granule,
                    passes,
                    maps,
                    splits,
                };
                work_on(session.alloc, &mut session.views, *view, &work, out, steps)?;
                Ok(self)
            }
            _ => unreachable!(),
        }
    }

    // Does what works on the view of a name.
    fn on_view<W: Work, K: Sink, L: Ledger>(
        mut self,
        name: Name,
        work: &W,
        out: &mut K,
        steps: &mut Steps<L>,
    ) -> Result<Session, StepFault>
        ensures answers { Answers Stands K.taken K.faults out.old out.new (on_view (world_of self) name (W.does work.now)) result }
        ensures bound { Within (most_on (found name (world_of self).views) (W.most work.now)) steps.old steps.new }
    {
        work_on(self.alloc, &mut self.views, name, work, out, steps)?;
        Ok(self)
    }
}

// Every field of a session and of its entries stands here: each live view is kept as a view, and in no other form.
fn every_field(session: &Session) {
    let Session {
        alloc: _,
        records,
        mappings,
        views,
    } = session;
    let RecordList {
        entries: records,
        places: _,
    } = records;
    let MappingList {
        entries: mappings,
        places: _,
    } = mappings;
    for RecordEntry { name: _, schema: _ } in records {}
    for MappingEntry { name: _, expr: _ } in mappings {}
    for ViewEntry { name: _, view: _ } in views {}
}
