// Commands that work on one view.
ghost use Rattle.std.specs.Prelude.{List};
ghost use Rattle.session.specs.Imports.{on_view, found, RecordEntry, MappingEntry, Answers, Within};
ghost use Rattle.session.specs.Bounds.{most_on};
ghost use Rattle.session.specs.Stands.{AreLeft, world_in};

use command_checks::{StepFault, ViewList, known_view};
use layout_io::Sink;
use record_dim::{Name, Steps};
use std::alloc::Global;
use std::sync::ledger::Ledger;
use view_commands::Work;

/// Works on the view of a name, whatever records and mappings there are beside the views.
#[tactic(auto, unfolding(worlds::specs::OnView::on_view))]
pub(crate) fn work_on<W: Work, K: Sink, L: Ledger>(
    alloc: Global,
    views: &mut ViewList,
    name: Name,
    work: &W,
    out: &mut K,
    steps: &mut Steps<L>,
) -> Result<(), StepFault>
    ensures answers { (records : List RecordEntry) (mappings : List MappingEntry)
        → Answers (AreLeft records mappings views.new.items) K.taken K.faults out.old out.new
        (on_view (world_in records mappings views.old.items) name (W.does work.now)) result }
    ensures bound { (records : List RecordEntry) (mappings : List MappingEntry)
        → Within (most_on (found name (world_in records mappings views.old.items).views) (W.most work.now)) steps.old steps.new }
{
    let place = known_view(views.as_slice(), name)?;
    let view = &mut views[place].view;
    work.run(alloc, view, out, steps)
}
