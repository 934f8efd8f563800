// Commands that show something of one view.
ghost use Rattle.std.specs.Prelude.{ℕ, ◌≡◌, Bool, true, Option, None, OnErr};
ghost use Rattle.view_commands.specs.Imports.{Table, Done, done_to, Tested};
ghost use Rattle.view_commands.specs.Inner.Answers.{Answers, IsLeft};
ghost use Rattle.view_commands.specs.Steps.{Within};

use command_checks::StepFault;
use layout_io::Sink;
use record_dim::Steps;
use std::alloc::Global;
use std::sync::ledger::Ledger;
use views::View;

/// What works on one view and writes.
pub trait Work {
    // What it does to a table.
    ghost does: { Self → Table → Tested Done };

    // The most steps that it takes on a table, where something is said of them.
    ghost most: { Self → Table → Option ℕ } = { λ this table. None };

    // Whether the rows stay where it is refused.
    ghost stays: { Self → Bool } = { λ this. true };

    /// Works on a view, and writes what there is to show.
    fn run<K: Sink, L: Ledger>(
        &self,
        alloc: Global,
        view: &mut View,
        out: &mut K,
        steps: &mut Steps<L>,
    ) -> Result<(), StepFault>
        ensures answers { Answers (IsLeft view.new) K.taken K.faults out.old out.new
            (done_to view.old (does self.now view.old)) result }
        ensures kept { stays self.now ≡ true → OnErr result (view.new ≡ record view.old { tally = view.new.tally }) }
        ensures steps { Within (most self.now view.old) steps.old steps.new };
}
