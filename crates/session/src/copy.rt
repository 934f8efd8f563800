// `copy V to W`.
ghost use Rattle.std.specs.Prelude.{◌≡◌, ◌+◌, ◌<◌, OnOk, length, map, slice_index_or};
ghost use Rattle.session.specs.Imports.{leaf_count_of, after_log, all_accesses, Read, schema_fields, copy, copied, all_read, view_of, Gives, ViewEntry};
ghost use Rattle.session.specs.Bounds.{IsWithin, WithinCopy};
ghost use Rattle.session.specs.Inner.Changes.{copied_at, TellsCopy};

use crate::session::Session;
use command_checks::{StepFault, ViewList, known_view, leaf_text};
use layout_copy::{CopyFault, copy_self};
use record_dim::{Name, Steps};
use std::alloc::Global;
use std::sync::ledger::Ledger;
use views::View;
use worlds::CommandFault;

impl Session {
    ghost use Rattle.session.specs.Stands.{left_of, world_of};

    /// Makes the table of one view that of another.
    #[tactic(auto, unfolding(worlds::specs::Copy::copy))]
    pub(crate) fn copy<L: Ledger>(
        mut self,
        source: Name,
        target: Name,
        steps: &mut Steps<L>,
    ) -> Result<Session, StepFault>
        ensures copied { Gives left_of result (copy (world_of self) source target) }
        ensures bound { WithinCopy (world_of self) source target steps.old steps.new }
    {
        let source = known_view(self.views.as_slice(), source)?;
        let target = known_view(self.views.as_slice(), target)?;
        copy_between(self.alloc, &mut self.views, source, target, steps)?;
        Ok(self)
    }
}

// The table at one place, copied to another place, which may be the same.
fn copy_between<L: Ledger>(
    alloc: Global,
    views: &mut ViewList,
    source: usize,
    target: usize,
    steps: &mut Steps<L>,
) -> Result<(), StepFault>
    requires source { source < length views.old.items }
    requires target { target < length views.old.items }
    ensures copied { (d : ViewEntry) → Gives (λ done. map view_of views.new.items) result (copied_at (map view_of views.old.items) source target (view_of d)) }
    ensures none { source ≡ target → steps.new ≡ steps.old }
    ensures bound { (source ≡ target → ⊥) → (d : ViewEntry) → IsWithin (slice_index_or views.old.items source d).view (slice_index_or views.old.items target d).view steps.old steps.new }
{
    if source == target {
        keep(&mut views[target].view);
        Ok(())
    } else {
        copy_apart(alloc, views, source, target, steps)
    }
}

// The same of two places. The target is taken out of the list while its rows are copied.
fn copy_apart<L: Ledger>(
    alloc: Global,
    views: &mut ViewList,
    source: usize,
    target: usize,
    steps: &mut Steps<L>,
) -> Result<(), StepFault>
    requires source { source < length views.old.items }
    requires target { target < length views.old.items }
    requires apart { source ≡ target → ⊥ }
    ensures copied { (d : ViewEntry) → Gives (λ done. map view_of views.new.items) result (copied_at (map view_of views.old.items) source target (view_of d)) }
    ensures bound { (d : ViewEntry) → IsWithin (slice_index_or views.old.items source d).view (slice_index_or views.old.items target d).view steps.old steps.new }
{
    let mut entry = views.remove(target);
    let place = place_without(source, target);
    copy_into(alloc, &mut views[place].view, &mut entry.view, steps)?;
    views.insert(target, entry)?;
    Ok(())
}

// A place in a list that one element is gone from.
fn place_without(place: usize, gone: usize) -> usize
    requires { place ≡ gone → ⊥ }
    ensures before { place < gone → result ≡ place }
    ensures behind { gone < place → result + 1 ≡ place }
{
    if place < gone { place } else { place - 1 }
}

// A copy of a view onto itself, which has all of its own values.
fn keep(view: &mut View)
    ensures { copied view.old (all_read view.old) ≡ Ok view.new }
{
    let _table = view.schema();
    copy_self(view);
}

/// The table of a view, copied into another one.
pub fn copy_into<L: Ledger>(
    alloc: Global,
    source: &mut View,
    target: &mut View,
    steps: &mut Steps<L>,
) -> Result<(), StepFault>
    ensures copied { Gives (λ done. target.new) result (copied source.old target.old) }
    ensures read { OnOk result (source.new ≡ after_log source.old (all_accesses Read (leaf_count_of source.old) (length source.old.rows))) }
    ensures bound { IsWithin source.old target.old steps.old steps.new }
{
    match layout_copy::copy(source, target, steps) {
        Ok(()) => Ok(()),
        Err(fault) => Err(copy_fault(alloc, target, fault)?.into()),
    }
}

// The fault of a copy, with the path text of its leaf.
fn copy_fault(alloc: Global, target: &View, fault: CopyFault) -> Result<CommandFault, StepFault>
    ensures { TellsCopy target.now.fields fault result }
{
    match fault {
        CopyFault::Mismatch => Ok(CommandFault::Mismatch),
        CopyFault::Narrow { row, leaf } => {
            let leaf = leaf_text(alloc, target, leaf)?;
            Ok(CommandFault::Narrow { row, leaf })
        }
    }
}
