// `relayout V as ..`.
ghost use Rattle.std.specs.Prelude.{◌≡◌, ◌<◌, IfOk, length, map, slice_index_or, true};
ghost use Rattle.session.specs.Imports.{term_of, copied, relayout, is_nameless, view_of, Gives, ViewEntry};
ghost use Rattle.session.specs.Bounds.{IsWithin, WithinRelayout};
ghost use Rattle.session.specs.Inner.Changes.{made_like, zeros_like};

use crate::copy::copy_into;
use crate::session::Session;
use command_checks::{StepFault, ViewEntry, known_view, made, nameless};
use map_expr::MapExpr;
use record_dim::{Name, Steps};
use std::alloc::Global;
use std::sync::ledger::Ledger;
use views::View;

impl Session {
    ghost use Rattle.session.specs.Stands.{left_of, world_of};

    /// Lays the table of a view out anew. The old view lives until the new one has its values.
    #[tactic(auto, unfolding(worlds::specs::Copy::relayout))]
    pub(crate) fn relayout<L: Ledger>(
        mut self,
        name: Name,
        expr: &MapExpr,
        steps: &mut Steps<L>,
    ) -> Result<Session, StepFault>
        ensures laid { Gives left_of result (relayout (world_of self) name (term_of expr.now)) }
        ensures bound { WithinRelayout (world_of self) name (term_of expr.now) steps.old steps.new }
    {
        let place = known_view(self.views.as_slice(), name)?;
        let expr = nameless(self.alloc, &self.mappings, expr)?;
        let fresh = zeros_beside(self.alloc, self.views.as_slice(), place, &expr)?;
        laid_over(self.alloc, &mut self.views[place].view, fresh, steps)?;
        Ok(self)
    }
}

// The table of a view, copied into a fresh one, which then takes its place.
fn laid_over<L: Ledger>(
    alloc: Global,
    view: &mut View,
    mut fresh: View,
    steps: &mut Steps<L>,
) -> Result<(), StepFault>
    ensures copied { Gives (λ done. view.new) result (copied view.old fresh) }
    ensures bound { IsWithin view.old fresh steps.old steps.new }
{
    match copy_into(alloc, view, &mut fresh, steps) {
        Ok(()) => {
            *view = fresh;
            Ok(())
        }
        Err(fault) => Err(fault),
    }
}

// Zeros in the shape of the table at a place, in a new view of its mode beside all of these.
fn zeros_beside(
    alloc: Global,
    views: &[ViewEntry],
    place: usize,
    expr: &MapExpr,
) -> Result<View, StepFault>
    requires place { place < length views.now }
    requires nameless { is_nameless (term_of expr.now) ≡ true }
    ensures made { (d : ViewEntry) → Gives (λ view. view) result
        (made_like (map view_of views.now) (slice_index_or views.now place d).view (term_of expr.now)) }
    ensures zeros { (d : ViewEntry) → IfOk result (λ view. view ≡ zeros_like (slice_index_or views.now place d).view (term_of expr.now)) }
{
    let old = &views[place].view;
    made(alloc, views, old.mode(), old.schema(), old.extents(), expr)
}
