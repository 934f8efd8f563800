// `stencil V window [..] set .. = (..) / D rounds N`.
ghost use Rattle.std.specs.Prelude.{◌*◌};
ghost use Rattle.view_commands.specs.Imports.{fit_stencil, room_beside, stencil_rounds, stencil_run, Gives, IsStencilOf, stencil_of};
ghost use Rattle.view_commands.specs.Changes.{Changed, rounds_left, stencil_left};

use crate::change::{Change, ChangeFault};
use crate::faults::store_fault;
use command_checks::{FitStencil, MAX_LIVE_BYTES, StepFault, fit_stencil};
use line_grammar::{TermTextList, WindowWords};
use record_dim::{Path, Steps};
use std::alloc::Global;
use std::sync::ledger::Ledger;
use subviews::{buffer_for, stencil};
use views::View;
use worlds::CommandFault;

/// Sets a leaf in each row of a window to a sum over its neighbours, so many times.
#[derive(Drop)]
pub struct RunStencil<'a> {
    pub window: &'a WindowWords,
    pub path: &'a Path,
    pub terms: &'a TermTextList,
    pub divisor: &'a u32,
    pub rounds: &'a u32,
    /// The bytes of the blobs of all live views.
    pub live: u128,
}

impl Change for RunStencil<'_> {
    ghost does = { λ this table. stencil_run (8 * this.live) table this.window.now this.path.now this.terms.now this.divisor.now this.rounds.now };

    ghost left = { λ this table row. stencil_left table this.rounds.now
        (fit_stencil table this.window.now this.path.now this.terms.now this.divisor.now this.rounds.now) };

    fn run<L: Ledger>(
        &self,
        alloc: Global,
        view: &mut View,
        steps: &mut Steps<L>,
    ) -> Result<Option<i128>, ChangeFault> {
        let fit = fit_stencil(
            alloc,
            view,
            self.window.as_slice(),
            self.path,
            self.terms.as_slice(),
            *self.divisor,
            *self.rounds,
        )?;
        check_room(view, self.live)?;
        run_rounds(alloc, view, &fit, *self.rounds, steps)
    }
}

// That a buffer as large as the view has room beside live views of so many bytes.
fn check_room(view: &View, live: u128) -> Result<(), StepFault>
    ensures { Gives (λ done. tt) result (room_beside (8 * live) view.now) }
{
    if live.saturating_add(u128::from(view.blob_bytes())) > MAX_LIVE_BYTES {
        return Err(StepFault::Command(CommandFault::TooBig));
    }
    Ok(())
}

// So many rounds, with a buffer that is let go behind them.
fn run_rounds<L: Ledger>(
    alloc: Global,
    view: &mut View,
    fit: &FitStencil,
    rounds: u32,
    steps: &mut Steps<L>,
) -> Result<Option<i128>, ChangeFault>
    requires { IsStencilOf view.old fit.now }
    ensures { Changed (stencil_rounds view.old rounds (stencil_of fit.now)) (λ row. rounds_left view.old (stencil_of fit.now) rounds) view.old result view.new }
{
    let mut buffer = buffer_for(alloc, view)?;
    let done = stencil(
        view,
        &mut buffer,
        &fit.window,
        fit.leaf,
        fit.terms.as_slice(),
        fit.divisor,
        rounds,
        steps,
    );
    drop(buffer);
    match done {
        Ok(()) => Ok(None),
        Err(refused) => Err(store_fault(refused.row, fit.leaf, refused.fault)),
    }
}
