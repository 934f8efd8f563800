// Stencils that may be made.
ghost use Rattle.std.specs.Prelude.{◌≡◌, IfOk};
ghost use Rattle.command_checks.specs.Imports.{IsWindow, fit_stencil, fit_terms};
ghost use Rattle.command_checks.specs.Inner.Gives.{Gives};
ghost use Rattle.command_checks.specs.Inner.Stencils.{IsStencilOf, stencil_of};

use crate::fault::StepFault;
use crate::leaves::leaf_of;
use crate::terms::{all_reach, all_weigh, leaves_of, terms_at};
use crate::windows::windowed;
use extents::{Span, Window};
use line_grammar::TermText;
use record_dim::Path;
use std::alloc::Global;
use subviews::{Term, is_divisor};
use views::View;
use worlds::{BadStencil, CommandFault};

/// The most terms.
const MAX_TERMS: usize = 64;

/// The most rounds.
const MAX_ROUNDS: u32 = 1_000;

/// A stencil that may be made.
#[derive(Drop)]
pub struct FitStencil {
    pub window: Window,
    /// The number of the leaf that is set.
    pub leaf: usize,
    pub terms: Vec<Term>,
    pub divisor: u32,
}

/// The stencil of these words on a view, where it may be made so many times.
pub fn fit_stencil(
    alloc: Global,
    view: &View,
    spans: &[Span],
    path: &Path,
    texts: &[TermText],
    divisor: u32,
    rounds: u32,
) -> Result<FitStencil, StepFault>
    ensures fit { Gives stencil_of result (fit_stencil view.now spans.now path.now texts.now divisor rounds) }
    ensures able { IfOk result (IsStencilOf view.now) }
{
    let leaf = leaf_of(alloc, view, path)?;
    let leaves = leaves_of(alloc, view, texts)?;
    let window = windowed(view, spans)?;
    check_terms(&window, spans, texts, divisor, rounds)?;
    let terms = terms_at(alloc, &window, texts, leaves.as_slice())?;
    Ok(FitStencil {
        window,
        leaf,
        terms,
        divisor,
    })
}

// That no cause of four refuses terms.
fn check_terms(
    window: &Window,
    spans: &[Span],
    texts: &[TermText],
    divisor: u32,
    rounds: u32,
) -> Result<(), StepFault>
    requires spans { window.now.1 ≡ spans.now }
    requires is { IsWindow window.now.0 window.now.1 }
    ensures { Gives (λ done. tt) result (fit_terms window.now texts.now divisor rounds) }
{
    if !all_reach(window, spans, texts) {
        return Err(StepFault::Command(CommandFault::BadStencil(BadStencil::Reach)));
    }
    if !all_weigh(texts) || !is_divisor(divisor) {
        return Err(StepFault::Command(CommandFault::BadStencil(BadStencil::Weight)));
    }
    if texts.len() > MAX_TERMS {
        return Err(StepFault::Command(CommandFault::BadStencil(BadStencil::Terms)));
    }
    if rounds > MAX_ROUNDS {
        return Err(StepFault::Command(CommandFault::BadStencil(BadStencil::Rounds)));
    }
    Ok(())
}
