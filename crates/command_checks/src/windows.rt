// Windows of a view.
ghost use Rattle.std.specs.Prelude.{◌≡◌, IfOk};
ghost use Rattle.command_checks.specs.Imports.{IsWindow, windowed};
ghost use Rattle.command_checks.specs.Inner.Gives.{Gives};

use crate::fault::StepFault;
use extents::{Span, Window};
use views::View;
use worlds::CommandFault;

/// The window of these spans.
pub fn windowed(view: &View, spans: &[Span]) -> Result<Window, StepFault>
    ensures window { Gives (λ window. window) result (windowed view.now.extents spans.now) }
    ensures spans { IfOk result (λ window. window ≡ (view.now.extents, spans.now)) }
    ensures is { IfOk result (λ window. IsWindow window.0 window.1) }
{
    match Window::new(&view.extents(), spans) {
        Some(window) => Ok(window),
        None => Err(StepFault::Command(CommandFault::BadWindow)),
    }
}
