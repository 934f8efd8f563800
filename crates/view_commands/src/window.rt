// `print V window [..]`.
ghost use Rattle.std.specs.Prelude.{◌≡◌};
ghost use Rattle.view_commands.specs.Imports.{reading, print_window};

use crate::work::Work;
use command_checks::{StepFault, windowed};
use layout_io::Sink;
use line_grammar::WindowWords;
use record_dim::Steps;
use std::alloc::Global;
use std::sync::ledger::Ledger;
use subviews::{SubView, print_window};
use views::View;

/// Writes the rows of a window.
#[derive(Drop)]
pub struct PrintWindow<'a> {
    pub window: &'a WindowWords,
}

impl Work for PrintWindow<'_> {
    ghost does = { λ this table. reading (λ content. print_window content this.window.now) table };

    fn run<K: Sink, L: Ledger>(
        &self,
        _alloc: Global,
        view: &mut View,
        out: &mut K,
        steps: &mut Steps<L>,
    ) -> Result<(), StepFault> {
        let window = windowed(view, self.window.as_slice())?;
        let mut rows = SubView::new(view, &window);
        Ok(print_window(&mut rows, out, steps)?)
    }
}
