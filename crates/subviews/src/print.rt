// The text of a print of a window: the names of the leaves, then the values of each row of the subview.
ghost use Rattle.std.specs.Prelude.{◌≡◌, OnOk, flat_map, map};
ghost use Rattle.subviews.specs.Imports.{comma_line, print_text, decimal_text, Puts, Writes, texts_of, leaf_count_of, after_log};
ghost use Rattle.subviews.specs.SubViews.{sub_table, sub_reads};

use crate::sub_view::SubView;
use csv_rows::{put_names, put_row};
use layout_io::{Failed, Sink, TextBuffer};
use record_dim::Steps;
use std::sync::ledger::Ledger;
use views::laws_of_table;

/// Writes the names of the leaves as a line, and the values of each row of the subview as a line, joined by commas.
/// It reads each entry of the subview once, takes no memory, and makes one write for each 4,096 bytes.
#[tactic(auto, unfolding(csv_rows::specs::Texts::print_text))]
pub fn print_window<K: Sink, L: Ledger>(
    sub: &mut SubView<'_>,
    sink: &mut K,
    steps: &mut Steps<L>,
) -> Result<(), Failed>
    ensures writes { Writes K.taken K.faults sink.old sink.new result
        (print_text (texts_of sub.old.view.now.fields) (sub_table sub.old.window.now sub.old.view.now.rows)) }
    ensures read { OnOk result (sub.new.view.now ≡ after_log sub.old.view.now (sub_reads sub.old.window.now (leaf_count_of sub.old.view.now))) }
    ensures same { sub.new.view.now ≡ record sub.old.view.now { tally = sub.new.view.now.tally } }
    ensures same_window { sub.new.window.now ≡ sub.old.window.now }
    ensures same_view { sub.new.view.ghost_name ≡ sub.old.view.ghost_name }
{
    let mut buffer = TextBuffer::new();
    put_names(sub.view, &mut buffer, sink)?;
    put_rows(sub, &mut buffer, sink, steps)?;
    buffer.flush(sink)
}

fn put_rows<K: Sink, L: Ledger>(
    sub: &mut SubView<'_>,
    buffer: &mut TextBuffer,
    sink: &mut K,
    steps: &mut Steps<L>,
) -> Result<(), Failed>
    ensures puts { Puts K.taken K.faults sink.old sink.new buffer.old buffer.new result
        (flat_map (λ row. comma_line (map decimal_text row)) (sub_table sub.old.window.now sub.old.view.now.rows)) }
    ensures read { OnOk result (sub.new.view.now ≡ after_log sub.old.view.now (sub_reads sub.old.window.now (leaf_count_of sub.old.view.now))) }
    ensures same { sub.new.view.now ≡ record sub.old.view.now { tally = sub.new.view.now.tally } }
    ensures same_window { sub.new.window.now ≡ sub.old.window.now }
    ensures same_view { sub.new.view.ghost_name ≡ sub.old.view.ghost_name }
{
    laws_of_table(sub.view);
    for row in 0..sub.count() {
        let outer = sub.outer(row);
        put_row(sub.view, outer, buffer, sink, steps)?;
    }
    Ok(())
}
