ghost use Rattle.std.specs.Prelude.{◌≡◌, ◌<◌, [], ◌∷◌, flat_map, length};
ghost use Rattle.std.specs.List.{enumerate_from};
ghost use Rattle.record_dim.specs.Prelude.{schema_fields, leaves, texts_of};
ghost use Rattle.layout_io.specs.Prelude.{digits_text, Puts, Writes};
ghost use Rattle.instrument.specs.Counters.{leaf_counts, HasLeaves};
ghost use Rattle.instrument.specs.CounterTexts.{fields_line, leaf_line, counts_text};

use crate::Counts;
use layout_io::{Failed, Part, Sink, TextBuffer};
use record_dim::Schema;

/// Writes a line of names, and a line for each leaf: its path text, its reads and its writes.
#[tactic(auto, unfolding(crate::specs::CounterTexts::counts_text))]
pub fn write_counts<K: Sink>(counts: &Counts, schema: &Schema, sink: &mut K) -> Result<(), Failed>
    requires { HasLeaves (leaf_counts counts.now) (length (leaves (schema_fields schema.now))) }
    ensures { Writes K.taken K.faults sink.old sink.new result
        (counts_text (texts_of (schema_fields schema.now)) (leaf_counts counts.now)) }
{
    let mut buffer = TextBuffer::new();
    buffer.put(b"leaf,reads,writes\n", sink)?;
    put_leaves(counts, schema, &mut buffer, sink)?;
    buffer.flush(sink)
}

fn put_leaves<K: Sink>(
    counts: &Counts,
    schema: &Schema,
    buffer: &mut TextBuffer,
    sink: &mut K,
) -> Result<(), Failed>
    requires { HasLeaves (leaf_counts counts.now) (length (leaves (schema_fields schema.now))) }
    ensures { Puts K.taken K.faults sink.old sink.new buffer.old buffer.new result
        (flat_map (leaf_line (leaf_counts counts.now)) (enumerate_from 0 (texts_of (schema_fields schema.now)))) }
{
    for leaf in 0..schema.leaf_count() {
        let name = schema.path_text(leaf);
        put_leaf(name, counts.reads(leaf), counts.writes(leaf), buffer, sink)?;
    }
    Ok(())
}

fn put_leaf<K: Sink>(
    name: &str,
    reads: u64,
    writes: u64,
    buffer: &mut TextBuffer,
    sink: &mut K,
) -> Result<(), Failed>
    ensures { Puts K.taken K.faults sink.old sink.new buffer.old buffer.new result
        (fields_line (name.now ∷ digits_text reads ∷ digits_text writes ∷ [])) }
{
    let parts = [
        Part::Text(name.as_bytes()),
        Part::Text(b","),
        Part::Count(reads),
        Part::Text(b","),
        Part::Count(writes),
        Part::Text(b"\n"),
    ];
    buffer.put_parts(&parts, sink)
}
