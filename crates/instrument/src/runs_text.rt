ghost use Rattle.std.specs.Prelude.{◌≡◌, ◌<◌, flat_map, All, length};
ghost use Rattle.record_dim.specs.Prelude.{schema_fields, leaves, texts_of};
ghost use Rattle.layout_io.specs.Prelude.{Puts, Writes};
ghost use Rattle.instrument.specs.CounterTexts.{fields_line, owner_fields, run_line, runs_text};
ghost use Rattle.places.specs.Prelude.{IsOwnerBelow};

use layout_io::{Failed, Part, Sink, TextBuffer};
use places::{Run, RunList, RunOwner};
use record_dim::Schema;

/// Writes a line of names, and a line for each run: its blob, its first bit, the number of its bits, and the record, the leaf and the lowest
/// bit of the leaf that it holds, or a dash for each where it is padding.
#[tactic(auto, unfolding(crate::specs::CounterTexts::runs_text))]
pub fn write_runs<K: Sink>(runs: &RunList, schema: &Schema, sink: &mut K) -> Result<(), Failed>
    requires { All (λ run. IsOwnerBelow (length (leaves (schema_fields schema.now))) run.owner) runs.now }
    ensures { Writes K.taken K.faults sink.old sink.new result (runs_text (texts_of (schema_fields schema.now)) runs.now) }
{
    let mut buffer = TextBuffer::new();
    buffer.put(b"blob,bit,bits,record,leaf,low\n", sink)?;
    put_runs(runs.as_slice(), schema, &mut buffer, sink)?;
    buffer.flush(sink)
}

fn put_runs<K: Sink>(
    runs: &[Run],
    schema: &Schema,
    buffer: &mut TextBuffer,
    sink: &mut K,
) -> Result<(), Failed>
    requires { All (λ run. IsOwnerBelow (length (leaves (schema_fields schema.now))) run.owner) runs.now }
    ensures { Puts K.taken K.faults sink.old sink.new buffer.old buffer.new result
        (flat_map (run_line (texts_of (schema_fields schema.now))) runs.now) }
{
    for run in runs {
        put_run(run, schema, buffer, sink)?;
    }
    Ok(())
}

fn put_run<K: Sink>(
    run: &Run,
    schema: &Schema,
    buffer: &mut TextBuffer,
    sink: &mut K,
) -> Result<(), Failed>
    requires { IsOwnerBelow (length (leaves (schema_fields schema.now))) run.now.owner }
    ensures { Puts K.taken K.faults sink.old sink.new buffer.old buffer.new result
        (run_line (texts_of (schema_fields schema.now)) run.now) }
{
    let parts = [
        Part::Count(run.blob as u64),
        Part::Text(b","),
        Part::Count(run.bit),
        Part::Text(b","),
        Part::Count(run.bits),
        Part::Text(b","),
    ];
    buffer.put_parts(&parts, sink)?;
    put_owner(&run.owner, schema, buffer, sink)
}

fn put_owner<K: Sink>(
    owner: &RunOwner,
    schema: &Schema,
    buffer: &mut TextBuffer,
    sink: &mut K,
) -> Result<(), Failed>
    requires { IsOwnerBelow (length (leaves (schema_fields schema.now))) owner.now }
    ensures { Puts K.taken K.faults sink.old sink.new buffer.old buffer.new result
        (fields_line (owner_fields (texts_of (schema_fields schema.now)) owner.now)) }
{
    match owner {
        RunOwner::Pad => buffer.put(b"-,-,-\n", sink),
        RunOwner::Leaf { row, leaf, low } => {
            let parts = [
                Part::Count(*row),
                Part::Text(b","),
                Part::Text(schema.path_text(*leaf).as_bytes()),
                Part::Text(b","),
                Part::Count(u64::from(*low)),
                Part::Text(b"\n"),
            ];
            buffer.put_parts(&parts, sink)
        }
    }
}
