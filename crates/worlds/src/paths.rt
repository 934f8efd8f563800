// The text of a path.
ghost use Rattle.worlds.specs.Imports.{flat_map, Puts, first_text, step_text, path_text_of};

use layout_io::{Failed, Part, Sink, TextBuffer};
use record_dim::{Path, PathStep};

/// Appends the text of a path, as `pos.x` and `h[2]`.
pub fn put_path<K: Sink>(path: &Path, buffer: &mut TextBuffer, sink: &mut K) -> Result<(), Failed>
    ensures { Puts K.taken K.faults sink.old sink.new buffer.old buffer.new result (path_text_of path.now) }
{
    match path.as_slice() {
        [] => Ok(()),
        [first, steps @ ..] => {
            put_first(first, buffer, sink)?;
            put_steps(steps, buffer, sink)
        }
    }
}

fn put_first<K: Sink>(step: &PathStep, buffer: &mut TextBuffer, sink: &mut K) -> Result<(), Failed>
    ensures { Puts K.taken K.faults sink.old sink.new buffer.old buffer.new result (first_text step.now) }
{
    match step {
        PathStep::Name(name) => buffer.put(name.as_str().as_bytes(), sink),
        PathStep::At(_) => put_step(step, buffer, sink),
    }
}

fn put_steps<K: Sink>(
    steps: &[PathStep],
    buffer: &mut TextBuffer,
    sink: &mut K,
) -> Result<(), Failed>
    ensures { Puts K.taken K.faults sink.old sink.new buffer.old buffer.new result (flat_map step_text steps.now) }
{
    for step in steps {
        put_step(step, buffer, sink)?;
    }
    Ok(())
}

fn put_step<K: Sink>(step: &PathStep, buffer: &mut TextBuffer, sink: &mut K) -> Result<(), Failed>
    ensures { Puts K.taken K.faults sink.old sink.new buffer.old buffer.new result (step_text step.now) }
{
    match step {
        PathStep::Name(name) => {
            let name = name.as_str().as_bytes();
            buffer.put_parts(&[Part::Text(b"."), Part::Text(name)], sink)
        }
        PathStep::At(number) => {
            let number = u64::from(*number);
            let parts = [Part::Text(b"["), Part::Count(number), Part::Text(b"]")];
            buffer.put_parts(&parts, sink)
        }
    }
}
