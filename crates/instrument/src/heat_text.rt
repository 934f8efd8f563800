ghost use Rattle.std.specs.Prelude.{◌≡◌, ◌<◌, flat_map};
ghost use Rattle.std.specs.List.{enumerate_from};
ghost use Rattle.layout_io.specs.Prelude.{Puts, Writes};
ghost use Rattle.instrument.specs.Counters.{heat_counts};
ghost use Rattle.instrument.specs.CounterTexts.{granule_line, blob_lines, heat_text};

use crate::Heat;
use layout_io::{Failed, Part, Sink, TextBuffer};

/// Writes a line of names, and a line for each granule that was accessed: the number of its blob, its own, and that of its accesses.
#[tactic(auto, unfolding(crate::specs::CounterTexts::heat_text))]
pub fn write_heat<K: Sink>(heat: &Heat, sink: &mut K) -> Result<(), Failed>
    ensures { Writes K.taken K.faults sink.old sink.new result (heat_text (heat_counts heat.now)) }
{
    let mut buffer = TextBuffer::new();
    buffer.put(b"blob,granule,accesses\n", sink)?;
    put_blobs(heat, &mut buffer, sink)?;
    buffer.flush(sink)
}

fn put_blobs<K: Sink>(heat: &Heat, buffer: &mut TextBuffer, sink: &mut K) -> Result<(), Failed>
    ensures { Puts K.taken K.faults sink.old sink.new buffer.old buffer.new result
        (flat_map blob_lines (enumerate_from 0 (heat_counts heat.now).blobs)) }
{
    for blob in 0..heat.blob_count() {
        put_granules(blob, heat.counts_of(blob), buffer, sink)?;
    }
    Ok(())
}

fn put_granules<K: Sink>(
    blob: usize,
    counts: &[u64],
    buffer: &mut TextBuffer,
    sink: &mut K,
) -> Result<(), Failed>
    ensures { Puts K.taken K.faults sink.old sink.new buffer.old buffer.new result (blob_lines (blob, counts.now)) }
{
    for granule in 0..counts.len() {
        put_granule(blob, granule, counts[granule], buffer, sink)?;
    }
    Ok(())
}

fn put_granule<K: Sink>(
    blob: usize,
    granule: usize,
    count: u64,
    buffer: &mut TextBuffer,
    sink: &mut K,
) -> Result<(), Failed>
    ensures { Puts K.taken K.faults sink.old sink.new buffer.old buffer.new result (granule_line blob (granule, count)) }
{
    if count == 0 {
        return Ok(());
    }
    let parts = [
        Part::Count(blob as u64),
        Part::Text(b","),
        Part::Count(granule as u64),
        Part::Text(b","),
        Part::Count(count),
        Part::Text(b"\n"),
    ];
    buffer.put_parts(&parts, sink)
}
