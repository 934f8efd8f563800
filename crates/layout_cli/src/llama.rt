ghost use Rattle.std.specs.Prelude.{◌≡◌, ◌≢◌, ◌≤◌, ◌⊎◌, ℕ, List, Option, Some, None, map, string_bytes, option_map, IfSome};
ghost use Rattle.layout_io.specs.Prelude.{Rose, File, Writes};
ghost use Rattle.worlds.specs.Prelude.{IsRun, HasCause, HasSinkCause};
ghost use Rattle.layout_cli.specs.Run.{run, run_file, run_generated, script_name, gen_words, IsMisuse, usage_text};

use crate::dataset::gen_dataset;
use crate::number::gen_number;
use crate::script::gen_script;
use crate::shelf::GeneratedShelf;
use layout_io::{Failed, ReadEnd, Shelf, Sink, read_all, write_all};
use session_runs::run_form;
use std::alloc::Global;
use worlds::{CommandFault, Status, ended, write_fault, write_unread};

// The most bytes of a script, its byte order mark among them.
const SCRIPT_BYTES: usize = 1 << 20;

/// Runs the program on its words, with what it reads from `shelf` and what it writes to `sink`.
///
/// Where the shelf tells its files, or the words name no script, the bytes that the sink took are
/// those of `run`, as the status says: all of them, or a prefix where a write failed or memory was
/// wanting. Words that name no script ask the shelf nothing. `Usage` is exactly where the words are
/// of neither form and no write failed.
pub fn llama<H: Shelf, K: Sink>(
    alloc: Global,
    words: &[String],
    shelf: &mut H,
    sink: &mut K,
) -> Status
    ensures run { (files : List File)
        → (H.files shelf.old ≡ Some files) ⊎ (script_name (map string_bytes words.now) ≡ None)
        → IsRun K.taken sink.old sink.new (run (map string_bytes words.now) files)
        (Rose (H.faults shelf.old) (H.faults shelf.new)) result }
    ensures cause { HasCause (IsMisuse (map string_bytes words.now)) (H.files shelf.old) (H.faults shelf.old) (H.faults shelf.new)
        (K.faults sink.old) (K.faults sink.new) result }
    ensures untouched { script_name (map string_bytes words.now) ≡ None
        → (shelf.new ≡ shelf.old) × (result ≢ Status.SourceFault) }
    ensures usage { IsMisuse (map string_bytes words.now) → result ≡ Status.Usage ⊎ result ≡ Status.SinkFault }
{
    match script_name(words) {
        Some(name) => run_script(alloc, name, shelf, sink),
        None => match gen_words(words) {
            Some(rows) => run_generated(alloc, rows, sink),
            None => ended(write_usage(sink), Status::Usage),
        },
    }
}

// The script that words of the form `run FILE` name.
fn script_name(words: &[String]) -> Option<&str>
    ensures { option_map (λ name. name.now) result ≡ script_name (map string_bytes words.now) }
{
    match words {
        [verb, file] if verb.as_str() == "run" => Some(file.as_str()),
        _ => None,
    }
}

// The number of rows that words of the form `gen N` name.
fn gen_words(words: &[String]) -> Option<u32>
    ensures is { result ≡ gen_words (map string_bytes words.now) }
    ensures few { IfSome result (λ rows. (1 ≤ rows) × (rows ≤ 65536)) }
{
    match words {
        [verb, number] if verb.as_str() == "gen" => gen_number(number.as_str()),
        _ => None,
    }
}

// The generated script of so many rows, over a shelf that has its dataset alone.
fn run_generated<K: Sink>(alloc: Global, rows: u32, sink: &mut K) -> Status
    requires { (1 ≤ rows) × (rows ≤ 65536) }
    ensures run { IsRun K.taken sink.old sink.new (λ unread. run_generated rows) ⊥ result }
    ensures cause { HasSinkCause (K.faults sink.old) (K.faults sink.new) result }
{
    let Ok(script) = gen_script(alloc, rows) else {
        return Status::NoMemory;
    };
    let Ok(dataset) = gen_dataset(alloc, rows) else {
        return Status::NoMemory;
    };
    let mut shelf = GeneratedShelf::new(dataset);
    run_form(alloc, script.as_str().as_bytes(), &mut shelf, sink)
}

fn run_script<H: Shelf, K: Sink>(alloc: Global, name: &str, shelf: &mut H, sink: &mut K) -> Status
    ensures run { (files : List File) → H.files shelf.old ≡ Some files
        → IsRun K.taken sink.old sink.new (run_file name.now files)
        (Rose (H.faults shelf.old) (H.faults shelf.new)) result }
    ensures cause { HasCause ⊥ (H.files shelf.old) (H.faults shelf.old) (H.faults shelf.new)
        (K.faults sink.old) (K.faults sink.new) result }
{
    match read_all(alloc, shelf, name, SCRIPT_BYTES) {
        Ok(script) => run_form(alloc, script.as_slice(), shelf, sink),
        Err(ReadEnd::Failed) => ended(write_unread(0, name, sink), Status::SourceFault),
        Err(ReadEnd::TooLong) => ended(
            write_fault(0, &CommandFault::ScriptTooLong, sink),
            Status::CommandFault,
        ),
        Err(ReadEnd::NoMemory) => Status::NoMemory,
    }
}

// Writes the usage line.
fn write_usage<K: Sink>(sink: &mut K) -> Result<(), Failed>
    ensures { Writes K.taken K.faults sink.old sink.new result usage_text }
{
    write_all(sink, b"usage: llama run FILE | llama gen N\n")
}
