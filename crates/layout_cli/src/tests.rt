// Runs of the program over a shelf and a sink in memory, in which each read and each write fails in turn and each room is too small.
// What they write was worked out by hand.
ghost use Rattle.std.specs.Prelude.{◌<◌};

use crate::llama::llama;
use layout_io::{MemoryShelf, MemorySink};
use std::alloc::{AllocError as NoMemory, Global};
use std::test::Fail;
use worlds::Status;

// A run: its words, the script `s` and the file `d.csv` on its shelf, how it ends and what it writes.
#[derive(Clone, Copy)]
struct Run {
    words: &'static str,
    script: &'static str,
    file: &'static str,
    status: Status,
    output: &'static str,
}

const LOADED: Run = Run {
    words: "run s",
    script: "\
record P { a:u8, b:i32 }
load V : P [?] as aos(packed, row) from \"d.csv\"
print V
",
    file: "a,b\n1,-5\n255,7\n0,2147483647\n",
    status: Status::Done,
    output: "a,b\n1,-5\n255,7\n0,2147483647\n",
};

const COMPUTED: Run = Run {
    words: "run s",
    script: "\
record R { a:u8, b:i16 }
view V : R [2, 2] as aosoa(3, col)
update V set a = 2 * i0 + i1 + 1
update V set b = -a * 10
print V
",
    file: "",
    status: Status::Done,
    output: "a,b\n1,-10\n2,-20\n3,-30\n4,-40\n",
};

const DIVIDED: Run = Run {
    words: "run s",
    script: "\
record P { a:i32 }
load V : P [?] as aos(packed, row) from \"d.csv\"
print V
update V set a = 10 / a
print V
",
    file: "a\n5\n1\n0\n4\n",
    status: Status::CommandFault,
    output: "a\n5\n1\n0\n4\nline 4: DivideByZero record 2\n",
};

// A blob file of two records: the first bytes, the size of the header, its two lines, and the bytes of the blob.
const SAVED_FILE: &str =
    "LLAMAB1\n\x47\0\0\0record R { a : u8 , b : u16 }\nview V : R [ 2 ] as aos ( packed , row )\n\0\0\0\0\x02\x01";

const SAVED: Run = Run {
    words: "run s",
    script: "\
version 2
record P { a:u8, b:u16 }
view V : P [2] as aos(packed, row)
set V[1].b = 258
save V
",
    file: "",
    status: Status::Done,
    output: SAVED_FILE,
};

const OPENING: &str = "version 2\nopen V from \"d.csv\"\nprint V\n";

const OPENED: Run = Run {
    words: "run s",
    script: OPENING,
    file: SAVED_FILE,
    status: Status::Done,
    output: "a,b\n0,0\n0,258\n",
};

const CUT: Run = Run {
    words: "run s",
    script: OPENING,
    file: "LLAMAB1\n\x47\0\0\0record R { a : u8 , b : u16 }\nview V : R [ 2 ] as aos ( packed , row )\n\0\0\0\0\x02",
    status: Status::CommandFault,
    output: "line 2: BadFile Length\n",
};

const UNMARKED: Run = Run {
    words: "run s",
    script: OPENING,
    file: "\0LAMAB1\n\x47\0\0\0record R { a : u8 , b : u16 }\nview V : R [ 2 ] as aos ( packed , row )\n\0\0\0\0\x02\x01",
    status: Status::CommandFault,
    output: "line 2: BadFile Magic\n",
};

// A truth value of 2.
const UNTRUE: Run = Run {
    words: "run s",
    script: OPENING,
    file: "LLAMAB1\n\x3f\0\0\0record R { f : bool }\nview V : R [ 1 ] as aos ( packed , row )\n\x02",
    status: Status::CommandFault,
    output: "line 2: BadFile Contents\n",
};

const MISUSED: Run = Run {
    words: "run",
    script: "",
    file: "",
    status: Status::Usage,
    output: "usage: llama run FILE | llama gen N\n",
};

// The shelf of a run.
fn shelf_of(alloc: Global, run: &Run) -> Result<MemoryShelf, NoMemory> {
    let mut shelf = MemoryShelf::new(alloc);
    shelf.put("s", run.script.as_bytes())?;
    shelf.put("d.csv", run.file.as_bytes())?;
    Ok(shelf)
}

// How a run over these ends.
fn status_of(
    alloc: Global,
    run: &Run,
    shelf: &mut MemoryShelf,
    sink: &mut MemorySink,
) -> Result<Status, NoMemory> {
    let mut words = Vec::new(alloc);
    for word in run.words.split(' ') {
        words.push(String::from_str(alloc, word)?)?;
    }
    Ok(llama(alloc, words.as_slice(), shelf, sink))
}

// How a run ends, and what it writes, where a read fails.
fn with_a_read_failing(
    alloc: Global,
    run: &Run,
    piece: usize,
    call: u64,
) -> Result<(Status, MemorySink), NoMemory>
    requires { 0 < piece }
{
    let mut shelf = shelf_of(alloc, run)?;
    shelf.set_piece(piece);
    shelf.fail_call(call)?;
    let mut sink = MemorySink::new(alloc, 1000)?;
    let status = status_of(alloc, run, &mut shelf, &mut sink)?;
    Ok((status, sink))
}

// How a run ends, and what it writes, where a write fails.
fn with_a_write_failing(
    alloc: Global,
    run: &Run,
    piece: usize,
    call: u64,
) -> Result<(Status, MemorySink), NoMemory>
    requires { 0 < piece }
{
    let mut sink = MemorySink::new(alloc, 1000)?;
    sink.set_piece(piece);
    sink.fail_call(call)?;
    let status = status_of(alloc, run, &mut shelf_of(alloc, run)?, &mut sink)?;
    Ok((status, sink))
}

// A run, the size of a piece, how many reads its script takes, with the one that finds its end, and how many these and its file take:
// the scripts have 81 and 38 bytes, the files 28 and 89.
const READS: [(Run, usize, u64, u64); 6] = [
    (LOADED, 1, 82, 111),
    (LOADED, 3, 28, 39),
    (LOADED, 4096, 2, 4),
    (OPENED, 1, 39, 129),
    (OPENED, 3, 14, 45),
    (OPENED, 4096, 2, 4),
];

#[test]
fn each_read_that_fails_is_told_by_its_file(rt: HostRuntime) -> Result<(), Fail> {
    for (run, piece, script, all) in READS {
        assert!(rt; piece > 0);
        for call in 0..=all {
            let (status, sink) = with_a_read_failing(rt.alloc(), &run, piece, call)?;
            let (due, text) = if call < script {
                (Status::SourceFault, "line 0: cannot read s\n")
            } else if call < all {
                (Status::SourceFault, "line 2: cannot read d.csv\n")
            } else {
                (run.status, run.output)
            };
            assert!(rt;
                status == due && sink.taken() == text.as_bytes(),
                "read {call} by {piece}"
            );
        }
    }
    Ok(())
}

// A run, the size of a piece, and how many writes the run takes: `DIVIDED` writes 10 bytes and then 30, the others all at once.
const WRITES: [(Run, usize, u64); 11] = [
    (COMPUTED, 1, 28),
    (COMPUTED, 7, 4),
    (DIVIDED, 1, 40),
    (DIVIDED, 7, 7),
    (SAVED, 1, 89),
    (SAVED, 7, 13),
    (CUT, 7, 4),
    (UNMARKED, 7, 4),
    (UNTRUE, 7, 4),
    (MISUSED, 1, 36),
    (MISUSED, 7, 6),
];

// Whether the bytes are a front of the text, short of it, that so many writes of pieces can have taken.
fn is_front(taken: &[u8], text: &str, calls: u64, piece: usize) -> bool {
    let count = taken.len() as u64;
    let most = calls.saturating_mul(piece as u64);
    calls <= count
        && count <= most
        && taken.len() < text.len()
        && text.as_bytes().starts_with(taken)
}

#[test]
fn each_write_that_fails_leaves_a_front(rt: HostRuntime) -> Result<(), Fail> {
    for (run, piece, all) in WRITES {
        assert!(rt; piece > 0);
        for call in 0..=all {
            let (status, sink) = with_a_write_failing(rt.alloc(), &run, piece, call)?;
            let taken = sink.taken();
            let is_due = if call < all {
                status == Status::SinkFault && is_front(taken, run.output, call, piece)
            } else {
                status == run.status && taken == run.output.as_bytes()
            };
            assert!(rt; is_due, "write {call} of {all} by {piece}");
        }
    }
    Ok(())
}

#[test]
fn each_room_that_is_too_small_is_filled(rt: HostRuntime) -> Result<(), Fail> {
    for room in 0..=28usize {
        let mut sink = MemorySink::new(rt.alloc(), room)?;
        let mut shelf = shelf_of(rt.alloc(), &LOADED)?;
        let status = status_of(rt.alloc(), &LOADED, &mut shelf, &mut sink)?;
        let due = if room < 28 {
            Status::SinkFault
        } else {
            Status::Done
        };
        let front = LOADED.output.as_bytes().get(..room);
        assert!(rt;
            status == due && front == Some(sink.taken()),
            "a room of {room}"
        );
    }
    Ok(())
}
