// Texts that are written in few pieces, and the edges over the real system.
use layout_io::{
    Failed, FileShelf, MemorySink, OutSink, ReadEnd, Shelf, Sink, TextBuffer, read_all, write_all,
};
use std::alloc::Global;
use std::test::Fail;
use std::{fs, io};

// Puts a line a thousand times, in two pieces.
fn put_thousand<K: Sink>(buffer: &mut TextBuffer, sink: &mut K) -> Result<(), Failed> {
    for _ in 0..1000 {
        buffer.put(b"0123", sink)?;
        buffer.put(b"45678\n", sink)?;
    }
    buffer.flush(sink)
}

#[test]
fn small_pieces_of_ten_thousand_bytes_make_three_writes(rt: HostRuntime) -> Result<(), Fail> {
    let mut sink = MemorySink::new(rt.alloc(), 10_001)?;
    sink.fail_call(3)?;
    let mut buffer = TextBuffer::new();
    let text = put_thousand(&mut buffer, &mut sink);
    let nothing = buffer.flush(&mut sink);
    let fourth = sink.write(b"x");
    assert!(rt; text.is_ok() && nothing.is_ok() && fourth.is_err());
    assert!(rt; sink.taken().len() == 10_000);
    Ok(())
}

// Why a file is not read.
fn refusal<H: Shelf>(alloc: Global, shelf: &mut H, name: &str, limit: usize) -> Option<ReadEnd> {
    read_all(alloc, shelf, name, limit).err()
}

// Whether a piece of a file, read from this place on, is that of these bytes.
fn has_piece<H: Shelf>(shelf: &mut H, name: &str, at: usize, bytes: &[u8]) -> bool {
    let mut piece = [0; 10];
    match shelf.read_at(name, at as u64, &mut piece) {
        Ok(0) => at == bytes.len(),
        Ok(count) => bytes.get(at..at.saturating_add(count)) == Some(&piece[..count]),
        Err(Failed) => false,
    }
}

// Places that follow each other, one behind, one before and the file's end.
#[test]
fn real_files_are_read(rt: HostRuntime) -> Result<(), Fail> {
    let name = "/proc/self/exe";
    let mut shelf = FileShelf::new(&rt);
    let bytes = read_all(rt.alloc(), &mut shelf, name, 1 << 28)?;
    let wanted = fs::read(&rt, name)?;
    assert!(rt; bytes.as_slice() == wanted.as_slice());
    for at in [0, 10, 30, 7, wanted.len()] {
        assert!(rt; has_piece(&mut shelf, name, at, wanted.as_slice()), "{at}");
    }
    let endless = refusal(rt.alloc(), &mut shelf, "/dev/zero", 100_000);
    let missing = refusal(rt.alloc(), &mut shelf, "/no/such/file", 100);
    assert!(rt; endless == Some(ReadEnd::TooLong) && missing == Some(ReadEnd::Failed));
    assert!(rt; has_piece(&mut shelf, name, 10, wanted.as_slice()));
    Ok(())
}

#[test]
fn standard_output_is_written(rt: HostRuntime) {
    let written = write_all(&mut OutSink::new(io::writer(&rt)), b"layout_io\n");
    assert!(rt; written.is_ok());
}
