//! The outside of the program: where files are read and texts are written, fakes of both that tell
//! what happened, and a buffer that gathers small texts into large writes.
#![tactic(auto)]

mod edges;
mod ends;
mod entries;
mod listed;
mod memory_shelf;
mod memory_sink;
mod text_buffer;
mod whole;

pub use edges::{FileShelf, OutSink};
pub use ends::{Failed, Shelf, Sink};
pub use memory_shelf::MemoryShelf;
pub use memory_sink::MemorySink;
pub use text_buffer::{BUFFER_BYTES, Part, TextBuffer, write_parts};
pub use whole::{Bytes, ReadEnd, read_all, write_all};
