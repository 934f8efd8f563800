// Bytes of a view in raw memory: read and written byte by byte, by words, in blocks, and bit by bit.
#![tactic(auto)]

mod bits;
mod blob;
mod lease;
mod memory;
mod moves;
mod word;

pub use blob::Blob;
pub use moves::move_bytes;
pub use word::{bits_in_word, with_bits};
