// What is written, in memory.
ghost use Rattle.std.specs.Prelude.{◌≡◌};
ghost use Rattle.c_lines.specs.Imports.{[], Some};

use layout_io::{Failed, Sink};
use std::alloc::Global;

/// A sink that keeps all bytes. A write fails only for want of memory.
#[derive(Drop)]
pub(crate) struct ByteSink {
    bytes: Vec<u8>,
    faults: u64,
}

impl ByteSink {
    /// One that has taken nothing.
    pub fn new(alloc: Global) -> ByteSink
        ensures { result.bytes.items ≡ [] }
    {
        ByteSink {
            bytes: Vec::new(alloc),
            faults: 0,
        }
    }

    /// What it took.
    pub fn taken(&self) -> &[u8]
        ensures { result.now ≡ self.now.bytes.items }
    {
        self.bytes.as_slice()
    }
}

impl Sink for ByteSink {
    ghost taken = { λ s. Some s.bytes.items };

    ghost faults = { λ s. s.faults };

    fn write(&mut self, bytes: &[u8]) -> Result<usize, Failed> {
        match self.bytes.extend_from_slice(bytes) {
            Ok(()) => Ok(bytes.len()),
            Err(_) => {
                self.faults = self.faults.saturating_add(1);
                Err(Failed)
            }
        }
    }
}
