// What is written, in a slice of a caller.
ghost use Rattle.std.specs.Prelude.{◌≡◌, ◌∷◌, ◌<◌, ◌≤◌};
ghost use Rattle.c_lines.specs.Imports.{Some, length, take};

use layout_io::{Failed, Sink};

/// A sink that fills a slice from its front. A write fails only where the slice is full.
#[derive(Drop)]
pub(crate) struct SliceSink<'a> {
    bytes: &'a mut [u8],
    taken: usize,
    faults: u64,
    ghost within: { taken ≤ length bytes.now },
    ghost full: { 0 < faults → taken ≡ length bytes.now },
}

impl<'a> SliceSink<'a> {
    /// One that has taken nothing.
    pub fn new(bytes: &'a mut [u8]) -> SliceSink<'a>
        ensures same_reference { result.bytes.ghost_name ≡ bytes.entry.ghost_name }
        ensures bytes { result.bytes.now ≡ bytes.old }
        ensures taken { result.taken ≡ 0 }
        ensures faults { result.faults ≡ 0 }
    {
        SliceSink {
            bytes,
            taken: 0,
            faults: 0,
        }
    }
}

impl Sink for SliceSink<'_> {
    // The name of the reference and the length of the slice stand before the bytes. What was taken only grows, so a writer leaves the sink
    // with the slice that it had.
    ghost taken = { λ s. Some (s.bytes.ghost_name ∷ length s.bytes.now ∷ take s.taken s.bytes.now) };

    ghost faults = { λ s. s.faults };

    fn write(&mut self, bytes: &[u8]) -> Result<usize, Failed> {
        let len = bytes.len().min(self.bytes.len() - self.taken);
        if len == 0 && !bytes.is_empty() {
            self.faults = self.faults.saturating_add(1);
            return Err(Failed);
        }
        let end = self.taken + len;
        self.bytes[self.taken..end].copy_from_slice(&bytes[..len]);
        self.taken = end;
        Ok(len)
    }
}
