ghost use Rattle.std.specs.Prelude.{◌≡◌, ◌<◌, IfOk, length, slice_index};
ghost use Rattle.instrument.specs.Counters.{leaf_counts, no_counts, counted, counted_times};

use std::alloc::{AllocError as NoMemory, Global};

/// How often each leaf was read and was written. A count stands still at the end of its type.
#[derive(Drop)]
pub struct Counts {
    reads: Vec<u64>,
    writes: Vec<u64>,
}

impl Counts {
    /// Counts of so many leaves, each 0.
    pub fn new(alloc: Global, leaves: usize) -> Result<Counts, NoMemory>
        ensures { IfOk result (λ counts. leaf_counts counts ≡ no_counts leaves) }
    {
        let reads = vec![in alloc; 0u64; leaves]?;
        let writes = vec![in alloc; 0u64; leaves]?;
        Ok(Counts { reads, writes })
    }

    /// Counts one read of a leaf.
    pub fn touch_read(&mut self, leaf: usize)
        requires { leaf < length (leaf_counts self.old).reads }
        ensures { leaf_counts self.new ≡ record (leaf_counts self.old) { reads = counted (leaf_counts self.old).reads leaf } }
    {
        self.add_reads(leaf, 1);
    }

    /// Counts one write of a leaf.
    pub fn touch_write(&mut self, leaf: usize)
        requires { leaf < length (leaf_counts self.old).writes }
        ensures { leaf_counts self.new ≡ record (leaf_counts self.old) { writes = counted (leaf_counts self.old).writes leaf } }
    {
        self.add_writes(leaf, 1);
    }

    /// Counts so many reads of a leaf.
    pub fn add_reads(&mut self, leaf: usize, times: u64)
        requires { leaf < length (leaf_counts self.old).reads }
        ensures { leaf_counts self.new ≡ record (leaf_counts self.old) { reads = counted_times (leaf_counts self.old).reads leaf times } }
    {
        self.reads[leaf] = self.reads[leaf].saturating_add(times);
    }

    /// Counts so many writes of a leaf.
    pub fn add_writes(&mut self, leaf: usize, times: u64)
        requires { leaf < length (leaf_counts self.old).writes }
        ensures { leaf_counts self.new ≡ record (leaf_counts self.old) { writes = counted_times (leaf_counts self.old).writes leaf times } }
    {
        self.writes[leaf] = self.writes[leaf].saturating_add(times);
    }

    /// The reads of a leaf.
    pub fn reads(&self, leaf: usize) -> u64
        requires { leaf < length (leaf_counts self.now).reads }
        ensures { result ≡ slice_index (leaf_counts self.now).reads leaf }
    {
        self.reads[leaf]
    }

    /// The writes of a leaf.
    pub fn writes(&self, leaf: usize) -> u64
        requires { leaf < length (leaf_counts self.now).writes }
        ensures { result ≡ slice_index (leaf_counts self.now).writes leaf }
    {
        self.writes[leaf]
    }
}
