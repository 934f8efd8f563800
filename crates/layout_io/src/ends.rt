// The two ends of the program, as traits: a shelf of files to read and a sink to write to.
ghost use Rattle.std.specs.Prelude.{◌≡◌, ℕ, ◌<◌, ◌≤◌, ◌⊎◌, List, length, take, Option, IfOk, OnOk, OnErr, IsErr, MatchResult};
ghost use Rattle.std.specs.Io.{ReadsAtMost};
ghost use Rattle.layout_io.specs.Faults.{Rose};
ghost use Rattle.layout_io.specs.Files.{File, IsMissing, HasFile, Reads};
ghost use Rattle.layout_io.specs.Writing.{with_bytes};

use thiserror::Error;

/// A read or a write that was not done.
#[derive(Clone, Copy, Debug, PartialEq, Eq, Error)]
#[error("a read or a write was not done")]
pub struct Failed;

/// Files that are read by name and place. Ghost `files` are the files where they are told, and
/// `faults` counts the reads that failed.
pub trait Shelf {
    ghost files: { Self → Option (List File) };

    ghost faults: { Self → ℕ };

    /// Reads bytes of the named file from place `at` on into the front of `into`, and answers how many.
    fn read_at(&mut self, name: &str, at: u64, into: &mut [u8]) -> Result<usize, Failed>
        ensures files { files self.new ≡ files self.old }
        ensures bound { ReadsAtMost result into.new }
        ensures bytes { IfOk result (λ n. HasFile (files self.old) name.now (Reads at n into.new)) }
        ensures missing { IsMissing (files self.old) name.now
            → IsErr result × (faults self.new ≡ faults self.old) }
        ensures ok { OnOk result (faults self.new ≡ faults self.old) }
        ensures later { faults self.old ≤ faults self.new }
        ensures failed { OnErr result
            (Rose (faults self.old) (faults self.new) ⊎ IsMissing (files self.old) name.now) };
}

/// What takes bytes. Ghost `taken` is the list of the bytes that it took, where it is told, and
/// `faults` counts the writes that failed.
pub trait Sink {
    ghost taken: { Self → Option (List ℕ) };

    ghost faults: { Self → ℕ };

    /// Takes a front of `bytes`, and answers its length: at least 1 where there is a byte to take.
    /// A write that fails takes nothing.
    fn write(&mut self, bytes: &[u8]) -> Result<usize, Failed>
        ensures bound { IfOk result (λ n. n ≤ length bytes.now) }
        ensures moves { IfOk result (λ n. 0 < length bytes.now → 0 < n) }
        ensures taken { MatchResult result
            (λ n. taken self.new ≡ with_bytes (taken self.old) (take n bytes.now))
            (λ _. taken self.new ≡ taken self.old) }
        ensures faults { MatchResult result
            (λ _. faults self.new ≡ faults self.old)
            (λ _. Rose (faults self.old) (faults self.new)) }
        ensures later { faults self.old ≤ faults self.new };
}
