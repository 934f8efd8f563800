// A shelf of a dataset alone.
ghost use Rattle.std.specs.Prelude.{◌≡◌, ◌≤◌, ◌⊎◌, length, Some, IfOk, IsErr, OnOk, OnErr};
ghost use Rattle.std.specs.Io.{ReadsAtMost};
ghost use Rattle.layout_io.specs.Prelude.{Rose, IsMissing, HasFile, Reads};
ghost use Rattle.layout_cli.specs.Generated.{generated_files};

use layout_io::{Failed, Shelf};
use record_dim::Text;
use std::marker::Model;

/// A shelf that has one file, which is named `gen.csv`. Contracts see it as the bytes of this file. It
/// has them in memory, so no read fails but that of another name.
#[derive(Drop)]
pub struct GeneratedShelf {
    dataset: Text,
}

impl Model for GeneratedShelf {
    ghost use Rattle.std.specs.Prelude.{ℕ, List};

    ghost Value = { List ℕ };

    ghost view = { λ s. s.dataset };
}

impl GeneratedShelf {
    /// The shelf of this dataset.
    pub fn new(dataset: Text) -> GeneratedShelf
        ensures { result ≡ dataset }
    {
        GeneratedShelf { dataset }
    }
}

impl Shelf for GeneratedShelf {
    ghost files = { λ s. Some (generated_files s) };

    ghost faults = { λ s. 0 };

    fn read_at(&mut self, name: &str, at: u64, into: &mut [u8]) -> Result<usize, Failed> {
        if name == "gen.csv" {
            Ok(copy_from(self.dataset.as_str().as_bytes(), at, into))
        } else {
            Err(Failed)
        }
    }
}

// Copies as many of the bytes from place `at` on as there are and as fit, and answers how many.
fn copy_from(bytes: &[u8], at: u64, into: &mut [u8]) -> usize
    ensures reads { Reads at result into.new bytes.now }
    ensures bound { result ≤ length into.new }
    ensures same { length into.new ≡ length into.old }
{
    let from = (at as usize).min(bytes.len());
    let count = into.len().min(bytes.len() - from);
    into[..count].copy_from_slice(&bytes[from..from + count]);
    count
}
