// A shelf in memory, for tests: it tells its files, and fails where it is told to.
ghost use Rattle.std.specs.Prelude.{◌≡◌, ◌<◌, ◌≤◌, [], ◌∷◌, ◌++◌, ◌⊎◌, ℕ, Some, None, length, take, OnOk, OnErr, IsErr, IfOk, MatchResult, IsSomeAnd, option_copied};
ghost use Rattle.std.specs.Io.{ReadsAtMost};
ghost use Rattle.layout_io.specs.Faults.{Rose};
ghost use Rattle.layout_io.specs.Files.{IsMissing, HasFile, Reads, file_named};
ghost use Rattle.layout_io.specs.Inner.MemoryShelf.{empty_shelf, ReadsPiece, CountsRead};

use crate::ends::{Failed, Shelf};
use crate::entries::{Entry, copy_piece, find};
use crate::listed::is_listed;
use std::alloc::{AllocError as NoMemory, Global};
use std::marker::Model;

/// A shelf of files that are put into it. Contracts see it as a `ShelfState`.
#[derive(Drop)]
pub struct MemoryShelf {
    alloc: Global,
    entries: Vec<Entry>,
    listed: Vec<u64>,
    piece: usize,
    calls: u64,
    faults: u64,
}

impl Model for MemoryShelf {
    ghost use Rattle.std.specs.Prelude.{◌<◌};
    ghost use Rattle.layout_io.specs.Inner.MemoryShelf.{ShelfState};

    ghost Value = { ShelfState };

    ghost use Rattle.layout_io.specs.Inner.ShelfEntries.{files_in};

    ghost view = { λ s. record {
      files = files_in s.entries.items;
      listed = s.listed.items;
      piece = s.piece;
      calls = s.calls;
      faults = s.faults;
    } };

    ghost invariant = { λ s. 0 < s.piece };
}

impl MemoryShelf {
    /// A shelf with no file, no fault and no listed call.
    pub fn new(alloc: Global) -> MemoryShelf
        ensures { result ≡ empty_shelf }
    {
        MemoryShelf {
            alloc,
            entries: Vec::new(alloc),
            listed: Vec::new(alloc),
            piece: usize::MAX,
            calls: 0,
            faults: 0,
        }
    }

    /// Adds a file, or replaces the one of this name. On want of memory nothing changes.
    pub fn put(&mut self, name: &str, bytes: &[u8]) -> Result<(), NoMemory>
        ensures { MatchResult result
            (λ _. self.new ≡ record self.old {
              files = record { name = name.now; bytes = bytes.now } ∷ self.old.files;
            })
            (λ _. self.new ≡ self.old) }
    {
        let entry = Entry::new(self.alloc, name, bytes)?;
        self.entries.insert(0, entry)?;
        Ok(())
    }

    /// Lists a call of `read_at`, counted from 0, that will fail. On want of memory nothing changes.
    pub fn fail_call(&mut self, call: u64) -> Result<(), NoMemory>
        ensures { MatchResult result
            (λ _. self.new ≡ record self.old { listed = self.old.listed ++ call ∷ [] })
            (λ _. self.new ≡ self.old) }
    {
        self.listed.push(call)?;
        Ok(())
    }

    /// Bounds the bytes that one call gives.
    pub fn set_piece(&mut self, most: usize)
        requires { 0 < most }
        ensures { self.new ≡ record self.old { piece = most } }
    {
        self.piece = most;
    }
}

impl Shelf for MemoryShelf {
    ghost files = { λ s. Some s.files };

    ghost faults = { λ s. s.faults };

    fn read_at(&mut self, name: &str, at: u64, into: &mut [u8]) -> Result<usize, Failed>
        ensures files { Some self.new.files ≡ Some self.old.files }
        ensures bound { ReadsAtMost result into.new }
        ensures bytes { IfOk result (λ n. HasFile (Some self.old.files) name.now (Reads at n into.new)) }
        ensures missing { IsMissing (Some self.old.files) name.now
            → IsErr result × (self.new.faults ≡ self.old.faults) }
        ensures ok { OnOk result (self.new.faults ≡ self.old.faults) }
        ensures later { self.old.faults ≤ self.new.faults }
        ensures failed { OnErr result
            (Rose self.old.faults self.new.faults ⊎ IsMissing (Some self.old.files) name.now) }
        ensures exact { ReadsPiece self.old name.now at result into.old into.new }
        ensures counts { CountsRead self.old self.new name.now }
    {
        let call = self.calls;
        self.calls = call.saturating_add(1);
        let Some(bytes) = find(self.entries.as_slice(), name) else {
            return Err(Failed);
        };
        if is_listed(self.listed.as_slice(), call) {
            self.faults = self.faults.saturating_add(1);
            return Err(Failed);
        }
        Ok(copy_piece(bytes, at, self.piece, into))
    }
}
