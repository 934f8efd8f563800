// The files that a shelf in memory keeps.
ghost use Rattle.std.specs.Prelude.{◌≡◌, ◌++◌, ◌-◌, IfOk, MatchOption, None, Some, length, min, take, drop, option_map};
ghost use Rattle.layout_io.specs.Files.{file_named};
ghost use Rattle.layout_io.specs.Inner.ShelfEntries.{file_in, files_in};

use std::alloc::{AllocError as NoMemory, Global};

/// A file: its name and what it holds.
#[derive(Drop)]
pub(crate) struct Entry {
    name: String,
    bytes: Vec<u8>,
}

impl Entry {
    /// A file that holds these bytes.
    pub(crate) fn new(alloc: Global, name: &str, bytes: &[u8]) -> Result<Entry, NoMemory>
        ensures { IfOk result (λ entry. file_in entry ≡ record { name = name.now; bytes = bytes.now }) }
    {
        Ok(Entry {
            name: String::from_str(alloc, name)?,
            bytes: Vec::from_slice(alloc, bytes)?,
        })
    }
}

/// What the first entry of this name holds.
pub(crate) fn find<'a>(entries: &'a [Entry], name: &str) -> Option<&'a [u8]>
    ensures { MatchOption result
        (file_named (files_in entries.now) name.now ≡ None)
        (λ bytes. file_named (files_in entries.now) name.now ≡ Some bytes.now) }
{
    for entry in entries {
        if entry.name.as_str() == name {
            return Some(entry.bytes.as_slice());
        }
    }
    None
}

/// Copies as many of the bytes from place `at` on as there are, as fit and as the bound allows, and
/// answers how many.
pub(crate) fn copy_piece(bytes: &[u8], at: u64, most: usize, into: &mut [u8]) -> usize
    ensures count { result ≡ min (length into.old) (min most (length bytes.now - at)) }
    ensures copied { into.new ≡ take result (drop at bytes.now) ++ drop result into.old }
{
    let from = (at as usize).min(bytes.len());
    let count = into.len().min(most).min(bytes.len() - from);
    into[..count].copy_from_slice(&bytes[from..from + count]);
    count
}
