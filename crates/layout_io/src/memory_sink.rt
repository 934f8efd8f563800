// A sink in memory, for tests: it tells what it took, and fails where it is told to.
ghost use Rattle.std.specs.Prelude.{◌≡◌, ◌<◌, ◌≤◌, [], ◌∷◌, ◌++◌, ◌⊎◌, ◌-◌, ◌^◌, ℕ, min, Some, length, take, IfOk, MatchResult, OnErr};
ghost use Rattle.layout_io.specs.Faults.{Rose};
ghost use Rattle.layout_io.specs.Writing.{with_bytes};
ghost use Rattle.layout_io.specs.Inner.MemorySink.{empty_sink, WritesPiece};

use crate::ends::{Failed, Sink};
use crate::listed::is_listed;
use std::alloc::{AllocError as NoMemory, Global};
use std::marker::Model;

/// A sink of bounded room that keeps the bytes it takes. Contracts see it as a `SinkState`.
#[derive(Drop)]
pub struct MemorySink {
    bytes: Vec<u8>,
    room: usize,
    listed: Vec<u64>,
    piece: usize,
    calls: u64,
    faults: u64,
}

impl Model for MemorySink {
    ghost use Rattle.std.specs.Prelude.{◌<◌, ◌≤◌, vec_len, vec_capacity};
    ghost use Rattle.layout_io.specs.Inner.MemorySink.{SinkState};

    ghost Value = { SinkState };

    ghost view = { λ s. record {
      bytes = s.bytes.items;
      room = s.room;
      listed = s.listed.items;
      piece = s.piece;
      calls = s.calls;
      faults = s.faults;
    } };

    ghost invariant = { λ s. (0 < s.piece) × (s.room ≤ vec_capacity s.bytes) × (vec_len s.bytes ≤ s.room) };
}

impl MemorySink {
    /// A sink with room for so many bytes, reserved at once, that has taken nothing.
    pub fn new(alloc: Global, room: usize) -> Result<MemorySink, NoMemory>
        ensures { IfOk result (λ sink. sink ≡ empty_sink room) }
    {
        Ok(MemorySink {
            bytes: Vec::with_capacity(alloc, room)?,
            room,
            listed: Vec::new(alloc),
            piece: usize::MAX,
            calls: 0,
            faults: 0,
        })
    }

    /// Lists a call of `write`, counted from 0, that will fail. On want of memory nothing changes.
    pub fn fail_call(&mut self, call: u64) -> Result<(), NoMemory>
        ensures { MatchResult result
            (λ _. self.new ≡ record self.old { listed = self.old.listed ++ call ∷ [] })
            (λ _. self.new ≡ self.old) }
    {
        self.listed.push(call)?;
        Ok(())
    }

    /// Bounds the bytes that one call takes.
    pub fn set_piece(&mut self, most: usize)
        requires { 0 < most }
        ensures { self.new ≡ record self.old { piece = most } }
    {
        self.piece = most;
    }

    /// The bytes that the sink took, in their order.
    pub fn taken(&self) -> &[u8]
        ensures { result.now ≡ self.now.bytes }
    {
        self.bytes.as_slice()
    }
}

impl Sink for MemorySink {
    ghost taken = { λ s. Some s.bytes };

    ghost faults = { λ s. s.faults };

    fn write(&mut self, bytes: &[u8]) -> Result<usize, Failed>
        ensures bound { IfOk result (λ n. n ≤ length bytes.now) }
        ensures moves { IfOk result (λ n. 0 < length bytes.now → 0 < n) }
        ensures taken { MatchResult result
            (λ n. Some self.new.bytes ≡ with_bytes (Some self.old.bytes) (take n bytes.now))
            (λ _. Some self.new.bytes ≡ Some self.old.bytes) }
        ensures faults { MatchResult result
            (λ _. self.new.faults ≡ self.old.faults)
            (λ _. Rose self.old.faults self.new.faults) }
        ensures later { self.old.faults ≤ self.new.faults }
        ensures exact { WritesPiece self.old self.new bytes.now result }
    {
        let call = self.calls;
        self.calls = call.saturating_add(1);
        let left = self.room - self.bytes.len();
        if is_listed(self.listed.as_slice(), call) || (left == 0 && !bytes.is_empty()) {
            self.faults = self.faults.saturating_add(1);
            return Err(Failed);
        }
        let count = bytes.len().min(self.piece).min(left);
        self.bytes.extend_from_slice(&bytes[..count]).unwrap();
        Ok(count)
    }
}
