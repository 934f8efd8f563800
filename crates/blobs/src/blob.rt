// The bytes of a blob as one allocation of raw memory. What holds the pointer stands here alone.
ghost use Rattle.std.specs.Prelude.{◌≡◌, ◌+◌, ◌<◌, ◌≤◌, ◌++◌, IfOk, length, replicate, slice_index, slice_set, take, drop};
ghost use Rattle.std.specs.Int.{bytes_low_first, bytes_high_first};
ghost use Rattle.byteorder.specs.Endian.{little_from};
ghost use Rattle.blobs.specs.Bits.{AreBytes};
ghost use Rattle.blobs.specs.Moves.{with_moved};
ghost use Rattle.blobs.specs.Turned.{turned_from};

use crate::lease::Lease;
use crate::memory::{release, reserve};
use byteorder::{ByteOrder, LittleEndian};
use core::slots::Slots;
use record_dim::Steps;
use std::alloc::{AllocError as NoMemory, Global};
use std::marker::Model;
use std::sync::ledger::Ledger;

/// The most bytes that one allocation has.
const MAX_BYTES: usize = isize::MAX as usize;

/// A fixed number of bytes of raw memory. Contracts see it as the list of its bytes. Bit `k` is bit `k % 8` of byte `k / 8`.
pub struct Blob {
    places: Slots<u8>,
    lease: Lease<u8, Global>,
    alloc: Global,
}

impl Model for Blob {
    ghost use Rattle.std.specs.Prelude.{List, ℕ};
    ghost use Rattle.core.specs.Mem.Slots.{slots_items, IsFull};
    ghost use Rattle.blobs.specs.Bits.{AreBytes};
    ghost use Rattle.blobs.specs.Held.{IsLeaseOf};

    ghost Value = { List ℕ };

    ghost view = { λ b. slots_items b.places };

    ghost invariant = { λ b. IsFull b.places × IsLeaseOf b.lease b.places b.alloc × AreBytes (slots_items b.places) };
}

impl Drop for Blob {
    fn drop(self) {
        let Blob {
            places,
            lease,
            alloc,
        } = self;
        release(&alloc, places, lease);
    }
}

impl Blob {
    /// `len` bytes that are 0.
    pub fn zeroed(alloc: Global, len: usize) -> Result<Blob, NoMemory>
        ensures { IfOk result (λ b. b ≡ replicate len 0) }
    {
        if MAX_BYTES < len {
            return Err(NoMemory);
        }
        let (mut places, lease) = reserve(&alloc, len)?;
        for at in 0..len {
            places.put(at, 0);
        }
        Ok(Blob {
            places,
            lease,
            alloc,
        })
    }

    /// The number of bytes.
    #[inline(always)]
    pub fn len(&self) -> usize
        ensures { result ≡ length self.now }
    {
        self.places.len()
    }

    /// Each byte is below 256: proofs that read bytes one by one need it said.
    #[inline(always)]
    pub fn bytes_law(&self)
        ensures { AreBytes self.now }
    {
        let _places = &self.places;
    }

    /// The byte at `at`.
    #[inline(always)]
    pub fn get(&self, at: usize) -> u8
        requires { at < length self.now }
        ensures { result ≡ slice_index self.now at }
    {
        *self.places.get(at)
    }

    /// The byte at `at`, where it lies: its address is one that callers in C read from.
    #[inline(always)]
    pub fn byte(&self, at: usize) -> &u8
        requires { at < length self.now }
        ensures { result.now ≡ slice_index self.now at }
    {
        self.places.get(at)
    }

    /// Makes the byte at `at` this one.
    #[inline(always)]
    pub fn put(&mut self, at: usize, byte: u8)
        requires { at < length self.old }
        ensures { self.new ≡ slice_set self.old at byte }
    {
        self.places.put(at, byte);
    }

    /// The two bytes from `at` on as a number, the least significant first. A copy into an array is one load.
    #[inline(always)]
    pub fn two(&self, at: usize) -> u16
        requires { at + 2 ≤ length self.now }
        ensures word { result ≡ little_from at 2 self.now }
        ensures bytes { AreBytes self.now }
    {
        let places = &self.places;
        LittleEndian::read_u16(&[*places.get(at), *places.get(at + 1)])
    }

    /// The four bytes from `at` on.
    #[inline(always)]
    pub fn four(&self, at: usize) -> u32
        requires { at + 4 ≤ length self.now }
        ensures word { result ≡ little_from at 4 self.now }
        ensures bytes { AreBytes self.now }
    {
        let places = &self.places;
        LittleEndian::read_u32(&[
            *places.get(at),
            *places.get(at + 1),
            *places.get(at + 2),
            *places.get(at + 3),
        ])
    }

    /// The eight bytes from `at` on.
    #[inline(always)]
    pub fn word(&self, at: usize) -> u64
        requires { at + 8 ≤ length self.now }
        ensures word { result ≡ little_from at 8 self.now }
        ensures bytes { AreBytes self.now }
    {
        let places = &self.places;
        LittleEndian::read_u64(&[
            *places.get(at),
            *places.get(at + 1),
            *places.get(at + 2),
            *places.get(at + 3),
            *places.get(at + 4),
            *places.get(at + 5),
            *places.get(at + 6),
            *places.get(at + 7),
        ])
    }

    /// The two bytes from `at` on as a number, the most significant first. It is one load, and the bytes are turned.
    #[inline(always)]
    pub fn turned_two(&self, at: usize) -> u16
        requires { at + 2 ≤ length self.now }
        ensures word { result ≡ turned_from at 2 self.now }
        ensures bytes { AreBytes self.now }
    {
        let places = &self.places;
        LittleEndian::read_u16(&[*places.get(at + 1), *places.get(at)])
    }

    /// The four bytes from `at` on, the most significant first.
    #[inline(always)]
    pub fn turned_four(&self, at: usize) -> u32
        requires { at + 4 ≤ length self.now }
        ensures word { result ≡ turned_from at 4 self.now }
        ensures bytes { AreBytes self.now }
    {
        let places = &self.places;
        LittleEndian::read_u32(&[
            *places.get(at + 3),
            *places.get(at + 2),
            *places.get(at + 1),
            *places.get(at),
        ])
    }

    /// The eight bytes from `at` on, the most significant first.
    #[inline(always)]
    pub fn turned_word(&self, at: usize) -> u64
        requires { at + 8 ≤ length self.now }
        ensures word { result ≡ turned_from at 8 self.now }
        ensures bytes { AreBytes self.now }
    {
        let places = &self.places;
        LittleEndian::read_u64(&[
            *places.get(at + 7),
            *places.get(at + 6),
            *places.get(at + 5),
            *places.get(at + 4),
            *places.get(at + 3),
            *places.get(at + 2),
            *places.get(at + 1),
            *places.get(at),
        ])
    }

    /// Makes the bytes from `at` on these. A copy out of an array is one store.
    #[inline(always)]
    fn copy_in(&mut self, at: usize, bytes: &[u8])
        requires { at + length bytes.now ≤ length self.old }
        ensures { self.new ≡ take at self.old ++ (bytes.now ++ drop (at + length bytes.now) self.old) }
    {
        self.places.copy_in(at, bytes);
    }

    /// Makes the two bytes from `at` on those of a number, the least significant first.
    #[inline(always)]
    pub fn put_two(&mut self, at: usize, value: u16)
        requires { at + 2 ≤ length self.old }
        ensures { self.new ≡ take at self.old ++ (bytes_low_first 0 2 value ++ drop (at + 2) self.old) }
    {
        self.copy_in(at, &value.to_le_bytes());
    }

    /// Makes the four bytes from `at` on those of a number.
    #[inline(always)]
    pub fn put_four(&mut self, at: usize, value: u32)
        requires { at + 4 ≤ length self.old }
        ensures { self.new ≡ take at self.old ++ (bytes_low_first 0 4 value ++ drop (at + 4) self.old) }
    {
        self.copy_in(at, &value.to_le_bytes());
    }

    /// Makes the eight bytes from `at` on those of a number.
    #[inline(always)]
    pub fn put_word(&mut self, at: usize, value: u64)
        requires { at + 8 ≤ length self.old }
        ensures { self.new ≡ take at self.old ++ (bytes_low_first 0 8 value ++ drop (at + 8) self.old) }
    {
        self.copy_in(at, &value.to_le_bytes());
    }

    /// Makes the two bytes from `at` on those of a number, the most significant first.
    #[inline(always)]
    pub fn put_turned_two(&mut self, at: usize, value: u16)
        requires { at + 2 ≤ length self.old }
        ensures { self.new ≡ take at self.old ++ (bytes_high_first 2 value ++ drop (at + 2) self.old) }
    {
        self.copy_in(at, &value.to_be_bytes());
    }

    /// Makes the four bytes from `at` on those of a number, the most significant first.
    #[inline(always)]
    pub fn put_turned_four(&mut self, at: usize, value: u32)
        requires { at + 4 ≤ length self.old }
        ensures { self.new ≡ take at self.old ++ (bytes_high_first 4 value ++ drop (at + 4) self.old) }
    {
        self.copy_in(at, &value.to_be_bytes());
    }

    /// Makes the eight bytes from `at` on those of a number, the most significant first.
    #[inline(always)]
    pub fn put_turned_word(&mut self, at: usize, value: u64)
        requires { at + 8 ≤ length self.old }
        ensures { self.new ≡ take at self.old ++ (bytes_high_first 8 value ++ drop (at + 8) self.old) }
    {
        self.copy_in(at, &value.to_be_bytes());
    }

    /// Makes the `len` bytes from `at` on those of another blob from `from` on, at most 64. It takes one step.
    #[inline(always)]
    pub fn move_block<L: Ledger>(
        &mut self,
        at: usize,
        source: &Blob,
        from: usize,
        len: usize,
        steps: &mut Steps<L>,
    )
        requires few { len ≤ 64 }
        requires room { at + len ≤ length self.old }
        requires there { from + len ≤ length source.now }
        ensures bytes { self.new ≡ with_moved self.old at source.now from len }
        ensures step { steps.new ≡ steps.old + 1 }
    {
        steps.tick();
        self.copy_block(at, source, from, len);
    }

    /// The bytes go by an array, which is one copy into it and one out.
    fn copy_block(&mut self, at: usize, source: &Blob, from: usize, len: usize)
        requires few { len ≤ 64 }
        requires room { at + len ≤ length self.old }
        requires there { from + len ≤ length source.now }
        ensures { self.new ≡ with_moved self.old at source.now from len }
    {
        let places = &source.places;
        let mut block = [0u8; 64];
        for k in 0..len {
            block[k] = *places.get(from + k);
        }
        self.copy_in(at, &block[..len]);
    }
}
