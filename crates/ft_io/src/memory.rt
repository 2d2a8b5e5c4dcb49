//! A source and a sink over memory, which fail at the calls that a list names.

ghost use Rattle.std.specs.Prelude.{◌≡◌, ◌<◌, ◌≤◌, Some, length, IfOk};
ghost use Rattle.std.specs.Io.KnownBytes.{ReadConsumes, WriteAppends};
ghost use Rattle.ft_io.specs.Streams.{HasCause};
ghost use Rattle.ft_io.specs.Memory.{new_supply, new_store, ReadsPiece, WritesPiece};

use crate::streams::{Failed, Sink, Source};
use ft_base::OutOfMemory;
use std::alloc::Global;
use std::marker::Model;

/// A source over memory. It gives its bytes in pieces of a stated length, and fails exactly at the
/// calls that a list names.
#[derive(Drop)]
pub struct MemSource {
    bytes: Vec<u8>,
    at: usize,
    piece: usize,
    fails: Vec<u64>,
    calls: u64,
    faults: u64,
}

impl Model for MemSource {
    ghost use Rattle.std.specs.Prelude.{◌≤◌, drop, vec_len};
    ghost use Rattle.ft_io.specs.Memory.{Supply};

    ghost Value = { Supply };

    ghost view = { λ a. record {
      left = drop a.at a.bytes.items;
      piece = a.piece;
      fails = a.fails.items;
      calls = a.calls;
      faults = a.faults;
    } };

    ghost invariant = { λ a. (a.at ≤ vec_len a.bytes) × (1 ≤ a.piece) };
}

impl MemSource {
    /// A source that has these bytes, gives at most `piece` of them at a call, and fails at the
    /// calls whose numbers are in `fails`. Calls are numbered from 1, and all past the 2^64 - 1st
    /// have its number.
    pub fn new(_alloc: Global, bytes: Vec<u8>, piece: usize, fails: Vec<u64>) -> MemSource
        requires { 1 ≤ piece }
        ensures { result ≡ new_supply bytes.items piece fails.items }
    {
        MemSource {
            bytes,
            at: 0,
            piece,
            fails,
            calls: 0,
            faults: 0,
        }
    }
}

impl Source for MemSource {
    ghost remaining = { λ s. Some s.left };

    ghost faults = { λ s. s.faults };

    fn read(&mut self, buf: &mut [u8]) -> Result<usize, Failed>
        ensures count { IfOk result (λ n. n ≤ length buf.new) }
        ensures bytes { ReadConsumes (Some self.old.left) (Some self.new.left) result buf.new }
        ensures cause { HasCause self.old.faults self.new.faults result }
        ensures exact { ReadsPiece self.old self.new buf.old buf.new result }
    {
        self.calls = self.calls.saturating_add(1);
        if self.fails.contains(&self.calls) {
            self.faults = self.faults.saturating_add(1);
            return Err(Failed);
        }
        let left = &self.bytes[self.at..];
        let n = left.len().min(buf.len()).min(self.piece);
        buf[..n].copy_from_slice(&left[..n]);
        self.at += n;
        Ok(n)
    }
}

/// A sink over memory. It takes bytes in pieces of a stated length, up to the room that it was made
/// with, and fails exactly at the calls that a list names and where its room is full.
#[derive(Drop)]
pub struct MemSink {
    bytes: Vec<u8>,
    piece: usize,
    fails: Vec<u64>,
    room: usize,
    calls: u64,
    faults: u64,
}

impl Model for MemSink {
    ghost use Rattle.std.specs.Prelude.{◌≤◌, vec_len, vec_capacity};
    ghost use Rattle.ft_io.specs.Memory.{Store};

    ghost Value = { Store };

    ghost view = { λ a. record {
      taken = a.bytes.items;
      piece = a.piece;
      fails = a.fails.items;
      room = a.room;
      calls = a.calls;
      faults = a.faults;
    } };

    ghost invariant = { λ a. (vec_len a.bytes ≤ a.room) × (a.room ≤ vec_capacity a.bytes) × (1 ≤ a.piece) };
}

impl MemSink {
    /// A sink that has taken nothing, takes at most `piece` bytes at a call and `room` in all, and
    /// fails at the calls whose numbers are in `fails`. Calls are numbered from 1, and all past the
    /// 2^64 - 1st have its number. The room is taken here, so writes take no memory.
    ///
    /// Returns `OutOfMemory` where the room isn't found.
    pub fn new(
        alloc: Global,
        piece: usize,
        fails: Vec<u64>,
        room: usize,
    ) -> Result<MemSink, OutOfMemory>
        requires { 1 ≤ piece }
        ensures { IfOk result (λ sink. sink ≡ new_store piece fails.items room) }
    {
        Ok(MemSink {
            bytes: Vec::with_capacity(alloc, room)?,
            piece,
            fails,
            room,
            calls: 0,
            faults: 0,
        })
    }

    /// The bytes taken, in order.
    pub fn taken(&self) -> &[u8]
        ensures { result.now ≡ self.now.taken }
    {
        self.bytes.as_slice()
    }
}

impl Sink for MemSink {
    ghost contents = { λ s. Some s.taken };

    ghost faults = { λ s. s.faults };

    fn write(&mut self, buf: &[u8]) -> Result<usize, Failed>
        ensures count { IfOk result (λ n. n ≤ length buf.now) }
        ensures some { 0 < length buf.now → IfOk result (λ n. 0 < n) }
        ensures bytes { WriteAppends (Some self.old.taken) (Some self.new.taken) result buf.now }
        ensures cause { HasCause self.old.faults self.new.faults result }
        ensures exact { WritesPiece self.old self.new buf.now result }
    {
        self.calls = self.calls.saturating_add(1);
        let free = self.room - self.bytes.len();
        let is_full = free == 0 && !buf.is_empty();
        if self.fails.contains(&self.calls) || is_full {
            self.faults = self.faults.saturating_add(1);
            return Err(Failed);
        }
        let n = free.min(buf.len()).min(self.piece);
        match self.bytes.extend_from_slice(&buf[..n]) {
            Ok(()) => Ok(n),
            Err(_) => unreachable!(),
        }
    }
}
