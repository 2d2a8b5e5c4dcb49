//! What was written and waits to be read.

ghost use Rattle.std.specs.Prelude.{◌≡◌, ◌+◌, ◌<◌, ◌≤◌, ℕ, List, [], ◌++◌, IfOk, OnErr, OnOk, drop, length, string_bytes, take};

use ft_base::OutOfMemory;
use ft_io::{Failed, Sink};
use std::alloc::Global;

/// What was written and waits to be read. A write fails only where there is no memory for more, and no more of what was read is kept
/// than what waits.
#[derive(Drop)]
pub struct Waiting {
    bytes: Vec<u8>,
    // How many of them were read.
    taken: usize,
    faults: u64,
    ghost freed: { taken + taken ≤ length bytes.items },
}

impl Waiting {
    /// Nothing.
    pub fn new(alloc: Global) -> Waiting
        ensures { drop result.taken result.bytes.items ≡ [] }
    {
        Waiting {
            bytes: Vec::new(alloc),
            taken: 0,
            faults: 0,
        }
    }

    /// Puts bytes behind those that wait.
    ///
    /// Returns `OutOfMemory` where there is no room for them, and then none is put there.
    pub fn push(&mut self, bytes: &[u8]) -> Result<(), OutOfMemory>
        ensures ok { OnOk result (drop self.new.taken self.new.bytes.items ≡ drop self.old.taken self.old.bytes.items ++ bytes.now) }
        ensures err { OnErr result (drop self.new.taken self.new.bytes.items ≡ drop self.old.taken self.old.bytes.items) }
    {
        self.bytes.extend_from_slice(bytes)?;
        Ok(())
    }

    /// Puts the bytes of a text behind those that wait, if it was made.
    ///
    /// Returns `OutOfMemory` where it wasn't, or there is no room for it, and then none is put there.
    pub fn push_made(&mut self, made: &Result<String, OutOfMemory>) -> Result<(), OutOfMemory>
        ensures ok { (bytes : List ℕ) → IfOk made.now (λ text. string_bytes text ≡ bytes)
            → OnOk result (drop self.new.taken self.new.bytes.items ≡ drop self.old.taken self.old.bytes.items ++ bytes) }
        ensures err { OnErr result (drop self.new.taken self.new.bytes.items ≡ drop self.old.taken self.old.bytes.items) }
    {
        match made {
            Ok(text) => self.push(text.as_bytes()),
            Err(_) => Err(OutOfMemory),
        }
    }

    /// How many bytes wait.
    pub fn len(&self) -> usize
        ensures { result ≡ length (drop self.now.taken self.now.bytes.items) }
    {
        self.bytes.len() - self.taken
    }

    /// Reads the next bytes into the first of the room, as many as it has room for, and returns how many. What was read is let go of where
    /// it is more than what waits.
    pub fn read(&mut self, room: &mut [u8]) -> usize
        ensures within { result ≤ length room.new }
        ensures whole { result < length room.new → drop self.new.taken self.new.bytes.items ≡ [] }
        ensures bytes { take result room.new ++ drop self.new.taken self.new.bytes.items ≡ drop self.old.taken self.old.bytes.items }
        ensures freed { self.new.taken ≤ length (drop self.new.taken self.new.bytes.items) }
    {
        let next = &self.bytes[self.taken..];
        let count = next.len().min(room.len());
        room[..count].copy_from_slice(&next[..count]);
        let taken = self.taken + count;
        if taken > self.bytes.len() - taken {
            self.bytes.drain(..taken);
            self.taken = 0;
        } else {
            self.taken = taken;
        }
        count
    }
}

impl Sink for Waiting {
    ghost use Rattle.std.specs.Prelude.{Some, drop};

    ghost contents = { λ s. Some (drop s.taken s.bytes.items) };

    ghost faults = { λ s. s.faults };

    fn write(&mut self, buf: &[u8]) -> Result<usize, Failed> {
        match self.bytes.extend_from_slice(buf) {
            Ok(()) => Ok(buf.len()),
            Err(_) => {
                self.faults = self.faults.saturating_add(1);
                Err(Failed)
            }
        }
    }
}
