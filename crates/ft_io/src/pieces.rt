//! A piece of an input at a time.

ghost use Rattle.std.specs.Prelude.{◌≡◌, ◌<◌, ◌≤◌, [], length, take, drop, IfOk, OnOk, OnErr};
ghost use Rattle.std.specs.Io.KnownBytes.{Consumes, IsAtEnd, Keeps};
ghost use Rattle.ft_io.specs.Streams.{HasCause};

use crate::streams::{Failed, Source};
use ft_base::OutOfMemory;
use std::alloc::Global;
use std::marker::Model;

/// How many bytes are asked for at a time.
const PIECE: usize = 1 << 16;

/// A piece of the input, which is filled from a source and emptied from its front. Contracts see it
/// as the bytes in it.
#[derive(Drop)]
pub struct InputPiece {
    bytes: Vec<u8>,
    from: usize,
    to: usize,
}

impl Model for InputPiece {
    ghost use Rattle.std.specs.Prelude.{◌-◌, ◌<◌, ◌≤◌, List, ℕ, take, drop, vec_len};

    ghost Value = { List ℕ };

    ghost view = { λ a. take (a.to - a.from) (drop a.from a.bytes.items) };

    ghost invariant = { λ a. (a.from ≤ a.to) × (a.to ≤ vec_len a.bytes) × (0 < vec_len a.bytes) };
}

impl InputPiece {
    /// An empty piece.
    pub fn new(alloc: Global) -> Result<InputPiece, OutOfMemory>
        ensures { IfOk result (λ piece. piece ≡ []) }
    {
        Ok(InputPiece {
            bytes: vec![in alloc; 0; PIECE]?,
            from: 0,
            to: 0,
        })
    }

    /// The bytes in it.
    pub fn bytes(&self) -> &[u8]
        ensures { result.now ≡ self.now }
    {
        &self.bytes[self.from..self.to]
    }

    /// Drops the first `n` bytes.
    pub fn advance(&mut self, n: usize)
        requires { n ≤ length self.old }
        ensures { self.new ≡ drop n self.old }
    {
        self.from += n;
    }

    /// Fills it with at most `most` bytes, and returns how many: none only at the source's end.
    ///
    /// Returns `Failed` only where the source's count of faults rose, and then it is empty.
    pub fn fill<S: Source>(&mut self, src: &mut S, most: usize) -> Result<usize, Failed>
        requires { 0 < most }
        ensures count { IfOk result (λ n. (n ≡ length self.new) × (n ≤ most)) }
        ensures bytes { OnOk result (Consumes (S.remaining src.old) (S.remaining src.new) self.new) }
        ensures end { IfOk result (λ n. n ≡ 0 → IsAtEnd (S.remaining src.new)) }
        ensures err { OnErr result ((self.new ≡ []) × Keeps (S.remaining src.old) (S.remaining src.new)) }
        ensures cause { HasCause (S.faults src.old) (S.faults src.new) result }
    {
        self.from = 0;
        self.to = 0;
        let n = read_front(&mut self.bytes, src, most)?;
        self.to = n;
        Ok(n)
    }
}

// Reads at most `most` bytes into the front of the buffer.
fn read_front<S: Source>(buf: &mut [u8], src: &mut S, most: usize) -> Result<usize, Failed>
    requires some { 0 < most }
    requires room { 0 < length buf.old }
    ensures count { IfOk result (λ n. (n ≤ length buf.new) × (n ≤ most)) }
    ensures bytes { IfOk result (λ n. Consumes (S.remaining src.old) (S.remaining src.new) (take n buf.new)) }
    ensures end { IfOk result (λ n. n ≡ 0 → IsAtEnd (S.remaining src.new)) }
    ensures err { OnErr result (Keeps (S.remaining src.old) (S.remaining src.new)) }
    ensures cause { HasCause (S.faults src.old) (S.faults src.new) result }
{
    let room = buf.len().min(most);
    src.read(&mut buf[..room])
}
