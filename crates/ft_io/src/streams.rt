//! Where bytes come from and where they go.

ghost use Rattle.std.specs.Prelude.{ℕ, ◌<◌, ◌≤◌, List, Option, None, take, length, IfOk, OnOk, OnErr};
ghost use Rattle.std.specs.Io.KnownBytes.{Appends, ReadConsumes, WriteAppends};
ghost use Rattle.ft_io.specs.Streams.{HasCause};

use std::error::Error;
use std::fmt;

/// A read or a write failed. Why is not told; that it did is counted.
#[derive(Clone, Copy, Debug, PartialEq, Eq)]
pub struct Failed;

impl fmt::Display for Failed {
    ghost use Rattle.std.specs.Prelude.{Some, codes};

    ghost output = { λ _. Some (codes "Failed") };

    fn fmt<W: fmt::Write>(&self, f: &mut fmt::Formatter<W>) -> fmt::Result {
        write!(f, "Failed")
    }
}

impl Error for Failed {}

/// Where bytes come from.
pub trait Source {
    /// The bytes left to read, where the source tells them.
    ghost remaining: { Self → Option (List ℕ) } = { λ _. None };

    /// How often it has failed: a count that never falls, and that stops at 2^64 - 1.
    ghost faults: { Self → ℕ };

    /// Reads bytes into the front of `buf`, and returns how many: none only at the end or where
    /// `buf` is empty.
    ///
    /// Returns `Failed` only where the count of faults rose in this call, and then no byte was read; else the
    /// count is as it was.
    fn read(&mut self, buf: &mut [u8]) -> Result<usize, Failed>
        ensures count { IfOk result (λ n. n ≤ length buf.new) }
        ensures bytes { ReadConsumes (remaining self.old) (remaining self.new) result buf.new }
        ensures cause { HasCause (faults self.old) (faults self.new) result };
}

/// Where bytes go.
pub trait Sink {
    /// The bytes taken, where the sink tells them.
    ghost contents: { Self → Option (List ℕ) } = { λ _. None };

    /// How often it has failed: a count that never falls, and that stops at 2^64 - 1.
    ghost faults: { Self → ℕ };

    /// Takes bytes from the front of `buf`, and returns how many: none only where `buf` is empty.
    ///
    /// Returns `Failed` only where the count of faults rose in this call, and then no byte was taken; else the
    /// count is as it was.
    fn write(&mut self, buf: &[u8]) -> Result<usize, Failed>
        ensures count { IfOk result (λ n. n ≤ length buf.now) }
        ensures some { 0 < length buf.now → IfOk result (λ n. 0 < n) }
        ensures bytes { WriteAppends (contents self.old) (contents self.new) result buf.now }
        ensures cause { HasCause (faults self.old) (faults self.new) result };
}

/// Writes all the bytes, in order.
///
/// Returns `Failed` only where the sink's count of faults rose in this call, and then the sink has
/// taken some of the first of the bytes; else the count is as it was, so no write was tried again.
pub fn write_all<K: Sink>(out: &mut K, bytes: &[u8]) -> Result<(), Failed>
    ensures ok { OnOk result (Appends (K.contents out.old) (K.contents out.new) bytes.now) }
    ensures prefix { OnErr result ((n : ℕ) × (n ≤ length bytes.now)
        × Appends (K.contents out.old) (K.contents out.new) (take n bytes.now)) }
    ensures cause { HasCause (K.faults out.old) (K.faults out.new) result }
{
    let mut at = 0;
    while at < bytes.len() {
        at += out.write(&bytes[at..])?;
    }
    Ok(())
}
