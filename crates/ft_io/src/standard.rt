//! Standard input and output. What they give and take is not told, their faults are counted.

ghost use Rattle.std.specs.Prelude.{◌≡◌, ℕ, ◌<◌, ◌≤◌, length, IfOk, OnErr, IsErr, Ok};
ghost use Rattle.ft_io.specs.Streams.{HasCause, one_more};

use crate::streams::{Failed, Sink, Source};
use std::io;
use std::io::{ErrorKind, Read, Write};
use std::marker::Model;
use std::rt::{Stdin, Stdout};

/// Standard input, which contracts see as its count of faults.
#[derive(Drop)]
pub struct StdSource {
    input: Stdin,
    faults: u64,
}

impl Model for StdSource {
    ghost use Rattle.std.specs.Prelude.{ℕ};

    ghost Value = { ℕ };

    ghost view = { λ a. a.faults };
}

impl StdSource {
    /// Standard input, which has not failed yet.
    pub fn new(input: Stdin) -> StdSource
        ensures { result ≡ 0 }
    {
        StdSource { input, faults: 0 }
    }
}

impl Source for StdSource {
    ghost faults = { λ s. s };

    fn read(&mut self, buf: &mut [u8]) -> Result<usize, Failed> {
        let answer = self.input.read(buf);
        counted(&mut self.faults, answer)
    }
}

/// Standard output, which contracts see as its count of faults.
#[derive(Drop)]
pub struct StdSink {
    output: Stdout,
    faults: u64,
}

impl Model for StdSink {
    ghost use Rattle.std.specs.Prelude.{ℕ};

    ghost Value = { ℕ };

    ghost view = { λ a. a.faults };
}

impl StdSink {
    /// Standard output, which has not failed yet.
    pub fn new(output: Stdout) -> StdSink
        ensures { result ≡ 0 }
    {
        StdSink { output, faults: 0 }
    }
}

impl Sink for StdSink {
    ghost faults = { λ s. s };

    // It flushes before it returns Ok. A write that takes none of some bytes, and a flush that
    // fails, are faults.
    fn write(&mut self, buf: &[u8]) -> Result<usize, Failed> {
        let answer = write_through(&mut self.output, buf);
        counted(&mut self.faults, answer)
    }
}

// Writes to the output and flushes it. To take none of some bytes is an error.
fn write_through<W: Write>(output: &mut W, buf: &[u8]) -> io::Result<usize>
    ensures count { IfOk result (λ n. n ≤ length buf.now) }
    ensures some { 0 < length buf.now → IfOk result (λ n. 0 < n) }
{
    let n = output.write(buf)?;
    if n == 0 && !buf.is_empty() {
        return Err(io::Error::from(ErrorKind::WriteZero));
    }
    output.flush()?;
    Ok(n)
}

// An error counts as one fault more, and what it says is dropped.
fn counted(faults: &mut u64, answer: io::Result<usize>) -> Result<usize, Failed>
    ensures ok { IfOk answer (λ n. (result ≡ Ok n) × (faults.new ≡ faults.old)) }
    ensures err { OnErr answer (IsErr result × (faults.new ≡ one_more faults.old)) }
    ensures cause { HasCause faults.old faults.new result }
{
    match answer {
        Ok(n) => Ok(n),
        Err(_) => {
            *faults = faults.saturating_add(1);
            Err(Failed)
        }
    }
}
