//! The input of a report, and the report as it grows.

ghost use Rattle.std.specs.Prelude.{◌≡◌, []};

use ft_io::{Failed, Sink, Source};
use std::alloc::Global;

/// The bytes of an input that aren't read yet. It never fails.
#[derive(Drop)]
pub struct Input<'a> {
    pub left: &'a [u8],
}

impl<'a> Source for Input<'a> {
    ghost use Rattle.std.specs.Prelude.{Some};

    ghost remaining = { λ s. Some s.left.now };

    ghost faults = { λ s. 0 };

    fn read(&mut self, buf: &mut [u8]) -> Result<usize, Failed> {
        let count = self.left.len().min(buf.len());
        let (first, rest) = self.left.split_at(count);
        buf[..count].copy_from_slice(first);
        self.left = rest;
        Ok(count)
    }
}

/// The bytes that were written so far. It fails only where there is no memory for more.
#[derive(Drop)]
pub struct Output {
    pub bytes: Vec<u8>,
    faults: u64,
}

impl Output {
    /// Nothing.
    pub fn new(alloc: Global) -> Output
        ensures { result.bytes.items ≡ [] }
    {
        Output {
            bytes: Vec::new(alloc),
            faults: 0,
        }
    }
}

impl Sink for Output {
    ghost use Rattle.std.specs.Prelude.{Some};

    ghost contents = { λ s. Some s.bytes.items };

    ghost faults = { λ s. s.faults };

    fn write(&mut self, buf: &[u8]) -> Result<usize, Failed> {
        match self.bytes.extend_from_slice(buf) {
            Ok(()) => Ok(buf.len()),
            Err(_) => {
                self.faults = self.faults.saturating_add(1);
                Err(Failed)
            }
        }
    }
}
