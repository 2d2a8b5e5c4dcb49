//! A run of the program over memory.

use crate::views::push_views;
use ft_base::OutOfMemory;
use ft_cli::run;
use ft_io::{MemSink, MemSource};
use std::alloc::Global;

/// What a run is made over.
#[derive(Clone, Copy)]
pub struct CaseRun<'a> {
    pub words: &'a Vec<String>,
    pub input: &'a [u8],
    pub failing_reads: &'a [u64],
    pub failing_writes: &'a [u64],
    /// How many bytes are read and written at a time, at least one.
    pub piece: usize,
    /// How many bytes the output has room for.
    pub room: usize,
    /// Whether only the views of the report are looked at.
    pub views: bool,
}

impl<'a> CaseRun<'a> {
    /// Adds the name of the run and what it comes to, unless the run before it came to the same.
    ///
    /// Returns `OutOfMemory` where there is no room for it.
    pub fn push_if_other(
        &self,
        alloc: Global,
        name: &str,
        output: &mut Vec<u8>,
    ) -> Result<(), OutOfMemory> {
        let mut outcome = Vec::new(alloc);
        self.push(alloc, &mut outcome)?;
        if !output.ends_with(outcome.as_slice()) {
            output.extend_from_slice(name.as_bytes())?;
            output.extend_from_slice(outcome.as_slice())?;
        }
        Ok(())
    }

    /// Adds the status of the run and the bytes that it wrote, or what is said of its views.
    ///
    /// Returns `OutOfMemory` where there is no room for them.
    pub fn push(&self, alloc: Global, output: &mut Vec<u8>) -> Result<(), OutOfMemory> {
        let mut out = self.sink(alloc)?;
        let status = self.written(alloc, &mut out)?;
        push_status(alloc, status, output)?;
        if self.views {
            push_views(alloc, out.taken(), output)?;
        } else {
            output.extend_from_slice(out.taken())?;
        }
        output.push(b'\n')?;
        Ok(())
    }

    /// Adds the bytes that the run wrote.
    ///
    /// Returns `OutOfMemory` where there is no room for them.
    pub fn push_written(&self, alloc: Global, bytes: &mut Vec<u8>) -> Result<(), OutOfMemory> {
        let mut out = self.sink(alloc)?;
        self.written(alloc, &mut out)?;
        bytes.extend_from_slice(out.taken())?;
        Ok(())
    }

    // Runs it, and returns its status.
    fn written(&self, alloc: Global, out: &mut MemSink) -> Result<u8, OutOfMemory> {
        let mut src = self.source(alloc)?;
        Ok(run(alloc, self.words, &mut src, out).code())
    }

    // The source of the run.
    fn source(&self, alloc: Global) -> Result<MemSource, OutOfMemory> {
        let input = self.input.to_vec(alloc)?;
        let failing = self.failing_reads.to_vec(alloc)?;
        Ok(MemSource::new(alloc, input, self.piece.max(1), failing))
    }

    // The sink of the run.
    fn sink(&self, alloc: Global) -> Result<MemSink, OutOfMemory> {
        let failing = self.failing_writes.to_vec(alloc)?;
        MemSink::new(alloc, self.piece.max(1), failing, self.room)
    }
}

// Adds the line of a status.
fn push_status(alloc: Global, status: u8, output: &mut Vec<u8>) -> Result<(), OutOfMemory> {
    let line = format!(in alloc; "status {status}\n")?;
    output.extend_from_slice(line.as_bytes())?;
    Ok(())
}
