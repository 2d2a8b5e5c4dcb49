//! A case: a session, played in three worlds.

use crate::difference::push_difference;
use crate::listening::Listening;
use crate::sums::Sums;
use crate::views::{is_begun_by, with_views};
use ft_base::OutOfMemory;
use ft_client::Client;
use ft_io::{MemSink, MemSource};
use ft_msg::Replica;
use ft_plain::Plain;
use ft_replay::{Fault, replay_session};
use ft_tests_input::{Case as ReadCase, Program, outcomes};
use std::alloc::Global;

// How many bytes a report may have.
const ROOM: usize = 16_777_216;

// How many bytes are read and written at a time.
const PIECE: usize = 65_536;

// The bytes of a line that is one byte too long.
const TOO_LONG: usize = 1_048_577;

/// Cases, and what they come to, one after another.
pub struct Cases;

impl Program for Cases {
    fn output(alloc: Global, input: &[u8]) -> Option<Vec<u8>> {
        outcomes::<Case>(alloc, input)
    }
}

/// A session, and what is to be told of it.
#[derive(Drop)]
pub struct Case {
    input: Vec<u8>,
    lines: u64,
    has_hash: bool,
}

impl ReadCase for Case {
    fn new(alloc: Global) -> Case {
        Case {
            input: Vec::new(alloc),
            lines: 0,
            has_hash: false,
        }
    }

    fn set(&mut self, _alloc: Global, text: &[u8]) -> Option<bool> {
        if text == b"long".as_slice() {
            self.add_long_line()?;
            return Some(true);
        }
        let is_hash = text == b"hash".as_slice();
        self.has_hash = self.has_hash || is_hash;
        Some(is_hash)
    }

    fn ends(&mut self, text: &[u8]) -> bool {
        text == b"end".as_slice()
    }

    fn add_line(&mut self, line: &[u8]) -> Option<()> {
        self.input.extend_from_slice(line).ok()?;
        self.lines = self.lines.saturating_add(1);
        Some(())
    }

    fn push_outcome(&self, alloc: Global, output: &mut Vec<u8>) -> Option<()> {
        self.push_all(alloc, output).ok()
    }
}

impl Case {
    // Adds a line that has one byte more than a line may have.
    fn add_long_line(&mut self) -> Option<()> {
        let end = self.input.len().saturating_add(TOO_LONG);
        self.input.resize(end, b'x').ok()?;
        self.add_line(b"\n".as_slice())
    }

    // Adds what the session comes to in all worlds.
    //
    // Returns `OutOfMemory` where there is no room for it, and `Write` where the report has more than 16 MiB.
    fn push_all(&self, alloc: Global, output: &mut Vec<u8>) -> Result<(), Fault> {
        let plain = played::<Plain>(alloc, self.input.as_slice())?;
        let trees = played::<Client>(alloc, self.input.as_slice())?;
        let viewed = with_views(alloc, self.input.as_slice())?;
        let is_followed = match played::<Listening<Client>>(alloc, viewed.as_slice()) {
            Ok(listening) => is_begun_by(listening.taken(), trees.taken()),
            Err(_) => false,
        };
        self.push_told(alloc, plain.taken(), is_followed, output)?;
        push_difference(alloc, plain.taken(), trees.taken(), output)?;
        Ok(())
    }

    // Adds what is told of its report, and whether the changes led from view to view.
    fn push_told(
        &self,
        alloc: Global,
        report: &[u8],
        is_followed: bool,
        output: &mut Vec<u8>,
    ) -> Result<(), OutOfMemory> {
        let sums = Sums::of(report);
        sums.push_counts(alloc, self.lines, is_followed, output)?;
        if self.has_hash {
            sums.push_hash(alloc, output)?;
        }
        Ok(())
    }
}

// What a session writes in a world of such clients.
fn played<R: Replica + Drop>(alloc: Global, input: &[u8]) -> Result<MemSink, Fault> {
    let mut src = source(alloc, input)?;
    let mut out = MemSink::new(alloc, PIECE, Vec::new(alloc), ROOM)?;
    replay_session::<R, MemSource, MemSink>(alloc, &mut src, &mut out)?;
    Ok(out)
}

// A source over these bytes.
fn source(alloc: Global, input: &[u8]) -> Result<MemSource, OutOfMemory> {
    let bytes = input.to_vec(alloc)?;
    Ok(MemSource::new(alloc, bytes, PIECE, Vec::new(alloc)))
}
