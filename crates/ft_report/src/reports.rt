//! A whole report at once, over memory.

ghost use Rattle.std.specs.Prelude.{ℕ, List, IfOk, IfErr};
ghost use Rattle.ft_report.specs.Reports.{IsCause, IsReport, Tells};

use crate::streams::{Input, Output};
use ft_msg::Replica;
use ft_replay::{Ending, Fault, replay_session};
use std::alloc::Global;
use std::error::Error;
use std::fmt;

/// The report is in the room; no line was refused, and no sub-operation skipped.
pub const DONE: u32 = 0;

/// The report is in the room; a line was refused, or a sub-operation skipped.
pub const SOME_REFUSED: u32 = 1;

/// The report has more bytes than the room.
pub const TOO_SMALL: u32 = 4;

/// There was no memory.
pub const OUT_OF_MEMORY: u32 = 5;

/// The input has more than the 16,777,216 bytes that an input may have.
pub const TOO_LONG: u32 = 6;

/// The report of an input.
#[derive(Drop)]
pub struct Report {
    pub bytes: Vec<u8>,
    /// How it ends.
    pub ending: Ending,
}

/// Why there is no report.
#[derive(Clone, Copy, Debug, PartialEq, Eq)]
pub enum ReportFault {
    /// There was no memory.
    OutOfMemory,
    /// The input has more than the 16,777,216 bytes that an input may have.
    TooLong,
}

impl fmt::Display for ReportFault {
    ghost use Rattle.std.specs.Prelude.{Some};
    ghost use Rattle.ft_report.specs.Reports.{report_fault_text};

    ghost output = { λ fault. Some (report_fault_text fault) };

    fn fmt<W: fmt::Write>(&self, f: &mut fmt::Formatter<W>) -> fmt::Result {
        match self {
            ReportFault::OutOfMemory => write!(f, "OutOfMemory"),
            ReportFault::TooLong => write!(f, "TooLong"),
        }
    }
}

impl Error for ReportFault {}

/// The report of the session whose events are the lines of the input, with clients of type `R`.
///
/// Returns `TooLong` only where the input has more bytes than it may have, and `OutOfMemory` where there is no
/// room for what it makes.
pub fn session_report<R: Replica + Drop>(alloc: Global, input: &[u8]) -> Result<Report, ReportFault>
    ensures ok { IfOk result (IsReport input.now) }
    ensures err { IfErr result (IsCause input.now) }
{
    let mut src = Input { left: input };
    let mut out = Output::new(alloc);
    match replay_session::<R, Input, Output>(alloc, &mut src, &mut out) {
        Ok(ending) => Ok(Report {
            bytes: out.bytes,
            ending,
        }),
        Err(Fault::InputLimit) => Err(ReportFault::TooLong),
        Err(Fault::Write | Fault::OutOfMemory) => Err(ReportFault::OutOfMemory),
        Err(Fault::Read) => unreachable!(),
    }
}

/// The same, as C is told of it: the report goes into the first bytes of the room, and `count` is how many bytes it
/// has.
///
/// Returns `DONE` or `SOME_REFUSED` where the report is in the room, `TOO_SMALL` where it has more bytes than the
/// room, `OUT_OF_MEMORY` and `TOO_LONG` where there is none; `count` is 0 then. In these three the room is as it was.
pub fn report_into<R: Replica + Drop>(
    alloc: Global,
    input: &[u8],
    room: &mut [u8],
    count: &mut usize,
) -> u32
    ensures { Tells input.now room.old room.new count.new result }
{
    *count = 0;
    match session_report::<R>(alloc, input) {
        Ok(report) => put_report(&report, room, count),
        Err(ReportFault::OutOfMemory) => OUT_OF_MEMORY,
        Err(ReportFault::TooLong) => TOO_LONG,
    }
}

// Puts the report into the room, if that is large enough, and tells how many bytes it has.
fn put_report(report: &Report, room: &mut [u8], count: &mut usize) -> u32
    ensures { (input : List ℕ) → IsReport input report.now → Tells input room.old room.new count.new result }
{
    *count = report.bytes.len();
    if *count > room.len() {
        return TOO_SMALL;
    }
    room[..*count].copy_from_slice(report.bytes.as_slice());
    match report.ending {
        Ending::Done => DONE,
        Ending::SomeRefused => SOME_REFUSED,
    }
}
