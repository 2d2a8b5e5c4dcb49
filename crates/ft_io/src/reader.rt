//! The lines of what a source gives.

ghost use Rattle.std.specs.Prelude.{◌≡◌, IfOk, IfSome, IsTrue, None, Ok, Err, IsErrOf, OnOk};
ghost use Rattle.ft_io.specs.Reader.{Call, new_reader};

use crate::byte_lists::Bytes;
use crate::intake::{INPUT_LIMIT, Intake};
use crate::pieces::InputPiece;
use crate::streams::{Failed, Source};
use ft_base::OutOfMemory;
use std::alloc::Global;
use std::error::Error;
use std::fmt;
use std::marker::Model;

/// What a reader of lines returns.
#[derive(Drop)]
pub enum Line {
    /// The next line, without its LF.
    Full(Bytes),
    /// The next line has more bytes than the limit, and was passed.
    TooLong,
    /// There is no further line.
    End,
}

/// Why a reader of lines has stopped.
#[derive(Clone, Copy, Debug, PartialEq, Eq)]
pub enum LineFault {
    /// The source failed.
    Read,
    /// The source gave a byte more than the 16,777,216 that an input may have.
    InputLimit,
    /// No memory was found.
    OutOfMemory,
}

impl fmt::Display for LineFault {
    ghost use Rattle.std.specs.Prelude.{Some};
    ghost use Rattle.ft_io.specs.FaultTexts.{line_fault_text};

    ghost output = { λ fault. Some (line_fault_text fault) };

    fn fmt<W: fmt::Write>(&self, f: &mut fmt::Formatter<W>) -> fmt::Result {
        match *self {
            LineFault::Read => write!(f, "Read"),
            LineFault::InputLimit => write!(f, "InputLimit {INPUT_LIMIT}"),
            LineFault::OutOfMemory => write!(f, "OutOfMemory"),
        }
    }
}

impl Error for LineFault {}

impl From<Failed> for LineFault {
    ghost use Rattle.ft_io.specs.declared.reader.LineFault.TheVariants.{Read};

    ghost from_gives = { λ _ e. e ≡ Read };

    fn from(_fault: Failed) -> LineFault {
        LineFault::Read
    }
}

impl From<OutOfMemory> for LineFault {
    ghost use Rattle.ft_io.specs.declared.reader.LineFault.TheVariants.{OutOfMemory};

    ghost from_gives = { λ _ e. e ≡ OutOfMemory };

    fn from(_fault: OutOfMemory) -> LineFault {
        LineFault::OutOfMemory
    }
}

/// A reader of lines. It reads its source in pieces of up to 65,536 bytes, each only where no line of
/// the earlier ones is left.
#[derive(Drop)]
pub struct Lines {
    alloc: Global,
    intake: Intake,
    limit: usize,
    fault: Option<LineFault>,
}

impl Model for Lines {
    ghost use Rattle.ft_io.specs.Reader.{Reader};

    ghost Value = { Reader };

    ghost use Rattle.ft_io.specs.Intake.{as_reader};

    ghost view = { λ a. as_reader a.intake a.limit a.fault };
}

impl Lines {
    /// A reader to which nothing was given, and whose lines have at most `limit` bytes, each without
    /// its LF.
    pub fn new(alloc: Global, limit: usize) -> Result<Lines, OutOfMemory>
        ensures { IfOk result (λ lines. lines ≡ new_reader limit) }
    {
        Ok(Lines {
            alloc,
            intake: Intake {
                piece: InputPiece::new(alloc)?,
                given: 0,
                ended: false,
            },
            limit,
            fault: None,
        })
    }

    /// Changes the greatest length of the lines that are handed out from here on.
    pub fn set_limit(&mut self, limit: usize)
        ensures { self.new ≡ record self.old { limit = limit } }
    {
        self.limit = limit;
    }

    /// The next line without its LF, `TooLong` exactly where it has more bytes than the limit, and then
    /// the whole line is passed, or `End` exactly at the end of the input. A last line without LF counts
    /// if it has a byte.
    ///
    /// Returns `Read` only where the source's count of faults rose in this call, `InputLimit` exactly
    /// where the source gave a byte more than an input may have, both only where every line that was
    /// ended by the bytes given was handed out, and `OutOfMemory` where there is no room for the line.
    /// After any of the three every later call returns the same, and after the end every later call
    /// returns that: the source is not read again. Where it doesn't return `Read`, the source's count is as it was.
    pub fn next<S: Source>(&mut self, src: &mut S) -> Result<Line, LineFault>
        ensures call { self.old.fault ≡ None → Call self.old self.new (S.remaining src.old) (S.remaining src.new)
            (S.faults src.old) (S.faults src.new) result }
        ensures stopped { IfSome self.old.fault (λ fault.
            (result ≡ Err fault) × (self.new ≡ self.old) × (src.new ≡ src.old)) }
        ensures ended { self.old.fault ≡ None → IsTrue self.old.ended →
            (result ≡ Ok Line.End) × (self.new ≡ self.old) × (src.new ≡ src.old) }
        ensures steady { OnOk result (S.faults src.new ≡ S.faults src.old) }
        ensures kept { ¬ IsErrOf result LineFault.Read → S.faults src.new ≡ S.faults src.old }
    {
        if let Some(fault) = self.fault {
            return Err(fault);
        }
        if self.intake.ended {
            return Ok(Line::End);
        }
        match self.intake.next_line(self.alloc, self.limit, src) {
            Ok(line) => Ok(line),
            Err(fault) => {
                self.fault = Some(fault);
                Err(fault)
            }
        }
    }
}
