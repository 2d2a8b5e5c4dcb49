//! How a run ends.

ghost use Rattle.std.specs.Prelude.{◌≡◌};

use ft_base::OutOfMemory;
use ft_io::{Failed, LineFault};
use std::error::Error;
use std::fmt;

/// How a run ends whose report is whole.
#[derive(Clone, Copy, Debug, PartialEq, Eq)]
pub enum Ending {
    /// No line and no event was refused, and no sub-operation skipped.
    Done,
    /// A line or an event was refused, or a sub-operation skipped.
    SomeRefused,
}

impl fmt::Display for Ending {
    ghost use Rattle.std.specs.Prelude.{Some};
    ghost use Rattle.ft_replay.specs.Endings.{ending_text};

    ghost output = { λ ending. Some (ending_text ending) };

    fn fmt<W: fmt::Write>(&self, f: &mut fmt::Formatter<W>) -> fmt::Result {
        match self {
            Ending::Done => f.write_str("Done"),
            Ending::SomeRefused => f.write_str("SomeRefused"),
        }
    }
}

/// What ends a run before its report is whole.
#[derive(Clone, Copy, Debug, PartialEq, Eq)]
pub enum Fault {
    /// The source failed.
    Read,
    /// The sink failed.
    Write,
    /// No memory was found.
    OutOfMemory,
    /// The source gave a byte more than the 16,777,216 that an input may have.
    InputLimit,
}

impl fmt::Display for Fault {
    ghost use Rattle.std.specs.Prelude.{Some};
    ghost use Rattle.ft_replay.specs.Endings.{fault_text};

    ghost output = { λ fault. Some (fault_text fault) };

    fn fmt<W: fmt::Write>(&self, f: &mut fmt::Formatter<W>) -> fmt::Result {
        match self {
            Fault::Read => f.write_str("Read"),
            Fault::Write => f.write_str("Write"),
            Fault::OutOfMemory => f.write_str("OutOfMemory"),
            Fault::InputLimit => f.write_str("InputLimit"),
        }
    }
}

impl Error for Fault {}

impl From<Failed> for Fault {
    ghost use Rattle.ft_replay.specs.declared.endings.Fault.TheVariants.{Write};

    ghost from_gives = { λ _ fault. fault ≡ Write };

    // A sink failed.
    fn from(_fault: Failed) -> Fault {
        Fault::Write
    }
}

impl From<OutOfMemory> for Fault {
    ghost use Rattle.ft_replay.specs.declared.endings.Fault.TheVariants.{OutOfMemory};

    ghost from_gives = { λ _ fault. fault ≡ OutOfMemory };

    fn from(_fault: OutOfMemory) -> Fault {
        Fault::OutOfMemory
    }
}

impl From<LineFault> for Fault {
    ghost use Rattle.ft_replay.specs.Endings.{fault_of_line};

    ghost from_gives = { λ line fault. fault ≡ fault_of_line line };

    fn from(fault: LineFault) -> Fault {
        match fault {
            LineFault::Read => Fault::Read,
            LineFault::InputLimit => Fault::InputLimit,
            LineFault::OutOfMemory => Fault::OutOfMemory,
        }
    }
}
