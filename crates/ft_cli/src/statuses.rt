//! How the program ends.

ghost use Rattle.std.specs.Prelude.{◌≡◌};

use ft_replay::{Ending, Fault};
use std::fmt;

/// How the program ends.
#[derive(Clone, Copy, Debug, PartialEq, Eq)]
pub enum Status {
    /// The input was read to its end and the report is written; no line was refused, and no
    /// sub-operation skipped.
    Done,
    /// The input was read to its end and the report is written; a line was refused or a sub-operation
    /// skipped.
    SomeRefused,
    /// The arguments are of no command. Nothing is read or written.
    Usage,
    /// The source failed.
    ReadFault,
    /// The sink failed.
    WriteFault,
    /// No memory was found.
    OutOfMemory,
    /// The source gave a byte more than the 16,777,216 that an input may have.
    InputLimit,
}

impl Status {
    ghost use Rattle.ft_cli.specs.Statuses.{status_code};

    /// The number that the program ends with.
    pub fn code(self) -> u8
        ensures { result ≡ status_code self }
    {
        match self {
            Status::Done => 0,
            Status::SomeRefused => 1,
            Status::Usage => 2,
            Status::ReadFault => 3,
            Status::WriteFault => 4,
            Status::OutOfMemory => 5,
            Status::InputLimit => 6,
        }
    }
}

impl fmt::Display for Status {
    ghost use Rattle.std.specs.Prelude.{Some};
    ghost use Rattle.ft_cli.specs.Statuses.{status_text};

    ghost output = { λ status. Some (status_text status) };

    fn fmt<W: fmt::Write>(&self, f: &mut fmt::Formatter<W>) -> fmt::Result {
        match self {
            Status::Done => write!(f, "Done"),
            Status::SomeRefused => write!(f, "SomeRefused"),
            Status::Usage => write!(f, "Usage"),
            Status::ReadFault => write!(f, "ReadFault"),
            Status::WriteFault => write!(f, "WriteFault"),
            Status::OutOfMemory => write!(f, "OutOfMemory"),
            Status::InputLimit => write!(f, "InputLimit"),
        }
    }
}

impl From<Ending> for Status {
    ghost use Rattle.ft_cli.specs.Statuses.{whole_status};

    ghost from_gives = { λ ending status. status ≡ whole_status ending };

    fn from(ending: Ending) -> Status {
        match ending {
            Ending::Done => Status::Done,
            Ending::SomeRefused => Status::SomeRefused,
        }
    }
}

impl From<Fault> for Status {
    ghost use Rattle.ft_cli.specs.Statuses.{fault_status};

    ghost from_gives = { λ fault status. status ≡ fault_status fault };

    fn from(fault: Fault) -> Status {
        match fault {
            Fault::Read => Status::ReadFault,
            Fault::Write => Status::WriteFault,
            Fault::OutOfMemory => Status::OutOfMemory,
            Fault::InputLimit => Status::InputLimit,
        }
    }
}
