//! Why a line is refused.

ghost use Rattle.std.specs.Prelude.{◌≡◌, Some};
ghost use Rattle.std.specs.Fmt.{◌++?◌, DisplaysOnOk};
ghost use Rattle.ft_seqr.specs.RefusalKinds.{is_want};
ghost use Rattle.ft_seqr.specs.Refusals.{phrase, refusal_number, refusal_of_cause, refusal_of_process};

use crate::nacks::{Nack, write_numbers};
use ft_json::Field;
use ft_msg::{Cause, ProcessFault};
use ft_sumdoc::SumFault;
use std::error::Error;
use std::fmt;

/// Why a line is refused. What was made before it stays as it was.
#[derive(Clone, Copy, Debug, PartialEq, Eq)]
pub enum Refusal {
    /// The line, or the text in it, has no reading.
    Malformed(Cause),
    /// No client has that name, or no guest.
    UnknownClient,
    /// A client or a guest has the name.
    NameInUse,
    /// The client isn't offline.
    AlreadyConnected,
    /// The client is offline, or for a noop isn't online; or the guest has parted.
    NotConnected,
    /// A position isn't allowed in the view, in which the list concerned has this length.
    OutOfRange { length: u64 },
    /// There are fewer unsent messages.
    NothingToTicket { have: u64 },
    /// There are fewer messages beyond the client's number.
    NothingToDeliver { have: u64 },
    /// The message isn't the next one.
    OutOfOrder { expected: u64, got: u64 },
    /// The log has no such message under this number.
    Foreign { number: u64 },
    /// So many edits of the client are pending.
    Pending { count: u64 },
    /// There are 16 names already.
    ClientLimit,
    /// The id of a new interval is in its label.
    IdInUse,
    /// The id of a changed or deleted interval isn't in its label.
    NoSuchInterval,
    /// A splice puts in more than 1,000,000 units.
    CountLimit,
    /// The line has more than 1,048,576 bytes.
    LineTooLong,
    /// The sequencer refused the draft of a guest.
    Nacked(Nack),
    /// A number of the message contradicts what is kept.
    BadNumbers { field: Field, kept: u64, got: i64 },
    /// The summary was refused.
    Summary(SumFault),
    /// There was no memory.
    OutOfMemory,
    /// There was no memory at an earlier event.
    Stopped,
}

// Writes a part behind these words.
fn write_behind<W: fmt::Write, D: fmt::Display>(
    f: &mut fmt::Formatter<W>,
    words: &str,
    part: &D,
) -> fmt::Result
    ensures { DisplaysOnOk W.write_str_gives f.old result (Some words.now ++? D.output part.now) f.new }
{
    write!(f, "{words}{part}")
}

impl fmt::Display for Refusal {
    ghost use Rattle.std.specs.Prelude.{Some};
    ghost use Rattle.ft_seqr.specs.Refusals.{refusal_text};

    ghost output = { λ r. Some (refusal_text r) };

    fn fmt<W: fmt::Write>(&self, f: &mut fmt::Formatter<W>) -> fmt::Result {
        match *self {
            Refusal::Malformed(cause) => write_behind(f, "Malformed ", &cause),
            Refusal::OutOfRange { length } => write_behind(f, "OutOfRange length ", &length),
            Refusal::NothingToTicket { have } => write_behind(f, "NothingToTicket have ", &have),
            Refusal::NothingToDeliver { have } => write_behind(f, "NothingToDeliver have ", &have),
            Refusal::OutOfOrder { expected, got } => {
                write_numbers(f, "OutOfOrder expected ", expected, got)
            }
            Refusal::Foreign { number } => write_behind(f, "Foreign ", &number),
            Refusal::Pending { count } => write_behind(f, "Pending ", &count),
            Refusal::Nacked(nack) => write_behind(f, "Nacked ", &nack),
            Refusal::BadNumbers { field, kept, got } => {
                write!(f, "BadNumbers {field} kept {kept} got {got}")
            }
            Refusal::Summary(fault) => write_behind(f, "Summary ", &fault),
            Refusal::UnknownClient
            | Refusal::NameInUse
            | Refusal::AlreadyConnected
            | Refusal::NotConnected
            | Refusal::ClientLimit
            | Refusal::IdInUse
            | Refusal::NoSuchInterval
            | Refusal::CountLimit
            | Refusal::LineTooLong
            | Refusal::OutOfMemory
            | Refusal::Stopped => f.write_str(self.phrase()),
        }
    }
}

impl Error for Refusal {}

impl Refusal {
    /// The refusal of a text that has no reading for this cause.
    pub fn of_cause(cause: Cause) -> Refusal
        ensures { result ≡ refusal_of_cause cause }
    {
        match cause {
            Cause::CountLimit => Refusal::CountLimit,
            cause => Refusal::Malformed(cause),
        }
    }

    /// The refusal of the message with this number for this fault.
    pub fn of_process(number: u64, fault: ProcessFault) -> Refusal
        ensures { result ≡ refusal_of_process number fault }
    {
        match fault {
            ProcessFault::OutOfMemory => Refusal::OutOfMemory,
            ProcessFault::Stopped { .. } => Refusal::Stopped,
            ProcessFault::OutOfOrder { expected, got } => Refusal::OutOfOrder { expected, got },
            ProcessFault::BadNumbers { field, kept, got } => {
                Refusal::BadNumbers { field, kept, got }
            }
            ProcessFault::NotSent => Refusal::Foreign { number },
        }
    }

    // The text of a refusal without parts; empty for any other.
    fn phrase(self) -> &'static str
        ensures { result.now ≡ phrase self }
    {
        match self {
            Refusal::UnknownClient => "UnknownClient",
            Refusal::NameInUse => "NameInUse",
            Refusal::AlreadyConnected => "AlreadyConnected",
            Refusal::NotConnected => "NotConnected",
            Refusal::ClientLimit => "ClientLimit 16",
            Refusal::IdInUse => "IdInUse",
            Refusal::NoSuchInterval => "NoSuchInterval",
            Refusal::CountLimit => "CountLimit 1000000",
            Refusal::LineTooLong => "LineTooLong",
            Refusal::OutOfMemory => "OutOfMemory",
            Refusal::Stopped => "Stopped",
            Refusal::Malformed(_)
            | Refusal::OutOfRange { .. }
            | Refusal::NothingToTicket { .. }
            | Refusal::NothingToDeliver { .. }
            | Refusal::OutOfOrder { .. }
            | Refusal::Foreign { .. }
            | Refusal::Pending { .. }
            | Refusal::Nacked(_)
            | Refusal::BadNumbers { .. }
            | Refusal::Summary(_) => "",
        }
    }

    /// Whether it is `OutOfMemory`.
    pub fn is_want(self) -> bool
        ensures { result ≡ is_want self }
    {
        matches!(self, Refusal::OutOfMemory)
    }

    /// The number under which it is written; `OutOfMemory` is never written and has 0.
    pub fn number(self) -> u64
        ensures { result ≡ refusal_number self }
    {
        match self {
            Refusal::Malformed(_) => 1,
            Refusal::UnknownClient => 2,
            Refusal::NameInUse => 3,
            Refusal::AlreadyConnected => 4,
            Refusal::NotConnected => 5,
            Refusal::OutOfRange { .. } => 6,
            Refusal::NothingToTicket { .. } => 7,
            Refusal::NothingToDeliver { .. } => 8,
            Refusal::OutOfOrder { .. } => 9,
            Refusal::Foreign { .. } => 10,
            Refusal::Pending { .. } => 11,
            Refusal::ClientLimit => 12,
            Refusal::IdInUse => 13,
            Refusal::NoSuchInterval => 14,
            Refusal::CountLimit => 15,
            Refusal::LineTooLong => 16,
            Refusal::Nacked(_) => 17,
            Refusal::BadNumbers { .. } => 18,
            Refusal::Summary(_) => 19,
            Refusal::OutOfMemory | Refusal::Stopped => 0,
        }
    }
}
