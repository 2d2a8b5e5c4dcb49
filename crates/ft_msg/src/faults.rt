//! Why a call is refused, and why a text is no message.

use ft_base::OutOfMemory;
use ft_json::{Field, FieldFault, JsonFault};
use ft_op::OpFault;
use std::error::Error;
use std::fmt;

/// Why a text is no message, draft or event: the first fault in the order in which its fields are
/// tested.
#[derive(Clone, Copy, Debug, PartialEq, Eq)]
pub enum Cause {
    /// It isn't UTF-8.
    NotUtf8,
    /// It isn't JSON.
    NotJson,
    /// A value holds a number that isn't whole or is out of range.
    Fraction,
    /// A value has more than 100 levels.
    TooDeep,
    /// The field isn't there.
    Missing(Field),
    /// The field has a value of another kind.
    WrongKind(Field),
    /// No operation has this number as its type.
    UnknownType(u64),
    /// The second position or bound is before the first.
    Reversed { pos1: i64, pos2: i64 },
    /// A splice puts in more than 1,000,000 units.
    CountLimit,
    /// A group stands in a group.
    NestedGroup,
    /// No event has this word.
    UnknownWord,
    /// There was no memory.
    OutOfMemory,
}

impl From<OutOfMemory> for Cause {
    ghost use Rattle.std.specs.Prelude.{◌≡◌};
    ghost use Rattle.ft_msg.specs.declared.faults.Cause.TheVariants.{OutOfMemory as WantOfMemory};

    ghost from_gives = { λ _ cause. cause ≡ WantOfMemory };

    fn from(_error: OutOfMemory) -> Cause {
        Cause::OutOfMemory
    }
}

impl From<JsonFault> for Cause {
    ghost use Rattle.std.specs.Prelude.{◌≡◌};
    ghost use Rattle.ft_msg.specs.Causes.{cause_of_json};

    ghost from_gives = { λ fault cause. cause ≡ cause_of_json fault };

    fn from(fault: JsonFault) -> Cause {
        match fault {
            JsonFault::NotUtf8 => Cause::NotUtf8,
            JsonFault::NotJson => Cause::NotJson,
            JsonFault::Fraction => Cause::Fraction,
            JsonFault::TooDeep => Cause::TooDeep,
            JsonFault::OutOfMemory => Cause::OutOfMemory,
        }
    }
}

impl From<FieldFault> for Cause {
    ghost use Rattle.std.specs.Prelude.{◌≡◌};
    ghost use Rattle.ft_msg.specs.Causes.{cause_of_field};

    ghost from_gives = { λ fault cause. cause ≡ cause_of_field fault };

    fn from(fault: FieldFault) -> Cause {
        match fault {
            FieldFault::Missing(field) => Cause::Missing(field),
            FieldFault::WrongKind(field) => Cause::WrongKind(field),
            FieldFault::OutOfMemory => Cause::OutOfMemory,
        }
    }
}

impl From<OpFault> for Cause {
    ghost use Rattle.std.specs.Prelude.{◌≡◌};
    ghost use Rattle.ft_msg.specs.Causes.{cause_of_op};

    ghost from_gives = { λ fault cause. cause ≡ cause_of_op fault };

    fn from(fault: OpFault) -> Cause {
        match fault {
            OpFault::Missing(field) => Cause::Missing(field),
            OpFault::WrongKind(field) => Cause::WrongKind(field),
            OpFault::UnknownType(n) => Cause::UnknownType(n),
            OpFault::Reversed { pos1, pos2 } => Cause::Reversed { pos1, pos2 },
            OpFault::CountLimit => Cause::CountLimit,
            OpFault::NestedGroup => Cause::NestedGroup,
            OpFault::Fraction => Cause::Fraction,
            OpFault::TooDeep => Cause::TooDeep,
            OpFault::OutOfMemory => Cause::OutOfMemory,
        }
    }
}

/// Why an edit is refused. The client is as it was, but where it stopped.
#[derive(Clone, Copy, Debug, PartialEq, Eq)]
pub enum EditFault {
    /// There was no memory; the client has stopped.
    OutOfMemory,
    /// The client stopped when it had processed the message with this number.
    Stopped { seq: u64 },
    /// The id of a new interval is in its label.
    IdInUse,
    /// The id of a changed or deleted interval isn't in its label.
    NoSuchInterval,
    /// A position isn't allowed in the view, in which the list concerned has this length.
    OutOfRange { length: u64 },
}

/// Why a message is refused. The client is as it was, but where it stopped.
#[derive(Clone, Copy, Debug, PartialEq, Eq)]
pub enum ProcessFault {
    /// There was no memory; the client has stopped.
    OutOfMemory,
    /// The client stopped when it had processed the message with this number.
    Stopped { seq: u64 },
    /// It isn't the next message.
    OutOfOrder { expected: u64, got: u64 },
    /// Its reference number or its minimum contradicts what the client keeps.
    BadNumbers { field: Field, kept: u64, got: i64 },
    /// It comes from one of the client's connections, and the client didn't send it so.
    NotSent,
}

/// Why a change of the link is refused. The client is as it was, but where it stopped.
#[derive(Clone, Copy, Debug, PartialEq, Eq)]
pub enum LinkFault {
    /// There was no memory; the client has stopped.
    OutOfMemory,
    /// The client stopped when it had processed the message with this number.
    Stopped { seq: u64 },
    /// The client isn't offline.
    AlreadyConnected,
    /// The client is offline, or for a noop isn't online.
    NotConnected,
}

/// Why there is no view.
#[derive(Clone, Copy, Debug, PartialEq, Eq)]
pub enum ViewFault {
    /// There was no memory.
    OutOfMemory,
    /// The client stopped when it had processed the message with this number.
    Stopped { seq: u64 },
}

/// Why there is no summary.
#[derive(Clone, Copy, Debug, PartialEq, Eq)]
pub enum SummaryFault {
    /// There was no memory.
    OutOfMemory,
    /// The client stopped when it had processed the message with this number.
    Stopped { seq: u64 },
    /// So many edits are pending.
    Pending { count: u64 },
}

impl fmt::Display for Cause {
    ghost use Rattle.std.specs.Prelude.{Some};
    ghost use Rattle.ft_msg.specs.FaultTexts.{cause_text};

    ghost output = { λ fault. Some (cause_text fault) };

    fn fmt<W: fmt::Write>(&self, f: &mut fmt::Formatter<W>) -> fmt::Result {
        match *self {
            Cause::NotUtf8 => f.write_str("NotUtf8"),
            Cause::NotJson => f.write_str("NotJson"),
            Cause::Fraction => f.write_str("Fraction"),
            Cause::TooDeep => f.write_str("TooDeep"),
            Cause::Missing(field) => write!(f, "Missing {field}"),
            Cause::WrongKind(field) => write!(f, "WrongKind {field}"),
            Cause::UnknownType(n) => write!(f, "UnknownType {n}"),
            Cause::Reversed { pos1, pos2 } => write!(f, "Reversed {pos1} {pos2}"),
            Cause::CountLimit => f.write_str("CountLimit"),
            Cause::NestedGroup => f.write_str("NestedGroup"),
            Cause::UnknownWord => f.write_str("UnknownWord"),
            Cause::OutOfMemory => f.write_str("OutOfMemory"),
        }
    }
}

impl Error for Cause {}

impl fmt::Display for EditFault {
    ghost use Rattle.std.specs.Prelude.{Some};
    ghost use Rattle.ft_msg.specs.FaultTexts.{edit_fault_text};

    ghost output = { λ fault. Some (edit_fault_text fault) };

    fn fmt<W: fmt::Write>(&self, f: &mut fmt::Formatter<W>) -> fmt::Result {
        match *self {
            EditFault::OutOfMemory => f.write_str("OutOfMemory"),
            EditFault::Stopped { seq } => write!(f, "Stopped {seq}"),
            EditFault::IdInUse => f.write_str("IdInUse"),
            EditFault::NoSuchInterval => f.write_str("NoSuchInterval"),
            EditFault::OutOfRange { length } => write!(f, "OutOfRange length {length}"),
        }
    }
}

impl Error for EditFault {}

impl fmt::Display for ProcessFault {
    ghost use Rattle.std.specs.Prelude.{Some};
    ghost use Rattle.ft_msg.specs.FaultTexts.{process_fault_text};

    ghost output = { λ fault. Some (process_fault_text fault) };

    fn fmt<W: fmt::Write>(&self, f: &mut fmt::Formatter<W>) -> fmt::Result {
        match *self {
            ProcessFault::OutOfMemory => f.write_str("OutOfMemory"),
            ProcessFault::Stopped { seq } => write!(f, "Stopped {seq}"),
            ProcessFault::OutOfOrder { expected, got } => write!(
                f,
                "OutOfOrder expected {expected} got {got}"
            ),
            ProcessFault::BadNumbers { field, kept, got } => write!(
                f,
                "BadNumbers {field} kept {kept} got {got}"
            ),
            ProcessFault::NotSent => f.write_str("NotSent"),
        }
    }
}

impl Error for ProcessFault {}

impl fmt::Display for LinkFault {
    ghost use Rattle.std.specs.Prelude.{Some};
    ghost use Rattle.ft_msg.specs.FaultTexts.{link_fault_text};

    ghost output = { λ fault. Some (link_fault_text fault) };

    fn fmt<W: fmt::Write>(&self, f: &mut fmt::Formatter<W>) -> fmt::Result {
        match *self {
            LinkFault::OutOfMemory => f.write_str("OutOfMemory"),
            LinkFault::Stopped { seq } => write!(f, "Stopped {seq}"),
            LinkFault::AlreadyConnected => f.write_str("AlreadyConnected"),
            LinkFault::NotConnected => f.write_str("NotConnected"),
        }
    }
}

impl Error for LinkFault {}

impl fmt::Display for ViewFault {
    ghost use Rattle.std.specs.Prelude.{Some};
    ghost use Rattle.ft_msg.specs.FaultTexts.{view_fault_text};

    ghost output = { λ fault. Some (view_fault_text fault) };

    fn fmt<W: fmt::Write>(&self, f: &mut fmt::Formatter<W>) -> fmt::Result {
        match *self {
            ViewFault::OutOfMemory => f.write_str("OutOfMemory"),
            ViewFault::Stopped { seq } => write!(f, "Stopped {seq}"),
        }
    }
}

impl Error for ViewFault {}

impl From<OutOfMemory> for ViewFault {
    ghost use Rattle.std.specs.Prelude.{◌≡◌};
    ghost use Rattle.ft_msg.specs.declared.faults.ViewFault.TheVariants.{OutOfMemory as WantOfMemory};

    ghost from_gives = { λ _ fault. fault ≡ WantOfMemory };

    fn from(_error: OutOfMemory) -> ViewFault {
        ViewFault::OutOfMemory
    }
}

impl fmt::Display for SummaryFault {
    ghost use Rattle.std.specs.Prelude.{Some};
    ghost use Rattle.ft_msg.specs.FaultTexts.{no_summary_text};

    ghost output = { λ fault. Some (no_summary_text fault) };

    fn fmt<W: fmt::Write>(&self, f: &mut fmt::Formatter<W>) -> fmt::Result {
        match *self {
            SummaryFault::OutOfMemory => f.write_str("OutOfMemory"),
            SummaryFault::Stopped { seq } => write!(f, "Stopped {seq}"),
            SummaryFault::Pending { count } => write!(f, "Pending {count}"),
        }
    }
}

impl Error for SummaryFault {}
