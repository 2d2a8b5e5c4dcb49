//! Operations. Positions count elements that the sender of an operation sees, from 0.

use ft_base::{List, OutOfMemory, Text};
use ft_json::{Field, FieldFault, JsonFault, ValText};
use ft_props::{Changes, PropSet};
use std::error::Error;
use std::fmt;

/// What an insertion puts in.
#[derive(Drop)]
pub enum Seg {
    /// Characters, each an element.
    Chars { text: Text },
    /// A marker, one element that adds nothing to the text.
    Marker { ref_type: u64 },
}

/// An operation of the text that may stand in a group.
#[derive(Drop)]
pub enum BaseOp {
    /// The segment goes in after `pos` elements, with these properties.
    Insert {
        pos: u64,
        seg: Seg,
        props: PropSet,
    },
    /// The elements from `pos1` up to before `pos2` are removed.
    Remove {
        pos1: u64,
        pos2: u64,
    },
    /// The properties of the elements from `pos1` up to before `pos2` are changed.
    Annotate {
        pos1: u64,
        pos2: u64,
        changes: Changes,
    },
}

/// The operations of a group of the text, in order.
pub type BaseOps = List<BaseOp>;

/// The ends of an interval: the positions of its first and its last element, or both -1 where it is
/// detached.
#[derive(Clone, Copy, Debug, PartialEq, Eq)]
pub struct Ends {
    pub start: i64,
    pub end: i64,
}

/// An operation of the text.
#[derive(Drop)]
pub enum TextOp {
    /// One operation.
    One(BaseOp),
    /// Several, which take effect one after another.
    Group(BaseOps),
    /// A new interval in the label's collection.
    IntervalAdd {
        label: Text,
        id: Text,
        ends: Ends,
        props: PropSet,
    },
    /// New ends, if they are given, and changed properties of an interval.
    IntervalChange {
        label: Text,
        id: Text,
        ends: Option<Ends>,
        props: PropSet,
    },
    /// The interval is taken away.
    IntervalDelete {
        label: Text,
        id: Text,
    },
}

/// The list that a splice is for.
#[derive(Clone, Copy, Debug, PartialEq, Eq)]
pub enum Target {
    /// The rows.
    Rows,
    /// The columns.
    Cols,
}

/// An operation of the grid that may stand in a group.
#[derive(Drop)]
pub enum CellOp {
    /// `count` new units go in after `pos` units.
    SpliceIn {
        target: Target,
        pos: u64,
        count: u64,
    },
    /// The units from `pos1` up to before `pos2` are removed.
    SpliceOut {
        target: Target,
        pos1: u64,
        pos2: u64,
    },
    /// The cell at this row and this column gets the value; null unsets it.
    Set {
        row: u64,
        col: u64,
        value: ValText,
    },
}

/// The operations of a group of the grid, in order.
pub type CellOps = List<CellOp>;

/// An operation of the grid.
#[derive(Drop)]
pub enum GridOp {
    /// One operation.
    One(CellOp),
    /// Several, which take effect one after another.
    Group(CellOps),
}

/// An operation of either channel.
#[derive(Drop)]
pub enum ChannelOp {
    /// One of the text, or of its intervals.
    Text(TextOp),
    /// One of the grid.
    Grid(GridOp),
}

/// Why a JSON value is no operation: the first fault in the order in which its fields are tested.
#[derive(Clone, Copy, Debug, PartialEq, Eq)]
pub enum OpFault {
    /// The field isn't there.
    Missing(Field),
    /// The field has a value of another kind.
    WrongKind(Field),
    /// No operation has this number as its type.
    UnknownType(u64),
    /// The second position or bound is before the first.
    Reversed { pos1: i64, pos2: i64 },
    /// A splice puts in more than 1,000,000 units.
    CountLimit,
    /// A group stands in a group.
    NestedGroup,
    /// A value holds a number that isn't whole or is out of range.
    Fraction,
    /// A value has more than 100 levels.
    TooDeep,
    /// There was no memory.
    OutOfMemory,
}

impl fmt::Display for OpFault {
    ghost use Rattle.std.specs.Prelude.{Some};
    ghost use Rattle.ft_op.specs.Faults.{op_fault_text};

    ghost output = { λ fault. Some (op_fault_text fault) };

    fn fmt<W: fmt::Write>(&self, f: &mut fmt::Formatter<W>) -> fmt::Result {
        match *self {
            OpFault::Missing(field) => write!(f, "Missing {field}"),
            OpFault::WrongKind(field) => write!(f, "WrongKind {field}"),
            OpFault::UnknownType(n) => write!(f, "UnknownType {n}"),
            OpFault::Reversed { pos1, pos2 } => write!(f, "Reversed {pos1} {pos2}"),
            OpFault::CountLimit => f.write_str("CountLimit"),
            OpFault::NestedGroup => f.write_str("NestedGroup"),
            OpFault::Fraction => f.write_str("Fraction"),
            OpFault::TooDeep => f.write_str("TooDeep"),
            OpFault::OutOfMemory => f.write_str("OutOfMemory"),
        }
    }
}

impl Error for OpFault {}

impl From<OutOfMemory> for OpFault {
    ghost use Rattle.std.specs.Prelude.{◌≡◌};
    ghost use Rattle.ft_op.specs.declared.operations.OpFault.TheVariants.{OutOfMemory as WantOfMemory};

    ghost from_gives = { λ _ fault. fault ≡ WantOfMemory };

    fn from(_error: OutOfMemory) -> OpFault {
        OpFault::OutOfMemory
    }
}

impl From<FieldFault> for OpFault {
    ghost use Rattle.std.specs.Prelude.{◌≡◌};
    ghost use Rattle.ft_op.specs.Faults.{op_fault};

    ghost from_gives = { λ fault made. made ≡ op_fault fault };

    fn from(fault: FieldFault) -> OpFault {
        match fault {
            FieldFault::Missing(field) => OpFault::Missing(field),
            FieldFault::WrongKind(field) => OpFault::WrongKind(field),
            FieldFault::OutOfMemory => OpFault::OutOfMemory,
        }
    }
}

impl From<JsonFault> for OpFault {
    ghost use Rattle.std.specs.Prelude.{◌≡◌};
    ghost use Rattle.ft_op.specs.Faults.{value_fault};

    ghost from_gives = { λ fault made. made ≡ value_fault fault };

    fn from(fault: JsonFault) -> OpFault {
        match fault {
            JsonFault::TooDeep => OpFault::TooDeep,
            JsonFault::OutOfMemory => OpFault::OutOfMemory,
            // A value has no fault of the text that it was read from.
            JsonFault::Fraction | JsonFault::NotUtf8 | JsonFault::NotJson => OpFault::Fraction,
        }
    }
}
