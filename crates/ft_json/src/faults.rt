//! Why a text, a field or a value is refused.

ghost use Rattle.std.specs.Prelude.{◌≡◌};

use crate::fields::Field;
use ft_base::OutOfMemory;
use std::error::Error;
use std::fmt;

/// Why bytes are no JSON value, or a value isn't one that is kept.
#[derive(Clone, Copy, Debug, PartialEq, Eq)]
pub enum JsonFault {
    /// The bytes aren't UTF-8.
    NotUtf8,
    /// The text isn't one JSON value of at most 127 levels.
    NotJson,
    /// A number inside isn't a whole number from -9223372036854775808 to 18446744073709551615.
    Fraction,
    /// The value has more than 100 levels.
    TooDeep,
    /// No memory was found.
    OutOfMemory,
}

/// Why a field isn't what is asked for.
#[derive(Clone, Copy, Debug, PartialEq, Eq)]
pub enum FieldFault {
    /// The value is no object, or has no such field.
    Missing(Field),
    /// The field is there, and its value is of another kind or out of range.
    WrongKind(Field),
    /// No memory was found.
    OutOfMemory,
}

impl fmt::Display for JsonFault {
    ghost use Rattle.std.specs.Prelude.{Some};
    ghost use Rattle.ft_json.specs.FaultTexts.{json_fault_text};

    ghost output = { λ fault. Some (json_fault_text fault) };

    fn fmt<W: fmt::Write>(&self, f: &mut fmt::Formatter<W>) -> fmt::Result {
        match *self {
            JsonFault::NotUtf8 => write!(f, "NotUtf8"),
            JsonFault::NotJson => write!(f, "NotJson"),
            JsonFault::Fraction => write!(f, "Fraction"),
            JsonFault::TooDeep => write!(f, "TooDeep"),
            JsonFault::OutOfMemory => write!(f, "OutOfMemory"),
        }
    }
}

impl Error for JsonFault {}

impl fmt::Display for FieldFault {
    ghost use Rattle.std.specs.Prelude.{Some};
    ghost use Rattle.ft_json.specs.FaultTexts.{field_fault_text};

    ghost output = { λ fault. Some (field_fault_text fault) };

    fn fmt<W: fmt::Write>(&self, f: &mut fmt::Formatter<W>) -> fmt::Result {
        match *self {
            FieldFault::Missing(field) => write!(f, "Missing {field}"),
            FieldFault::WrongKind(field) => write!(f, "WrongKind {field}"),
            FieldFault::OutOfMemory => write!(f, "OutOfMemory"),
        }
    }
}

impl Error for FieldFault {}

impl From<OutOfMemory> for JsonFault {
    ghost use Rattle.std.specs.Prelude.{◌≡◌};
    ghost use Rattle.ft_json.specs.declared.faults.JsonFault.TheVariants.{OutOfMemory as WantOfMemory};

    ghost from_gives = { λ _ fault. fault ≡ WantOfMemory };

    fn from(_error: OutOfMemory) -> JsonFault {
        JsonFault::OutOfMemory
    }
}

impl From<OutOfMemory> for FieldFault {
    ghost use Rattle.std.specs.Prelude.{◌≡◌};
    ghost use Rattle.ft_json.specs.declared.faults.FieldFault.TheVariants.{OutOfMemory as WantOfMemory};

    ghost from_gives = { λ _ fault. fault ≡ WantOfMemory };

    fn from(_error: OutOfMemory) -> FieldFault {
        FieldFault::OutOfMemory
    }
}
