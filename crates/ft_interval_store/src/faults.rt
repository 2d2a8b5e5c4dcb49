//! Why a local edit of an interval is refused.

use ft_base::OutOfMemory;
use std::error::Error;
use std::fmt;

/// Why a local edit of an interval is refused.
#[derive(Clone, Copy, Debug, PartialEq, Eq)]
pub enum IntervalFault {
    /// The label has the id already.
    IdInUse,
    /// The label doesn't have the id.
    NoSuchInterval,
    /// An end isn't below the length seen, and they don't both stand for a detached interval.
    OutOfRange { length: u64 },
    /// There is no memory.
    OutOfMemory,
}

impl From<OutOfMemory> for IntervalFault {
    ghost use Rattle.std.specs.Prelude.{◌≡◌};
    ghost use Rattle.ft_interval_store.specs.declared.faults.IntervalFault.TheVariants.{OutOfMemory as WantOfMemory};

    ghost from_gives = { λ _ fault. fault ≡ WantOfMemory };

    fn from(_error: OutOfMemory) -> IntervalFault {
        IntervalFault::OutOfMemory
    }
}

impl fmt::Display for IntervalFault {
    ghost use Rattle.std.specs.Prelude.{Some};
    ghost use Rattle.ft_interval_store.specs.FaultTexts.{interval_fault_text};

    ghost output = { λ fault. Some (interval_fault_text fault) };

    fn fmt<W: fmt::Write>(&self, f: &mut fmt::Formatter<W>) -> fmt::Result {
        match *self {
            IntervalFault::IdInUse => f.write_str("IdInUse"),
            IntervalFault::NoSuchInterval => f.write_str("NoSuchInterval"),
            IntervalFault::OutOfRange { length } => write!(f, "OutOfRange length {length}"),
            IntervalFault::OutOfMemory => f.write_str("OutOfMemory"),
        }
    }
}

impl Error for IntervalFault {}
