//! Why a call is refused.

use ft_base::OutOfMemory;
use std::error::Error;
use std::fmt;

/// Why a call of a tree is refused.
#[derive(Clone, Copy, Debug, PartialEq, Eq)]
pub enum TreeFault {
    /// The position is above the length seen.
    OutOfRange { length: u64 },
    /// There is no memory.
    OutOfMemory,
}

impl From<OutOfMemory> for TreeFault {
    ghost use Rattle.std.specs.Prelude.{◌≡◌};
    ghost use Rattle.ft_tree.specs.declared.faults.TreeFault.TheVariants.{OutOfMemory as WantOfMemory};

    ghost from_gives = { λ _ fault. fault ≡ WantOfMemory };

    fn from(_error: OutOfMemory) -> TreeFault {
        TreeFault::OutOfMemory
    }
}

impl fmt::Display for TreeFault {
    ghost use Rattle.std.specs.Prelude.{Some};
    ghost use Rattle.ft_tree.specs.FaultTexts.{tree_fault_text};

    ghost output = { λ fault. Some (tree_fault_text fault) };

    fn fmt<W: fmt::Write>(&self, f: &mut fmt::Formatter<W>) -> fmt::Result {
        match *self {
            TreeFault::OutOfRange { length } => write!(f, "OutOfRange length {length}"),
            TreeFault::OutOfMemory => write!(f, "OutOfMemory"),
        }
    }
}

impl Error for TreeFault {}
