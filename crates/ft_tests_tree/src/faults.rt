//! Why a step isn't made.

use ft_base::OutOfMemory;
use ft_tree::TreeFault;
use std::alloc::AllocError;

/// Why a step of a tree of text isn't made.
#[derive(Clone, Copy)]
pub(crate) enum StepFault {
    /// No characters, or more than 256.
    NotARun,
    /// The tree has more than a thousand million elements.
    TooLarge,
    /// The position is above the length seen.
    OutOfRange,
    /// There is no memory.
    OutOfMemory,
}

impl From<OutOfMemory> for StepFault {
    fn from(_error: OutOfMemory) -> StepFault {
        StepFault::OutOfMemory
    }
}

impl From<AllocError> for StepFault {
    fn from(_error: AllocError) -> StepFault {
        StepFault::OutOfMemory
    }
}

impl From<TreeFault> for StepFault {
    fn from(fault: TreeFault) -> StepFault {
        match fault {
            TreeFault::OutOfRange { .. } => StepFault::OutOfRange,
            TreeFault::OutOfMemory => StepFault::OutOfMemory,
        }
    }
}
