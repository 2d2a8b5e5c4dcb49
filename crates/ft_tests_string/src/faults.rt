//! Why a script ends.

use ft_base::OutOfMemory;
use std::alloc::AllocError;

/// Why a script ends before its last line.
#[derive(Clone, Copy)]
pub(crate) enum StepFault {
    /// The tree has more than a thousand million elements, or there is no further stage.
    TooLarge,
    /// There is no memory.
    OutOfMemory,
}

impl From<OutOfMemory> for StepFault {
    fn from(_error: OutOfMemory) -> StepFault {
        StepFault::OutOfMemory
    }
}

impl From<AllocError> for StepFault {
    fn from(_error: AllocError) -> StepFault {
        StepFault::OutOfMemory
    }
}
