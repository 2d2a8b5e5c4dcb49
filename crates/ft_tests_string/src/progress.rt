//! How far the client is.

ghost use Rattle.std.specs.Prelude.{◌≡◌, ◌+◌, OnOk};

use crate::faults::StepFault;

/// How far the client is.
#[derive(Clone, Copy)]
pub(crate) struct Progress {
    /// The stage of its next edit.
    pub(crate) stage: u64,
    /// The first stage that isn't acknowledged.
    pub(crate) first: u64,
}

impl Progress {
    /// That of a client that has done nothing.
    pub(crate) fn new() -> Progress
        ensures { result.stage ≡ 1 }
    {
        Progress { stage: 1, first: 1 }
    }

    /// Goes on to the next stage.
    ///
    /// Returns `TooLarge` where there is none.
    pub(crate) fn pass(&mut self) -> Result<(), StepFault>
        ensures { OnOk result (self.new.stage ≡ self.old.stage + 1) }
    {
        match self.stage.checked_add(1) {
            Some(later) => {
                self.stage = later;
                Ok(())
            }
            None => Err(StepFault::TooLarge),
        }
    }
}
