//! How far the client is.

ghost use Rattle.std.specs.Prelude.{◌≡◌, OnOk};

use crate::faults::StepFault;

/// How far the client is, and what is known of its tree.
#[derive(Clone, Copy)]
pub(crate) struct Progress {
    /// The stage of its next edit.
    pub(crate) stage: u64,
    /// The first stage that isn't acknowledged.
    pub(crate) first: u64,
    /// Whether it is known that no changes of properties are pending.
    pub(crate) calm: bool,
}

impl Progress {
    /// That of a client that has done nothing.
    pub(crate) fn new() -> Progress {
        Progress {
            stage: 1,
            first: 1,
            calm: true,
        }
    }

    /// Goes on to the next stage behind an edit of the client.
    ///
    /// Returns `TooLarge` where there is none.
    pub(crate) fn pass(&mut self, is_own: bool) -> Result<(), StepFault>
        ensures { OnOk result (self.new.calm ≡ self.old.calm) }
    {
        if !is_own {
            return Ok(());
        }
        match self.stage.checked_add(1) {
            Some(later) => {
                self.stage = later;
                Ok(())
            }
            None => Err(StepFault::TooLarge),
        }
    }
}
