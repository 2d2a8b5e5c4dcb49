//! Who listens as a document changes.

ghost use Rattle.std.specs.Prelude.{◌≡◌, [], IsTrue, OnOk, false, true};
ghost use Rattle.ft_changes.specs.Listeners.{heard};

use crate::changes::ViewChanges;
use ft_base::OutOfMemory;
use std::alloc::Global;

/// Somebody who hears of each sub-operation of a message or of an edit how the shown elements of the lists change, or
/// nobody.
#[derive(Drop)]
pub struct Listener {
    listens: bool,
    changes: ViewChanges,
}

impl Listener {
    /// Nobody.
    pub fn nobody(alloc: Global) -> Listener
        ensures { result ≡ record { listens = false; changes = [] } }
    {
        Listener {
            listens: false,
            changes: ViewChanges::new(alloc),
        }
    }

    /// Somebody, who heard nothing so far.
    pub fn new(alloc: Global) -> Listener
        ensures { result ≡ record { listens = true; changes = [] } }
    {
        Listener {
            listens: true,
            changes: ViewChanges::new(alloc),
        }
    }

    /// Whether it is somebody: nobody needn't be told.
    pub fn listens(&self) -> bool
        ensures { result ≡ self.now.listens }
    {
        self.listens
    }

    /// Hears these changes, behind those that it heard.
    ///
    /// Returns `OutOfMemory` where there is no room for them, and then it may have heard some.
    pub fn hear(&mut self, more: ViewChanges) -> Result<(), OutOfMemory>
        requires { IsTrue self.old.listens }
        ensures { OnOk result (self.new ≡ heard self.old more) }
    {
        self.changes.append(more)?;
        Ok(())
    }

    /// What was heard.
    pub fn into_changes(self) -> ViewChanges
        ensures { result ≡ self.changes }
    {
        self.changes
    }
}
