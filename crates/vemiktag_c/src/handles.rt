//! What C holds.

ghost use Rattle.std.specs.Prelude.{◌≡◌, false, true, IsSome, IsTrue, None, Some, option_map};
ghost use Rattle.vemiktag_c.specs.Opening.{open_run};

use crate::held::Held;
use crate::loose::Loose;
use crate::runs::ClientRun;
use std::alloc::Global;
use std::mem::replace;

/// What C holds of a session or a client: a pointer, and whether it is open. Zeroed memory is a closed one.
#[repr(C)]
#[derive(Drop)]
pub struct Handle {
    pub held: Held,
    pub is_open: bool,
    ghost holds: { IsTrue is_open → IsSome held.run },
}

impl Handle {
    /// An open one.
    pub fn open(run: Box<ClientRun>) -> Handle
        ensures { open_run result.is_open result.held.run ≡ Some run.value }
    {
        Handle {
            held: Held::hide(Loose::of(run)),
            is_open: true,
        }
    }

    /// A closed one.
    pub fn closed(alloc: Global) -> Handle
        ensures { open_run result.is_open result.held.run ≡ None }
    {
        Handle {
            held: Held::nothing(alloc),
            is_open: false,
        }
    }

    /// The run of an open one, which is closed then: None exactly where it was closed before.
    pub fn take(&mut self, alloc: Global) -> Option<Box<ClientRun>>
        ensures closed { open_run self.new.is_open self.new.held.run ≡ None }
        ensures run { option_map (λ b. b.value) result ≡ open_run self.old.is_open self.old.held.run }
    {
        let Handle { held, is_open } = replace(self, Handle::closed(alloc));
        if is_open {
            Some(held.show().whole())
        } else {
            None
        }
    }
}
