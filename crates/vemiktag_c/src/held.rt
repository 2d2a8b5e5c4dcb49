//! A run behind a pointer that C can hold.

ghost use Rattle.std.specs.Prelude.{◌≡◌, Option, None, Some, IsSome};
ghost use Rattle.vemiktag_c.specs.declared.runs.ClientRun.{ClientRun};

use crate::loose::Loose;
use crate::runs::ClientRun;
use std::alloc::Global;
use std::marker::Model;
use std::ptr::null_mut;

/// A run behind a pointer that doesn't tell its type, or none. It owns the box at the pointer.
///
/// Its drop forgets the run without freeing it: nothing may be written over one that has a run.
#[repr(C)]
#[derive(Drop)]
pub struct Held {
    at: *mut u8,
    alloc: Global,
    pub ghost run: { Option ClientRun },
}

impl Model for Held {
    ghost use Rattle.vemiktag_c.specs.Holding.{holding};

    ghost also_owns = { λ h. holding h.alloc h.at h.run };
}

impl Held {
    /// No run.
    pub fn nothing(alloc: Global) -> Held
        ensures { result.run ≡ None }
    {
        Held {
            at: null_mut(),
            alloc,
        }
    }

    /// The run of a box that is taken apart.
    pub fn hide(loose: Loose<ClientRun, Global>) -> Held
        ensures { result.run ≡ Some loose.value }
    {
        let Loose { at, alloc } = loose;
        Held {
            at: at as *mut u8,
            alloc,
        }
    }

    /// The box taken apart again.
    pub fn show(self) -> Loose<ClientRun, Global>
        requires { IsSome self.run }
        ensures { self.run ≡ Some result.value }
    {
        let Held { at, alloc } = self;
        Loose {
            at: at as *mut ClientRun,
            alloc,
        }
    }
}
