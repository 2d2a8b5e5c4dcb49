//! Runs of handles: the content of the leaves of a vector.

ghost use Rattle.std.specs.Prelude.{◌≡◌, ◌<◌, ◌≤◌, None, true};
ghost use Rattle.std.proofs.Common.{refl};
ghost use Rattle.ft_perm.specs.Handles.{front_run, handles_of, in_run, joined_run, meets, rear_run};
ghost use Rattle.ft_perm.specs.HandleLaws.{front_units, joined_units, rear_units};

use ft_base::OutOfMemory;
use ft_tree_leaves::Content;
use std::marker::Model;

/// So many handles from the first on, at least one; the first and their number together are at most 2^53 - 1.
#[derive(Drop)]
pub struct Handles {
    pub first: u64,
    pub count: u64,
}

impl Model for Handles {
    ghost use Rattle.std.specs.Prelude.{◌+◌, ◌≤◌};
    ghost use Rattle.ft_perm.specs.Handles.{HandleRun};
    ghost use Rattle.ft_props.specs.Properties.{max_safe_integer};

    ghost Value = { HandleRun };

    ghost view = { λ a. record { first = a.first; count = a.count } };

    ghost invariant = { λ a. (1 ≤ a.count) × (a.first + a.count ≤ max_safe_integer) };
}

impl Handles {
    /// Whether the handle is one of them.
    pub fn holds(&self, handle: u64) -> bool
        ensures { result ≡ in_run handle self.now }
    {
        self.first <= handle && handle < self.first + self.count
    }

    /// Takes the first `count` of them off.
    pub(crate) fn take_front(&mut self, count: u64) -> Handles
        requires some { 1 ≤ count }
        requires less { count < self.old.count }
        ensures front { result ≡ front_run self.old count }
        ensures rest { self.new ≡ rear_run self.old count }
    {
        let first = self.first;
        self.first += count;
        self.count -= count;
        Handles { first, count }
    }

    /// Adds those of a run that begins where this one ends.
    pub(crate) fn take_in(&mut self, next: &Handles)
        requires { meets self.old next.now ≡ true }
        ensures { self.new ≡ joined_run self.old next.now }
    {
        self.count += next.count;
    }
}

impl Content for Handles {
    type Unit = u64;

    ghost units = { handles_of };

    ghost by = { λ x. None };

    ghost author = { λ s c. None };

    ghost front = { front_run };

    ghost rear = { rear_run };

    ghost joins = { meets };

    ghost joined = { joined_run };

    ghost stamped = { λ x s c. x };

    fn len(&self) -> u64 {
        self.count
    }

    fn split(&mut self, at: u64) -> Result<Handles, OutOfMemory> {
        let rear = Handles {
            first: self.first + at,
            count: self.count - at,
        };
        self.count = at;
        Ok(rear)
    }

    fn can_join(&self, other: &Handles) -> bool {
        other.first == self.first + self.count
    }

    fn join(&mut self, other: Handles) -> Result<(), Handles> {
        self.count += other.count;
        Ok(())
    }

    fn stamped(&mut self, _seq: u64, _conn: u32) {}

    ghost front_units = { λ x at low high. front_units x at low high };

    ghost front_by = { λ x at low high. refl };

    ghost rear_units = { λ x at low high. rear_units x at low high };

    ghost rear_by = { λ x at low high. refl };

    ghost joined_units = { λ x y can. joined_units x y can };

    ghost joined_by = { λ x y can. refl };

    ghost joins_by = { λ x y can. refl };

    ghost stamped_units = { λ x s c. refl };

    ghost stamped_by = { λ x s c. refl };
}
