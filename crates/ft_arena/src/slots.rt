//! Values by number, of which there are few enough that a link of 32 bits can hold each number.

ghost use Rattle.std.specs.Prelude.{◌≡◌, ◌+◌, ◌^◌, ◌<◌, ◌≤◌, [], length, OnOk, Some, None};
ghost use Rattle.std.specs.Borrow.{sem};
ghost use Rattle.slab.specs.Slab.{get, ContainsKey, slab_len, HasRoomFor, Updates};

use ft_base::OutOfMemory;
use slab::Slab;
use std::alloc::Global;
use std::marker::Model;
use std::ops::{Index, IndexMut};

/// The most values that there may be at a time: nodes of an arena, or references. As a link of 32 bits
/// says none by one of its words, so many are left for numbers. Narrow links keep a node small, and an
/// arena of so many nodes would take hundreds of gigabytes.
pub const MOST_SLOTS: usize = 4_294_967_295;

/// Values, each under a number below `MOST_SLOTS` that it keeps until it is taken out, and only then may
/// a new value get the number. A contract sees what it sees of a `Slab`, whose capacity here is how many
/// values there may be before memory is needed again: none where the slab got room for more than
/// `MOST_SLOTS`, since it may give out a number as high as its room.
#[derive(Drop)]
pub struct Slots<T> {
    slab: Slab<T>,
}

impl<T> Model for Slots<T> {
    ghost use Rattle.slab.specs.Slab.{Slab, slab_code};

    ghost Value = { Slab T };

    ghost coded = { slab_code T.code };

    ghost use Rattle.ft_arena.specs.Slots.{capped, AreFew};

    ghost view = { λ s. capped s.slab };

    ghost invariant = { λ s. AreFew s.slab };
}

impl<T> Slots<T> {
    /// No values.
    pub fn new(alloc: Global) -> Slots<T>
        ensures empty { result.slots ≡ [] }
        ensures capacity { result.capacity ≡ 0 }
    {
        Slots {
            slab: Slab::new(alloc),
        }
    }

    /// How many values there may be before memory is needed again.
    pub fn capacity(&self) -> usize
        ensures value { result ≡ self.now.capacity }
        ensures few { length self.now.slots < 2 ^ 32 }
    {
        let capacity = self.slab.capacity();
        if capacity <= MOST_SLOTS { capacity } else { 0 }
    }

    /// Makes room for `additional` more values.
    ///
    /// Returns `OutOfMemory` where there is no room for them, or where the slab got room for more than
    /// `MOST_SLOTS`. No value changes.
    pub fn reserve(&mut self, additional: usize) -> Result<(), OutOfMemory>
        ensures room { OnOk result (HasRoomFor self.new additional) }
        ensures capacity { OnOk result (self.old.capacity ≤ self.new.capacity) }
        ensures rest_kept { self.new ≡ record self.old { capacity = self.new.capacity } }
    {
        self.slab.reserve(additional)?;
        if self.slab.capacity() > MOST_SLOTS {
            return Err(OutOfMemory);
        }
        Ok(())
    }

    /// Puts a value under a number that has none.
    pub fn insert_reserved(&mut self, value: T) -> usize
        requires { HasRoomFor self.old 1 }
        ensures was_vacant { get self.old result ≡ None }
        ensures updates { Updates self.old self.new result (Some value) }
        ensures len { slab_len self.new ≡ slab_len self.old + 1 }
        ensures within { result < self.new.capacity }
        ensures capacity { self.new.capacity ≡ self.old.capacity }
    {
        let key = self.slab.insert_reserved(value);
        // That there are few numbers is read off its contract.
        let _capacity = self.slab.capacity();
        key
    }

    /// Takes the value under this number out, and returns it.
    pub fn remove(&mut self, key: usize) -> T
        requires { ContainsKey self.old key }
        ensures value { get self.old key ≡ Some result }
        ensures updates { Updates self.old self.new key None }
        ensures len { slab_len self.new + 1 ≡ slab_len self.old }
        ensures capacity { self.new.capacity ≡ self.old.capacity }
    {
        self.slab.remove(key)
    }
}

impl<T> Index<usize> for Slots<T> {
    type Output = T;

    ghost can_index = { ContainsKey };

    ghost index_gives = { λ s key value. get s key ≡ Some value };

    fn index(&self, key: usize) -> &T {
        &self.slab[key]
    }
}

impl<T> IndexMut<usize> for Slots<T> {
    ghost use Rattle.ft_arena.specs.Lends.{lends_value};

    fn index_mut(&mut self, key: usize) -> &mut T
        requires { ContainsKey self.old key }
        ensures* writes_back { sem 𝓛 (lends_value T.row self.entry key result) }
        ensures value { get self.old key ≡ Some result.now }
    {
        &mut self.slab[key]
    }
}
