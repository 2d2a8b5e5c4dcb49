//! Where the pending operations stand that count: of each key the last one, and the last clear.

ghost use Rattle.std.specs.Prelude.{◌≡◌, OnOk, OnErr, chars};
ghost use Rattle.ft_props.specs.Keys.{value_of};
ghost use Rattle.ft_shared_map.specs.Marks.{forgotten, no_marks, noted, unless_at, without};

use crate::ops::MapOp;
use ft_base::{Datum, OutOfMemory, Text};
use ft_props::Pairs;
use std::alloc::Global;
use std::marker::Model;

/// Of each key the number of the last pending operation that names it, of those behind the last clear, and the number
/// of the last clear.
#[derive(Drop)]
pub(crate) struct KeyMarks {
    last_of: Pairs<u64>,
    cleared: Option<u64>,
}

impl Model for KeyMarks {
    ghost use Rattle.ft_shared_map.specs.Marks.{KeptMarks};

    ghost Value = { KeptMarks };

    ghost view = { λ a. record { last_of = a.last_of; cleared = a.cleared } };
}

impl KeyMarks {
    /// Nothing is pending.
    pub(crate) fn new(alloc: Global) -> KeyMarks
        ensures { result ≡ no_marks }
    {
        KeyMarks {
            last_of: Pairs::new(alloc),
            cleared: None,
        }
    }

    /// The number of the last operation on the key behind the last clear: None exactly where there is none.
    pub(crate) fn last_of(&self, key: &str) -> Option<u64>
        ensures { result ≡ value_of (chars key.now) self.now.last_of }
    {
        self.last_of.get(key).copied()
    }

    /// The number of the last clear: None exactly where there is none.
    pub(crate) fn cleared(&self) -> Option<u64>
        ensures { result ≡ self.now.cleared }
    {
        self.cleared
    }

    /// Notes the next operation, which has this number.
    ///
    /// Returns `OutOfMemory` where there is no room for it, and then nothing changed.
    pub(crate) fn note(&mut self, number: u64, op: &MapOp) -> Result<(), OutOfMemory>
        ensures ok { OnOk result (self.new ≡ noted number op.now self.old) }
        ensures err { OnErr result (self.new ≡ self.old) }
    {
        match op {
            MapOp::Set { key, .. } | MapOp::Delete { key } => {
                self.last_of.put(key.copy()?, number)
            }
            MapOp::Clear => {
                self.last_of = Pairs::new(self.last_of.allocator());
                self.cleared = Some(number);
                Ok(())
            }
        }
    }

    /// Forgets the oldest operation, which has this number.
    pub(crate) fn forget(&mut self, number: u64, op: &MapOp)
        ensures { self.new ≡ forgotten number op.now self.old }
    {
        match op {
            MapOp::Set { key, .. } => self.forget_key(number, key),
            MapOp::Delete { key } => self.forget_key(number, key),
            MapOp::Clear => self.cleared = unless_at(number, self.cleared),
        }
    }

    // Forgets that the key has that number, if it has.
    fn forget_key(&mut self, number: u64, key: &Text)
        ensures { self.new ≡ record self.old { last_of = without number key.now (value_of key.now self.old.last_of) self.old.last_of } }
    {
        if self.last_of(key.as_str()) == Some(number) {
            self.last_of.remove(key.as_str());
        }
    }
}

// The number, but none where it is this one.
fn unless_at(number: u64, given: Option<u64>) -> Option<u64>
    ensures { result ≡ unless_at number given }
{
    given.filter(|other| number != *other)
}
