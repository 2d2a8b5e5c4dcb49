//! The numbers of connections.

ghost use Rattle.std.specs.Prelude.{◌≡◌, ◌↔◌, ◌-◌, ◌<◌, ◌^◌, IsOk, IsTrue, IfOk, OnOk, OnErr, [], Contains, length, option_copied, take};
ghost use Rattle.ft_msg.specs.NameTable.{AreDistinct, name_at, names_after, number_of};

use ft_base::{Datum, OutOfMemory, Text};
use ft_sumdoc::Texts;
use indexmap::IndexMap;
use std::alloc::Global;
use std::marker::Model;

/// The names of connections, which have the numbers 1, 2, 3 and so on in the order of their first
/// appearance. Contracts see it as the list of the names.
#[derive(Drop)]
pub struct Names {
    /// Each name, under its own characters.
    table: IndexMap<String, Text>,
}

impl Model for Names {
    ghost use Rattle.std.specs.Prelude.{List, ℕ, ◌<◌, ◌^◌, length};
    ghost use Rattle.indexmap.specs.IndexMap.{values};
    ghost use Rattle.ft_msg.specs.NameTable.{AreDistinct, KeysSpellNames};

    ghost Value = { List (List ℕ) };

    ghost view = { λ a. values a.table };

    ghost invariant = { λ a. KeysSpellNames a.table.entries × (length a.table.entries < 2 ^ 32) × AreDistinct (values a.table) };
}

impl Names {
    /// No names.
    pub fn new(alloc: Global) -> Names
        ensures { result ≡ [] }
    {
        Names {
            table: IndexMap::new(alloc),
        }
    }

    /// The number of the name, a new one where it has none yet.
    ///
    /// Returns `OutOfMemory` where there is no room for a new name, and then nothing changed.
    pub fn number(&mut self, name: &Text) -> Result<u32, OutOfMemory>
        requires { ¬ Contains self.old name.now → length self.old < 2 ^ 32 - 1 }
        ensures ok { IfOk result (λ n. n ≡ number_of self.old name.now) }
        ensures names { OnOk result (self.new ≡ names_after self.old name.now) }
        ensures err { OnErr result (self.new ≡ self.old) }
        ensures room { Contains self.old name.now → IsOk result }
    {
        if let Some(place) = self.table.get_index_of(name.as_str()) {
            return Ok(place as u32 + 1);
        }
        let number = self.table.len() as u32 + 1;
        let key = String::from_str(*self.table.allocator(), name.as_str())?;
        self.table.insert(key, name.copy()?)?;
        Ok(number)
    }

    /// The name of a number: None exactly for 0 and above the count.
    pub fn name(&self, n: u32) -> Option<&Text>
        ensures { option_copied result ≡ name_at self.now n }
    {
        if n == 0 {
            return None;
        }
        match self.table.get_index(n as usize - 1) {
            Some((_, name)) => Some(name),
            None => None,
        }
    }

    /// The first names, so many of them, or all where there are fewer.
    pub fn first(&self, count: u32) -> Result<Texts, OutOfMemory>
        ensures { IfOk result (λ names. names ≡ take count self.now) }
    {
        let mut names = Texts::new(*self.table.allocator());
        for name in self.table.values().take(count as usize) {
            names.push(name.copy()?)?;
        }
        Ok(names)
    }

    /// How many names there are.
    pub fn len(&self) -> usize
        ensures len { result ≡ length self.now }
        ensures distinct { AreDistinct self.now }
    {
        self.table.len()
    }

    /// Whether there are none.
    pub fn is_empty(&self) -> bool
        ensures { IsTrue result ↔ (self.now ≡ []) }
    {
        self.table.is_empty()
    }
}

impl Datum for Names {
    fn copy(&self) -> Result<Names, OutOfMemory> {
        let mut copy = Names::new(*self.table.allocator());
        for name in self.table.values() {
            copy.number(name)?;
        }
        Ok(copy)
    }

    fn same(&self, other: &Names) -> bool {
        if self.len() != other.len() {
            return false;
        }
        for (name, others) in self.table.values().zip(other.table.values()) {
            if !name.same(others) {
                return false;
            }
        }
        true
    }
}
