//! Lists of pairs of a key and a value by rising keys.

ghost use Rattle.std.specs.Prelude.{◌≡◌, ◌↔◌, [], IfOk, IsOk, IsTrue, OnOk, OnErr, chars, length, slice_get, option_copied, option_map, is_some};
ghost use Rattle.ft_props.specs.Keys.{KeysRise, key_cmp, key_place, put_rising, remove_rising, value_of};

use crate::keys::compare;
use ft_base::{Datum, OutOfMemory, Text};
use std::alloc::Global;
use std::marker::Model;

/// Pairs of a key and a value, by rising keys, so that no key stands twice.
#[derive(Drop)]
pub struct Pairs<V> {
    items: Vec<(Text, V)>,
}

impl<V> Model for Pairs<V> {
    ghost use Rattle.std.specs.Prelude.{List, ℕ};
    ghost use Rattle.ft_props.specs.Keys.{KeysRise};

    ghost Value = { List (List ℕ × V) };

    ghost view = { λ a. a.items.items };

    ghost invariant = { λ a. KeysRise a.items.items };
}

impl<V: Drop> Pairs<V> {
    /// No pairs.
    pub fn new(alloc: Global) -> Pairs<V>
        ensures { result ≡ [] }
    {
        Pairs {
            items: Vec::new(alloc),
        }
    }

    /// How many pairs there are.
    pub fn len(&self) -> usize
        ensures value { result ≡ length self.now }
        ensures rising { KeysRise self.now }
    {
        self.items.len()
    }

    /// Whether there are none.
    pub fn is_empty(&self) -> bool
        ensures { IsTrue result ↔ (self.now ≡ []) }
    {
        self.items.is_empty()
    }

    /// The key of the pair at place `i` in rising order, counted from 0: None exactly where `i`
    /// isn't below the length.
    pub fn key_at(&self, i: usize) -> Option<&Text>
        ensures { option_copied result ≡ option_map (λ pair. pair.0) (slice_get self.now i) }
    {
        let pair = self.items.get(i)?;
        Some(&pair.0)
    }

    /// The value of the pair at place `i`: None exactly where `i` isn't below the length.
    pub fn value_at(&self, i: usize) -> Option<&V>
        ensures { option_copied result ≡ option_map (λ pair. pair.1) (slice_get self.now i) }
    {
        let pair = self.items.get(i)?;
        Some(&pair.1)
    }

    // The place of the key, or else, as an error, the place where it would stand.
    fn search(&self, key: &str) -> Result<usize, usize>
        ensures { result ≡ key_place (chars key.now) self.now }
    {
        self.items
            .binary_search_by(|pair| compare(pair.0.as_str(), key))
    }

    /// The value of the key: None exactly where it has none.
    pub fn get(&self, key: &str) -> Option<&V>
        ensures { option_copied result ≡ value_of (chars key.now) self.now }
    {
        match self.search(key) {
            Ok(i) => Some(&self.items[i].1),
            Err(_) => None,
        }
    }

    /// Whether the key has a value.
    pub fn contains_key(&self, key: &str) -> bool
        ensures { result ≡ is_some (value_of (chars key.now) self.now) }
    {
        self.get(key).is_some()
    }

    /// The pairs in order.
    pub fn as_slice(&self) -> &[(Text, V)]
        ensures value { result.now ≡ self.now }
        ensures rising { KeysRise self.now }
    {
        self.items.as_slice()
    }

    /// Where the list takes its memory.
    pub fn allocator(&self) -> Global {
        *self.items.allocator()
    }

    /// Sets the value of the key, and changes no other pair.
    ///
    /// Returns `OutOfMemory` where there is no room for one more pair, and then the list is as it
    /// was. Where the key has a value already, it takes no memory.
    pub fn put(&mut self, key: Text, value: V) -> Result<(), OutOfMemory>
        ensures ok { OnOk result (self.new ≡ put_rising key_cmp (key, value) self.old) }
        ensures err { OnErr result (self.new ≡ self.old) }
        ensures room { IsTrue (is_some (value_of key self.old)) → IsOk result }
    {
        match self.search(key.as_str()) {
            Ok(i) => {
                self.items[i] = (key, value);
                Ok(())
            }
            Err(i) => Ok(self.items.insert(i, (key, value))?),
        }
    }

    /// Gives back the room that no pair takes.
    pub(crate) fn tighten(&mut self)
        ensures { self.new ≡ self.old }
    {
        self.items.shrink_to_fit();
    }

    /// Takes the key and its value out, if it is there.
    pub fn remove(&mut self, key: &str)
        ensures { (value : V) → self.new ≡ remove_rising key_cmp (chars key.now, value) self.old }
    {
        if let Ok(i) = self.search(key) {
            let _ = self.items.remove(i);
        }
    }
}

// An equal pair.
fn copy_pair<V: Datum>(pair: &(Text, V)) -> Result<(Text, V), OutOfMemory>
    ensures { IfOk result (λ copy. copy ≡ pair.now) }
{
    Ok((pair.0.copy()?, pair.1.copy()?))
}

// Whether both pairs are equal.
fn is_same_pair<V: Datum>(mine: &(Text, V), theirs: &(Text, V)) -> bool
    ensures { IsTrue result ↔ (mine.now ≡ theirs.now) }
{
    mine.0.same(&theirs.0) && mine.1.same(&theirs.1)
}

impl<V: Datum> Datum for Pairs<V> {
    fn copy(&self) -> Result<Pairs<V>, OutOfMemory> {
        let mut items = Vec::with_capacity(*self.items.allocator(), self.items.len())?;
        for pair in &self.items {
            items.push(copy_pair(pair)?)?;
        }
        Ok(Pairs { items })
    }

    fn same(&self, other: &Pairs<V>) -> bool {
        if self.items.len() != other.items.len() {
            return false;
        }
        for (mine, theirs) in self.items.iter().zip(&other.items) {
            if !is_same_pair(mine, theirs) {
                return false;
            }
        }
        true
    }
}
