//! A list of entries, of which a single one stands in place.

ghost use Rattle.std.specs.Prelude.{◌≡◌, ◌↔◌, [], ◌∷◌, ◌++◌, IfOk, IsTrue, OnOk, OnErr};
ghost use Rattle.ft_partial.specs.Entries.{IsRising, AddsEntries, DropsOld};
ghost use Rattle.ft_partial.specs.EntryLists.{entries_of};

use crate::entries::{Entry, FEW, add_entries, add_one, drop_nothing, drop_old, is_alike, sum_of};
use ft_base::OutOfMemory;
use std::alloc::Global;
use std::slice;

/// Entries: by rising number in a table, as they come in a change. Most lists hold none or one, and take no
/// memory then. Contracts see the entries.
#[derive(Drop)]
pub enum EntryList {
    Empty,
    // never an entry of nothing
    One(Entry),
    Many(Vec<Entry>),
}

impl EntryList {
    /// The entries.
    #[inline]
    pub fn as_slice(&self) -> &[Entry]
        ensures { result.now ≡ entries_of self.now }
    {
        match self {
            EntryList::Empty => &[],
            EntryList::One(one) => slice::from_ref(one),
            EntryList::Many(entries) => entries.as_slice(),
        }
    }

    /// Whether there is no entry.
    pub fn is_empty(&self) -> bool
        ensures { IsTrue result ↔ (entries_of self.now ≡ []) }
    {
        match self {
            EntryList::Empty => true,
            EntryList::One(_) => false,
            EntryList::Many(entries) => entries.is_empty(),
        }
    }

    /// Adds entries, in any order.
    ///
    /// Returns `OutOfMemory` where there is no room, and then the list holds what it did.
    #[inline]
    pub fn add(&mut self, alloc: Global, more: &[Entry]) -> Result<(), OutOfMemory>
        requires { IsRising (entries_of self.old) }
        ensures ok { OnOk result (AddsEntries (entries_of self.old) (entries_of self.new) more.now) }
        ensures err { OnErr result (entries_of self.new ≡ entries_of self.old) }
    {
        match more {
            [] => Ok(()),
            &[x] => self.add_one(alloc, x),
            _ => self.add_many(alloc, more),
        }
    }

    // Adds one entry, as most changes have no more.
    fn add_one(&mut self, alloc: Global, x: Entry) -> Result<(), OutOfMemory>
        requires { IsRising (entries_of self.old) }
        ensures ok { OnOk result (AddsEntries (entries_of self.old) (entries_of self.new) (x ∷ [])) }
        ensures err { OnErr result (entries_of self.new ≡ entries_of self.old) }
    {
        match self {
            EntryList::Many(entries) => add_one(entries, x),
            EntryList::One(one) => {
                *self = two(alloc, *one, x)?;
                Ok(())
            }
            EntryList::Empty => {
                *self = in_place(x);
                Ok(())
            }
        }
    }

    // Adds entries, in any order.
    fn add_many(&mut self, alloc: Global, more: &[Entry]) -> Result<(), OutOfMemory>
        requires { IsRising (entries_of self.old) }
        ensures ok { OnOk result (AddsEntries (entries_of self.old) (entries_of self.new) more.now) }
        ensures err { OnErr result (entries_of self.new ≡ entries_of self.old) }
    {
        match self {
            EntryList::Many(entries) => add_to(entries, more),
            EntryList::Empty | EntryList::One(_) => {
                *self = EntryList::Many(both(alloc, self.as_slice(), more)?);
                Ok(())
            }
        }
    }

    /// Puts an entry behind the others, whatever their numbers.
    ///
    /// Returns `OutOfMemory` where there is no room.
    pub fn push(&mut self, alloc: Global, x: Entry) -> Result<(), OutOfMemory>
        ensures { OnOk result (entries_of self.new ≡ entries_of self.old ++ x ∷ []) }
    {
        match self {
            EntryList::Empty => *self = EntryList::One(x),
            EntryList::One(one) => *self = EntryList::Many(pair(alloc, *one, x)?),
            EntryList::Many(entries) => entries.push(x)?,
        }
        Ok(())
    }

    /// Takes all entries out.
    pub fn clear(&mut self)
        ensures { entries_of self.new ≡ [] }
    {
        *self = EntryList::Empty;
    }

    /// Takes entries up to the floor, which nobody counts from there on, and those of nothing out of a vector.
    /// An entry in place takes no memory, and stays.
    pub fn drop_old(&mut self, floor: u64)
        requires { IsRising (entries_of self.old) }
        ensures { DropsOld (entries_of self.old) (entries_of self.new) floor }
    {
        match self {
            EntryList::Many(entries) => drop_old(entries, floor),
            EntryList::Empty | EntryList::One(_) => {}
        }
    }

    /// Takes the entries of nothing out of a vector, once the last one is of nothing or there is no more room.
    pub fn drop_nothing(&mut self)
        requires { IsRising (entries_of self.old) }
        ensures { DropsOld (entries_of self.old) (entries_of self.new) 0 }
    {
        match self {
            EntryList::Many(entries) => drop_nothing(entries),
            EntryList::Empty | EntryList::One(_) => {}
        }
    }
}

// Adds entries, in any order, to a vector.
fn add_to(entries: &mut Vec<Entry>, more: &[Entry]) -> Result<(), OutOfMemory>
    requires { IsRising entries.old.items }
    ensures ok { OnOk result (AddsEntries entries.old.items entries.new.items more.now) }
    ensures err { OnErr result (entries.new.items ≡ entries.old.items) }
{
    entries.reserve(more.len())?;
    add_entries(entries, more);
    Ok(())
}

// The list of two entries.
fn two(alloc: Global, x: Entry, y: Entry) -> Result<EntryList, OutOfMemory>
    ensures { IfOk result (λ list. AddsEntries (x ∷ []) (entries_of list) (y ∷ [])) }
{
    if is_alike(&x, &y) {
        return Ok(in_place(sum_of(&x, &y)));
    }
    Ok(EntryList::Many(ordered(alloc, x, y)?))
}

// A vector of two entries, the one with the lower number first.
fn ordered(alloc: Global, x: Entry, y: Entry) -> Result<Vec<Entry>, OutOfMemory>
    ensures { IfOk result (λ both. AddsEntries (x ∷ []) both.items (y ∷ [])) }
{
    if x.seq <= y.seq {
        pair(alloc, x, y)
    } else {
        pair(alloc, y, x)
    }
}

// The list of one entry: none where it is of nothing.
fn in_place(one: Entry) -> EntryList
    ensures { DropsOld (one ∷ []) (entries_of result) 0 }
{
    if one.by == 0 {
        EntryList::Empty
    } else {
        EntryList::One(one)
    }
}

// A vector of two entries, with room for a few.
fn pair(alloc: Global, x: Entry, y: Entry) -> Result<Vec<Entry>, OutOfMemory>
    ensures { IfOk result (λ both. both.items ≡ x ∷ y ∷ []) }
{
    let mut both = Vec::with_capacity(alloc, FEW)?;
    both.push(x)?;
    both.push(y)?;
    Ok(both)
}

// A vector with the entries of both, with room for a few at least.
fn both(alloc: Global, entries: &[Entry], more: &[Entry]) -> Result<Vec<Entry>, OutOfMemory>
    requires { IsRising entries.now }
    ensures { IfOk result (λ all. AddsEntries entries.now all.items more.now) }
{
    let room = entries.len().saturating_add(more.len()).max(FEW);
    let mut all = Vec::with_capacity(alloc, room)?;
    all.extend_from_slice(entries)?;
    add_to(&mut all, more)?;
    Ok(all)
}
