//! A table whose floor stays 0.

ghost use Rattle.std.specs.Prelude.{◌≡◌, ℕ, ◌<◌, ◌≤◌, ◌^◌, List, [], ◌++◌, IfOk, OnOk, OnErr};
ghost use Rattle.ft_partial.specs.Entries.{AddsEntries};
ghost use Rattle.ft_partial.specs.EntryLists.{entries_of};
ghost use Rattle.ft_partial.specs.Items.{Item, length_seen};
ghost use Rattle.ft_partial.specs.Stages.{AreStages};
ghost use Rattle.ft_partial.specs.Tables.{length_at, CountsItems, AddsAll, AddsChange, AddsForAll};

use crate::changes::Change;
use crate::entries::{Entry, unseen};
use crate::entry_list::EntryList;
use ft_base::{OutOfMemory, Perspective};
use std::alloc::Global;
use std::marker::Model;

// The stage behind all others: what is seen there is what is seen in the end.
const LAST: u64 = u64::MAX;

/// A table whose floor stays 0, for changes that are mostly taken back soon: those that a client has made
/// and that aren't sequenced yet. Contracts see the same as of a `Table`.
///
/// It keeps an entry for each number with a change, and gives up those of nothing. Where nothing ever
/// changed it takes three words.
#[derive(Drop)]
pub struct Stages {
    // how many elements are seen at the last stage
    last: u64,
    // what is counted besides at those before: None where nothing was ever counted
    recent: Option<Box<Recent>>,
    alloc: Global,
}

impl Model for Stages {
    ghost use Rattle.ft_partial.specs.Tables.{Lengths};

    ghost Value = { Lengths };

    ghost use Rattle.ft_partial.specs.Stages.{AreStages, recent_entries};

    ghost view = { λ a. record { floor = 0; last = a.last; entries = recent_entries a.recent } };

    ghost invariant = { λ a. AreStages (recent_entries a.recent) };
}

// The entries of a table of stages.
#[derive(Drop)]
struct Recent {
    entries: EntryList,
}

impl Recent {
    // The entries, in any order.
    fn new(alloc: Global, more: &[Entry]) -> Result<Box<Recent>, OutOfMemory>
        ensures adds { IfOk result (λ recent. AddsEntries [] (entries_of recent.value.entries) more.now) }
        ensures stages { IfOk result (λ recent. AreStages (entries_of recent.value.entries)) }
    {
        let mut entries = EntryList::Empty;
        put_entries(&mut entries, alloc, more)?;
        Ok(Box::new(alloc, Recent { entries })?)
    }

    // Adds entries, in any order.
    fn put(&mut self, alloc: Global, more: &[Entry]) -> Result<(), OutOfMemory>
        requires { AreStages (entries_of self.old.entries) }
        ensures ok { OnOk result (AddsEntries (entries_of self.old.entries) (entries_of self.new.entries) more.now) }
        ensures stages { AreStages (entries_of self.new.entries) }
        ensures err { OnErr result (entries_of self.new.entries ≡ entries_of self.old.entries) }
    {
        put_entries(&mut self.entries, alloc, more)
    }
}

impl Stages {
    /// The table of no items.
    pub fn new(alloc: Global) -> Stages
        ensures stands { CountsItems result [] }
        ensures floor { result.floor ≡ 0 }
    {
        Stages {
            last: 0,
            recent: None,
            alloc,
        }
    }

    /// How many elements the perspective sees.
    ///
    /// The number is exact where less than 2^64 elements are seen, as in each list that has less, and
    /// else it is taken round 2^64.
    pub fn length(&self, at: Perspective) -> u64
        ensures sum { (xs : List Item) → self.now.floor ≤ at.r → CountsItems self.now xs → length_seen at.r at.c xs < 2 ^ 64 → result ≡ length_seen at.r at.c xs }
        ensures at { result ≡ length_at self.now at.r at.c }
    {
        let last = self.last;
        // A client's own view needs no look at what is behind the box.
        if at.r == LAST {
            return last;
        }
        match &self.recent {
            Some(recent) => last.wrapping_add(unseen(recent.entries.as_slice(), at)),
            None => last,
        }
    }

    /// Adds `len` elements that all see.
    pub fn add_for_all(&mut self, len: u64)
        ensures lengths { AddsForAll self.old self.new len }
        ensures floor { self.new.floor ≡ self.old.floor }
    {
        self.last = self.last.wrapping_add(len);
    }

    /// Adds a change.
    ///
    /// Returns `OutOfMemory` where there is no room, and then the table is as it was.
    #[inline]
    pub fn add_change(&mut self, change: &Change) -> Result<(), OutOfMemory>
        ensures lengths { OnOk result (AddsChange self.old self.new change.now.entries change.now.last) }
        ensures floor { self.new.floor ≡ self.old.floor }
        ensures low { self.old.floor ≡ 0 }
        ensures err { OnErr result (self.new ≡ self.old) }
    {
        // That the floor is 0 is read off the field.
        let _last = self.last;
        self.put_in(change.entries.as_slice(), change.last)
    }

    /// Adds all items of another table.
    ///
    /// Returns `OutOfMemory` where there is no room, and then the table is as it was.
    pub fn add_all(&mut self, other: &Stages) -> Result<(), OutOfMemory>
        ensures ok { OnOk result ((xs ys : List Item) → other.now.floor ≤ self.old.floor → CountsItems self.old xs → CountsItems other.now ys → CountsItems self.new (ys ++ xs)) }
        ensures adds { OnOk result (AddsAll self.old other.now self.new) }
        ensures floor { self.new.floor ≡ self.old.floor }
        ensures err { OnErr result (self.new ≡ self.old) }
    {
        match &other.recent {
            Some(recent) => self.put_in(recent.entries.as_slice(), other.last),
            None => self.put_in(&[], other.last),
        }
    }

    // Adds entries, and so many elements to those that are seen at the last stage.
    #[inline]
    fn put_in(&mut self, more: &[Entry], last: u64) -> Result<(), OutOfMemory>
        ensures lengths { OnOk result (AddsChange self.old self.new more.now last) }
        ensures floor { self.new.floor ≡ self.old.floor }
        ensures err { OnErr result (self.new ≡ self.old) }
    {
        self.put(more)?;
        self.last = self.last.wrapping_add(last);
        Ok(())
    }

    // Adds entries, in any order.
    fn put(&mut self, more: &[Entry]) -> Result<(), OutOfMemory>
        ensures ok { OnOk result (AddsEntries self.old.entries self.new.entries more.now) }
        ensures rest { self.new ≡ record self.old { entries = self.new.entries } }
        ensures err { OnErr result (self.new ≡ self.old) }
    {
        // That the entries rise is read off the field.
        let _last = self.last;
        // Most changes are sequenced, and stand for nothing here.
        let count = more.len();
        if count == 0 {
            return Ok(());
        }
        match &mut self.recent {
            Some(recent) => recent.put(self.alloc, more),
            None => {
                self.recent = Some(Recent::new(self.alloc, more)?);
                Ok(())
            }
        }
    }
}

// Adds entries, in any order, and takes those of nothing out.
#[inline]
fn put_entries(entries: &mut EntryList, alloc: Global, more: &[Entry]) -> Result<(), OutOfMemory>
    requires { AreStages (entries_of entries.old) }
    ensures ok { OnOk result (AddsEntries (entries_of entries.old) (entries_of entries.new) more.now) }
    ensures stages { AreStages (entries_of entries.new) }
    ensures err { OnErr result (entries_of entries.new ≡ entries_of entries.old) }
{
    entries.add(alloc, more)?;
    entries.drop_nothing();
    Ok(())
}
