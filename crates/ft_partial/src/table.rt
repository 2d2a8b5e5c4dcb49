//! A table of partial lengths.

ghost use Rattle.std.specs.Prelude.{◌≡◌, ℕ, ◌+◌, ◌≤◌, ◌<◌, ◌^◌, List, [], ◌∷◌, ◌++◌, OnOk, OnErr};
ghost use Rattle.ft_partial.specs.Items.{Item, item_of, inserted_element, removed, length_seen, folded_items};
ghost use Rattle.ft_partial.specs.SameStamps.{SameByStamps, ExchangesItem};
ghost use Rattle.ft_partial.specs.Entries.{AddsEntries};
ghost use Rattle.ft_partial.specs.Tables.{length_at, CountsItems, Adds, Exchanges, AddsAll, AddsChange, AddsForAll, SameFrom};

use crate::changes::Change;
use crate::entries::{Entry, is_half_old, newest, unseen};
use crate::entry_list::EntryList;
use ft_base::{Datum, Element, OutOfMemory, Perspective, Stamp};
use std::alloc::Global;
use std::marker::Model;
use std::slice;

/// How much each perspective sees of a list of items, each the stamps of some elements with their
/// number.
///
/// Contracts see what the table answers. It stands for each list of which every perspective from its
/// floor up sees that much, round 2^64; so with a list also for each other one in which, for all
/// stamps, the items with these stamps have the same sum of lengths. Each clause holds for every
/// list that the table stands for.
///
/// A table keeps how many elements all see in the end, and one entry or a few for each change above the
/// floor: elements that all see from the floor up take none. `length` reads the entries that are new to
/// the perspective, from the newest back; none where it has seen the latest number. A change adds its
/// entries at the end, where their numbers are the newest.
#[derive(Drop)]
pub struct Table {
    latest: u64,
    // how many elements all see whose reference number is `latest` or higher
    last: u64,
    floor: u64,
    // what the others count besides
    entries: EntryList,
    alloc: Global,
}

impl Model for Table {
    ghost use Rattle.ft_partial.specs.EntryLists.{entries_of};
    ghost use Rattle.ft_partial.specs.Tables.{Lengths, IsSoundTable};

    ghost Value = { Lengths };

    ghost view = { λ a. record { floor = a.floor; last = a.last; entries = entries_of a.entries } };

    ghost invariant = { λ a. IsSoundTable (record { floor = a.floor; last = a.last; entries = entries_of a.entries }) a.latest };
}

impl Table {
    /// The table of no items, with floor 0.
    pub fn new(alloc: Global) -> Table
        ensures stands { CountsItems result [] }
        ensures floor { result.floor ≡ 0 }
    {
        Table {
            floor: 0,
            last: 0,
            entries: EntryList::Empty,
            latest: 0,
            alloc,
        }
    }

    /// How many elements the perspective sees, where its reference number isn't below the floor.
    ///
    /// The number is exact where less than 2^64 elements are seen, as in each list that has less, and
    /// else it is taken round 2^64.
    pub fn length(&self, at: Perspective) -> u64
        ensures sum { (xs : List Item) → self.now.floor ≤ at.r → CountsItems self.now xs → length_seen at.r at.c xs < 2 ^ 64 → result ≡ length_seen at.r at.c xs }
        ensures at { result ≡ length_at self.now at.r at.c }
    {
        // Most blocks of a tree hold nothing that is new to the perspective.
        if self.latest <= at.r {
            return self.last;
        }
        self.last.wrapping_add(unseen(self.entries.as_slice(), at))
    }

    /// Adds `len` elements that connection `conn` inserted at the sequence number `seq`, and nobody
    /// removed.
    ///
    /// Returns `OutOfMemory` where there is no room, and then the table is as it was.
    pub fn insert(&mut self, seq: u64, conn: u32, len: u64) -> Result<(), OutOfMemory>
        ensures ok { OnOk result ((xs : List Item) → CountsItems self.old xs → CountsItems self.new (item_of (inserted_element seq conn) len ∷ xs)) }
        ensures adds { OnOk result (Adds self.old self.new (inserted_element seq conn) len) }
        ensures floor { self.new.floor ≡ self.old.floor }
        ensures err { OnErr result (self.new ≡ self.old) }
    {
        // Elements that all see from the floor up take no entry.
        if seq <= self.floor {
            self.add_for_all(len);
            return Ok(());
        }
        let less = Entry {
            seq,
            conn,
            own: false,
            by: 0u64.wrapping_sub(len),
        };
        self.put_in(slice::from_ref(&less), len)
    }

    /// Adds `len` elements of the stamps `e`, of which pending ones have occurred for nobody.
    ///
    /// Returns `OutOfMemory` where there is no room, and then the table is as it was.
    pub fn add(&mut self, e: &Element, len: u64) -> Result<(), OutOfMemory>
        ensures ok { OnOk result ((xs : List Item) → CountsItems self.old xs → CountsItems self.new (item_of e.now len ∷ xs)) }
        ensures adds { OnOk result (Adds self.old self.new e.now len) }
        ensures floor { self.new.floor ≡ self.old.floor }
        ensures err { OnErr result (self.new ≡ self.old) }
    {
        self.replace(e, 0, e, len)
    }

    /// Gives the removal stamp of connection `conn` at the sequence number `seq` to `len` elements
    /// of the stamps `e`, of which the items have that many. An insertion at or below the floor may
    /// stand in `e` as it was or as (0, 0), as it does in the items.
    ///
    /// Returns `OutOfMemory` where there is no room, and then the table is as it was.
    pub fn remove(&mut self, e: &Element, seq: u64, conn: u32, len: u64) -> Result<(), OutOfMemory>
        ensures ok { OnOk result ((xs ys : List Item) → CountsItems self.old xs → ExchangesItem xs ys e.now len (removed seq conn e.now) len → CountsItems self.new ys) }
        ensures exchanges { OnOk result (Exchanges self.old self.new e.now len (removed seq conn e.now) len) }
        ensures floor { self.new.floor ≡ self.old.floor }
        ensures err { OnErr result (self.new ≡ self.old) }
    {
        let mut new = e.copy()?;
        new.dels.push(Stamp::Acked { seq, conn })?;
        self.replace(e, len, &new, len)
    }

    /// Puts `new_len` elements of the stamps `new` in the place of `len` elements of the stamps `e`,
    /// of which the items have that many.
    ///
    /// Returns `OutOfMemory` where there is no room, and then the table is as it was.
    pub fn replace(
        &mut self,
        e: &Element,
        len: u64,
        new: &Element,
        new_len: u64,
    ) -> Result<(), OutOfMemory>
        ensures ok { OnOk result ((xs ys : List Item) → CountsItems self.old xs → ExchangesItem xs ys e.now len new.now new_len → CountsItems self.new ys) }
        ensures exchanges { OnOk result (Exchanges self.old self.new e.now len new.now new_len) }
        ensures floor { self.new.floor ≡ self.old.floor }
        ensures err { OnErr result (self.new ≡ self.old) }
    {
        let change = Change::of(self.alloc, self.floor, e, len, new, new_len)?;
        self.add_change(&change)
    }

    /// Adds `len` elements that all see.
    pub fn add_for_all(&mut self, len: u64)
        ensures lengths { AddsForAll self.old self.new len }
        ensures floor { self.new.floor ≡ self.old.floor }
    {
        self.last = self.last.wrapping_add(len);
    }

    /// Adds a change.
    ///
    /// Returns `OutOfMemory` where there is no room, and then the table is as it was.
    #[inline]
    pub fn add_change(&mut self, change: &Change) -> Result<(), OutOfMemory>
        ensures lengths { OnOk result (AddsChange self.old self.new change.now.entries change.now.last) }
        ensures floor { self.new.floor ≡ self.old.floor }
        ensures err { OnErr result (self.new ≡ self.old) }
    {
        self.put_in(change.entries.as_slice(), change.last)
    }

    // Adds entries, and so many elements to those that all see in the end.
    #[inline]
    fn put_in(&mut self, more: &[Entry], last: u64) -> Result<(), OutOfMemory>
        ensures lengths { OnOk result (AddsChange self.old self.new more.now last) }
        ensures floor { self.new.floor ≡ self.old.floor }
        ensures err { OnErr result (self.new ≡ self.old) }
    {
        self.put(more)?;
        self.last = self.last.wrapping_add(last);
        Ok(())
    }

    // Adds entries, in any order.
    #[inline]
    fn put(&mut self, more: &[Entry]) -> Result<(), OutOfMemory>
        ensures ok { OnOk result (AddsEntries self.old.entries self.new.entries more.now) }
        ensures rest { self.new ≡ record self.old { entries = self.new.entries } }
        ensures err { OnErr result (self.new ≡ self.old) }
    {
        // That the entries rise is read off the field.
        let _latest = self.latest;
        // Many changes count the same for all.
        if more.is_empty() {
            return Ok(());
        }
        self.entries.add(self.alloc, more)?;
        self.latest = newest(self.entries.as_slice());
        Ok(())
    }

    /// Adds all items of another table, where its floor isn't above this one's: each of its
    /// entries is put in, and moves those that are newer.
    ///
    /// Returns `OutOfMemory` where there is no room, and then the table is as it was.
    pub fn add_all(&mut self, other: &Table) -> Result<(), OutOfMemory>
        ensures ok { OnOk result ((xs ys : List Item) → other.now.floor ≤ self.old.floor → CountsItems self.old xs → CountsItems other.now ys → CountsItems self.new (ys ++ xs)) }
        ensures adds { OnOk result (AddsAll self.old other.now self.new) }
        ensures floor { self.new.floor ≡ self.old.floor }
        ensures err { OnErr result (self.new ≡ self.old) }
    {
        self.put_in(other.entries.as_slice(), other.last)
    }

    /// Raises the floor to `floor`, which isn't below the old one: the items removed at or below it
    /// are gone, and insertions at or below it are written (0, 0).
    ///
    /// Entries up to the floor are dropped at once where there are no others, and else once they are half
    /// of all, so all folds together take no longer than the calls that added the entries.
    #[inline]
    pub fn fold_to(&mut self, floor: u64)
        requires { self.old.floor ≤ floor }
        ensures items { (xs : List Item) → CountsItems self.old xs → CountsItems self.new (folded_items floor xs) }
        ensures same { (xs : List Item) → CountsItems self.old xs → CountsItems self.new xs }
        ensures lengths { SameFrom floor self.old self.new }
        ensures floor { self.new.floor ≡ floor }
    {
        // What is old was looked for as the floor came to be this one.
        if self.floor == floor {
            return;
        }
        self.floor = floor;
        if self.latest <= floor {
            self.entries.clear();
        } else if is_half_old(self.entries.as_slice(), floor) {
            self.entries.drop_old(floor);
        }
    }
}

/// The law of what a table stands for: with a list it stands for each other one in which, for all
/// stamps, the items with these stamps have the same sum of lengths. It does nothing.
pub fn same_by_stamps(table: &Table)
    ensures { (xs ys : List Item) → CountsItems table.now xs → SameByStamps xs ys → CountsItems table.now ys }
{
    // What holds of a table at any time is read off its field.
    let _floor = table.floor;
}
