//! What an exchange of elements adds to a table.

ghost use Rattle.std.specs.Prelude.{◌≡◌, ◌↔◌, [], IfOk, IsTrue};
ghost use Rattle.ft_partial.specs.Lifespans.{ExchangesLifespans};
ghost use Rattle.ft_partial.specs.Tables.{IsExchange};

use crate::entry_list::EntryList;
use crate::items::{last_length, push_item};
use crate::lifespans::{Lifespan, push_lifespan, staying};
use ft_base::{Element, OutOfMemory};
use std::alloc::Global;
use std::marker::Model;

/// What an exchange of elements adds to a table: how many elements more all see in the end, round 2^64, and what
/// those count besides who haven't seen a sequence number yet. Contracts see it as a table whose floor is 0.
#[derive(Drop)]
pub struct Change {
    pub(crate) last: u64,
    pub(crate) entries: EntryList,
}

impl Model for Change {
    ghost use Rattle.ft_partial.specs.Tables.{Lengths};

    ghost Value = { Lengths };

    ghost use Rattle.ft_partial.specs.EntryLists.{entries_of};

    ghost view = { λ a. record { floor = 0; last = a.last; entries = entries_of a.entries } };
}

impl Change {
    /// What `new_len` elements of the stamps `new` in the place of `len` elements of the stamps `e` add, from
    /// the floor up.
    pub fn of(
        alloc: Global,
        floor: u64,
        e: &Element,
        len: u64,
        new: &Element,
        new_len: u64,
    ) -> Result<Change, OutOfMemory>
        ensures { IfOk result (λ change. IsExchange floor change.entries change.last e.now len new.now new_len) }
    {
        let mut entries = EntryList::Empty;
        push_item(&mut entries, alloc, floor, new, new_len)?;
        push_item(&mut entries, alloc, floor, e, 0u64.wrapping_sub(len))?;
        let gone = last_length(e, len);
        let come = last_length(new, new_len);
        Ok(Change {
            last: come.wrapping_sub(gone),
            entries,
        })
    }

    /// Whether it adds nothing.
    pub fn is_nothing(&self) -> bool
        ensures { IsTrue result ↔ (self.now.last ≡ 0) × (self.now.entries ≡ []) }
    {
        self.last == 0 && self.entries.is_empty()
    }

    /// What `new_len` elements of the lifespan `come` in the place of `len` elements of the lifespan `gone` add for each
    /// connection but number 0.
    pub fn of_lifespans(
        alloc: Global,
        gone: &Lifespan,
        len: u64,
        come: &Lifespan,
        new_len: u64,
    ) -> Result<Change, OutOfMemory>
        ensures { IfOk result (λ change. ExchangesLifespans change gone.now len come.now new_len) }
    {
        let mut entries = EntryList::Empty;
        push_lifespan(&mut entries, alloc, come, new_len)?;
        push_lifespan(&mut entries, alloc, gone, 0u64.wrapping_sub(len))?;
        let less = staying(gone, len);
        let more = staying(come, new_len);
        Ok(Change {
            last: more.wrapping_sub(less),
            entries,
        })
    }
}
