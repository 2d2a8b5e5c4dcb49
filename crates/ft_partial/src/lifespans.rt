//! Elements that are there from one number on, and until another one.

ghost use Rattle.std.specs.Prelude.{◌≡◌, OnOk};
ghost use Rattle.ft_partial.specs.Entries.{amount};
ghost use Rattle.ft_partial.specs.EntryLists.{entries_of};
ghost use Rattle.ft_partial.specs.Lifespans.{stays, AddsLifespan};

use crate::entry_list::EntryList;
use crate::items::push_but;
use ft_base::OutOfMemory;
use std::alloc::Global;

/// From which number on elements are there, and from which on no more.
#[derive(Clone, Copy)]
pub struct Lifespan {
    /// The first number at which they are there.
    pub from: u64,
    /// The first number at which they are gone: None where they stay.
    pub until: Option<u64>,
}

/// How many of `len` elements of the lifespan stay: all or none.
pub fn staying(lifespan: &Lifespan, len: u64) -> u64
    ensures { result ≡ amount (stays lifespan.now.until) len }
{
    match lifespan.until {
        None => len,
        Some(_) => 0,
    }
}

/// Adds at the end what `len` elements of the lifespan count, besides those that stay. Connection 0 counts none.
pub fn push_lifespan(
    entries: &mut EntryList,
    alloc: Global,
    lifespan: &Lifespan,
    len: u64,
) -> Result<(), OutOfMemory>
    ensures { OnOk result (AddsLifespan (entries_of entries.old) (entries_of entries.new) lifespan.now len) }
{
    let less = 0u64.wrapping_sub(len);
    match lifespan.until {
        None => push_but(entries, alloc, 0, lifespan.from, less, 0, &[]),
        Some(until) => {
            if until <= lifespan.from {
                return Ok(());
            }
            push_but(entries, alloc, 0, until, len, 0, &[])?;
            push_but(entries, alloc, 0, lifespan.from, less, 0, &[])
        }
    }
}
