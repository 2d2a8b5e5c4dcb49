//! What an element adds to the entries.
//!
//! Let elements have the insertion (s, d), and let g be the least number of their sequenced removals.
//! All see them in the end, or none does where there is a removal. Without one, those count them less
//! who haven't seen s, all but connection d. With one, those count them more who haven't seen g, all but
//! the removers, and again less who haven't seen s or g, all but the removers and d.

ghost use Rattle.std.specs.Prelude.{◌≡◌, List, [], ◌∷◌, ◌++◌, OnOk};
ghost use Rattle.std.specs.List.{list_any};
ghost use Rattle.ft_base.specs.declared.stamps.Stamp.{Stamp};
ghost use Rattle.ft_base.specs.Visibility.{is_acked};
ghost use Rattle.ft_partial.specs.EntryLists.{entries_of};
ghost use Rattle.ft_partial.specs.Elements.{is_stamp_by, IsFirst, last_length, AddsBut, TakesOwn, TakesOne, AddsItem};

use crate::entries::Entry;
use crate::entry_list::EntryList;
use ft_base::{Element, OutOfMemory, Stamp};
use std::alloc::Global;

/// A sequenced removal.
#[derive(Clone, Copy)]
pub struct Removal {
    pub seq: u64,
    pub conn: u32,
}

// Whether the stamp is sequenced, and by this connection.
fn is_by(stamp: &Stamp, conn: u32) -> bool
    ensures { result ≡ is_stamp_by conn stamp.now }
{
    match stamp {
        Stamp::Acked { conn: maker, .. } => *maker == conn,
        Stamp::Local { .. } => false,
    }
}

// Whether one of the stamps is by the connection.
fn is_any_by(stamps: &[Stamp], conn: u32) -> bool
    ensures { result ≡ list_any (is_stamp_by conn) stamps.now }
{
    stamps.iter().any(|stamp| is_by(stamp, conn))
}

// Whether the stamp is sequenced.
fn is_acked(stamp: &Stamp) -> bool
    ensures { result ≡ is_acked stamp.now }
{
    match stamp {
        Stamp::Acked { .. } => true,
        Stamp::Local { .. } => false,
    }
}

// Whether one of the stamps is sequenced.
fn is_any_acked(stamps: &[Stamp]) -> bool
    ensures { result ≡ list_any is_acked stamps.now }
{
    stamps.iter().any(|stamp| is_acked(stamp))
}

/// How many of `len` elements of these stamps all see in the end: all or none.
pub fn last_length(e: &Element, len: u64) -> u64
    ensures { result ≡ last_length e.now len }
{
    if is_acked(&e.ins) && !is_any_acked(e.dels.as_slice()) {
        len
    } else {
        0
    }
}

// The earlier one of a removal and a stamp, if that is sequenced.
fn earlier(first: &Option<Removal>, stamp: &Stamp) -> Option<Removal>
    ensures { (dels : List Stamp) → IsFirst dels first.now → IsFirst (dels ++ stamp.now ∷ []) result }
{
    let Stamp::Acked { seq, conn } = *stamp else {
        return *first;
    };
    let here = Removal { seq, conn };
    match first {
        None => Some(here),
        Some(first) if first.seq <= seq => Some(*first),
        Some(_) => Some(here),
    }
}

// The first sequenced removal: None where none is sequenced.
fn first_removal(dels: &[Stamp]) -> Option<Removal>
    ensures { IsFirst dels.now result }
{
    let mut first = None;
    for stamp in dels {
        first = earlier(&first, stamp);
    }
    first
}

// The stamp's connection counts `by` less until it has seen the number, if it is not `conn` and made
// none of the stamps before.
fn take_one(
    entries: &mut EntryList,
    alloc: Global,
    seq: u64,
    by: u64,
    conn: u32,
    before: &[Stamp],
    stamp: Stamp,
) -> Result<(), OutOfMemory>
    ensures { OnOk result (TakesOne (entries_of entries.old) (entries_of entries.new) seq by conn before.now stamp) }
{
    if let Stamp::Acked {
        seq: _,
        conn: maker,
    } = stamp
    {
        if maker != conn && !is_any_by(before, maker) {
            let less = Entry {
                seq,
                conn: maker,
                own: true,
                by: 0u64.wrapping_sub(by),
            };
            entries.push(alloc, less)?;
        }
    }
    Ok(())
}

// The connections of the stamps other than `conn` count `by` less until they have seen the number.
fn take_own(
    entries: &mut EntryList,
    alloc: Global,
    seq: u64,
    by: u64,
    conn: u32,
    stamps: &[Stamp],
) -> Result<(), OutOfMemory>
    ensures { OnOk result (TakesOwn (entries_of entries.old) (entries_of entries.new) seq by conn stamps.now) }
{
    for i in 0..stamps.len() {
        take_one(entries, alloc, seq, by, conn, &stamps[..i], stamps[i])?;
    }
    Ok(())
}

/// All but `conn` and the connections of the stamps count `by` more until they have seen the number.
pub fn push_but(
    entries: &mut EntryList,
    alloc: Global,
    floor: u64,
    seq: u64,
    by: u64,
    conn: u32,
    stamps: &[Stamp],
) -> Result<(), OutOfMemory>
    ensures { OnOk result (AddsBut floor (entries_of entries.old) (entries_of entries.new) seq by conn stamps.now) }
{
    if seq <= floor || by == 0 {
        return Ok(());
    }
    let more = Entry {
        seq,
        conn,
        own: false,
        by,
    };
    entries.push(alloc, more)?;
    take_own(entries, alloc, seq, by, conn, stamps)
}

/// Adds at the end what `len` elements of these stamps count from the floor up, besides what all see of
/// them in the end.
pub fn push_item(
    entries: &mut EntryList,
    alloc: Global,
    floor: u64,
    e: &Element,
    len: u64,
) -> Result<(), OutOfMemory>
    ensures { OnOk result (AddsItem floor (entries_of entries.old) (entries_of entries.new) e.now len) }
{
    let Stamp::Acked { seq, conn } = e.ins else {
        return Ok(());
    };
    let dels = e.dels.as_slice();
    let less = 0u64.wrapping_sub(len);
    match first_removal(dels) {
        None => push_but(entries, alloc, floor, seq, less, conn, dels),
        Some(first) => {
            push_but(entries, alloc, floor, first.seq, len, first.conn, dels)?;
            push_but(entries, alloc, floor, seq.min(first.seq), less, conn, dels)
        }
    }
}
