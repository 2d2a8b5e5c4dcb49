//! Entries: what those count besides who haven't seen a sequence number yet.
//!
//! They stand by rising number, so that what is new to a perspective is read from the end back.

ghost use Rattle.std.specs.Prelude.{◌≡◌, ◌+◌, ◌/◌, ◌≤◌, ◌<◌, ◌%◌, ◌^◌, [], ◌∷◌, take, true, IfSome, OnOk, OnErr, length, insert, nat_lt, vec_len, vec_capacity};
ghost use Rattle.ft_partial.specs.Entries.{counts, share, unseen, last_number, old_count, AreUpTo, IsRising, IsPlace, IsAlikeAt, AddsEntry, AddsEntries, DropsOld};

use ft_base::{OutOfMemory, Perspective};

/// So many entries have room in a new vector, and twice as many in one that entries were taken out of.
pub const FEW: usize = 4;

/// What is counted besides by those who haven't seen the sequence number `seq`: by all but connection
/// `conn`, or where `own` is set by that connection alone. `by` is a number round 2^64.
#[derive(Clone, Copy)]
pub struct Entry {
    pub seq: u64,
    pub conn: u32,
    pub own: bool,
    pub by: u64,
}

// Whether the entry counts for the perspective.
#[inline]
fn counts(x: &Entry, at: Perspective) -> bool
    ensures { result ≡ counts at.r at.c x.now }
{
    if x.seq <= at.r {
        return false;
    }
    if x.own {
        x.conn == at.c
    } else {
        x.conn != at.c
    }
}

// What the perspective counts of the entry.
#[inline]
fn share(x: &Entry, at: Perspective) -> u64
    ensures { result ≡ share at.r at.c x.now }
{
    if counts(x, at) { x.by } else { 0 }
}

/// What the perspective counts of the entries: it looks at those that are new to it alone.
pub fn unseen(entries: &[Entry], at: Perspective) -> u64
    requires { IsRising entries.now }
    ensures { result ≡ unseen at.r at.c entries.now % 2 ^ 64 }
{
    let mut sum: u64 = 0;
    let mut i = entries.len();
    while i > 0 && entries[i - 1].seq > at.r {
        i -= 1;
        sum = sum.wrapping_add(share(&entries[i], at));
    }
    sum
}

/// The number of the last entry, or 0 where there is none.
#[inline]
pub fn newest(entries: &[Entry]) -> u64
    requires { IsRising entries.now }
    ensures { AreUpTo result entries.now }
{
    let len = entries.len();
    if len == 0 { 0 } else { entries[len - 1].seq }
}

// Where an entry with this number may stand, behind those with the same number: it looks at the last
// entry first.
fn entry_place(entries: &[Entry], seq: u64) -> usize
    requires { IsRising entries.now }
    ensures { IsPlace entries.now seq result }
{
    let count = entries.len();
    if count > 0 && entries[count - 1].seq <= seq {
        return count;
    }
    let mut low = 0;
    let mut high = count;
    while low < high {
        let middle = low + (high - low) / 2;
        if entries[middle].seq <= seq {
            low = middle + 1;
        } else {
            high = middle;
        }
    }
    low
}

/// Whether both entries have one number and are for the same connections.
#[inline]
pub fn is_alike(x: &Entry, y: &Entry) -> bool
    ensures number { result ≡ true → x.now.seq ≡ y.now.seq }
    ensures conn { result ≡ true → x.now.conn ≡ y.now.conn }
    ensures own { result ≡ true → x.now.own ≡ y.now.own }
    ensures all { x.now.seq ≡ y.now.seq → x.now.conn ≡ y.now.conn → x.now.own ≡ y.now.own → result ≡ true }
{
    x.seq == y.seq && x.conn == y.conn && x.own == y.own
}

/// What two entries that are alike come to.
#[inline]
pub fn sum_of(x: &Entry, y: &Entry) -> Entry
    ensures { result ≡ record x.now { by = (x.now.by + y.now.by) % 2 ^ 64 } }
{
    let mut sum = *x;
    sum.by = sum.by.wrapping_add(y.by);
    sum
}

// The entry with the number of `x`, and for the same connections, looked for from the `end`-th back.
fn place_of_alike(entries: &[Entry], end: usize, x: &Entry) -> Option<usize>
    requires { end ≤ length entries.now }
    ensures inside { IfSome result (λ j. j < length entries.now) }
    ensures alike { IfSome result (λ j. IsAlikeAt entries.now j x.now) }
{
    let mut j = end;
    while j > 0 && entries[j - 1].seq == x.seq {
        j -= 1;
        if is_alike(&entries[j], x) {
            return Some(j);
        }
    }
    None
}

// Puts an entry in, for which there is room.
fn put(entries: &mut Vec<Entry>, i: usize, x: Entry)
    requires inside { i ≤ vec_len entries.old }
    requires room { vec_len entries.old < vec_capacity entries.old }
    ensures items { entries.new.items ≡ insert entries.old.items i x }
    ensures len { vec_len entries.new ≡ vec_len entries.old + 1 }
    ensures capacity { vec_capacity entries.old ≤ vec_capacity entries.new }
{
    // An entry at the end, where those of new messages go, moves no other.
    if i == entries.len() {
        entries.push_reserved(x);
        return;
    }
    match entries.insert(i, x) {
        Ok(()) => {}
        Err(_) => unreachable!(),
    }
}

// Adds an entry, for which there is room, to the one that is for the same, or puts it in.
fn add_entry(entries: &mut Vec<Entry>, x: Entry)
    requires rising { IsRising entries.old.items }
    requires room { vec_len entries.old < vec_capacity entries.old }
    ensures adds { AddsEntry entries.old.items entries.new.items x }
    ensures number { x.seq ≤ last_number }
    ensures len { vec_len entries.new ≤ vec_len entries.old + 1 }
    ensures capacity { vec_capacity entries.old ≤ vec_capacity entries.new }
{
    if x.by == 0 {
        return;
    }
    let i = entry_place(entries.as_slice(), x.seq);
    match place_of_alike(entries.as_slice(), i, &x) {
        Some(j) => add_at(entries, j, x),
        None => put(entries, i, x),
    }
}

// Adds an entry to the j-th, which is for the same.
fn add_at(entries: &mut Vec<Entry>, j: usize, x: Entry)
    requires rising { IsRising entries.old.items }
    requires inside { j < length entries.old.items }
    requires alike { IsAlikeAt entries.old.items j x }
    ensures adds { AddsEntry entries.old.items entries.new.items x }
    ensures len { vec_len entries.new ≡ vec_len entries.old }
    ensures capacity { vec_capacity entries.old ≤ vec_capacity entries.new }
{
    let sum = sum_of(&entries[j], &x);
    entries[j] = sum;
}

/// Adds an entry to the one that is for the same, or puts it in: mostly one with a newer number than all others,
/// which goes to the end.
///
/// Returns `OutOfMemory` where there is no room, and then the vector holds what it did.
pub fn add_one(entries: &mut Vec<Entry>, x: Entry) -> Result<(), OutOfMemory>
    requires { IsRising entries.old.items }
    ensures ok { OnOk result (AddsEntries entries.old.items entries.new.items (x ∷ [])) }
    ensures err { OnErr result (entries.new.items ≡ entries.old.items) }
{
    if x.by == 0 {
        return Ok(());
    }
    let len = entries.len();
    if len > 0 && entries[len - 1].seq >= x.seq {
        return add_older(entries, x);
    }
    entries.push(x)?;
    Ok(())
}

// The same for an entry whose number isn't newer than the last one's: it looks at that one first.
fn add_older(entries: &mut Vec<Entry>, x: Entry) -> Result<(), OutOfMemory>
    requires rising { IsRising entries.old.items }
    requires some { 0 < length entries.old.items }
    ensures ok { OnOk result (AddsEntries entries.old.items entries.new.items (x ∷ [])) }
    ensures err { OnErr result (entries.new.items ≡ entries.old.items) }
{
    let last = entries.len() - 1;
    if is_alike(&entries[last], &x) {
        add_at(entries, last, x);
        return Ok(());
    }
    entries.reserve(1)?;
    add_entry(entries, x);
    Ok(())
}

/// Adds entries, for which there is room, in any order.
pub fn add_entries(entries: &mut Vec<Entry>, more: &[Entry])
    requires rising { IsRising entries.old.items }
    requires room { vec_len entries.old + length more.now ≤ vec_capacity entries.old }
    ensures { AddsEntries entries.old.items entries.new.items more.now }
{
    for i in 0..more.len() {
        add_entry(entries, more[i]);
    }
}

/// Whether more than half of the entries are up to the floor.
#[inline]
pub fn is_half_old(entries: &[Entry], floor: u64) -> bool
    requires { IsRising entries.now }
    ensures old { result ≡ true → AreUpTo floor (take (length entries.now / 2 + 1) entries.now) }
    ensures exact { result ≡ nat_lt (length entries.now / 2) (old_count floor entries.now) }
{
    let middle = entries.len() / 2;
    middle < entries.len() && entries[middle].seq <= floor
}

/// Takes out the entries up to the floor, which nobody counts from there on, and those of nothing, and gives
/// back room where three quarters are spare then, so that room given back is rarely asked for again.
pub fn drop_old(entries: &mut Vec<Entry>, floor: u64)
    requires { IsRising entries.old.items }
    ensures { DropsOld entries.old.items entries.new.items floor }
{
    entries.retain(|x| x.seq > floor && x.by != 0);
    entries.shrink_to(entries.len().saturating_mul(4).max(2 * FEW));
}

/// Takes out the entries of nothing, once the last one is of nothing or there is no more room.
#[inline]
pub fn drop_nothing(entries: &mut Vec<Entry>)
    requires { IsRising entries.old.items }
    ensures { DropsOld entries.old.items entries.new.items 0 }
{
    let len = entries.len();
    if len == 0 {
        return;
    }
    if len == entries.capacity() || entries[len - 1].by == 0 {
        drop_old(entries, 0);
    }
}
