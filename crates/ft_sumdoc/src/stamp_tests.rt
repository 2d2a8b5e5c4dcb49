//! Which stamps are in range and in order.

ghost use Rattle.std.specs.Prelude.{◌≡◌, ◌+◌, ◌<◌, ◌^◌, Ok, Err, IfOk, nat_lt, true, length, map};
ghost use Rattle.std.specs.List.{list_all};
ghost use Rattle.ft_json.specs.Readers.{Gives};
ghost use Rattle.ft_sumdoc.specs.Items.{bounds_in, run_of, segment_of, stamps_of};
ghost use Rattle.ft_sumdoc.specs.NarrowLists.{segments_stamps};
ghost use Rattle.ft_sumdoc.specs.Stamps.{are_good_stamps, are_removals, given_author, given_insertion, is_good_author, is_good_insertion, is_old, is_recent, is_within_bounds, places_behind};
ghost use Rattle.ft_sumdoc.specs.Rising.{conns_differ, numbers_rise};
ghost use Rattle.ft_sumdoc.specs.Summary.{run_stamps};

use crate::items::{Limits, RunItem, SegItem, StampItem};
use crate::summary::{Mark, SumFault};
use ft_base::OutOfMemory;
use std::alloc::Global;
use std::collections::HashMap;

// The stamp that stands for an old or an unknown one.
const UNIVERSAL: Mark = Mark { seq: 0, conn: 0 };

// Whether the number is above `low` and at most `high`, and the connection has a name.
fn is_within(low: u64, high: u64, limits: Limits, mark: Mark) -> bool
    ensures { result ≡ is_within_bounds low high (bounds_in limits) mark }
{
    low < mark.seq && mark.seq <= high && 0 < mark.conn && u64::from(mark.conn) <= limits.conns
}

/// Whether it may be the stamp of an insertion or a removal.
pub(crate) fn is_recent(limits: Limits, mark: Mark) -> bool
    ensures { result ≡ is_recent (bounds_in limits) mark }
{
    is_within(limits.min, limits.seq, limits, mark)
}

/// Whether it may be the author of an insertion at or below the minimum.
pub(crate) fn is_old(limits: Limits, mark: Mark) -> bool
    ensures { result ≡ is_old (bounds_in limits) mark }
{
    is_within(0, limits.min, limits, mark)
}

// Whether each may be the stamp of a removal.
fn are_recent(limits: Limits, marks: &[Mark]) -> bool
    ensures { result ≡ list_all (is_recent (bounds_in limits)) marks.now }
{
    marks.iter().all(|mark| is_recent(limits, *mark))
}

// Whether no connection stands twice.
fn conns_differ(alloc: Global, marks: &[Mark]) -> Result<bool, OutOfMemory>
    ensures { IfOk result (λ differ. differ ≡ conns_differ marks.now) }
{
    let mut later = HashMap::new(alloc);
    let mut i = marks.len();
    while i > 0 {
        i -= 1;
        if later.insert(marks[i].conn, ())?.is_some() {
            return Ok(false);
        }
    }
    Ok(true)
}

// Whether the numbers, which are below 2^53, rise from `low` on.
fn numbers_rise(low: u64, marks: &[Mark]) -> bool
    requires { list_all (λ m. nat_lt m.seq (2 ^ 53)) marks.now ≡ true }
    ensures { result ≡ numbers_rise low marks.now }
{
    let mut least = low;
    for mark in marks {
        if mark.seq < least {
            return false;
        }
        least = mark.seq + 1;
    }
    true
}

/// Whether these may be the removals of what was inserted with the number `low`.
#[tactic(auto, using(crate::proofs::RisingRemovals::apart))]
pub(crate) fn are_removals(
    alloc: Global,
    limits: Limits,
    low: u64,
    marks: &[Mark],
) -> Result<bool, OutOfMemory>
    requires { limits.seq < 2 ^ 53 }
    ensures { IfOk result (λ good. good ≡ are_removals (bounds_in limits) low marks.now) }
{
    if !are_recent(limits, marks) {
        return Ok(false);
    }
    if !numbers_rise(low, marks) {
        return Ok(false);
    }
    conns_differ(alloc, marks)
}

// Whether the author that is given is allowed beside the insertion.
fn is_good_author(limits: Limits, author: Option<Mark>, insertion: Option<Mark>) -> bool
    ensures { result ≡ is_good_author (bounds_in limits) author insertion }
{
    match author {
        Some(author) => insertion.is_none() && is_old(limits, author),
        None => true,
    }
}

// Whether the insertion that is given is allowed.
fn is_good_insertion(limits: Limits, insertion: Option<Mark>) -> bool
    ensures { result ≡ is_good_insertion (bounds_in limits) insertion }
{
    match insertion {
        Some(insertion) => is_recent(limits, insertion),
        None => true,
    }
}

/// The insertion that is given, or the stamp for an old one.
pub(crate) fn given_insertion(item: &StampItem) -> Mark
    ensures { result ≡ given_insertion (stamps_of item.now) }
{
    item.insertion.unwrap_or(UNIVERSAL)
}

/// The author that is given, or that of the insertion.
pub(crate) fn given_author(item: &StampItem) -> Mark
    ensures { result ≡ given_author (stamps_of item.now) }
{
    item.author.unwrap_or(given_insertion(item))
}

// Whether the stamps of a segment or a run are in range and in order.
fn are_good(alloc: Global, limits: Limits, item: &StampItem) -> Result<bool, OutOfMemory>
    requires { limits.seq < 2 ^ 53 }
    ensures { IfOk result (λ good. good ≡ are_good_stamps (bounds_in limits) (stamps_of item.now)) }
{
    if !is_good_author(limits, item.author, item.insertion) {
        return Ok(false);
    }
    if !is_good_insertion(limits, item.insertion) {
        return Ok(false);
    }
    are_removals(
        alloc,
        limits,
        given_insertion(item).seq,
        item.removals.as_slice(),
    )
}

/// The place behind the segments, the first of which has this place.
///
/// Returns `BadStamp` with the first place with bad stamps, and `OutOfMemory` where there is no room
/// to tell.
pub(crate) fn segment_places(
    alloc: Global,
    limits: Limits,
    first: u64,
    segs: &[SegItem],
) -> Result<u64, SumFault>
    requires seq { limits.seq < 2 ^ 53 }
    requires room { first + length segs.now < 2 ^ 64 }
    ensures { Gives SumFault.OutOfMemory (places_behind (bounds_in limits) first (segments_stamps (map segment_of segs.now))) result }
{
    let mut place = first;
    for seg in segs {
        if !are_good(alloc, limits, &seg.stamps)? {
            return Err(SumFault::BadStamp(place));
        }
        place += 1;
    }
    Ok(place)
}

/// The place behind the runs, the first of which has this place.
///
/// Returns `BadStamp` with the first place with bad stamps, and `OutOfMemory` where there is no room
/// to tell.
pub(crate) fn run_places(
    alloc: Global,
    limits: Limits,
    first: u64,
    runs: &[RunItem],
) -> Result<u64, SumFault>
    requires seq { limits.seq < 2 ^ 53 }
    requires room { first + length runs.now < 2 ^ 64 }
    ensures { Gives SumFault.OutOfMemory (places_behind (bounds_in limits) first (run_stamps (map run_of runs.now))) result }
{
    let mut place = first;
    for run in runs {
        if !are_good(alloc, limits, &run.stamps)? {
            return Err(SumFault::BadStamp(place));
        }
        place += 1;
    }
    Ok(place)
}
