//! The intervals that are shown.

ghost use Rattle.std.specs.Prelude.{◌≡◌, ◌<◌, ◌≤◌, ◌^◌, IfOk, length, map};
ghost use Rattle.ft_base.specs.Scan.{rank};
ghost use Rattle.ft_props.specs.Element.{has_id, seen};
ghost use Rattle.ft_props.specs.Slide.{end_number};
ghost use Rattle.ft_msg.specs.Content.{interval_record};
ghost use Rattle.ft_plain_lists.specs.NameTables.{HasAnswers};

use crate::element_tests::AtStage;
use crate::elements::PlainElement;
use crate::intervals::PlainInterval;
use crate::moved::push_made;
use crate::name_tables::{NameTable, note_ranks};
use crate::names::ElementName;
use crate::scans::{rank, seen_count};
use crate::tables_of_ends::table_of_ends;
use ft_base::{List, OutOfMemory};
use ft_sumdoc::{Ends2, IntervalRec, IntervalRecs};
use std::alloc::Global;

/// The intervals with their ends as places among the elements that a client sees at its pending stage.
pub fn shown_intervals(
    alloc: Global,
    items: &[PlainElement],
    intervals: &[PlainInterval],
    stage: u64,
) -> Result<IntervalRecs, OutOfMemory>
    requires { length items.now < 2 ^ 53 }
    ensures { IfOk result (λ shown. shown ≡ map (interval_record stage items.now) intervals.now) }
{
    if intervals.is_empty() {
        return Ok(IntervalRecs::new(alloc));
    }
    let all = seen_count(items, AtStage(stage)) as u64;
    let mut ranks = table_of_ends(alloc, items, intervals, all)?;
    note_ranks(&mut ranks, items, AtStage(stage));
    let shown = shown_by(alloc, &ranks, items, intervals, stage);
    drop(ranks);
    shown
}

// The same, by a table of the ranks of elements.
fn shown_by(
    alloc: Global,
    ranks: &NameTable<u64>,
    items: &[PlainElement],
    intervals: &[PlainInterval],
    stage: u64,
) -> Result<IntervalRecs, OutOfMemory>
    requires countable { length items.now < 2 ^ 53 }
    requires ranks { HasAnswers (λ x. rank (has_id x) (seen stage) items.now) ranks.now }
    ensures { IfOk result (λ shown. shown ≡ map (interval_record stage items.now) intervals.now) }
{
    let mut shown = Vec::new(alloc);
    for i in intervals {
        push_made(&mut shown, shown_interval(ranks, items, i, stage))?;
    }
    Ok(List::of(shown))
}

// An interval as it is shown, by a table of the ranks of elements.
fn shown_interval(
    ranks: &NameTable<u64>,
    items: &[PlainElement],
    i: &PlainInterval,
    stage: u64,
) -> Result<IntervalRec, OutOfMemory>
    requires countable { length items.now < 2 ^ 53 }
    requires ranks { HasAnswers (λ x. rank (has_id x) (seen stage) items.now) ranks.now }
    ensures { IfOk result (λ shown. shown ≡ interval_record stage items.now i.now) }
{
    let (label, id, props) = i.copied_parts()?;
    Ok(IntervalRec {
        label,
        id,
        ends: ranked_ends(ranks, items, i, stage),
        props,
    })
}

// The ends of an interval as they are shown, by the same table.
fn ranked_ends(
    ranks: &NameTable<u64>,
    items: &[PlainElement],
    i: &PlainInterval,
    stage: u64,
) -> Ends2
    requires countable { length items.now < 2 ^ 53 }
    requires ranks { HasAnswers (λ x. rank (has_id x) (seen stage) items.now) ranks.now }
    ensures { result ≡ record { start = end_number stage items.now i.now.start; end = end_number stage items.now i.now.end } }
{
    Ends2 {
        start: ranked_number(ranks, items, i.start(), stage),
        end: ranked_number(ranks, items, i.end(), stage),
    }
}

// The same as `end_number`, by a table of the ranks of elements.
fn ranked_number(
    ranks: &NameTable<u64>,
    items: &[PlainElement],
    end: Option<ElementName>,
    stage: u64,
) -> i64
    requires countable { length items.now < 2 ^ 53 }
    requires ranks { HasAnswers (λ x. rank (has_id x) (seen stage) items.now) ranks.now }
    ensures { result ≡ end_number stage items.now end }
{
    match end {
        Some(name) => noted_rank(ranks, items, name, stage) as i64,
        None => -1,
    }
}

// How many elements that a client sees at its pending stage stand left of the element of that name, by a table
// of that.
fn noted_rank(ranks: &NameTable<u64>, items: &[PlainElement], name: ElementName, stage: u64) -> u64
    requires { HasAnswers (λ x. rank (has_id x) (seen stage) items.now) ranks.now }
    ensures rank { result ≡ rank (has_id name) (seen stage) items.now }
    ensures inside { result ≤ length items.now }
{
    match ranks.at(name) {
        Some(rank) => rank,
        None => rank(items, name, AtStage(stage)),
    }
}

/// How many seen elements stand left of the end, -1 where it is detached.
pub fn end_number(items: &[PlainElement], end: Option<ElementName>, stage: u64) -> i64
    requires { length items.now < 2 ^ 53 }
    ensures { result ≡ end_number stage items.now end }
{
    match end {
        Some(name) => rank(items, name, AtStage(stage)) as i64,
        None => -1,
    }
}
