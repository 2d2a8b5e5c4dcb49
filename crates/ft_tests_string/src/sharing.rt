//! A shared text that a script is played on: the client's edits, messages of others, its acknowledgements, and its own join.

ghost use Rattle.std.specs.Prelude.{◌≡◌, ℕ, ◌+◌, ◌<◌, ◌∷◌, [], IfOk, IsTrue, OnOk, false};
ghost use Rattle.ft_op.specs.WellFormed.{IsWellFormedText};
ghost use Rattle.ft_tests_string.specs.Sharing.{Plays, Rejoins};

use crate::faults::StepFault;
use ft_base::moved::push_behind;
use ft_base::{Perspective, Steps};
use ft_msg::EditFault;
use ft_op::{ChannelOp, TextOp, is_well_formed, write_op};
use ft_string::SharedString;
use std::alloc::Global;
use std::collections::VecDeque;
use std::mem;
use std::sync::ledger::{Blank, Ledger};

/// The stages of an edit: the first one, and how many there were.
#[derive(Clone, Copy)]
pub(crate) struct Span {
    pub(crate) first: u64,
    pub(crate) count: u64,
}

/// How far the client is: the number of the last message, and the stage of its next edit.
#[derive(Clone, Copy)]
pub(crate) struct Place {
    pub(crate) number: u64,
    pub(crate) next: u64,
}

// The sum of two numbers.
//
// Returns `TooLarge` where there is none.
fn sum(a: u64, b: u64) -> Result<u64, StepFault>
    ensures { IfOk result (λ n. n ≡ a + b) }
{
    match a.checked_add(b) {
        Some(n) => Ok(n),
        None => Err(StepFault::TooLarge),
    }
}

// Whether a number is the next one.
fn is_next(place: &Place, seq: u64) -> bool
    ensures { IsTrue result → seq ≡ place.now.number + 1 }
{
    match place.number.checked_add(1) {
        Some(next) => next == seq,
        None => false,
    }
}

/// Makes an edit, and tells whether it can be made.
///
/// Returns `OutOfMemory` where there is no room for it, and `TooLarge` where there is no further stage.
pub(crate) fn edit_shared<G: Ledger>(
    text: &mut SharedString,
    place: &mut Place,
    spans: &mut VecDeque<Span>,
    op: &TextOp,
    blank: Blank,
) -> Result<bool, StepFault>
    requires formed { IsWellFormedText op.now }
    requires plays { Plays text.old place.old.number place.old.next spans.old.items }
    requires name { blank.name ≡ G.name }
    requires parts { blank.parts ≡ G.parts }
    requires some { 0 < blank.parts }
    ensures { OnOk result (Plays text.new place.new.number place.new.next spans.new.items) }
{
    let mut steps = Steps::<G>::new(blank);
    let first = place.next;
    match text.edit(op, first, &mut steps) {
        Ok(count) => {
            place.next = sum(first, count)?;
            push_behind(spans, Span { first, count })?;
            Ok(true)
        }
        Err(EditFault::OutOfMemory) => Err(StepFault::OutOfMemory),
        Err(_) => Ok(false),
    }
}

/// Hears a message of another client, and tells whether it can be heard: its number is the next one, it isn't of connection 1,
/// and its sender had seen no later message.
///
/// Returns `OutOfMemory` where there is no room for it.
pub(crate) fn hear_shared<G: Ledger>(
    text: &mut SharedString,
    place: &mut Place,
    spans: &VecDeque<Span>,
    op: &TextOp,
    seq: u64,
    at: Perspective,
    blank: Blank,
) -> Result<bool, StepFault>
    requires formed { IsWellFormedText op.now }
    requires plays { Plays text.old place.old.number place.old.next spans.now.items }
    requires name { blank.name ≡ G.name }
    requires parts { blank.parts ≡ G.parts }
    requires some { 0 < blank.parts }
    ensures { OnOk result (Plays text.new place.new.number place.new.next spans.now.items) }
{
    if !is_next(place, seq) || at.c == 1 || at.r > place.number {
        return Ok(false);
    }
    let mut steps = Steps::<G>::new(blank);
    text.apply(op, seq, at, &mut steps)?;
    place.number = seq;
    Ok(true)
}

/// Passes a message that isn't an operation, and tells whether its number is the next one.
pub(crate) fn pass_shared(
    text: &SharedString,
    place: &mut Place,
    spans: &VecDeque<Span>,
    seq: u64,
) -> bool
    requires { Plays text.now place.old.number place.old.next spans.now.items }
    ensures { Plays text.now place.new.number place.new.next spans.now.items }
{
    if !is_next(place, seq) {
        return false;
    }
    place.number = seq;
    true
}

/// Acknowledges the first pending edit, and tells whether there is one and the number is the next one.
///
/// Returns `OutOfMemory` where there is no room for it.
pub(crate) fn ack_shared(
    text: &mut SharedString,
    place: &mut Place,
    spans: &mut VecDeque<Span>,
    seq: u64,
) -> Result<bool, StepFault>
    requires { Plays text.old place.old.number place.old.next spans.old.items }
    ensures { OnOk result (Plays text.new place.new.number place.new.next spans.new.items) }
{
    if !is_next(place, seq) {
        return Ok(false);
    }
    match spans.pop_front() {
        Some(span) => {
            text.ack(span.first, span.count, seq, 1)?;
            place.number = seq;
            Ok(true)
        }
        None => Ok(false),
    }
}

// Adds the line of an operation that is sent again.
fn push_op(alloc: Global, op: TextOp, out: &mut String) -> Result<(), StepFault> {
    let op = ChannelOp::Text(op);
    if is_well_formed(&op) {
        let text = write_op(alloc, &op)?;
        out.push_str("again ")?;
        out.push_str(text.as_str())?;
        out.push_str("\n")?;
    }
    Ok(())
}

// Gives the stages of an edit, and writes as what they are sent again.
fn give_span(
    alloc: Global,
    text: &mut SharedString,
    place: &Place,
    span: Span,
    spans: &VecDeque<Span>,
    kept: &mut VecDeque<Span>,
    out: &mut String,
) -> Result<(), StepFault>
    requires { (low : ℕ) × Rejoins text.old place.now.number place.now.next low kept.old.items (span ∷ spans.now.items) }
    ensures { OnOk result (Rejoins text.new place.now.number place.now.next (span.first + span.count) kept.new.items spans.now.items) }
{
    match text.reconnect(span.first, span.count)? {
        Some(op) => {
            push_behind(kept, span)?;
            push_op(alloc, op, out)
        }
        None => Ok(()),
    }
}

// Gives all edits.
fn give_all(
    alloc: Global,
    text: &mut SharedString,
    place: &Place,
    spans: &mut VecDeque<Span>,
    kept: &mut VecDeque<Span>,
    out: &mut String,
) -> Result<(), StepFault>
    requires { (low : ℕ) × Rejoins text.old place.now.number place.now.next low kept.old.items spans.old.items }
    ensures { OnOk result ((low : ℕ) × Rejoins text.new place.now.number place.now.next low kept.new.items []) }
{
    while let Some(span) = spans.pop_front() {
        give_span(alloc, text, place, span, spans, kept, out)?;
    }
    Ok(())
}

// Begins its own join under another connection: its drafts are gone.
fn begin_join(text: &SharedString, place: &mut Place, spans: &VecDeque<Span>, seq: u64) -> bool
    requires { Plays text.now place.old.number place.old.next spans.now.items }
    ensures joins { IsTrue result → Rejoins text.now place.new.number place.new.next 1 [] spans.now.items }
    ensures stays { result ≡ false → place.new ≡ place.old }
{
    if !is_next(place, seq) {
        return false;
    }
    place.number = seq;
    true
}

// Ends its own join: the text comes in order.
fn end_join(text: &mut SharedString, place: &Place, kept: &VecDeque<Span>) -> Result<(), StepFault>
    requires { (low : ℕ) × Rejoins text.old place.now.number place.now.next low kept.now.items [] }
    ensures { OnOk result (Plays text.new place.now.number place.now.next kept.now.items) }
{
    text.normalise()?;
    Ok(())
}

/// Comes online under a new connection, whose join has number `seq`; writes as what the pending edits are sent again, and tells
/// whether the number is the next one.
///
/// Returns `OutOfMemory` where there is no room for it.
pub(crate) fn rejoin_shared(
    alloc: Global,
    text: &mut SharedString,
    place: &mut Place,
    spans: &mut VecDeque<Span>,
    seq: u64,
    out: &mut String,
) -> Result<bool, StepFault>
    requires { Plays text.old place.old.number place.old.next spans.old.items }
    ensures { OnOk result (Plays text.new place.new.number place.new.next spans.new.items) }
{
    if !begin_join(text, place, spans, seq) {
        return Ok(false);
    }
    let mut kept = VecDeque::new(alloc);
    give_all(alloc, text, place, spans, &mut kept, out)?;
    end_join(text, place, &kept)?;
    mem::swap(spans, &mut kept);
    Ok(true)
}
