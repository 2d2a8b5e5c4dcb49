//! Scripts on a shared text, line by line.

ghost use Rattle.std.specs.Prelude.{◌≡◌, IsTrue, OnOk};
ghost use Rattle.ft_tests_string.specs.Sharing.{Plays};

use crate::faults::StepFault;
use crate::lines::{Line, Verb};
use crate::script::{operation, push_line};
use crate::sharing::{
    Place, Span, ack_shared, edit_shared, hear_shared, pass_shared, rejoin_shared,
};
use crate::sights::push_intervals;
use ft_base::Text;
use ft_msg::{Link, Numbers, Runs, Spots, View};
use ft_string::SharedString;
use ft_sumdoc::{CellRecs, IntervalRecs};
use std::alloc::Global;
use std::collections::VecDeque;
use std::marker::Brand;
use std::sync::ledger::Blank;

/// Plays one case.
pub(crate) fn play_shared(alloc: Global, case: &str, out: &mut String) -> Result<(), StepFault> {
    let mut text = SharedString::new(alloc);
    let mut place = Place { number: 1, next: 1 };
    let mut spans = VecDeque::new(alloc);
    play_all(alloc, &mut text, &mut place, &mut spans, case, out)
}

// Plays the lines of a case.
fn play_all(
    alloc: Global,
    text: &mut SharedString,
    place: &mut Place,
    spans: &mut VecDeque<Span>,
    case: &str,
    out: &mut String,
) -> Result<(), StepFault>
    requires { Plays text.old place.old.number place.old.next spans.old.items }
{
    for line in case.lines() {
        take_shared(alloc, text, place, spans, line, out)?;
    }
    Ok(())
}

// Takes a line.
fn take_shared(
    alloc: Global,
    text: &mut SharedString,
    place: &mut Place,
    spans: &mut VecDeque<Span>,
    line: &str,
    out: &mut String,
) -> Result<(), StepFault>
    requires { Plays text.old place.old.number place.old.next spans.old.items }
    ensures { OnOk result (Plays text.new place.new.number place.new.next spans.new.items) }
{
    if line.is_empty() || line.starts_with("#") {
        return Ok(());
    }
    if line.starts_with("string ") {
        push_line(out, "", line)?;
        return Ok(());
    }
    if !step_shared(alloc, text, place, spans, &Line::of(line), out)? {
        push_line(out, "refused ", line)?;
    }
    Ok(())
}

// Takes a step, and tells whether it can be made.
fn step_shared(
    alloc: Global,
    text: &mut SharedString,
    place: &mut Place,
    spans: &mut VecDeque<Span>,
    line: &Line,
    out: &mut String,
) -> Result<bool, StepFault>
    requires { Plays text.old place.old.number place.old.next spans.old.items }
    ensures { OnOk result (Plays text.new place.new.number place.new.next spans.new.items) }
{
    match line.verb() {
        Some(Verb::Hear) => hear_in(alloc, text, place, spans, line),
        Some(Verb::Edit) => edit_in(alloc, text, place, spans, line),
        Some(Verb::Acknowledge) => ack_shared(text, place, spans, line.number(0)),
        Some(Verb::Pass) => Ok(pass_shared(text, place, spans, line.number(0))),
        Some(Verb::Reconnect) => rejoin_shared(alloc, text, place, spans, line.number(0), out),
        Some(Verb::Show) => {
            push_view(alloc, text, out)?;
            Ok(true)
        }
        Some(Verb::Find) | None => Ok(false),
    }
}

// Hears the operation of a line.
fn hear_in(
    alloc: Global,
    text: &mut SharedString,
    place: &mut Place,
    spans: &VecDeque<Span>,
    line: &Line,
) -> Result<bool, StepFault>
    requires { Plays text.old place.old.number place.old.next spans.now.items }
    ensures { OnOk result (Plays text.new place.new.number place.new.next spans.now.items) }
{
    let Some(op) = operation(alloc, line.text()) else {
        return Ok(false);
    };
    let (seq, at) = (line.number(0), line.perspective());
    let is_made = hear_shared::<Brand>(text, place, spans, &op, seq, at, Blank::new(1));
    drop(op);
    is_made
}

// Makes the edit of a line.
fn edit_in(
    alloc: Global,
    text: &mut SharedString,
    place: &mut Place,
    spans: &mut VecDeque<Span>,
    line: &Line,
) -> Result<bool, StepFault>
    requires { Plays text.old place.old.number place.old.next spans.old.items }
    ensures { OnOk result (Plays text.new place.new.number place.new.next spans.new.items) }
{
    let Some(op) = operation(alloc, line.text()) else {
        return Ok(false);
    };
    let is_made = edit_shared::<Brand>(text, place, spans, &op, Blank::new(1));
    drop(op);
    is_made
}

// A view of nothing.
fn empty_view(alloc: Global) -> View {
    let link = Link::Offline;
    View {
        numbers: Numbers {
            seq: 0,
            min: 0,
            pending: 0,
            skipped: 0,
            other: 0,
            made: 0,
            link,
        },
        text: Text::from_string(String::new(alloc)),
        markers: Spots::new(alloc),
        runs: Runs::new(alloc),
        intervals: IntervalRecs::new(alloc),
        rows: 0,
        cols: 0,
        cells: CellRecs::new(alloc),
    }
}

// Adds the line of the text that the client sees, and one for each interval.
fn push_view(alloc: Global, text: &SharedString, out: &mut String) -> Result<(), StepFault>
    requires usable { IsTrue text.now.usable }
    requires none_given { text.now.given ≡ 0 }
{
    let mut view = empty_view(alloc);
    text.view(&mut view)?;
    push_line(out, "text ", view.text.as_str())?;
    push_intervals(view.intervals.as_slice(), out)?;
    Ok(())
}
