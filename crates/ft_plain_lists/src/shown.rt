//! What is shown of lists of elements.

ghost use Rattle.std.specs.Prelude.{◌≡◌, ◌+◌, ◌<◌, ◌^◌, ◌++◌, [], IfOk, OnOk, chars, reverse, string_bytes};
ghost use Rattle.ft_msg.specs.Content.{content_characters, content_markers, extended_property_runs, markers_from, property_runs_from, stage_view, text_characters};
ghost use Rattle.ft_plain_lists.specs.Contents.{content_of};
ghost use Rattle.ft_plain_lists.specs.PropertyRuns.{Extends, all_shown_props, runs_before};

use crate::elements::{Content, PlainElement};
use crate::moved::{push_made, turned};
use ft_base::moved::push_unless;
use ft_base::{Datum, OutOfMemory, Text};
use ft_msg::{Run, Runs, Spot, Spots};
use ft_props::Props;
use std::alloc::Global;

/// The characters of the elements that a client sees at its pending stage.
pub fn shown_text(alloc: Global, items: &[PlainElement], stage: u64) -> Result<Text, OutOfMemory>
    ensures { IfOk result (λ text. text ≡ text_characters (stage_view stage items.now)) }
{
    let mut text = String::new(alloc);
    for e in items {
        if e.is_seen_at(stage) {
            push_character(&mut text, e.content())?;
        }
    }
    Text::new(alloc, text.as_str())
}

/// Adds the character to the text, if the content is one.
pub fn push_character(text: &mut String, content: Content) -> Result<(), OutOfMemory>
    ensures { OnOk result (chars (string_bytes text.new) ≡ chars (string_bytes text.old) ++ content_characters (content_of content)) }
{
    if let Content::Character(c) = content {
        text.push(c)?;
    }
    Ok(())
}

/// The markers among the elements that a client sees at its pending stage, with their places there.
pub fn shown_markers(
    alloc: Global,
    items: &[PlainElement],
    stage: u64,
) -> Result<Spots, OutOfMemory>
    ensures { IfOk result (λ markers. markers ≡ markers_from 0 (stage_view stage items.now)) }
{
    let mut markers = Spots::new(alloc);
    let mut place: u64 = 0;
    for e in items {
        if e.is_seen_at(stage) {
            push_marker(&mut markers, place, e.content())?;
            place += 1;
        }
    }
    Ok(markers)
}

// Adds the marker with its place, if the content is one.
fn push_marker(markers: &mut Spots, pos: u64, content: Content) -> Result<(), OutOfMemory>
    ensures { OnOk result (markers.new ≡ markers.old ++ content_markers pos (content_of content)) }
{
    if let Content::Marker(ref_type) = content {
        markers.push(Spot { pos, ref_type })?;
    }
    Ok(())
}

/// The runs of equal properties that aren't empty, among the elements that a client sees at its
/// pending stage.
pub fn shown_runs(alloc: Global, items: &[PlainElement], stage: u64) -> Result<Runs, OutOfMemory>
    ensures { IfOk result (λ runs. runs ≡ property_runs_from 0 (stage_view stage items.now)) }
{
    let props = shown_props(alloc, items, stage)?;
    let backwards = backward_runs(alloc, props)?;
    Ok(turned(backwards))
}

// The properties of each element that a client sees at its pending stage.
fn shown_props(alloc: Global, items: &[PlainElement], stage: u64) -> Result<Vec<Props>, OutOfMemory>
    ensures { IfOk result (λ props. props.items ≡ all_shown_props (stage_view stage items.now)) }
{
    let mut props = Vec::new(alloc);
    for e in items {
        if e.is_seen_at(stage) {
            push_made(&mut props, e.shown_props())?;
        }
    }
    Ok(props)
}

// The runs of these properties, from the last one to the first.
fn backward_runs(alloc: Global, mut props: Vec<Props>) -> Result<Vec<Run>, OutOfMemory>
    ensures { IfOk result (λ runs. reverse runs.items ≡ runs_before 0 props.items []) }
{
    let mut runs = Vec::new(alloc);
    while let Some(last) = props.pop() {
        extend_runs(&mut runs, props.len() as u64, last)?;
    }
    Ok(runs)
}

// Puts the element with these properties before the runs, which stand from the last one to the first.
fn extend_runs(runs: &mut Vec<Run>, place: u64, props: Props) -> Result<(), OutOfMemory>
    requires { place + 1 < 2 ^ 64 }
    ensures { OnOk result (reverse runs.new.items ≡ extended_property_runs place props (reverse runs.old.items)) }
{
    let is_in = join_first(runs, place, &props);
    push_unless(Ok(is_in), runs, one_run(place, props))
}

// Begins the first of these runs at this place, if the element with these properties there goes on with it. Returns
// whether it needs no run of its own: so it is too where it has no properties.
fn join_first(runs: &mut Vec<Run>, place: u64, props: &Props) -> bool
    requires { place + 1 < 2 ^ 64 }
    ensures { Extends place props.now runs.old.items runs.new.items result }
{
    if props.is_empty() {
        return true;
    }
    let Some(first) = runs.last_mut() else {
        return false;
    };
    if first.start != place + 1 {
        return false;
    }
    if !first.props.same(props) {
        return false;
    }
    first.start = place;
    true
}

// The run of the one element at this place.
fn one_run(place: u64, props: Props) -> Run
    requires { place + 1 < 2 ^ 64 }
    ensures { result ≡ record { start = place; end = place + 1; props = props } }
{
    Run {
        start: place,
        end: place + 1,
        props,
    }
}
