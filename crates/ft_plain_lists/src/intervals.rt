//! The intervals of a plain replica.

ghost use Rattle.std.specs.Prelude.{◌≡◌, [], OnOk, OnErr, filter, not, option_map};
ghost use Rattle.std.specs.Ordering.{is_eq};
ghost use Rattle.ft_base.specs.Scan.{settled};
ghost use Rattle.ft_props.specs.Element.{has_id, id as name_of_element, is_unremoved};
ghost use Rattle.ft_props.specs.Keys.{put_rising, text_cmp};
ghost use Rattle.ft_props.specs.Properties.{apply};
ghost use Rattle.ft_op.specs.Intervals.{has_interval, interval_cmp, is_interval, slide_ends, slide_interval, with_changed_interval, with_ends};
ghost use Rattle.ft_plain_lists.specs.NameTables.{HasAnswers};
ghost use Rattle.ft_plain_lists.specs.Places.{rising_place};

mod building;
mod pending;

use crate::element_tests::Unremoved;
use crate::elements::PlainElement;
use crate::moved::set_or_insert;
use crate::name_tables::{NameTable, note_settled};
use crate::names::{ElementName, ElementNames};
use crate::slides::slide_by;
use ft_base::{OutOfMemory, Text};
use ft_op::Ends;
use ft_props::keys::compare;
use ft_props::{PropSet, Props};
use std::alloc::Global;
use std::cmp::Ordering;
use std::marker::Model;

/// An interval. Each end stays with an element, or is detached.
#[derive(Drop)]
pub struct PlainInterval {
    label: Text,
    id: Text,
    start: Option<ElementName>,
    end: Option<ElementName>,
    props: Props,
}

impl Model for PlainInterval {
    ghost use Rattle.ft_op.specs.Intervals.{Interval};

    ghost Value = { Interval };

    ghost view = { λ a. record { label = a.label; id = a.id; start = a.start; end = a.end; props = a.props } };
}

impl PlainInterval {
    /// An interval with these parts.
    pub fn new(label: Text, id: Text, ends: &ElementNames, props: Props) -> PlainInterval
        ensures { result ≡ record { label = label; id = id; start = ends.now.first; end = ends.now.second; props = props } }
    {
        PlainInterval {
            label,
            id,
            start: ends.first(),
            end: ends.second(),
            props,
        }
    }

    /// The element at its start, if it is attached.
    pub(crate) fn start(&self) -> Option<ElementName>
        ensures { result ≡ self.now.start }
    {
        self.start
    }

    /// The element at its end, if it is attached.
    pub(crate) fn end(&self) -> Option<ElementName>
        ensures { result ≡ self.now.end }
    {
        self.end
    }

    // Whether it is the interval of that label and id.
    fn is_of(&self, label: &Text, id: &Text) -> bool
        ensures { result ≡ is_interval label.now id.now self.now }
    {
        is_same_text(label, &self.label) && is_same_text(id, &self.id)
    }

    // The order of the two: by label, then by id.
    fn order(&self, other: &PlainInterval) -> Ordering
        ensures { result ≡ interval_cmp self.now other.now }
    {
        compare(self.label.as_str(), other.label.as_str()).then(compare(
            self.id.as_str(),
            other.id.as_str(),
        ))
    }

    // Gives it the ends, if an operation gives some, and applies the set to its properties.
    //
    // Returns `OutOfMemory` where there is no room for its properties, and then nothing changed.
    fn change(
        &mut self,
        ends: Option<Ends>,
        at: &ElementNames,
        props: &PropSet,
    ) -> Result<(), OutOfMemory>
        ensures ok { let changed = with_ends ends at.now self.old in
            OnOk result (self.new ≡ record changed { props = apply changed.props props.now }) }
        ensures err { OnErr result (self.new ≡ self.old) }
    {
        self.props = self.props.applied(props)?;
        if ends.is_some() {
            self.start = at.first();
            self.end = at.second();
        }
        Ok(())
    }

    // Slides both ends, by a table of where the ends on sequenced elements go.
    fn slide(&mut self, names: &NameTable<Option<ElementName>>, items: &[PlainElement])
        requires { HasAnswers (λ x. option_map name_of_element (settled (has_id x) is_unremoved items.now)) names.now }
        ensures { self.new ≡ slide_interval items.now self.old }
    {
        self.start = slide_by(names, items, self.start);
        self.end = slide_by(names, items, self.end);
    }
}

// Whether the texts are equal.
fn is_same_text(a: &Text, b: &Text) -> bool
    ensures { result ≡ is_eq (text_cmp a.now b.now) }
{
    compare(a.as_str(), b.as_str()).is_eq()
}

/// Intervals by rising label and id.
#[derive(Drop)]
pub struct PlainIntervals {
    items: Vec<PlainInterval>,
}

impl Model for PlainIntervals {
    ghost use Rattle.std.specs.Prelude.{List};
    ghost use Rattle.ft_op.specs.Intervals.{Interval};

    ghost Value = { List Interval };

    ghost view = { λ a. a.items.items };
}

impl PlainIntervals {
    /// No intervals.
    pub fn new(alloc: Global) -> PlainIntervals
        ensures { result ≡ [] }
    {
        PlainIntervals {
            items: Vec::new(alloc),
        }
    }

    /// All in order.
    pub fn as_slice(&self) -> &[PlainInterval]
        ensures { result.now ≡ self.now }
    {
        self.items.as_slice()
    }

    /// Whether the label has the id.
    pub fn has(&self, label: &Text, id: &Text) -> bool
        ensures { result ≡ has_interval label.now id.now self.now }
    {
        self.items.iter().any(|i| i.is_of(label, id))
    }

    // Puts the interval in its place, instead of the one of its label and id if there is one.
    //
    // Returns `OutOfMemory` where there is no room for it, and then nothing changed.
    fn put(&mut self, interval: PlainInterval) -> Result<(), OutOfMemory>
        ensures ok { OnOk result (self.new ≡ put_rising interval_cmp interval self.old) }
        ensures err { OnErr result (self.new ≡ self.old) }
    {
        let place = interval_place(self.items.as_slice(), &interval);
        set_or_insert(&mut self.items, place, interval)
    }

    /// Gives the interval of that label and id, if it is there, the ends, if an operation gives some,
    /// and applies the set to its properties.
    ///
    /// Returns `OutOfMemory` where there is no room for its properties, and then it may be changed or
    /// not.
    pub fn change(
        &mut self,
        label: &Text,
        id: &Text,
        ends: Option<Ends>,
        at: &ElementNames,
        props: &PropSet,
    ) -> Result<(), OutOfMemory>
        ensures { OnOk result (self.new ≡ with_changed_interval label.now id.now (λ i. let j = with_ends ends at.now i in record j { props = apply j.props props.now }) self.old) }
    {
        for i in self.items.iter_mut() {
            if i.is_of(label, id) {
                i.change(ends, at, props)?;
            }
        }
        Ok(())
    }

    /// Takes the interval of that label and id out, if it is there.
    pub fn delete(&mut self, label: &Text, id: &Text)
        ensures { self.new ≡ filter (λ i. not (is_interval label.now id.now i)) self.old }
    {
        self.items.retain(|i| !i.is_of(label, id));
    }

    /// Slides all ends.
    ///
    /// Returns `OutOfMemory` where there is no room for a table of the elements, and then nothing changed.
    pub fn slide_ends(&mut self, items: &[PlainElement]) -> Result<(), OutOfMemory>
        ensures ok { OnOk result (self.new ≡ slide_ends items.now self.old) }
        ensures err { OnErr result (self.new ≡ self.old) }
    {
        if self.items.is_empty() {
            return Ok(());
        }
        let mut names = NameTable::new(*self.items.allocator(), items, None)?;
        note_settled(&mut names, items, Unremoved);
        slide_all(self.items.as_mut_slice(), &names, items);
        drop(names);
        Ok(())
    }
}

// Slides the ends of the intervals, by a table of where the ends on sequenced elements go.
fn slide_all(
    intervals: &mut [PlainInterval],
    names: &NameTable<Option<ElementName>>,
    items: &[PlainElement],
)
    requires { HasAnswers (λ x. option_map name_of_element (settled (has_id x) is_unremoved items.now)) names.now }
    ensures { intervals.new ≡ slide_ends items.now intervals.old }
{
    for i in intervals.iter_mut() {
        i.slide(names, items);
    }
}

// The place of the interval's label and id, or else, as an error, the place where they would stand.
fn interval_place(items: &[PlainInterval], interval: &PlainInterval) -> Result<usize, usize>
    ensures { result ≡ rising_place interval_cmp interval.now items.now }
{
    for (i, other) in items.iter().enumerate() {
        match interval.order(other) {
            Ordering::Less => return Err(i),
            Ordering::Equal => return Ok(i),
            Ordering::Greater => {}
        }
    }
    Err(items.len())
}
