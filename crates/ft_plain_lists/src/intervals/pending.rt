//! Intervals with what is pending on them.

ghost use Rattle.std.specs.Prelude.{◌≡◌, [], IfOk, OnOk, OnErr, cond, option_map};
ghost use Rattle.ft_base.specs.Scan.{settled};
ghost use Rattle.ft_props.specs.Element.{has_id, id as name_of_element, seen};
ghost use Rattle.ft_props.specs.Keys.{put_rising};
ghost use Rattle.ft_props.specs.Properties.{apply};
ghost use Rattle.ft_op.specs.Intervals.{after_interval_operation, has_interval, interval_cmp, settle_ends, settle_interval};
ghost use Rattle.ft_plain_lists.specs.NameTables.{HasAnswers};

use crate::copies::{Copied, copied_items};
use crate::element_tests::AtStage;
use crate::elements::PlainElement;
use crate::intervals::{PlainInterval, PlainIntervals};
use crate::name_tables::{NameTable, note_settled};
use crate::names::{ElementName, ElementNames};
use crate::slides::settle_by;
use crate::tables_of_ends::table_of_ends;
use ft_base::moved::all_three;
use ft_base::{Datum, OutOfMemory, Text};
use ft_op::TextOp;
use ft_props::{PropSet, Props};
use std::alloc::Global;

impl Copied for PlainInterval {
    fn copied(&self) -> Result<PlainInterval, OutOfMemory> {
        let (label, id, props) = self.copied_parts()?;
        Ok(PlainInterval {
            label,
            id,
            start: self.start,
            end: self.end,
            props,
        })
    }
}

impl PlainInterval {
    /// Copies of its label, its id and its properties.
    pub(crate) fn copied_parts(&self) -> Result<(Text, Text, Props), OutOfMemory>
        ensures label { IfOk result (λ parts. parts.0 ≡ self.now.label) }
        ensures id { IfOk result (λ parts. parts.1 ≡ self.now.id) }
        ensures props { IfOk result (λ parts. parts.2 ≡ self.now.props) }
    {
        all_three(self.label.copy(), self.id.copy(), self.props.copy())
    }

    // Settles both ends at the pending stage, by a table of where the ends go.
    fn settle(&mut self, names: &NameTable<Option<ElementName>>, items: &[PlainElement], stage: u64)
        requires { HasAnswers (λ x. option_map name_of_element (settled (has_id x) (seen stage) items.now)) names.now }
        ensures { self.new ≡ settle_interval items.now stage self.old }
    {
        self.start = settle_by(names, items, stage, self.start);
        self.end = settle_by(names, items, stage, self.end);
    }
}

impl PlainIntervals {
    /// Equal intervals.
    pub fn copy(&self) -> Result<PlainIntervals, OutOfMemory>
        ensures { IfOk result (λ copy. copy ≡ self.now) }
    {
        let items = copied_items(*self.items.allocator(), self.items.as_slice())?;
        Ok(PlainIntervals { items })
    }

    /// Settles all ends at the pending stage.
    ///
    /// Returns `OutOfMemory` where there is no room for a table of the elements, and then nothing changed.
    pub fn settle_ends(&mut self, items: &[PlainElement], stage: u64) -> Result<(), OutOfMemory>
        ensures ok { OnOk result (self.new ≡ settle_ends items.now stage self.old) }
        ensures err { OnErr result (self.new ≡ self.old) }
    {
        if self.items.is_empty() {
            return Ok(());
        }
        let alloc = *self.items.allocator();
        let mut names = table_of_ends(alloc, items, self.items.as_slice(), None)?;
        note_settled(&mut names, items, AtStage(stage));
        settle_all(self.items.as_mut_slice(), &names, items, stage);
        drop(names);
        Ok(())
    }

    /// Applies an interval operation that names these elements.
    ///
    /// Returns `OutOfMemory` where there is no room for what it makes, and then it may be done in part.
    pub fn apply(&mut self, op: &TextOp, names: &ElementNames) -> Result<(), OutOfMemory>
        ensures { OnOk result (self.new ≡ after_interval_operation op.now names.now self.old) }
    {
        match op {
            TextOp::IntervalAdd {
                label,
                id,
                props,
                ..
            } => self.add(label, id, names, props),
            TextOp::IntervalChange {
                label,
                id,
                ends,
                props,
            } => self.change(label, id, *ends, names, props),
            TextOp::IntervalDelete { label, id } => {
                self.delete(label, id);
                Ok(())
            }
            TextOp::One(_) | TextOp::Group(_) => Ok(()),
        }
    }

    /// Adds an interval, unless its id is in use in the label.
    ///
    /// Returns `OutOfMemory` where there is no room for it, and then nothing changed.
    pub fn add(
        &mut self,
        label: &Text,
        id: &Text,
        names: &ElementNames,
        props: &PropSet,
    ) -> Result<(), OutOfMemory>
        ensures { OnOk result (self.new ≡ cond (has_interval label.now id.now self.old) self.old
            (put_rising interval_cmp (record { label = label.now; id = id.now; start = names.now.first; end = names.now.second; props = apply [] props.now }) self.old)) }
    {
        if self.has(label, id) {
            return Ok(());
        }
        let interval = new_interval(*self.items.allocator(), label, id, names, props)?;
        self.put(interval)
    }
}

// A new interval, whose properties are what the set makes of none.
fn new_interval(
    alloc: Global,
    label: &Text,
    id: &Text,
    names: &ElementNames,
    set: &PropSet,
) -> Result<PlainInterval, OutOfMemory>
    ensures { IfOk result (λ i. i ≡ record { label = label.now; id = id.now; start = names.now.first; end = names.now.second; props = apply [] set.now }) }
{
    let (label, id, props) = all_three(label.copy(), id.copy(), first_props(alloc, set))?;
    Ok(PlainInterval::new(label, id, names, props))
}

// What the set makes of no properties.
fn first_props(alloc: Global, set: &PropSet) -> Result<Props, OutOfMemory>
    ensures { IfOk result (λ props. props ≡ apply [] set.now) }
{
    Props::new(alloc).applied(set)
}

// Settles the ends of the intervals at the pending stage, by a table of where the ends go.
fn settle_all(
    intervals: &mut [PlainInterval],
    names: &NameTable<Option<ElementName>>,
    items: &[PlainElement],
    stage: u64,
)
    requires { HasAnswers (λ x. option_map name_of_element (settled (has_id x) (seen stage) items.now)) names.now }
    ensures { intervals.new ≡ settle_ends items.now stage intervals.old }
{
    for i in intervals.iter_mut() {
        i.settle(names, items, stage);
    }
}
