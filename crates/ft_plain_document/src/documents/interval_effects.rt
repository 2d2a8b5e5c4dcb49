//! What operations of intervals make of a document.

ghost use Rattle.std.specs.Prelude.{◌≡◌, ℕ, OnOk, OnErr};
ghost use Rattle.ft_op.specs.declared.operations.TextOp.TheVariants.{IntervalAdd, IntervalChange, IntervalDelete};
ghost use Rattle.ft_op.specs.Document.{interval_effect, with_slid_ends};

use crate::documents::PlainDocument;
use ft_base::{OutOfMemory, Perspective, Text};
use ft_op::Ends;
use ft_plain_lists::{elements_at_ends, elements_at_given_ends, ends_fit, given_ends_fit};
use ft_props::PropSet;

impl PlainDocument {
    /// Adds an interval, unless its id is in use in the label.
    pub(crate) fn add_interval(
        &mut self,
        label: &Text,
        id: &Text,
        ends: Ends,
        props: &PropSet,
        at: Perspective,
    ) -> Result<(), OutOfMemory>
        ensures { OnOk result (self.new ≡ interval_effect self.old at.c at.r (IntervalAdd label.now id.now ends props.now)) }
    {
        if !ends_fit(&self.text, ends, at) {
            return self.skip();
        }
        let named = elements_at_ends(&self.text, ends, at);
        self.intervals.add(label, id, &named, props)?;
        self.slide_ends()
    }

    /// Gives an interval the ends, if some are given, and sets properties of it. Nothing is done where
    /// the id isn't in the label.
    pub(crate) fn change_interval(
        &mut self,
        label: &Text,
        id: &Text,
        ends: Option<Ends>,
        props: &PropSet,
        at: Perspective,
    ) -> Result<(), OutOfMemory>
        ensures { OnOk result (self.new ≡ interval_effect self.old at.c at.r (IntervalChange label.now id.now ends props.now)) }
    {
        if !given_ends_fit(&self.text, ends, at) {
            return self.skip();
        }
        let named = elements_at_given_ends(&self.text, ends, at);
        self.intervals.change(label, id, ends, &named, props)?;
        self.slide_ends()
    }

    /// Takes an interval away, if it is there.
    ///
    /// Returns `OutOfMemory` where there is no room to slide the ends of the others.
    pub(crate) fn delete_interval(&mut self, label: &Text, id: &Text) -> Result<(), OutOfMemory>
        ensures { (c r : ℕ) → OnOk result (self.new ≡ interval_effect self.old c r (IntervalDelete label.now id.now)) }
    {
        self.intervals.delete(label, id);
        self.slide_ends()
    }

    /// Slides each end of an interval.
    ///
    /// Returns `OutOfMemory` where there is no room for a table of the elements, and then nothing changed.
    pub(crate) fn slide_ends(&mut self) -> Result<(), OutOfMemory>
        ensures ok { OnOk result (self.new ≡ with_slid_ends self.old) }
        ensures err { OnErr result (self.new ≡ self.old) }
    {
        self.intervals.slide_ends(self.text.as_slice())
    }
}
