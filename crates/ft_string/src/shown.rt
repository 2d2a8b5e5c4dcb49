//! What is shown of a shared text: its elements, its intervals, and who inserted what.

ghost use Rattle.std.specs.Prelude.{◌≡◌, ◌≤◌, ◌+◌, ◌||◌, ℕ, List, IfOk, IsTrue, OnOk, filter, length, map};
ghost use Rattle.ft_base.specs.Scan.{len};
ghost use Rattle.ft_msg.specs.Blame.{origin_of};
ghost use Rattle.ft_msg.specs.Content.{interval_record, stage_view};
ghost use Rattle.ft_msg.specs.Overlap.{ReadsFewNodes};
ghost use Rattle.ft_op.specs.Document.{Document};
ghost use Rattle.ft_op.specs.Operation.{sub_operations};
ghost use Rattle.ft_op.specs.Stages.{Stage, shown_intervals};
ghost use Rattle.ft_changes.specs.Beside.{is_changed_by};
ghost use Rattle.ft_props.specs.Element.{seen};
ghost use Rattle.ft_interval.specs.State.{StandsOn};
ghost use Rattle.ft_interval_store.specs.Shown.{shown_intervals as all_shown, shown_record};
ghost use Rattle.ft_interval_store.specs.State.{placed, text_elements};
ghost use Rattle.ft_sumdoc.specs.Meeting.{meets};
ghost use Rattle.ft_text.specs.Shows.{KeepsOthers};
ghost use Rattle.ft_string.specs.Calls.{ShowsText};
ghost use Rattle.ft_string.specs.Holds.{HoldsText, IsTextSound};
ghost use Rattle.ft_string.specs.State.{has_label};
ghost use Rattle.ft_tree_leaves.specs.declared.text.TextContent.{TextContent};

use crate::strings::SharedString;
use crate::telling::LOCAL;
use ft_attrib::Attribution;
use ft_base::{List, OutOfMemory, Steps, Text};
use ft_interval::Collections;
use ft_msg::View;
use ft_op::ChannelOp;
use ft_sumdoc::{IntervalRec, IntervalRecs};
use ft_text::lengths::made_in;
use ft_text::moved::assign;
use ft_text::shown::{origins_of, show_elements};
use ft_tree::{TextContent, Tree};
use std::sync::ledger::Ledger;

// Fills what a view has of the intervals.
fn show_intervals(
    intervals: &Collections,
    tree: &Tree<TextContent>,
    out: &mut View,
) -> Result<(), OutOfMemory>
    requires usable { IsTrue tree.now.usable }
    requires stands { StandsOn tree.now intervals.now }
    ensures intervals { let xs = text_elements tree.now in
        let c = placed tree.now.refs intervals.now.state in
        OnOk result (out.new.intervals ≡ map (shown_record xs) (all_shown xs c.acked c.pending)) }
    ensures others { out.new ≡ record out.old { intervals = out.new.intervals } }
{
    let all = intervals.all(tree)?;
    assign(&mut out.intervals, List::of(all));
    Ok(())
}

impl SharedString {
    /// Fills the text's part of a view: characters, markers, runs of properties and intervals.
    ///
    /// Returns `OutOfMemory` where there is no room for it, and then the view may have a part of it.
    pub fn view(&self, out: &mut View) -> Result<(), OutOfMemory>
        requires usable { IsTrue self.now.usable }
        requires none_given { self.now.given ≡ 0 }
        ensures shows { (last : ℕ) → (doc : Document) → (stages : List Stage) → IsTextSound last doc stages → HoldsText self.now doc stages
            → OnOk result (ShowsText last doc stages out.new) }
        ensures others { KeepsOthers out.old out.new }
    {
        // That ends are numbers, and that names rise, is read off these contracts.
        let _made = made_in(&self.tree);
        let _first = self.intervals.first_stage();
        show_elements(&self.tree, out)?;
        show_intervals(&self.intervals, &self.tree, out)
    }

    /// How many elements the client sees.
    pub fn shown_count(&self) -> u64
        requires usable { IsTrue self.now.usable }
        ensures { (last : ℕ) → (doc : Document) → (stages : List Stage) → IsTextSound last doc stages → HoldsText self.now doc stages
            → result ≡ len (seen last) doc.text.items }
    {
        self.tree.length(LOCAL)
    }

    /// The intervals that the client sees, by rising label and id.
    pub fn shown_intervals(&self) -> Result<IntervalRecs, OutOfMemory>
        requires usable { IsTrue self.now.usable }
        requires none_given { self.now.given ≡ 0 }
        ensures { (last : ℕ) → (doc : Document) → (stages : List Stage) → IsTextSound last doc stages → HoldsText self.now doc stages
            → IfOk result (λ intervals. intervals ≡ map (interval_record last doc.text.items) (shown_intervals doc.text.items doc.intervals stages)) }
    {
        // That ends are numbers, and that names rise, is read off these contracts.
        let _made = made_in(&self.tree);
        let _first = self.intervals.first_stage();
        let all = self.intervals.all(&self.tree)?;
        Ok(List::of(all))
    }

    /// The intervals that the client sees and the operation adds, changes or deletes, by rising label and id. It finds them by
    /// their names.
    pub fn shown_of(&self, op: &ChannelOp) -> Result<IntervalRecs, OutOfMemory>
        requires usable { IsTrue self.now.usable }
        requires none_given { self.now.given ≡ 0 }
        ensures { (last : ℕ) → (doc : Document) → (stages : List Stage) → IsTextSound last doc stages → HoldsText self.now doc stages
            → let all = map (interval_record last doc.text.items) (shown_intervals doc.text.items doc.intervals stages) in
            IfOk result (λ intervals. intervals ≡ filter (is_changed_by (sub_operations op.now)) all) }
    {
        // That ends are numbers, and that names rise, is read off these contracts.
        let _made = made_in(&self.tree);
        let _first = self.intervals.first_stage();
        let some = self.intervals.shown_of(&self.tree, op)?;
        Ok(List::of(some))
    }

    /// The intervals that the client sees and that the operation or a pending stage adds, changes or deletes, by rising label and
    /// id. It finds them by their names.
    pub fn shown_around(&self, op: &ChannelOp) -> Result<IntervalRecs, OutOfMemory>
        requires usable { IsTrue self.now.usable }
        requires none_given { self.now.given ≡ 0 }
        ensures { (last : ℕ) → (doc : Document) → (stages : List Stage) → IsTextSound last doc stages → HoldsText self.now doc stages
            → let all = map (interval_record last doc.text.items) (shown_intervals doc.text.items doc.intervals stages) in
            IfOk result (λ intervals. intervals ≡ filter (λ i. is_changed_by (sub_operations op.now) i || is_changed_by (map (λ t. t.sub_operation) stages) i) all) }
    {
        // That ends are numbers, and that names rise, is read off these contracts.
        let _made = made_in(&self.tree);
        let _first = self.intervals.first_stage();
        let some = self.intervals.shown_around(&self.tree, op)?;
        Ok(List::of(some))
    }

    /// The shown intervals of the label that meet the places from `a` to `b`, by rising id: those that aren't detached, start at
    /// or before `b` and end at or after `a`. A read of a node of an index is one step.
    pub fn overlapping<G: Ledger>(
        &self,
        label: &Text,
        a: u64,
        b: u64,
        steps: &mut Steps<G>,
    ) -> Result<Vec<IntervalRec>, OutOfMemory>
        requires usable { IsTrue self.now.usable }
        requires none_given { self.now.given ≡ 0 }
        requires order { a ≤ b }
        ensures found { (last : ℕ) → (doc : Document) → (stages : List Stage) → IsTextSound last doc stages → HoldsText self.now doc stages
            → IfOk result (λ found. found.items ≡ filter (meets label.now a b) (map (interval_record last doc.text.items) (shown_intervals doc.text.items doc.intervals stages))) }

        // For each interval that is found or pending, and once more, it reads a few nodes on each level of an index.
        ensures cost { (last : ℕ) → (doc : Document) → (stages : List Stage) → IsTextSound last doc stages → HoldsText self.now doc stages
            → let k = length (filter (meets label.now a b) (map (interval_record last doc.text.items) (shown_intervals doc.text.items doc.intervals stages))) in
            ReadsFewNodes (length self.now.intervals) (k + length self.now.interval_ops) steps.old steps.new }

        // The depth is that of an index of the label's intervals alone.
        ensures labelled { (last : ℕ) → (doc : Document) → (stages : List Stage) → IsTextSound last doc stages → HoldsText self.now doc stages
            → let k = length (filter (meets label.now a b) (map (interval_record last doc.text.items) (shown_intervals doc.text.items doc.intervals stages))) in
            ReadsFewNodes (length (filter (has_label label.now) self.now.intervals)) (k + length self.now.interval_ops) steps.old steps.new }
    {
        // That ends are numbers, and that names rise, is read off these contracts.
        let _made = made_in(&self.tree);
        let _first = self.intervals.first_stage();
        self.intervals.overlapping(&self.tree, label, a, b, steps)
    }

    /// Who inserted each element that the client sees.
    pub fn attribution(&self) -> Result<Attribution, OutOfMemory>
        requires usable { IsTrue self.now.usable }
        requires none_given { self.now.given ≡ 0 }
        ensures { (last : ℕ) → (doc : Document) → (stages : List Stage) → IsTextSound last doc stages → HoldsText self.now doc stages
            → IfOk result (λ origins. origins ≡ map (λ e. origin_of e.by) (stage_view last doc.text.items)) }
    {
        origins_of(&self.tree)
    }
}
