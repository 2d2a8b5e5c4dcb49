//! What operations of the text make of a document.

ghost use Rattle.std.specs.Prelude.{◌≡◌, ℕ, IfOk, OnOk, map};
ghost use Rattle.ft_op.specs.Operation.{OnText, segment_contents, text_sub_operations};
ghost use Rattle.ft_op.specs.Document.{effects, text_effect};
ghost use Rattle.ft_changes.specs.Listeners.{heard};
ghost use Rattle.ft_changes.specs.Told.{told_sub_operations};
ghost use Rattle.ft_plain_lists.specs.Contents.{content_of};

use crate::documents::PlainDocument;
use ft_base::{OutOfMemory, Perspective, Stamp};
use ft_changes::Listener;
use ft_op::{BaseOp, Seg, TextOp};
use ft_plain_lists::{Content, characters};
use ft_props::{Changes, PropSet, Props};
use std::alloc::Global;

impl PlainDocument {
    /// Applies an operation of the text under number `seq`.
    pub(crate) fn apply_to_text(
        &mut self,
        op: &TextOp,
        seq: u64,
        at: Perspective,
        last: u64,
        listener: &mut Listener,
    ) -> Result<(), OutOfMemory>
        ensures applied { OnOk result (self.new ≡ effects self.old seq at.c at.r (text_sub_operations op.now)) }
        ensures told { OnOk result (listener.new ≡ heard listener.old (told_sub_operations last self.old seq at.c at.r (text_sub_operations op.now))) }
    {
        match op {
            TextOp::One(op) => {
                self.tell_text(listener, last, op, at)?;
                self.apply_text_op(op, seq, at)
            }
            TextOp::Group(ops) => self.apply_text_ops(ops.as_slice(), seq, at, last, listener),
            TextOp::IntervalAdd {
                label,
                id,
                ends,
                props,
            } => self.add_interval(label, id, *ends, props, at),
            TextOp::IntervalChange {
                label,
                id,
                ends,
                props,
            } => self.change_interval(label, id, *ends, props, at),
            TextOp::IntervalDelete { label, id } => self.delete_interval(label, id),
        }
    }

    // Applies the operations of a group in order.
    fn apply_text_ops(
        &mut self,
        ops: &[BaseOp],
        seq: u64,
        at: Perspective,
        last: u64,
        listener: &mut Listener,
    ) -> Result<(), OutOfMemory>
        ensures applied { OnOk result (self.new ≡ effects self.old seq at.c at.r (map (λ op. OnText op) ops.now)) }
        ensures told { OnOk result (listener.new ≡ heard listener.old (told_sub_operations last self.old seq at.c at.r (map (λ op. OnText op) ops.now))) }
    {
        for op in ops {
            self.tell_text(listener, last, op, at)?;
            self.apply_text_op(op, seq, at)?;
        }
        Ok(())
    }

    // Applies an insertion, a removal or an annotation.
    fn apply_text_op(&mut self, op: &BaseOp, seq: u64, at: Perspective) -> Result<(), OutOfMemory>
        ensures { OnOk result (self.new ≡ text_effect self.old seq at.c at.r op.now) }
    {
        match op {
            BaseOp::Insert { pos, seg, props } => self.insert_text(*pos, seg, props, seq, at),
            BaseOp::Remove { pos1, pos2 } => self.remove_text(*pos1, *pos2, seq, at),
            BaseOp::Annotate {
                pos1,
                pos2,
                changes,
            } => self.annotate_text(*pos1, *pos2, changes, at),
        }
    }

    // Inserts the segment after `p` elements, with the properties that aren't null.
    fn insert_text(
        &mut self,
        p: u64,
        seg: &Seg,
        props: &PropSet,
        seq: u64,
        at: Perspective,
    ) -> Result<(), OutOfMemory>
        ensures { OnOk result (self.new ≡ text_effect self.old seq at.c at.r (BaseOp.Insert p seg.now props.now)) }
    {
        if !self.text.is_within(p, at) {
            return self.skip();
        }
        let by = Stamp::Acked { seq, conn: at.c };
        let props = Props::new(self.text.alloc()).applied(props)?;
        let contents = segment_contents(self.text.alloc(), seg)?;
        self.text
            .insert(p, seq, at, Some(by), &props, contents.as_slice())
    }

    // Removes the elements of the text from `p` up to before `q`, and slides the ends of intervals.
    fn remove_text(&mut self, p: u64, q: u64, seq: u64, at: Perspective) -> Result<(), OutOfMemory>
        ensures { OnOk result (self.new ≡ text_effect self.old seq at.c at.r (BaseOp.Remove p q)) }
    {
        if !self.text.is_within(q, at) {
            return self.skip();
        }
        self.text.remove(p, q, seq, at)?;
        self.slide_ends()
    }

    // Changes the properties of the elements of the text from `p` up to before `q`.
    fn annotate_text(
        &mut self,
        p: u64,
        q: u64,
        changes: &Changes,
        at: Perspective,
    ) -> Result<(), OutOfMemory>
        ensures { (seq : ℕ) → OnOk result (self.new ≡ text_effect self.old seq at.c at.r (BaseOp.Annotate p q changes.now)) }
    {
        if !self.text.is_within(q, at) {
            return self.skip();
        }
        self.text.annotate(p, q, changes, at)
    }
}

/// The contents of the elements that the segment puts in.
pub(crate) fn segment_contents(alloc: Global, seg: &Seg) -> Result<Vec<Content>, OutOfMemory>
    ensures { IfOk result (λ v. map content_of v.items ≡ segment_contents seg.now) }
{
    match seg {
        Seg::Chars { text } => characters(alloc, text.as_str()),
        Seg::Marker { ref_type } => Ok(vec![in alloc; Content::Marker(*ref_type)]?),
    }
}
