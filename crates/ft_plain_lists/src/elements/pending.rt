//! What is pending on an element, and what an acknowledgement or a reconnection makes of it.

ghost use Rattle.std.specs.Prelude.{◌≡◌, ◌+◌, ◌++◌, [], ◌∷◌, IfOk, OnOk, OnErr, cond, filter, nat_eq, not};
ghost use Rattle.std.specs.List.{list_any};
ghost use Rattle.ft_base.specs.Visibility.{is_acked, is_of_stage};
ghost use Rattle.ft_props.specs.Steps.{acked_element, acked_props, acked_removal, acked_stamp, author};
ghost use Rattle.ft_props.specs.Steps.{carried_element, is_annotated_by, is_inserted_by, is_removed_by, remaining_removal};
ghost use Rattle.ft_plain_lists.specs.Contents.{content_of};

use crate::copies::Copied;
use crate::elements::{Content, PlainElement, has_any_sequenced};
use ft_base::moved::{both, push};
use ft_base::{Datum, OutOfMemory, Stamp};
use ft_props::{Changes, Props};
use std::alloc::Global;

impl PlainElement {
    /// Whether the pending stage inserted it.
    pub(crate) fn is_inserted_by(&self, stage: u64) -> bool
        ensures { result ≡ is_inserted_by stage self.now }
    {
        match self.ins {
            Stamp::Acked { .. } => false,
            Stamp::Local { stage: own } => own == stage,
        }
    }

    /// Whether the pending stage marks it as removed.
    pub(crate) fn is_removed_by(&self, stage: u64) -> bool
        ensures { result ≡ is_removed_by stage self.now }
    {
        match self.removal_stage {
            Some(own) => own == stage,
            None => false,
        }
    }

    /// Whether the pending stage has changes of it.
    pub(crate) fn is_annotated_by(&self, stage: u64) -> bool
        ensures { result ≡ is_annotated_by stage self.now }
    {
        self.pending.iter().any(|change| change.0 == stage)
    }

    /// Whether a removal of it is sequenced.
    pub(crate) fn is_removed(&self) -> bool
        ensures { result ≡ list_any is_acked self.now.dels }
    {
        has_any_sequenced(self.dels.as_slice())
    }

    /// Takes its pending removal and its pending changes away, if a removal of it is sequenced.
    pub(crate) fn carry(&mut self)
        ensures { self.new ≡ carried_element self.old }
    {
        if self.is_removed() {
            self.removal_stage = None;
            self.pending.clear();
        }
    }

    /// Makes what the pending stage did with it sequenced, under number `seq` by connection `conn`, where
    /// `made` elements were sequenced in its list before.
    ///
    /// Returns `OutOfMemory` where there is no room for that or its number would pass 2^64 - 1, and then
    /// some of it may be done.
    pub(crate) fn acknowledge(
        &mut self,
        stage: u64,
        made: u64,
        seq: u64,
        conn: u32,
    ) -> Result<(), OutOfMemory>
        ensures { OnOk result (self.new ≡ acked_element stage made seq conn self.old) }
    {
        self.acknowledge_removal(stage, seq, conn)?;
        self.acknowledge_changes(stage)?;
        self.acknowledge_insertion(stage, made, seq, conn)
    }

    // Makes its pending removal sequenced, if it is the stage's.
    //
    // Returns `OutOfMemory` where there is no room for it, and then nothing changed.
    fn acknowledge_removal(&mut self, stage: u64, seq: u64, conn: u32) -> Result<(), OutOfMemory>
        ensures ok { OnOk result (self.new ≡ record self.old {
          dels = self.old.dels ++ acked_removal stage seq conn self.old.removal_stage;
          removal_stage = remaining_removal stage self.old.removal_stage;
        }) }
        ensures err { OnErr result (self.new ≡ self.old) }
    {
        if self.removal_stage == Some(stage) {
            self.dels.push(Stamp::Acked { seq, conn })?;
            self.removal_stage = None;
        }
        Ok(())
    }

    // Makes the stage's pending changes of its acknowledged properties.
    //
    // Returns `OutOfMemory` where there is no room for what they make, and then nothing changed.
    fn acknowledge_changes(&mut self, stage: u64) -> Result<(), OutOfMemory>
        ensures ok { OnOk result (self.new ≡ record self.old {
          props = acked_props stage self.old.props self.old.pending;
          pending = filter (λ p. not (nat_eq p.0 stage)) self.old.pending;
        }) }
        ensures err { OnErr result (self.new ≡ self.old) }
    {
        self.props = self.acked_props(stage)?;
        self.forget_changes(stage);
        Ok(())
    }

    // Takes the stage's pending changes away.
    fn forget_changes(&mut self, stage: u64)
        ensures { self.new ≡ record self.old { pending = filter (λ p. not (nat_eq p.0 stage)) self.old.pending } }
    {
        self.pending.retain(|(own, _)| *own != stage);
    }

    // Makes its insertion sequenced, if it is the stage's.
    //
    // Returns `OutOfMemory` where its number would pass 2^64 - 1, and then nothing changed.
    fn acknowledge_insertion(
        &mut self,
        stage: u64,
        made: u64,
        seq: u64,
        conn: u32,
    ) -> Result<(), OutOfMemory>
        ensures ok { OnOk result (self.new ≡ record self.old {
          nth = cond (is_of_stage stage self.old.ins) (made + self.old.nth) self.old.nth;
          ins = acked_stamp stage seq conn self.old.ins;
          by = cond (is_of_stage stage self.old.ins) (author seq conn self.old.content) self.old.by;
        }) }
        ensures err { OnErr result (self.new ≡ self.old) }
    {
        if self.is_inserted_by(stage) {
            self.nth = made.checked_add(self.nth).ok_or(OutOfMemory)?;
            self.by = author(seq, conn, self.content);
            self.ins = Stamp::Acked { seq, conn };
        }
        Ok(())
    }

    // Its acknowledged properties after the pending changes of the stage.
    fn acked_props(&self, stage: u64) -> Result<Props, OutOfMemory>
        ensures { IfOk result (λ props. props ≡ acked_props stage self.now.props self.now.pending) }
    {
        let mut props = self.props.copy()?;
        for (own, changes) in &self.pending {
            if *own == stage {
                props = props.changed(changes)?;
            }
        }
        Ok(props)
    }

    /// An equal element, but with this insertion.
    pub(super) fn copy_with(&self, ins: Stamp) -> Result<PlainElement, OutOfMemory>
        ensures { IfOk result (λ copy. copy ≡ record self.now { ins = ins }) }
    {
        let changes = copied_changes(*self.pending.allocator(), self.pending.as_slice());
        let kept = both(self.dels.copy(), self.props.copy());
        let ((dels, props), pending) = both(kept, changes)?;
        Ok(PlainElement {
            nth: self.nth,
            content: self.content,
            ins,
            dels,
            removal_stage: self.removal_stage,
            by: self.by,
            props,
            pending,
        })
    }
}

impl Copied for PlainElement {
    fn copied(&self) -> Result<PlainElement, OutOfMemory> {
        self.copy_with(self.ins)
    }
}

// Equal pending changes.
fn copied_changes(
    alloc: Global,
    pending: &[(u64, Changes)],
) -> Result<Vec<(u64, Changes)>, OutOfMemory>
    ensures { IfOk result (λ copies. copies.items ≡ pending.now) }
{
    let mut copies = Vec::new(alloc);
    for (stage, changes) in pending {
        push_changes(&mut copies, *stage, changes)?;
    }
    Ok(copies)
}

// Adds changes of the pending stage behind the others.
//
// Returns `OutOfMemory` where there is no room for them, and then nothing changed.
pub(super) fn push_changes(
    pending: &mut Vec<(u64, Changes)>,
    stage: u64,
    changes: &Changes,
) -> Result<(), OutOfMemory>
    ensures ok { OnOk result (pending.new.items ≡ pending.old.items ++ (stage, changes.now) ∷ []) }
    ensures err { OnErr result (pending.new.items ≡ pending.old.items) }
{
    let changes = changes.copy()?;
    push(pending, (stage, changes))
}

// Whose message made an element: known for the text, not kept for rows and columns.
fn author(seq: u64, conn: u32, content: Content) -> Option<Stamp>
    ensures { result ≡ author seq conn (content_of content) }
{
    match content {
        Content::Character(_) | Content::Marker(_) => Some(Stamp::Acked { seq, conn }),
        Content::Unit => None,
    }
}
