//! Marks on elements: sequenced removals and changes, and those that are pending.

ghost use Rattle.ft_props.specs.Element.{with_annotation, with_pending_annotation, with_pending_removal, with_removal};

use crate::elements::PlainElement;
use crate::elements::pending::push_changes;
use ft_base::{OutOfMemory, Stamp};
use ft_props::Changes;

/// Something that is put on an element.
pub trait ElementMark {
    ghost use Rattle.std.specs.Prelude.{◌≡◌, OnOk, OnErr};
    ghost use Rattle.ft_props.specs.Element.{ListElement};

    /// The element with the mark.
    ghost marked: { Self → ListElement → ListElement };

    /// Puts the mark on the element.
    ///
    /// Returns `OutOfMemory` where there is no room for it, and then nothing changed.
    fn put_on(&self, e: &mut PlainElement) -> Result<(), OutOfMemory>
        ensures ok { OnOk result (e.new ≡ marked self.now e.old) }
        ensures err { OnErr result (e.new ≡ e.old) };
}

/// A sequenced removal: its number, and the connection that sent it.
#[derive(Drop)]
pub struct Removal {
    pub seq: u64,
    pub conn: u32,
}

impl ElementMark for Removal {
    ghost marked = { λ r e. with_removal r.seq r.conn e };

    fn put_on(&self, e: &mut PlainElement) -> Result<(), OutOfMemory> {
        e.dels.push(Stamp::Acked {
            seq: self.seq,
            conn: self.conn,
        })
    }
}

/// Sequenced changes of properties.
impl ElementMark for Changes {
    ghost marked = { λ c e. with_annotation c e };

    fn put_on(&self, e: &mut PlainElement) -> Result<(), OutOfMemory> {
        e.props = e.props.changed(self)?;
        Ok(())
    }
}

/// A pending removal, by its stage.
#[derive(Drop)]
pub struct PendingRemoval(pub u64);

impl ElementMark for PendingRemoval {
    ghost marked = { λ r e. with_pending_removal r.0 e };

    fn put_on(&self, e: &mut PlainElement) -> Result<(), OutOfMemory> {
        e.removal_stage = Some(self.0);
        Ok(())
    }
}

/// Pending changes of properties, with their stage.
#[derive(Drop)]
pub struct PendingChanges<'a> {
    pub stage: u64,
    pub changes: &'a Changes,
}

impl<'a> ElementMark for PendingChanges<'a> {
    ghost marked = { λ c e. with_pending_annotation c.stage c.changes.now e };

    fn put_on(&self, e: &mut PlainElement) -> Result<(), OutOfMemory> {
        push_changes(&mut e.pending, self.stage, self.changes)
    }
}
