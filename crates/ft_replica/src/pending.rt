//! Pending edits, without their stages, which the document keeps.

ghost use Rattle.std.specs.Prelude.{◌≡◌, ◌<◌, [], ◌∷◌, ◌++◌, IsTrue, IfOk, OnOk, OnErr, drop, length, map, slice_get, option_copied};
ghost use Rattle.std.specs.VecDeque.{deque_capacity, deque_len};
ghost use Rattle.ft_replica.specs.Linked.{PendingPart, oldest_count, oldest_ref};
ghost use Rattle.ft_op.specs.WellFormed.{is_count};
ghost use Rattle.ft_replica.specs.Unsent.{IsNextSent, with_sent};

use crate::outbox::Outbox;
use ft_base::OutOfMemory;
use ft_base::moved::{drop_first, push_reserved};
use ft_op::ChannelOp;
use std::alloc::Global;
use std::collections::VecDeque;
use std::marker::Model;

/// As what an edit was sent: its connection, its client sequence number, its operation.
#[derive(Drop)]
pub struct Sent {
    conn: u32,
    client_seq: u64,
    op: ChannelOp,
}

impl Model for Sent {
    ghost use Rattle.ft_msg.specs.Client.{SentAs};

    ghost Value = { SentAs };

    ghost view = { λ a. record { conn = a.conn; client_seq = a.client_seq; op = a.op } };
}

impl Sent {
    /// These parts.
    pub fn new(conn: u32, client_seq: u64, op: ChannelOp) -> Sent
        ensures { result ≡ record { conn = conn; client_seq = client_seq; op = op } }
    {
        Sent {
            conn,
            client_seq,
            op,
        }
    }

    /// The connection.
    pub fn conn(&self) -> u32
        ensures { result ≡ self.now.conn }
    {
        self.conn
    }

    /// The client sequence number.
    pub fn client_seq(&self) -> u64
        ensures { result ≡ self.now.client_seq }
    {
        self.client_seq
    }

    /// The operation.
    pub fn op(&self) -> &ChannelOp
        ensures { result.now ≡ self.now.op }
    {
        &self.op
    }
}

/// A pending edit: how many stages it has, its reference number, and as what it was sent, if it was.
#[derive(Drop)]
pub struct PendingEdit {
    count: usize,
    ref_seq: u64,
    sent: Option<Sent>,
}

impl Model for PendingEdit {
    ghost use Rattle.ft_replica.specs.Linked.{PendingPart};

    ghost Value = { PendingPart };

    ghost view = { λ a. record { count = a.count; ref_seq = a.ref_seq; sent = a.sent } };
}

impl PendingEdit {
    /// The edit with these parts.
    pub fn new(count: usize, ref_seq: u64, sent: Option<Sent>) -> PendingEdit
        ensures { result ≡ record { count = count; ref_seq = ref_seq; sent = sent } }
    {
        PendingEdit {
            count,
            ref_seq,
            sent,
        }
    }

    /// How many stages it has.
    pub fn count(&self) -> usize
        ensures { result ≡ self.now.count }
    {
        self.count
    }

    /// Its reference number.
    pub fn ref_seq(&self) -> u64
        ensures { result ≡ self.now.ref_seq }
    {
        self.ref_seq
    }

    /// As what it was sent, if it was.
    pub fn sent(&self) -> &Option<Sent>
        ensures { result.now ≡ self.now.sent }
    {
        &self.sent
    }
}

/// Pending edits in order.
#[derive(Drop)]
pub struct PendingEdits {
    edits: VecDeque<PendingEdit>,
}

impl Model for PendingEdits {
    ghost use Rattle.std.specs.Prelude.{List};
    ghost use Rattle.ft_replica.specs.Linked.{PendingPart};

    ghost Value = { List PendingPart };

    ghost view = { λ a. a.edits.items };
}

impl PendingEdits {
    /// No edits.
    pub fn new(alloc: Global) -> PendingEdits
        ensures { result ≡ [] }
    {
        PendingEdits {
            edits: VecDeque::new(alloc),
        }
    }

    /// How many there are.
    pub fn len(&self) -> usize
        ensures { result ≡ length self.now }
    {
        self.edits.len()
    }

    /// The oldest one: None exactly where there is none.
    pub fn oldest(&self) -> Option<&PendingEdit>
        ensures { option_copied result ≡ slice_get self.now 0 }
    {
        self.edits.get(0)
    }

    /// Takes the oldest one away, if there is one.
    pub fn drop_oldest(&mut self)
        ensures { self.new ≡ drop 1 self.old }
    {
        drop_first(&mut self.edits);
    }

    /// How many stages the oldest one has, 0 where there is none.
    pub fn oldest_count(&self) -> usize
        ensures { result ≡ oldest_count self.now }
    {
        match self.edits.get(0) {
            Some(edit) => edit.count,
            None => 0,
        }
    }

    /// Adds an edit behind the others, and its draft to the outbox, if it is sent.
    ///
    /// Returns `OutOfMemory` where there is no room for that, or the number of the draft would pass 2^53 - 1,
    /// and then nothing changed.
    pub fn push(&mut self, edit: PendingEdit, outbox: &mut Outbox) -> Result<(), OutOfMemory>
        requires sent { IsNextSent edit.sent outbox.old }
        requires ref_seq { IsTrue (is_count edit.ref_seq) }
        ensures edits { OnOk result (self.new ≡ self.old ++ edit ∷ []) }
        ensures outbox { OnOk result (outbox.new ≡ with_sent edit.sent edit.ref_seq outbox.old) }
        ensures err { OnErr result ((self.new ≡ self.old) × (outbox.new ≡ outbox.old)) }
    {
        let sent = send(&mut self.edits, &edit, outbox);
        push_reserved(sent, &mut self.edits, edit)
    }

    /// The lesser of a number and the reference number of the oldest one, if there is one.
    pub fn oldest_ref(&self, number: u64) -> u64
        ensures { result ≡ oldest_ref number self.now }
    {
        match self.edits.get(0) {
            Some(edit) => number.min(edit.ref_seq),
            None => number,
        }
    }

    /// How many stages each has.
    pub fn counts(&self, alloc: Global) -> Result<Vec<usize>, OutOfMemory>
        ensures { IfOk result (λ v. v.items ≡ map (λ e. e.count) self.now) }
    {
        let mut counts = Vec::new(alloc);
        for edit in self.edits.iter() {
            counts.push(edit.count)?;
        }
        Ok(counts)
    }
}

// Makes room for an edit, and adds its draft to the outbox, if it is sent.
//
// Returns `OutOfMemory` where there is no room for that, or the number of the draft would pass 2^53 - 1, and then
// nothing is sent.
fn send(
    edits: &mut VecDeque<PendingEdit>,
    edit: &PendingEdit,
    outbox: &mut Outbox,
) -> Result<(), OutOfMemory>
    requires sent { IsNextSent edit.now.sent outbox.old }
    requires ref_seq { IsTrue (is_count edit.now.ref_seq) }
    ensures kept { edits.new.items ≡ edits.old.items }
    ensures room { OnOk result (deque_len edits.new < deque_capacity edits.new) }
    ensures outbox { OnOk result (outbox.new ≡ with_sent edit.now.sent edit.now.ref_seq outbox.old) }
    ensures err { OnErr result (outbox.new ≡ outbox.old) }
{
    edits.reserve(1)?;
    outbox.send(edit.sent(), edit.ref_seq())
}
