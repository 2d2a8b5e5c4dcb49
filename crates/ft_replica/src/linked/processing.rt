//! What a client makes of sequenced messages.

ghost use Rattle.std.specs.Prelude.{◌≡◌, ◌<◌, ◌^◌, ◌&&◌, ◌||◌, [], IsTrue, None, Ok, OnErr, OnOk, map, nat_eq, pos};
ghost use Rattle.std.specs.List.{list_any};
ghost use Rattle.ft_op.specs.Same.{same_int};
ghost use Rattle.ft_msg.specs.Answers.{WantOfMemory};
ghost use Rattle.ft_msg.specs.Acknowledgement.{after_own_message};
ghost use Rattle.ft_msg.specs.Process.{after_entry, is_body, is_oldest, is_op, is_own_join, is_sent_as, numbers_fault, process_fault};
ghost use Rattle.ft_msg.specs.WellFormed.{HasNumbersInRange, IsWellFormedMessage};
ghost use Rattle.ft_replica.specs.Own.{HasNoTombstone};
ghost use Rattle.ft_replica.specs.Linked.{Anyone, AnswersLinked, KeepsLink, RunsForOne, TakesCompaction, TakesEntry, bare_edit, least_ref, outline};

use crate::document::OwnDocument;
use crate::linked::LinkedClient;
use crate::pending::PendingEdit;
use ft_base::{Datum, OutOfMemory};
use ft_json::Field;
use ft_msg::{Body, Entry, Link, MsgKind, ProcessFault};
use ft_op::ChannelOp;

impl<D: OwnDocument> LinkedClient<D> {
    /// The first reason to refuse an entry: it isn't the next one, its other numbers contradict what is kept, or
    /// it comes from one of the client's connections and isn't the oldest pending edit as it was sent.
    pub fn process_fault(&self, entry: &Entry) -> Option<ProcessFault>
        requires { HasNumbersInRange entry.now.msg }
        ensures { result ≡ process_fault (outline (D.shown self.now.document).content.number (D.shown self.now.document).content.minimum self.now.conns self.now.pending) entry.now }
    {
        let number = self.doc.number();
        let expected = number + 1;
        if entry.msg.seq != expected {
            return Some(ProcessFault::OutOfOrder {
                expected,
                got: entry.msg.seq,
            });
        }
        if let Some(fault) = numbers_fault(number, self.doc.minimum(), entry) {
            return Some(fault);
        }
        if matches!(entry.msg.kind, MsgKind::Op) && self.is_own(entry) && !self.is_oldest(entry) {
            return Some(ProcessFault::NotSent);
        }
        None
    }

    /// Takes the next entry, which isn't refused. Before that it looks for some of what may be forgotten.
    ///
    /// Returns `OutOfMemory` where there is no room for that, or a count would pass its greatest number.
    pub fn process(&mut self, entry: &Entry) -> Result<(), OutOfMemory>
        requires formed { IsWellFormedMessage entry.now.msg }
        requires known { RunsForOne D.holds self.old (λ p. process_fault p entry.now ≡ None) }
        ensures ok { OnOk result (TakesEntry D.holds entry.now self.old self.new) }
        ensures err { OnErr result (KeepsLink self.old self.new) }
    {
        self.tidy()?;
        self.take(entry)?;
        Ok(())
    }

    /// Takes the next entry, which isn't refused: its own join, its own message, or another.
    ///
    /// Returns `OutOfMemory` where there is no room for that, or a count would pass its greatest number.
    pub(crate) fn take(&mut self, entry: &Entry) -> Result<(), OutOfMemory>
        requires formed { IsWellFormedMessage entry.now.msg }
        requires known { RunsForOne D.holds self.old (λ p. process_fault p entry.now ≡ None) }
        ensures { AnswersLinked D.holds (λ _. WantOfMemory) (λ p. Ok (after_entry p entry.now)) self.old self.new result }
    {
        if self.is_own_join(entry) {
            return self.come_online(entry);
        }
        if self.is_own_message(entry) {
            return self.take_own(entry);
        }
        self.doc.take(entry)?;
        Ok(())
    }

    // Takes the client's own message: its oldest pending edit becomes sequenced.
    fn take_own(&mut self, entry: &Entry) -> Result<(), OutOfMemory>
        requires formed { IsWellFormedMessage entry.now.msg }
        requires known { RunsForOne D.holds self.old (λ p. process_fault p entry.now ≡ None) }
        ensures { AnswersLinked D.holds (λ _. WantOfMemory) (λ p. Ok (after_own_message p entry.now)) self.old self.new result }
    {
        self.doc.take_own(self.pending.oldest_count(), entry)?;
        self.pending.drop_oldest();
        Ok(())
    }

    /// Takes away some of what was removed at or below the floor.
    pub(crate) fn tidy(&mut self) -> Result<(), OutOfMemory>
        requires { RunsForOne D.holds self.old Anyone }
        ensures compacts { OnOk result (TakesCompaction D.holds self.old self.new) }
        ensures kept { KeepsLink self.old self.new }
    {
        let floor = self.pending.oldest_ref(self.doc.minimum());
        self.doc.tidy(floor)?;
        Ok(())
    }

    /// Takes away all that was removed at or below the floor, where the document compacts.
    pub fn compact(&mut self) -> Result<(), OutOfMemory>
        requires { RunsForOne D.holds self.old Anyone }
        ensures compacts { OnOk result (TakesCompaction D.holds self.old self.new) }
        ensures kept { KeepsLink self.old self.new }
        ensures full { IsTrue D.COMPACTS → OnOk result (HasNoTombstone (least_ref (D.shown self.old.document).content.minimum self.old.pending) (D.shown self.new.document).content) }
    {
        let floor = self.pending.oldest_ref(self.doc.minimum());
        self.doc.compact(floor)?;
        Ok(())
    }

    /// Whether the entry is the client's own join or its own message.
    pub(crate) fn is_from_itself(&self, entry: &Entry) -> bool
        ensures { result ≡ (is_own_join self.now.link entry.now.msg.kind entry.now.origin || (is_op entry.now.msg.body && list_any (nat_eq entry.now.origin) self.now.conns)) }
    {
        self.is_own_join(entry) || self.is_own_message(entry)
    }

    // Whether the entry is an operation from one of the client's connections.
    fn is_own_message(&self, entry: &Entry) -> bool
        ensures { result ≡ (is_op entry.now.msg.body && list_any (nat_eq entry.now.origin) self.now.conns) }
    {
        matches!(entry.msg.body, Body::Op(_)) && self.is_own(entry)
    }

    // Whether the entry comes from one of the client's connections.
    fn is_own(&self, entry: &Entry) -> bool
        ensures { result ≡ list_any (nat_eq entry.now.origin) self.now.conns }
    {
        self.conns.has(entry.origin)
    }

    // Whether the message is the oldest pending edit as it was sent.
    fn is_oldest(&self, entry: &Entry) -> bool
        ensures { result ≡ is_oldest entry.now (map bare_edit self.now.pending) }
    {
        match self.pending.oldest() {
            None => false,
            Some(edit) => is_sent_as(entry, edit),
        }
    }

    // Whether the entry is the join of the connection under which the client is joining.
    fn is_own_join(&self, entry: &Entry) -> bool
        ensures { result ≡ is_own_join self.now.link entry.now.msg.kind entry.now.origin }
    {
        match self.link {
            Link::Joining { conn } => {
                matches!(entry.msg.kind, MsgKind::Join) && conn == entry.origin
            }
            Link::Offline | Link::Online { .. } => false,
        }
    }
}

// The first of the conditions on its numbers that the entry breaks, where these are the last number and the
// last minimum.
fn numbers_fault(number: u64, minimum: u64, entry: &Entry) -> Option<ProcessFault>
    requires in_range { HasNumbersInRange entry.now.msg }
    requires number { number < 2 ^ 53 }
    requires minimum { minimum < 2 ^ 53 }
    ensures { result ≡ numbers_fault (outline number minimum [] []) entry.now }
{
    let m = &entry.msg;
    let is_op = matches!(m.kind, MsgKind::Op);
    if is_op && m.ref_seq < minimum as i64 {
        return Some(ProcessFault::BadNumbers {
            field: Field::ReferenceSequenceNumber,
            kept: minimum,
            got: m.ref_seq,
        });
    }
    if is_op && (number as i64) < m.ref_seq {
        return Some(ProcessFault::BadNumbers {
            field: Field::ReferenceSequenceNumber,
            kept: number,
            got: m.ref_seq,
        });
    }
    if m.min < minimum {
        return Some(ProcessFault::BadNumbers {
            field: Field::MinimumSequenceNumber,
            kept: minimum,
            got: m.min as i64,
        });
    }
    if m.seq < m.min {
        return Some(ProcessFault::BadNumbers {
            field: Field::MinimumSequenceNumber,
            kept: m.seq,
            got: m.min as i64,
        });
    }
    None
}

// Whether the message is the pending edit as it was sent: connection, client number, reference number and
// operation.
fn is_sent_as(entry: &Entry, edit: &PendingEdit) -> bool
    ensures { result ≡ is_sent_as entry.now (bare_edit edit.now) }
{
    match edit.sent() {
        None => false,
        Some(sent) => {
            sent.conn() == entry.origin
                && is_number(sent.client_seq(), entry.msg.client_seq)
                && is_number(edit.ref_seq(), entry.msg.ref_seq)
                && is_body(sent.op(), &entry.msg.body)
        }
    }
}

// Whether the count is that number.
fn is_number(count: u64, number: i64) -> bool
    ensures { result ≡ same_int (pos count) number }
{
    0 <= number && count == number as u64
}

// Whether the body is that operation.
fn is_body(op: &ChannelOp, body: &Body) -> bool
    ensures { result ≡ is_body op.now body.now }
{
    match body {
        Body::Op(other) => op.same(other),
        Body::Nothing | Body::Elsewhere(_) => false,
    }
}
