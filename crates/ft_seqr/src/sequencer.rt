//! The sequencer: it numbers messages 1, 2, 3 and so on, and tells with each the minimum below which no
//! joined connection will refer any more.

ghost use Rattle.std.specs.Prelude.{◌≡◌, ℕ, ◌+◌, ◌<◌, ◌^◌, pos, cond, Some, Ok, IfOk, IfErr, OnOk, OnErr, map, find, option_copied};
ghost use Rattle.ft_seqr.specs.Sequencer.{draft_kind, is_joined, join, least_ref, leave, nack_of, new_sequencer, next, notice, submit, submitted};
ghost use Rattle.ft_seqr.specs.SequencerCalls.{AreSmall, IsLeaveFault, IsSubmitFault, Sends, newcomer, sender_of, sent_message, sequencer_after};

use crate::nacks::{LeaveFault, Nack, SubmitFault};
use ft_base::moved::{beside, both, push_beside};
use ft_base::{Datum, OutOfMemory, Text};
use ft_msg::{Body, Draft, Entry, Message, MsgKind};
use std::alloc::Global;
use std::marker::Model;

// A joined connection: its number, its name, its last reference number, and the client sequence
// number of its last message.
#[derive(Drop)]
struct Joined {
    conn: u32,
    name: Text,
    ref_seq: u64,
    client_seq: u64,
}

impl Model for Joined {
    ghost use Rattle.ft_seqr.specs.Sequencer.{JoinedConnection};

    ghost Value = { JoinedConnection };

    ghost view = { λ a. record { conn = a.conn; name = a.name; ref_seq = a.ref_seq; client_seq = a.client_seq } };
}

impl Joined {
    // Whether it is that connection.
    fn is(&self, conn: u32) -> bool
        ensures { result ≡ is_joined conn self.now }
    {
        conn == self.conn
    }

    // Takes the numbers of the draft, if it is that connection.
    fn take_draft(&mut self, conn: u32, draft: &Draft)
        ensures { self.new ≡ cond (is_joined conn self.old) (submitted draft.now self.old) self.old }
    {
        if self.is(conn) {
            self.ref_seq = draft.ref_seq;
            self.client_seq = draft.client_seq;
        }
    }

    // The sender of its message under that number.
    fn sender(&self, number: u64) -> Result<Sender, OutOfMemory>
        ensures { IfOk result (λ sender. sender ≡ sender_of self.now number) }
    {
        Ok(Sender {
            conn: self.conn,
            name: self.name.copy()?,
            number,
        })
    }
}

// The connection of that number and name as it joins, while this is the minimum.
fn newcomer(conn: u32, name: &Text, minimum: u64) -> Result<Joined, OutOfMemory>
    ensures { IfOk result (λ joined. joined ≡ newcomer conn name.now minimum) }
{
    Ok(Joined {
        conn,
        name: name.copy()?,
        ref_seq: minimum,
        client_seq: 0,
    })
}

// The sender of a message: the number and the name of its connection, and the number of the message.
#[derive(Drop)]
struct Sender {
    conn: u32,
    name: Text,
    number: u64,
}

// Tests that the numbers of the draft can be signed ones.
//
// Returns `OutOfMemory` where one is above 2^63 - 1.
fn test_numbers(draft: &Draft) -> Result<(), OutOfMemory>
    ensures { OnOk result (AreSmall draft.now) }
{
    let most = i64::MAX as u64;
    if draft.client_seq > most || draft.ref_seq > most {
        return Err(OutOfMemory);
    }
    Ok(())
}

// The number as a signed one.
fn signed(number: u64) -> i64
    requires { number < 2 ^ 63 }
    ensures { result ≡ pos number }
{
    number as i64
}

// The message of the sender's draft, with this minimum.
fn message(sender: Sender, minimum: u64, draft: Draft) -> Entry
    requires { AreSmall draft }
    ensures { result ≡ sent_message sender minimum draft }
{
    Entry {
        msg: Message {
            client_id: Some(sender.name),
            seq: sender.number,
            min: minimum,
            client_seq: signed(draft.client_seq),
            ref_seq: signed(draft.ref_seq),
            kind: draft_kind(&draft.body),
            body: draft.body,
        },
        origin: sender.conn,
    }
}

// The kind of the message of a draft with this body.
fn draft_kind(body: &Body) -> MsgKind
    ensures { result ≡ draft_kind body.now }
{
    match body {
        Body::Nothing => MsgKind::Noop,
        Body::Op(_) | Body::Elsewhere(_) => MsgKind::Op,
    }
}

// The joined connection of that number.
fn find_joined(joined: &[Joined], conn: u32) -> Option<&Joined>
    ensures { option_copied result ≡ find (is_joined conn) joined.now }
{
    for other in joined {
        if other.is(conn) {
            return Some(other);
        }
    }
    None
}

// The least last reference number of the joined connections, or the message's own number where none
// is joined.
fn least_ref(number: u64, joined: &[Joined]) -> u64
    ensures { result ≡ least_ref number joined.now }
{
    let [first, others @ ..] = joined else {
        return number;
    };
    let mut least = first.ref_seq;
    for other in others {
        least = least.min(other.ref_seq);
    }
    least
}

// Gives the connection of that number the numbers of its draft.
fn take_draft(joined: &mut [Joined], conn: u32, draft: &Draft)
    ensures { joined.new ≡ map (λ i. cond (is_joined conn i) (submitted draft.now i) i) joined.old }
{
    for other in joined.iter_mut() {
        other.take_draft(conn, draft);
    }
}

/// A sequencer: the number of the last message, its minimum, and the joined connections.
#[derive(Drop)]
pub struct Sequencer {
    number: u64,
    minimum: u64,
    joined: Vec<Joined>,
}

impl Model for Sequencer {
    ghost use Rattle.ft_seqr.specs.Sequencer.{NaiveSequencer};

    ghost Value = { NaiveSequencer };

    ghost view = { λ a. record { number = a.number; minimum = a.minimum; joined = a.joined.items } };
}

impl Sequencer {
    /// The sequencer before the first message.
    pub fn new(alloc: Global) -> Sequencer
        ensures { result ≡ new_sequencer }
    {
        Sequencer {
            number: 0,
            minimum: 0,
            joined: Vec::new(alloc),
        }
    }

    /// Joins a connection, and gives the message that tells of it.
    ///
    /// Returns `OutOfMemory` where there is no room for them, or the number of the message would pass
    /// 2^64 - 1, and then nothing changed.
    pub fn join(&mut self, conn: u32, name: &Text) -> Result<Entry, OutOfMemory>
        ensures ok { IfOk result (λ entry. join self.old conn name.now ≡ (self.new, entry)) }
        ensures err { OnErr result (self.new ≡ self.old) }
    {
        let number = self.next_number()?;
        let made = both(newcomer(conn, name, self.minimum), name.copy());
        let sender = push_beside(&mut self.joined, made)?;
        self.advance(number);
        Ok(self.notice(conn, sender, MsgKind::Join))
    }

    /// Takes the connection out, and gives the message that tells of it.
    ///
    /// Returns `NotJoined` exactly where it isn't joined, and `OutOfMemory` where there is no room for
    /// the message, or its number would pass 2^64 - 1. Nothing changed then.
    pub fn leave(&mut self, conn: u32) -> Result<Entry, LeaveFault>
        ensures ok { IfOk result (λ entry. leave self.old conn ≡ Some (self.new, entry)) }
        ensures fault { IfErr result (IsLeaveFault self.old conn) }
        ensures err { OnErr result (self.new ≡ self.old) }
    {
        let Some(joined) = find_joined(self.joined.as_slice(), conn) else {
            return Err(LeaveFault::NotJoined);
        };
        let number = self.next_number()?;
        let sender = joined.name.copy()?;
        self.joined.retain(|other| !other.is(conn));
        self.advance(number);
        Ok(self.notice(conn, sender, MsgKind::Leave))
    }

    /// Gives the draft of the connection its number, and gives its message, with a copy of its body.
    ///
    /// Returns `Nack` with the first reason that holds against the draft, and `OutOfMemory` where there
    /// is no room for the message, or a number of it would pass 2^64 - 1, or one of the draft 2^63 - 1.
    /// Nothing changed then.
    pub fn submit(&mut self, conn: u32, draft: &Draft) -> Result<Entry, SubmitFault>
        ensures ok { IfOk result (λ entry. submit self.old conn draft.now ≡ Ok (self.new, entry)) }
        ensures fault { IfErr result (IsSubmitFault self.old conn draft.now) }
        ensures err { OnErr result (self.new ≡ self.old) }
    {
        let sender = self.sender(conn, draft)?;
        let copy = draft.copy()?;
        Ok(self.number_draft(sender, copy))
    }

    /// The same of a draft that is given away: its body is that of the message, and isn't copied.
    pub fn take(&mut self, conn: u32, draft: Draft) -> Result<Entry, SubmitFault>
        ensures ok { IfOk result (λ entry. submit self.old conn draft ≡ Ok (self.new, entry)) }
        ensures fault { IfErr result (IsSubmitFault self.old conn draft) }
        ensures err { OnErr result (self.new ≡ self.old) }
    {
        let (sender, draft) = beside(self.sender(conn, &draft), draft)?;
        Ok(self.number_draft(sender, draft))
    }

    // The sender of the draft's message, if nothing is against the draft.
    fn sender(&self, conn: u32, draft: &Draft) -> Result<Sender, SubmitFault>
        ensures ok { IfOk result (Sends self.now conn draft.now) }
        ensures number { IfOk result (λ sender. sender.number ≡ self.now.number + 1) }
        ensures small { OnOk result (AreSmall draft.now) }
        ensures fault { IfErr result (IsSubmitFault self.now conn draft.now) }
    {
        let Some(joined) = find_joined(self.joined.as_slice(), conn) else {
            return Err(SubmitFault::Nack(Nack::NotJoined));
        };
        if let Some(nack) = self.nack(joined, draft)? {
            return Err(SubmitFault::Nack(nack));
        }
        test_numbers(draft)?;
        let number = self.next_number()?;
        Ok(joined.sender(number)?)
    }

    // Goes on to the message of the sender's draft, and gives it.
    fn number_draft(&mut self, sender: Sender, draft: Draft) -> Entry
        requires number { sender.number ≡ self.old.number + 1 }
        requires small { AreSmall draft }
        ensures { (conn : ℕ) → Sends self.old conn draft sender → submit self.old conn draft ≡ Ok (self.new, result) }
    {
        self.go_on(sender.number, sender.conn, &draft);
        message(sender, self.minimum, draft)
    }

    // Goes on to the next message, of that number, which is the draft of the connection.
    fn go_on(&mut self, number: u64, conn: u32, draft: &Draft)
        requires { number ≡ self.old.number + 1 }
        ensures { self.new ≡ sequencer_after self.old conn draft.now }
    {
        take_draft(self.joined.as_mut_slice(), conn, draft);
        self.advance(number);
    }

    // The first of four reasons to refuse the draft of the joined connection.
    //
    // Returns `OutOfMemory` where the number that it is to have would pass 2^64 - 1.
    fn nack(&self, joined: &Joined, draft: &Draft) -> Result<Option<Nack>, OutOfMemory>
        ensures { IfOk result (λ nack. nack ≡ nack_of self.now joined.now draft.now) }
    {
        let expected = joined.client_seq.checked_add(1).ok_or(OutOfMemory)?;
        let got = draft.ref_seq;
        if draft.client_seq != expected {
            let got = draft.client_seq;
            return Ok(Some(Nack::ClientSeq { expected, got }));
        }
        if got < self.minimum {
            let min = self.minimum;
            return Ok(Some(Nack::RefBelow { min, got }));
        }
        if got < joined.ref_seq {
            let last = joined.ref_seq;
            return Ok(Some(Nack::RefBack { last, got }));
        }
        if self.number < got {
            let seq = self.number;
            return Ok(Some(Nack::RefAhead { seq, got }));
        }
        Ok(None)
    }

    // The number of the next message.
    //
    // Returns `OutOfMemory` where it would pass 2^64 - 1.
    fn next_number(&self) -> Result<u64, OutOfMemory>
        ensures { IfOk result (λ number. number ≡ self.now.number + 1) }
    {
        self.number.checked_add(1).ok_or(OutOfMemory)
    }

    // Goes on to the next message, of that number, with the connections that are joined now.
    fn advance(&mut self, number: u64)
        requires { number ≡ self.old.number + 1 }
        ensures { self.new ≡ next self.old.joined self.old }
    {
        self.number = number;
        self.minimum = least_ref(number, self.joined.as_slice());
    }

    // The message that tells of a connection that comes or goes.
    fn notice(&self, conn: u32, name: Text, word: MsgKind) -> Entry
        ensures { result ≡ notice self.now conn name word }
    {
        Entry {
            msg: Message {
                client_id: Some(name),
                seq: self.number,
                min: self.minimum,
                client_seq: -1,
                ref_seq: -1,
                kind: word,
                body: Body::Nothing,
            },
            origin: conn,
        }
    }
}
