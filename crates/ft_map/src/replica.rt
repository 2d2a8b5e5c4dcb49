//! A client of a map session.

ghost use Rattle.std.specs.Prelude.{◌≡◌, ◌+◌, ◌<◌, ◌^◌, [], ◌∷◌, ◌++◌, IfOk, OnOk, drop, length, slice_get};
ghost use Rattle.ft_msg.specs.Process.{is_own_join};
ghost use Rattle.ft_shared_map.specs.Maps.{acknowledged, pairs_of};
ghost use Rattle.ft_map.specs.MapClient.{after_entry, after_message, after_op, client_over, draft_of, drafts_from, dropped, edited, is_own, joining, online, view_of};
ghost use Rattle.ft_map.specs.MapWorlds.{AnswersPending, AreNumbersOf};

use crate::log::{MapDraft, MapEntry};
use ft_base::{OutOfMemory, Text};
use ft_json::ValText;
use ft_msg::{Body, Draft, Entry, Link, MsgKind, Numbers};
use ft_seqr::Refusal;
use ft_shared_map::{MapOp, MapPair, SharedMap};
use std::alloc::Global;
use std::collections::VecDeque;
use std::marker::Model;

/// A client: its map, its link, its unsent messages, and its numbers.
#[derive(Drop)]
pub(crate) struct MapReplica {
    alloc: Global,
    state: SharedMap,
    link: Link,
    conns: Vec<u32>,
    next: u64,
    queue: VecDeque<MapDraft>,
    seq: u64,
    min: u64,
}

impl Model for MapReplica {
    ghost use Rattle.ft_map.specs.MapClient.{MapClient};

    ghost Value = { MapClient };

    ghost view = { λ a. record {
      state = a.state;
      link = a.link;
      conns = a.conns.items;
      next_client_seq = a.next;
      queue = a.queue.items;
      number = a.seq;
      minimum = a.min;
    } };
}

impl MapReplica {
    /// A new client over this map, on which nothing is pending, offline.
    pub(crate) fn over(alloc: Global, state: SharedMap, seq: u64, min: u64) -> MapReplica
        requires { state.pending ≡ [] }
        ensures { result ≡ client_over state.acked seq min }
    {
        MapReplica {
            alloc,
            state,
            link: Link::Offline,
            conns: Vec::new(alloc),
            next: 1,
            queue: VecDeque::new(alloc),
            seq,
            min,
        }
    }

    /// A new client with what was sequenced of this one's map, and its numbers.
    pub(crate) fn successor(&self) -> Result<MapReplica, OutOfMemory>
        ensures { IfOk result (λ r. r ≡ client_over self.now.state.acked self.now.number self.now.minimum) }
    {
        let state = self.state.acked_copy()?;
        Ok(MapReplica::over(self.alloc, state, self.seq, self.min))
    }

    /// Its numbers.
    pub(crate) fn numbers(&self) -> Numbers
        ensures { AreNumbersOf self.now result }
    {
        Numbers {
            seq: self.seq,
            min: self.min,
            pending: self.state.pending(),
            skipped: 0,
            other: 0,
            made: 0,
            link: self.link,
        }
    }

    /// How it stands to the sequencer.
    pub(crate) fn link(&self) -> Link
        ensures { result ≡ self.now.link }
    {
        self.link
    }

    /// The number of the last message that it processed.
    pub(crate) fn seq(&self) -> u64
        ensures value { result ≡ self.now.number }
        ensures fits { result < 2 ^ 64 }
    {
        self.seq
    }

    /// How many of its operations are pending.
    pub(crate) fn pending(&self) -> u64
        ensures { result ≡ length self.now.state.pending }
    {
        self.state.pending()
    }

    /// That nothing is pending.
    ///
    /// Returns `Pending` exactly where operations are, with how many.
    pub(crate) fn nothing_pending(&self) -> Result<(), Refusal>
        ensures { AnswersPending self.now.state.pending result }
    {
        match self.pending() {
            0 => Ok(()),
            count => Err(Refusal::Pending { count }),
        }
    }

    /// What it shows, by rising keys.
    pub(crate) fn pairs(&self) -> Result<Vec<MapPair>, OutOfMemory>
        ensures { IfOk result (λ pairs. pairs.items ≡ pairs_of (view_of self.now)) }
    {
        self.state.pairs()
    }

    /// What was sequenced of its map, by rising keys.
    pub(crate) fn acked(&self) -> &[(Text, ValText)]
        ensures { result.now ≡ self.now.state.acked }
    {
        self.state.acked()
    }

    /// Its last minimum.
    pub(crate) fn min(&self) -> u64
        ensures value { result ≡ self.now.minimum }
        ensures fits { result < 2 ^ 64 }
    {
        self.min
    }

    /// An edit of its own.
    pub(crate) fn edit(&mut self, op: &MapOp) -> Result<(), OutOfMemory>
        ensures { OnOk result (self.new ≡ edited op.now self.old) }
    {
        self.state.edit(op)?;
        match self.link {
            Link::Online { .. } => self.send(op),
            Link::Offline | Link::Joining { .. } => Ok(()),
        }
    }

    // The message of an operation comes to the queue.
    fn send(&mut self, op: &MapOp) -> Result<(), OutOfMemory>
        ensures { OnOk result (self.new ≡ record self.old { next_client_seq = self.old.next_client_seq + 1; queue = self.old.queue ++ draft_of self.old.next_client_seq self.old.number op.now ∷ [] }) }
    {
        let next = self.next.checked_add(1).ok_or(OutOfMemory)?;
        queue_draft(&mut self.queue, self.alloc, self.next, self.seq, op)?;
        self.next = next;
        Ok(())
    }

    /// Begins to join under a new connection.
    pub(crate) fn connect(&mut self, conn: u32) -> Result<(), OutOfMemory>
        ensures { OnOk result (self.new ≡ joining conn self.old) }
    {
        self.conns.push(conn)?;
        self.link = Link::Joining { conn };
        self.next = 1;
        Ok(())
    }

    /// Goes offline; the messages that it didn't send are gone.
    pub(crate) fn drop_link(&mut self)
        ensures { self.new ≡ dropped self.old }
    {
        self.link = Link::Offline;
        self.queue.clear();
    }

    /// How many messages it hasn't sent yet.
    pub(crate) fn queued(&self) -> u64
        ensures { result ≡ length self.now.queue }
    {
        self.queue.len() as u64
    }

    /// Takes its oldest message that isn't sent yet: None exactly where there is none.
    pub(crate) fn take_outgoing(&mut self) -> Option<MapDraft>
        ensures oldest { result ≡ slice_get self.old.queue 0 }
        ensures rest { self.new ≡ record self.old { queue = drop 1 self.old.queue } }
    {
        self.queue.pop_front()
    }

    /// Processes a message.
    pub(crate) fn process(&mut self, e: &MapEntry) -> Result<(), OutOfMemory>
        ensures { OnOk result (self.new ≡ after_entry self.old e.now) }
    {
        let joins = is_own_join(self.link, &e.entry.msg.kind, e.entry.origin);
        self.take_message(e)?;
        if joins {
            return self.come_online(e.entry.origin);
        }
        Ok(())
    }

    // Takes a message's operation and its numbers.
    fn take_message(&mut self, e: &MapEntry) -> Result<(), OutOfMemory>
        ensures { OnOk result (self.new ≡ after_message e.now self.old) }
    {
        let own = self.is_own(&e.entry);
        take_op(&mut self.state, own, &e.op)?;
        self.seq = e.entry.msg.seq;
        self.min = e.entry.msg.min;
        Ok(())
    }

    // Whether the entry comes from one of its connections.
    fn is_own(&self, entry: &Entry) -> bool
        ensures { result ≡ is_own self.now entry.now }
    {
        self.conns.contains(&entry.origin)
    }

    // Its connection is there: all its pending operations are queued again.
    fn come_online(&mut self, conn: u32) -> Result<(), OutOfMemory>
        ensures { OnOk result (self.new ≡ online conn self.old) }
    {
        let next = self.state.pending().checked_add(1).ok_or(OutOfMemory)?;
        self.queue.clear();
        queue_drafts(&mut self.queue, self.alloc, &self.state, self.seq)?;
        self.link = Link::Online { conn };
        self.next = next;
        Ok(())
    }
}

// Whether it is the join of the connection under which a client with this link joins.
fn is_own_join(link: Link, kind: &MsgKind, origin: u32) -> bool
    ensures { result ≡ is_own_join link kind.now origin }
{
    match (link, kind) {
        (Link::Joining { conn }, MsgKind::Join) => conn == origin,
        _ => false,
    }
}

// Takes the operation of a message, if it has one: an own one is the oldest that is pending.
fn take_op(state: &mut SharedMap, own: bool, op: &Option<MapOp>) -> Result<(), OutOfMemory>
    ensures { OnOk result (state.new ≡ after_op own op.now state.old) }
{
    match op {
        None => Ok(()),
        Some(_) if own => acknowledge(state),
        Some(op) => state.apply(op),
    }
}

// The oldest pending operation, if there is one, has become sequenced.
fn acknowledge(state: &mut SharedMap) -> Result<(), OutOfMemory>
    ensures { OnOk result (state.new ≡ acknowledged state.old.acked state.old.pending) }
{
    if state.pending() == 0 {
        return Ok(());
    }
    state.ack()
}

// The message of an operation.
//
// Returns `OutOfMemory` where there is no room for it.
fn draft_of(alloc: Global, n: u64, ref_seq: u64, op: &MapOp) -> Result<MapDraft, OutOfMemory>
    ensures { IfOk result (λ d. d ≡ draft_of n ref_seq op.now) }
{
    let form = Text::new(alloc, "map")?;
    let op = op.copy()?;
    let draft = Draft {
        client_seq: n,
        ref_seq,
        body: Body::Elsewhere(form),
    };
    Ok(MapDraft { draft, op })
}

// The messages with those of all pending operations behind them, numbered from 1.
//
// Returns `OutOfMemory` where there is no room for them.
fn queue_drafts(
    drafts: &mut VecDeque<MapDraft>,
    alloc: Global,
    state: &SharedMap,
    ref_seq: u64,
) -> Result<(), OutOfMemory>
    ensures { OnOk result (drafts.new.items ≡ drafts.old.items ++ drafts_from 1 ref_seq state.now.pending) }
{
    let mut next: u64 = 1;
    for op in state.operations() {
        queue_draft(drafts, alloc, next, ref_seq, op)?;
        next = next.checked_add(1).ok_or(OutOfMemory)?;
    }
    Ok(())
}

// The messages with the one of an operation behind them.
//
// Returns `OutOfMemory` where there is no room for it.
fn queue_draft(
    drafts: &mut VecDeque<MapDraft>,
    alloc: Global,
    n: u64,
    ref_seq: u64,
    op: &MapOp,
) -> Result<(), OutOfMemory>
    ensures { OnOk result (drafts.new.items ≡ drafts.old.items ++ draft_of n ref_seq op.now ∷ []) }
{
    drafts.reserve(1)?;
    let draft = draft_of(alloc, n, ref_seq, op)?;
    drafts.push_back_reserved(draft);
    Ok(())
}
