//! What a client hasn't sent yet.

ghost use Rattle.std.specs.Prelude.{◌≡◌, ◌+◌, ◌<◌, [], ◌∷◌, ◌++◌, IsTrue, OnOk, OnErr, Some, drop, length, slice_get, option_copied};
ghost use Rattle.std.specs.VecDeque.{deque_capacity, deque_len};
ghost use Rattle.ft_op.specs.WellFormed.{is_count};
ghost use Rattle.ft_msg.specs.WellFormed.{IsWellFormedBody, IsWellFormedDraft};
ghost use Rattle.ft_replica.specs.Unsent.{IsNextSent, with_sent};

use crate::pending::Sent;
use ft_base::moved::push_reserved;
use ft_base::{Datum, OutOfMemory};
use ft_msg::{Body, Draft};
use ft_op::is_count;
use std::alloc::Global;
use std::collections::VecDeque;
use std::marker::Model;

/// The drafts that aren't sent yet, which are well formed, and the client sequence number of the next one.
#[derive(Drop)]
pub struct Outbox {
    next: u64,
    drafts: VecDeque<Draft>,
}

impl Model for Outbox {
    ghost use Rattle.std.specs.List.{AllByRecursion};
    ghost use Rattle.ft_msg.specs.WellFormed.{IsWellFormedDraft};
    ghost use Rattle.ft_replica.specs.Unsent.{Unsent};

    ghost Value = { Unsent };

    ghost view = { λ a. record { next = a.next; drafts = a.drafts.items } };

    ghost invariant = { λ a. AllByRecursion IsWellFormedDraft a.drafts.items };
}

impl Outbox {
    /// No drafts, before the first one.
    pub fn new(alloc: Global) -> Outbox
        ensures { result ≡ record { next = 1; drafts = [] } }
    {
        Outbox {
            next: 1,
            drafts: VecDeque::new(alloc),
        }
    }

    /// The client sequence number of the next draft.
    pub fn next(&self) -> u64
        ensures { result ≡ self.now.next }
    {
        self.next
    }

    /// Numbers from 1 again.
    pub fn restart(&mut self)
        ensures { self.new ≡ record self.old { next = 1 } }
    {
        self.next = 1;
    }

    /// Takes all drafts away.
    pub fn clear(&mut self)
        ensures { self.new ≡ record self.old { drafts = [] } }
    {
        self.drafts.clear();
    }

    /// Adds a draft behind the others, which has the next number.
    ///
    /// Returns `OutOfMemory` where there is no room for it or its number would pass 2^53 - 1, and then nothing
    /// changed.
    pub fn push(&mut self, draft: Draft) -> Result<(), OutOfMemory>
        requires number { draft.client_seq ≡ self.old.next }
        requires ref_seq { IsTrue (is_count draft.ref_seq) }
        requires body { IsWellFormedBody draft.body }
        ensures ok { OnOk result (self.new ≡ record { next = self.old.next + 1; drafts = self.old.drafts ++ draft ∷ [] }) }
        ensures err { OnErr result (self.new ≡ self.old) }
    {
        let counted = count_one(&mut self.next, &mut self.drafts);
        push_reserved(counted, &mut self.drafts, draft)
    }

    /// Adds the draft of an edit behind the others, if it is sent.
    ///
    /// Returns `OutOfMemory` where there is no room for it or its number would pass 2^53 - 1, and then nothing
    /// changed.
    pub fn send(&mut self, sent: &Option<Sent>, ref_seq: u64) -> Result<(), OutOfMemory>
        requires sent { IsNextSent sent.now self.old }
        requires ref_seq { IsTrue (is_count ref_seq) }
        ensures ok { OnOk result (self.new ≡ with_sent sent.now ref_seq self.old) }
        ensures err { OnErr result (self.new ≡ self.old) }
    {
        match sent {
            Some(sent) => self.push(Draft {
                client_seq: sent.client_seq(),
                ref_seq,
                body: Body::Op(sent.op().copy()?),
            }),
            None => Ok(()),
        }
    }

    /// How many there are.
    pub fn len(&self) -> usize
        ensures { result ≡ length self.now.drafts }
    {
        self.drafts.len()
    }

    /// The one at place `i`, counted from 0: None exactly where `i` isn't below their count.
    pub fn at(&self, i: usize) -> Option<&Draft>
        ensures { option_copied result ≡ slice_get self.now.drafts i }
    {
        self.drafts.get(i)
    }

    /// Takes the oldest one, which is well formed: None exactly where there is none.
    pub fn take(&mut self) -> Option<Draft>
        ensures oldest { result ≡ slice_get self.old.drafts 0 }
        ensures rest { self.new ≡ record self.old { drafts = drop 1 self.old.drafts } }
        ensures formed { (draft : Draft) → result ≡ Some draft → IsWellFormedDraft draft }
    {
        self.drafts.pop_front()
    }
}

// Makes room for one more draft, and counts it.
//
// Returns `OutOfMemory` where there is no room for it or its number would pass 2^53 - 1, and then it isn't counted.
fn count_one(next: &mut u64, drafts: &mut VecDeque<Draft>) -> Result<(), OutOfMemory>
    ensures kept { drafts.new.items ≡ drafts.old.items }
    ensures room { OnOk result (deque_len drafts.new < deque_capacity drafts.new) }
    ensures count { OnOk result (IsTrue (is_count next.old)) }
    ensures next { OnOk result (next.new ≡ next.old + 1) }
    ensures err { OnErr result (next.new ≡ next.old) }
{
    if !is_count(*next) {
        return Err(OutOfMemory);
    }
    drafts.reserve(1)?;
    *next += 1;
    Ok(())
}
