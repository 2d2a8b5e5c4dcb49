//! What every implementation of a client promises.

use crate::faults::{EditFault, LinkFault, ProcessFault, SummaryFault, ViewFault};
use crate::messages::{Draft, Entry};
use crate::names::Names;
use crate::views::{Numbers, View};
use ft_attrib::Attribution;
use ft_base::{OutOfMemory, Text};
use ft_op::ChannelOp;
use ft_sumdoc::meeting::meeting;
use ft_sumdoc::{IntervalRec, SumDoc};
use std::alloc::Global;

/// A client: an implementation with trees, or with plain lists. Contracts see it as a client that may
/// have taken away what nobody can see any more. It stands for naive clients, and answers each step
/// as they do.
///
/// The first call that changes it and finds no memory stops it for good. Every later change is then
/// refused with `Stopped`, which is tested before every other refusal, and so is everything that it
/// would show; `queued`, `queue_at`, `numbers` and `take_outgoing` go on answering by the state before
/// that call.
pub trait Replica: Sized {
    ghost use Rattle.std.specs.Prelude.{◌≡◌, ◌≤◌, Bool, IfOk, OnOk, Ok, IsTrue, Some, length, drop, slice_get, option_copied};
    ghost use Rattle.ft_op.specs.Document.{Document, empty};
    ghost use Rattle.ft_op.specs.WellFormed.{IsWellFormed};
    ghost use Rattle.ft_msg.specs.Answers.{Answers, AnswersRead, AnswersSummary, IsFullyCompacted, ReplicaState, RunsFor, StandsForSome, StartsOver, edit_fault_kind, link_fault_kind, numbers_of, process_fault_kind, view_content, view_fault_kind, with_queue};
    ghost use Rattle.ft_msg.specs.Blame.{blame};
    ghost use Rattle.ft_msg.specs.Client.{client_over, connect, drop_link, local_edit, noop};
    ghost use Rattle.ft_msg.specs.Content.{content};
    ghost use Rattle.ft_msg.specs.Overlap.{overlap};
    ghost use Rattle.ft_msg.specs.Process.{process};
    ghost use Rattle.ft_msg.specs.Reached.{IsReached};
    ghost use Rattle.ft_msg.specs.Summary.{GivesDocument, doc_of};
    ghost use Rattle.ft_sumdoc.specs.Valid.{IsValidSummary};
    ghost use Rattle.ft_msg.specs.WellFormed.{IsWellFormedDraft, IsWellFormedMessage};

    /// What contracts see.
    ghost state: { Self → ReplicaState };

    ghost COMPACTS: { Bool };

    /// Whether `compact` takes away everything that nobody can see any more.
    const COMPACTS: bool;

    /// An offline client at number 0 with an empty document.
    fn start(alloc: Global) -> Result<Self, OutOfMemory>
        ensures { IfOk result (λ r. StartsOver (state r) empty 0) };

    /// An offline client over the document of a summary, at its numbers. It stands for a client over
    /// each document whose summary it is.
    fn from_summary(alloc: Global, doc: &SumDoc) -> Result<Self, OutOfMemory>
        requires { IsValidSummary doc.now }
        ensures starts { IfOk result (λ r. StartsOver (state r) (doc_of doc.now) (length doc.now.conns)) }
        ensures stands { (whole : Document) → IsReached (client_over whole) → GivesDocument doc.now whole
            → IfOk result (λ r. RunsFor (state r) (client_over whole)) };

    /// Takes an edit of the client's own, which shows at once; online it also queues its draft.
    ///
    /// Returns `IdInUse` exactly where a new interval's id is in its label; `NoSuchInterval` exactly
    /// where the id of a changed or deleted one isn't; `OutOfRange` exactly where a position isn't
    /// allowed, each sub-operation in the view that the ones before it leave; and `OutOfMemory` where
    /// there is no room, after which the client has stopped.
    fn edit(&mut self, op: &ChannelOp) -> Result<(), EditFault>
        requires { IsWellFormed op.now }
        ensures { Answers edit_fault_kind 0 (λ x. local_edit x op.now) (state self.old) (state self.new) result };

    /// Processes the next message.
    ///
    /// Returns `OutOfOrder` exactly where it isn't the next one; then `BadNumbers` exactly where its
    /// reference number or its minimum contradicts what the client keeps; then `NotSent` exactly where
    /// it comes from one of the client's connections and isn't the oldest pending edit as it was sent;
    /// and `OutOfMemory` where there is no room, after which the client has stopped.
    fn process(&mut self, entry: &Entry) -> Result<(), ProcessFault>
        requires { IsWellFormedMessage entry.now.msg }
        ensures { Answers process_fault_kind entry.now.origin (λ x. process x entry.now) (state self.old) (state self.new) result };

    /// Begins to join under a new connection.
    ///
    /// Returns `AlreadyConnected` exactly where the client isn't offline, and `OutOfMemory` where there
    /// is no room, after which the client has stopped.
    fn connect(&mut self, conn: u32) -> Result<(), LinkFault>
        ensures { Answers link_fault_kind 0 (λ x. connect x conn) (state self.old) (state self.new) result };

    /// Goes offline; the drafts that it didn't send are gone.
    ///
    /// Returns `NotConnected` exactly where the client is offline.
    fn drop_link(&mut self) -> Result<(), LinkFault>
        ensures answers { Answers link_fault_kind 0 drop_link (state self.old) (state self.new) result }
        ensures memory { ¬ (result ≡ Err LinkFault.OutOfMemory) };

    /// Queues a draft that tells the client's number alone.
    ///
    /// Returns `NotConnected` exactly where the client isn't online, and `OutOfMemory` where there is no
    /// room, after which the client has stopped.
    fn noop(&mut self) -> Result<(), LinkFault>
        ensures { Answers link_fault_kind 0 noop (state self.old) (state self.new) result };

    /// How many drafts aren't sent yet.
    fn queued(&self) -> usize
        ensures { result ≡ length (state self.now).client.queue };

    /// The draft at place `i` of those, counted from 0: None exactly where `i` isn't below their count.
    fn queue_at(&self, i: usize) -> Option<&Draft>
        ensures { option_copied result ≡ slice_get (state self.now).client.queue i };

    /// The numbers.
    ///
    /// A replica that hasn't stopped stands for some client that steps made.
    fn numbers(&self) -> Numbers
        ensures numbers { result ≡ numbers_of (state self.now) }
        ensures stands { StandsForSome (state self.now) };

    /// Takes the oldest draft that isn't sent yet, which is well formed: None exactly where there is none.
    fn take_outgoing(&mut self) -> Option<Draft>
        ensures oldest { result ≡ slice_get (state self.old).client.queue 0 }
        ensures rest { state self.new ≡ with_queue (drop 1 (state self.old).client.queue) (state self.old) }
        ensures formed { (draft : Draft) → result ≡ Some draft → IsWellFormedDraft draft };

    /// What the client shows.
    ///
    /// Returns `Stopped` exactly where the client has stopped, and `OutOfMemory` where there is no room
    /// for the view.
    fn view(&self) -> Result<View, ViewFault>
        ensures numbers { IfOk result (λ v. v.numbers ≡ numbers_of (state self.now)) }
        ensures content { AnswersRead (λ v x. view_content v ≡ content x) (state self.now) result };

    /// The summary of the client's document, with the names of the connections in it.
    ///
    /// Returns `Stopped` exactly where the client has stopped; then `Pending` exactly where edits are
    /// pending; and `OutOfMemory` where there is no room for the summary.
    fn summary(&self, names: &Names) -> Result<SumDoc, SummaryFault>
        requires { (state self.now).origin ≤ length names.now }
        ensures { AnswersSummary names.now (state self.now) result };

    /// Takes away what nobody can see any more, which changes nothing that the client shows.
    ///
    /// Returns `OutOfMemory` where there is no room, after which the client has stopped.
    fn compact(&mut self) -> Result<(), ViewFault>
        ensures answers { Answers view_fault_kind 0 (λ x. Ok x) (state self.old) (state self.new) result }
        ensures full { IsTrue COMPACTS → OnOk result (IsFullyCompacted (state self.new).client) };

    /// Who inserted each visible character of the text and each visible marker, in order.
    ///
    /// Returns `Stopped` exactly where the client has stopped, and `OutOfMemory` where there is no room
    /// for them.
    fn attribution(&self) -> Result<Attribution, ViewFault>
        ensures { AnswersRead (λ origins x. origins ≡ blame x) (state self.now) result };

    /// The shown intervals of the label that meet the places from `a` to `b`, by rising id.
    ///
    /// Returns `Stopped` exactly where the client has stopped, and `OutOfMemory` where there is no room
    /// for them.
    fn overlapping(&self, label: &Text, a: u64, b: u64) -> Result<Vec<IntervalRec>, ViewFault>
        requires { a ≤ b }
        ensures { AnswersRead (λ found x. found.items ≡ overlap x label.now a b) (state self.now) result }
    {
        let view = self.view()?;
        let alloc = view.intervals.allocator();
        Ok(meeting(alloc, view.intervals.as_slice(), label, a, b)?)
    }
}
