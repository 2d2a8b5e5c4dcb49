//! What a client asks of its document.

ghost use Rattle.std.specs.Prelude.{◌≡◌, max};

use ft_attrib::Attribution;
use ft_base::{OutOfMemory, Steps, Text};
use ft_msg::{EditFault, Entry, Numbers, View};
use ft_op::ChannelOp;
use ft_sumdoc::{IntervalRec, SumDoc, Texts};
use std::alloc::Global;
use std::collections::VecDeque;
use std::sync::ledger::Ledger;

/// The numbers of a document.
#[derive(Clone, Copy, Debug, PartialEq, Eq)]
pub struct OwnNumbers {
    /// The last number.
    pub number: u64,
    /// The last minimum.
    pub minimum: u64,
    /// How many sub-operations were out of range.
    pub skipped: u64,
    /// How many messages were for another address.
    pub other: u64,
    /// How many elements were ever in the text, those that are pending included.
    pub text: u64,
    /// How many were ever in the rows.
    pub rows: u64,
    /// How many were ever in the columns.
    pub cols: u64,
}

impl OwnNumbers {
    /// The greatest of the counts of elements.
    pub fn most(&self) -> u64
        ensures { result ≡ max self.now.text (max self.now.rows self.now.cols) }
    {
        self.text.max(self.rows.max(self.cols))
    }
}

/// A pending edit as it is sent again.
#[derive(Drop)]
pub struct Resent {
    /// Its operation, None exactly where it has no piece.
    pub op: Option<ChannelOp>,
    /// How many of its stages go on.
    pub stages: usize,
}

/// A document with its pending stages, as a client keeps it. Contracts see what it shows, with places for
/// the names of elements, and for which documents of the definitions it stands, whose elements have names.
/// Each clause is about every document that it holds and in which the names fit. What a caller must know is
/// that it holds the document and the stages of some client that steps made, or that keeps one which they
/// made: all laws of such clients may be relied on.
///
/// After `OutOfMemory` in a call that changes it nothing is said of it any more, and nothing but its drop
/// may follow; after a refusal it holds what it held.
pub trait OwnDocument: Sized + Drop {
    ghost use Rattle.std.specs.Prelude.{◌≡◌, ◌+◌, ◌++◌, ◌<◌, ◌≤◌, ◌^◌, ℕ, Bool, [], List, None, IfOk, OnOk, IsTrue, flat_map, length, map};
    ghost use Rattle.ft_op.specs.Document.{empty};
    ghost use Rattle.ft_op.specs.Operation.{sub_operations};
    ghost use Rattle.ft_op.specs.Stages.{Stage};
    ghost use Rattle.ft_op.specs.WellFormed.{IsWellFormed};
    ghost use Rattle.ft_sumdoc.specs.Valid.{IsValidSummary};
    ghost use Rattle.ft_msg.specs.Agreed.{with_numbers};
    ghost use Rattle.ft_msg.specs.Answers.{view_content};
    ghost use Rattle.ft_msg.specs.Blame.{blame};
    ghost use Rattle.ft_msg.specs.Client.{NaiveClient, floor, local_sub_operations, stages_of};
    ghost use Rattle.ft_msg.specs.Content.{content};
    ghost use Rattle.ft_msg.specs.Overlap.{overlap};
    ghost use Rattle.ft_msg.specs.Process.{process_fault};
    ghost use Rattle.ft_msg.specs.Summary.{doc_of};
    ghost use Rattle.ft_msg.specs.SummaryOf.{summary_of};
    ghost use Rattle.ft_msg.specs.WellFormed.{IsWellFormedMessage};
    ghost use Rattle.ft_laws_names.specs.WellNamed.{IsWellNamed};
    ghost use Rattle.ft_laws_summaries.specs.Summaries.{IsSmall};
    ghost use Rattle.ft_replica.specs.Own.{
      AnswersStages,
      Compacts,
      HasNoTombstone,
      HeldDocument,
      HoldsOne,
      NamesFit,
      ReadsFew,
      ReadsFewNodesFor,
      ReadsFewOfLabelFor,
      ShownDocument,
      Shows,
      acknowledged,
      held_by,
      numbers_in,
      oldest_stages,
      rejoined,
      resent,
      with_entry,
    };

    /// What it shows.
    ghost shown: { Self → ShownDocument };

    /// It holds that document of the definitions.
    ghost holds: { Self → HeldDocument → Type 0 };

    /// Whether it keeps the bounds on the reads of an edit, and of a question which intervals meet a range.
    ghost COUNTS: { Bool };

    ghost COMPACTS: { Bool };

    /// Whether `compact` takes away everything that nobody can see any more.
    const COMPACTS: bool;

    /// The empty document at number 0.
    fn start(alloc: Global) -> Result<Self, OutOfMemory>
        ensures { IfOk result (λ d. holds d (record { doc = empty; stages = []; last = 0; low = 0 })) };

    /// The document of a summary.
    fn from_summary(alloc: Global, sum: &SumDoc) -> Result<Self, OutOfMemory>
        requires { IsValidSummary sum.now }
        ensures { IfOk result (λ d. holds d (record { doc = doc_of sum.now; stages = []; last = 0; low = sum.now.min })) };

    /// The last number.
    fn number(&self) -> u64
        ensures told { result ≡ (shown self.now).content.number }
        ensures small { result < 2 ^ 53 };

    /// The last minimum.
    fn minimum(&self) -> u64
        ensures told { result ≡ (shown self.now).content.minimum }
        ensures small { result < 2 ^ 53 };

    /// All its numbers.
    fn numbers(&self) -> OwnNumbers
        ensures { result ≡ numbers_in (shown self.now) };

    /// Takes an edit of the client's own as pending stages behind the last one, and tells how many.
    ///
    /// Returns the refusal of the first sub-operation that can't be taken, never `Stopped`; and
    /// `OutOfMemory` where there is no room, or a count would pass its greatest number.
    ///
    /// Where `COUNTS`, each read of a node by which it searches for a place is a step, and a single insertion of
    /// units, of a marker or of at most 256 characters takes few of them.
    fn edit<G: Ledger>(
        &mut self,
        last: u64,
        op: &ChannelOp,
        steps: &mut Steps<G>,
    ) -> Result<usize, EditFault>
        requires formed { IsWellFormed op.now }
        requires known { HoldsOne holds self.old (λ p. p.last_stage ≡ last) }
        ensures answers { (held : HeldDocument) → NamesFit held → held.last ≡ last → holds self.old held
            → AnswersStages (holds self.new) held (local_sub_operations held.doc held.stages (last + 1) (sub_operations op.now)) result }
        ensures reads { IsTrue COUNTS → ReadsFew op.now (shown self.old).content steps.old steps.new };

    /// Takes the next message, which comes from another client or has no operation.
    ///
    /// Returns `OutOfMemory` where there is no room, or a count would pass its greatest number.
    fn take(&mut self, entry: &Entry) -> Result<(), OutOfMemory>
        requires formed { IsWellFormedMessage entry.now.msg }
        requires known { HoldsOne holds self.old (λ p. process_fault p entry.now ≡ None) }
        ensures { (held : HeldDocument) → NamesFit held → holds self.old held → OnOk result (holds self.new (with_entry entry.now held)) };

    /// Takes the next message, which is the client's own: its first `count` stages, those of its oldest pending edit, become
    /// sequenced.
    ///
    /// Returns `OutOfMemory` where there is no room, or a count would pass its greatest number.
    fn take_own(&mut self, count: usize, entry: &Entry) -> Result<(), OutOfMemory>
        requires formed { IsWellFormedMessage entry.now.msg }
        requires known { HoldsOne holds self.old (λ p. (process_fault p entry.now ≡ None) × (count ≤ length (stages_of p)) × (length (oldest_stages p.pending) ≡ count)) }
        ensures { (held : HeldDocument) (own rest : List Stage) → NamesFit held → held.stages ≡ own ++ rest → length own ≡ count → holds self.old held
            → OnOk result (holds self.new (acknowledged entry.now own rest held)) };

    /// Takes the next message, which is the client's own join: its pending edits, which have so many stages
    /// each, go on as they are sent again, and their elements are put in afresh.
    ///
    /// Returns `OutOfMemory` where there is no room, or a count would pass its greatest number.
    fn rejoin(&mut self, counts: &[usize], entry: &Entry) -> Result<VecDeque<Resent>, OutOfMemory>
        requires formed { IsWellFormedMessage entry.now.msg }
        requires known { HoldsOne holds self.old (λ p. (process_fault p entry.now ≡ None) × (map (λ e. length e.stages) p.pending ≡ counts.now)) }
        ensures { (held : HeldDocument) (edits : List (List Stage)) → NamesFit held → held.stages ≡ flat_map (λ stages. stages) edits
            → map (λ stages. length stages) edits ≡ counts.now → holds self.old held
            → IfOk result (λ v. (v.items ≡ map (resent (with_numbers entry.now held.doc)) edits) × holds self.new (rejoined entry.now held)) };

    /// All that is shown at the last stage, with these numbers.
    fn view(&self, last: u64, numbers: Numbers) -> Result<View, OutOfMemory>
        requires { HoldsOne holds self.now (λ p. p.last_stage ≡ last) }
        ensures numbers { IfOk result (λ v. v.numbers ≡ numbers) }
        ensures content { (low : ℕ) (p : NaiveClient) → IsWellNamed p → p.last_stage ≡ last → holds self.now (held_by low p)
            → IfOk result (λ v. view_content v ≡ content p) };

    /// Who inserted each element of the text that is shown at the last stage.
    fn origins(&self, last: u64) -> Result<Attribution, OutOfMemory>
        requires { HoldsOne holds self.now (λ p. p.last_stage ≡ last) }
        ensures { (low : ℕ) (p : NaiveClient) → IsWellNamed p → p.last_stage ≡ last → holds self.now (held_by low p)
            → IfOk result (λ origins. origins ≡ blame p) };

    /// The intervals of the label that are shown at the last stage and meet the places from `a` to `b`, by rising id.
    ///
    /// Where `COUNTS`, each read of a node of an index of intervals is a step, and it takes few of them for each
    /// interval that is found or pending, and once more.
    fn overlapping<G: Ledger>(
        &self,
        last: u64,
        label: &Text,
        a: u64,
        b: u64,
        steps: &mut Steps<G>,
    ) -> Result<Vec<IntervalRec>, OutOfMemory>
        requires order { a ≤ b }
        requires known { HoldsOne holds self.now (λ p. p.last_stage ≡ last) }
        ensures found { (low : ℕ) (p : NaiveClient) → IsWellNamed p → p.last_stage ≡ last → holds self.now (held_by low p)
            → IfOk result (λ found. found.items ≡ overlap p label.now a b) }
        ensures reads { IsTrue COUNTS → (low : ℕ) (p : NaiveClient) → IsWellNamed p → p.last_stage ≡ last → holds self.now (held_by low p)
            → ReadsFewNodesFor p label.now a b steps.old steps.new }

        // They are those of an index of the label's intervals alone.
        ensures labelled { IsTrue COUNTS → (low : ℕ) (p : NaiveClient) → IsWellNamed p → p.last_stage ≡ last → holds self.now (held_by low p)
            → ReadsFewOfLabelFor p label.now a b steps.old steps.new };

    /// The summary of the document, which has nothing pending, with these names of connections.
    ///
    /// Returns `OutOfMemory` where there is no room for it, or it is too long for a summary.
    fn summary(&self, conns: Texts) -> Result<SumDoc, OutOfMemory>
        requires { HoldsOne holds self.now (λ p. p.pending ≡ []) }
        ensures sum { (held : HeldDocument) → NamesFit held → held.stages ≡ [] → holds self.now held
            → IfOk result (λ sum. sum ≡ summary_of conns held.doc) }
        ensures small { (held : HeldDocument) → NamesFit held → holds self.now held → OnOk result (IsSmall held.doc) };

    /// Takes away all elements that were removed at or below the floor `seq`, where `COMPACTS`.
    fn compact(&mut self, seq: u64) -> Result<(), OutOfMemory>
        requires { HoldsOne holds self.old (λ p. floor p ≡ seq) }
        ensures compacts { (low : ℕ) (p : NaiveClient) → IsWellNamed p → floor p ≡ seq → holds self.old (held_by low p) → OnOk result (Compacts holds self.new p) }
        ensures full { IsTrue COMPACTS → OnOk result (HasNoTombstone seq (shown self.new).content) };

    /// May take away some of them, little by little as messages raise the floor.
    fn tidy(&mut self, seq: u64) -> Result<(), OutOfMemory>
        requires { HoldsOne holds self.old (λ p. floor p ≡ seq) }
        ensures { (low : ℕ) (p : NaiveClient) → IsWellNamed p → floor p ≡ seq → holds self.old (held_by low p) → OnOk result (Compacts holds self.new p) };

    /// What it shows is what it holds.
    ghost shows: { (d : Self) (held : HeldDocument) → holds d held → Shows (shown d) held };
}
