//! What a client shows.

ghost use Rattle.std.specs.Prelude.{◌≡◌, ◌≤◌, IfOk, IsTrue, ℕ, OnOk, []};
ghost use Rattle.ft_msg.specs.Answers.{view_content};
ghost use Rattle.ft_msg.specs.Blame.{blame};
ghost use Rattle.ft_msg.specs.Client.{NaiveClient};
ghost use Rattle.ft_msg.specs.Content.{content};
ghost use Rattle.ft_msg.specs.Overlap.{overlap};
ghost use Rattle.ft_msg.specs.SummaryOf.{summary_of};
ghost use Rattle.ft_laws_names.specs.WellNamed.{IsWellNamed};
ghost use Rattle.ft_laws_summaries.specs.Summaries.{IsSmall};
ghost use Rattle.ft_replica.specs.Linked.{Anyone, IsLinkedAs, RunsForOne};
ghost use Rattle.ft_replica.specs.Own.{ReadsFewNodesFor, ReadsFewOfLabelFor};

use crate::document::OwnDocument;
use crate::linked::LinkedClient;
use ft_attrib::Attribution;
use ft_base::{OutOfMemory, Steps, Text};
use ft_msg::{Numbers, View};
use ft_sumdoc::{IntervalRec, SumDoc, Texts};
use std::sync::ledger::Ledger;

impl<D: OwnDocument> LinkedClient<D> {
    /// All that it shows, with these numbers.
    pub fn view(&self, numbers: Numbers) -> Result<View, OutOfMemory>
        requires { RunsForOne D.holds self.now Anyone }
        ensures numbers { IfOk result (λ v. v.numbers ≡ numbers) }
        ensures content { (low : ℕ) (p : NaiveClient) → IsWellNamed p → IsLinkedAs D.holds low self.now p → IfOk result (λ v. view_content v ≡ content p) }
    {
        self.doc.view(self.last_stage, numbers)
    }

    /// Who inserted each visible element of the text.
    pub fn origins(&self) -> Result<Attribution, OutOfMemory>
        requires { RunsForOne D.holds self.now Anyone }
        ensures { (low : ℕ) (p : NaiveClient) → IsWellNamed p → IsLinkedAs D.holds low self.now p → IfOk result (λ origins. origins ≡ blame p) }
    {
        self.doc.origins(self.last_stage)
    }

    /// The shown intervals of the label that meet the places from `a` to `b`, by rising id.
    pub fn overlapping<G: Ledger>(
        &self,
        label: &Text,
        a: u64,
        b: u64,
        steps: &mut Steps<G>,
    ) -> Result<Vec<IntervalRec>, OutOfMemory>
        requires order { a ≤ b }
        requires known { RunsForOne D.holds self.now Anyone }
        ensures found { (low : ℕ) (p : NaiveClient) → IsWellNamed p → IsLinkedAs D.holds low self.now p → IfOk result (λ found. found.items ≡ overlap p label.now a b) }
        ensures reads { IsTrue D.COUNTS → (low : ℕ) (p : NaiveClient) → IsWellNamed p → IsLinkedAs D.holds low self.now p
            → ReadsFewNodesFor p label.now a b steps.old steps.new }
        ensures labelled { IsTrue D.COUNTS → (low : ℕ) (p : NaiveClient) → IsWellNamed p → IsLinkedAs D.holds low self.now p
            → ReadsFewOfLabelFor p label.now a b steps.old steps.new }
    {
        self.doc.overlapping(self.last_stage, label, a, b, steps)
    }

    /// The summary of its document, with these names of connections.
    ///
    /// Returns `OutOfMemory` where there is no room for it, or it is too long for a summary.
    pub fn summary(&self, conns: Texts) -> Result<SumDoc, OutOfMemory>
        requires { RunsForOne D.holds self.now (λ p. p.pending ≡ []) }
        ensures sum { (low : ℕ) (p : NaiveClient) → IsWellNamed p → p.pending ≡ [] → IsLinkedAs D.holds low self.now p → IfOk result (λ sum. sum ≡ summary_of conns p.doc) }
        ensures small { (low : ℕ) (p : NaiveClient) → IsWellNamed p → IsLinkedAs D.holds low self.now p → OnOk result (IsSmall p.doc) }
    {
        self.doc.summary(conns)
    }
}
