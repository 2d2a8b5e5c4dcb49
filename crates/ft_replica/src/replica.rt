//! The replica over any document.

ghost use Rattle.std.specs.Prelude.{◌≡◌, ◌<◌, ◌≤◌, ◌||◌, IfOk, IsTrue, None, length, take};
ghost use Rattle.ft_op.specs.WellFormed.{IsWellFormed};
ghost use Rattle.ft_msg.specs.Answers.{Answers, AnswersRead, edit_fault_kind};
ghost use Rattle.ft_msg.specs.Client.{NaiveClient, local_edit};
ghost use Rattle.ft_msg.specs.Compacted.{StandsFor};
ghost use Rattle.ft_msg.specs.NameTable.{AreDistinct};
ghost use Rattle.ft_msg.specs.Overlap.{overlap};
ghost use Rattle.ft_msg.specs.Reached.{IsReached};
ghost use Rattle.ft_replica.specs.Kept.{is_of_nobody};
ghost use Rattle.ft_replica.specs.Linked.{Anyone, RunsForOne};
ghost use Rattle.ft_replica.specs.Own.{ReadsFew, ReadsFewNodesFor, ReadsFewOfLabelFor};
ghost use Rattle.ft_replica.specs.Stopping.{AnswersOwn};

mod telling;

use crate::document::OwnDocument;
use crate::stopping::StoppingClient;
use ft_attrib::Attribution;
use ft_base::{OutOfMemory, Steps, Text};
use ft_msg::{
    Body, Draft, EditFault, Entry, LinkFault, Names, Numbers, ProcessFault, Replica, SummaryFault,
    View, ViewFault,
};
use ft_op::ChannelOp;
use ft_sumdoc::{IntervalRec, SumDoc, Texts};
use std::alloc::Global;
use std::marker::{Brand, Model};
use std::sync::ledger::{Blank, Ledger};

/// A client over a document of its own.
#[derive(Drop)]
pub struct ReplicaOver<D: OwnDocument> {
    client: StoppingClient<D>,
    /// Whether it took an operation of nobody: then no summary can tell whose it was.
    nameless: bool,
}

impl<D: OwnDocument> Model for ReplicaOver<D> {
    ghost use Rattle.ft_msg.specs.Answers.{ReplicaState};
    ghost use Rattle.ft_replica.specs.Kept.{Holds, state_of};

    ghost Value = { ReplicaState };

    ghost view = { λ a. state_of D.shown a.client };

    ghost invariant = { λ a. Holds D.holds a.client a.nameless };
}

impl<D: OwnDocument> Replica for ReplicaOver<D> {
    ghost state = { λ r. r };

    ghost COMPACTS = { D.COMPACTS };

    const COMPACTS: bool = D::COMPACTS;

    fn start(alloc: Global) -> Result<ReplicaOver<D>, OutOfMemory> {
        let doc = D::start(alloc)?;
        Ok(ReplicaOver {
            client: StoppingClient::over(alloc, doc, 0),
            nameless: false,
        })
    }

    fn from_summary(alloc: Global, doc: &SumDoc) -> Result<ReplicaOver<D>, OutOfMemory> {
        let count = doc.conns.len();
        if count > u32::MAX as usize {
            return Err(OutOfMemory);
        }
        let own = D::from_summary(alloc, doc)?;
        Ok(ReplicaOver {
            client: StoppingClient::over(alloc, own, count as u32),
            nameless: false,
        })
    }

    fn edit(&mut self, op: &ChannelOp) -> Result<(), EditFault> {
        edit_in::<D, Brand>(&mut self.client, op, Blank::new(1))
    }

    fn process(&mut self, entry: &Entry) -> Result<(), ProcessFault> {
        let answer = self.client.process(entry);
        if answer.is_ok() {
            self.nameless = is_nameless_after(self.nameless, entry);
        }
        answer
    }

    fn connect(&mut self, conn: u32) -> Result<(), LinkFault> {
        self.client.connect(conn)
    }

    fn drop_link(&mut self) -> Result<(), LinkFault> {
        self.client.drop_link()
    }

    fn noop(&mut self) -> Result<(), LinkFault> {
        self.client.noop()
    }

    fn queued(&self) -> usize {
        self.client.client().queued()
    }

    fn queue_at(&self, i: usize) -> Option<&Draft> {
        self.client.client().queue_at(i)
    }

    fn numbers(&self) -> Numbers {
        let own = self.client.numbers();
        let client = self.client.client();
        Numbers {
            seq: own.number,
            min: own.minimum,
            pending: client.pending() as u64,
            skipped: own.skipped,
            other: own.other,
            made: own.most(),
            link: client.link(),
        }
    }

    fn take_outgoing(&mut self) -> Option<Draft> {
        self.client.take_outgoing()
    }

    fn view(&self) -> Result<View, ViewFault> {
        if let Some(numbers) = self.client.stop() {
            return Err(ViewFault::Stopped {
                seq: numbers.number,
            });
        }
        Ok(self.client.client().view(self.numbers())?)
    }

    fn summary(&self, names: &Names) -> Result<SumDoc, SummaryFault> {
        if let Some(numbers) = self.client.stop() {
            return Err(SummaryFault::Stopped {
                seq: numbers.number,
            });
        }
        let count = self.client.client().pending() as u64;
        if count > 0 {
            return Err(SummaryFault::Pending { count });
        }
        if self.nameless {
            return Err(SummaryFault::OutOfMemory);
        }
        let Ok(conns) = first_names(names, self.client.origin()) else {
            return Err(SummaryFault::OutOfMemory);
        };
        match self.client.client().summary(conns) {
            Ok(sum) => Ok(sum),
            Err(_) => Err(SummaryFault::OutOfMemory),
        }
    }

    fn compact(&mut self) -> Result<(), ViewFault> {
        self.client.compact()
    }

    fn attribution(&self) -> Result<Attribution, ViewFault> {
        if let Some(numbers) = self.client.stop() {
            return Err(ViewFault::Stopped {
                seq: numbers.number,
            });
        }
        Ok(self.client.client().origins()?)
    }

    fn overlapping(&self, label: &Text, a: u64, b: u64) -> Result<Vec<IntervalRec>, ViewFault> {
        overlapping_in::<D, Brand>(self, label, a, b, Blank::new(1))
    }
}

impl<D: OwnDocument> ReplicaOver<D> {
    /// `edit` with a counter. Where the document counts, each read of a node by which it searches for a place is a
    /// step, and a single insertion of units, of a marker or of at most 256 characters takes at most 9 for each level
    /// of the tree and 9 more.
    pub fn edit_counted<G: Ledger>(
        &mut self,
        op: &ChannelOp,
        steps: &mut Steps<G>,
    ) -> Result<(), EditFault>
        requires { IsWellFormed op.now }
        ensures answers { Answers edit_fault_kind 0 (λ x. local_edit x op.now) self.old self.new result }
        ensures reads { IsTrue D.COUNTS → self.old.stop ≡ None → ReadsFew op.now self.old.client.doc steps.old steps.new }
    {
        self.client.edit(op, steps)
    }

    /// `overlapping` with a counter. Where the document counts, each read of a node of an index of intervals is a
    /// step. With `k` intervals found, `m` pending operations on intervals and `n` acknowledged intervals of the label it
    /// takes at most 9 * (d + 1) * (k + m + 1) of them, for a depth d with 4^d <= n + 1.
    ///
    /// Returns `Stopped` exactly where the client has stopped, and `OutOfMemory` where there is no room for the
    /// intervals.
    pub fn overlapping_counted<G: Ledger>(
        &self,
        label: &Text,
        a: u64,
        b: u64,
        steps: &mut Steps<G>,
    ) -> Result<Vec<IntervalRec>, ViewFault>
        requires { a ≤ b }
        ensures answers { AnswersRead (λ found x. found.items ≡ overlap x label.now a b) self.now result }
        ensures reads { IsTrue D.COUNTS → self.now.stop ≡ None → (x : NaiveClient) → IsReached x → StandsFor self.now.client x
            → ReadsFewNodesFor x label.now a b steps.old steps.new }
        ensures labelled { IsTrue D.COUNTS → self.now.stop ≡ None → (x : NaiveClient) → IsReached x → StandsFor self.now.client x
            → ReadsFewOfLabelFor x label.now a b steps.old steps.new }
    {
        if let Some(numbers) = self.client.stop() {
            return Err(ViewFault::Stopped {
                seq: numbers.number,
            });
        }
        Ok(self.client.client().overlapping(label, a, b, steps)?)
    }
}

// An edit with a counter of its own.
fn edit_in<D: OwnDocument, G: Ledger>(
    client: &mut StoppingClient<D>,
    op: &ChannelOp,
    blank: Blank,
) -> Result<(), EditFault>
    requires name { blank.name ≡ G.name }
    requires parts { blank.parts ≡ G.parts }
    requires one { 0 < blank.parts }
    requires formed { IsWellFormed op.now }
    requires known { client.old.stop ≡ None → RunsForOne D.holds client.old.client Anyone }
    ensures { AnswersOwn D.holds D.shown edit_fault_kind (λ p. local_edit p op.now) client.old client.new result }
{
    let mut steps = Steps::<G>::new(blank);
    client.edit(op, &mut steps)
}

// The intervals that meet a range, with a counter of its own.
fn overlapping_in<D: OwnDocument, G: Ledger>(
    replica: &ReplicaOver<D>,
    label: &Text,
    a: u64,
    b: u64,
    blank: Blank,
) -> Result<Vec<IntervalRec>, ViewFault>
    requires name { blank.name ≡ G.name }
    requires parts { blank.parts ≡ G.parts }
    requires one { 0 < blank.parts }
    requires order { a ≤ b }
    ensures { AnswersRead (λ found x. found.items ≡ overlap x label.now a b) replica.now result }
{
    let mut steps = Steps::<G>::new(blank);
    replica.overlapping_counted(label, a, b, &mut steps)
}

// Whether a client that took an operation of nobody, or none so far, has taken one after this entry.
fn is_nameless_after(was: bool, entry: &Entry) -> bool
    ensures { result ≡ (is_of_nobody entry.now || was) }
{
    (matches!(entry.msg.body, Body::Op(_)) && entry.origin == 0) || was
}

// So many names of the table, in which none stands twice.
fn first_names(names: &Names, count: u32) -> Result<Texts, OutOfMemory>
    requires { count ≤ length names.now }
    ensures first { IfOk result (λ conns. conns ≡ take count names.now) }
    ensures distinct { AreDistinct names.now }
{
    if (count as usize) > names.len() {
        unreachable!();
    }
    names.first(count)
}
