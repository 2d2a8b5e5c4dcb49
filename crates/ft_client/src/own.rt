//! A document of trees, as the client keeps it.

mod acks;
mod edits;
mod messages;
mod rejoining;
mod shown;
mod telling;

use crate::numbers::TreeNumbers;
use crate::stages::OwnStage;
use ft_attrib::Attribution;
use ft_base::{OutOfMemory, Steps, Text};
use ft_changes::Listener;
use ft_matrix::SharedMatrix;
use ft_msg::{EditFault, Entry, Numbers, View};
use ft_op::ChannelOp;
use ft_replica::{OwnDocument, OwnNumbers, Resent};
use ft_string::SharedString;
use ft_sumdoc::{IntervalRec, SumDoc, Texts};
use std::alloc::Global;
use std::collections::VecDeque;
use std::marker::Brand;
use std::sync::ledger::{Blank, Ledger};

/// By how many sequence numbers the floor rises from one tidying to the next at least: a tidying costs much besides its looks at
/// leaves, and sixteen numbers share that.
const TIDYING_STEP: u64 = 16;

/// At how many leaves of each list a tidying looks: two for each of those numbers.
const TIDIED: u64 = 2 * TIDYING_STEP;

/// A text, a table, the pending stages in order, and the numbers of a document.
#[derive(Drop)]
pub struct TreeOwn {
    text: SharedString,
    table: SharedMatrix,
    stages: VecDeque<OwnStage>,
    numbers: TreeNumbers,
}

impl OwnDocument for TreeOwn {
    ghost use Rattle.std.specs.Prelude.{true};
    ghost use Rattle.ft_client.specs.Holds.{HoldsTree, tree-shows, tree_shown};

    ghost shown = { tree_shown };

    ghost holds = { HoldsTree };

    ghost COUNTS = { true };

    ghost COMPACTS = { true };

    const COMPACTS: bool = true;

    fn start(alloc: Global) -> Result<TreeOwn, OutOfMemory> {
        Ok(TreeOwn {
            text: SharedString::new(alloc),
            table: SharedMatrix::new(alloc),
            stages: VecDeque::new(alloc),
            numbers: TreeNumbers::new(),
        })
    }

    fn from_summary(alloc: Global, sum: &SumDoc) -> Result<TreeOwn, OutOfMemory> {
        let text = SharedString::load(alloc, sum)?;
        let table = SharedMatrix::load(alloc, sum)?;
        let numbers = TreeNumbers::of_summary(sum, table.rows_made(), table.cols_made());
        Ok(TreeOwn {
            text,
            table,
            stages: VecDeque::new(alloc),
            numbers,
        })
    }

    fn number(&self) -> u64 {
        self.numbers.number()
    }

    fn minimum(&self) -> u64 {
        self.numbers.minimum()
    }

    fn numbers(&self) -> OwnNumbers {
        OwnNumbers {
            number: self.numbers.number(),
            minimum: self.numbers.minimum(),
            skipped: self.numbers.skipped(),
            other: self.numbers.other(),
            text: self.text.made(),
            rows: self.numbers.rows(),
            cols: self.numbers.cols(),
        }
    }

    fn edit<G: Ledger>(
        &mut self,
        last: u64,
        op: &ChannelOp,
        steps: &mut Steps<G>,
    ) -> Result<usize, EditFault> {
        let mut nobody = Listener::nobody(self.text.allocator());
        self.edit_heard(last, op, &mut nobody, steps)
    }

    fn take(&mut self, entry: &Entry) -> Result<(), OutOfMemory> {
        let mut nobody = Listener::nobody(self.text.allocator());
        self.take_in::<Brand>(entry, &mut nobody, Blank::new(1))
    }

    fn take_own(&mut self, count: usize, entry: &Entry) -> Result<(), OutOfMemory> {
        self.acknowledge(count, entry)
    }

    fn rejoin(&mut self, counts: &[usize], entry: &Entry) -> Result<VecDeque<Resent>, OutOfMemory> {
        self.rejoin_all(counts, entry)
    }

    fn view(&self, last: u64, numbers: Numbers) -> Result<View, OutOfMemory> {
        self.view_at(last, numbers)
    }

    fn origins(&self, _last: u64) -> Result<Attribution, OutOfMemory> {
        self.text.attribution()
    }

    fn overlapping<G: Ledger>(
        &self,
        _last: u64,
        label: &Text,
        a: u64,
        b: u64,
        steps: &mut Steps<G>,
    ) -> Result<Vec<IntervalRec>, OutOfMemory> {
        self.text.overlapping(label, a, b, steps)
    }

    fn summary(&self, conns: Texts) -> Result<SumDoc, OutOfMemory> {
        self.summary_with(conns)
    }

    fn compact(&mut self, seq: u64) -> Result<(), OutOfMemory> {
        self.text.compact(seq)?;
        self.table.compact(seq)
    }

    fn tidy(&mut self, seq: u64) -> Result<(), OutOfMemory> {
        // The floor that the text keeps is that of the last tidying or compaction.
        if seq.saturating_sub(self.text.floor()) < TIDYING_STEP {
            return Ok(());
        }
        self.text.tidy(seq, TIDIED)?;
        self.table.tidy(seq, TIDIED)
    }

    ghost shows = { tree-shows };
}
