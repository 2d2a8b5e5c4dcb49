//! A document over plain lists, as the client keeps it.

ghost use Rattle.std.specs.Prelude.{IsTrue};
ghost use Rattle.ft_plain.specs.Own.{HasSmallLists};

mod edits;
mod reading;
mod telling;

use crate::resent::{resend, stage_numbers};
use ft_attrib::Attribution;
use ft_base::{OutOfMemory, Steps, Text};
use ft_changes::Listener;
use ft_json::GREATEST_COUNT;
use ft_msg::{EditFault, Entry, Numbers, View};
use ft_op::ChannelOp;
use ft_plain_document::{PlainDocument, PlainStages, renamed_stages};
use ft_plain_summary::{document_of, summary_of};
use ft_replica::{OwnDocument, OwnNumbers, Resent};
use ft_sumdoc::{IntervalRec, MOST_UNITS, SumDoc, Texts};
use std::alloc::Global;
use std::collections::VecDeque;
use std::marker::Model;
use std::sync::ledger::Ledger;

/// A document over plain lists with its pending stages, which contracts see as those of the definitions.
#[derive(Drop)]
pub struct PlainOwn {
    doc: PlainDocument,
    stages: PlainStages,
}

impl Model for PlainOwn {
    ghost use Rattle.ft_plain.specs.Own.{PlainState};

    ghost Value = { PlainState };

    ghost view = { λ a. record { doc = a.doc; stages = a.stages } };
}

impl OwnDocument for PlainOwn {
    ghost use Rattle.std.specs.Prelude.{false};
    ghost use Rattle.ft_plain.specs.Own.{HoldsExactly, plain-shows, plain_shown};

    ghost shown = { plain_shown };

    ghost holds = { HoldsExactly };

    ghost COUNTS = { false };

    ghost COMPACTS = { false };

    const COMPACTS: bool = false;

    fn start(alloc: Global) -> Result<PlainOwn, OutOfMemory> {
        Ok(PlainOwn {
            doc: PlainDocument::new(alloc),
            stages: PlainStages::new(alloc),
        })
    }

    fn from_summary(alloc: Global, sum: &SumDoc) -> Result<PlainOwn, OutOfMemory> {
        let doc = document_of(alloc, sum)?;
        Ok(PlainOwn {
            doc,
            stages: PlainStages::new(alloc),
        })
    }

    fn number(&self) -> u64 {
        self.doc.number()
    }

    fn minimum(&self) -> u64 {
        self.doc.minimum()
    }

    fn numbers(&self) -> OwnNumbers {
        let numbers = self.doc.numbers();
        let held = self.doc.held();
        OwnNumbers {
            number: numbers.number,
            minimum: numbers.minimum,
            skipped: numbers.skipped,
            other: numbers.other,
            text: held.text(),
            rows: held.rows(),
            cols: held.cols(),
        }
    }

    fn edit<G: Ledger>(
        &mut self,
        last: u64,
        op: &ChannelOp,
        _steps: &mut Steps<G>,
    ) -> Result<usize, EditFault> {
        let mut nobody = Listener::nobody(self.doc.alloc());
        self.edit_heard(last, op, &mut nobody)
    }

    fn take(&mut self, entry: &Entry) -> Result<(), OutOfMemory> {
        self.doc.take(entry)
    }

    fn take_own(&mut self, count: usize, entry: &Entry) -> Result<(), OutOfMemory> {
        let rest = self.stages.split_off(count)?;
        let stages = self.stages.as_slice();
        let renaming = self.doc.acknowledge(entry.msg.seq, entry.origin, stages)?;
        self.stages = renamed_stages(rest, &renaming)?;
        self.doc.set_numbers(entry);
        Ok(())
    }

    fn rejoin(&mut self, counts: &[usize], entry: &Entry) -> Result<VecDeque<Resent>, OutOfMemory> {
        let alloc = self.doc.alloc();
        let numbers = stage_numbers(alloc, self.stages.as_slice())?;
        let mut carried = PlainStages::new(alloc);
        self.doc.set_numbers(entry);
        let again = resend(&self.doc, counts, self.stages.as_slice(), &mut carried)?;
        self.doc.rebuild(numbers.as_slice())?;
        self.stages = carried;
        Ok(again)
    }

    fn view(&self, last: u64, numbers: Numbers) -> Result<View, OutOfMemory> {
        self.view_at(last, numbers)
    }

    fn origins(&self, last: u64) -> Result<Attribution, OutOfMemory> {
        self.origins_at(last)
    }

    fn overlapping<G: Ledger>(
        &self,
        last: u64,
        label: &Text,
        a: u64,
        b: u64,
        _steps: &mut Steps<G>,
    ) -> Result<Vec<IntervalRec>, OutOfMemory> {
        self.overlapping_at(last, label, a, b)
    }

    fn summary(&self, conns: Texts) -> Result<SumDoc, OutOfMemory> {
        if !is_small(&self.doc) {
            return Err(OutOfMemory);
        }
        summary_of(&self.doc, conns)
    }

    fn compact(&mut self, _seq: u64) -> Result<(), OutOfMemory> {
        Ok(())
    }

    fn tidy(&mut self, _seq: u64) -> Result<(), OutOfMemory> {
        Ok(())
    }

    ghost shows = { plain-shows };
}

// Whether a summary can tell the document's numbers.
fn is_small(doc: &PlainDocument) -> bool
    ensures { IsTrue result → HasSmallLists doc.now }
{
    let numbers = doc.numbers();
    numbers.number <= GREATEST_COUNT
        && numbers.skipped <= GREATEST_COUNT
        && numbers.other <= GREATEST_COUNT
        && doc.text().len() as u64 <= GREATEST_COUNT
        && doc.rows().len() as u64 <= MOST_UNITS
        && doc.cols().len() as u64 <= MOST_UNITS
}
