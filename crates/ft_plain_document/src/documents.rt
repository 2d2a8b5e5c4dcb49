//! The document of a plain replica, and what sequenced messages make of it.

ghost use Rattle.std.specs.Prelude.{◌≡◌, ◌<◌, ◌^◌, IfOk, OnOk, OnErr, length};
ghost use Rattle.ft_op.specs.Operation.{sub_operations};
ghost use Rattle.ft_op.specs.Document.{effects, empty, with_skip};
ghost use Rattle.ft_msg.specs.Agreed.{body_effect, reference_number, take_entry, with_numbers};
ghost use Rattle.ft_msg.specs.WellFormed.{HasNumbersInRange};
ghost use Rattle.ft_changes.specs.Listeners.{heard};
ghost use Rattle.ft_changes.specs.Told.{told_body, told_sub_operations};

mod acknowledgements;
pub(crate) mod building;
mod grid_effects;
mod hearing;
pub(crate) mod held;
mod interval_effects;
mod neighbours;
pub(crate) mod own_cells;
pub(crate) mod own_edits;
pub(crate) mod own_intervals;
mod own_operations;
mod pieces;
pub(crate) mod rebuilding;
mod telling;
mod text_effects;
mod trimming;

use building::DocumentNumbers;
use ft_base::{OutOfMemory, Perspective};
use ft_changes::{Listener, ViewChanges};
use ft_msg::{Body, Entry};
use ft_op::ChannelOp;
use ft_plain_lists::{PlainCells, PlainElement, PlainInterval, PlainIntervals, PlainList};
use std::alloc::Global;
use std::marker::Model;

/// A document, which contracts see as that of the definitions.
#[derive(Drop)]
pub struct PlainDocument {
    text: PlainList,
    rows: PlainList,
    cols: PlainList,
    intervals: PlainIntervals,
    cells: PlainCells,
    skipped: u64,
    other: u64,
    number: u64,
    minimum: u64,
}

impl Model for PlainDocument {
    ghost use Rattle.std.specs.Prelude.{◌<◌, ◌^◌};
    ghost use Rattle.ft_op.specs.Document.{Document};

    ghost Value = { Document };

    ghost view = { λ a. record { text = a.text; rows = a.rows; cols = a.cols; intervals = a.intervals; cells = a.cells; skipped = a.skipped; other = a.other; number = a.number; minimum = a.minimum } };

    ghost invariant = { λ a. (a.number < 2 ^ 53) × (a.minimum < 2 ^ 53) };
}

impl PlainDocument {
    /// The document at number 0.
    pub fn new(alloc: Global) -> PlainDocument
        ensures { result ≡ empty }
    {
        PlainDocument {
            text: PlainList::new(alloc),
            rows: PlainList::new(alloc),
            cols: PlainList::new(alloc),
            intervals: PlainIntervals::new(alloc),
            cells: PlainCells::new(alloc),
            skipped: 0,
            other: 0,
            number: 0,
            minimum: 0,
        }
    }

    /// Its allocator.
    pub fn alloc(&self) -> Global {
        self.text.alloc()
    }

    /// The last number.
    pub fn number(&self) -> u64
        ensures told { result ≡ self.now.number }
        ensures small { result < 2 ^ 53 }
    {
        self.number
    }

    /// The last minimum.
    pub fn minimum(&self) -> u64
        ensures told { result ≡ self.now.minimum }
        ensures small { result < 2 ^ 53 }
    {
        self.minimum
    }

    /// The elements of the text, removed ones included.
    pub fn text(&self) -> &[PlainElement]
        ensures items { result.now ≡ self.now.text.items }
        ensures countable { length result.now < 2 ^ 53 }
    {
        self.text.as_slice()
    }

    /// The units of the rows, removed ones included.
    pub fn rows(&self) -> &[PlainElement]
        ensures { result.now ≡ self.now.rows.items }
    {
        self.rows.as_slice()
    }

    /// The units of the columns, removed ones included.
    pub fn cols(&self) -> &[PlainElement]
        ensures { result.now ≡ self.now.cols.items }
    {
        self.cols.as_slice()
    }

    /// The intervals by rising label and id.
    pub fn intervals(&self) -> &[PlainInterval]
        ensures { result.now ≡ self.now.intervals }
    {
        self.intervals.as_slice()
    }

    /// The cells that have a value.
    pub fn cells(&self) -> &PlainCells
        ensures { result.now ≡ self.now.cells }
    {
        &self.cells
    }

    /// Its numbers.
    pub fn numbers(&self) -> DocumentNumbers
        ensures { result ≡ record { skipped = self.now.skipped; other = self.now.other; number = self.now.number; minimum = self.now.minimum } }
    {
        DocumentNumbers {
            skipped: self.skipped,
            other: self.other,
            number: self.number,
            minimum: self.minimum,
        }
    }

    /// Takes an entry.
    ///
    /// Returns `OutOfMemory` where there is no room, the count of skipped sub-operations or that of
    /// messages for others would pass 2^64 - 1, or that of the elements of a list 2^53 - 1, and then
    /// nothing is said of the document.
    pub fn take(&mut self, entry: &Entry) -> Result<(), OutOfMemory>
        requires { HasNumbersInRange entry.now.msg }
        ensures { OnOk result (self.new ≡ take_entry self.old entry.now) }
    {
        let mut nobody = Listener::nobody(self.alloc());
        self.take_in(entry, 0, &mut nobody)
    }

    /// As `take`, and tells how the elements of the lists that are shown at stage `last` change.
    pub fn take_telling(&mut self, entry: &Entry, last: u64) -> Result<ViewChanges, OutOfMemory>
        requires { HasNumbersInRange entry.now.msg }
        ensures taken { OnOk result (self.new ≡ take_entry self.old entry.now) }
        ensures told { IfOk result (λ changes. changes ≡ told_body last self.old entry.now.msg.seq entry.now.origin (reference_number entry.now.msg.ref_seq) entry.now.msg.body) }
    {
        let mut listener = Listener::new(self.alloc());
        self.take_in(entry, last, &mut listener)?;
        Ok(listener.into_changes())
    }

    // Takes an entry, of which a listener hears.
    fn take_in(
        &mut self,
        entry: &Entry,
        last: u64,
        listener: &mut Listener,
    ) -> Result<(), OutOfMemory>
        requires { HasNumbersInRange entry.now.msg }
        ensures taken { OnOk result (self.new ≡ take_entry self.old entry.now) }
        ensures told { OnOk result (listener.new ≡ heard listener.old (told_body last self.old entry.now.msg.seq entry.now.origin (reference_number entry.now.msg.ref_seq) entry.now.msg.body)) }
    {
        let at = Perspective {
            r: reference_number(entry.msg.ref_seq),
            c: entry.origin,
        };
        self.take_body(&entry.msg.body, entry.msg.seq, at, last, listener)?;
        self.set_numbers(entry);
        Ok(())
    }

    /// Takes the number and the minimum of the entry as its last ones.
    pub fn set_numbers(&mut self, entry: &Entry)
        requires { HasNumbersInRange entry.now.msg }
        ensures { self.new ≡ with_numbers entry.now self.old }
    {
        self.number = entry.msg.seq;
        self.minimum = entry.msg.min;
    }

    // Takes the body of a message with number `seq`.
    fn take_body(
        &mut self,
        body: &Body,
        seq: u64,
        at: Perspective,
        last: u64,
        listener: &mut Listener,
    ) -> Result<(), OutOfMemory>
        ensures taken { OnOk result (self.new ≡ body_effect self.old seq at.c at.r body.now) }
        ensures told { OnOk result (listener.new ≡ heard listener.old (told_body last self.old seq at.c at.r body.now)) }
    {
        match body {
            Body::Nothing => Ok(()),
            Body::Op(op) => self.apply(op, seq, at, last, listener),
            Body::Elsewhere(_) => {
                self.other = self.other.checked_add(1).ok_or(OutOfMemory)?;
                Ok(())
            }
        }
    }

    // Applies an operation under number `seq`.
    fn apply(
        &mut self,
        op: &ChannelOp,
        seq: u64,
        at: Perspective,
        last: u64,
        listener: &mut Listener,
    ) -> Result<(), OutOfMemory>
        ensures applied { OnOk result (self.new ≡ effects self.old seq at.c at.r (sub_operations op.now)) }
        ensures told { OnOk result (listener.new ≡ heard listener.old (told_sub_operations last self.old seq at.c at.r (sub_operations op.now))) }
    {
        match op {
            ChannelOp::Text(op) => self.apply_to_text(op, seq, at, last, listener),
            ChannelOp::Grid(op) => self.apply_to_grid(op, seq, at, last, listener),
        }
    }

    // Counts a sub-operation that is out of range.
    //
    // Returns `OutOfMemory` where the count would pass 2^64 - 1, and then nothing changed.
    fn skip(&mut self) -> Result<(), OutOfMemory>
        ensures ok { OnOk result (self.new ≡ with_skip self.old) }
        ensures err { OnErr result (self.new ≡ self.old) }
    {
        self.skipped = self.skipped.checked_add(1).ok_or(OutOfMemory)?;
        Ok(())
    }
}

// The reference number as a count: nothing is known to one below 0.
fn reference_number(ref_seq: i64) -> u64
    ensures { result ≡ reference_number ref_seq }
{
    if ref_seq < 0 { 0 } else { ref_seq as u64 }
}
