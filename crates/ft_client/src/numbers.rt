//! The numbers of a document.

ghost use Rattle.std.specs.Prelude.{◌≡◌, ◌+◌, ◌<◌, ◌^◌, OnOk};
ghost use Rattle.ft_msg.specs.WellFormed.{IsWellFormedMessage};
ghost use Rattle.ft_sumdoc.specs.Valid.{IsValidSummary};
ghost use Rattle.ft_client.specs.Numbers.{no_numbers, summary_numbers};

use ft_base::OutOfMemory;
use ft_msg::Entry;
use ft_sumdoc::SumDoc;
use std::marker::Model;

/// The last number and the last minimum of a document, how many sub-operations were out of range, how many messages were for
/// another address, how many rows and columns there ever were, those that are pending included, and the last stage that was
/// taken.
#[derive(Drop)]
pub struct TreeNumbers {
    number: u64,
    minimum: u64,
    skipped: u64,
    other: u64,
    rows: u64,
    cols: u64,
    last: u64,
}

impl Model for TreeNumbers {
    ghost use Rattle.std.specs.Prelude.{◌<◌, ◌^◌};
    ghost use Rattle.ft_client.specs.Numbers.{NumberState};

    ghost Value = { NumberState };

    ghost view = { λ a. record { number = a.number; minimum = a.minimum; skipped = a.skipped; other = a.other; rows = a.rows; cols = a.cols; last = a.last } };

    ghost invariant = { λ a. (a.number < 2 ^ 53) × (a.minimum < 2 ^ 53) };
}

impl TreeNumbers {
    /// Those of the empty document.
    pub fn new() -> TreeNumbers
        ensures { result ≡ no_numbers }
    {
        TreeNumbers {
            number: 0,
            minimum: 0,
            skipped: 0,
            other: 0,
            rows: 0,
            cols: 0,
            last: 0,
        }
    }

    /// Those of a summary, whose document has so many rows and columns.
    pub fn of_summary(sum: &SumDoc, rows: u64, cols: u64) -> TreeNumbers
        requires { IsValidSummary sum.now }
        ensures { result ≡ summary_numbers sum.now rows cols }
    {
        TreeNumbers {
            number: sum.seq,
            minimum: sum.min,
            skipped: sum.skipped,
            other: sum.other,
            rows,
            cols,
            last: 0,
        }
    }

    /// The last number.
    pub fn number(&self) -> u64
        ensures told { result ≡ self.now.number }
        ensures small { result < 2 ^ 53 }
    {
        self.number
    }

    /// The last minimum.
    pub fn minimum(&self) -> u64
        ensures told { result ≡ self.now.minimum }
        ensures small { result < 2 ^ 53 }
    {
        self.minimum
    }

    /// How many sub-operations were out of range.
    pub fn skipped(&self) -> u64
        ensures { result ≡ self.now.skipped }
    {
        self.skipped
    }

    /// How many messages were for another address.
    pub fn other(&self) -> u64
        ensures { result ≡ self.now.other }
    {
        self.other
    }

    /// How many rows there ever were.
    pub fn rows(&self) -> u64
        ensures { result ≡ self.now.rows }
    {
        self.rows
    }

    /// How many columns there ever were.
    pub fn cols(&self) -> u64
        ensures { result ≡ self.now.cols }
    {
        self.cols
    }

    /// The last stage that was taken.
    pub fn last(&self) -> u64
        ensures { result ≡ self.now.last }
    {
        self.last
    }

    /// Takes the number and the minimum of a message as the last ones.
    pub fn take(&mut self, entry: &Entry)
        requires { IsWellFormedMessage entry.now.msg }
        ensures { self.new ≡ record self.old { number = entry.now.msg.seq; minimum = entry.now.msg.min } }
    {
        self.number = entry.msg.seq;
        self.minimum = entry.msg.min;
    }

    /// Counts so many sub-operations that were out of range.
    ///
    /// Returns `OutOfMemory` where the count would pass 2^64 - 1.
    pub fn skip(&mut self, count: u64) -> Result<(), OutOfMemory>
        ensures { OnOk result (self.new ≡ record self.old { skipped = self.old.skipped + count }) }
    {
        self.skipped = self.skipped.checked_add(count).ok_or(OutOfMemory)?;
        Ok(())
    }

    /// Counts a message for another address.
    ///
    /// Returns `OutOfMemory` where the count would pass 2^64 - 1.
    pub fn count_other(&mut self) -> Result<(), OutOfMemory>
        ensures { OnOk result (self.new ≡ record self.old { other = self.old.other + 1 }) }
    {
        self.other = self.other.checked_add(1).ok_or(OutOfMemory)?;
        Ok(())
    }

    /// Counts rows and columns that came in.
    ///
    /// Returns `OutOfMemory` where a count would pass 2^64 - 1.
    pub fn count_units(&mut self, rows: u64, cols: u64) -> Result<(), OutOfMemory>
        ensures { OnOk result (self.new ≡ record self.old { rows = self.old.rows + rows; cols = self.old.cols + cols }) }
    {
        self.rows = self.rows.checked_add(rows).ok_or(OutOfMemory)?;
        self.cols = self.cols.checked_add(cols).ok_or(OutOfMemory)?;
        Ok(())
    }

    /// Takes so many stages.
    ///
    /// Returns `OutOfMemory` where their numbers would pass 2^64 - 1.
    pub fn take_stages(&mut self, count: u64) -> Result<(), OutOfMemory>
        ensures taken { OnOk result (self.new ≡ record self.old { last = self.old.last + count }) }
        ensures fits { OnOk result (self.old.last + count < 2 ^ 64) }
    {
        self.last = self.last.checked_add(count).ok_or(OutOfMemory)?;
        Ok(())
    }
}
