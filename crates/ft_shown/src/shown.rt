//! What an editor shows.

ghost use Rattle.std.specs.Prelude.{◌≡◌, []};

use crate::elements::StyledElement;
use ft_sumdoc::{CellRec, IntervalRec};
use std::alloc::Global;
use std::marker::Model;

/// What an editor shows, kept by the changes that a client tells.
#[derive(Drop)]
pub struct Shown {
    pub(crate) alloc: Global,
    pub(crate) elements: Vec<StyledElement>,
    /// By rising label and id.
    pub(crate) intervals: Vec<IntervalRec>,
    pub(crate) rows: u64,
    pub(crate) cols: u64,
    /// By rising row and column.
    pub(crate) cells: Vec<CellRec>,
}

impl Model for Shown {
    ghost use Rattle.ft_changes.specs.Shown.{ShownContent};

    ghost Value = { ShownContent };

    ghost view = { λ a. record { elements = a.elements.items; intervals = a.intervals.items; rows = a.rows; cols = a.cols; cells = a.cells.items } };
}

impl Shown {
    /// Nothing.
    pub fn new(alloc: Global) -> Shown
        ensures { result ≡ record { elements = []; intervals = []; rows = 0; cols = 0; cells = [] } }
    {
        Shown {
            alloc,
            elements: Vec::new(alloc),
            intervals: Vec::new(alloc),
            rows: 0,
            cols: 0,
            cells: Vec::new(alloc),
        }
    }

    /// The elements of the text.
    pub fn elements(&self) -> &[StyledElement]
        ensures { result.now ≡ self.now.elements }
    {
        self.elements.as_slice()
    }

    /// The intervals, by rising label and id.
    pub fn intervals(&self) -> &[IntervalRec]
        ensures { result.now ≡ self.now.intervals }
    {
        self.intervals.as_slice()
    }

    /// How many rows.
    pub fn rows(&self) -> u64
        ensures { result ≡ self.now.rows }
    {
        self.rows
    }

    /// How many columns.
    pub fn cols(&self) -> u64
        ensures { result ≡ self.now.cols }
    {
        self.cols
    }

    /// The cells that have a value, by rising row and column.
    pub fn cells(&self) -> &[CellRec]
        ensures { result.now ≡ self.now.cells }
    {
        self.cells.as_slice()
    }
}
