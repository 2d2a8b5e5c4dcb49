//! Edits that are drawn.

ghost use Rattle.std.specs.Prelude.{◌≡◌, ◌<◌, ◌≤◌, false};
ghost use Rattle.ft_gen.specs.Acts.{IsDrawn};
ghost use Rattle.ft_gen.specs.Edits.{annotation, cell_write, drawn_edit, insertion, new_interval, removal};

use crate::draws::{draw, skip};
use crate::kinds::Kind;
use crate::progress::Progress;

/// An edit, without the memory that its operation takes.
#[derive(Clone, Copy)]
pub enum DrawnOp {
    /// So many letters, drawn from a state, go in at `pos`.
    Insert { pos: u64, count: u64, state: u64 },
    /// The elements from `pos1` up to before `pos2` are removed.
    Remove { pos1: u64, pos2: u64 },
    /// The element at `pos` gets the value of a property.
    Annotate { pos: u64, value: u64 },
    /// A cell gets a value.
    Set { row: u64, col: u64, value: u64 },
    /// An interval of this number goes round the element at `pos`.
    Add { number: u64, pos: u64 },
}

impl Progress {
    /// Draws the next edit of a client that may remove or not.
    pub fn edit(&mut self, removes: bool) -> DrawnOp
        requires length { self.old.length ≤ 6000000 }
        requires intervals { self.old.intervals ≤ 1000000 }
        ensures edit { IsDrawn (drawn_edit removes self.old) self.old result self.new }
        ensures grown { removes ≡ false → self.old.length ≤ self.new.length }
    {
        let k = draw(&mut self.state, 10);
        match Kind::new(removes, self.length, k) {
            Kind::Insertion => self.insertion(),
            Kind::Removal => self.removal(),
            Kind::Annotation => self.annotation(),
            Kind::CellWrite => self.cell_write(),
            Kind::NewInterval => self.new_interval(),
        }
    }

    fn insertion(&mut self) -> DrawnOp
        requires { self.old.length ≤ 6000000 }
        ensures edit { IsDrawn (insertion self.old) self.old result self.new }
        ensures grown { self.old.length ≤ self.new.length }
    {
        let pos = draw(&mut self.state, self.length + 1);
        let count = draw(&mut self.state, 3) + 1;
        let state = self.state;
        skip(&mut self.state, count);
        self.length += count;
        DrawnOp::Insert { pos, count, state }
    }

    fn removal(&mut self) -> DrawnOp
        requires some { 0 < self.old.length }
        requires length { self.old.length ≤ 6000000 }
        ensures { IsDrawn (removal self.old) self.old result self.new }
    {
        let pos1 = draw(&mut self.state, self.length);
        let count = 1 + draw(&mut self.state, (self.length - pos1).min(3));
        self.length -= count;
        DrawnOp::Remove {
            pos1,
            pos2: pos1 + count,
        }
    }

    fn annotation(&mut self) -> DrawnOp
        requires some { 0 < self.old.length }
        requires length { self.old.length ≤ 6000000 }
        ensures edit { IsDrawn (annotation self.old) self.old result self.new }
        ensures grown { self.old.length ≤ self.new.length }
    {
        let pos = draw(&mut self.state, self.length);
        let value = draw(&mut self.state, 4);
        DrawnOp::Annotate { pos, value }
    }

    fn cell_write(&mut self) -> DrawnOp
        ensures edit { IsDrawn (cell_write self.old) self.old result self.new }
        ensures grown { self.old.length ≤ self.new.length }
    {
        let row = draw(&mut self.state, 4);
        let col = draw(&mut self.state, 4);
        let value = draw(&mut self.state, 1000);
        DrawnOp::Set { row, col, value }
    }

    fn new_interval(&mut self) -> DrawnOp
        requires some { 0 < self.old.length }
        requires length { self.old.length ≤ 6000000 }
        requires intervals { self.old.intervals ≤ 1000000 }
        ensures edit { IsDrawn (new_interval self.old) self.old result self.new }
        ensures grown { self.old.length ≤ self.new.length }
    {
        let pos = draw(&mut self.state, self.length);
        let number = self.intervals;
        self.intervals += 1;
        DrawnOp::Add { number, pos }
    }
}
