//! What operations of the grid make of a document.

ghost use Rattle.std.specs.Prelude.{◌≡◌, ℕ, OnOk, map};
ghost use Rattle.std.specs.Borrow.{sem};
ghost use Rattle.ft_op.specs.declared.operations.ChannelOp.TheVariants.{Grid};
ghost use Rattle.ft_op.specs.Operation.{OnGrid, sub_operations};
ghost use Rattle.ft_op.specs.Document.{effects, grid_effect, rows_or_cols};
ghost use Rattle.ft_changes.specs.Listeners.{heard};
ghost use Rattle.ft_changes.specs.Told.{told_sub_operations};
ghost use Rattle.ft_plain_document.specs.LentLists.{lends_list};

use crate::documents::PlainDocument;
use ft_base::{OutOfMemory, Perspective};
use ft_changes::Listener;
use ft_json::ValText;
use ft_op::{CellOp, GridOp, Target};
use ft_plain_lists::PlainList;

impl PlainDocument {
    /// Applies an operation of the grid under number `seq`.
    pub(crate) fn apply_to_grid(
        &mut self,
        op: &GridOp,
        seq: u64,
        at: Perspective,
        last: u64,
        listener: &mut Listener,
    ) -> Result<(), OutOfMemory>
        ensures applied { OnOk result (self.new ≡ effects self.old seq at.c at.r (sub_operations (Grid op.now))) }
        ensures told { OnOk result (listener.new ≡ heard listener.old (told_sub_operations last self.old seq at.c at.r (sub_operations (Grid op.now)))) }
    {
        match op {
            GridOp::One(op) => {
                self.tell_grid(listener, last, op, at)?;
                self.apply_cell_op(op, seq, at)
            }
            GridOp::Group(ops) => self.apply_cell_ops(ops.as_slice(), seq, at, last, listener),
        }
    }

    // Applies the operations of a group in order.
    fn apply_cell_ops(
        &mut self,
        ops: &[CellOp],
        seq: u64,
        at: Perspective,
        last: u64,
        listener: &mut Listener,
    ) -> Result<(), OutOfMemory>
        ensures applied { OnOk result (self.new ≡ effects self.old seq at.c at.r (map (λ op. OnGrid op) ops.now)) }
        ensures told { OnOk result (listener.new ≡ heard listener.old (told_sub_operations last self.old seq at.c at.r (map (λ op. OnGrid op) ops.now))) }
    {
        for op in ops {
            self.tell_grid(listener, last, op, at)?;
            self.apply_cell_op(op, seq, at)?;
        }
        Ok(())
    }

    // Applies a splice or a cell write.
    fn apply_cell_op(&mut self, op: &CellOp, seq: u64, at: Perspective) -> Result<(), OutOfMemory>
        ensures { OnOk result (self.new ≡ grid_effect self.old seq at.c at.r op.now) }
    {
        match op {
            CellOp::SpliceIn { target, pos, count } => {
                self.insert_units(*target, *pos, *count, seq, at)
            }
            CellOp::SpliceOut { target, pos1, pos2 } => {
                self.remove_units(*target, *pos1, *pos2, seq, at)
            }
            CellOp::Set { row, col, value } => self.set_cell(*row, *col, value, at),
        }
    }

    /// The list that a splice is for.
    pub(crate) fn list(&self, target: Target) -> &PlainList
        ensures { result.now ≡ rows_or_cols target self.now }
    {
        match target {
            Target::Rows => &self.rows,
            Target::Cols => &self.cols,
        }
    }

    /// The list that a splice is for, to be changed.
    pub(crate) fn list_mut(&mut self, target: Target) -> &mut PlainList
        ensures* writes_back { sem 𝓛 (lends_list target self.entry result) }
        ensures value { result.now ≡ rows_or_cols target self.old }
    {
        match target {
            Target::Rows => &mut self.rows,
            Target::Cols => &mut self.cols,
        }
    }

    // Inserts new rows or columns after `p`.
    fn insert_units(
        &mut self,
        target: Target,
        p: u64,
        count: u64,
        seq: u64,
        at: Perspective,
    ) -> Result<(), OutOfMemory>
        ensures { OnOk result (self.new ≡ grid_effect self.old seq at.c at.r (CellOp.SpliceIn target p count)) }
    {
        if !self.list(target).is_within(p, at) {
            return self.skip();
        }
        self.list_mut(target).insert_units(p, count, seq, at)
    }

    // Removes the rows or columns from `p` up to before `q`.
    fn remove_units(
        &mut self,
        target: Target,
        p: u64,
        q: u64,
        seq: u64,
        at: Perspective,
    ) -> Result<(), OutOfMemory>
        ensures { OnOk result (self.new ≡ grid_effect self.old seq at.c at.r (CellOp.SpliceOut target p q)) }
    {
        if !self.list(target).is_within(q, at) {
            return self.skip();
        }
        self.list_mut(target).remove(p, q, seq, at)
    }

    // Writes the value to the cell of the row and the column that the perspective sees there.
    fn set_cell(
        &mut self,
        i: u64,
        j: u64,
        value: &ValText,
        at: Perspective,
    ) -> Result<(), OutOfMemory>
        ensures { (seq : ℕ) → OnOk result (self.new ≡ grid_effect self.old seq at.c at.r (CellOp.Set i j value.now)) }
    {
        match (self.rows.name_at(i, at), self.cols.name_at(j, at)) {
            (Some(row), Some(col)) => self.cells.write(row, col, value),
            _ => self.skip(),
        }
    }
}
