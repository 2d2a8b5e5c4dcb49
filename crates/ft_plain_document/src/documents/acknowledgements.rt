//! What the acknowledgement of an edit of the client's own makes of a document.

ghost use Rattle.std.specs.Prelude.{◌≡◌, IfOk, OnOk};
ghost use Rattle.ft_msg.specs.Acknowledgement.{ack_stage, ack_stages, cells_after_stage, made_before};
ghost use Rattle.ft_plain_document.specs.Renamed.{renaming_of};
ghost use Rattle.ft_plain_document.specs.SubOperations.{sub_operation_of};

use crate::documents::PlainDocument;
use crate::documents::own_intervals::apply_to_intervals;
use crate::renamings::Renaming;
use crate::stages::{PlainStage, SubOp};
use ft_base::OutOfMemory;
use ft_op::CellOp;
use ft_plain_lists::{ElementNames, PlainCells};

impl PlainDocument {
    /// Makes these stages sequenced one after another, under number `seq` by connection `conn`, and tells the
    /// new names of their elements.
    ///
    /// Returns `OutOfMemory` where there is no room for that or the count of the elements of a list would pass
    /// 2^53 - 1, and then some of it may be done.
    pub fn acknowledge(
        &mut self,
        seq: u64,
        conn: u32,
        stages: &[PlainStage],
    ) -> Result<Renaming, OutOfMemory>
        ensures document { OnOk result (self.new ≡ (ack_stages seq conn (λ x. x) stages.now self.old).0) }
        ensures renaming { IfOk result (λ r. renaming_of r ≡ (ack_stages seq conn (λ x. x) stages.now self.old).1) }
    {
        let mut renaming = Renaming::new(self.alloc());
        for stage in stages {
            let made = self.made_before(stage.sub_operation());
            self.acknowledge_stage(seq, conn, &renaming, stage)?;
            renaming.push(stage.stage(), made)?;
        }
        Ok(renaming)
    }

    // Makes one stage sequenced: its elements, removals and changes, then its interval operation or cell write,
    // then the slide of the intervals' ends.
    fn acknowledge_stage(
        &mut self,
        seq: u64,
        conn: u32,
        renaming: &Renaming,
        stage: &PlainStage,
    ) -> Result<(), OutOfMemory>
        ensures { OnOk result (self.new ≡ ack_stage seq conn (renaming_of renaming.now) stage.now self.old) }
    {
        let names = renaming.names(stage.names())?;
        self.text.acknowledge(stage.stage(), seq, conn)?;
        self.rows.acknowledge(stage.stage(), seq, conn)?;
        self.cols.acknowledge(stage.stage(), seq, conn)?;
        apply_to_intervals(&mut self.intervals, stage.sub_operation(), &names)?;
        write_to_cells(&mut self.cells, stage.sub_operation(), &names)?;
        self.slide_ends()
    }

    // How many elements were ever sequenced in the list into which the sub-operation inserts.
    fn made_before(&self, op: &SubOp) -> u64
        ensures { result ≡ made_before self.now (sub_operation_of op.now) }
    {
        match op {
            SubOp::Text(_) => self.text.made(),
            SubOp::Grid(CellOp::SpliceIn { target, .. }) => self.list(*target).made(),
            SubOp::Grid(CellOp::SpliceOut { .. } | CellOp::Set { .. }) | SubOp::Intervals(_) => 0,
        }
    }
}

/// Writes to the cell that the sub-operation names, if it is a cell write.
///
/// Returns `OutOfMemory` where there is no room for the value, and then nothing changed.
pub fn write_to_cells(
    cells: &mut PlainCells,
    op: &SubOp,
    names: &ElementNames,
) -> Result<(), OutOfMemory>
    ensures { OnOk result (cells.new ≡ cells_after_stage (sub_operation_of op.now) names.now cells.old) }
{
    match op {
        SubOp::Grid(CellOp::Set { value, .. }) => match (names.first(), names.second()) {
            (Some(row), Some(col)) => cells.write(row, col, value),
            (Some(_), None) | (None, Some(_)) | (None, None) => Ok(()),
        },
        SubOp::Grid(CellOp::SpliceIn { .. } | CellOp::SpliceOut { .. })
        | SubOp::Text(_)
        | SubOp::Intervals(_) => Ok(()),
    }
}
