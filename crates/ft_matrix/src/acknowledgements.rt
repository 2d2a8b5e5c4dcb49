//! What the acknowledgement of an edit of the client's own makes of a grid.

ghost use Rattle.std.specs.Prelude.{◌≡◌, ◌+◌, ◌≤◌, All, OnOk};
ghost use Rattle.ft_matrix.specs.Acked.{AcksStage, AcksStages, CountsUnits, acked_stage, after_stage};
ghost use Rattle.ft_matrix.specs.Sound.{IsSound};

use crate::grid::Grid;
use crate::messages::more;
use crate::splices::ack_units;
use crate::stages::GridStage;
use ft_base::OutOfMemory;
use ft_op::CellOp;

impl Grid {
    /// Makes the `count` stages from `first` on sequenced.
    ///
    /// Returns `OutOfMemory` where there is no room for it, and then the grid may be used no more.
    pub fn ack_stages(
        &mut self,
        first: u64,
        count: u64,
        seq: u64,
        conn: u32,
    ) -> Result<(), OutOfMemory>
        requires sound { IsSound self.old }
        requires lowest { All (λ t. first ≤ t.stage) self.old.stages.items }
        ensures { OnOk result (AcksStages first count seq conn self.old self.new) }
    {
        for i in 0..count {
            self.ack_stage(more(first, i)?, seq, conn)?;
        }
        Ok(())
    }

    // Makes one stage sequenced: its units and marks, and its cell write. No lower one is pending.
    //
    // Returns `OutOfMemory` where there is no room for it, and then the grid may be used no more.
    fn ack_stage(&mut self, stage: u64, seq: u64, conn: u32) -> Result<(), OutOfMemory>
        requires sound { IsSound self.old }
        requires lowest { All (λ t. stage ≤ t.stage) self.old.stages.items }
        ensures sound { OnOk result (IsSound self.new) }
        ensures acks { OnOk result (AcksStage stage seq conn self.old self.new) }
        ensures lowest { OnOk result (All (λ t. stage + 1 ≤ t.stage) self.new.stages.items) }
    {
        ack_units(&mut self.rows, stage, seq, conn)?;
        ack_units(&mut self.cols, stage, seq, conn)?;
        self.cells.ack(stage)?;
        match self.take_acked(stage) {
            Some(acked) => self.count_units(&acked.op),
            None => Ok(()),
        }
    }

    // Takes the first pending stage out, if it has this number.
    fn take_acked(&mut self, stage: u64) -> Option<GridStage>
        ensures stages { self.new.stages.items ≡ after_stage stage self.old.stages.items }
        ensures taken { result ≡ acked_stage stage self.old.stages.items }
        ensures rest { self.new ≡ record self.old { stages = self.new.stages } }
    {
        match self.stages.front() {
            Some(t) if t.stage == stage => self.stages.pop_front(),
            _ => None,
        }
    }

    // Counts the units that an acknowledged operation put in.
    //
    // Returns `OutOfMemory` where a count would pass 2^64 - 1.
    fn count_units(&mut self, op: &CellOp) -> Result<(), OutOfMemory>
        ensures { OnOk result (CountsUnits op.now self.old self.new) }
    {
        match op {
            CellOp::SpliceIn { target, count, .. } => self.count_made(*target, *count),
            CellOp::SpliceOut { .. } | CellOp::Set { .. } => Ok(()),
        }
    }
}
