//! The cells with what is pending on them.

ghost use Rattle.std.specs.Prelude.{◌≡◌, IfOk, OnOk};
ghost use Rattle.ft_plain_document.specs.WrittenCells.{cells_after_stages};

use crate::documents::PlainDocument;
use crate::documents::acknowledgements::write_to_cells;
use crate::stages::PlainStage;
use ft_base::OutOfMemory;
use ft_plain_lists::PlainCells;

impl PlainDocument {
    /// The cells after the writes of these pending stages.
    pub fn written_cells(&self, pending: &[PlainStage]) -> Result<PlainCells, OutOfMemory>
        ensures { IfOk result (λ cells. cells ≡ cells_after_stages self.now.cells pending.now) }
    {
        let mut cells = self.cells.copy()?;
        write_stages(&mut cells, pending)?;
        Ok(cells)
    }
}

// Writes what the stages write.
fn write_stages(cells: &mut PlainCells, stages: &[PlainStage]) -> Result<(), OutOfMemory>
    ensures { OnOk result (cells.new ≡ cells_after_stages cells.old stages.now) }
{
    for stage in stages {
        write_to_cells(cells, stage.sub_operation(), stage.names())?;
    }
    Ok(())
}
