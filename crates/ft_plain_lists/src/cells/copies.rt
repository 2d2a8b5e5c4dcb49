//! Copies of cells.

ghost use Rattle.std.specs.Prelude.{◌≡◌, IfOk};

use crate::cells::{PlainCell, PlainCells};
use crate::copies::{Copied, copied_items};
use ft_base::{Datum, OutOfMemory};

impl Copied for PlainCell {
    fn copied(&self) -> Result<PlainCell, OutOfMemory> {
        Ok(PlainCell {
            row: self.row,
            col: self.col,
            value: self.value.copy()?,
        })
    }
}

impl PlainCells {
    /// Equal cells.
    pub fn copy(&self) -> Result<PlainCells, OutOfMemory>
        ensures { IfOk result (λ copy. copy ≡ self.now) }
    {
        let items = copied_items(*self.items.allocator(), self.items.as_slice())?;
        Ok(PlainCells { items })
    }
}
