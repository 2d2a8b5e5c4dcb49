//! Cells as a summary gives them.

ghost use Rattle.std.specs.Prelude.{◌≡◌, ◌++◌, [], ◌∷◌, OnOk, OnErr};

use crate::cells::{PlainCell, PlainCells};
use crate::names::ElementName;
use ft_base::OutOfMemory;
use ft_base::moved::push;
use ft_json::ValText;

impl PlainCells {
    /// Adds a cell behind all others: the caller sees to it that its row and column have none yet.
    ///
    /// Returns `OutOfMemory` where there is no room for it, and then nothing changed.
    pub fn push(
        &mut self,
        row: ElementName,
        col: ElementName,
        value: ValText,
    ) -> Result<(), OutOfMemory>
        ensures ok { OnOk result (self.new ≡ self.old ++ record { row = row; col = col; value = value } ∷ []) }
        ensures err { OnErr result (self.new ≡ self.old) }
    {
        push(&mut self.items, PlainCell { row, col, value })
    }
}
