//! A document as a summary keeps it.

ghost use Rattle.std.specs.Prelude.{◌≡◌, IfOk};
ghost use Rattle.ft_msg.specs.Summary.{trim};

use crate::documents::PlainDocument;
use ft_base::OutOfMemory;
use ft_base::moved::{all_three, both};

impl PlainDocument {
    /// The document as a summary keeps it: without collectable elements and cells of removed rows and
    /// columns, and with insertions at or below the minimum written as the universal one.
    pub fn trimmed(&self) -> Result<PlainDocument, OutOfMemory>
        ensures { IfOk result (λ doc. doc ≡ trim self.now) }
    {
        let min = self.minimum;
        let texts = both(self.text.trimmed(min), self.intervals.copy());
        let written = self
            .cells
            .trimmed(self.rows.as_slice(), self.cols.as_slice());
        let grid = all_three(self.rows.trimmed(min), self.cols.trimmed(min), written);
        let ((text, intervals), (rows, cols, cells)) = both(texts, grid)?;
        Ok(PlainDocument {
            text,
            rows,
            cols,
            intervals,
            cells,
            skipped: self.skipped,
            other: self.other,
            number: self.number,
            minimum: min,
        })
    }
}
