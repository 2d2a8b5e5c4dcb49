//! A document whose pending stages are put in afresh.

ghost use Rattle.std.specs.Prelude.{◌≡◌, OnOk};
ghost use Rattle.ft_msg.specs.Reconnection.{rebuilt_document};

use crate::documents::PlainDocument;
use ft_base::OutOfMemory;

impl PlainDocument {
    /// Puts the elements of each of these pending stages in afresh.
    ///
    /// Returns `OutOfMemory` where there is no room for that or a list would have more than 2^53 - 1 elements.
    pub fn rebuild(&mut self, stages: &[u64]) -> Result<(), OutOfMemory>
        ensures { OnOk result (self.new ≡ rebuilt_document stages.now self.old) }
    {
        self.text.rebuild(stages)?;
        self.rows.rebuild(stages)?;
        self.cols.rebuild(stages)
    }
}
