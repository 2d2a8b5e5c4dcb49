//! Intervals as a summary gives them.

ghost use Rattle.std.specs.Prelude.{◌≡◌, ◌++◌, [], ◌∷◌, OnOk, OnErr};

use crate::intervals::{PlainInterval, PlainIntervals};
use ft_base::OutOfMemory;
use ft_base::moved::push;

impl PlainIntervals {
    /// Adds an interval behind all others: the caller sees to their order.
    ///
    /// Returns `OutOfMemory` where there is no room for it, and then nothing changed.
    pub fn push(&mut self, interval: PlainInterval) -> Result<(), OutOfMemory>
        ensures ok { OnOk result (self.new ≡ self.old ++ interval ∷ []) }
        ensures err { OnErr result (self.new ≡ self.old) }
    {
        push(&mut self.items, interval)
    }
}
