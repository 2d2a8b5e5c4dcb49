//! What goes of a shared text that nobody can ask for any more.

ghost use Rattle.std.specs.Prelude.{◌≡◌, ℕ, ◌≤◌, List, IsTrue, OnErr, OnOk, false};
ghost use Rattle.ft_laws_compaction.specs.Free.{AreFree};
ghost use Rattle.ft_op.specs.Document.{Document};
ghost use Rattle.ft_op.specs.Stages.{Stage};
ghost use Rattle.ft_string.specs.Calls.{CompactsText, HasNoneBelow, HoldsFree, is_held};
ghost use Rattle.ft_string.specs.Holds.{HoldsText, IsTextSound};

use crate::strings::SharedString;
use ft_base::OutOfMemory;
use ft_zamboni::{scour, scour_all};

impl SharedString {
    /// Raises the floor, and takes all elements out that were removed at or below it. They carry nothing pending, no end of an
    /// interval is on them, and they stand before no pending element.
    ///
    /// Returns `OutOfMemory` where there is no room for what is kept, and then the text may be used no more.
    pub fn compact(&mut self, floor: u64) -> Result<(), OutOfMemory>
        requires usable { IsTrue self.old.usable }
        requires none_given { self.old.given ≡ 0 }
        requires rising { self.old.floor ≤ floor }
        requires held { (last : ℕ) × HoldsFree last floor self.old }
        ensures compacts { (last : ℕ) → (doc : Document) → (stages : List Stage) → IsTextSound last doc stages → HoldsText self.old doc stages
            → AreFree floor (is_held doc stages) doc.text.items → OnOk result (CompactsText floor self.new doc stages) }
        ensures none { OnOk result (HasNoneBelow floor self.new) }
        ensures floor { OnOk result (self.new.floor ≡ floor) }
        ensures given { OnOk result (self.new.given ≡ 0) }
        ensures usable { OnOk result (IsTrue self.new.usable) }
        ensures err { OnErr result (self.new.usable ≡ false) }
    {
        self.usable = false;
        let mut taken = Vec::new(self.tree.allocator());
        scour_all(&mut self.tree, floor, &mut taken)?;
        self.usable = true;
        Ok(())
    }

    /// The same for `budget` further leaves, or all if fewer.
    ///
    /// Returns `OutOfMemory` where there is no room for what is kept, and then the text may be used no more.
    pub fn tidy(&mut self, floor: u64, budget: u64) -> Result<(), OutOfMemory>
        requires usable { IsTrue self.old.usable }
        requires none_given { self.old.given ≡ 0 }
        requires rising { self.old.floor ≤ floor }
        requires held { (last : ℕ) × HoldsFree last floor self.old }
        ensures compacts { (last : ℕ) → (doc : Document) → (stages : List Stage) → IsTextSound last doc stages → HoldsText self.old doc stages
            → AreFree floor (is_held doc stages) doc.text.items → OnOk result (CompactsText floor self.new doc stages) }
        ensures floor { OnOk result (self.new.floor ≡ floor) }
        ensures given { OnOk result (self.new.given ≡ 0) }
        ensures usable { OnOk result (IsTrue self.new.usable) }
        ensures err { OnErr result (self.new.usable ≡ false) }
    {
        self.usable = false;
        let mut taken = Vec::new(self.tree.allocator());
        scour(&mut self.tree, floor, budget, &mut taken)?;
        self.usable = true;
        Ok(())
    }
}
