//! A list as a summary has it.

ghost use Rattle.std.specs.Prelude.{◌≡◌, IfOk};
ghost use Rattle.ft_props.specs.Compaction.{trim_list};

use crate::lists::PlainList;
use crate::moved::push_made;
use ft_base::OutOfMemory;

impl PlainList {
    /// The list as a summary has it: without the collectable elements, and with insertions at or below the
    /// minimum written as the universal one.
    pub fn trimmed(&self, min: u64) -> Result<PlainList, OutOfMemory>
        ensures { IfOk result (λ list. list ≡ trim_list min self.now) }
    {
        let mut items = Vec::new(self.alloc());
        for e in &self.items {
            if !e.is_collectable(min) {
                push_made(&mut items, e.trimmed(min))?;
            }
        }
        Ok(PlainList {
            items,
            made: self.made,
        })
    }
}
