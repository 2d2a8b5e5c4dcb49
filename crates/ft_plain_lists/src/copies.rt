//! Copies of lists.

ghost use Rattle.std.specs.Prelude.{◌≡◌, IfOk};

use crate::moved::push_made;
use ft_base::OutOfMemory;
use std::alloc::Global;

/// An item of which a list can be copied.
pub(crate) trait Copied: Sized + Drop {
    /// An equal item.
    fn copied(&self) -> Result<Self, OutOfMemory>
        ensures { IfOk result (λ copy. copy ≡ self.now) };
}

/// Equal items.
pub(crate) fn copied_items<T: Copied>(alloc: Global, items: &[T]) -> Result<Vec<T>, OutOfMemory>
    ensures { IfOk result (λ copies. copies.items ≡ items.now) }
{
    let mut copies = Vec::new(alloc);
    for item in items {
        push_made(&mut copies, item.copied())?;
    }
    Ok(copies)
}
