//! Values that are moved without a look at what they are. So the proofs of those who move large ones take none of them apart.

ghost use Rattle.std.specs.Prelude.{◌≡◌, ◌++◌, ◌∷◌, [], IsOkAnd, OnOk, cond};

use ft_base::OutOfMemory;
use std::collections::VecDeque;

/// Adds an item behind the others, if it is told that it goes there.
pub(crate) fn push_behind_if<T: Drop>(
    items: &mut VecDeque<T>,
    item: T,
    goes: Result<bool, OutOfMemory>,
) -> Result<(), OutOfMemory>
    ensures { OnOk result (IsOkAnd goes (λ goes. items.new.items ≡ items.old.items ++ cond goes (item ∷ []) [])) }
{
    if goes? {
        items.push_back(item)?;
    }
    Ok(())
}
