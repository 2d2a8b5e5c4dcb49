//! Values that are moved without a look at what they are. So the proofs of those who move large ones take none of them apart.

ghost use Rattle.std.specs.Prelude.{◌≡◌, ◌∷◌, [], IfOk, Ok};

use ft_base::OutOfMemory;
use std::alloc::Global;

/// A list of one item, in room for just it, if it was made.
///
/// Returns `OutOfMemory` where there is no room for it either.
pub fn list_of<T: Drop>(alloc: Global, made: Result<T, OutOfMemory>) -> Result<Vec<T>, OutOfMemory>
    ensures { IfOk result (λ items. (item : T) × (made ≡ Ok item) × (items.items ≡ item ∷ [])) }
{
    let item = made?;
    let mut items = Vec::with_capacity(alloc, 1)?;
    items.push(item)?;
    Ok(items)
}
