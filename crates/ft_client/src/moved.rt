//! Values that are moved without a look at what they are. So the proofs of those who move large ones take none of them apart.

ghost use Rattle.std.specs.Prelude.{◌≡◌, ◌++◌, ◌∷◌, [], List, IfOk, Ok};

use ft_base::{List, OutOfMemory};
use std::alloc::Global;

/// A list of the item alone.
pub(crate) fn one_item<T: Drop>(alloc: Global, item: T) -> Result<List<T>, OutOfMemory>
    ensures { IfOk result (λ items. items ≡ item ∷ []) }
{
    let mut items = List::new(alloc);
    items.push(item)?;
    Ok(items)
}

/// The items of both lists, if there are both.
pub(crate) fn joined<T: Drop>(
    front: Result<List<T>, OutOfMemory>,
    rear: Result<List<T>, OutOfMemory>,
) -> Result<List<T>, OutOfMemory>
    ensures { IfOk result (λ all. (xs : List T) × ((ys : List T) × ((front ≡ Ok xs) × ((rear ≡ Ok ys) × (all ≡ xs ++ ys))))) }
{
    let mut all = front?;
    all.append(rear?)?;
    Ok(all)
}
