//! Values that are moved without a look at what they are. So the proofs of those who move large ones take none of them apart.

ghost use Rattle.std.specs.Prelude.{◌≡◌, ◌+◌, ◌++◌, ◌∷◌, [], IsOkAnd, OnErr, OnOk, length, reverse};
ghost use Rattle.ft_plain_lists.specs.Places.{IsPlaceIn, set_or_insert};

use ft_base::{List, OutOfMemory};

/// Adds an item behind the others, if it was made.
///
/// Returns `OutOfMemory` where it wasn't or there is no room for it, and then nothing changed.
pub fn push_made<T: Drop>(
    items: &mut Vec<T>,
    made: Result<T, OutOfMemory>,
) -> Result<(), OutOfMemory>
    ensures items { OnOk result (IsOkAnd made (λ item. items.new.items ≡ items.old.items ++ item ∷ [])) }
    ensures count { OnOk result (length items.new.items ≡ length items.old.items + 1) }
    ensures err { OnErr result (items.new.items ≡ items.old.items) }
{
    items.push(made?)?;
    Ok(())
}

/// Puts an item at its place: over the one there, or else, for an error, in before it.
///
/// Returns `OutOfMemory` where there is no room for it, and then nothing changed.
pub fn set_or_insert<T: Drop>(
    items: &mut Vec<T>,
    place: Result<usize, usize>,
    item: T,
) -> Result<(), OutOfMemory>
    requires { IsPlaceIn place (length items.old.items) }
    ensures items { OnOk result (items.new.items ≡ set_or_insert place item items.old.items) }
    ensures err { OnErr result (items.new.items ≡ items.old.items) }
{
    match place {
        Ok(i) => items[i] = item,
        Err(i) => items.insert(i, item)?,
    }
    Ok(())
}

/// The items the other way round.
pub fn turned<T: Drop>(mut items: Vec<T>) -> List<T>
    ensures { result ≡ reverse items.items }
{
    items.reverse();
    List::of(items)
}
