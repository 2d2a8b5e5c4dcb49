//! Values that are moved without a look at what they are. So the proofs of those who move large ones take none of them apart.

ghost use Rattle.std.specs.Prelude.{◌≡◌, ◌<◌, ◌++◌, ◌∷◌, [], Err, IfErr, IfOk, IsOk, Ok, OnErr, OnOk, drop, if◌then◌else◌};
ghost use Rattle.std.specs.VecDeque.{deque_capacity, deque_len};

use crate::memory::OutOfMemory;
use std::alloc::Global;
use std::collections::VecDeque;

/// The value, if what was to be done before is done, or why it isn't.
pub fn after<D: Drop, T: Drop, E: Drop>(done: Result<D, E>, value: T) -> Result<T, E>
    ensures done { OnOk result ((d : D) × (done ≡ Ok d)) }
    ensures value { IfOk result (λ given. given ≡ value) }
    ensures err { IfErr result (λ why. done ≡ Err why) }
{
    match done {
        Ok(_) => Ok(value),
        Err(why) => Err(why),
    }
}

/// What was made, and the value beside it, or why it wasn't made.
pub fn beside<A: Drop, B: Drop, E: Drop>(made: Result<A, E>, value: B) -> Result<(A, B), E>
    ensures made { IfOk result (λ pair. made ≡ Ok pair.0) }
    ensures value { IfOk result (λ pair. pair.1 ≡ value) }
    ensures err { IfErr result (λ why. made ≡ Err why) }
{
    match made {
        Ok(made) => Ok((made, value)),
        Err(why) => Err(why),
    }
}

/// Both values, if both were made. It takes no memory itself.
pub fn both<A: Drop, B: Drop>(
    first: Result<A, OutOfMemory>,
    second: Result<B, OutOfMemory>,
) -> Result<(A, B), OutOfMemory>
    ensures first { IfOk result (λ pair. first ≡ Ok pair.0) }
    ensures second { IfOk result (λ pair. second ≡ Ok pair.1) }
    ensures made { IsOk first → IsOk second → IsOk result }
{
    let first = first?;
    let second = second?;
    Ok((first, second))
}

/// All three values, if each was made. It takes no memory itself.
pub fn all_three<A: Drop, B: Drop, C: Drop>(
    first: Result<A, OutOfMemory>,
    second: Result<B, OutOfMemory>,
    third: Result<C, OutOfMemory>,
) -> Result<(A, B, C), OutOfMemory>
    ensures first { IfOk result (λ made. first ≡ Ok made.0) }
    ensures second { IfOk result (λ made. second ≡ Ok made.1) }
    ensures third { IfOk result (λ made. third ≡ Ok made.2) }
    ensures made { IsOk first → IsOk second → IsOk third → IsOk result }
{
    Ok((first?, second?, third?))
}

/// The value on the heap, if it was made.
///
/// Returns `OutOfMemory` where there is no room for it either.
pub fn boxed<T: Drop>(alloc: Global, made: Result<T, OutOfMemory>) -> Result<Box<T>, OutOfMemory>
    ensures { IfOk result (λ boxed. made ≡ Ok boxed.value) }
{
    Ok(Box::new(alloc, made?)?)
}

/// Puts a value in the place of another, if it was made. It takes no memory itself.
pub fn fill<T: Drop>(place: &mut T, made: Result<T, OutOfMemory>) -> Result<(), OutOfMemory>
    ensures ok { OnOk result (made ≡ Ok place.new) }
    ensures err { OnErr result (place.new ≡ place.old) }
    ensures made { IsOk made → IsOk result }
{
    *place = made?;
    Ok(())
}

/// Adds an item behind the others.
///
/// Returns `OutOfMemory` where there is no room for it, and then nothing changed.
pub fn push<T: Drop>(items: &mut Vec<T>, item: T) -> Result<(), OutOfMemory>
    ensures items { OnOk result (items.new.items ≡ items.old.items ++ item ∷ []) }
    ensures err { OnErr result (items.new.items ≡ items.old.items) }
{
    items.push(item)?;
    Ok(())
}

/// Adds an item behind the others, and gives the value beside it, if both were made.
///
/// Returns `OutOfMemory` where there is no room for the item either, and then nothing changed.
pub fn push_beside<T: Drop, V: Drop>(
    items: &mut Vec<T>,
    made: Result<(T, V), OutOfMemory>,
) -> Result<V, OutOfMemory>
    ensures ok { IfOk result (λ value. (item : T) × (made ≡ Ok (item, value)) × (items.new.items ≡ items.old.items ++ item ∷ [])) }
    ensures err { OnErr result (items.new.items ≡ items.old.items) }
{
    let (item, value) = made?;
    items.push(item)?;
    Ok(value)
}

/// Adds an item behind the others, unless it is among them.
///
/// Returns `OutOfMemory` where there is no room for it, or it couldn't be found out whether it is among them, and then nothing changed.
pub fn push_unless<T: Drop>(
    there: Result<bool, OutOfMemory>,
    items: &mut Vec<T>,
    item: T,
) -> Result<(), OutOfMemory>
    ensures found { OnOk result (IsOk there) }
    ensures items { OnOk result (IfOk there (λ t. items.new.items ≡ (if t then items.old.items else items.old.items ++ item ∷ []))) }
    ensures err { OnErr result (items.new.items ≡ items.old.items) }
{
    if there? {
        return Ok(());
    }
    items.push(item)?;
    Ok(())
}

/// Adds an item behind the others of a queue.
///
/// Returns `OutOfMemory` where there is no room for it, and then nothing changed.
pub fn push_behind<T: Drop>(items: &mut VecDeque<T>, item: T) -> Result<(), OutOfMemory>
    ensures items { OnOk result (items.new.items ≡ items.old.items ++ item ∷ []) }
    ensures err { OnErr result (items.new.items ≡ items.old.items) }
{
    items.push_back(item)?;
    Ok(())
}

/// Adds an item behind the others of a queue, in room that there is, if what was to be done before is done.
pub fn push_reserved<T: Drop>(
    done: Result<(), OutOfMemory>,
    items: &mut VecDeque<T>,
    item: T,
) -> Result<(), OutOfMemory>
    requires { OnOk done (deque_len items.old < deque_capacity items.old) }
    ensures same { result ≡ done }
    ensures ok { OnOk result (items.new.items ≡ items.old.items ++ item ∷ []) }
    ensures err { OnErr result (items.new.items ≡ items.old.items) }
{
    done?;
    items.push_back_reserved(item);
    Ok(())
}

/// Takes the first item of a queue away, if there is one.
pub fn drop_first<T: Drop>(items: &mut VecDeque<T>)
    ensures { items.new.items ≡ drop 1 items.old.items }
{
    let _ = items.pop_front();
}
