//! Values that are moved without a look at what they are. So the proofs of those who move large ones take none of them apart.

ghost use Rattle.std.specs.Prelude.{◌≡◌, ◌∷◌, [], IfOk, OnErr, OnOk};

use ft_base::OutOfMemory;
use std::alloc::Global;
use std::collections::VecDeque;

/// A queue of the item alone.
pub fn queue_of<T: Drop>(alloc: Global, item: T) -> Result<VecDeque<T>, OutOfMemory>
    ensures { IfOk result (λ queue. queue.items ≡ item ∷ []) }
{
    let mut queue = VecDeque::new(alloc);
    queue.push_back(item)?;
    Ok(queue)
}

/// Puts a value in the place of another, if what was to be made with it was made, and hands that on.
pub fn fill_with<T: Drop, A: Drop, E: Drop>(
    place: &mut T,
    value: T,
    made: Result<A, E>,
) -> Result<A, E>
    ensures same { result ≡ made }
    ensures ok { OnOk result (place.new ≡ value) }
    ensures err { OnErr result (place.new ≡ place.old) }
{
    match made {
        Ok(made) => {
            *place = value;
            Ok(made)
        }
        Err(why) => Err(why),
    }
}
