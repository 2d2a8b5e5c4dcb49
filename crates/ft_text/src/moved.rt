//! Values that are moved without a look at what they are. So the proofs of those who move large ones take none of them apart.

ghost use Rattle.std.specs.Prelude.{◌≡◌};

/// Puts a value in the place of another one.
pub fn assign<T: Drop>(place: &mut T, value: T)
    ensures { place.new ≡ value }
{
    *place = value;
}
