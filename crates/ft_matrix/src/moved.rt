//! Values that are moved without a look at what they are. So the proofs of those who move large ones take none of them apart.

ghost use Rattle.std.specs.Prelude.{◌≡◌, ℕ, OnOk, Some, cond};
ghost use Rattle.std.specs.BTreeMap as tree;
ghost use Rattle.ft_matrix.specs.Seen.{place_cmp};

use ft_base::OutOfMemory;
use std::collections::BTreeMap;

/// Puts a value at a place, over one that is there.
///
/// Returns `OutOfMemory` where there is no room for it.
pub(crate) fn put_over<V: Drop>(
    placed: &mut BTreeMap<(u64, u64), V>,
    place: (u64, u64),
    value: V,
) -> Result<(), OutOfMemory>
    ensures { OnOk result ((q : ℕ × ℕ) → tree.get place_cmp placed.new q ≡ cond (tree.is_at (place_cmp place) q) (Some value) (tree.get place_cmp placed.old q)) }
{
    placed.insert(place, value)?;
    Ok(())
}
