//! Values that are kept under their names, in the order in which they came.

ghost use Rattle.std.specs.Prelude.{◌≡◌, ◌∷◌, ◌++◌, [], ℕ, List, OnErr, OnOk, bytes_eq, string_bytes};
ghost use Rattle.std.specs.List.{position};
ghost use Rattle.indexmap.specs.IndexMap.{keys, values};
ghost use Rattle.ft_delivery.specs.Kept.{AreUnderNames, IsNewUnder, is_named};

use ft_base::{OutOfMemory, Text};
use indexmap::IndexMap;

// Among so many names one is found by comparing it with each, which takes less time than its hash.
const FEW: usize = 16;

/// The place of the value that is kept under this name.
pub fn place_of<V>(kept: &IndexMap<String, V>, name: &Text) -> Option<usize>
    ensures { (name_of : V → List ℕ) → AreUnderNames name_of kept.now.entries → result ≡ position (is_named name_of name.now) (values kept.now) }
{
    let name = name.as_str();
    if kept.len() <= FEW {
        return place_among(kept, name);
    }
    kept.get_index_of(name)
}

// The same, found by comparing the name with one key after another.
fn place_among<V>(kept: &IndexMap<String, V>, name: &str) -> Option<usize>
    ensures { result ≡ position (λ key. bytes_eq name.now (string_bytes key)) (keys kept.now) }
{
    let mut place = 0;
    for key in kept.keys() {
        if name == key.as_str() {
            return Some(place);
        }
        place += 1;
    }
    None
}

/// Keeps a value under its name, which no other one has.
///
/// Returns `OutOfMemory` where there is no room for it, and then nothing changed.
pub fn keep<V: Drop>(
    kept: &mut IndexMap<String, V>,
    name: &Text,
    value: V,
) -> Result<(), OutOfMemory>
    ensures under { (name_of : V → List ℕ) → IsNewUnder name_of kept.old.entries name.now value → AreUnderNames name_of kept.new.entries }
    ensures values { (name_of : V → List ℕ) → IsNewUnder name_of kept.old.entries name.now value → OnOk result (values kept.new ≡ values kept.old ++ value ∷ []) }
    ensures err { OnErr result (kept.new.entries ≡ kept.old.entries) }
{
    let key = String::from_str(*kept.allocator(), name.as_str())?;
    kept.insert(key, value)?;
    Ok(())
}
