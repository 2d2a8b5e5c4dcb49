//! Copies of values.

use ft_base::{Datum, OutOfMemory};

/// Whether a copy of the value is made and is the same.
///
/// Returns `OutOfMemory` where there is no room for it.
pub fn is_copied<T: Datum>(value: &T) -> Result<bool, OutOfMemory> {
    let copy = value.copy()?;
    Ok(copy.same(value))
}
