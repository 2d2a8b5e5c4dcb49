//! Sums of counts.

ghost use Rattle.std.specs.Prelude.{◌≡◌, ◌+◌, IfOk};

use ft_base::OutOfMemory;

/// The sum.
///
/// Returns `OutOfMemory` where it has more than 64 bits: so much is in no memory.
pub fn added(a: u64, b: u64) -> Result<u64, OutOfMemory>
    ensures { IfOk result (λ sum. sum ≡ a + b) }
{
    match a.checked_add(b) {
        Some(sum) => Ok(sum),
        None => Err(OutOfMemory),
    }
}
