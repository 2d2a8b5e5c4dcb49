//! Counts that go up by one.

ghost use Rattle.std.specs.Prelude.{◌≡◌, ◌+◌, IfOk};

use ft_base::OutOfMemory;

/// A count, after one more.
///
/// Returns `OutOfMemory` where it would pass 2^64 - 1.
pub(crate) fn next_count(count: u64) -> Result<u64, OutOfMemory>
    ensures { IfOk result (λ next. next ≡ count + 1) }
{
    count.checked_add(1).ok_or(OutOfMemory)
}
