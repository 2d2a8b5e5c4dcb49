//! The order of keys, labels and ids.

ghost use Rattle.std.specs.Prelude.{◌≡◌, chars};
ghost use Rattle.ft_props.specs.Keys.{text_cmp};

use std::cmp::Ordering;

/// The order of two texts by their characters, which is also that of their UTF-8 bytes.
pub fn compare(a: &str, b: &str) -> Ordering
    ensures { result ≡ text_cmp (chars a.now) (chars b.now) }
{
    a.cmp(b)
}
