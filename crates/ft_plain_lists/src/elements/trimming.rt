//! What a summary writes of an element, and what it keeps of one.

ghost use Rattle.std.specs.Prelude.{◌≡◌, IfOk, cond};
ghost use Rattle.ft_base.specs.declared.stamps.Stamp.TheVariants.{Acked};
ghost use Rattle.ft_props.specs.Compaction.{has_collectable_removal, is_collectable, is_insertion_at_or_below, trim_element};

use crate::elements::PlainElement;
use ft_base::{OutOfMemory, Stamp};
use ft_props::Props;

impl PlainElement {
    /// Its insertion.
    pub fn ins(&self) -> Stamp
        ensures { result ≡ self.now.ins }
    {
        self.ins
    }

    /// Its sequenced removals, by rising number.
    pub fn dels(&self) -> &[Stamp]
        ensures { result.now ≡ self.now.dels }
    {
        self.dels.as_slice()
    }

    /// The message that inserted it, where that is known.
    pub fn by(&self) -> Option<Stamp>
        ensures { result ≡ self.now.by }
    {
        self.by
    }

    /// Its acknowledged properties.
    pub fn props(&self) -> &Props
        ensures { result.now ≡ self.now.props }
    {
        &self.props
    }

    /// Whether it is sequenced and its first removal is at or below the minimum.
    pub(crate) fn is_collectable(&self, min: u64) -> bool
        ensures { result ≡ is_collectable min self.now }
    {
        self.is_sequenced() && has_collectable_removal(self.dels.as_slice(), min)
    }

    /// The element as a summary has it: an insertion at or below the minimum is written as the universal
    /// one.
    pub(crate) fn trimmed(&self, min: u64) -> Result<PlainElement, OutOfMemory>
        ensures { IfOk result (λ e. e ≡ trim_element min self.now) }
    {
        self.copy_with(trimmed_insertion(self.ins, min))
    }
}

// The insertion, or the universal one in place of one at or below the minimum.
fn trimmed_insertion(ins: Stamp, min: u64) -> Stamp
    ensures { result ≡ cond (is_insertion_at_or_below min ins) (Acked 0 0) ins }
{
    if is_at_or_below(&ins, min) {
        return Stamp::Acked { seq: 0, conn: 0 };
    }
    ins
}

// Whether the first removal is at or below the minimum.
fn has_collectable_removal(dels: &[Stamp], min: u64) -> bool
    ensures { result ≡ has_collectable_removal min dels.now }
{
    match dels {
        [] => false,
        [first, ..] => is_at_or_below(first, min),
    }
}

// Whether the stamp is sequenced, at or below the minimum.
fn is_at_or_below(stamp: &Stamp, min: u64) -> bool
    ensures { result ≡ is_insertion_at_or_below min stamp.now }
{
    match stamp {
        Stamp::Acked { seq, .. } => *seq <= min,
        Stamp::Local { .. } => false,
    }
}
