//! Scans of a plain list of elements: how many a perspective sees, and where an insertion goes.

ghost use Rattle.std.specs.Prelude.{◌≡◌, ◌≤◌, [], ◌∷◌, OnOk, OnErr, length};
ghost use Rattle.ft_base.specs.Visibility.{sees};
ghost use Rattle.ft_base.specs.Scan.{len, place, put, no_run};

use crate::elements::{Element, Perspective};
use crate::memory::OutOfMemory;
use crate::visibility::sees;

/// How many of the elements the perspective sees.
#[tactic(auto, using(crate::proofs::PlainList::seen_counts))]
pub fn seen_count(items: &[Element], at: Perspective) -> usize
    ensures { result ≡ len (λ e. sees e at.r at.c) items.now }
{
    items.iter().filter(|e| sees(e, at)).count()
}

/// The number of elements up to the `p`-th that the perspective sees: 0 for `p` = 0, and all where
/// it sees fewer than `p`.
pub fn insertion_place(items: &[Element], p: usize, at: Perspective) -> usize
    ensures place { result ≡ place (λ e. sees e at.r at.c) p items.now }
    ensures inside { result ≤ length items.now }
{
    let mut left = p;
    for (i, e) in items.iter().enumerate() {
        if left == 0 {
            return i;
        }
        if sees(e, at) {
            left -= 1;
        }
    }
    items.len()
}

/// Puts the element directly after the `p`-th that the perspective sees, or at the head for `p` = 0.
///
/// Returns `OutOfMemory` where there is no room for it, and then the list is as it was.
pub fn insert_at_place(
    items: &mut Vec<Element>,
    p: usize,
    at: Perspective,
    new: Element,
) -> Result<(), OutOfMemory>
    ensures ok { OnOk result (items.new.items ≡ put (λ e. sees e at.r at.c) no_run p (new ∷ []) items.old.items) }
    ensures err { OnErr result (items.new.items ≡ items.old.items) }
{
    let i = insertion_place(items.as_slice(), p, at);
    items.insert(i, new)?;
    Ok(())
}
