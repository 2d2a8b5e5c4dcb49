//! Whether what stands beside a change is seen at each stage, so that no end of an interval passes the change as it settles.

ghost use Rattle.std.specs.Prelude.{◌≡◌, ◌&&◌, ◌||◌, cond, not, reverse};
ghost use Rattle.ft_base.specs.Scan.{within};
ghost use Rattle.ft_props.specs.Element.{is_pending, seen_by};
ghost use Rattle.ft_changes.specs.Beside.{first_passes, is_always_seen, is_standing, passes_beside_place, passes_beside_range};

use crate::element_tests::ElementTest;
use crate::elements::PlainElement;
use crate::lists::PlainList;
use crate::scans::{insertion_place, pending_run};
use ft_base::Perspective;

impl PlainList {
    /// Whether those that stand on both sides of what goes in directly after the `p`-th element that the perspective sees,
    /// past the run of pending elements there, are seen at each stage. An element stands that no sequenced removal took.
    ///
    /// It goes over all elements.
    pub fn passes_beside_place(&self, p: u64, at: Perspective) -> bool
        ensures { result ≡ passes_beside_place (seen_by at.r at.c) is_pending is_standing is_always_seen p self.now.items }
    {
        passes_beside_place(self.as_slice(), p, at)
    }

    /// Whether those that stand beside the runs of the elements that the perspective sees from the `p`-th, counted from 0, up
    /// to before the `q`-th are seen at each stage.
    ///
    /// It goes over all elements.
    pub fn passes_beside_range(&self, p: u64, q: u64, at: Perspective) -> bool
        ensures { result ≡ passes_beside_range (seen_by at.r at.c) is_standing is_always_seen p q self.now.items }
    {
        passes_beside_range(self.as_slice(), p, q, at)
    }
}

// The same of a place in a list.
fn passes_beside_place<S: ElementTest>(items: &[PlainElement], p: u64, seen: S) -> bool
    ensures { result ≡ passes_beside_place (S.test seen) is_pending is_standing is_always_seen p items.now }
{
    let front = insertion_place(items, p, seen);
    let place = front + pending_run(&items[front..]);
    last_passes(&items[..place]) && first_passes(&items[place..])
}

// Whether the first that stands is always seen, if one stands.
fn first_passes(items: &[PlainElement]) -> bool
    ensures { result ≡ first_passes is_standing is_always_seen items.now }
{
    for e in items {
        if e.is_standing() {
            return e.is_always_seen();
        }
    }
    true
}

// Whether the last that stands is always seen, if one stands.
fn last_passes(items: &[PlainElement]) -> bool
    ensures { result ≡ first_passes is_standing is_always_seen (reverse items.now) }
{
    let mut passes = true;
    for e in items {
        if e.is_standing() {
            passes = e.is_always_seen();
        }
    }
    passes
}

// An element that stands: whether it is in the range, and whether it is always seen.
#[derive(Clone, Copy)]
struct Neighbour {
    is_inside: bool,
    passes: bool,
}

// The element as a neighbour.
fn as_neighbour(e: &PlainElement, is_inside: bool) -> Neighbour
    ensures { result ≡ record { is_inside = is_inside; passes = is_always_seen e.now } }
{
    let passes = e.is_always_seen();
    Neighbour { is_inside, passes }
}

// Whether it is seen, and its place is in the range.
fn is_inside(is_seen: bool, place: u64, p: u64, q: u64) -> bool
    ensures { result ≡ (is_seen && within p q place) }
{
    is_seen && p <= place && place < q
}

// Whether these two may stand side by side: if one alone is in the range, the other one is always seen.
fn may_meet(a: Neighbour, b: Neighbour) -> bool
    ensures { result ≡ cond a.is_inside (b.is_inside || b.passes) (not b.is_inside || a.passes) }
{
    if a.is_inside {
        b.is_inside || b.passes
    } else {
        !b.is_inside || a.passes
    }
}

// Whether those that stand beside the runs of the range are always seen.
fn passes_beside_range<S: ElementTest>(items: &[PlainElement], p: u64, q: u64, seen: S) -> bool
    ensures { result ≡ passes_beside_range (S.test seen) is_standing is_always_seen p q items.now }
{
    let mut place: u64 = 0;
    let mut last = Neighbour {
        is_inside: false,
        passes: true,
    };
    for e in items {
        let is_seen = seen.passes(e);
        if e.is_standing() {
            let next = as_neighbour(e, is_inside(is_seen, place, p, q));
            if !may_meet(last, next) {
                return false;
            }
            last = next;
        }
        if is_seen {
            place += 1;
        }
    }
    true
}
