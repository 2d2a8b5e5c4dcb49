//! The ends of an interval as an operation gives them.

ghost use Rattle.std.specs.Prelude.{◌≡◌};
ghost use Rattle.ft_base.specs.Scan.{len};
ghost use Rattle.ft_op.specs.Intervals.{element_at_end, elements_at_ends, ends_fit, is_detached, is_place};
ghost use Rattle.ft_op.specs.Document.{elements_at_given_ends, given_ends_fit};

use crate::element_tests::ElementTest;
use crate::lists::PlainList;
use crate::names::{ElementName, ElementNames};
use ft_op::Ends;

/// Whether both ends are detached, or both are places among the elements that are seen.
pub fn ends_fit<T: ElementTest>(list: &PlainList, ends: Ends, seen: T) -> bool
    ensures { result ≡ ends_fit (len (T.test seen) list.now.items) ends }
{
    let count = list.seen_count(seen);
    (is_detached(ends.start) && is_detached(ends.end))
        || (is_place(count, ends.start) && is_place(count, ends.end))
}

/// The same, if ends are given.
pub fn given_ends_fit<T: ElementTest>(list: &PlainList, ends: Option<Ends>, seen: T) -> bool
    ensures { result ≡ given_ends_fit (len (T.test seen) list.now.items) ends }
{
    match ends {
        Some(ends) => ends_fit(list, ends, seen),
        None => true,
    }
}

/// The elements at the ends, among those that are seen.
pub fn elements_at_ends<T: ElementTest>(list: &PlainList, ends: Ends, seen: T) -> ElementNames
    ensures { result ≡ elements_at_ends (T.test seen) list.now.items ends }
{
    ElementNames::new(
        element_at_end(list, ends.start, seen),
        element_at_end(list, ends.end, seen),
    )
}

/// The elements at the ends, if ends are given.
pub fn elements_at_given_ends<T: ElementTest>(
    list: &PlainList,
    ends: Option<Ends>,
    seen: T,
) -> ElementNames
    ensures { result ≡ elements_at_given_ends (T.test seen) list.now.items ends }
{
    match ends {
        Some(ends) => elements_at_ends(list, ends, seen),
        None => ElementNames::none(),
    }
}

// Whether the number stands for no place.
fn is_detached(end: i64) -> bool
    ensures { result ≡ is_detached end }
{
    end < 0
}

// Whether the number is a place among so many elements.
fn is_place(count: usize, end: i64) -> bool
    ensures { result ≡ is_place count end }
{
    0 <= end && (end as u64) < count as u64
}

// The element at an end, among those that are seen.
fn element_at_end<T: ElementTest>(list: &PlainList, end: i64, seen: T) -> Option<ElementName>
    ensures { result ≡ element_at_end (T.test seen) list.now.items end }
{
    if end < 0 {
        None
    } else {
        list.name_at(end as u64, seen)
    }
}
