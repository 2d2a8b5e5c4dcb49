//! Scans of a list of elements: how many are seen, where an insertion goes, and which elements a mark
//! is for.

ghost use Rattle.std.specs.Prelude.{◌≡◌, ◌≤◌, ◌+◌, ◌<◌, ◌^◌, ◌++◌, None, IfOk, IsOkAnd, OnOk, OnErr, length, map, option_map, replicate, take, drop};
ghost use Rattle.std.specs.List.{prefix_len};
ghost use Rattle.ft_base.specs.Scan.{at as seen_at, change_range, len, place, rank};
ghost use Rattle.ft_props.specs.Element.{GridUnit, id, is_pending, new_elements};
ghost use Rattle.ft_plain_lists.specs.Contents.{content_of};

use crate::element_tests::ElementTest;
use crate::elements::marks::ElementMark;
use crate::elements::{Content, PlainElement};
use crate::moved::push_made;
use crate::names::ElementName;
use ft_base::{OutOfMemory, Stamp, Stamps};
use ft_props::Props;
use std::alloc::Global;

/// How many elements are seen.
pub fn seen_count<T: ElementTest>(items: &[PlainElement], seen: T) -> usize
    ensures { result ≡ len (T.test seen) items.now }
{
    let mut count = 0;
    for e in items {
        if seen.passes(e) {
            count += 1;
        }
    }
    count
}

/// The number of elements up to the `p`-th that is seen: 0 for `p` = 0, and all where fewer are seen.
pub fn insertion_place<T: ElementTest>(items: &[PlainElement], p: u64, seen: T) -> usize
    ensures place { result ≡ place (T.test seen) p items.now }
    ensures inside { result ≤ length items.now }
{
    let mut left = p;
    for (i, e) in items.iter().enumerate() {
        if left == 0 {
            return i;
        }
        if seen.passes(e) {
            left -= 1;
        }
    }
    items.len()
}

/// The name of the element that is seen with `i` seen ones before it: None exactly where at most `i`
/// are seen.
pub fn name_at<T: ElementTest>(items: &[PlainElement], i: u64, seen: T) -> Option<ElementName>
    ensures { result ≡ option_map id (seen_at (T.test seen) i items.now) }
{
    let mut left = i;
    for e in items {
        if seen.passes(e) {
            if left == 0 {
                return Some(e.name());
            }
            left -= 1;
        }
    }
    None
}

/// How many pending elements stand at the front.
pub fn pending_run(items: &[PlainElement]) -> usize
    ensures run { result ≡ prefix_len is_pending items.now }
    ensures inside { result ≤ length items.now }
{
    for (i, e) in items.iter().enumerate() {
        if !e.is_pending() {
            return i;
        }
    }
    items.len()
}

/// New elements with these contents, removals and properties, numbered from `first` on, which nobody has
/// changed.
pub fn new_elements(
    alloc: Global,
    first: u64,
    ins: Stamp,
    dels: &Stamps,
    by: Option<Stamp>,
    props: &Props,
    contents: &[Content],
) -> Result<Vec<PlainElement>, OutOfMemory>
    requires { first + length contents.now < 2 ^ 64 }
    ensures elements { IfOk result (λ v. v.items ≡ new_elements first ins dels.now by props.now (map content_of contents.now)) }
    ensures count { IfOk result (λ v. length v.items ≡ length contents.now) }
{
    let mut elements = Vec::new(alloc);
    let mut nth = first;
    for content in contents {
        let e = PlainElement::new(alloc, nth, *content, ins, dels, by, props);
        push_made(&mut elements, e)?;
        nth += 1;
    }
    Ok(elements)
}

/// Puts the new elements in at place `i`, if they were made.
///
/// Returns `OutOfMemory` where they weren't or there is no room for them, and then the list is as it was.
pub fn put_at<T: Drop>(
    items: &mut Vec<T>,
    i: usize,
    new: Result<Vec<T>, OutOfMemory>,
) -> Result<(), OutOfMemory>
    requires { i ≤ length items.old.items }
    ensures ok { OnOk result (IsOkAnd new (λ v. items.new.items ≡ take i items.old.items ++ (v.items ++ drop i items.old.items))) }
    ensures count { OnOk result (IsOkAnd new (λ v. length items.new.items ≡ length items.old.items + length v.items)) }
    ensures err { OnErr result (items.new.items ≡ items.old.items) }
{
    let mut new = new?;
    let count = new.len();
    items.append(&mut new)?;
    items[i..].rotate_right(count);
    Ok(())
}

/// Marks each element that is seen from the `p`-th up to before the `q`-th.
///
/// Returns `OutOfMemory` where there is no room for a mark, and then some may have theirs.
pub fn mark_range<T: ElementTest, M: ElementMark>(
    items: &mut [PlainElement],
    p: u64,
    q: u64,
    seen: T,
    mark: &M,
) -> Result<(), OutOfMemory>
    ensures { OnOk result (items.new ≡ change_range (T.test seen) p q (M.marked mark.now) items.old) }
{
    let mut place: u64 = 0;
    for e in items.iter_mut() {
        if seen.passes(e) {
            if p <= place && place < q {
                mark.put_on(e)?;
            }
            place += 1;
        }
    }
    Ok(())
}

/// How many seen elements stand left of the first one that is meant.
pub fn rank<M: ElementTest, T: ElementTest>(items: &[PlainElement], meant: M, seen: T) -> u64
    ensures rank { result ≡ rank (M.test meant) (T.test seen) items.now }
    ensures inside { result ≤ length items.now }
{
    let mut count = 0;
    for e in items {
        if meant.passes(e) {
            return count;
        }
        if seen.passes(e) {
            count += 1;
        }
    }
    count
}

/// The contents of so many new units.
pub fn units(alloc: Global, count: u64) -> Result<Vec<Content>, OutOfMemory>
    ensures { IfOk result (λ v. map content_of v.items ≡ replicate count GridUnit) }
{
    Ok(vec![in alloc; Content::Unit; count as usize]?)
}
