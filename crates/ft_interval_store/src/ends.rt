//! The ends of intervals on a tree.

ghost use Rattle.std.specs.Prelude.{◌≡◌, ◌<◌, ℕ, None, IsTrue, IfOk, OnErr, OnOk, cond, false, option_map, pos, true};
ghost use Rattle.ft_block.specs.Leaves.{IsFromFloor};
ghost use Rattle.ft_base.specs.Scan.{len};
ghost use Rattle.ft_tree_leaves.specs.Elements.{seen_in};
ghost use Rattle.ft_tree_leaves.specs.References.{reference_at, slid_reference};
ghost use Rattle.ft_op.specs.Document.{given_ends_fit};
ghost use Rattle.ft_op.specs.Intervals.{ends_fit, is_place};
ghost use Rattle.ft_interval_store.specs.Ends.{AreAddedEnds, AreDistinctEnds, AreLiveEnds, IsAddedEnd, IsLiveEnd, holds_end, is_reference, place_of_position, places_of_given};
ghost use Rattle.ft_interval_store.specs.State.{text_elements};

use crate::intervals::EndPair;
use crate::numbers::add_number;
use ft_base::OutOfMemory;
use ft_block::LenView;
use ft_op::Ends;
use ft_refs::RefId;
use ft_tree::{TextContent, Tree};

/// Whether the ends, if some are given, are both detached or both places among `length` elements.
pub fn given_ends_fit(length: u64, given: Option<Ends>) -> bool
    ensures { result ≡ given_ends_fit length given }
{
    match given {
        Some(ends) => ends_fit(length, ends),
        None => true,
    }
}

// Whether both ends are detached, or both are places among `length` elements.
fn ends_fit(length: u64, ends: Ends) -> bool
    ensures { result ≡ ends_fit length ends }
{
    if ends.start < 0 && ends.end < 0 {
        return true;
    }
    is_place(length, ends.start) && is_place(length, ends.end)
}

// Whether the number is a place among `length` elements.
fn is_place(length: u64, position: i64) -> bool
    ensures { result ≡ is_place length position }
{
    match u64::try_from(position) {
        Ok(p) => p < length,
        Err(_) => false,
    }
}

// Puts a pending reference on the element at that position of the view, none where the position is below 0.
//
// Returns `OutOfMemory` where there is no room for it, and then the tree may be used no more.
fn add_end(
    tree: &mut Tree<TextContent>,
    position: i64,
    view: LenView,
) -> Result<Option<RefId>, OutOfMemory>
    requires usable { IsTrue tree.old.usable }
    requires floor { IsFromFloor tree.old.floor view }
    requires there { (p : ℕ) → position ≡ pos p → p < len (seen_in view) (text_elements tree.old) }
    ensures end { IfOk result (λ end. IsAddedEnd (place_of_position (seen_in view) (text_elements tree.old) position) tree.old.refs tree.new.refs end) }
    ensures rest { OnOk result (tree.new ≡ record tree.old { refs = tree.new.refs }) }
    ensures err { OnErr result (tree.new.usable ≡ false) }
{
    let Ok(p) = u64::try_from(position) else {
        return Ok(None);
    };
    add_number(tree, Some(p), view)
}

/// Puts pending references on the elements at the given ends, if some are given.
///
/// Returns `OutOfMemory` where there is no room for them, and then the tree may be used no more.
pub fn add_ends(
    tree: &mut Tree<TextContent>,
    given: Option<Ends>,
    view: LenView,
) -> Result<EndPair<RefId>, OutOfMemory>
    requires usable { IsTrue tree.old.usable }
    requires floor { IsFromFloor tree.old.floor view }
    requires fit { given_ends_fit (len (seen_in view) (text_elements tree.old)) given ≡ true }
    ensures ends { IfOk result (λ ends. AreAddedEnds (places_of_given (seen_in view) (text_elements tree.old) given) tree.old.refs tree.new.refs ends) }
    ensures rest { OnOk result (tree.new ≡ record tree.old { refs = tree.new.refs }) }
    ensures err { OnErr result (tree.new.usable ≡ false) }
{
    let Some(ends) = given else {
        return Ok(EndPair {
            start: None,
            end: None,
        });
    };
    Ok(EndPair {
        start: add_end(tree, ends.start, view)?,
        end: add_end(tree, ends.end, view)?,
    })
}

// Makes the reference of an end acknowledged, and slides it.
fn settle_end(tree: &mut Tree<TextContent>, end: Option<RefId>)
    requires usable { IsTrue tree.old.usable }
    requires live { IsLiveEnd tree.old.refs end }
    ensures refs { let xs = text_elements tree.old in
        (r : ℕ) → reference_at tree.new.refs r
        ≡ cond (is_reference r end) (option_map (λ x. slid_reference xs (record x { acked = true })) (reference_at tree.old.refs r)) (reference_at tree.old.refs r) }
    ensures rest { tree.new ≡ record tree.old { refs = tree.new.refs } }
{
    if let Some(r) = end {
        tree.settle_ref(r);
    }
}

/// Makes the references of both ends acknowledged, and slides them.
pub fn settle_ends(tree: &mut Tree<TextContent>, ends: EndPair<RefId>)
    requires usable { IsTrue tree.old.usable }
    requires live { AreLiveEnds tree.old.refs ends }
    requires once { AreDistinctEnds ends }
    ensures refs { let xs = text_elements tree.old in
        (r : ℕ) → reference_at tree.new.refs r
        ≡ cond (holds_end r ends) (option_map (λ x. slid_reference xs (record x { acked = true })) (reference_at tree.old.refs r)) (reference_at tree.old.refs r) }
    ensures rest { tree.new ≡ record tree.old { refs = tree.new.refs } }
{
    settle_end(tree, ends.start);
    settle_end(tree, ends.end);
}

// Ends the reference of an end.
fn drop_end(tree: &mut Tree<TextContent>, end: Option<RefId>)
    requires usable { IsTrue tree.old.usable }
    requires live { IsLiveEnd tree.old.refs end }
    ensures refs { (r : ℕ) → reference_at tree.new.refs r ≡ cond (is_reference r end) None (reference_at tree.old.refs r) }
    ensures rest { tree.new ≡ record tree.old { refs = tree.new.refs } }
{
    if let Some(r) = end {
        tree.drop_ref(r);
    }
}

/// Ends the references of both ends.
pub fn drop_ends(tree: &mut Tree<TextContent>, ends: EndPair<RefId>)
    requires usable { IsTrue tree.old.usable }
    requires live { AreLiveEnds tree.old.refs ends }
    requires once { AreDistinctEnds ends }
    ensures refs { (r : ℕ) → reference_at tree.new.refs r ≡ cond (holds_end r ends) None (reference_at tree.old.refs r) }
    ensures rest { tree.new ≡ record tree.old { refs = tree.new.refs } }
{
    drop_end(tree, ends.start);
    drop_end(tree, ends.end);
}
