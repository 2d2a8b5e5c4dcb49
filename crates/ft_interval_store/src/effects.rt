//! What an operation makes of the acknowledged intervals and of the references of their ends.

ghost use Rattle.std.specs.Prelude.{◌≡◌, IsTrue, IfOk, OnErr, OnOk, false};
ghost use Rattle.ft_interval_store.specs.Ends.{map_ends, places_of_ends, slid_end};
ghost use Rattle.ft_interval_store.specs.Intervals.{after_operation, place_of_operation};
ghost use Rattle.ft_interval_store.specs.State.{AreKeptOnce, AreOwnEnds, HandsOn, placed_intervals, text_elements};

use crate::ends::{drop_ends, settle_ends};
use crate::intervals::{EndPair, Intervals};
use ft_base::OutOfMemory;
use ft_op::TextOp;
use ft_refs::RefId;
use ft_tree::{TextContent, Tree};

/// Applies an operation with these ends, whose interval was found at that place, to the acknowledged intervals. The references
/// become acknowledged and slide, and those that no interval keeps any more end. It returns the ends of the operation's
/// interval, none where it isn't there.
///
/// Returns `OutOfMemory` where there is no room for what it makes, and then the intervals are as they were, and the tree
/// may be used no more.
pub fn take_effect(
    intervals: &mut Intervals<RefId>,
    tree: &mut Tree<TextContent>,
    place: Result<usize, usize>,
    op: &TextOp,
    ends: &EndPair<RefId>,
) -> Result<EndPair<RefId>, OutOfMemory>
    requires usable { IsTrue tree.old.usable }
    requires place { place ≡ place_of_operation op.now intervals.old }
    requires kept { AreKeptOnce tree.old.refs ends.now intervals.old }
    ensures placed { let xs = text_elements tree.old in
        let places = map_ends (slid_end xs) (places_of_ends tree.old.refs ends.now) in
        OnOk result (placed_intervals tree.new.refs intervals.new ≡ after_operation op.now places (placed_intervals tree.old.refs intervals.old)) }
    ensures after { OnOk result (intervals.new ≡ after_operation op.now ends.now intervals.old) }
    ensures ends { IfOk result (AreOwnEnds op.now intervals.new) }
    ensures refs { OnOk result (HandsOn ends.now intervals.old intervals.new tree.old.refs tree.new.refs) }
    ensures rest { OnOk result (tree.new ≡ record tree.old { refs = tree.new.refs }) }
    ensures err { OnErr result (intervals.new ≡ intervals.old) }
    ensures unusable { OnErr result (tree.new.usable ≡ false) }
{
    match intervals.apply(place, op, *ends) {
        Ok(after) => {
            settle_ends(tree, *ends);
            drop_ends(tree, after.unused);
            drop_ends(tree, after.lost);
            Ok(after.kept)
        }
        Err(e) => {
            tree.spoil();
            Err(e)
        }
    }
}
