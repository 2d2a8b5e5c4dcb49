//! Where references on leaves go after sequenced removals: an acknowledged one whose element is removed slides.

ghost use Rattle.std.specs.Prelude.{[], ◌∷◌, ◌≡◌, ℕ, IfSome, IsTrue, List, cond, option_map, true};
ghost use Rattle.std.specs.Option.{ForSome};
ghost use Rattle.ft_tree_leaves.specs.LeafLists.{elements};
ghost use Rattle.ft_tree_leaves.specs.References.{ChangesReferences, reference_at, slid_reference};
ghost use Rattle.ft_tree_blocks.specs.Anchors.{AreAnchored, references_on};
ghost use Rattle.ft_tree_leaves.specs.declared.leaves.Standing.TheVariants.{Unremoved};
ghost use Rattle.ft_tree_leaves.specs.Places.{settled_place};
ghost use Rattle.ft_tree_leaves.specs.Settling.{stands};
ghost use Rattle.ft_tree_blocks.specs.LeafPlaces.{IsOnLeaf, place_on};
ghost use Rattle.ft_tree_blocks.specs.Slides.{AreSettledBut, TellsUnremoved, is_on, is_unremoved_at};
ghost use Rattle.ft_tree_blocks.specs.Touched.{Tracks};

use crate::anchors::Anchors;
use crate::reads;
use crate::settling::settled_on;
use crate::stage_nodes::StageNodes;
use crate::touched::is_at;
use ft_arena::NodeId;
use ft_block::{Blocks, LenView};
use ft_refs::Place;
use ft_tree_leaves::leaves::Standing;
use ft_tree_leaves::{Content, TreeLeaf};
use std::collections::VecDeque;

/// The test whether an acknowledged reference may stand on a leaf. Where nothing is pending of stage 0, that stage sees just these
/// leaves, and blocks keep the sums of what it sees.
pub(crate) fn unremoved<C: Content>(
    _blocks: &Blocks<TreeLeaf<C>>,
    touched: &VecDeque<StageNodes>,
) -> Standing
    requires { Tracks _blocks.now.leaves touched.now.items }
    ensures { TellsUnremoved _blocks.now.leaves result }
{
    if is_at(touched, 0, 0) {
        return Standing::Unremoved;
    }
    Standing::SeenIn(LenView::Stage(0))
}

/// Where an acknowledged reference on an element goes, by a test that tells of each leaf whether it may stand there.
pub(crate) fn slid_on<C: Content>(
    blocks: &Blocks<TreeLeaf<C>>,
    at: &Place,
    test: Standing,
) -> Option<Place>
    requires usable { IsTrue blocks.now.usable }
    requires on_leaf { IsOnLeaf C.units blocks.now.leaves at.now }
    requires tells { TellsUnremoved blocks.now.leaves test }
    ensures on_leaf { IfSome result (IsOnLeaf C.units blocks.now.leaves) }
    ensures stands { ForSome result (λ p. is_unremoved_at blocks.now.leaves p.owner ≡ true) }
    ensures place { let leaves = blocks.now.leaves in
        option_map (place_on C.units C.by leaves) result
        ≡ settled_place (stands Unremoved) (elements C.units C.by leaves) (place_on C.units C.by leaves at.now) }
{
    // What holds of the leaves at any time is read off its contract.
    let _first = reads::first(blocks);
    settled_on(blocks, at, test)
}

/// Lets the acknowledged references on the leaf of a node slide, where it has some and its elements are removed:
/// to the first unremoved element behind it, else to the last before it, else they are detached.
pub(crate) fn slide_leaf<C: Content>(
    blocks: &Blocks<TreeLeaf<C>>,
    anchors: &mut Anchors,
    id: NodeId,
    test: Standing,
)
    requires usable { IsTrue blocks.now.usable }
    requires anchored { AreAnchored C.units blocks.now.leaves anchors.old }
    requires tells { TellsUnremoved blocks.now.leaves test }
    ensures anchored { AreAnchored C.units blocks.now.leaves anchors.new }
    ensures references { let leaves = blocks.now.leaves in
        let old = references_on C.units C.by leaves anchors.old in
        (r : ℕ) → reference_at (references_on C.units C.by leaves anchors.new) r
        ≡ cond (is_on anchors.old id r) (option_map (slid_reference (elements C.units C.by leaves)) (reference_at old r)) (reference_at old r) }

    // To slide all then is to slide all at once.
    ensures once { let leaves = blocks.now.leaves in
        (r : ℕ) → option_map (slid_reference (elements C.units C.by leaves)) (reference_at (references_on C.units C.by leaves anchors.new) r)
        ≡ option_map (slid_reference (elements C.units C.by leaves)) (reference_at (references_on C.units C.by leaves anchors.old) r) }
    ensures settled { (nodes : List ℕ) → AreSettledBut blocks.now.leaves (id ∷ nodes) anchors.old → AreSettledBut blocks.now.leaves nodes anchors.new }
{
    if anchors.first(id).is_none() {
        return;
    }
    // What holds of the leaves at any time is read off its contract.
    let _first = reads::first(blocks);
    let leaf = reads::leaf(blocks, id);
    // That it has an element is read off its contract.
    let _len = leaf.content.len();
    if leaf.stands(Standing::Unremoved) {
        return;
    }
    let place = Place {
        owner: id,
        offset: 0,
    };
    let to = slid_on(blocks, &place, test);
    anchors.send_acked(id, to);
}

/// Lets all acknowledged references slide after sequenced removals, by looking at the leaves of these nodes
/// alone: on all others, they stand on unremoved elements.
pub(crate) fn slide_leaves<C: Content>(
    blocks: &Blocks<TreeLeaf<C>>,
    anchors: &mut Anchors,
    nodes: &[NodeId],
    test: Standing,
)
    requires usable { IsTrue blocks.now.usable }
    requires anchored { AreAnchored C.units blocks.now.leaves anchors.old }
    requires settled { AreSettledBut blocks.now.leaves nodes.now anchors.old }
    requires tells { TellsUnremoved blocks.now.leaves test }
    ensures anchored { AreAnchored C.units blocks.now.leaves anchors.new }
    ensures references { let leaves = blocks.now.leaves in
        ChangesReferences (slid_reference (elements C.units C.by leaves))
        (references_on C.units C.by leaves anchors.old) (references_on C.units C.by leaves anchors.new) }
    ensures settled { AreSettledBut blocks.now.leaves [] anchors.new }
{
    for id in nodes {
        slide_leaf(blocks, anchors, *id, test);
    }
    // What holds of the leaves at any time is read off its contract.
    let _first = reads::first(blocks);
}
