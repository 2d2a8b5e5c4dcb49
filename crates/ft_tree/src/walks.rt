//! The leaves of a tree, one after another.

ghost use Rattle.std.specs.Prelude.{◌≡◌, ℕ, ◌+◌, ◌<◌, ◌≤◌, ◌^◌, All, IfOk, Some, IsTrue, length, option_map};
ghost use Rattle.ft_arena.specs.Ids.{after, first};
ghost use Rattle.ft_block.specs.Leaves.{IsLeafIn, IsPlaceIn, ids, sees_in, times_leaf, value_at};
ghost use Rattle.ft_tree_leaves.specs.Edits.{is_marked_by, next_pending_above, touched_nodes};
ghost use Rattle.ft_tree_leaves.specs.LeafLists.{elements};
ghost use Rattle.ft_tree_leaves.specs.References.{reference_place};

use crate::tree::Tree;
use ft_arena::NodeId;
use ft_base::{Element, OutOfMemory};
use ft_block::LenView;
use ft_props::Overlay;
use ft_tree_leaves::Content;

impl<C: Content> Tree<C> {
    /// The first leaf: None exactly where there is no leaf.
    pub fn first_leaf(&self) -> Option<NodeId>
        requires { IsTrue self.now.usable }
        ensures value { result ≡ first (ids self.now.leaves) }

        // What holds of the leaves at any time.
        ensures once { (id : ℕ) → times_leaf self.now.leaves id ≤ 1 }
        ensures some { All (λ x. 1 ≤ length (C.units x.1.content)) self.now.leaves }
        ensures few { length (elements C.units C.by self.now.leaves) < 2 ^ 64 }
        ensures sweep { IsPlaceIn self.now.leaves self.now.sweep }
        ensures depth { 4 ^ self.now.depth ≤ length self.now.leaves + 1 }

        // And each reference that isn't detached stands on an element.
        ensures inside { (r j : ℕ) → reference_place self.now.refs r ≡ Some j → j < length (elements C.units C.by self.now.leaves) }
    {
        self.blocks.first()
    }

    /// The leaf after this one: None exactly where it is the last.
    pub fn next_leaf(&self, id: NodeId) -> Option<NodeId>
        requires usable { IsTrue self.now.usable }
        requires live { IsLeafIn self.now.leaves id }
        ensures { result ≡ after (ids self.now.leaves) id }
    {
        self.blocks.next(id)
    }

    /// The stamps of the elements of a leaf.
    pub fn leaf_element(&self, id: NodeId) -> &Element
        requires usable { IsTrue self.now.usable }
        requires live { IsLeafIn self.now.leaves id }
        ensures { option_map (λ x. x.stamps) (value_at self.now.leaves id) ≡ Some result.now }
    {
        &self.blocks.leaf(id).stamps
    }

    /// Whether the view sees the elements of a leaf.
    pub fn leaf_is_seen(&self, id: NodeId, view: LenView) -> bool
        requires usable { IsTrue self.now.usable }
        requires live { IsLeafIn self.now.leaves id }
        ensures { option_map (λ x. sees_in view x.stamps) (value_at self.now.leaves id) ≡ Some result }
    {
        self.blocks.leaf(id).is_seen_in(view)
    }

    /// How many elements a leaf holds, at least one.
    pub fn leaf_len(&self, id: NodeId) -> u64
        requires usable { IsTrue self.now.usable }
        requires live { IsLeafIn self.now.leaves id }
        ensures value { option_map (λ x. length (C.units x.content)) (value_at self.now.leaves id) ≡ Some result }
        ensures some { 1 ≤ result }
    {
        self.blocks.leaf(id).content.len()
    }

    /// The content of a leaf.
    pub fn leaf_content(&self, id: NodeId) -> &C
        requires usable { IsTrue self.now.usable }
        requires live { IsLeafIn self.now.leaves id }
        ensures { option_map (λ x. x.content) (value_at self.now.leaves id) ≡ Some result.now }
    {
        &self.blocks.leaf(id).content
    }

    /// The properties of the elements of a leaf.
    pub fn leaf_overlay(&self, id: NodeId) -> &Overlay
        requires usable { IsTrue self.now.usable }
        requires live { IsLeafIn self.now.leaves id }
        ensures { option_map (λ x. x.overlay) (value_at self.now.leaves id) ≡ Some result.now }
    {
        &self.blocks.leaf(id).overlay
    }

    /// Whether a removal mark or changes of that stage are pending on the leaf.
    pub fn marked(&self, id: NodeId, stage: u64) -> bool
        requires usable { IsTrue self.now.usable }
        requires live { IsLeafIn self.now.leaves id }
        ensures { option_map (is_marked_by stage) (value_at self.now.leaves id) ≡ Some result }
    {
        self.blocks.leaf(id).is_marked_by(stage)
    }

    /// The nodes of the leaves that have something of the stage: its insertion, a removal mark or changes. They
    /// stand in the order of the list. It goes to the leaves that the stage touched, finds the place of each, and
    /// sorts them by it.
    pub fn stage_leaves(&self, stage: u64) -> Result<Vec<NodeId>, OutOfMemory>
        requires { IsTrue self.now.usable }
        ensures { IfOk result (λ v. v.items ≡ touched_nodes stage self.now.leaves) }
    {
        self.blocks.stage_leaves(stage)
    }

    /// The least pending stage above this one of which a leaf has something: None exactly where there is none. It
    /// goes to the leaves that the stages above this one touched, up to the first that has something of its stage.
    pub fn next_pending(&self, stage: u64) -> Option<u64>
        requires { IsTrue self.now.usable }
        ensures { result ≡ next_pending_above stage self.now.leaves }
    {
        self.blocks.next_pending(stage)
    }
}
