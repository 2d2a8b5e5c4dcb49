//! The references of a tree, and where they go.

ghost use Rattle.std.specs.Prelude.{◌≡◌, ◌≢◌, ℕ, ◌+◌, ◌<◌, Some, None, IsTrue, IfOk, IfErr, IfSome, OnOk, true, false, nat_lt, option_and_then, option_map};
ghost use Rattle.ft_base.specs.Scan.{len};
ghost use Rattle.ft_block.specs.declared.leaves.LenView.TheVariants.{Stage};
ghost use Rattle.ft_block.specs.Leaves.{IsFromFloor};
ghost use Rattle.ft_tree_leaves.specs.Edits.{ChangesReference, next_removal_above};
ghost use Rattle.ft_tree_leaves.specs.Elements.{seen_in};
ghost use Rattle.ft_tree_leaves.specs.Places.{place_at, seen_before, settled_number, settled_place};
ghost use Rattle.ft_tree_leaves.specs.LeafLists.{elements};
ghost use Rattle.ft_tree_leaves.specs.References.{ChangesReferences, IsReferenceIn, reference_place, reference_at, slid_reference};
ghost use Rattle.ft_tree_blocks.specs.LeafPlaces.{IsOnLeaf, place_on};
ghost use Rattle.ft_tree.specs.State.{IsRefused};

use crate::faults::TreeFault;
use crate::tree::Tree;
use ft_block::LenView;
use ft_refs::{Place, RefId};
use ft_tree_blocks::settling::settled_on;
use ft_tree_leaves::Content;
use ft_tree_leaves::leaves::Standing;
use ft_tree_steps::{
    elements_before, is_before, seen_before_on, seen_count, seen_offset, settled_number,
};

impl<C: Content> Tree<C> {
    /// Puts a pending reference on the element that the view sees with `p` seen ones before it.
    ///
    /// Returns `OutOfRange` exactly where `p` isn't below the length of that view, and then nothing changed;
    /// and `OutOfMemory` where there is no room, and then the tree may be used no more.
    pub fn add_ref(&mut self, p: u64, view: LenView) -> Result<RefId, TreeFault>
        requires usable { IsTrue self.old.usable }
        requires floor { IsFromFloor self.old.floor view }
        ensures fresh { IfOk result (λ r. reference_at self.old.refs r ≡ None) }
        ensures added { let old = elements C.units C.by self.old.leaves in
            IfOk result (λ r. reference_at self.new.refs r ≡ Some record { place = place_at (seen_in view) p old; acked = false }) }
        ensures others { IfOk result (λ r. (x : ℕ) → x ≢ r → reference_at self.new.refs x ≡ reference_at self.old.refs x) }
        ensures rest { OnOk result (self.new ≡ record self.old { refs = self.new.refs }) }
        ensures inside { OnOk result (p < len (seen_in view) (elements C.units C.by self.old.leaves)) }
        ensures refused { let old = elements C.units C.by self.old.leaves in
            IfErr result (IsRefused (p + 1) (len (seen_in view) old) self.old self.new) }
    {
        let Some(at) = seen_offset(self.blocks.list(), p, view) else {
            let length = seen_count(self.blocks.list(), view);
            return Err(TreeFault::OutOfRange { length });
        };
        match self.blocks.add_ref(&at) {
            Ok(r) => Ok(r),
            Err(_) => {
                self.usable = false;
                Err(TreeFault::OutOfMemory)
            }
        }
    }

    /// The place of the reference's element in the whole list: None exactly where it is detached.
    pub fn ref_index(&self, r: RefId) -> Option<u64>
        requires usable { IsTrue self.now.usable }
        requires live { IsReferenceIn self.now.refs r }
        ensures { result ≡ reference_place self.now.refs r }
    {
        let at = self.blocks.ref_place(r)?;
        Some(elements_before(self.blocks.list(), &at))
    }

    /// The leaf of the reference's element, and how many of the leaf's elements stand before that one: None exactly
    /// where the reference is detached.
    pub fn ref_at(&self, r: RefId) -> Option<Place>
        requires usable { IsTrue self.now.usable }
        requires live { IsReferenceIn self.now.refs r }
        ensures on_leaf { IfSome result (IsOnLeaf C.units self.now.leaves) }
        ensures place { option_map (place_on C.units C.by self.now.leaves) result ≡ reference_place self.now.refs r }
    {
        self.blocks.ref_place(r)
    }

    /// Whether the first element stands before the second in the whole list. Where they are of two leaves, it goes up from
    /// both to the nearest block above both, and reads no length.
    pub fn is_before(&self, first: &Place, second: &Place) -> bool
        requires usable { IsTrue self.now.usable }
        requires first { IsOnLeaf C.units self.now.leaves first.now }
        requires second { IsOnLeaf C.units self.now.leaves second.now }
        ensures { let leaves = self.now.leaves in
            result ≡ nat_lt (place_on C.units C.by leaves first.now) (place_on C.units C.by leaves second.now) }
    {
        is_before(self.blocks.list(), first, second)
    }

    /// The element as it is settled at the stage: the same if the stage sees it, else the next one that it sees, else
    /// the last before it, else none.
    ///
    /// It looks at the leaf alone where the stage sees that, else at the next few leaves, and then it goes up from there and down from
    /// the root; where the stage sees none behind, it looks before it in the same way.
    pub fn settled_at(&self, at: &Place, stage: u64) -> Option<Place>
        requires usable { IsTrue self.now.usable }
        requires on_leaf { IsOnLeaf C.units self.now.leaves at.now }
        ensures on_leaf { IfSome result (IsOnLeaf C.units self.now.leaves) }
        ensures place { let leaves = self.now.leaves in
            option_map (place_on C.units C.by leaves) result
            ≡ settled_place (seen_in (Stage stage)) (elements C.units C.by leaves) (place_on C.units C.by leaves at.now) }
    {
        let view = LenView::Stage(stage);
        settled_on(self.blocks.list(), at, Standing::SeenIn(view))
    }

    /// How many elements that the stage sees stand before the element. It goes up from the leaf; at a stage other than
    /// `u64::MAX` it also looks at each leaf left of it that has a pending stamp.
    pub fn number_at(&self, at: &Place, stage: u64) -> u64
        requires usable { IsTrue self.now.usable }
        requires on_leaf { IsOnLeaf C.units self.now.leaves at.now }
        ensures { let leaves = self.now.leaves in
            result ≡ seen_before (seen_in (Stage stage)) (elements C.units C.by leaves) (place_on C.units C.by leaves at.now) }
    {
        seen_before_on(self.blocks.list(), at, LenView::Stage(stage))
    }

    /// The number, among the elements seen at the stage, of the reference's element as it is settled there:
    /// None exactly where the reference is detached or the stage sees nothing.
    pub fn ref_place(&self, r: RefId, stage: u64) -> Option<u64>
        requires usable { IsTrue self.now.usable }
        requires live { IsReferenceIn self.now.refs r }
        ensures { let list = elements C.units C.by self.now.leaves in
            result ≡ option_and_then (settled_number (seen_in (Stage stage)) list) (reference_place self.now.refs r) }
    {
        let at = self.blocks.ref_place(r)?;
        settled_number(self.blocks.list(), &at, LenView::Stage(stage))
    }

    /// The number, among the elements seen at the stage, of the element that stage `from` sees with `p` seen ones before it, as
    /// it is settled there: None exactly where the stage sees nothing. It takes no memory.
    ///
    /// The element is found from the root of the tree, and how many the stage sees before it by going up from its leaf.
    pub fn place_after(&self, p: u64, from: u64, stage: u64) -> Option<u64>
        requires usable { IsTrue self.now.usable }
        requires inside { p < len (seen_in (Stage from)) (elements C.units C.by self.now.leaves) }
        ensures { let list = elements C.units C.by self.now.leaves in
            result ≡ option_and_then (settled_number (seen_in (Stage stage)) list) (place_at (seen_in (Stage from)) p list) }
    {
        let at = seen_offset(self.blocks.list(), p, LenView::Stage(from))?;
        settled_number(self.blocks.list(), &at, LenView::Stage(stage))
    }

    /// Makes a reference acknowledged, and slides it.
    pub fn settle_ref(&mut self, r: RefId)
        requires usable { IsTrue self.old.usable }
        requires live { IsReferenceIn self.old.refs r }
        ensures refs { let old = elements C.units C.by self.old.leaves in
            ChangesReference r (λ x. Some (slid_reference old (record x { acked = true }))) self.old.refs self.new.refs }
        ensures rest { self.new ≡ record self.old { refs = self.new.refs } }
    {
        self.blocks.settle_ref(r);
    }

    /// Lets acknowledged references slide, after sequenced removals. It goes to the leaves with references whose
    /// stamps changed since the last time.
    pub(crate) fn slide(&mut self)
        requires { IsTrue self.old.usable }
        ensures refs { ChangesReferences (slid_reference (elements C.units C.by self.old.leaves)) self.old.refs self.new.refs }
        ensures rest { self.new ≡ record self.old { refs = self.new.refs } }
    {
        self.blocks.slide();
    }

    /// Ends a reference.
    pub fn drop_ref(&mut self, r: RefId)
        requires usable { IsTrue self.old.usable }
        requires live { IsReferenceIn self.old.refs r }
        ensures refs { ChangesReference r (λ x. None) self.old.refs self.new.refs }
        ensures rest { self.new ≡ record self.old { refs = self.new.refs } }
    {
        self.blocks.drop_ref(r);
    }

    /// The least pending stage above this one that marks an element as removed.
    pub fn next_removal(&self, stage: u64) -> Option<u64>
        requires { IsTrue self.now.usable }
        ensures { result ≡ next_removal_above stage (elements C.units C.by self.now.leaves) }
    {
        self.blocks.next_removal(stage)
    }
}
