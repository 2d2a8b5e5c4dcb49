//! A leaf of a tree.

ghost use Rattle.std.specs.Prelude.{◌≡◌, ◌↔◌, ◌<◌, ◌≤◌, IsTrue, IfOk, OnOk, OnErr, length, not};
ghost use Rattle.ft_base.specs.Visibility.{is_acked};
ghost use Rattle.ft_base.specs.Scan.{len};
ghost use Rattle.ft_block.specs.Leaves.{sees_in};
ghost use Rattle.ft_tree_leaves.specs.Settling.{allows};
ghost use Rattle.ft_tree_leaves.specs.Elements.{seen_in};
ghost use Rattle.ft_tree_leaves.specs.LeafLists.{leaf_elements};
ghost use Rattle.ft_tree_leaves.specs.Edits.{IsBare, MayJoin, is_marked_by};

use crate::content::Content;
use crate::stamps::{has_sequenced, has_stage, is_at_or_below};
use ft_base::{Datum, Element, OutOfMemory, Stamp, seen_at, sees};
use ft_block::LenView;
use ft_props::Overlay;

/// A leaf: elements side by side with the same stamps and properties.
#[derive(Drop)]
pub struct TreeLeaf<C> {
    /// The stamps of each of them.
    pub stamps: Element,
    /// What they are.
    pub content: C,
    /// The properties of each of them.
    pub overlay: Overlay,
}

/// Whether a reference may stand on an element.
#[derive(Clone, Copy, Debug, PartialEq, Eq)]
pub enum Standing {
    /// Its insertion is sequenced, and no removal of it is.
    Unremoved,
    /// The view sees it.
    SeenIn(LenView),
}

impl<C: Content> TreeLeaf<C> {
    /// Whether a reference may stand on its elements.
    pub fn stands(&self, test: Standing) -> bool
        ensures { result ≡ allows test self.now.stamps }
    {
        match test {
            Standing::Unremoved => !self.is_pending()
                && !has_sequenced(self.stamps.dels.as_slice()),
            Standing::SeenIn(view) => self.is_seen_in(view),
        }
    }

    /// Keeps the first `at` elements and returns the rest.
    ///
    /// Returns `OutOfMemory` where there is no room for the rest, and then the leaf is as it was.
    pub fn split(&mut self, at: u64) -> Result<TreeLeaf<C>, OutOfMemory>
        requires low { 1 ≤ at }
        requires high { at < length (C.units self.old.content) }
        ensures front { OnOk result (self.new ≡ record self.old { content = C.front self.old.content at }) }
        ensures rear { IfOk result (λ rest. rest ≡ record self.old { content = C.rear self.old.content at }) }
        ensures err { OnErr result (self.new ≡ self.old) }
    {
        let stamps = self.stamps.copy()?;
        let overlay = self.overlay.copy()?;
        let content = self.content.split(at)?;
        Ok(TreeLeaf {
            content,
            stamps,
            overlay,
        })
    }

    /// Whether its insertion is pending.
    pub fn is_pending(&self) -> bool
        ensures { result ≡ not (is_acked self.now.stamps.ins) }
    {
        matches!(self.stamps.ins, Stamp::Local { .. })
    }

    /// Whether the view sees its elements.
    pub fn is_seen_in(&self, view: LenView) -> bool
        ensures { result ≡ sees_in view self.now.stamps }
    {
        match view {
            LenView::At(at) => sees(&self.stamps, at),
            LenView::Stage(stage) => seen_at(&self.stamps, stage),
            LenView::All => true,
        }
    }

    /// Whether a removal mark or changes of that stage are pending on it.
    pub fn is_marked_by(&self, stage: u64) -> bool
        ensures { result ≡ is_marked_by stage self.now }
    {
        has_stage(self.stamps.dels.as_slice(), stage) || self.overlay.has(stage)
    }

    // Whether its insertion is at or below the floor, nobody has removed it, and nothing is pending on it.
    fn is_bare(&self, floor: u64) -> bool
        ensures { IsTrue result ↔ IsBare floor self.now }
    {
        is_at_or_below(&self.stamps.ins, floor)
            && self.stamps.dels.is_empty()
            && !self.overlay.has_pending()
    }

    /// Whether the other leaf may be joined to the end of this one at the floor.
    pub fn may_join(&self, other: &TreeLeaf<C>, floor: u64) -> bool
        ensures { IsTrue result ↔ MayJoin C.joins floor self.now other.now }
    {
        // Most neighbours have different authors, so the contents are looked at first.
        self.content.can_join(&other.content)
            && self.is_bare(floor)
            && other.is_bare(floor)
            && self.overlay.acked().same(other.overlay.acked())
    }

    /// How many elements the view sees: all or none.
    pub fn seen_len(&self, view: LenView) -> u64
        ensures seen { result ≡ len (seen_in view) (leaf_elements C.units C.by self.now) }
        ensures few { result ≤ length (C.units self.now.content) }
    {
        if self.is_seen_in(view) {
            self.content.len()
        } else {
            0
        }
    }
}
