//! The references on leaves in blocks, and on which leaves acknowledged ones may have to slide.

ghost use Rattle.std.specs.Prelude.{[], ◌≡◌, ◌≢◌, ℕ, ◌+◌, ◌<◌, ◌^◌, OnOk, None, Some};
ghost use Rattle.ft_refs.specs.RefLists.{IsHeld, entry, place_of_reference, raised_place, split_place};
ghost use Rattle.ft_tree_blocks.specs.Anchors.{MovesAnchors};
ghost use Rattle.ft_tree_blocks.specs.Unsettled.{Notes, NotesAll, NotesUnless};

use crate::anchors::Anchors;
use crate::stage_nodes::TouchedNode;
use ft_arena::NodeId;
use ft_base::OutOfMemory;
use std::alloc::Global;

/// References on leaves, and the nodes of leaves on which acknowledged ones may have to slide. A node may be
/// listed more than once, and without need.
#[derive(Drop)]
pub(crate) struct LeafRefs {
    pub(crate) anchors: Anchors,
    pub(crate) unsettled: Vec<NodeId>,
}

// Lists a leaf, if it has references.
fn note(anchors: &Anchors, unsettled: &mut Vec<NodeId>, id: NodeId) -> Result<(), OutOfMemory>
    ensures { OnOk result (Notes anchors.now id unsettled.old.items unsettled.new.items) }
{
    if anchors.first(id).is_some() {
        unsettled.push(id)?;
    }
    Ok(())
}

// Lists each of these leaves that has references.
fn note_all(
    anchors: &Anchors,
    unsettled: &mut Vec<NodeId>,
    nodes: &[TouchedNode],
) -> Result<(), OutOfMemory>
    ensures { OnOk result (NotesAll anchors.now nodes.now unsettled.old.items unsettled.new.items) }
{
    for id in nodes {
        note(anchors, unsettled, id.0)?;
    }
    Ok(())
}

impl LeafRefs {
    /// No references.
    pub(crate) fn new(alloc: Global) -> LeafRefs
        ensures refs { (r : ℕ) → entry result.anchors.refs r ≡ None }
        ensures unsettled { result.unsettled.items ≡ [] }
    {
        LeafRefs {
            anchors: Anchors::new(alloc),
            unsettled: Vec::new(alloc),
        }
    }

    /// Makes room for the references of a new leaf.
    pub(crate) fn hold(&mut self, id: NodeId) -> Result<(), OutOfMemory>
        ensures held { OnOk result (IsHeld self.new.anchors.refs id) }
        ensures moves { OnOk result (MovesAnchors (λ p. p) self.old.anchors self.new.anchors) }
        ensures unsettled { self.new.unsettled.items ≡ self.old.unsettled.items }
    {
        self.anchors.hold(id)
    }

    /// Lists a leaf whose stamps changed, if it has references, unless they may stand there.
    pub(crate) fn unsettle(&mut self, id: NodeId, stands: bool) -> Result<(), OutOfMemory>
        ensures anchors { self.new.anchors ≡ self.old.anchors }
        ensures notes { OnOk result (NotesUnless stands self.new.anchors id self.old.unsettled.items self.new.unsettled.items) }
    {
        if stands {
            return Ok(());
        }
        note(&self.anchors, &mut self.unsettled, id)
    }

    /// Lists each of these leaves that has references.
    pub(crate) fn unsettle_all(&mut self, nodes: &[TouchedNode]) -> Result<(), OutOfMemory>
        ensures anchors { self.new.anchors ≡ self.old.anchors }
        ensures notes { OnOk result (NotesAll self.new.anchors nodes.now self.old.unsettled.items self.new.unsettled.items) }
    {
        note_all(&self.anchors, &mut self.unsettled, nodes)
    }

    /// A leaf was cut behind its first `at` elements: the references on the others go to the leaf of `rear`, on
    /// which acknowledged ones may stand or not.
    pub(crate) fn cut(
        &mut self,
        id: NodeId,
        at: u64,
        rear: NodeId,
        stands: bool,
    ) -> Result<(), OutOfMemory>
        requires { rear ≢ id }
        ensures held { OnOk result (IsHeld self.new.anchors.refs rear) }
        ensures moves { OnOk result (MovesAnchors (split_place id at rear) self.old.anchors self.new.anchors) }
        ensures notes { OnOk result (NotesUnless stands self.new.anchors rear self.old.unsettled.items self.new.unsettled.items) }
    {
        self.anchors.hold(rear)?;
        self.anchors.split(id, at, rear);
        self.unsettle(rear, stands)
    }

    /// The leaf of `next` was joined to that of `id`, which had `count` elements: its references go there, where
    /// acknowledged ones may stand or not.
    pub(crate) fn join(
        &mut self,
        next: NodeId,
        id: NodeId,
        count: u64,
        stands: bool,
    ) -> Result<(), OutOfMemory>
        requires held { IsHeld self.old.anchors.refs id }
        requires differ { id ≢ next }
        requires fits { (r offset : ℕ) → place_of_reference self.old.anchors.refs r ≡ Some record { owner = next; offset = offset } → offset + count < 2 ^ 64 }
        ensures moves { MovesAnchors (raised_place next id count) self.old.anchors self.new.anchors }
        ensures notes { OnOk result (NotesUnless stands self.new.anchors id self.old.unsettled.items self.new.unsettled.items) }
    {
        self.anchors.join(next, id, count);
        self.unsettle(id, stands)
    }
}
