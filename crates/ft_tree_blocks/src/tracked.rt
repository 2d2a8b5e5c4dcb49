//! For which pending stages the node of a leaf is listed that is new, cut or changed.

ghost use Rattle.std.specs.Prelude.{◌≡◌, ℕ, OnOk, Some, false, not, true};
ghost use Rattle.std.specs.List.{list_any};
ghost use Rattle.ft_base.specs.Visibility.{is_acked};
ghost use Rattle.ft_tree_leaves.specs.Edits.{is_touched_by};
ghost use Rattle.ft_tree_blocks.specs.Touched.{AreRising, Notes, added_stage, is_listed, is_stamped_by};

use crate::stage_nodes::StageNodes;
use crate::touched::{allocator_of, note, note_heir, note_stamps};
use ft_arena::NodeId;
use ft_base::{Element, OutOfMemory, Stamp};
use ft_tree_leaves::block_leaf::universal;
use ft_tree_leaves::{Content, LeafChange, TreeLeaf};
use std::collections::VecDeque;

/// Lists the node of a new leaf for each pending stage of its stamps.
pub(crate) fn note_new(
    touched: &mut VecDeque<StageNodes>,
    stamps: &Element,
    id: NodeId,
) -> Result<(), OutOfMemory>
    requires { AreRising touched.old.items }
    ensures notes { OnOk result (Notes id touched.old.items touched.new.items) }
    ensures listed { OnOk result ((k : ℕ) → is_stamped_by k stamps.now ≡ true → is_listed touched.new.items k id ≡ true) }
{
    let old = universal(allocator_of(touched));
    note_stamps(touched, &old, stamps, id)
}

// Whether the stamp is pending.
fn is_pending_stamp(stamp: &Stamp) -> bool
    ensures { result ≡ not (is_acked stamp.now) }
{
    matches!(stamp, Stamp::Local { .. })
}

// Whether one of the stamps is pending.
fn is_any_pending(stamps: &[Stamp]) -> bool
    ensures { result ≡ list_any (λ stamp. not (is_acked stamp)) stamps.now }
{
    stamps.iter().any(|stamp| is_pending_stamp(stamp))
}

// Whether the insertion, a removal or a change of the leaf is pending.
fn has_pending<C: Content>(leaf: &TreeLeaf<C>) -> bool
    ensures none { result ≡ false → (k : ℕ) → is_touched_by k leaf.now ≡ false }
    ensures some { ((k : ℕ) → is_touched_by k leaf.now ≡ false) → result ≡ false }
{
    if leaf.is_pending() || is_any_pending(leaf.stamps.dels.as_slice()) {
        return true;
    }
    leaf.overlay.has_pending()
}

/// Lists the rear of a leaf that was cut for each stage for which its front is listed, if anything is pending
/// on it.
pub(crate) fn note_rear<C: Content>(
    touched: &mut VecDeque<StageNodes>,
    leaf: &TreeLeaf<C>,
    front: NodeId,
    rear: NodeId,
) -> Result<(), OutOfMemory>
    requires { AreRising touched.old.items }
    ensures notes { OnOk result (Notes rear touched.old.items touched.new.items) }
    ensures listed { OnOk result ((k : ℕ) → is_touched_by k leaf.now ≡ true
        → is_listed touched.old.items k front ≡ true → is_listed touched.new.items k rear ≡ true) }
{
    if !has_pending(leaf) {
        return Ok(());
    }
    note_heir(touched, front, rear)
}

/// Lists a node for the stage of the changes that it gets, if it gets any.
pub(crate) fn note_change(
    touched: &mut VecDeque<StageNodes>,
    c: &LeafChange,
    id: NodeId,
) -> Result<(), OutOfMemory>
    requires { AreRising touched.old.items }
    ensures notes { OnOk result (Notes id touched.old.items touched.new.items) }
    ensures listed { OnOk result ((k : ℕ) → added_stage c.now ≡ Some k → is_listed touched.new.items k id ≡ true) }
{
    match c {
        LeafChange::PushPending(stage, _) => note(touched, *stage, id),
        LeafChange::SetAcked(_)
        | LeafChange::DropPending(_)
        | LeafChange::DropAll
        | LeafChange::Ack(_, _, _) => Ok(()),
    }
}
