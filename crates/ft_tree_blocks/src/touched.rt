//! Which leaves each pending stage touched: lists of nodes by rising stage.

ghost use Rattle.std.specs.Prelude.{◌≡◌, ◌≢◌, ◌≤◌, ℕ, OnOk, false, filter, length, map, slice_get, true};
ghost use Rattle.std.specs.List.{list_any};
ghost use Rattle.ft_base.specs.Visibility.{is_of_stage};
ghost use Rattle.ft_tree_blocks.specs.Touched.{AreRising, Notes, all_purged, holds, is_list_of, is_listed, is_some_node, is_stamped_by, purged, stages_below, with_heir};

use crate::stage_nodes::{Nodes, StageNodes, TouchedNode};
use ft_arena::NodeId;
use ft_base::{Element, OutOfMemory, Stamp};
use ft_tree_leaves::stamps::{has_stage, is_of_stage};
use smallvec::SmallVec;
use std::alloc::Global;
use std::collections::VecDeque;

/// Where the lists take their memory.
pub(crate) fn allocator_of(touched: &VecDeque<StageNodes>) -> Global {
    *touched.allocator()
}

/// How many lists are of lower stages.
pub(crate) fn stage_place(touched: &VecDeque<StageNodes>, stage: u64) -> usize
    requires { AreRising touched.now.items }
    ensures place { result ≡ stages_below stage touched.now.items }
    ensures bound { result ≤ length touched.now.items }
{
    touched.partition_point(|list| list.stage() < stage)
}

/// Whether the list at a place is of this stage.
pub(crate) fn is_at(touched: &VecDeque<StageNodes>, i: usize, stage: u64) -> bool
    ensures { result ≡ is_list_of stage (slice_get touched.now.items i) }
{
    match touched.get(i) {
        Some(list) => list.stage() == stage,
        None => false,
    }
}

/// Lists a node for a stage.
pub(crate) fn note(
    touched: &mut VecDeque<StageNodes>,
    stage: u64,
    id: NodeId,
) -> Result<(), OutOfMemory>
    requires { AreRising touched.old.items }
    ensures notes { OnOk result (Notes id touched.old.items touched.new.items) }
    ensures listed { OnOk result (is_listed touched.new.items stage id ≡ true) }
{
    let i = stage_place(touched, stage);
    if is_at(touched, i, stage) {
        return touched[i].add(id);
    }
    let list = StageNodes::of(allocator_of(touched), stage, id)?;
    touched.insert(i, list)?;
    Ok(())
}

// Whether the insertion or a removal is pending, of that stage.
fn is_stamped_by(e: &Element, stage: u64) -> bool
    ensures { result ≡ is_stamped_by stage e.now }
{
    is_of_stage(&e.ins, stage) || has_stage(e.dels.as_slice(), stage)
}

// Lists a node for the stage of a stamp, if that is pending and the old stamps have none of that stage.
fn note_stamp(
    touched: &mut VecDeque<StageNodes>,
    old: &Element,
    stamp: &Stamp,
    id: NodeId,
) -> Result<(), OutOfMemory>
    requires { AreRising touched.old.items }
    ensures notes { OnOk result (Notes id touched.old.items touched.new.items) }
    ensures listed { OnOk result ((k : ℕ) → is_of_stage k stamp.now ≡ true → is_stamped_by k old.now ≡ false → is_listed touched.new.items k id ≡ true) }
{
    let Stamp::Local { stage } = stamp else {
        return Ok(());
    };
    if is_stamped_by(old, *stage) {
        return Ok(());
    }
    note(touched, *stage, id)
}

// The same for each of some stamps.
fn note_each(
    touched: &mut VecDeque<StageNodes>,
    old: &Element,
    stamps: &[Stamp],
    id: NodeId,
) -> Result<(), OutOfMemory>
    requires { AreRising touched.old.items }
    ensures notes { OnOk result (Notes id touched.old.items touched.new.items) }
    ensures listed { OnOk result ((k : ℕ) → list_any (is_of_stage k) stamps.now ≡ true → is_stamped_by k old.now ≡ false → is_listed touched.new.items k id ≡ true) }
{
    for stamp in stamps {
        note_stamp(touched, old, stamp, id)?;
    }
    Ok(())
}

/// Lists a node for each pending stage of its new stamps that the old ones have not.
pub(crate) fn note_stamps(
    touched: &mut VecDeque<StageNodes>,
    old: &Element,
    new: &Element,
    id: NodeId,
) -> Result<(), OutOfMemory>
    requires { AreRising touched.old.items }
    ensures notes { OnOk result (Notes id touched.old.items touched.new.items) }
    ensures listed { OnOk result ((k : ℕ) → is_stamped_by k new.now ≡ true → is_stamped_by k old.now ≡ false → is_listed touched.new.items k id ≡ true) }
{
    note_stamp(touched, old, &new.ins, id)?;
    note_each(touched, old, new.dels.as_slice(), id)
}

/// Lists the second node for each stage for which the first one is listed.
pub(crate) fn note_heir(
    touched: &mut VecDeque<StageNodes>,
    front: NodeId,
    rear: NodeId,
) -> Result<(), OutOfMemory>
    ensures { OnOk result (touched.new.items ≡ map (with_heir front rear) touched.old.items) }
{
    add_heirs(touched.make_contiguous(), front, rear)
}

// The same in a slice.
fn add_heirs(touched: &mut [StageNodes], front: NodeId, rear: NodeId) -> Result<(), OutOfMemory>
    ensures { OnOk result (touched.new ≡ map (with_heir front rear) touched.old) }
{
    for list in touched.iter_mut() {
        list.add_heir(front, rear)?;
    }
    Ok(())
}

/// Takes a node off all lists. Those without any node go.
pub(crate) fn purge(touched: &mut VecDeque<StageNodes>, id: NodeId)
    ensures { touched.new.items ≡ all_purged id touched.old.items }
{
    purge_all(touched, id);
    drop_empty(touched);
}

/// Lists without any node go.
pub(crate) fn drop_empty(touched: &mut VecDeque<StageNodes>)
    ensures { touched.new.items ≡ filter (λ s. is_some_node s.nodes) touched.old.items }
{
    touched.retain(|list| list.is_some());
}

// Takes a node off all lists.
fn purge_all(touched: &mut VecDeque<StageNodes>, id: NodeId)
    ensures { touched.new.items ≡ map (purged id) touched.old.items }
{
    purge_each(touched.make_contiguous(), id);
}

// The same in a slice.
fn purge_each(touched: &mut [StageNodes], id: NodeId)
    ensures { touched.new ≡ map (purged id) touched.old }
{
    for list in touched.iter_mut() {
        list.purge(id);
    }
}

/// The nodes that are listed for a stage.
pub(crate) fn nodes_of(touched: &VecDeque<StageNodes>, stage: u64) -> &[TouchedNode]
    requires { AreRising touched.now.items }
    ensures { (id : ℕ) → holds result.now id ≡ is_listed touched.now.items stage id }
{
    let i = stage_place(touched, stage);
    if !is_at(touched, i, stage) {
        return &[];
    }
    touched[i].nodes()
}

/// Takes the list of a stage out, and returns its nodes: none where there is no list.
pub(crate) fn take_stage(touched: &mut VecDeque<StageNodes>, stage: u64) -> Nodes
    requires { AreRising touched.old.items }
    ensures nodes { (id : ℕ) → holds result.items id ≡ is_listed touched.old.items stage id }
    ensures gone { (id : ℕ) → is_listed touched.new.items stage id ≡ false }
    ensures others { (k id : ℕ) → k ≢ stage → is_listed touched.new.items k id ≡ is_listed touched.old.items k id }
    ensures rising { AreRising touched.new.items }
{
    let alloc = allocator_of(touched);
    let i = stage_place(touched, stage);
    if !is_at(touched, i, stage) {
        return SmallVec::new(alloc);
    }
    match touched.remove(i) {
        Some(list) => list.into_nodes(),
        None => SmallVec::new(alloc),
    }
}
