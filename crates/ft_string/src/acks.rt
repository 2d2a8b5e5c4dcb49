//! The acknowledgement of pending stages of a shared text.

ghost use Rattle.std.specs.Prelude.{◌≡◌, ℕ, ◌+◌, ◌≤◌, ◌^◌, ◌++◌, List, All, IsTrue, OnErr, OnOk, false};
ghost use Rattle.ft_interval.specs.State.{StandsOn};
ghost use Rattle.ft_interval_store.specs.State.{IsMarked, text_elements};
ghost use Rattle.ft_tree_leaves.specs.Elements.{IsLowestChange};
ghost use Rattle.ft_op.specs.Document.{Document};
ghost use Rattle.ft_op.specs.Stages.{Stage};
ghost use Rattle.ft_string.specs.Calls.{AreOldest, HoldsAcked, HoldsOldest};
ghost use Rattle.ft_string.specs.Holds.{HoldsText, IsTextSound};
ghost use Rattle.ft_string.specs.Acks.{AcksStage, AcksStages, AreNoted, OpsRise, first_op, least_of, next_below};
ghost use Rattle.ft_string.specs.State.{KeepsRest};

use crate::pending::PendingOp;
use crate::strings::SharedString;
use ft_base::OutOfMemory;
use ft_base::moved::drop_first;
use ft_interval::Collections;
use ft_tree::{TextContent, Tree};
use std::collections::VecDeque;

// The lesser of two numbers, as far as they are given.
fn least(a: Option<u64>, b: Option<u64>) -> Option<u64>
    ensures { result ≡ least_of a b }
{
    match (a, b) {
        (Some(a), Some(b)) => Some(a.min(b)),
        (Some(a), None) => Some(a),
        (None, b) => b,
    }
}

// The stage of the first pending operation on elements.
fn first_op(ops: &VecDeque<PendingOp>) -> Option<u64>
    ensures { result ≡ first_op ops.now.items }
{
    match ops.front() {
        Some(op) => Some(op.stage),
        None => None,
    }
}

// The lowest pending stage, if it is no later than the last one.
fn next_up_to(intervals: &Collections, ops: &VecDeque<PendingOp>, last: u64) -> Option<u64>
    ensures { result ≡ next_below (last + 1) intervals.now.state ops.now.items }
{
    let stage = least(first_op(ops), intervals.first_stage())?;
    if stage <= last { Some(stage) } else { None }
}

// Acknowledges a stage, which is the lowest.
fn ack_stage(
    tree: &mut Tree<TextContent>,
    intervals: &mut Collections,
    ops: &mut VecDeque<PendingOp>,
    stage: u64,
    seq: u64,
    conn: u32,
) -> Result<(), OutOfMemory>
    requires usable { IsTrue tree.old.usable }
    requires stands { StandsOn tree.old intervals.old }
    requires marked { IsMarked tree.old.refs intervals.old.state }
    requires lowest { All (λ e. IsLowestChange stage e.overlay) (text_elements tree.old) }
    ensures stage { OnOk result (AcksStage stage seq conn tree.old tree.new intervals.old.state intervals.new.state ops.old.items ops.new.items) }
    ensures stands { OnOk result (StandsOn tree.new intervals.new) }
{
    tree.ack(stage, seq, conn)?;
    if intervals.first_stage() == Some(stage) {
        return intervals.ack(tree, stage);
    }
    drop_first(ops);
    Ok(())
}

// Acknowledges the pending stages up to the last one, from the lowest on.
fn ack_all(
    tree: &mut Tree<TextContent>,
    intervals: &mut Collections,
    ops: &mut VecDeque<PendingOp>,
    last: u64,
    seq: u64,
    conn: u32,
) -> Result<(), OutOfMemory>
    requires usable { IsTrue tree.old.usable }
    requires stands { StandsOn tree.old intervals.old }
    requires marked { IsMarked tree.old.refs intervals.old.state }
    requires rise { OpsRise 0 ops.old.items }
    requires noted { AreNoted ops.old.items (text_elements tree.old) }
    ensures stages { OnOk result (AcksStages (last + 1) seq conn tree.old tree.new intervals.old.state intervals.new.state ops.old.items ops.new.items) }
    ensures stands { OnOk result (StandsOn tree.new intervals.new) }
{
    while let Some(stage) = next_up_to(intervals, ops, last) {
        ack_stage(tree, intervals, ops, stage, seq, conn)?;
    }
    Ok(())
}

impl SharedString {
    /// Acknowledges the pending ones of the `count` stages from `first` on, which are the lowest, under number `seq` of
    /// connection `conn`, one after another.
    ///
    /// Returns `OutOfMemory` where there is no room for what they make, and then the text may be used no more.
    pub fn ack(&mut self, first: u64, count: u64, seq: u64, conn: u32) -> Result<(), OutOfMemory>
        requires usable { IsTrue self.old.usable }
        requires none_given { self.old.given ≡ 0 }
        requires stages { first + count ≤ 2 ^ 64 }
        requires held { (last : ℕ) × HoldsOldest last first (first + count) self.old }
        ensures acked { (last : ℕ) → (doc : Document) → (mine : List Stage) → (rest : List Stage) → AreOldest first (first + count) mine rest
            → IsTextSound last doc (mine ++ rest) → HoldsText self.old doc (mine ++ rest)
            → OnOk result (HoldsAcked self.new seq conn mine rest doc) }
        ensures rest { OnOk result (KeepsRest self.old self.new) }
        ensures err { OnErr result (self.new.usable ≡ false) }
    {
        if count == 0 {
            return Ok(());
        }
        let last = first + (count - 1);
        self.usable = false;
        ack_all(
            &mut self.tree,
            &mut self.intervals,
            &mut self.ops,
            last,
            seq,
            conn,
        )?;
        self.usable = true;
        Ok(())
    }
}
