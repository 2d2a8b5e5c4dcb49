//! How a shared text comes back under a new connection: each pending edit is sent again, stage by stage, and then the pending
//! leaves move to where the order will put them.

ghost use Rattle.std.specs.Prelude.{◌≡◌, ℕ, ◌+◌, ◌-◌, ◌<◌, ◌≤◌, ◌^◌, ◌++◌, List, [], IfOk, IsTrue, OnErr, OnOk, cond, false, flat_map, map, nat_eq, option_map};
ghost use Rattle.ft_op.specs.declared.operations.ChannelOp.TheVariants.{Text};
ghost use Rattle.ft_op.specs.Document.{Document};
ghost use Rattle.ft_op.specs.Pieces.{op_of, pieces};
ghost use Rattle.ft_op.specs.Stages.{Stage};
ghost use Rattle.ft_named.specs.Nodes.{KeepsNodes};
ghost use Rattle.ft_rebase.specs.Spots.{KeepsSpots};
ghost use Rattle.ft_tree_leaves.specs.TextLeaves.{text_units};
ghost use Rattle.ft_interval.specs.State.{StandsOn};
ghost use Rattle.ft_interval_store.specs.State.{text_elements};
ghost use Rattle.ft_string.specs.Calls.{AreNext, HoldsAllGiven, HoldsGiven, HoldsRejoined, HoldsSomeGiven};
ghost use Rattle.ft_string.specs.Holds.{IsTextSound};
ghost use Rattle.ft_string.specs.Rejoins.{Gives, GivesOps, NextDue, again_of, due, has_any, has_piece, one_of, piece_ends, piece_op};

use crate::moved::push_behind_if;
use crate::pending::PendingOp;
use crate::strings::SharedString;
use ft_base::moved::after;
use ft_base::{Datum, OutOfMemory};
use ft_interval::Collections;
use ft_op::{BaseOp, BaseOps, TextOp};
use ft_rebase::{Piece, normalise, regenerate};
use ft_text::lengths::made_in;
use ft_tree::{TextContent, Tree};
use std::collections::VecDeque;
use std::mem;

// From where to where a piece is. An insertion is at one place.
fn ends_of(piece: Piece) -> (u64, u64)
    ensures { result ≡ piece_ends piece }
{
    match piece {
        Piece::Insert { pos } => (pos, pos),
        Piece::Remove { pos1, pos2 } => (pos1, pos2),
        Piece::Annotate { pos1, pos2 } => (pos1, pos2),
    }
}

// The piece as an operation: the original one at the places of now.
fn operation_of(op: &BaseOp, piece: Piece) -> Result<BaseOp, OutOfMemory>
    ensures { IfOk result (λ again. again ≡ piece_op op.now piece) }
{
    let (pos1, pos2) = ends_of(piece);
    match op {
        BaseOp::Insert { seg, props, .. } => Ok(BaseOp::Insert {
            pos: pos1,
            seg: seg.copy()?,
            props: props.copy()?,
        }),
        BaseOp::Remove { .. } => Ok(BaseOp::Remove { pos1, pos2 }),
        BaseOp::Annotate { changes, .. } => Ok(BaseOp::Annotate {
            pos1,
            pos2,
            changes: changes.copy()?,
        }),
    }
}

// Adds the operations that the pieces of an operation make, and returns whether there are any.
fn push_pieces(op: &BaseOp, parts: &[Piece], again: &mut BaseOps) -> Result<bool, OutOfMemory>
    ensures pieces { OnOk result (again.new ≡ again.old ++ map (piece_op op.now) parts.now) }
    ensures some { IfOk result (λ some. some ≡ has_any parts.now) }
{
    for part in parts {
        again.push(operation_of(op, *part)?)?;
    }
    Ok(!parts.is_empty())
}

// Adds the operations as which a pending operation is sent again, and returns whether there are any.
fn push_again(
    tree: &Tree<TextContent>,
    op: &PendingOp,
    again: &mut BaseOps,
) -> Result<bool, OutOfMemory>
    requires { IsTrue tree.now.usable }
    ensures sends { OnOk result (again.new ≡ again.old ++ again_of (text_elements tree.now) op.now) }
    ensures some { IfOk result (λ some. some ≡ has_piece (text_elements tree.now) op.now) }
{
    let parts = regenerate(tree, op.stage)?;
    push_pieces(&op.op, &parts, again)
}

// Takes the operations of the stages up to the last one from the front. Those of which something is sent again go behind `kept`,
// and what is sent into `again`.
fn give_due(
    tree: &Tree<TextContent>,
    ops: &mut VecDeque<PendingOp>,
    kept: &mut VecDeque<PendingOp>,
    last: u64,
    again: &mut BaseOps,
) -> Result<(), OutOfMemory>
    requires usable { IsTrue tree.now.usable }
    requires none { again.old ≡ [] }
    ensures { OnOk result (GivesOps (text_elements tree.now) (last + 1) ops.old.items ops.new.items kept.old.items kept.new.items again.new) }
{
    while let Some(op) = next_due(ops, last) {
        let some = push_again(tree, &op, again);
        push_behind_if(kept, op, some)?;
    }
    Ok(())
}

// The same, and returns what is sent.
fn give_ops(
    tree: &Tree<TextContent>,
    ops: &mut VecDeque<PendingOp>,
    kept: &mut VecDeque<PendingOp>,
    last: u64,
) -> Result<BaseOps, OutOfMemory>
    requires { IsTrue tree.now.usable }
    ensures { IfOk result (λ sent. GivesOps (text_elements tree.now) (last + 1) ops.old.items ops.new.items kept.old.items kept.new.items sent) }
{
    let mut again = BaseOps::new(tree.allocator());
    let given = give_due(tree, ops, kept, last, &mut again);
    after(given, again)
}

// Takes the first operation, if its stage is no later than the last one.
fn next_due(ops: &mut VecDeque<PendingOp>, last: u64) -> Option<PendingOp>
    ensures { NextDue (last + 1) ops.old.items ops.new.items result }
{
    if is_due(ops, last) {
        ops.pop_front()
    } else {
        None
    }
}

// Whether the stage of the first operation is no later than the last one.
fn is_due(ops: &VecDeque<PendingOp>, last: u64) -> bool
    ensures { result ≡ has_any (due (last + 1) ops.now.items) }
{
    match ops.front() {
        Some(op) => op.stage <= last,
        None => false,
    }
}

// The operation that these make: one bare, several as a group, none for none.
fn one_of(ops: BaseOps) -> Result<Option<TextOp>, OutOfMemory>
    ensures { IfOk result (λ op. op ≡ one_of ops) }
{
    match ops.at(0) {
        None => Ok(None),
        Some(op) => {
            if ops.len() == 1 {
                Ok(Some(TextOp::One(op.copy()?)))
            } else {
                Ok(Some(TextOp::Group(ops)))
            }
        }
    }
}

// What is sent again of the stages from `first` up to `last`.
fn give(
    tree: &mut Tree<TextContent>,
    intervals: &mut Collections,
    ops: &mut VecDeque<PendingOp>,
    kept: &mut VecDeque<PendingOp>,
    first: u64,
    last: u64,
) -> Result<Option<TextOp>, OutOfMemory>
    requires usable { IsTrue tree.old.usable }
    requires stands { StandsOn tree.old intervals.old }
    ensures gives { IfOk result (λ op. Gives first (last + 1) tree.old tree.new intervals.old.state intervals.new.state ops.old.items ops.new.items kept.old.items kept.new.items op) }
    ensures stands { OnOk result (StandsOn tree.new intervals.new) }
{
    if intervals.is_pending(first) {
        // That ends are numbers is read off its contract.
        let _made = made_in(tree);
        return Ok(Some(intervals.settle_op(tree, first)?));
    }
    one_of(give_ops(tree, ops, kept, last)?)
}

// Adds what is in `back` to the end of `front`, and leaves nothing there.
fn join(front: &mut VecDeque<PendingOp>, back: &mut VecDeque<PendingOp>) -> Result<(), OutOfMemory>
    ensures joined { OnOk result (front.new.items ≡ front.old.items ++ back.old.items) }
    ensures none { OnOk result (back.new.items ≡ []) }
{
    while let Some(op) = back.pop_front() {
        front.push_back(op)?;
    }
    Ok(())
}

impl SharedString {
    /// The operation as which the pending ones of the `count` stages from `first` on are sent again: None exactly where nothing
    /// of them is left. They are all the pending stages of one edit, and each lower pending stage was given before. Until
    /// `normalise` only this may be called.
    ///
    /// Returns `OutOfMemory` where there is no room for it, and then the text may be used no more.
    pub fn reconnect(&mut self, first: u64, count: u64) -> Result<Option<TextOp>, OutOfMemory>
        requires usable { IsTrue self.old.usable }
        requires stages { first + count ≤ 2 ^ 64 }
        requires order { self.old.given < first }
        requires held { (last : ℕ) × HoldsSomeGiven last first (first + count) self.old }
        ensures op { (last : ℕ) → (doc : Document) → (front : List Stage) → (mine : List Stage) → (behind : List Stage)
            → AreNext self.old.given first (first + count) front mine behind → IsTextSound last doc (front ++ (mine ++ behind))
            → HoldsGiven self.old doc front (mine ++ behind) → IfOk result (λ op. option_map Text op ≡ op_of (flat_map (pieces doc) mine)) }
        ensures holds { (last : ℕ) → (doc : Document) → (front : List Stage) → (mine : List Stage) → (behind : List Stage)
            → AreNext self.old.given first (first + count) front mine behind → IsTextSound last doc (front ++ (mine ++ behind))
            → HoldsGiven self.old doc front (mine ++ behind) → OnOk result (HoldsGiven self.new doc (front ++ mine) behind) }
        ensures given { OnOk result (self.new.given ≡ cond (nat_eq count 0) self.old.given (first + count - 1)) }
        ensures floor { OnOk result (self.new.floor ≡ self.old.floor) }
        ensures usable { OnOk result (IsTrue self.new.usable) }
        ensures err { OnErr result (self.new.usable ≡ false) }
    {
        self.usable = false;
        if count == 0 {
            self.usable = true;
            return Ok(None);
        }
        let last = first + (count - 1);
        let op = give(
            &mut self.tree,
            &mut self.intervals,
            &mut self.ops,
            &mut self.again,
            first,
            last,
        )?;
        self.given = last;
        self.usable = true;
        Ok(op)
    }

    /// Brings the text in order after all pending stages were given: it is as if they had been made afresh. Each leaf whose
    /// insertion is sequenced keeps its node, in the same order, and each reference its element.
    ///
    /// Returns `OutOfMemory` where there is no room for it, and then the text may be used no more.
    pub fn normalise(&mut self) -> Result<(), OutOfMemory>
        requires usable { IsTrue self.old.usable }
        requires held { (last : ℕ) × HoldsAllGiven last self.old }
        ensures holds { (last : ℕ) → (doc : Document) → (stages : List Stage) → IsTextSound last doc stages → HoldsGiven self.old doc stages []
            → OnOk result (HoldsRejoined self.new doc stages) }
        ensures given { OnOk result (self.new.given ≡ 0) }
        ensures floor { OnOk result (self.new.floor ≡ self.old.floor) }
        ensures usable { OnOk result (IsTrue self.new.usable) }
        ensures err { OnErr result (self.new.usable ≡ false) }
        ensures nodes { OnOk result (KeepsNodes self.old.tree.leaves self.new.tree.leaves) }
        ensures refs { OnOk result (KeepsSpots text_units self.old.tree self.new.tree) }
    {
        self.usable = false;
        normalise(&mut self.tree)?;
        join(&mut self.again, &mut self.ops)?;
        mem::swap(&mut self.ops, &mut self.again);
        self.given = 0;
        self.usable = true;
        Ok(())
    }
}
