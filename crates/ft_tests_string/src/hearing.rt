//! What operations of messages make of a tree and its intervals.

ghost use Rattle.std.specs.Prelude.{◌≡◌, ◌+◌, ◌<◌, ◌≤◌, ℕ, IsTrue, OnOk, true};
ghost use Rattle.std.specs.List.{AllByRecursion};
ghost use Rattle.ft_interval.specs.State.{StandsOn};
ghost use Rattle.ft_interval_store.specs.State.{is_interval_operation};
ghost use Rattle.ft_op.specs.WellFormed.{IsWellFormedBase, IsWellFormedText};
ghost use Rattle.ft_props.specs.Properties.{max_safe_integer};
ghost use Rattle.ft_string.specs.Parts.{AppliesOp};
ghost use Rattle.ft_text.specs.Lengths.{put_in_by};
ghost use Rattle.ft_tests_string.specs.Playing.{Carries, Together};

use crate::faults::StepFault;
use ft_base::{Perspective, Steps};
use ft_block::LenView;
use ft_interval::Collections;
use ft_op::{BaseOp, TextOp};
use ft_text::contents::insert_remote;
use ft_text::lengths::{end_of, put_in_by};
use ft_tree::{TextContent, Tree, TreeFault};
use std::slice;
use std::sync::ledger::{Blank, Ledger};

// The most elements that a tree and an operation have here.
pub(crate) const MOST: u64 = 1_000_000_000;

// Applies an operation for which the perspective sees the elements.
//
// Returns no error but `OutOfMemory`.
fn apply_op<G: Ledger>(
    tree: &mut Tree<TextContent>,
    op: &BaseOp,
    seq: u64,
    at: Perspective,
    steps: &mut Steps<G>,
) -> Result<(), TreeFault>
    requires usable { IsTrue tree.old.usable }
    requires formed { IsWellFormedBase op.now }
    requires floor { tree.old.floor ≤ at.r }
    requires made { tree.old.made + put_in_by op.now ≤ max_safe_integer }
    ensures { OnOk result (AppliesOp seq at op.now tree.old tree.new) }
{
    match op {
        BaseOp::Insert { pos, seg, props } => {
            insert_remote(tree, *pos, seg, props, seq, at, steps)
        }
        BaseOp::Remove { pos1, pos2 } => tree.remove_remote(*pos1, *pos2, seq, at, steps),
        BaseOp::Annotate {
            pos1,
            pos2,
            changes,
        } => tree.annotate_remote(*pos1, *pos2, changes, seq, at, steps),
    }
}

// Applies an operation under number `seq`, and tells whether the perspective may be asked and sees the elements for it.
fn hear_op<G: Ledger>(
    tree: &mut Tree<TextContent>,
    op: &BaseOp,
    seq: u64,
    at: Perspective,
    steps: &mut Steps<G>,
) -> Result<bool, StepFault>
    requires usable { IsTrue tree.old.usable }
    requires formed { IsWellFormedBase op.now }
    ensures carries { OnOk result (Carries tree.old tree.new) }
    ensures usable { OnOk result (IsTrue tree.new.usable) }
{
    if at.r < tree.floor() || tree.length(LenView::At(at)) < end_of(op) {
        return Ok(false);
    }
    if tree.made() > MOST || put_in_by(op) > MOST {
        return Err(StepFault::TooLarge);
    }
    match apply_op(tree, op, seq, at, steps) {
        Ok(()) => Ok(true),
        Err(_) => Err(StepFault::OutOfMemory),
    }
}

// Applies operations one after another, and tells whether all of them could be.
fn hear_all<G: Ledger>(
    tree: &mut Tree<TextContent>,
    ops: &[BaseOp],
    seq: u64,
    at: Perspective,
    blank: Blank,
) -> Result<bool, StepFault>
    requires usable { IsTrue tree.old.usable }
    requires formed { AllByRecursion IsWellFormedBase ops.now }
    requires name { blank.name ≡ G.name }
    requires parts { blank.parts ≡ G.parts }
    requires some { 0 < blank.parts }
    ensures { OnOk result (Carries tree.old tree.new) }
{
    let mut steps = Steps::<G>::new(blank);
    let mut are_made = true;
    for op in ops {
        let is_made = hear_op(tree, op, seq, at, &mut steps)?;
        are_made = are_made && is_made;
    }
    Ok(are_made)
}

// Applies an operation on an interval, and tells whether the perspective may be asked and sees the elements for it.
fn hear_interval(
    tree: &mut Tree<TextContent>,
    intervals: &mut Collections,
    op: &TextOp,
    at: Perspective,
) -> Result<bool, StepFault>
    requires usable { IsTrue tree.old.usable }
    requires stands { StandsOn tree.old intervals.old }
    requires kind { is_interval_operation op.now ≡ true }
    ensures { (k : ℕ) → Together tree.old intervals.old k → OnOk result (Together tree.new intervals.new k) }
{
    if at.r < tree.floor() {
        return Ok(false);
    }
    let fits = intervals.apply(tree, op, at)?;
    Ok(fits)
}

/// Applies an operation of a message under number `seq` by the perspective's connection, and tells whether it can be. The
/// operations of a group are applied that can be.
///
/// Returns `OutOfMemory` where there is no room for it, and `TooLarge` where the tree is too large.
pub(crate) fn hear<G: Ledger>(
    tree: &mut Tree<TextContent>,
    intervals: &mut Collections,
    op: &TextOp,
    seq: u64,
    at: Perspective,
    blank: Blank,
) -> Result<bool, StepFault>
    requires usable { IsTrue tree.old.usable }
    requires stands { StandsOn tree.old intervals.old }
    requires formed { IsWellFormedText op.now }
    requires name { blank.name ≡ G.name }
    requires parts { blank.parts ≡ G.parts }
    requires some { 0 < blank.parts }
    ensures { (k : ℕ) → Together tree.old intervals.old k → OnOk result (Together tree.new intervals.new k) }
{
    match op {
        TextOp::One(op) => hear_all::<G>(tree, slice::from_ref(op), seq, at, blank),
        TextOp::Group(ops) => hear_all::<G>(tree, ops.as_slice(), seq, at, blank),
        TextOp::IntervalAdd { .. }
        | TextOp::IntervalChange { .. }
        | TextOp::IntervalDelete { .. } => hear_interval(tree, intervals, op, at),
    }
}
