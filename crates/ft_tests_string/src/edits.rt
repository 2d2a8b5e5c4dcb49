//! The client's own edits of a tree and its intervals.

ghost use Rattle.std.specs.Prelude.{◌≡◌, ◌+◌, ◌<◌, ◌≤◌, ℕ, IfErr, IfOk, IsTrue, OnOk, false, true};
ghost use Rattle.std.specs.List.{list_all};
ghost use Rattle.ft_base.specs.Scan.{len};
ghost use Rattle.ft_block.specs.declared.leaves.LenView.TheVariants.{Stage as at_stage};
ghost use Rattle.ft_interval.specs.State.{StandsOn};
ghost use Rattle.ft_interval_store.specs.Intervals.{name_in};
ghost use Rattle.ft_interval_store.specs.State.{IsAboveAll, IsAsBefore, IsRefusedEdit, Pushes, is_interval_operation, is_shown, placed, text_elements};
ghost use Rattle.ft_op.specs.WellFormed.{IsWellFormedBase, IsWellFormedText};
ghost use Rattle.ft_props.specs.Properties.{max_safe_integer};
ghost use Rattle.ft_string.specs.Edits.{is_refusal};
ghost use Rattle.ft_string.specs.Parts.{TakesOp};
ghost use Rattle.ft_text.specs.Lengths.{put_in_by};
ghost use Rattle.ft_tree_leaves.specs.Elements.{seen_in};
ghost use Rattle.ft_tests_string.specs.Answers.{Makes, after};
ghost use Rattle.ft_tests_string.specs.Playing.{Carries, GoesTogether, Together, is_annotation, is_calm};

use crate::faults::StepFault;
use crate::hearing::MOST;
use crate::progress::Progress;
use ft_base::Steps;
use ft_block::LenView;
use ft_interval::Collections;
use ft_interval_store::IntervalFault;
use ft_op::{BaseOp, TextOp};
use ft_text::contents::insert_local;
use ft_text::lengths::{end_of, put_in_by};
use ft_tree::{TextContent, Tree, TreeFault};
use std::marker::Brand;
use std::sync::ledger::{Blank, Ledger};

/// What came of an edit.
#[derive(Clone, Copy)]
pub(crate) enum Answer {
    /// It was made.
    Made,
    /// It is no edit here, or wants more elements than are seen.
    Passed,
    /// The intervals refuse it so.
    Refused(IntervalFault),
}

// Whether it is an annotation.
fn is_annotation(op: &BaseOp) -> bool
    ensures { result ≡ is_annotation op.now }
{
    match op {
        BaseOp::Annotate { .. } => true,
        BaseOp::Insert { .. } | BaseOp::Remove { .. } => false,
    }
}

// Makes an operation at a pending stage, where the client sees the elements for it.
//
// Returns no error but `OutOfMemory`.
fn take_op<G: Ledger>(
    tree: &mut Tree<TextContent>,
    op: &BaseOp,
    stage: u64,
    steps: &mut Steps<G>,
) -> Result<(), TreeFault>
    requires usable { IsTrue tree.old.usable }
    requires formed { IsWellFormedBase op.now }
    requires kind { is_annotation op.now ≡ false }
    requires made { tree.old.made + put_in_by op.now ≤ max_safe_integer }
    ensures { OnOk result (TakesOp stage op.now tree.old tree.new) }
{
    match op {
        BaseOp::Insert { pos, seg, props } => insert_local(tree, *pos, seg, props, stage, steps),
        BaseOp::Remove { pos1, pos2 } => tree.remove_local(*pos1, *pos2, stage, steps),
        BaseOp::Annotate { .. } => unreachable!(),
    }
}

// Makes an insertion or a removal at a pending stage.
fn edit_op<G: Ledger>(
    tree: &mut Tree<TextContent>,
    op: &BaseOp,
    stage: u64,
    blank: Blank,
) -> Result<Answer, StepFault>
    requires usable { IsTrue tree.old.usable }
    requires formed { IsWellFormedBase op.now }
    requires name { blank.name ≡ G.name }
    requires parts { blank.parts ≡ G.parts }
    requires some { 0 < blank.parts }
    ensures { IfOk result (λ answer. Makes stage answer tree.old tree.new) }
{
    if is_annotation(op) || tree.length(LenView::Stage(u64::MAX)) < end_of(op) {
        return Ok(Answer::Passed);
    }
    if tree.made() > MOST || put_in_by(op) > MOST {
        return Err(StepFault::TooLarge);
    }
    let mut steps = Steps::<G>::new(blank);
    match take_op(tree, op, stage, &mut steps) {
        Ok(()) => Ok(Answer::Made),
        Err(_) => Err(StepFault::OutOfMemory),
    }
}

// Adds a pending operation on an interval.
fn take_interval(
    tree: &mut Tree<TextContent>,
    intervals: &mut Collections,
    op: &TextOp,
    stage: u64,
) -> Result<(), IntervalFault>
    requires usable { IsTrue tree.old.usable }
    requires stands { StandsOn tree.old intervals.old }
    requires kind { is_interval_operation op.now ≡ true }
    requires some { 1 ≤ stage }
    requires above { IsAboveAll stage intervals.old.state }
    ensures taken { OnOk result (Pushes (seen_in (at_stage stage)) (text_elements tree.old) stage op.now intervals.old.state intervals.new.state tree.old tree.new) }
    ensures refused { let shown = is_shown (text_elements tree.old) (name_in op.now) (placed tree.old.refs intervals.old.state) in
        let length = len (seen_in (at_stage stage)) (text_elements tree.old) in
        IfErr result (IsRefusedEdit shown length op.now (IsAsBefore intervals.old.state intervals.new.state tree.old tree.new)) }
    ensures indexes { intervals.new.indexes ≡ intervals.old.indexes }
    ensures stands { OnOk result (StandsOn tree.new intervals.new) }
{
    match op {
        TextOp::IntervalAdd { .. } => intervals.add_local(tree, op, stage),
        TextOp::IntervalChange { .. } => intervals.change_local(tree, op, stage),
        TextOp::IntervalDelete { .. } => intervals.delete_local(tree, op, stage),
        TextOp::One(_) | TextOp::Group(_) => unreachable!(),
    }
}

// Whether it is a refusal, and not `OutOfMemory`.
fn is_refusal(fault: &IntervalFault) -> bool
    ensures { result ≡ is_refusal fault.now }
{
    match fault {
        IntervalFault::IdInUse | IntervalFault::NoSuchInterval | IntervalFault::OutOfRange { .. } =>
            true,
        IntervalFault::OutOfMemory => false,
    }
}

// Makes an edit of an interval at a pending stage.
fn edit_interval(
    tree: &mut Tree<TextContent>,
    intervals: &mut Collections,
    op: &TextOp,
    stage: u64,
) -> Result<Answer, StepFault>
    requires kind { is_interval_operation op.now ≡ true }
    requires together { Together tree.old intervals.old stage }
    ensures { IfOk result (λ answer. Together tree.new intervals.new (after answer stage)) }
{
    match take_interval(tree, intervals, op, stage) {
        Ok(()) => Ok(Answer::Made),
        Err(fault) => {
            if is_refusal(&fault) {
                Ok(Answer::Refused(fault))
            } else {
                Err(StepFault::OutOfMemory)
            }
        }
    }
}

// Makes an edit at a pending stage.
fn make<G: Ledger>(
    tree: &mut Tree<TextContent>,
    intervals: &mut Collections,
    op: &TextOp,
    stage: u64,
    blank: Blank,
) -> Result<Answer, StepFault>
    requires formed { IsWellFormedText op.now }
    requires together { Together tree.old intervals.old stage }
    requires name { blank.name ≡ G.name }
    requires parts { blank.parts ≡ G.parts }
    requires some { 0 < blank.parts }
    ensures { IfOk result (λ answer. Together tree.new intervals.new (after answer stage)) }
{
    match op {
        TextOp::One(op) => edit_op::<G>(tree, op, stage, blank),
        TextOp::Group(_) => Ok(Answer::Passed),
        TextOp::IntervalAdd { .. }
        | TextOp::IntervalChange { .. }
        | TextOp::IntervalDelete { .. } => edit_interval(tree, intervals, op, stage),
    }
}

/// Makes an edit, of the next stage, and tells what came of it.
///
/// Returns `OutOfMemory` where there is no room for it, and `TooLarge` where the tree is too large or there is no further
/// stage.
pub(crate) fn edit(
    tree: &mut Tree<TextContent>,
    intervals: &mut Collections,
    progress: &mut Progress,
    op: &TextOp,
) -> Result<Answer, StepFault>
    requires formed { IsWellFormedText op.now }
    requires together { GoesTogether tree.old intervals.old progress.old }
    ensures { OnOk result (GoesTogether tree.new intervals.new progress.new) }
{
    let answer = make::<Brand>(tree, intervals, op, progress.stage, Blank::new(1))?;
    match answer {
        Answer::Made => progress.pass()?,
        Answer::Passed => {}
        Answer::Refused(_) => {}
    }
    Ok(answer)
}

// Acknowledges a stage of the tree.
fn ack_elements(tree: &mut Tree<TextContent>, stage: u64, seq: u64) -> Result<(), StepFault>
    requires usable { IsTrue tree.old.usable }
    requires calm { list_all is_calm (text_elements tree.old) ≡ true }
    ensures { OnOk result (Carries tree.old tree.new) }
{
    tree.ack(stage, seq, 1)?;
    Ok(())
}

// Acknowledges a stage of the intervals, where that is on one.
fn ack_interval(
    tree: &mut Tree<TextContent>,
    intervals: &mut Collections,
    stage: u64,
) -> Result<(), StepFault>
    requires usable { IsTrue tree.old.usable }
    requires stands { StandsOn tree.old intervals.old }
    ensures { (k : ℕ) → Together tree.old intervals.old k → OnOk result (Together tree.new intervals.new k) }
{
    if intervals.first_stage() == Some(stage) {
        intervals.ack(tree, stage)?;
    }
    Ok(())
}

/// Acknowledges the first pending stage under number `seq`, and tells whether there is one.
///
/// Returns `OutOfMemory` where there is no room for it.
pub(crate) fn acknowledge(
    tree: &mut Tree<TextContent>,
    intervals: &mut Collections,
    progress: &mut Progress,
    seq: u64,
) -> Result<bool, StepFault>
    requires { GoesTogether tree.old intervals.old progress.old }
    ensures { OnOk result (GoesTogether tree.new intervals.new progress.new) }
{
    let stage = progress.first;
    if stage >= progress.stage {
        return Ok(false);
    }
    ack_elements(tree, stage, seq)?;
    ack_interval(tree, intervals, stage)?;
    progress.first = stage + 1;
    Ok(true)
}
