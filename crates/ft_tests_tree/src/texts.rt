//! What a script does to a tree of text, and what it reads.

ghost use Rattle.std.specs.Prelude.{◌≤◌, IsTrue, OnOk};
ghost use Rattle.ft_tests_tree.specs.Passing.{HasNoChanges, Passes};

use crate::faults::StepFault;
use ft_base::{Perspective, Steps};
use ft_block::LenView;
use ft_props::PropSet;
use ft_tree::{Content, TextContent, Tree};
use std::alloc::Global;
use std::sync::ledger::Ledger;

// The most elements that a tree has here.
const MOST: u64 = 1_000_000_000;

// The view of the client.
const LOCAL: LenView = LenView::Stage(u64::MAX);

// Whether the perspective may be asked, and sees so many elements.
fn may_be_made(tree: &Tree<TextContent>, count: u64, at: Perspective) -> bool
    requires { IsTrue tree.now.usable }
    ensures { IsTrue result → tree.now.floor ≤ at.r }
{
    at.r >= tree.floor() && count <= tree.length(LenView::At(at))
}

/// A run of those characters, of a pending insertion; a single `*` is a marker instead.
pub(crate) fn run(alloc: Global, text: &str) -> Result<TextContent, StepFault> {
    if text == "*" {
        return Ok(TextContent::marker(7));
    }
    let count = text.chars().count();
    if count == 0 || count > 256 {
        return Err(StepFault::NotARun);
    }
    Ok(TextContent::run(alloc, text)?)
}

/// Puts a run in, of a pending stage, directly after the `p`-th character of the local view, and tells whether that can be
/// done.
pub(crate) fn write<G: Ledger>(
    alloc: Global,
    tree: &mut Tree<TextContent>,
    p: u64,
    text: &str,
    props: &PropSet,
    stage: u64,
    steps: &mut Steps<G>,
) -> Result<bool, StepFault>
    requires { IsTrue tree.old.usable }
    ensures { OnOk result (Passes tree.old tree.new) }
{
    if p > tree.length(LOCAL) {
        return Ok(false);
    }
    let content = run(alloc, text)?;
    if tree.made() > MOST || content.len() > 1000 {
        return Err(StepFault::TooLarge);
    }
    tree.insert_local(p, content, props, stage, steps)?;
    Ok(true)
}

/// Puts a run in under number `seq`, directly after the `p`-th character that the perspective sees, and tells whether that
/// can be done.
pub(crate) fn hear<G: Ledger>(
    alloc: Global,
    tree: &mut Tree<TextContent>,
    p: u64,
    text: &str,
    props: &PropSet,
    seq: u64,
    at: Perspective,
    steps: &mut Steps<G>,
) -> Result<bool, StepFault>
    requires { IsTrue tree.old.usable }
    ensures { OnOk result (Passes tree.old tree.new) }
{
    if !may_be_made(tree, p, at) {
        return Ok(false);
    }
    let content = run(alloc, text)?;
    if tree.made() > MOST || content.len() > 1000 {
        return Err(StepFault::TooLarge);
    }
    tree.insert_remote(p, content, props, seq, at, steps)?;
    Ok(true)
}

/// Marks the characters of the local view from the `p`-th up to before the `q`-th as removed by a stage, and tells whether
/// that can be done.
pub(crate) fn erase<G: Ledger>(
    tree: &mut Tree<TextContent>,
    p: u64,
    q: u64,
    stage: u64,
    steps: &mut Steps<G>,
) -> Result<bool, StepFault>
    requires { IsTrue tree.old.usable }
    ensures { OnOk result (Passes tree.old tree.new) }
{
    if p > q || q > tree.length(LOCAL) {
        return Ok(false);
    }
    tree.remove_local(p, q, stage, steps)?;
    Ok(true)
}

/// Removes under number `seq` the characters that the perspective sees from the `p`-th up to before the `q`-th, and tells
/// whether that can be done.
pub(crate) fn strike<G: Ledger>(
    tree: &mut Tree<TextContent>,
    p: u64,
    q: u64,
    seq: u64,
    at: Perspective,
    steps: &mut Steps<G>,
) -> Result<bool, StepFault>
    requires { IsTrue tree.old.usable }
    ensures { OnOk result (Passes tree.old tree.new) }
{
    if p > q || !may_be_made(tree, q, at) {
        return Ok(false);
    }
    tree.remove_remote(p, q, seq, at, steps)?;
    Ok(true)
}

/// Acknowledges a stage under number `seq` of connection 1.
pub(crate) fn acknowledge(
    tree: &mut Tree<TextContent>,
    stage: u64,
    seq: u64,
) -> Result<(), StepFault>
    requires usable { IsTrue tree.old.usable }
    requires calm { HasNoChanges tree.old }
    ensures { OnOk result (Passes tree.old tree.new) }
{
    tree.ack(stage, seq, 1)?;
    Ok(())
}
