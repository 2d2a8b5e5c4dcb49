//! What a listener hears of operations on the elements of a shared text, before they are made: how the shown ones change.

ghost use Rattle.std.specs.Prelude.{◌≡◌, ◌≤◌, ℕ, IfOk, IsTrue, OnOk};
ghost use Rattle.ft_base.specs.Scan.{len};
ghost use Rattle.ft_block.specs.declared.leaves.LenView.TheVariants.{At};
ghost use Rattle.ft_block.specs.Leaves.{last_stage};
ghost use Rattle.ft_changes.specs.Listeners.{heard};
ghost use Rattle.ft_interval_store.specs.State.{text_elements};
ghost use Rattle.ft_op.specs.WellFormed.{IsWellFormedBase};
ghost use Rattle.ft_text.specs.Lengths.{end_of};
ghost use Rattle.ft_tree_leaves.specs.Elements.{seen_in};
ghost use Rattle.ft_string.specs.Told.{told_of_own, told_taken, told_within};

use ft_base::{OutOfMemory, Perspective};
use ft_block::LenView;
use ft_changes::runs::{puts, styles, takes};
use ft_changes::{Listener, ViewChanges};
use ft_op::BaseOp;
use ft_text::lengths::end_of;
use ft_tree::{TextContent, Tree};
use ft_tree_changes::{changed_runs, changed_runs_at_stage, gone_runs, place_of_insertion};

/// The view of the client, with all that is pending.
pub(crate) const LOCAL: LenView = LenView::Stage(u64::MAX);

/// Tells what an operation of a message changes, for which the perspective sees the elements.
pub(crate) fn tell_op(
    tree: &Tree<TextContent>,
    op: &BaseOp,
    at: Perspective,
    listener: &mut Listener,
) -> Result<(), OutOfMemory>
    requires usable { IsTrue tree.now.usable }
    requires formed { IsWellFormedBase op.now }
    requires floor { tree.now.floor ≤ at.r }
    requires within { end_of op.now ≤ len (seen_in (At at)) (text_elements tree.now) }
    ensures { OnOk result (listener.new ≡ heard listener.old (told_within at op.now (text_elements tree.now))) }
{
    if listener.listens() {
        let more = told_within(tree, op, at)?;
        listener.hear(more)?;
    }
    Ok(())
}

// The changes by such an operation.
fn told_within(
    tree: &Tree<TextContent>,
    op: &BaseOp,
    at: Perspective,
) -> Result<ViewChanges, OutOfMemory>
    requires usable { IsTrue tree.now.usable }
    requires formed { IsWellFormedBase op.now }
    requires floor { tree.now.floor ≤ at.r }
    requires within { end_of op.now ≤ len (seen_in (At at)) (text_elements tree.now) }
    ensures { IfOk result (λ changes. changes ≡ told_within at op.now (text_elements tree.now)) }
{
    let view = LenView::At(at);
    match op {
        BaseOp::Insert { pos, seg, props } => {
            let place = place_of_insertion(tree, *pos, view, LOCAL);
            puts(tree.allocator(), place, seg, props)
        }
        BaseOp::Remove { pos1, pos2 } => {
            let runs = gone_runs(tree, *pos1, *pos2, view, LOCAL)?;
            takes(tree.allocator(), runs.as_slice())
        }
        BaseOp::Annotate {
            pos1,
            pos2,
            changes,
        } => {
            let runs = changed_runs(tree, *pos1, *pos2, view, LOCAL, changes)?;
            styles(tree.allocator(), runs)
        }
    }
}

/// Tells what an operation of the client's own changes at its pending stage; nothing where it is out of range.
pub(crate) fn tell_own(
    tree: &Tree<TextContent>,
    op: &BaseOp,
    listener: &mut Listener,
) -> Result<(), OutOfMemory>
    requires usable { IsTrue tree.now.usable }
    requires formed { IsWellFormedBase op.now }
    ensures { (stage : ℕ) → OnOk result (listener.new ≡ heard listener.old (told_of_own stage op.now (text_elements tree.now))) }
{
    if listener.listens() && end_of(op) <= tree.length(LOCAL) {
        let more = told_taken(tree, op)?;
        listener.hear(more)?;
    }
    Ok(())
}

// The changes by such an operation that is within range, which are the same at every stage.
fn told_taken(tree: &Tree<TextContent>, op: &BaseOp) -> Result<ViewChanges, OutOfMemory>
    requires usable { IsTrue tree.now.usable }
    requires formed { IsWellFormedBase op.now }
    requires within { end_of op.now ≤ len (seen_in last_stage) (text_elements tree.now) }
    ensures { IfOk result (λ changes. (stage : ℕ) → changes ≡ told_taken stage op.now (text_elements tree.now)) }
{
    match op {
        BaseOp::Insert { pos, seg, props } => puts(tree.allocator(), *pos, seg, props),
        BaseOp::Remove { pos1, pos2 } => {
            let runs = gone_runs(tree, *pos1, *pos2, LOCAL, LOCAL)?;
            takes(tree.allocator(), runs.as_slice())
        }
        BaseOp::Annotate {
            pos1,
            pos2,
            changes,
        } => {
            let runs = changed_runs_at_stage(tree, *pos1, *pos2, LOCAL, LOCAL, changes)?;
            styles(tree.allocator(), runs)
        }
    }
}
