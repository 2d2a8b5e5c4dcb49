//! In which runs elements have other properties.

ghost use Rattle.std.specs.Prelude.{◌≡◌, ℕ, ◌<◌, ◌≤◌, IfOk, IsTrue, OnOk, cond, nat_eq};
ghost use Rattle.ft_base.specs.Scan.{len};
ghost use Rattle.ft_block.specs.Leaves.{IsFromFloor};
ghost use Rattle.ft_props.specs.Overlay.{after_acked_changes, after_pending_changes, shown_of};
ghost use Rattle.ft_sumdoc.specs.WellFormed.{same_props};
ghost use Rattle.ft_tree_leaves.specs.Elements.{seen_in, with_overlay};
ghost use Rattle.ft_tree_leaves.specs.LeafLists.{elements};
ghost use Rattle.ft_changes.specs.PlacedRuns.{with_changed_behind};
ghost use Rattle.ft_changes.specs.ShownRuns.{changed_runs};
ghost use Rattle.ft_tree_changes.specs.Fronts.{IsFront};
ghost use Rattle.ft_tree_changes.specs.ShownOverlays.{annotated, shown_of_element};

use crate::fronts::{Front, counts_of, front_of, part_within};
use ft_base::{Datum, OutOfMemory};
use ft_block::LenView;
use ft_changes::StyledRun;
use ft_changes::runs::push_styled;
use ft_marks::same_props;
use ft_props::{Changes, Overlay, Props};
use ft_tree::{Content, Tree};

/// Changes of properties.
#[derive(Clone, Copy)]
pub(crate) enum Annotation<'a> {
    /// Of the acknowledged ones, below the pending changes.
    Acked(&'a Changes),
    /// On top of the pending changes.
    Pending(&'a Changes),
}

/// The maximal runs of elements that `shown` sees among those that `view` sees from the `p`-th, counted from 0, up to
/// before the `q`-th to which changes of the acknowledged properties give others than are shown now, equal ones in a run.
///
/// It goes down to the first of them, and from there over the leaves up to the last one, and works out once for each leaf
/// what is shown of it then. Returns `OutOfMemory` where there is no room for that and for the runs.
pub fn changed_runs<C: Content>(
    tree: &Tree<C>,
    p: u64,
    q: u64,
    view: LenView,
    shown: LenView,
    changes: &Changes,
) -> Result<Vec<StyledRun>, OutOfMemory>
    requires usable { IsTrue tree.now.usable }
    requires floor { IsFromFloor tree.now.floor view }
    requires shown_floor { IsFromFloor tree.now.floor shown }
    requires order { p ≤ q }
    requires within { q ≤ len (seen_in view) (elements C.units C.by tree.now.leaves) }
    ensures { let change = with_overlay (after_acked_changes changes.now) in
        let all = elements C.units C.by tree.now.leaves in
        IfOk result (λ runs. runs.items ≡ changed_runs same_props shown_of_element change (seen_in view) (seen_in shown) p q all) }
{
    annotated_runs(tree, p, q, view, shown, Annotation::Acked(changes))
}

/// The same of changes of a pending stage, on top of those that are pending.
pub fn changed_runs_at_stage<C: Content>(
    tree: &Tree<C>,
    p: u64,
    q: u64,
    view: LenView,
    shown: LenView,
    changes: &Changes,
) -> Result<Vec<StyledRun>, OutOfMemory>
    requires usable { IsTrue tree.now.usable }
    requires floor { IsFromFloor tree.now.floor view }
    requires shown_floor { IsFromFloor tree.now.floor shown }
    requires order { p ≤ q }
    requires within { q ≤ len (seen_in view) (elements C.units C.by tree.now.leaves) }

    // Whichever stage it is.
    ensures { let change = λ (stage : ℕ). with_overlay (after_pending_changes stage changes.now) in
        let all = elements C.units C.by tree.now.leaves in
        IfOk result (λ runs. (stage : ℕ) → runs.items
        ≡ changed_runs same_props shown_of_element (change stage) (seen_in view) (seen_in shown) p q all) }
{
    annotated_runs(tree, p, q, view, shown, Annotation::Pending(changes))
}

// The runs of either.
fn annotated_runs<C: Content>(
    tree: &Tree<C>,
    p: u64,
    q: u64,
    view: LenView,
    shown: LenView,
    annotation: Annotation<'_>,
) -> Result<Vec<StyledRun>, OutOfMemory>
    requires usable { IsTrue tree.now.usable }
    requires floor { IsFromFloor tree.now.floor view }
    requires shown_floor { IsFromFloor tree.now.floor shown }
    requires order { p ≤ q }
    requires within { q ≤ len (seen_in view) (elements C.units C.by tree.now.leaves) }
    ensures { let all = elements C.units C.by tree.now.leaves in
        let change = with_overlay (annotated annotation.entry) in
        IfOk result (λ runs. runs.items ≡ changed_runs same_props shown_of_element change (seen_in view) (seen_in shown) p q all) }
{
    if p == q {
        return Ok(Vec::new(tree.allocator()));
    }
    let front = front_of(tree, p, view, shown);
    annotated_behind(tree, front, p, q, view, shown, annotation)
}

// The same, where the walk begins at this leaf.
fn annotated_behind<C: Content>(
    tree: &Tree<C>,
    front: Front,
    p: u64,
    q: u64,
    view: LenView,
    shown: LenView,
    annotation: Annotation<'_>,
) -> Result<Vec<StyledRun>, OutOfMemory>
    requires usable { IsTrue tree.now.usable }
    requires front { IsFront C.units C.by tree.now.leaves view shown p front }
    requires order { p < q }
    ensures { let all = elements C.units C.by tree.now.leaves in
        let change = with_overlay (annotated annotation.entry) in
        IfOk result (λ runs. runs.items ≡ changed_runs same_props shown_of_element change (seen_in view) (seen_in shown) p q all) }
{
    // What holds of the leaves at any time is read off its contract.
    let _first = tree.first_leaf();
    let mut runs = Vec::new(tree.allocator());
    let mut place = front.seen;
    let mut before = front.shown;
    let mut next = Some(front.leaf);
    while let Some(id) = next {
        if q <= place {
            return Ok(runs);
        }
        let counts = counts_of(tree, id, view, shown);
        let part = part_within(place, counts.both, p, q);
        let overlay = tree.leaf_overlay(id);
        push_annotated(
            &mut runs,
            before + part.before,
            part.count,
            overlay,
            annotation,
        )?;
        before += counts.shown;
        place += counts.seen;
        next = tree.next_leaf(id);
    }
    Ok(runs)
}

// Adds `count` elements with these properties from `place` on, if there are any and others are shown of them then.
fn push_annotated(
    runs: &mut Vec<StyledRun>,
    place: u64,
    count: u64,
    overlay: &Overlay,
    annotation: Annotation<'_>,
) -> Result<(), OutOfMemory>
    ensures { let now = shown_of overlay.now in
        let then = shown_of (annotated annotation.entry overlay.now) in
        let runs_then = with_changed_behind same_props runs.old.items place count then in
        OnOk result (runs.new.items ≡ cond (nat_eq count 0) runs.old.items (cond (same_props now then) runs.old.items runs_then)) }
{
    if count == 0 {
        return Ok(());
    }
    let then = shown_then(overlay, annotation)?;
    if same_props(overlay.shown_props(), &then) {
        return Ok(());
    }
    push_styled(runs, place, count, then)
}

// What is shown with the changes.
fn shown_then(overlay: &Overlay, annotation: Annotation<'_>) -> Result<Props, OutOfMemory>
    ensures { IfOk result (λ props. props ≡ shown_of (annotated annotation.entry overlay.now)) }
{
    match annotation {
        Annotation::Acked(changes) => shown_above(overlay, changes),
        Annotation::Pending(changes) => overlay.shown_props().changed(changes),
    }
}

// What is shown with changes of the acknowledged properties, which the pending changes are made on top of.
fn shown_above(overlay: &Overlay, changes: &Changes) -> Result<Props, OutOfMemory>
    ensures { IfOk result (λ props. props ≡ shown_of (after_acked_changes changes.now overlay.now)) }
{
    if !overlay.has_pending() {
        return overlay.acked().changed(changes);
    }
    let mut changed = overlay.copy()?;
    changed.set_acked(changes)?;
    changed.shown()
}
