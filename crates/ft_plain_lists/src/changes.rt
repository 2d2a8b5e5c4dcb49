//! What a change of a list makes of the elements that are shown of it: where they go in, in which runs they go away, and in
//! which they have other properties. It is read off before the list changes.

ghost use Rattle.std.specs.Prelude.{◌≡◌, ◌-◌, IfOk, OnOk, cond, not};
ghost use Rattle.ft_props.specs.Element.{is_pending, seen, seen_by, with_annotation, with_pending_annotation};
ghost use Rattle.ft_sumdoc.specs.WellFormed.{same_props};
ghost use Rattle.ft_changes.specs.PlacedRuns.{with_changed_behind};
ghost use Rattle.ft_changes.specs.Shown.{shown_properties};
ghost use Rattle.ft_changes.specs.ShownRuns.{changed_runs, gone_runs, place_of_insertion};

use crate::copies::Copied;
use crate::element_tests::{AtStage, Before, ElementTest, Pending};
use crate::elements::PlainElement;
use crate::elements::marks::{ElementMark, PendingChanges};
use crate::lists::PlainList;
use ft_base::{OutOfMemory, Perspective};
use ft_changes::runs::{push_styled, push_taken};
use ft_changes::{StyledRun, TakenRun};
use ft_marks::same_props;
use ft_props::Changes;
use std::alloc::Global;

impl PlainList {
    /// How many elements that are shown at the last stage stand before those that the perspective puts in directly
    /// after the `p`-th element that it sees, which go in past the run of pending elements there.
    ///
    /// It goes over the elements up to there.
    pub fn place_of_insertion(&self, p: u64, at: Perspective, last: u64) -> u64
        ensures { result ≡ place_of_insertion (seen_by at.r at.c) is_pending (seen last) p self.now.items }
    {
        place_of_insertion(self.as_slice(), p, at, Pending, AtStage(last))
    }

    /// The maximal runs of elements shown at the last stage among those that are seen from the `p`-th up to before the
    /// `q`-th.
    ///
    /// It goes over all elements.
    pub fn gone_runs<S: ElementTest>(
        &self,
        p: u64,
        q: u64,
        view: S,
        last: u64,
    ) -> Result<Vec<TakenRun>, OutOfMemory>
        ensures { IfOk result (λ runs. runs.items ≡ gone_runs (S.test view) (seen last) p q self.now.items) }
    {
        gone_runs(self.alloc(), self.as_slice(), p, q, view, AtStage(last))
    }

    /// The maximal runs of elements shown at the last stage among those that the perspective sees from the `p`-th up to
    /// before the `q`-th to which the changes give other properties than are shown now, equal ones in a run.
    ///
    /// It goes over all elements, and works out the properties of each that changes twice.
    pub fn changed_runs(
        &self,
        p: u64,
        q: u64,
        at: Perspective,
        changes: &Changes,
        last: u64,
    ) -> Result<Vec<StyledRun>, OutOfMemory>
        ensures { IfOk result (λ runs. runs.items
            ≡ changed_runs same_props shown_properties (with_annotation changes.now) (seen_by at.r at.c) (seen last) p q self.now.items) }
    {
        changed_runs(
            self.alloc(),
            self.as_slice(),
            p,
            q,
            at,
            AtStage(last),
            changes,
        )
    }

    /// The same of pending changes of the stage, which counts by the stage before.
    pub fn changed_runs_at_stage(
        &self,
        stage: u64,
        p: u64,
        q: u64,
        changes: &Changes,
    ) -> Result<Vec<StyledRun>, OutOfMemory>
        ensures { IfOk result (λ runs. runs.items
            ≡ changed_runs same_props shown_properties (with_pending_annotation stage changes.now) (seen (stage - 1)) (seen stage) p q self.now.items) }
    {
        let changes = PendingChanges { stage, changes };
        let items = self.as_slice();
        changed_runs(
            self.alloc(),
            items,
            p,
            q,
            Before(stage),
            AtStage(stage),
            &changes,
        )
    }
}

// How many shown elements stand before what goes in after the `p`-th seen one and past the run there that passes.
fn place_of_insertion<S: ElementTest, P: ElementTest, T: ElementTest>(
    items: &[PlainElement],
    p: u64,
    seen: S,
    past: P,
    shown: T,
) -> u64
    ensures { result ≡ place_of_insertion (S.test seen) (P.test past) (T.test shown) p items.now }
{
    let mut left = p;
    let mut count: u64 = 0;
    for e in items {
        if left == 0 {
            if !past.passes(e) {
                return count;
            }
        } else if seen.passes(e) {
            left -= 1;
        }
        if shown.passes(e) {
            count += 1;
        }
    }
    count
}

// The maximal runs of shown elements among the seen ones from the `p`-th up to before the `q`-th.
fn gone_runs<S: ElementTest, T: ElementTest>(
    alloc: Global,
    items: &[PlainElement],
    p: u64,
    q: u64,
    seen: S,
    shown: T,
) -> Result<Vec<TakenRun>, OutOfMemory>
    ensures { IfOk result (λ runs. runs.items ≡ gone_runs (S.test seen) (T.test shown) p q items.now) }
{
    let mut runs = Vec::new(alloc);
    let mut place: u64 = 0;
    let mut left: u64 = 0;
    for e in items {
        let is_seen = seen.passes(e);
        if shown.passes(e) {
            if is_seen && p <= place && place < q {
                push_taken(&mut runs, left, 1)?;
            } else {
                left += 1;
            }
        }
        if is_seen {
            place += 1;
        }
    }
    Ok(runs)
}

// The maximal runs of shown elements among the seen ones from the `p`-th up to before the `q`-th to which the mark gives
// other properties.
fn changed_runs<S: ElementTest, T: ElementTest, M: ElementMark>(
    alloc: Global,
    items: &[PlainElement],
    p: u64,
    q: u64,
    seen: S,
    shown: T,
    mark: &M,
) -> Result<Vec<StyledRun>, OutOfMemory>
    ensures { IfOk result (λ runs. runs.items ≡ changed_runs same_props shown_properties (M.marked mark.now) (S.test seen) (T.test shown) p q items.now) }
{
    let mut runs = Vec::new(alloc);
    let mut place: u64 = 0;
    let mut count: u64 = 0;
    for e in items {
        let is_seen = seen.passes(e);
        if shown.passes(e) {
            if is_seen && p <= place && place < q {
                push_changed(&mut runs, count, e, mark)?;
            }
            count += 1;
        }
        if is_seen {
            place += 1;
        }
    }
    Ok(runs)
}

// Adds the element at the place among the shown ones, if the mark gives it other properties.
fn push_changed<M: ElementMark>(
    runs: &mut Vec<StyledRun>,
    place: u64,
    e: &PlainElement,
    mark: &M,
) -> Result<(), OutOfMemory>
    ensures { OnOk result (runs.new.items ≡ cond (not (same_props (shown_properties e.now) (shown_properties (M.marked mark.now e.now))))
        (with_changed_behind same_props runs.old.items place 1 (shown_properties (M.marked mark.now e.now))) runs.old.items) }
{
    let before = e.shown_props()?;
    let mut marked = e.copied()?;
    mark.put_on(&mut marked)?;
    let after = marked.shown_props()?;
    if same_props(&before, &after) {
        return Ok(());
    }
    push_styled(runs, place, 1, after)
}
