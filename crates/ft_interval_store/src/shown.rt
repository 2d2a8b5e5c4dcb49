//! What is shown of one interval: whether it is there, and its ends as elements on leaves.

ghost use Rattle.std.specs.Prelude.{◌≡◌, ◌≤◌, ℕ, Option, IfSome, IsTrue, is_some, option_map};
ghost use Rattle.ft_tree_leaves.specs.declared.text.TextContent.{TextContent};
ghost use Rattle.ft_tree.specs.State.{TreeState};
ghost use Rattle.ft_interval_store.specs.declared.intervals.EndPair.{EndPair};
ghost use Rattle.ft_interval_store.specs.declared.intervals.Interval.{Interval};
ghost use Rattle.ft_interval_store.specs.Ends.{AreLiveEnds, map_ends, places_of_ends};
ghost use Rattle.ft_interval_store.specs.Intervals.{after_own, interval_of, one_after, there_after, told_there};
ghost use Rattle.ft_interval_store.specs.Shown.{carried_interval, is_there, last, settled_end, settled_interval, shown_intervals};
ghost use Rattle.ft_interval_store.specs.Standing.{AreOnTree, ShowsEnds, StandAt};
ghost use Rattle.ft_interval_store.specs.State.{AreLiveIntervals, AreLiveOperations, StagesRise, placed_intervals, placed_operations, text_elements, with_mapped_ends};

use crate::intervals::{EndPair, Intervals};
use crate::pending::{Operation, is_on};
use crate::standing::{carried, settled};
use ft_base::Text;
use ft_op::TextOp;
use ft_refs::{Place, RefId};
use ft_tree::{TextContent, Tree};
use std::collections::VecDeque;

// What an operation makes of the interval that it is on, where this has these ends if it is there, and the operation has
// those.
fn after_own(
    op: &TextOp,
    own: EndPair<Place>,
    shown: Option<EndPair<Place>>,
) -> Option<EndPair<Place>>
    ensures { (tree : TreeState TextContent) → (k : ℕ) → (ends : EndPair ℕ) → (i : Option (Interval ℕ))
        → StandAt tree k ends own → ShowsEnds tree k i shown → ShowsEnds tree k (after_own op.now ends i) result }
{
    match op {
        TextOp::IntervalAdd { .. } => Some(shown.unwrap_or(own)),
        TextOp::IntervalChange { ends: Some(_), .. } => {
            shown?;
            Some(own)
        }
        TextOp::IntervalChange { ends: None, .. } | TextOp::One(_) | TextOp::Group(_) => shown,
        TextOp::IntervalDelete { .. } => None,
    }
}

// The ends at stage `to` of an interval that is there or not, where those at stage `from` are given.
fn carried_shown(
    tree: &Tree<TextContent>,
    shown: Option<EndPair<Place>>,
    from: u64,
    to: u64,
) -> Option<EndPair<Place>>
    requires usable { IsTrue tree.now.usable }
    requires on_leaf { IfSome shown (AreOnTree tree.now) }
    requires rises { from ≤ to }
    ensures { let xs = text_elements tree.now in
        (i : Option (Interval ℕ)) → ShowsEnds tree.now from i shown → ShowsEnds tree.now to (option_map (carried_interval xs from to) i) result }
{
    Some(carried(tree, shown?, from, to))
}

// What an operation makes at its stage of the interval of that label and id, which has these ends at stage `from` if it is
// there.
fn shown_after(
    tree: &Tree<TextContent>,
    t: &Operation,
    label: &Text,
    id: &Text,
    shown: Option<EndPair<Place>>,
    from: u64,
) -> Option<EndPair<Place>>
    requires usable { IsTrue tree.now.usable }
    requires live { AreLiveEnds tree.now.refs t.now.ends }
    requires on_leaf { IfSome shown (AreOnTree tree.now) }
    requires rises { from ≤ t.now.stage }
    ensures fits { t.now.stage ≤ last }
    ensures shown { let xs = text_elements tree.now in
        let ends = map_ends (settled_end xs t.now.stage) (places_of_ends tree.now.refs t.now.ends) in
        (i : Option (Interval ℕ)) → ShowsEnds tree.now from i shown
        → ShowsEnds tree.now t.now.stage (one_after (label.now, id.now) t.now.op ends (option_map (carried_interval xs from t.now.stage) i)) result }
{
    let before = carried_shown(tree, shown, from, t.stage);
    if !is_on(label, id, &t.op) {
        return before;
    }
    after_own(&t.op, settled(tree, t.ends, t.stage), before)
}

// The ends at stage 0 of the acknowledged interval of that label and id, if it is there.
fn first_shown(
    tree: &Tree<TextContent>,
    acked: &Intervals<RefId>,
    label: &Text,
    id: &Text,
) -> Option<EndPair<Place>>
    requires usable { IsTrue tree.now.usable }
    requires live { AreLiveIntervals tree.now.refs acked.now }
    ensures { let xs = text_elements tree.now in
        let i = option_map (with_mapped_ends (places_of_ends tree.now.refs)) (interval_of (label.now, id.now) acked.now) in
        ShowsEnds tree.now 0 (option_map (settled_interval xs 0) i) result }
{
    let i = acked.get(label, id)?;
    Some(settled(tree, i.ends, 0))
}

/// The ends at the last stage of the interval of that label and id: None exactly where the view has none.
pub fn shown_ends(
    tree: &Tree<TextContent>,
    acked: &Intervals<RefId>,
    pending: &VecDeque<Operation>,
    label: &Text,
    id: &Text,
) -> Option<EndPair<Place>>
    requires usable { IsTrue tree.now.usable }
    requires acked { AreLiveIntervals tree.now.refs acked.now }
    requires pending { AreLiveOperations tree.now.refs pending.now.items }
    requires rising { StagesRise 0 pending.now.items }
    ensures { let xs = text_elements tree.now in
        let is = placed_intervals tree.now.refs acked.now in
        let ts = placed_operations tree.now.refs pending.now.items in
        ShowsEnds tree.now last (interval_of (label.now, id.now) (shown_intervals xs is ts)) result }
{
    // That names rise is read off its contract.
    let _all = acked.pages();
    let mut shown = first_shown(tree, acked, label, id);
    let mut stage = 0;
    let mut i = 0;
    'next: while i < pending.len() {
        let t = &pending[i];
        shown = shown_after(tree, t, label, id, shown, stage);
        stage = t.stage;
        i += 1;
    }
    carried_shown(tree, shown, stage, u64::MAX)
}

// What an operation says of whether the interval of that label and id is there: None where it says nothing of it.
fn told_there(op: &TextOp, label: &Text, id: &Text) -> Option<bool>
    ensures { result ≡ told_there (label.now, id.now) op.now }
{
    if !is_on(label, id, op) {
        return None;
    }
    there_after(op)
}

// The same of the interval that the operation is on.
fn there_after(op: &TextOp) -> Option<bool>
    ensures { result ≡ there_after op.now }
{
    match op {
        TextOp::IntervalAdd { .. } => Some(true),
        TextOp::IntervalDelete { .. } => Some(false),
        TextOp::IntervalChange { .. } | TextOp::One(_) | TextOp::Group(_) => None,
    }
}

/// Whether the interval of that label and id is acknowledged.
pub fn is_acked(acked: &Intervals<RefId>, label: &Text, id: &Text) -> bool
    ensures { result ≡ is_some (interval_of (label.now, id.now) acked.now) }
{
    match acked.get(label, id) {
        Some(_) => true,
        None => false,
    }
}

/// Whether the interval of that label and id is there behind the pending operations, where it is acknowledged or not: the
/// last of them that adds or deletes it decides. It looks at no end, and at no element.
pub fn is_there(pending: &VecDeque<Operation>, label: &Text, id: &Text, acked: bool) -> bool
    ensures { result ≡ is_there (label.now, id.now) pending.now.items acked }
{
    let mut i = pending.len();
    'back: while i > 0 {
        i -= 1;
        if let Some(there) = told_there(&pending[i].op, label, id) {
            return there;
        }
    }
    acked
}
