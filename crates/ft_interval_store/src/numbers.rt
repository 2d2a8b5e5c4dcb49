//! The ends of an operation as numbers among the elements that a stage sees.

ghost use Rattle.std.specs.Prelude.{◌≡◌, ◌<◌, ℕ, List, IsTrue, IfOk, IfSome, OnErr, OnOk, false, option_and_then};
ghost use Rattle.ft_base.specs.Scan.{len};
ghost use Rattle.ft_block.specs.Leaves.{IsFromFloor};
ghost use Rattle.ft_tree_leaves.specs.Elements.{TreeElement, seen_in};
ghost use Rattle.ft_tree_leaves.specs.Places.{place_at};
ghost use Rattle.ft_props.specs.Element.{ElementContent};
ghost use Rattle.ft_interval_store.specs.declared.intervals.EndPair.{EndPair};
ghost use Rattle.ft_interval_store.specs.Ends.{AreAddedEnds, AreLiveEnds, IsAddedEnd, IsLiveEnd, map_ends, place_of_end, places_of_ends};
ghost use Rattle.ft_interval_store.specs.Numbers.{AreNumbers, IsNumber, number_or_none};
ghost use Rattle.ft_interval_store.specs.Shown.{numbers_at, regenerated, settled_end};
ghost use Rattle.ft_interval_store.specs.State.{text_elements};

use crate::intervals::EndPair;
use ft_base::{Datum, OutOfMemory};
use ft_block::LenView;
use ft_op::{Ends, TextOp};
use ft_refs::RefId;
use ft_tree::{TextContent, Tree, TreeFault};

// The number at the stage of the element at the end, as it is settled there.
fn settled_number(tree: &Tree<TextContent>, end: Option<RefId>, stage: u64) -> Option<u64>
    requires usable { IsTrue tree.now.usable }
    requires live { IsLiveEnd tree.now.refs end }
    ensures { let xs = text_elements tree.now in
        IsNumber xs stage (settled_end xs stage (place_of_end tree.now.refs end)) result }
{
    tree.ref_place(end?, stage)
}

/// The same of both ends.
pub fn settled_numbers(tree: &Tree<TextContent>, ends: EndPair<RefId>, stage: u64) -> EndPair<u64>
    requires usable { IsTrue tree.now.usable }
    requires live { AreLiveEnds tree.now.refs ends }
    ensures { let xs = text_elements tree.now in
        AreNumbers xs stage (map_ends (settled_end xs stage) (places_of_ends tree.now.refs ends)) result }
{
    EndPair {
        start: settled_number(tree, ends.start, stage),
        end: settled_number(tree, ends.end, stage),
    }
}

/// A number of an end, -1 where it is detached. No list is so long that its numbers don't fit.
pub fn number(number: Option<u64>) -> i64
    ensures { result ≡ number_or_none number }
{
    match number {
        Some(p) => i64::try_from(p).unwrap_or(i64::MAX),
        None => -1,
    }
}

/// The ends as an operation has them.
pub fn ends_of_numbers(numbers: EndPair<u64>) -> Ends
    ensures { result ≡ record { start = number_or_none numbers.start; end = number_or_none numbers.end } }
{
    Ends {
        start: number(numbers.start),
        end: number(numbers.end),
    }
}

// The operation with these ends, if it gives some.
fn with_ends(op: TextOp, ends: Ends) -> TextOp
    ensures { (xs : List (TreeElement ElementContent)) → (k : ℕ) → (now : EndPair ℕ) → ends ≡ numbers_at xs k now
        → result ≡ regenerated xs k now op }
{
    match op {
        TextOp::IntervalAdd {
            label,
            id,
            props,
            ..
        } => TextOp::IntervalAdd {
            label,
            id,
            ends,
            props,
        },
        TextOp::IntervalChange {
            label,
            id,
            ends: given,
            props,
        } => TextOp::IntervalChange {
            label,
            id,
            ends: given.and(Some(ends)),
            props,
        },
        TextOp::IntervalDelete { .. } | TextOp::One(_) | TextOp::Group(_) => op,
    }
}

/// The operation with these numbers as its ends, if it gives some.
pub fn with_numbers(op: &TextOp, numbers: EndPair<u64>) -> Result<TextOp, OutOfMemory>
    ensures { (xs : List (TreeElement ElementContent)) → (k : ℕ) → (ends : EndPair ℕ) → AreNumbers xs k ends numbers
        → IfOk result (λ again. again ≡ regenerated xs k ends op.now) }
{
    let ends = ends_of_numbers(numbers);
    let again = op.copy()?;
    Ok(with_ends(again, ends))
}

/// Puts pending references on the elements that the stage sees at these numbers.
///
/// Returns `OutOfMemory` where there is no room for them, and then the tree may be used no more.
pub fn add_numbers(
    tree: &mut Tree<TextContent>,
    numbers: &EndPair<u64>,
    stage: u64,
) -> Result<EndPair<RefId>, OutOfMemory>
    requires usable { IsTrue tree.old.usable }
    requires there { (ends : EndPair ℕ) × AreNumbers (text_elements tree.old) stage ends numbers.now }
    ensures ends { (ends : EndPair ℕ) → AreNumbers (text_elements tree.old) stage ends numbers.now → IfOk result (AreAddedEnds ends tree.old.refs tree.new.refs) }
    ensures rest { OnOk result (tree.new ≡ record tree.old { refs = tree.new.refs }) }
    ensures err { OnErr result (tree.new.usable ≡ false) }
{
    let view = LenView::Stage(stage);
    Ok(EndPair {
        start: add_number(tree, numbers.start, view)?,
        end: add_number(tree, numbers.end, view)?,
    })
}

/// Puts a pending reference on the element that the view sees at this number, if one is given.
///
/// Returns `OutOfMemory` where there is no room for it, and then the tree may be used no more.
pub(crate) fn add_number(
    tree: &mut Tree<TextContent>,
    number: Option<u64>,
    view: LenView,
) -> Result<Option<RefId>, OutOfMemory>
    requires usable { IsTrue tree.old.usable }
    requires floor { IsFromFloor tree.old.floor view }
    requires there { IfSome number (λ p. p < len (seen_in view) (text_elements tree.old)) }
    ensures end { IfOk result (IsAddedEnd (option_and_then (λ p. place_at (seen_in view) p (text_elements tree.old)) number) tree.old.refs tree.new.refs) }
    ensures rest { OnOk result (tree.new ≡ record tree.old { refs = tree.new.refs }) }
    ensures err { OnErr result (tree.new.usable ≡ false) }
{
    match number {
        None => Ok(None),
        Some(p) => match tree.add_ref(p, view) {
            Ok(r) => Ok(Some(r)),
            Err(TreeFault::OutOfMemory) => Err(OutOfMemory),
            Err(TreeFault::OutOfRange { .. }) => unreachable!(),
        },
    }
}
