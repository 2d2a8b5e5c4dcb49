//! How the items that meet a range are found: down from the root, past blocks whose items all end
//! before it, until one starts behind it.

ghost use Rattle.std.specs.Prelude.{ℕ, ◌+◌, IsSome, IfOk, length, [], ◌∷◌};
ghost use Rattle.ft_arena.specs.Forest.{entry};
ghost use Rattle.ft_shape.specs.Tree.{IsTree, height_of};
ghost use Rattle.ft_overlap.specs.Items.{IsRising, AreKnown, keys_within};
ghost use Rattle.ft_overlap.specs.Inside.{AreNamed, AreGreatest, items_below};
ghost use Rattle.ft_overlap.specs.Search.{Collects, IsCheap};

use crate::items::{Item, Places, Span};
use ft_arena::{Arena, Node, NodeId};
use ft_base::{OutOfMemory, Steps};
use ft_shape::Headed;
use std::sync::ledger::Ledger;

// A range of places.
#[derive(Clone, Copy)]
pub(crate) struct Range {
    pub(crate) low: i64,
    pub(crate) high: i64,
}

// Takes the item's key if it meets the range. Tells whether an item behind it may.
fn collect_item<P: Places>(
    item: &Item,
    range: &Range,
    at: &P,
    found: &mut Vec<u64>,
) -> Result<bool, OutOfMemory>
    requires start { P.Knows at.now item.now.start }
    requires end { P.Knows at.now item.now.end }
    ensures { IfOk result (λ more. (steps : ℕ) → Collects (P.end_place at.now) range.now.low range.now.high (item.now ∷ []) 0 found.old.items found.new.items steps (steps + 1) more) }
{
    if at.place(item.start) > range.high {
        return Ok(false);
    }
    if at.place(item.end) >= range.low {
        found.push(item.key)?;
    }
    Ok(true)
}

// Takes the keys of the items below the node that meet the range. Tells whether an item behind them may.
pub(crate) fn collect<P: Places, G: Ledger>(
    arena: &Arena<Item, Headed<Span>>,
    _root: NodeId,
    node: NodeId,
    range: &Range,
    at: &P,
    found: &mut Vec<u64>,
    steps: &mut Steps<G>,
) -> Result<bool, OutOfMemory>
    requires tree { IsTree arena.now _root }
    requires live { IsSome (entry arena.now node) }
    requires known { AreKnown (P.Knows at.now) (items_below arena.now node) }
    requires rising { IsRising (P.end_place at.now) (items_below arena.now node) }
    requires named { AreNamed arena.now }
    requires greatest { AreGreatest (P.end_place at.now) arena.now }
    ensures found { IfOk result (λ more. Collects (P.end_place at.now) range.now.low range.now.high (items_below arena.now node) (height_of arena.now node) found.old.items found.new.items steps.old steps.new more) }
    ensures cheap { IsCheap (height_of arena.now node) (length (keys_within (P.end_place at.now) range.now.low range.now.high (items_below arena.now node))) steps.old steps.new }
{
    match arena.read(node, steps) {
        Node::Leaf { value } => collect_item(value, range, at, found),
        Node::Block { kids, value } => {
            if at.place(value.sum.last.end) < range.low {
                return Ok(true);
            }
            // That they are at most eight is read off its contract.
            let _few = kids.len();
            let mut i = 0;
            while let Some(kid) = kids.get(i) {
                if !collect(arena, _root, kid, range, at, found, steps)? {
                    return Ok(false);
                }
                i += 1;
            }
            Ok(true)
        }
    }
}
