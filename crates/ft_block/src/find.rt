//! How a place in a view is found: down from the root, past the children that it lies behind.

ghost use Rattle.std.specs.Prelude.{◌≡◌, ℕ, ◌+◌, ◌*◌, ◌<◌, ◌≤◌, Some, None, IsSome, IfOk, IfErr};
ghost use Rattle.ft_arena.specs.Forest.{entry, kids_of};
ghost use Rattle.ft_arena.specs.Ids.{times};
ghost use Rattle.ft_shape.specs.Tree.{IsTree, SumsBut, height_of, length_of, length_of_node, seek, total};
ghost use Rattle.ft_block.specs.Tree.{AreFromFloor, IsNodeFrom, KeepsLengths, by_view};

use crate::leaves::{Leaf, View, shown_length};
use crate::summaries::Summary;
use ft_arena::{Arena, Kids, Node, NodeId};
use ft_base::Steps;
use ft_shape::Headed;
use std::sync::ledger::Ledger;

// The length of a node in a view.
pub(crate) fn length_at<L: Leaf>(node: &Node<L, Headed<Summary>>, _floor: u64, view: View) -> u64
    requires kept { KeepsLengths _floor view }
    requires node { IsNodeFrom _floor node.now }
    ensures { result ≡ length_of_node (by_view L.size L.element view) node.now }
{
    match node {
        Node::Leaf { value } => shown_length(value, view),
        Node::Block { value, .. } => value.sum.kept(view),
    }
}

// A child, how many of its elements stand up to a place, and how many it has in the view.
#[derive(Clone, Copy)]
struct Stretch {
    child: NodeId,
    inside: u64,
    length: u64,
}

// The child in whose stretch the place lies; or how long all children are. It goes over them from the first one on.
fn child_from_front<L: Leaf, G: Ledger>(
    arena: &Arena<L, Headed<Summary>>,
    kids: &Kids,
    floor: u64,
    view: View,
    p: u64,
    steps: &mut Steps<G>,
) -> Result<Stretch, u64>
    requires kept { KeepsLengths floor view }
    requires floors { AreFromFloor floor arena.now }
    requires live { (id : ℕ) → 1 ≤ times kids.now id → IsSome (entry arena.now id) }
    requires low { 1 ≤ p }
    ensures found { IfOk result (λ f. seek (length_of (by_view L.size L.element view) arena.now) kids.now p ≡ Some (f.child, f.inside)) }
    ensures length { IfOk result (λ f. f.length ≡ length_of (by_view L.size L.element view) arena.now f.child) }
    ensures past { IfErr result (λ n. n ≡ total (length_of (by_view L.size L.element view) arena.now) kids.now) }
    ensures beyond { IfErr result (λ n. n < p) }
    ensures cost { steps.new ≤ steps.old + 8 }
{
    // That they are at most eight is read off its contract.
    let _few = kids.len();
    let mut rest = p;
    let mut i = 0;
    while let Some(kid) = kids.get(i) {
        let length = length_at(arena.read(kid, steps), floor, view);
        if rest <= length {
            return Ok(Stretch {
                child: kid,
                inside: rest,
                length,
            });
        }
        rest -= length;
        i += 1;
    }
    Err(p - rest)
}

// The child in whose stretch the place lies, where all children are long enough. It goes over them from the last one
// back.
fn child_from_back<L: Leaf, G: Ledger>(
    arena: &Arena<L, Headed<Summary>>,
    kids: &Kids,
    floor: u64,
    view: View,
    all: u64,
    p: u64,
    steps: &mut Steps<G>,
) -> Stretch
    requires kept { KeepsLengths floor view }
    requires floors { AreFromFloor floor arena.now }
    requires live { (id : ℕ) → 1 ≤ times kids.now id → IsSome (entry arena.now id) }
    requires all { all ≡ total (length_of (by_view L.size L.element view) arena.now) kids.now }
    requires low { 1 ≤ p }
    requires high { p ≤ all }
    ensures found { seek (length_of (by_view L.size L.element view) arena.now) kids.now p ≡ Some (result.child, result.inside) }
    ensures length { result.length ≡ length_of (by_view L.size L.element view) arena.now result.child }
    ensures cost { steps.new ≤ steps.old + 8 }
{
    let mut behind = all - p;
    let mut i = kids.len();
    'back: while i > 0 {
        i -= 1;
        let Some(kid) = kids.get(i) else {
            unreachable!();
        };
        let length = length_at(arena.read(kid, steps), floor, view);
        if behind < length {
            return Stretch {
                child: kid,
                inside: length - behind,
                length,
            };
        }
        behind -= length;
    }
    unreachable!()
}

// The child of a block in whose stretch the place lies; or how long all children are, which is given. It goes over them
// from the nearer end.
fn child_at<L: Leaf, G: Ledger>(
    arena: &Arena<L, Headed<Summary>>,
    _block: NodeId,
    kids: &Kids,
    floor: u64,
    view: View,
    all: u64,
    p: u64,
    steps: &mut Steps<G>,
) -> Result<Stretch, u64>
    requires kept { KeepsLengths floor view }
    requires floors { AreFromFloor floor arena.now }
    requires live { (id : ℕ) → 1 ≤ times kids.now id → IsSome (entry arena.now id) }
    requires block { kids_of arena.now _block ≡ kids.now }
    requires all { all ≡ total (length_of (by_view L.size L.element view) arena.now) kids.now }
    requires low { 1 ≤ p }
    ensures found { IfOk result (λ f. seek (length_of (by_view L.size L.element view) arena.now) kids.now p ≡ Some (f.child, f.inside)) }
    ensures length { IfOk result (λ f. f.length ≡ length_of (by_view L.size L.element view) arena.now f.child) }
    ensures past { IfErr result (λ n. n ≡ total (length_of (by_view L.size L.element view) arena.now) kids.now) }
    ensures beyond { IfErr result (λ n. n < p) }
    ensures cost { steps.new ≤ steps.old + 8 }
{
    if all < p {
        return Err(all);
    }
    if p <= all / 2 {
        return child_from_front(arena, kids, floor, view, p, steps);
    }
    Ok(child_from_back(arena, kids, floor, view, all, p, steps))
}

// The leaf in whose stretch the place lies, and how far in; or how long all leaves are.
pub(crate) fn find_from<L: Leaf, G: Ledger>(
    arena: &Arena<L, Headed<Summary>>,
    root: NodeId,
    floor: u64,
    view: View,
    p: u64,
    steps: &mut Steps<G>,
) -> Result<(NodeId, u64), u64>
    requires tree { IsTree arena.now root }
    requires kept { KeepsLengths floor view }
    requires floors { AreFromFloor floor arena.now }
    requires sums { SumsBut (by_view L.size L.element view) arena.now None }
    requires low { 1 ≤ p }
    ensures found { IfOk result (λ f. seek (length_of (by_view L.size L.element view) arena.now) arena.now.leaves p ≡ Some (f.0, f.1)) }
    ensures past { IfErr result (λ n. n ≡ total (length_of (by_view L.size L.element view) arena.now) arena.now.leaves) }
    ensures beyond { IfErr result (λ n. n < p) }
    ensures cost { steps.new ≤ steps.old + 9 * height_of arena.now root }
{
    let mut at = root;
    let mut rest = p;
    let mut node = arena.read(root, steps);
    let mut all = length_at(node, floor, view);
    'levels: loop {
        let Node::Block { kids, value } = node else {
            unreachable!();
        };
        let found = child_at(arena, at, kids, floor, view, all, rest, steps)?;
        if value.height == 1 {
            return Ok((found.child, found.inside));
        }
        at = found.child;
        rest = found.inside;
        node = arena.read(at, steps);
        all = found.length;
    }
}
