//! The arena itself: leaves in one list, and blocks with children, each node under a number.

ghost use Rattle.std.specs.Prelude.{◌≡◌, ◌≢◌, ℕ, ◌+◌, ◌^◌, ◌<◌, ◌≤◌, [], length, Some, None, OnOk, OnErr, IsSome, MatchOption, slice_get};
ghost use Rattle.std.specs.Borrow.{sem};
ghost use Rattle.ft_arena.specs.Forest.{Forest, IsForest, Changes, IsPlace, entry, leaf_value, block_value, parent_of, kids_of, PutsChild, TakesChild};
ghost use Rattle.slab.specs.Slab.{get, ContainsKey, Updates};
ghost use Rattle.ft_arena.specs.Links.{HaveRoom, slots_of, slot_of};
ghost use Rattle.ft_arena.specs.Ids.{put_after, without, first, after};

use crate::links::{Links, lengthen, next_at, put_links, raw, set_next, set_prev, wrap};
use crate::nodes::Node;
use crate::numbers::{Kids, Link, NodeId};
use crate::slots::Slots;
use ft_base::{OutOfMemory, Steps};
use std::alloc::Global;
use std::marker::Model;
use std::mem;
use std::sync::ledger::Ledger;

/// Nodes by number: leaves, which stand in one list, and blocks, which have children. A contract sees
/// the list of leaves from first to last, the node and its parent at each number, and how many nodes
/// may be made before memory is needed again. There are at most `MOST_SLOTS` nodes at a time.
///
/// The links of the nodes stand in a list of their own, under the same numbers, twelve bytes a node. A walk
/// along links then reads nothing of a node.
#[derive(Drop)]
pub struct Arena<L, B> {
    nodes: Slots<Node<L, B>>,
    // at the number of each node its links
    links: Vec<Links>,
    head: Link,
    tail: Link,
    spare: usize,
}

impl<L, B> Model for Arena<L, B> {
    ghost use Rattle.ft_arena.specs.Forest.{Forest};

    ghost Value = { Forest L B };

    ghost use Rattle.ft_arena.specs.Links.{view_of, IsSound};

    ghost view = { view_of };

    ghost invariant = { IsSound };
}

impl<L, B> Arena<L, B> {
    ghost use Rattle.ft_arena.specs.Lends.{lends_leaf, lends_block};

    /// An arena without nodes.
    pub fn new(alloc: Global) -> Arena<L, B>
        ensures leaves { result.leaves ≡ [] }
        ensures nodes { (id : ℕ) → entry result id ≡ None }
        ensures sound { IsForest result }
    {
        Arena {
            nodes: Slots::new(alloc),
            links: Vec::new(alloc),
            head: Link::NONE,
            tail: Link::NONE,
            spare: 0,
        }
    }

    /// Makes room for `n` more nodes.
    ///
    /// Returns `OutOfMemory` where there is no room for them, or where there would be room for more than
    /// `MOST_SLOTS` nodes. Then no room is spare, also none that was, and all else is as it was.
    pub fn reserve(&mut self, n: usize) -> Result<(), OutOfMemory>
        ensures room { OnOk result (n ≤ self.new.spare) }
        ensures spare { OnOk result (self.old.spare ≤ self.new.spare) }
        ensures kept { self.new ≡ record self.old { spare = self.new.spare } }
        ensures err { OnErr result (self.new ≡ record self.old { spare = 0 }) }
    {
        let spare = mem::replace(&mut self.spare, 0);
        self.nodes.reserve(n)?;
        let numbers = self.nodes.capacity();
        self.links
            .reserve(numbers.saturating_sub(self.links.len()))?;
        lengthen(&mut self.links, numbers);
        self.spare = spare.max(n);
        Ok(())
    }

    /// Puts a new leaf directly after the given one, or first where none is given.
    pub fn link_after(&mut self, at: Option<NodeId>, leaf: L) -> NodeId
        requires room { 1 ≤ self.old.spare }
        requires place { IsPlace self.old at }
        ensures leaves { self.new.leaves ≡ put_after self.old.leaves at result }
        ensures changes { Changes self.old self.new result (Some record { node = Node.Leaf leaf; parent = None }) }
        ensures fresh { entry self.old result ≡ None }
        ensures spare { self.old.spare ≡ self.new.spare + 1 }
        ensures sound { IsForest self.new }
    {
        let at = raw(&self.nodes, at);
        let next = next_at(&self.links, self.head, at);
        let links = Links {
            parent: Link::NONE,
            prev: at,
            next,
        };
        let id = insert(
            &mut self.nodes,
            &mut self.links,
            Node::Leaf { value: leaf },
            links,
        );
        self.spare -= 1;
        let here = raw(&self.nodes, Some(NodeId(id)));
        set_next(&mut self.links, &mut self.head, at, here);
        set_prev(&mut self.links, &mut self.tail, next, here);
        NodeId(id)
    }

    /// Takes a leaf that has no parent out, and returns its value.
    pub fn unlink(&mut self, id: NodeId) -> L
        requires live { IsSome (leaf_value self.old id) }
        requires alone { parent_of self.old id ≡ None }
        ensures value { leaf_value self.old id ≡ Some result }
        ensures leaves { self.new.leaves ≡ without self.old.leaves id }
        ensures changes { Changes self.old self.new id None }
        ensures spare { self.new.spare ≡ self.old.spare }
        ensures sound { IsForest self.new }
    {
        let links = self.links[id.0];
        let node = self.nodes.remove(id.0);
        set_next(&mut self.links, &mut self.head, links.prev, links.next);
        set_prev(&mut self.links, &mut self.tail, links.next, links.prev);
        node.into_leaf()
    }

    /// Moves a leaf directly after another, or to the front. Its value and parent stay.
    pub fn move_after(&mut self, id: NodeId, at: Option<NodeId>)
        requires live { IsSome (leaf_value self.old id) }
        requires place { IsPlace self.old at }
        requires differ { at ≢ Some id }
        ensures leaves { self.new.leaves ≡ put_after (without self.old.leaves id) at id }
        ensures nodes { self.new.nodes ≡ self.old.nodes }
        ensures spare { self.new.spare ≡ self.old.spare }
        ensures sound { IsForest self.new }
    {
        let at = raw(&self.nodes, at);
        let id = id.0;
        let here = raw(&self.nodes, Some(NodeId(id)));
        let links = self.links[id];
        let prev = links.prev;
        let next = links.next;
        set_next(&mut self.links, &mut self.head, prev, next);
        set_prev(&mut self.links, &mut self.tail, next, prev);
        let after = next_at(&self.links, self.head, at);
        set_next(&mut self.links, &mut self.head, here, after);
        set_prev(&mut self.links, &mut self.tail, here, at);
        set_next(&mut self.links, &mut self.head, at, here);
        set_prev(&mut self.links, &mut self.tail, after, here);
    }

    /// Takes a block without children and parent out, and returns its value.
    pub fn drop_block(&mut self, id: NodeId) -> B
        requires block { IsSome (block_value self.old id) }
        requires empty { kids_of self.old id ≡ [] }
        requires alone { parent_of self.old id ≡ None }
        ensures value { block_value self.old id ≡ Some result }
        ensures leaves { self.new.leaves ≡ self.old.leaves }
        ensures changes { Changes self.old self.new id None }
        ensures spare { self.new.spare ≡ self.old.spare }
        ensures sound { IsForest self.new }
    {
        let node = self.nodes.remove(id.0);
        node.into_block()
    }

    /// The first leaf: None exactly where there is no leaf.
    pub fn first(&self) -> Option<NodeId>
        ensures value { result ≡ first self.now.leaves }
        ensures sound { IsForest self.now }
        ensures few { length self.now.leaves < 2 ^ 64 }
    {
        // That there are few nodes is read off its contract.
        let _capacity = self.nodes.capacity();
        wrap(self.head)
    }

    /// The leaf after this one: None exactly where it is the last.
    pub fn next(&self, id: NodeId) -> Option<NodeId>
        requires { IsSome (leaf_value self.now id) }
        ensures { result ≡ after self.now.leaves id }
    {
        wrap(self.links[id.0].next)
    }

    /// The leaf before this one: None exactly where it is the first.
    pub fn prev(&self, id: NodeId) -> Option<NodeId>
        requires { IsSome (leaf_value self.now id) }
        ensures { MatchOption result (first self.now.leaves ≡ Some id) (λ p. after self.now.leaves p ≡ Some id) }
    {
        wrap(self.links[id.0].prev)
    }

    /// Makes a block without children and parent.
    pub fn add_block(&mut self, value: B) -> NodeId
        requires { 1 ≤ self.old.spare }
        ensures leaves { self.new.leaves ≡ self.old.leaves }
        ensures changes { Changes self.old self.new result (Some record { node = Node.Block [] value; parent = None }) }
        ensures fresh { entry self.old result ≡ None }
        ensures spare { self.old.spare ≡ self.new.spare + 1 }
        ensures sound { IsForest self.new }
    {
        let node = Node::Block {
            kids: Kids::new(),
            value,
        };
        let id = insert(&mut self.nodes, &mut self.links, node, Links::NONE);
        self.spare -= 1;
        NodeId(id)
    }

    /// Puts a node that has no parent at this place among the block's children.
    pub fn put_child(&mut self, block: NodeId, at: usize, child: NodeId)
        requires block { IsSome (block_value self.old block) }
        requires child { IsSome (entry self.old child) }
        requires at { at ≤ length (kids_of self.old block) }
        requires room { length (kids_of self.old block) < 8 }
        requires alone { parent_of self.old child ≡ None }
        requires differ { child ≢ block }
        ensures leaves { self.new.leaves ≡ self.old.leaves }
        ensures puts { PutsChild self.old self.new block at child }
        ensures spare { self.new.spare ≡ self.old.spare }
        ensures sound { IsForest self.new }
    {
        // That the child's number fits into 32 bits is read off its contract.
        let _capacity = self.nodes.capacity();
        let parent = raw(&self.nodes, Some(block));
        self.nodes[block.0].put_kid(at, child.0);
        self.links[child.0].parent = parent;
    }

    /// Takes the child at this place out of the block's children, after which it has no parent.
    pub fn take_child(&mut self, block: NodeId, at: usize) -> NodeId
        requires { at < length (kids_of self.old block) }
        ensures child { slice_get (kids_of self.old block) at ≡ Some result }
        ensures leaves { self.new.leaves ≡ self.old.leaves }
        ensures takes { TakesChild self.old self.new block at result }
        ensures spare { self.new.spare ≡ self.old.spare }
        ensures sound { IsForest self.new }
    {
        let child = self.nodes[block.0].take_kid(at);
        self.links[child].parent = Link::NONE;
        NodeId(child)
    }

    /// The block whose child the node is: None exactly where it has no parent.
    pub fn parent(&self, id: NodeId) -> Option<NodeId>
        requires { IsSome (entry self.now id) }
        ensures { result ≡ parent_of self.now id }
    {
        wrap(self.links[id.0].parent)
    }

    /// The node, with its value and children, for one step.
    pub fn read<G: Ledger>(&self, id: NodeId, steps: &mut Steps<G>) -> &Node<L, B>
        requires { IsSome (entry self.now id) }
        ensures node { entry self.now id ≡ Some record { node = result.now; parent = parent_of self.now id } }
        ensures tick { steps.new ≡ steps.old + 1 }
    {
        steps.tick();
        &self.nodes[id.0]
    }

    /// The value of a leaf, for writing.
    pub fn leaf_mut(&mut self, id: NodeId) -> &mut L
        requires { IsSome (leaf_value self.old id) }
        ensures* writes_back { sem 𝓛 (lends_leaf L.row B.row self.entry id result) }
        ensures value { leaf_value self.old id ≡ Some result.now }
    {
        self.nodes[id.0].leaf_mut()
    }

    /// The value of a block, for writing.
    pub fn block_mut(&mut self, id: NodeId) -> &mut B
        requires { IsSome (block_value self.old id) }
        ensures* writes_back { sem 𝓛 (lends_block L.row B.row self.entry id result) }
        ensures value { block_value self.old id ≡ Some result.now }
    {
        self.nodes[id.0].block_mut()
    }
}

// Puts a node and its links under a number that has none.
fn insert<L, B>(
    nodes: &mut Slots<Node<L, B>>,
    links: &mut Vec<Links>,
    node: Node<L, B>,
    to: Links,
) -> usize
    requires { HaveRoom nodes.old (length links.old.items) 1 }
    ensures was_vacant { get nodes.old result ≡ None }
    ensures updates { Updates (slots_of nodes.old links.old.items) (slots_of nodes.new links.new.items) result (Some (slot_of node to)) }
    ensures there { ContainsKey nodes.new result }
    ensures others { (other : ℕ) → ContainsKey nodes.old other → ContainsKey nodes.new other }
    ensures room { (n : ℕ) → HaveRoom nodes.old (length links.old.items) (n + 1) → HaveRoom nodes.new (length links.new.items) n }
{
    let id = nodes.insert_reserved(node);
    put_links(links, id, to);
    id
}
