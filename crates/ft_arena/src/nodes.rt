//! A node of an arena. Its links stand apart from it, in `links.rt`.

ghost use Rattle.std.specs.Prelude.{◌≡◌, ◌^◌, ◌<◌, ◌≤◌, length, IsSome, Some, slice_get, insert, remove};
ghost use Rattle.std.specs.Borrow.{sem};
ghost use Rattle.ft_arena.specs.Forest.{leaf_of_node, block_of_node, kids_of_node, with_kids};

use crate::numbers::Kids;

/// A node of a tree.
#[derive(Drop)]
pub enum Node<L, B> {
    /// A leaf, with its value.
    Leaf { value: L },
    /// A block of at most eight nodes, with its value.
    Block { kids: Kids, value: B },
}

impl<L, B> Node<L, B> {
    ghost use Rattle.ft_arena.specs.Lends.{lends_node_leaf, lends_node_block};

    pub(crate) fn leaf_mut(&mut self) -> &mut L
        requires { IsSome (leaf_of_node self.old) }
        ensures* writes_back { sem 𝓛 (lends_node_leaf L.row B.row self.entry result) }
        ensures value { leaf_of_node self.old ≡ Some result.now }
    {
        match self {
            Node::Leaf { value } => value,
            Node::Block { .. } => unreachable!(),
        }
    }

    pub(crate) fn block_mut(&mut self) -> &mut B
        requires { IsSome (block_of_node self.old) }
        ensures* writes_back { sem 𝓛 (lends_node_block L.row B.row self.entry result) }
        ensures value { block_of_node self.old ≡ Some result.now }
    {
        match self {
            Node::Block { kids: _, value } => value,
            Node::Leaf { .. } => unreachable!(),
        }
    }

    pub(crate) fn into_leaf(self) -> L
        requires { IsSome (leaf_of_node self) }
        ensures { leaf_of_node self ≡ Some result }
    {
        match self {
            Node::Leaf { value } => value,
            Node::Block { .. } => unreachable!(),
        }
    }

    pub(crate) fn into_block(self) -> B
        requires { IsSome (block_of_node self) }
        ensures { block_of_node self ≡ Some result }
    {
        match self {
            Node::Block { kids: _, value } => value,
            Node::Leaf { .. } => unreachable!(),
        }
    }

    pub(crate) fn put_kid(&mut self, at: usize, child: usize)
        requires block { IsSome (block_of_node self.old) }
        requires at { at ≤ length (kids_of_node self.old) }
        requires room { length (kids_of_node self.old) < 8 }
        requires fits { child < 2 ^ 32 }
        ensures { self.new ≡ with_kids self.old (insert (kids_of_node self.old) at child) }
    {
        match self {
            Node::Block { kids, .. } => kids.put(at, child),
            Node::Leaf { .. } => unreachable!(),
        }
    }

    pub(crate) fn take_kid(&mut self, at: usize) -> usize
        requires { at < length (kids_of_node self.old) }
        ensures value { slice_get (kids_of_node self.old) at ≡ Some result }
        ensures rest { self.new ≡ with_kids self.old (remove (kids_of_node self.old) at) }
    {
        match self {
            Node::Block { kids, .. } => kids.take(at),
            Node::Leaf { .. } => unreachable!(),
        }
    }
}
