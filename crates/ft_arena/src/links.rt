//! The links of the nodes, in a list apart from them: whoever walks along links, up to the blocks above
//! or from leaf to leaf, reads twelve bytes of each node that it passes. In the functions on leaves `None`
//! is the place before the first leaf and after the last, and `head` and `tail` are what that place leads to.

ghost use Rattle.std.specs.Prelude.{◌≡◌, ℕ, ◌<◌, ◌≤◌, length, max, vec_capacity};
ghost use Rattle.ft_arena.specs.Links.{HasPlace, IsWithin, PutsLinks, links_under, with_next, with_prev, end_with, next_in};

use crate::nodes::Node;
use crate::numbers::{Link, NodeId};
use crate::slots::Slots;

// The links of a node: to its parent, and those of a leaf to the leaves beside it; a block has none of these.
// The links of a number without a node say nothing.
#[derive(Clone, Copy, Drop)]
pub(crate) struct Links {
    pub(crate) parent: Link,
    pub(crate) prev: Link,
    pub(crate) next: Link,
}

impl Links {
    // Links to nothing.
    pub(crate) const NONE: Links = Links {
        parent: Link::NONE,
        prev: Link::NONE,
        next: Link::NONE,
    };
}

// The node that is linked.
pub(crate) fn wrap(at: Link) -> Option<NodeId>
    ensures { result ≡ at }
{
    match at.get() {
        Some(id) => Some(NodeId(id)),
        None => None,
    }
}

// The link to a node.
pub(crate) fn raw<L, B>(nodes: &Slots<Node<L, B>>, at: Option<NodeId>) -> Link
    requires { HasPlace nodes.now at }
    ensures { result ≡ at }
{
    // That there are few nodes is read off its contract.
    let _capacity = nodes.capacity();
    match at {
        Some(id) => Link::to(id.0),
        None => Link::NONE,
    }
}

// Puts links to nothing behind, up to so many numbers, for which there is room.
pub(crate) fn lengthen(links: &mut Vec<Links>, numbers: usize)
    requires { numbers ≤ vec_capacity links.old }
    ensures same { (id : ℕ) → links_under links.new.items id ≡ links_under links.old.items id }
    ensures grown { length links.new.items ≡ max (length links.old.items) numbers }
{
    while links.len() < numbers {
        links.push_reserved(Links::NONE);
    }
}

// Writes the links of a number.
pub(crate) fn put_links(links: &mut Vec<Links>, id: usize, to: Links)
    requires { id < length links.old.items }
    ensures { PutsLinks links.old.items links.new.items id to }
{
    links[id] = to;
}

// The leaf that follows this place.
pub(crate) fn next_at(links: &Vec<Links>, head: Link, at: Link) -> Link
    requires { IsWithin (length links.now.items) at }
    ensures { result ≡ next_in links.now.items head at }
{
    match at.get() {
        Some(id) => links[id].next,
        None => head,
    }
}

// Writes what follows this leaf, or which leaf is the first.
pub(crate) fn set_next(links: &mut Vec<Links>, head: &mut Link, at: Link, to: Link)
    requires { IsWithin (length links.old.items) at }
    ensures links { links.new.items ≡ with_next links.old.items at to }
    ensures head { head.new ≡ end_with head.old at to }
{
    match at.get() {
        Some(id) => links[id].next = to,
        None => *head = to,
    }
}

// Writes what stands before this leaf, or which leaf is the last.
pub(crate) fn set_prev(links: &mut Vec<Links>, tail: &mut Link, at: Link, to: Link)
    requires { IsWithin (length links.old.items) at }
    ensures links { links.new.items ≡ with_prev links.old.items at to }
    ensures tail { tail.new ≡ end_with tail.old at to }
{
    match at.get() {
        Some(id) => links[id].prev = to,
        None => *tail = to,
    }
}
