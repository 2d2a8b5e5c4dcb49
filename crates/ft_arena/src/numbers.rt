//! Numbers of nodes, links to them, and short lists of them.

ghost use Rattle.std.specs.Prelude.{◌≡◌, ◌+◌, ◌^◌, ◌<◌, ◌≤◌, [], length, slice_get, Some, None, insert, remove};

use arrayvec::ArrayVec;
use std::marker::Model;

/// The number of a node in its arena. A node keeps its number until it is taken out, and only then may
/// a new node get it. Contracts see the number.
#[derive(Clone, Copy, Drop, PartialEq, Eq)]
pub struct NodeId(pub usize);

impl Model for NodeId {
    ghost use Rattle.std.specs.Prelude.{ℕ};

    ghost Value = { ℕ };

    ghost view = { λ n. n.0 };

    ghost inverse = { λ n. record { 0 = n } };
}

/// A number or none in 32 bits, where `Option<usize>` takes sixteen bytes. Contracts see the option.
#[derive(Clone, Copy, Drop)]
pub struct Link {
    // 0 for none, else one more than the number
    word: u32,
}

impl Model for Link {
    ghost use Rattle.std.specs.Prelude.{ℕ, Option};

    ghost Value = { Option ℕ };

    ghost use Rattle.ft_arena.specs.Words.{linked, word_of, word_of-linked};

    ghost view = { λ l. linked l.word };

    ghost inverse = { λ o. record { word = word_of o } };

    ghost inverse_ok = { λ a h. word_of-linked a };
}

impl Link {
    /// The link to none.
    pub const NONE: Link = Link { word: 0 };

    /// The link to this number, which is below `MOST_SLOTS`.
    pub fn to(number: usize) -> Link
        requires { number + 1 < 2 ^ 32 }
        ensures { result ≡ Some number }
    {
        Link {
            word: number as u32 + 1,
        }
    }

    /// The number.
    pub fn get(self) -> Option<usize>
        ensures { result ≡ self }
    {
        match self.word.checked_sub(1) {
            Some(number) => Some(number as usize),
            None => None,
        }
    }
}

/// The children of a block: at most eight nodes, which contracts see as a list. A number takes 32 bits.
#[derive(Drop)]
pub struct Kids {
    ids: ArrayVec<u32, 8>,
}

impl Model for Kids {
    ghost use Rattle.std.specs.Prelude.{ℕ, List, ◌≤◌, length};

    ghost Value = { List ℕ };

    ghost view = { λ k. k.ids.items };

    ghost invariant = { λ k. length k.ids.items ≤ 8 };
}

impl Kids {
    // No nodes.
    pub(crate) fn new() -> Kids
        ensures { result ≡ [] }
    {
        Kids {
            ids: ArrayVec::new(),
        }
    }

    /// How many nodes there are.
    pub fn len(&self) -> usize
        ensures value { result ≡ length self.now }
        ensures few { result ≤ 8 }
    {
        self.ids.len()
    }

    /// The node at place `i`, counted from 0: None exactly where `i` isn't below the length.
    pub fn get(&self, i: usize) -> Option<NodeId>
        ensures { result ≡ slice_get self.now i }
    {
        if i < self.ids.len() {
            Some(NodeId(self.ids[i] as usize))
        } else {
            None
        }
    }

    // Puts a node at this place.
    pub(crate) fn put(&mut self, at: usize, id: usize)
        requires at { at ≤ length self.old }
        requires room { length self.old < 8 }
        requires fits { id < 2 ^ 32 }
        ensures { self.new ≡ insert self.old at id }
    {
        self.ids.insert(at, id as u32);
    }

    // Takes the node at this place out.
    pub(crate) fn take(&mut self, at: usize) -> usize
        requires { at < length self.old }
        ensures value { slice_get self.old at ≡ Some result }
        ensures rest { self.new ≡ remove self.old at }
    {
        self.ids.remove(at) as usize
    }
}
