//! The shared text as its callers see it.

ghost use Rattle.std.specs.Prelude.{◌≡◌, [], None, false, true};
ghost use Rattle.ft_op.specs.Document.{empty};

use crate::pending::PendingOp;
use ft_interval::Collections;
use ft_tree::{TextContent, Tree};
use std::alloc::Global;
use std::collections::VecDeque;
use std::marker::Model;

/// A text with intervals, as a client holds it: its elements in a merge tree, its intervals, and what is pending on both. After
/// `OutOfMemory` in a call that changes it, it may be used no more.
///
/// Its contracts speak of each document with pending stages of which it holds the text's part (`HoldsText`).
#[derive(Drop)]
pub struct SharedString {
    pub(crate) tree: Tree<TextContent>,
    pub(crate) intervals: Collections,
    pub(crate) ops: VecDeque<PendingOp>,
    /// The operations that go on after a reconnection, of the stages that were given.
    pub(crate) again: VecDeque<PendingOp>,
    pub(crate) given: u64,
    pub(crate) usable: bool,
}

impl Model for SharedString {
    ghost use Rattle.ft_string.specs.State.{TextState};

    ghost Value = { TextState };

    ghost use Rattle.ft_string.specs.Inside.{view_of, IsSoundIfUsable};

    ghost view = { view_of };

    ghost invariant = { IsSoundIfUsable };
}

impl SharedString {
    ghost use Rattle.ft_string.specs.Holds.{HoldsText};

    /// No elements, no intervals, and nothing pending.
    pub fn new(alloc: Global) -> SharedString
        ensures value { result ≡ record {
          elements = [];
          made = 0;
          depth = 0;
          intervals = [];
          ops = [];
          interval_ops = [];
          floor = 0;
          given = 0;
          usable = true;
          tree = record { leaves = []; refs = []; floor = 0; sweep = None; made = 0; depth = 0; usable = true };
        } }
        ensures holds { HoldsText result empty [] }
    {
        SharedString {
            tree: Tree::new(alloc),
            intervals: Collections::new(alloc),
            ops: VecDeque::new(alloc),
            again: VecDeque::new(alloc),
            given: 0,
            usable: true,
        }
    }

    /// How many elements were ever made in it, those that are gone included.
    pub fn made(&self) -> u64
        ensures { result ≡ self.now.made }
    {
        self.tree.made()
    }

    /// The floor: every perspective that is asked has at least this reference number.
    pub fn floor(&self) -> u64
        ensures { result ≡ self.now.floor }
    {
        self.tree.floor()
    }

    /// Where it takes its memory.
    pub fn allocator(&self) -> Global {
        self.tree.allocator()
    }

    /// It may be used no more.
    pub(crate) fn spoil(&mut self)
        ensures { self.new.usable ≡ false }
    {
        self.usable = false;
    }
}
