//! The index as its callers see it: items in order, and the id of each by its key.

ghost use Rattle.std.specs.Prelude.{◌≡◌, ℕ, ℤ, ◌+◌, ◌*◌, ◌^◌, ◌≤◌, Some, None, IsTrue, IfOk, OnOk, OnErr, cond, nat_eq, length, option_copied, false, ◌∷◌};
ghost use Rattle.std.specs.BTreeMap as tree_map;
ghost use Rattle.std.specs.Ordering.{nat_cmp};
ghost use Rattle.ft_overlap.specs.declared.index.Keyed.{Keyed};
ghost use Rattle.ft_overlap.specs.Inside.{HasAt};
ghost use Rattle.ft_overlap.specs.Items.{
  IsInOrder,
  KeepsOrder,
  AreKnown,
  no_items,
  id_at,
  keys_within,
  has_key,
  item_at,
  without_key,
  put_item,
};

use crate::counted::{put_in, reserve_in, take_in};
use crate::items::{Item, Places, Span};
use crate::search::{Range, collect};
use ft_arena::{Arena, NodeId};
use ft_base::{OutOfMemory, Steps, Text};
use ft_shape::Headed;
use std::alloc::Global;
use std::collections::BTreeMap;
use std::marker::{Brand, Model};
use std::sync::ledger::{Blank, Ledger};

// What there is at a key: the leaf of its item, and the item's id.
#[derive(Drop)]
struct Keyed {
    leaf: usize,
    id: Text,
}

/// Items in order, in a balanced tree: at most eight children a block, at least four but at the root, all
/// items at one depth. Each block names one item below it. A contract sees the items from first to last,
/// the number of blocks below the root on the way to an item, and each block, with the item that it names
/// and the items below it. A read of a node is one step. And it sees the id of each item, by its key.
///
/// An item is put in by a way down from the root, and taken out by its key, whose leaf is found in a map: each of both takes
/// about the logarithm of the number of items, wherever they start.
#[derive(Drop)]
pub struct Index {
    arena: Arena<Item, Headed<Span>>,
    root: Option<usize>,
    by_key: BTreeMap<u64, Keyed>,
    alloc: Global,
}

impl Model for Index {
    ghost use Rattle.ft_overlap.specs.Items.{ItemList};

    ghost Value = { ItemList };

    ghost use Rattle.ft_overlap.specs.Inside.{view_of, IsSound};

    ghost view = { view_of };

    ghost invariant = { IsSound };
}

// Writes which leaf the item with this key, which is there, has.
fn set_leaf(by_key: &mut BTreeMap<u64, Keyed>, key: u64, leaf: usize)
    ensures { (v : Keyed) → tree_map.get nat_cmp by_key.old key ≡ Some v
        → HasAt key (Some (record v { leaf = leaf })) (tree_map.get nat_cmp by_key.old) (tree_map.get nat_cmp by_key.new) }
{
    if let Some(keyed) = by_key.get_mut(&key) {
        keyed.leaf = leaf;
    }
}

impl Index {
    /// No items. It takes no memory.
    pub fn new(alloc: Global) -> Index
        ensures { result ≡ no_items }
    {
        Index {
            arena: Arena::new(alloc),
            root: None,
            by_key: BTreeMap::new(alloc),
            alloc,
        }
    }

    /// The keys of the items whose start's place is at most `b` and whose end's place is at least `a`, in
    /// the order of the items. The index is in order by these places, which know both ends of each item.
    pub fn query<P: Places, G: Ledger>(
        &self,
        a: i64,
        b: i64,
        at: &P,
        steps: &mut Steps<G>,
    ) -> Result<Vec<u64>, OutOfMemory>
        requires known { AreKnown (P.Knows at.now) self.now.items }
        requires order { IsInOrder (P.end_place at.now) self.now }
        ensures keys { IfOk result (λ keys. keys.items ≡ keys_within (P.end_place at.now) a b self.now.items) }

        // For each key, and once more, it reads a few nodes on each level, and a tree has at least four times
        // as many items as the one that is a level lower.
        ensures cost { steps.new ≤ steps.old + 9 * (self.now.depth + 1) * (length (keys_within (P.end_place at.now) a b self.now.items) + 1) }
        ensures depth { 4 ^ self.now.depth ≤ length self.now.items + 1 }
    {
        let mut found = Vec::new(self.alloc);
        match self.root {
            None => Ok(found),
            Some(root) => {
                let root = NodeId(root);
                let range = Range { low: a, high: b };
                collect(&self.arena, root, root, &range, at, &mut found, steps)?;
                Ok(found)
            }
        }
    }

    /// Whether there are no items.
    pub fn is_empty(&self) -> bool
        ensures none { IsTrue result → self.now ≡ no_items }
        ensures some { result ≡ false → 1 ≤ length self.now.items }
    {
        self.root.is_none()
    }

    /// The id of the item with this key, if there is one.
    pub fn id_of(&self, key: u64) -> Option<&Text>
        ensures { option_copied result ≡ id_at key self.now.ids }
    {
        match self.by_key.get(&key) {
            Some(keyed) => Some(&keyed.id),
            None => None,
        }
    }

    /// Puts an item in, behind those whose start's place isn't above that of its own, and keeps its id. The index is in order
    /// by these places, which know all ends, and stays so. No item has this key yet.
    ///
    /// Returns `OutOfMemory` where there is no room for it, and then the index is as it was.
    pub fn insert<P: Places>(&mut self, item: Item, id: Text, at: &P) -> Result<(), OutOfMemory>
        requires known { AreKnown (P.Knows at.now) (item ∷ self.old.items) }
        requires order { IsInOrder (P.end_place at.now) self.old }
        requires fresh { has_key item.key self.old.items ≡ false }
        ensures ok { OnOk result (self.new.items ≡ put_item (P.end_place at.now) item self.old.items) }
        ensures order { OnOk result (IsInOrder (P.end_place at.now) self.new) }
        ensures err { OnErr result (self.new ≡ self.old) }
        ensures ids { OnOk result ((k : ℕ) → id_at k self.new.ids ≡ cond (nat_eq item.key k) (Some id) (id_at k self.old.ids)) }
    {
        // Behind the insertion into the map nothing may fail.
        reserve_in::<Brand>(&mut self.arena, self.root, Blank::new(1))?;
        let _ = self.by_key.insert(item.key, Keyed { leaf: 0, id })?;
        let inserted = put_in::<P, Brand>(&mut self.arena, self.root, item, at, Blank::new(1));
        set_leaf(&mut self.by_key, item.key, inserted.leaf.0);
        self.root = Some(inserted.root.0);
        Ok(())
    }

    /// Takes the item with this key out, and returns it: None exactly where there is none. No other item
    /// changes. The index is in order by these places, which know all ends, and stays so. It takes no memory.
    pub fn remove<P: Places>(&mut self, key: u64, at: &P) -> Option<Item>
        requires known { AreKnown (P.Knows at.now) self.old.items }
        requires order { IsInOrder (P.end_place at.now) self.old }
        ensures value { result ≡ item_at key self.old.items }
        ensures rest { self.new.items ≡ without_key key self.old.items }
        ensures order { IsInOrder (P.end_place at.now) self.new }
        ensures ids { (k : ℕ) → id_at k self.new.ids ≡ cond (nat_eq key k) None (id_at k self.old.ids) }
    {
        let root = self.root?;
        let Some(Keyed { leaf, .. }) = self.by_key.remove(&key) else {
            return None;
        };
        let (root, item) = take_in::<P, Brand>(
            &mut self.arena,
            NodeId(root),
            NodeId(leaf),
            at,
            Blank::new(1),
        );
        self.root = root;
        Some(item)
    }

    /// An index that is in order by places p is in order by each q that keeps the order of its ends: the
    /// items that its blocks name, which are the same, still have the greatest ends. And it is no deeper
    /// than so many items make it.
    pub fn order_is_kept(&self)
        ensures law { (p q : ℕ → ℤ) → KeepsOrder p q self.now.items → IsInOrder p self.now → IsInOrder q self.now }
        ensures depth { 4 ^ self.now.depth ≤ length self.now.items + 1 }
    {
        // It is read off what holds of the index at any time.
        let _ = &self.root;
    }
}
