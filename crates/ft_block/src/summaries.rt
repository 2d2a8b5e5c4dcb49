//! What a block keeps of the leaves below it.

ghost use Rattle.std.specs.Prelude.{◌≡◌, ◌↔◌, ◌≤◌, ℕ, IfOk, IsTrue, OnOk};
ghost use Rattle.ft_base.specs.declared.elements.Element.{Element};
ghost use Rattle.ft_partial.specs.Items.{inserted_element};
ghost use Rattle.ft_block.specs.Tree.{AddsExchange, ExchangesAtStages, IsFrom, kept_length, KeepsForAll, KeepsNothing, KeepsExchange, KeepsSum, MakesExchange, MakesNothing, KeepsNode, IsNodeFrom, HasRange};

use crate::leaves::{Insertion, Leaf, LenView, View, inserted, is_for_all, shown_in, stages_of};
use ft_arena::Node;
use ft_base::{Element, OutOfMemory, Perspective};
use ft_partial::{Change, Stages, Table};
use ft_shape::Headed;
use std::alloc::Global;

/// The connection by which a block asks its stages. Which one doesn't matter, but that it isn't number 0, to which they count nothing.
const NONZERO_CONNECTION: u32 = 1;

/// What a block keeps: tables of how many elements of its leaves each stage and each perspective sees, how many they have,
/// and how many have a sequenced removal first. What a search reads of a block stands first.
#[derive(Drop)]
pub(crate) struct Summary {
    pub(crate) stages: Stages,
    pub(crate) table: Table,
    pub(crate) whole: u64,
    pub(crate) removed: u64,
}

impl Summary {
    // Of a block that has no leaves.
    pub(crate) fn new(alloc: Global, floor: u64) -> Summary
        ensures floor { result.table.floor ≡ floor }
        ensures nothing { KeepsNothing floor result }
    {
        let mut table = Table::new(alloc);
        table.fold_to(floor);
        Summary {
            whole: 0,
            removed: 0,
            stages: Stages::new(alloc),
            table,
        }
    }

    // What is kept of a view.
    pub(crate) fn kept(&self, view: View) -> u64
        requires { IsFrom self.now.table.floor view }
        ensures { result ≡ kept_length view self.now }
    {
        match view {
            View::Of(LenView::At(at)) => self.table.length(at),
            View::Of(LenView::Stage(stage)) => self.stages.length(Perspective {
                r: stage,
                c: NONZERO_CONNECTION,
            }),
            View::Of(LenView::All) => self.whole,
            View::Removed => self.removed,
        }
    }

    // Puts in `len` elements of the stamps `e`: without an exchange where they are sequenced and nobody removed them.
    fn add_elements(&mut self, floor: u64, e: &Element, len: u64) -> Result<(), OutOfMemory>
        requires floor { self.old.table.floor ≡ floor }
        ensures floor { self.new.table.floor ≡ floor }
        ensures low { OnOk result (HasRange self.new) }
        ensures exchanges { OnOk result (KeepsExchange floor self.old self.new e.now 0 e.now len) }
    {
        match inserted(e) {
            Some(at) => self.insert(at, len),
            None => {
                let exchange = Exchange::of(floor, e, 0, e, len)?;
                self.add_exchange(&exchange)
            }
        }
    }

    // Puts in `len` elements of this insertion that nobody removed.
    fn insert(&mut self, at: Insertion, len: u64) -> Result<(), OutOfMemory>
        ensures floor { self.new.table.floor ≡ self.old.table.floor }
        ensures low { HasRange self.new }
        ensures exchanges { OnOk result ((floor : ℕ) → self.old.table.floor ≡ floor → KeepsExchange floor self.old self.new (inserted_element at.seq at.conn) 0 (inserted_element at.seq at.conn) len) }
    {
        // That it is a number of 64 bits is read off the field.
        let _removed = self.removed;
        self.whole = self.whole.wrapping_add(len);
        self.stages.add_for_all(len);
        self.table.insert(at.seq, at.conn, len)
    }

    // Puts in elements that all see.
    fn add_for_all(&mut self, len: u64)
        ensures floor { self.new.table.floor ≡ self.old.table.floor }
        ensures low { HasRange self.new }
        ensures keeps { KeepsForAll self.old len self.new }
    {
        // That it is a number of 64 bits is read off the field.
        let _removed = self.removed;
        self.whole = self.whole.wrapping_add(len);
        self.stages.add_for_all(len);
        self.table.add_for_all(len);
    }

    // Makes an exchange.
    #[inline]
    fn add_exchange(&mut self, exchange: &Exchange) -> Result<(), OutOfMemory>
        ensures floor { self.new.table.floor ≡ self.old.table.floor }
        ensures low { HasRange self.new }
        ensures stages { self.old.stages.floor ≡ 0 }
        ensures adds { OnOk result (AddsExchange self.old exchange.now self.new) }
    {
        self.whole = self.whole.wrapping_add(exchange.whole);
        self.removed = self.removed.wrapping_add(exchange.removed);
        self.stages.add_change(&exchange.stages)?;
        self.table.add_change(&exchange.table)
    }

    // Raises the floor, and makes an exchange.
    #[inline]
    pub(crate) fn fold_and_exchange(
        &mut self,
        floor: u64,
        exchange: &Exchange,
    ) -> Result<(), OutOfMemory>
        requires { self.old.table.floor ≤ floor }
        ensures floor { self.new.table.floor ≡ floor }
        ensures low { HasRange self.new }
        ensures exchanges { OnOk result ((e f : Element) (n m : ℕ) → MakesExchange floor exchange.now e n f m → KeepsExchange floor self.old self.new e n f m) }
    {
        self.table.fold_to(floor);
        self.add_exchange(exchange)
    }

    // Puts in what another block keeps.
    pub(crate) fn add_all(&mut self, floor: u64, other: &Summary) -> Result<(), OutOfMemory>
        requires floor { self.old.table.floor ≡ floor }
        requires other { other.now.table.floor ≤ floor }
        ensures floor { self.new.table.floor ≡ floor }
        ensures low { HasRange self.new }
        ensures sum { OnOk result (KeepsSum floor self.old other.now self.new) }
    {
        self.whole = self.whole.wrapping_add(other.whole);
        self.removed = self.removed.wrapping_add(other.removed);
        self.stages.add_all(&other.stages)?;
        self.table.add_all(&other.table)
    }
}

/// What an exchange of elements changes of what blocks keep: how many elements more there are, and have a sequenced
/// removal first, round 2^64, and what it adds to their tables.
#[derive(Drop)]
pub(crate) struct Exchange {
    whole: u64,
    removed: u64,
    stages: Change,
    table: Change,
}

impl Exchange {
    // That of `len` elements of the stamps `e` for `new_len` of the stamps `new`, from the floor up.
    pub(crate) fn of(
        floor: u64,
        e: &Element,
        len: u64,
        new: &Element,
        new_len: u64,
    ) -> Result<Exchange, OutOfMemory>
        ensures { IfOk result (λ exchange. MakesExchange floor exchange e.now len new.now new_len) }
    {
        let alloc = e.dels.allocator();
        let cleared = shown_in(e, len, View::Removed);
        let removed = shown_in(new, new_len, View::Removed);
        Ok(Exchange {
            whole: new_len.wrapping_sub(len),
            removed: removed.wrapping_sub(cleared),
            stages: stages_change(e, len, new, new_len)?,
            table: Change::of(alloc, floor, e, len, new, new_len)?,
        })
    }

    // That of a leaf that comes.
    pub(crate) fn of_leaf<L: Leaf>(floor: u64, leaf: &L) -> Result<Exchange, OutOfMemory>
        ensures { IfOk result (λ exchange. MakesExchange floor exchange (L.element leaf.now) 0 (L.element leaf.now) (L.size leaf.now)) }
    {
        let e = leaf.element();
        Exchange::of(floor, e, 0, e, leaf.len())
    }

    // Whether it changes nothing of what blocks keep.
    pub(crate) fn is_nothing(&self) -> bool
        ensures { IsTrue result ↔ MakesNothing self.now }
    {
        self.whole == 0 && self.removed == 0 && self.stages.is_nothing() && self.table.is_nothing()
    }
}

// What an exchange adds to the tables of stages.
fn stages_change(e: &Element, len: u64, new: &Element, new_len: u64) -> Result<Change, OutOfMemory>
    ensures { IfOk result (λ change. ExchangesAtStages change e.now len new.now new_len) }
{
    let alloc = e.dels.allocator();
    let gone = stages_of(e);
    let come = stages_of(new);
    Change::of_lifespans(alloc, &gone, len, &come, new_len)
}

// Puts in the leaf, or what the block keeps.
pub(crate) fn add_node<L: Leaf>(
    sum: &mut Summary,
    floor: u64,
    node: &Node<L, Headed<Summary>>,
) -> Result<(), OutOfMemory>
    requires floor { sum.old.table.floor ≡ floor }
    requires node { IsNodeFrom floor node.now }
    ensures floor { sum.new.table.floor ≡ floor }
    ensures low { OnOk result (HasRange sum.new) }
    ensures sum { OnOk result (KeepsNode L.size L.element floor sum.old node.now sum.new) }
{
    match node {
        Node::Leaf { value } => {
            let e = value.element();
            let len = value.len();
            if is_for_all(e, floor) {
                sum.add_for_all(len);
                return Ok(());
            }
            sum.add_elements(floor, e, len)
        }
        Node::Block { value, .. } => sum.add_all(floor, &value.sum),
    }
}
