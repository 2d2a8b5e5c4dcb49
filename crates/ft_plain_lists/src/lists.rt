//! One list of a plain replica: the text, the rows or the columns.

ghost use Rattle.std.specs.Prelude.{◌≡◌, ◌+◌, ◌<◌, ◌≤◌, ◌^◌, ◌++◌, [], None, IfOk, OnOk, OnErr, drop, length, map, nat_le, option_map, replicate, take};
ghost use Rattle.ft_base.specs.Scan.{at as seen_at, change_range, len};
ghost use Rattle.ft_props.specs.Element.{GridUnit, id, new_elements, seen_by, with_annotation};
ghost use Rattle.ft_props.specs.Steps.{after_insertion, after_removal, empty_list};
ghost use Rattle.ft_msg.specs.Answers.{count_held};
ghost use Rattle.ft_plain_lists.specs.Contents.{content_of};

mod building;
mod pending;
mod trimming;

use crate::element_tests::{ElementTest, Pending};
use crate::elements::marks::Removal;
use crate::elements::{Content, PlainElement};
use crate::names::ElementName;
use crate::scans::{
    insertion_place, mark_range, name_at, new_elements, pending_run, put_at, seen_count, units,
};
use ft_base::{OutOfMemory, Perspective, Stamp, Stamps};
use ft_json::GREATEST_COUNT;
use ft_props::{Changes, Props};
pub use pending::stage_position;
use std::alloc::Global;
use std::marker::Model;

/// A list of elements, removed ones included, and how many were ever sequenced in it: both at most
/// 2^53 - 1.
#[derive(Drop)]
pub struct PlainList {
    items: Vec<PlainElement>,
    made: u64,
}

impl Model for PlainList {
    ghost use Rattle.std.specs.Prelude.{◌<◌, ◌^◌, vec_len};
    ghost use Rattle.ft_props.specs.Steps.{Sequence};

    ghost Value = { Sequence };

    ghost view = { λ a. record { items = a.items.items; made = a.made } };

    ghost invariant = { λ a. (vec_len a.items < 2 ^ 53) × (a.made < 2 ^ 53) };
}

impl PlainList {
    /// A list without elements.
    pub fn new(alloc: Global) -> PlainList
        ensures { result ≡ empty_list }
    {
        PlainList {
            items: Vec::new(alloc),
            made: 0,
        }
    }

    /// Its allocator.
    pub fn alloc(&self) -> Global {
        *self.items.allocator()
    }

    /// How many elements were ever sequenced in it.
    pub fn made(&self) -> u64
        ensures { result ≡ self.now.made }
    {
        self.made
    }

    /// How many elements were ever in it: those that were sequenced and those that are pending.
    pub fn held(&self) -> u64
        ensures { result ≡ count_held self.now }
    {
        self.made + self.seen_count(Pending) as u64
    }

    /// The elements in order, removed ones included.
    pub fn as_slice(&self) -> &[PlainElement]
        ensures items { result.now ≡ self.now.items }
        ensures countable { length result.now < 2 ^ 53 }
    {
        self.items.as_slice()
    }

    /// How many elements are seen.
    pub fn seen_count<T: ElementTest>(&self, seen: T) -> usize
        ensures { result ≡ len (T.test seen) self.now.items }
    {
        seen_count(self.items.as_slice(), seen)
    }

    /// Whether at least `p` elements are seen.
    pub fn is_within<T: ElementTest>(&self, p: u64, seen: T) -> bool
        ensures { result ≡ nat_le p (len (T.test seen) self.now.items) }
    {
        p <= self.seen_count(seen) as u64
    }

    /// The name of the element that is seen with `i` seen ones before it: None exactly where at most
    /// `i` are seen.
    pub fn name_at<T: ElementTest>(&self, i: u64, seen: T) -> Option<ElementName>
        ensures { result ≡ option_map id (seen_at (T.test seen) i self.now.items) }
    {
        name_at(self.items.as_slice(), i, seen)
    }

    /// Puts new elements with these properties in under number `seq` by the perspective's connection, directly
    /// after the `p`-th element that the perspective sees, but past the run of pending elements there.
    ///
    /// Returns `OutOfMemory` where there is no room for them or the count of elements would pass
    /// 2^53 - 1, and then the list is as it was.
    pub fn insert(
        &mut self,
        p: u64,
        seq: u64,
        at: Perspective,
        by: Option<Stamp>,
        props: &Props,
        contents: &[Content],
    ) -> Result<(), OutOfMemory>
        ensures ok { OnOk result (self.new ≡ after_insertion seq at.c at.r p by props.now (map content_of contents.now) self.old) }
        ensures err { OnErr result (self.new ≡ self.old) }
    {
        let ins = Stamp::Acked { seq, conn: at.c };
        let dels = Stamps::new(self.alloc());
        let place = insertion_place(self.items.as_slice(), p, at);
        let i = place + pending_run(&self.items[place..]);
        self.put_new(i, ins, &dels, by, props, contents)
    }

    // Puts new sequenced elements in at place `i`.
    //
    // Returns `OutOfMemory` where there is no room for them or the count of elements would pass 2^53 - 1, and
    // then the list is as it was.
    fn put_new(
        &mut self,
        i: usize,
        ins: Stamp,
        dels: &Stamps,
        by: Option<Stamp>,
        props: &Props,
        contents: &[Content],
    ) -> Result<(), OutOfMemory>
        requires { i ≤ length self.old.items }
        ensures ok { OnOk result (self.new ≡ record {
          items = take i self.old.items ++ (new_elements self.old.made ins dels.now by props.now (map content_of contents.now) ++ drop i self.old.items);
          made = self.old.made + length contents.now;
        }) }
        ensures err { OnErr result (self.new ≡ self.old) }
    {
        let made = self.made_with(contents.len() as u64)?;
        check_room(self.items.len(), contents.len())?;
        let new = new_elements(self.alloc(), self.made, ins, dels, by, props, contents);
        put_at(&mut self.items, i, new)?;
        self.made = made;
        Ok(())
    }

    // How many elements there were ever after so many more.
    //
    // Returns `OutOfMemory` where they pass 2^53 - 1.
    fn made_with(&self, count: u64) -> Result<u64, OutOfMemory>
        ensures sum { IfOk result (λ made. made ≡ self.now.made + count) }
        ensures countable { IfOk result (λ made. made < 2 ^ 53) }
    {
        if count > GREATEST_COUNT - self.made {
            return Err(OutOfMemory);
        }
        Ok(self.made + count)
    }

    /// Puts so many new units in as `insert` does.
    ///
    /// Returns `OutOfMemory` where there is no room for them or the count of elements would pass
    /// 2^53 - 1, and then the list is as it was.
    pub fn insert_units(
        &mut self,
        p: u64,
        count: u64,
        seq: u64,
        at: Perspective,
    ) -> Result<(), OutOfMemory>
        ensures ok { OnOk result (self.new ≡ after_insertion seq at.c at.r p None [] (replicate count GridUnit) self.old) }
        ensures err { OnErr result (self.new ≡ self.old) }
    {
        let alloc = self.alloc();
        let contents = units(alloc, count)?;
        let props = Props::new(alloc);
        self.insert(p, seq, at, None, &props, contents.as_slice())
    }

    /// Gives a removal under number `seq` by the perspective's connection to each element that the
    /// perspective sees from the `p`-th up to before the `q`-th.
    ///
    /// Returns `OutOfMemory` where there is no room for one, and then some may have theirs.
    pub fn remove(&mut self, p: u64, q: u64, seq: u64, at: Perspective) -> Result<(), OutOfMemory>
        ensures { OnOk result (self.new ≡ after_removal seq at.c at.r p q self.old) }
    {
        let removal = Removal { seq, conn: at.c };
        mark_range(self.items.as_mut_slice(), p, q, at, &removal)
    }

    /// Makes the changes of the properties of each element that the perspective sees from the `p`-th
    /// up to before the `q`-th.
    ///
    /// Returns `OutOfMemory` where there is no room for what they make, and then some may have theirs.
    pub fn annotate(
        &mut self,
        p: u64,
        q: u64,
        changes: &Changes,
        at: Perspective,
    ) -> Result<(), OutOfMemory>
        ensures { OnOk result (self.new ≡ record self.old { items = change_range (seen_by at.r at.c) p q (with_annotation changes.now) self.old.items }) }
    {
        mark_range(self.items.as_mut_slice(), p, q, at, changes)
    }
}

// Returns `OutOfMemory` where a list of so many elements can't take so many more: it would have
// more than 2^53 - 1.
fn check_room(count: usize, more: usize) -> Result<(), OutOfMemory>
    requires { count < 2 ^ 53 }
    ensures { OnOk result (count + more < 2 ^ 53) }
{
    if more as u64 > GREATEST_COUNT - count as u64 {
        return Err(OutOfMemory);
    }
    Ok(())
}
