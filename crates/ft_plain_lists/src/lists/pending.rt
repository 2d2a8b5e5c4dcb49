//! What a client's own edits make of a list, and what their acknowledgement and a reconnection do.

ghost use Rattle.std.specs.Prelude.{◌≡◌, ◌+◌, ◌<◌, ◌^◌, [], IfOk, IsOkAnd, OnOk, OnErr, filter, length, map, replicate};
ghost use Rattle.ft_base.specs.Scan.{no_run, put, retain_map};
ghost use Rattle.ft_props.specs.Element.{GridUnit, is_sequenced, seen, with_pending_annotation, with_pending_removal};
ghost use Rattle.ft_props.specs.Steps.{acked_element, acked_list, after_local_insertion, after_local_mark, carried_element};
ghost use Rattle.ft_props.specs.Steps.{is_inserted_by, put_stage, put_stages, rebuilt_list, stage_position};
ghost use Rattle.ft_plain_lists.specs.Contents.{content_of};

use crate::copies::{Copied, copied_items};
use crate::element_tests::{Before, ElementTest, InsertedBy};
use crate::elements::marks::{PendingChanges, PendingRemoval};
use crate::elements::{Content, PlainElement};
use crate::lists::{PlainList, check_room};
use crate::moved::push_made;
use crate::scans::{insertion_place, mark_range, new_elements, put_at, rank, units};
use ft_base::moved::{after, fill};
use ft_base::{OutOfMemory, Stamp, Stamps};
use ft_props::{Changes, Props};
use std::alloc::Global;

impl PlainList {
    /// An equal list.
    pub fn copy(&self) -> Result<PlainList, OutOfMemory>
        ensures { IfOk result (λ copy. copy ≡ self.now) }
    {
        let items = copied_items(self.alloc(), self.items.as_slice())?;
        Ok(PlainList {
            items,
            made: self.made,
        })
    }

    /// Puts new elements of the pending stage in with these properties, directly after the `p`-th element that
    /// is seen at the stage before.
    ///
    /// Returns `OutOfMemory` where there is no room for them or the list would have more than 2^53 - 1
    /// elements, and then it is as it was.
    pub fn insert_at_stage(
        &mut self,
        stage: u64,
        p: u64,
        props: &Props,
        contents: &[Content],
    ) -> Result<(), OutOfMemory>
        ensures ok { OnOk result (self.new ≡ after_local_insertion stage p props.now (map content_of contents.now) self.old) }
        ensures err { OnErr result (self.new ≡ self.old) }
    {
        check_room(self.items.len(), contents.len())?;
        let ins = Stamp::Local { stage };
        let alloc = self.alloc();
        let dels = Stamps::new(alloc);
        let new = new_elements(alloc, 0, ins, &dels, None, props, contents);
        put_behind(&mut self.items, p, Before(stage), new)
    }

    /// Puts so many new units in as `insert_at_stage` does.
    ///
    /// Returns `OutOfMemory` where there is no room for them or the list would have more than 2^53 - 1
    /// elements, and then it is as it was.
    pub fn insert_units_at_stage(
        &mut self,
        stage: u64,
        p: u64,
        count: u64,
    ) -> Result<(), OutOfMemory>
        ensures ok { OnOk result (self.new ≡ after_local_insertion stage p [] (replicate count GridUnit) self.old) }
        ensures err { OnErr result (self.new ≡ self.old) }
    {
        let alloc = self.alloc();
        let contents = units(alloc, count)?;
        let props = Props::new(alloc);
        self.insert_at_stage(stage, p, &props, contents.as_slice())
    }

    /// Marks the elements from the `p`-th up to before the `q`-th that are seen at the stage before as
    /// removed by the pending stage.
    ///
    /// Returns `OutOfMemory` where there is no room for a mark, and then some may have theirs.
    pub fn remove_at_stage(&mut self, stage: u64, p: u64, q: u64) -> Result<(), OutOfMemory>
        ensures { OnOk result (self.new ≡ after_local_mark stage p q (with_pending_removal stage) self.old) }
    {
        let items = self.items.as_mut_slice();
        mark_range(items, p, q, Before(stage), &PendingRemoval(stage))
    }

    /// Adds changes of the pending stage to the elements from the `p`-th up to before the `q`-th that are
    /// seen at the stage before.
    ///
    /// Returns `OutOfMemory` where there is no room for them, and then some may have theirs.
    pub fn annotate_at_stage(
        &mut self,
        stage: u64,
        p: u64,
        q: u64,
        changes: &Changes,
    ) -> Result<(), OutOfMemory>
        ensures { OnOk result (self.new ≡ after_local_mark stage p q (with_pending_annotation stage changes.now) self.old) }
    {
        let changes = PendingChanges { stage, changes };
        let items = self.items.as_mut_slice();
        mark_range(items, p, q, Before(stage), &changes)
    }

    /// Makes what the pending stage did sequenced, under number `seq` by connection `conn`.
    ///
    /// Returns `OutOfMemory` where there is no room for that or the count of elements would pass
    /// 2^53 - 1, and then some of it may be done.
    pub fn acknowledge(&mut self, stage: u64, seq: u64, conn: u32) -> Result<(), OutOfMemory>
        ensures { OnOk result (self.new ≡ acked_list stage seq conn self.old) }
    {
        let made = self.made_with(self.seen_count(InsertedBy(stage)) as u64)?;
        acknowledge_all(self.items.as_mut_slice(), stage, self.made, seq, conn)?;
        self.made = made;
        Ok(())
    }

    /// Puts the elements of each of these pending stages in afresh.
    ///
    /// Returns `OutOfMemory` where there is no room for that or the list would have more than 2^53 - 1
    /// elements, and then it is as it was.
    pub fn rebuild(&mut self, stages: &[u64]) -> Result<(), OutOfMemory>
        ensures ok { OnOk result (self.new ≡ rebuilt_list stages.now self.old) }
        ensures err { OnErr result (self.new ≡ self.old) }
    {
        let rebuilt = rebuilt_elements(self.alloc(), self.items.as_slice(), stages);
        fill(&mut self.items, rebuilt)
    }
}

// The elements, with those of each of these pending stages put in afresh.
//
// Returns `OutOfMemory` where there is no room for them or they would be more than 2^53 - 1.
fn rebuilt_elements(
    alloc: Global,
    items: &[PlainElement],
    stages: &[u64],
) -> Result<Vec<PlainElement>, OutOfMemory>
    ensures items { IfOk result (λ v. v.items ≡ put_stages items.now (retain_map is_sequenced carried_element items.now) stages.now) }
    ensures countable { IfOk result (λ v. length v.items < 2 ^ 53) }
{
    let mut rebuilt = carried_elements(alloc, items)?;
    let done = put_stages(items, &mut rebuilt, stages);
    after(done, rebuilt)
}

// Puts the new elements in directly behind the `p`-th one that is seen, if they were made.
//
// Returns `OutOfMemory` where they weren't or there is no room for them, and then the list is as it was.
fn put_behind<T: ElementTest>(
    items: &mut Vec<PlainElement>,
    p: u64,
    seen: T,
    new: Result<Vec<PlainElement>, OutOfMemory>,
) -> Result<(), OutOfMemory>
    ensures ok { OnOk result (IsOkAnd new (λ v. items.new.items ≡ put (T.test seen) no_run p v.items items.old.items)) }
    ensures count { OnOk result (IsOkAnd new (λ v. length items.new.items ≡ length items.old.items + length v.items)) }
    ensures err { OnErr result (items.new.items ≡ items.old.items) }
{
    let place = insertion_place(items.as_slice(), p, seen);
    put_at(items, place, new)
}

// Makes what the pending stage did with each element sequenced.
//
// Returns `OutOfMemory` where there is no room for that, and then some of it may be done.
fn acknowledge_all(
    items: &mut [PlainElement],
    stage: u64,
    made: u64,
    seq: u64,
    conn: u32,
) -> Result<(), OutOfMemory>
    ensures { OnOk result (items.new ≡ map (acked_element stage made seq conn) items.old) }
{
    for e in items.iter_mut() {
        e.acknowledge(stage, made, seq, conn)?;
    }
    Ok(())
}

// The sequenced elements, without what is pending on those of which a removal is sequenced.
fn carried_elements(alloc: Global, items: &[PlainElement]) -> Result<Vec<PlainElement>, OutOfMemory>
    ensures { IfOk result (λ v. v.items ≡ retain_map is_sequenced carried_element items.now) }
{
    let mut carried = Vec::new(alloc);
    for e in items {
        if e.is_sequenced() {
            push_made(&mut carried, carried_element(e))?;
        }
    }
    Ok(carried)
}

// The element, without what is pending on it if a removal of it is sequenced.
fn carried_element(e: &PlainElement) -> Result<PlainElement, OutOfMemory>
    ensures { IfOk result (λ carried. carried ≡ carried_element e.now) }
{
    let mut carried = e.copied()?;
    carried.carry();
    Ok(carried)
}

// Puts into `rebuilt` the elements that each of the stages has in `items`.
//
// Returns `OutOfMemory` where there is no room for them or the list would have more than 2^53 - 1 elements, and then
// those of some stages may be there.
fn put_stages(
    items: &[PlainElement],
    rebuilt: &mut Vec<PlainElement>,
    stages: &[u64],
) -> Result<(), OutOfMemory>
    ensures items { OnOk result (rebuilt.new.items ≡ put_stages items.now rebuilt.old.items stages.now) }
    ensures countable { OnOk result (length rebuilt.new.items < 2 ^ 53) }
{
    for stage in stages {
        put_stage(items, rebuilt, *stage)?;
    }
    check_room(0, rebuilt.len())
}

// Puts into `rebuilt` the elements that the stage has in `items`, after as many elements of the stage
// before as stand left of them in `items`.
//
// Returns `OutOfMemory` where there is no room for them, and then the list is as it was.
fn put_stage(
    items: &[PlainElement],
    rebuilt: &mut Vec<PlainElement>,
    stage: u64,
) -> Result<(), OutOfMemory>
    ensures { OnOk result (rebuilt.new.items ≡ put_stage items.now rebuilt.old.items stage) }
{
    let new = elements_of_stage(*rebuilt.allocator(), items, stage);
    let place = stage_position(items, stage);
    put_behind(rebuilt, place, Before(stage), new)
}

/// How many elements seen at the stage before stand left of the first one of the stage.
pub fn stage_position(items: &[PlainElement], stage: u64) -> u64
    ensures { result ≡ stage_position stage items.now }
{
    rank(items, InsertedBy(stage), Before(stage))
}

// Copies of the elements that the stage inserted.
fn elements_of_stage(
    alloc: Global,
    items: &[PlainElement],
    stage: u64,
) -> Result<Vec<PlainElement>, OutOfMemory>
    ensures { IfOk result (λ v. v.items ≡ filter (is_inserted_by stage) items.now) }
{
    let mut found = Vec::new(alloc);
    for e in items {
        if e.is_inserted_by(stage) {
            push_made(&mut found, e.copied())?;
        }
    }
    Ok(found)
}
