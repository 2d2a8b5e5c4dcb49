//! Items that go in at a place of a list, and that go away from a place on.

ghost use Rattle.std.specs.Prelude.{◌≡◌, ◌≤◌, ◌++◌, OnOk, drop, length, min, take};
ghost use Rattle.ft_changes.specs.ShownRuns.{put_in, take_out};

use ft_base::OutOfMemory;

/// The place, or else the end of so many items.
pub fn place_within(place: u64, count: usize) -> usize
    ensures { result ≡ min place count }
{
    place.min(count as u64) as usize
}

/// Puts new items in front of the one at `place`, or at the end.
pub fn put_in<T: Drop>(items: &mut Vec<T>, place: u64, new: Vec<T>) -> Result<(), OutOfMemory>
    ensures { OnOk result (items.new.items ≡ put_in place new.items items.old.items) }
{
    let within = place_within(place, items.len());
    put_at(items, within, new)
}

// Puts new items in at the place.
fn put_at<T: Drop>(items: &mut Vec<T>, place: usize, mut new: Vec<T>) -> Result<(), OutOfMemory>
    requires { place ≤ length items.old.items }
    ensures { OnOk result (items.new.items ≡ take place items.old.items ++ (new.items ++ drop place items.old.items)) }
{
    let count = new.len();
    items.append(&mut new)?;
    items[place..].rotate_right(count);
    Ok(())
}

/// Takes `count` items from `place` on out, or those of them that there are.
pub fn take_out<T: Drop>(items: &mut Vec<T>, place: u64, count: u64)
    ensures { items.new.items ≡ take_out place count items.old.items }
{
    let start = place_within(place, items.len());
    let end = place_within(place.saturating_add(count), items.len());
    take_at(items, start, end);
}

// Takes the items from `start` up to before `end` out.
fn take_at<T: Drop>(items: &mut Vec<T>, start: usize, end: usize)
    requires order { start ≤ end }
    requires within { end ≤ length items.old.items }
    ensures { items.new.items ≡ take start items.old.items ++ drop end items.old.items }
{
    drop(items.drain(start..end));
}
