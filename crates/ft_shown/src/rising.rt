//! Items that are put into their place among rising ones, and taken out there.

ghost use Rattle.std.specs.Prelude.{◌≡◌, OnOk};
ghost use Rattle.ft_props.specs.Keys.{put_rising, remove_rising};
ghost use Rattle.ft_plain_lists.specs.Places.{rising_place};

use ft_base::OutOfMemory;
use ft_changes::ShownItem;
use std::cmp::Ordering;

/// Puts the item into its place, instead of the one of that place if there is one.
pub fn put_rising<T: ShownItem>(items: &mut Vec<T>, item: T) -> Result<(), OutOfMemory>
    ensures { OnOk result (items.new.items ≡ put_rising T.order item items.old.items) }
{
    match rising_place(items.as_slice(), &item) {
        Ok(place) => items[place] = item,
        Err(place) => items.insert(place, item)?,
    }
    Ok(())
}

/// Takes the one of this item's place out, if there is one.
pub fn remove_rising<T: ShownItem>(items: &mut Vec<T>, item: T)
    ensures { items.new.items ≡ remove_rising T.order item items.old.items }
{
    match rising_place(items.as_slice(), &item) {
        Ok(place) => drop(items.remove(place)),
        Err(_) => {}
    }
}

// The place of the item, or else, as an error, the place where it would stand.
fn rising_place<T: ShownItem>(items: &[T], item: &T) -> Result<usize, usize>
    ensures { result ≡ rising_place T.order item.now items.now }
{
    for (place, other) in items.iter().enumerate() {
        match item.compare(other) {
            Ordering::Less => return Err(place),
            Ordering::Equal => return Ok(place),
            Ordering::Greater => {}
        }
    }
    Err(items.len())
}
