//! Where the interval of a name stands among intervals by rising names, which stand on pages.

ghost use Rattle.std.specs.Prelude.{◌≡◌, ◌<◌, ◌^◌, IsTrue, length};
ghost use Rattle.ft_interval_store.specs.Intervals.{AreOfLabel, IsCutBy, NamesRise, begins_by, name_cmp, place_of_name};
ghost use Rattle.ft_interval_store.specs.Pages.{AreFilled, from_pages};

use crate::intervals::Held;
use crate::pages::count_before;
use ft_base::{Datum, Text};
use ft_props::keys::compare;
use std::cmp::Ordering;

// The order of two names: by label, then by id, which is read only where the labels are the same.
fn name_order(label: &Text, id: &Text, other_label: &Text, other_id: &Text) -> Ordering
    ensures { result ≡ name_cmp (label.now, id.now) (other_label.now, other_id.now) }
{
    match compare(label.as_str(), other_label.as_str()) {
        Ordering::Equal => compare(id.as_str(), other_id.as_str()),
        unequal => unequal,
    }
}

// Whether the first interval of a page doesn't stand behind the name.
fn begins_by<T>(page: &[Held<T>], label: &Text, id: &Text) -> bool
    ensures { result ≡ begins_by (label.now, id.now) page.now }
{
    match page.first() {
        Some(i) => name_order(&i.get().label, &i.get().id, label, id).is_le(),
        None => false,
    }
}

// Whether all intervals of a page are of that label. As names rise, the first one and the last one tell.
fn is_of_label<T>(page: &[Held<T>], label: &Text) -> bool
    requires { NamesRise page.now }
    ensures { IsTrue result → AreOfLabel label.now page.now }
{
    let Some(first) = page.first() else {
        return false;
    };
    let Some(last) = page.last() else {
        return false;
    };
    first.get().label.same(label) && last.get().label.same(label)
}

// The place of the id on a page of intervals of that label, or else, as an error, the place where it would stand.
fn search_ids<T>(page: &[Held<T>], label: &Text, id: &Text) -> Result<usize, usize>
    requires label { AreOfLabel label.now page.now }
    requires rising { NamesRise page.now }
    ensures { result ≡ place_of_name (label.now, id.now) page.now }
{
    page.binary_search_by(|i| compare(i.get().id.as_str(), id.as_str()))
}

// The place of the name on a page, or else, as an error, the place where it would stand. Where all of the page are of the label, as
// they mostly are, ids alone are compared.
fn search_page<T>(page: &[Held<T>], label: &Text, id: &Text) -> Result<usize, usize>
    requires { NamesRise page.now }
    ensures { result ≡ place_of_name (label.now, id.now) page.now }
{
    if is_of_label(page, label) {
        return search_ids(page, label, id);
    }
    page.binary_search_by(|i| name_order(&i.get().label, &i.get().id, label, id))
}

// How many pages don't begin behind the name.
fn pages_by<T>(pages: &[Vec<Held<T>>], label: &Text, id: &Text) -> usize
    requires filled { AreFilled pages.now }
    requires rising { NamesRise (from_pages pages.now) }
    ensures { IsCutBy (label.now, id.now) pages.now result }
{
    pages.partition_point(|page| begins_by(page.as_slice(), label, id))
}

/// The place of the name in the list, or else, as an error, the place where it would stand.
pub fn search_in<T>(pages: &[Vec<Held<T>>], label: &Text, id: &Text) -> Result<usize, usize>
    requires filled { AreFilled pages.now }
    requires rising { NamesRise (from_pages pages.now) }
    requires fits { length (from_pages pages.now) < 2 ^ 64 }
    ensures { result ≡ place_of_name (label.now, id.now) (from_pages pages.now) }
{
    let count = pages_by(pages, label, id);
    if count == 0 {
        return Err(0);
    }
    let page = count - 1;
    let first = count_before(pages, page);
    match search_page(pages[page].as_slice(), label, id) {
        Ok(i) => Ok(first + i),
        Err(i) => Err(first + i),
    }
}
