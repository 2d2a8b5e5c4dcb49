//! A list on pages, so that an element that is put in moves few others.

ghost use Rattle.std.specs.Prelude.{◌≡◌, ◌<◌, ◌≤◌, ◌^◌, ℕ, ◌∷◌, ◌++◌, [], OnOk, OnErr, length};
ghost use Rattle.std.specs.Borrow.{sem};
ghost use Rattle.std.specs.List.{insert, remove, slice_index_or};
ghost use Rattle.ft_interval_store.specs.Pages.{AreFilled, IsPageGap, IsPagePlace, count_before, from_pages};

use ft_base::OutOfMemory;
use ft_base::moved::push;
use std::alloc::Global;
use std::marker::Model;
use std::ops::{Index, IndexMut};

// A page of so many elements is cut in two. So it takes no room for more.
const MOST: usize = 512;

/// A list on pages, none of which is empty. Where an element is put in, only others of its page move. Contracts see
/// the list.
#[derive(Drop)]
pub struct Pages<T> {
    pub(crate) pages: Vec<Vec<T>>,
    // How many elements there are.
    len: usize,
}

impl<T> Model for Pages<T> {
    ghost use Rattle.std.specs.Prelude.{List};
    ghost use Rattle.ft_interval_store.specs.Pages.{ArePages, from_pages};

    ghost Value = { List T };

    ghost view = { λ a. from_pages a.pages.items };

    ghost invariant = { λ a. ArePages a.pages.items a.len };
}

// Where an element stands: on which page, and how many of the page's elements stand before it.
#[derive(Clone, Copy)]
struct PagePlace {
    page: usize,
    offset: usize,
}

impl<T: Drop> Pages<T> {
    /// No elements.
    pub fn new(alloc: Global) -> Pages<T>
        ensures { result ≡ [] }
    {
        Pages {
            pages: Vec::new(alloc),
            len: 0,
        }
    }

    /// Where it takes its memory.
    pub fn allocator(&self) -> Global {
        *self.pages.allocator()
    }

    /// How many elements there are.
    pub fn len(&self) -> usize
        ensures { result ≡ length self.now }
    {
        self.len
    }

    /// The pages in order.
    pub fn pages(&self) -> &[Vec<T>]
        ensures value { from_pages result.now ≡ self.now }
        ensures filled { AreFilled result.now }
        ensures fits { length self.now < 2 ^ 64 }
    {
        // That it is a number of 64 bits is read off the field.
        let _len = self.len;
        self.pages.as_slice()
    }

    /// The pages in order, by value.
    pub fn into_pages(self) -> Vec<Vec<T>>
        ensures { from_pages result.items ≡ self }
    {
        self.pages
    }

    /// Puts these elements behind all others, on a page of their own.
    ///
    /// Returns `OutOfMemory` where there is no room for it, and then nothing changed.
    pub fn push_page(&mut self, page: Vec<T>) -> Result<(), OutOfMemory>
        requires { 0 < length page.items }
        ensures ok { OnOk result (self.new ≡ self.old ++ page.items) }
        ensures err { OnErr result (self.new ≡ self.old) }
    {
        let Some(len) = self.len.checked_add(page.len()) else {
            return Err(OutOfMemory);
        };
        push(&mut self.pages, page)?;
        self.len = len;
        Ok(())
    }

    /// Takes the element at that place out.
    pub fn remove(&mut self, place: usize) -> T
        requires { place < length self.old }
        ensures value { result ≡ slice_index_or self.old place result }
        ensures items { self.new ≡ remove self.old place }
    {
        self.len -= 1;
        take_from(&mut self.pages, place)
    }

    /// Puts an element at that place.
    ///
    /// Returns `OutOfMemory` where there is no room for it, and then nothing changed.
    pub fn insert(&mut self, place: usize, element: T) -> Result<(), OutOfMemory>
        requires { place ≤ length self.old }
        ensures ok { OnOk result (self.new ≡ insert self.old place element) }
        ensures err { OnErr result (self.new ≡ self.old) }
    {
        let Some(len) = self.len.checked_add(1) else {
            return Err(OutOfMemory);
        };
        put_in(&mut self.pages, place, element)?;
        self.len = len;
        Ok(())
    }
}

impl<T> Index<usize> for Pages<T> {
    type Output = T;

    ghost can_index = { λ xs place. place < length xs };

    ghost index_gives = { λ xs place x. x ≡ slice_index_or xs place x };

    fn index(&self, place: usize) -> &T {
        let at = page_place(&self.pages, place);
        &self.pages[at.page][at.offset]
    }
}

impl<T> IndexMut<usize> for Pages<T> {
    ghost use Rattle.ft_interval_store.specs.LentPlaces.{lends_place};

    fn index_mut(&mut self, place: usize) -> &mut T
        requires { place < length self.old }
        ensures* writes_back { sem 𝓛 (lends_place T.row self.entry place result) }
        ensures value { result.now ≡ slice_index_or self.old place result.now }
    {
        let at = page_place(&self.pages, place);
        let page = &mut self.pages[at.page];
        &mut page[at.offset]
    }
}

// Where the element at that place of the list stands.
fn page_place<T>(pages: &[Vec<T>], place: usize) -> PagePlace
    requires { place < length (from_pages pages.now) }
    ensures { IsPagePlace place pages.now result }
{
    let mut offset = place;
    for (page, items) in pages.iter().enumerate() {
        let length = items.len();
        if offset < length {
            return PagePlace { page, offset };
        }
        offset -= length;
    }
    unreachable!()
}

/// How many elements stand before that page.
pub fn count_before<T>(pages: &[Vec<T>], page: usize) -> usize
    requires page { page ≤ length pages.now }
    requires fits { length (from_pages pages.now) < 2 ^ 64 }
    ensures { result ≡ count_before page pages.now }
{
    let mut count = 0;
    for k in 0..page {
        count += pages[k].len();
    }
    count
}

// Takes the element at that place of the list out, and its page if there is no other on it.
fn take_from<T: Drop>(pages: &mut Vec<Vec<T>>, place: usize) -> T
    requires place { place < length (from_pages pages.old.items) }
    requires filled { AreFilled pages.old.items }
    ensures value { result ≡ slice_index_or (from_pages pages.old.items) place result }
    ensures filled { AreFilled pages.new.items }
    ensures items { from_pages pages.new.items ≡ remove (from_pages pages.old.items) place }
{
    let at = page_place(pages, place);
    let taken = pages[at.page].remove(at.offset);
    if pages[at.page].is_empty() {
        let _ = pages.remove(at.page);
    }
    taken
}

// Puts an element at that place of the list.
//
// Returns `OutOfMemory` where there is no room for it, and then the list is as it was.
fn put_in<T: Drop>(pages: &mut Vec<Vec<T>>, place: usize, element: T) -> Result<(), OutOfMemory>
    requires place { place ≤ length (from_pages pages.old.items) }
    requires filled { AreFilled pages.old.items }
    ensures filled { AreFilled pages.new.items }
    ensures ok { OnOk result (from_pages pages.new.items ≡ insert (from_pages pages.old.items) place element) }
    ensures err { OnErr result (from_pages pages.new.items ≡ from_pages pages.old.items) }
{
    if pages.is_empty() {
        return push_first(pages, element);
    }
    let gap = gap_at(pages, place);
    insert_in(pages, gap, element)?;
    cut_long(pages, gap.page);
    Ok(())
}

// Makes a page of the first element.
//
// Returns `OutOfMemory` where there is no room for it, and then the list is as it was.
fn push_first<T: Drop>(pages: &mut Vec<Vec<T>>, element: T) -> Result<(), OutOfMemory>
    requires { pages.old.items ≡ [] }
    ensures filled { AreFilled pages.new.items }
    ensures ok { OnOk result (from_pages pages.new.items ≡ element ∷ []) }
    ensures err { OnErr result (pages.new.items ≡ pages.old.items) }
{
    let mut first = Vec::new(*pages.allocator());
    push(&mut first, element)?;
    push(pages, first)
}

// The gap before the element at that place of the list, behind the element before it if there is one.
fn gap_at<T>(pages: &[Vec<T>], place: usize) -> PagePlace
    requires some { 0 < length pages.now }
    requires place { place ≤ length (from_pages pages.now) }
    ensures { IsPageGap place pages.now result }
{
    if place == 0 {
        return PagePlace { page: 0, offset: 0 };
    }
    let at = page_place(pages, place - 1);
    PagePlace {
        page: at.page,
        offset: at.offset + 1,
    }
}

// Puts an element into a gap.
//
// Returns `OutOfMemory` where there is no room for it, and then the list is as it was.
fn insert_in<T: Drop>(
    pages: &mut Vec<Vec<T>>,
    gap: PagePlace,
    element: T,
) -> Result<(), OutOfMemory>
    requires gap { (place : ℕ) × IsPageGap place pages.old.items gap }
    requires filled { AreFilled pages.old.items }
    ensures page { gap.page < length pages.new.items }
    ensures filled { AreFilled pages.new.items }
    ensures ok { (place : ℕ) → IsPageGap place pages.old.items gap → OnOk result (from_pages pages.new.items ≡ insert (from_pages pages.old.items) place element) }
    ensures err { OnErr result (from_pages pages.new.items ≡ from_pages pages.old.items) }
{
    pages[gap.page].insert(gap.offset, element)?;
    Ok(())
}

// Cuts a page in two if it is long. Where there is no room for another one, it stays as it is.
fn cut_long<T: Drop>(pages: &mut Vec<Vec<T>>, page: usize)
    requires page { page < length pages.old.items }
    requires filled { AreFilled pages.old.items }
    ensures list { from_pages pages.new.items ≡ from_pages pages.old.items }
    ensures filled { AreFilled pages.new.items }
{
    if pages[page].len() < MOST {
        return;
    }
    let Ok(()) = pages.reserve(1) else {
        return;
    };
    let Ok(rear) = pages[page].split_off(MOST / 2) else {
        return;
    };
    let Ok(()) = pages.insert(page + 1, rear) else {
        unreachable!();
    };
}
