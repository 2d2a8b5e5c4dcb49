//! Tables of answers by the names of elements. One pass over a list fills one, from its last element to its first, so that
//! of two elements with one name the first counts.

ghost use Rattle.std.specs.Prelude.{◌≡◌, Some, None, true, false, IfOk, OnOk, cond, option_map, replicate, slice_set};
ghost use Rattle.std.specs.List.{list_any};
ghost use Rattle.ft_base.specs.Scan.{len, rank, settled};
ghost use Rattle.ft_base.specs.Visibility.{is_acked};
ghost use Rattle.ft_props.specs.Element.{has_id, has_sequenced_removal, id};
ghost use Rattle.ft_plain_lists.specs.NameTables.{HasAnswers, Notes, last_seen, noted_at};
ghost use Rattle.ft_plain_lists.specs.Names.{sequenced_number};

use crate::element_tests::ElementTest;
use crate::elements::PlainElement;
use crate::names::ElementName;
use crate::scans::seen_count;
use ft_base::OutOfMemory;
use ft_base::moved::push;
use std::alloc::Global;
use std::collections::BTreeMap;

/// Values by the names of elements: those of the sequenced ones by their numbers, and of the pending ones that were asked for.
#[derive(Drop)]
pub struct NameTable<V: Copy + Drop> {
    numbers: Vec<V>,
    pending: BTreeMap<ElementName, V>,
}

impl<V: Copy + Drop> NameTable<V> {
    /// The same value for each sequenced element of the list.
    pub fn new(alloc: Global, items: &[PlainElement], value: V) -> Result<NameTable<V>, OutOfMemory>
        ensures { IfOk result (λ table. HasAnswers (λ x. value) table) }
    {
        Ok(NameTable {
            numbers: filled(alloc, value, table_length(items)?)?,
            pending: BTreeMap::new(alloc),
        })
    }

    /// Asks for a name too, if it is that of a pending element; so far it has the same value as all.
    pub fn ask(&mut self, name: Option<ElementName>, value: V) -> Result<(), OutOfMemory>
        requires { HasAnswers (λ x. value) self.old }
        ensures { OnOk result (HasAnswers (λ x. value) self.new) }
    {
        match name {
            Some(name) => self.ask_name(name, value),
            None => Ok(()),
        }
    }

    // The same for a name.
    fn ask_name(&mut self, name: ElementName, value: V) -> Result<(), OutOfMemory>
        requires { HasAnswers (λ x. value) self.old }
        ensures { OnOk result (HasAnswers (λ x. value) self.new) }
    {
        if name.sequenced_number().is_none() {
            self.pending.insert(name, value)?;
        }
        Ok(())
    }

    // Notes the value for the name, if the table reaches to it.
    fn note(&mut self, name: ElementName, value: &V)
        ensures { Notes name value.now self.old self.new }
    {
        match name.sequenced_number() {
            Some(n) => put_in(&mut self.numbers, n as usize, *value),
            None => self.note_pending(name, *value),
        }
    }

    // The same for the name of a pending element.
    fn note_pending(&mut self, name: ElementName, value: V)
        requires { sequenced_number name ≡ None }
        ensures { Notes name value self.old self.new }
    {
        if self.pending.contains_key(&name) {
            match self.pending.insert(name, value) {
                Ok(_) => {}
                Err(_) => unreachable!(),
            }
        }
    }

    /// What is noted for the name: None where the table doesn't reach to it.
    pub fn at(&self, name: ElementName) -> Option<V>
        ensures { result ≡ noted_at self.now name }
    {
        match name.sequenced_number() {
            Some(n) => self.numbers.get(n as usize).copied(),
            None => self.pending.get(&name).copied(),
        }
    }
}

/// Notes for each element how many seen ones stand left of it, in a table that has the number of all so far.
pub fn note_ranks<T: ElementTest>(table: &mut NameTable<u64>, items: &[PlainElement], seen: T)
    requires { HasAnswers (λ x. len (T.test seen) items.now) table.old }
    ensures { HasAnswers (λ x. rank (has_id x) (T.test seen) items.now) table.new }
{
    let mut left = seen_count(items, seen) as u64;
    let mut i = items.len();
    while i > 0 {
        i -= 1;
        let e = &items[i];
        if seen.passes(e) {
            left -= 1;
        }
        table.note(e.name(), &left);
    }
}

/// Notes for each element to which one an end on it goes: itself if it is seen, else the next one that is, else the last
/// one before it, else none. The table has None for all so far.
pub fn note_settled<T: ElementTest>(
    table: &mut NameTable<Option<ElementName>>,
    items: &[PlainElement],
    seen: T,
)
    requires { HasAnswers (λ x. None) table.old }
    ensures { HasAnswers (λ x. option_map id (settled (has_id x) (T.test seen) items.now)) table.new }
{
    let mut next = last_seen(items, seen);
    let mut i = items.len();
    while i > 0 {
        i -= 1;
        let e = &items[i];
        next = next_from(e, seen, next);
        table.note(e.name(), &next);
    }
}

// The element itself if it is seen, else the next one.
fn next_from<T: ElementTest>(
    e: &PlainElement,
    seen: T,
    next: Option<ElementName>,
) -> Option<ElementName>
    ensures { result ≡ cond (T.test seen e.now) (Some (id e.now)) next }
{
    if seen.passes(e) { Some(e.name()) } else { next }
}

/// Notes for each element whether a removal of it is sequenced, in a table that denies it of all so far.
pub fn note_removals(table: &mut NameTable<bool>, items: &[PlainElement])
    requires { HasAnswers (λ x. false) table.old }
    ensures { HasAnswers (has_sequenced_removal items.now) table.new }
{
    let mut i = items.len();
    while i > 0 {
        i -= 1;
        note_removal(table, &items[i]);
    }
}

// Notes that a removal of the element is sequenced, if one is.
fn note_removal(table: &mut NameTable<bool>, e: &PlainElement)
    ensures removed { list_any is_acked e.now.dels ≡ true → Notes (id e.now) true table.old table.new }
    ensures other { list_any is_acked e.now.dels ≡ false → table.new ≡ table.old }
{
    if e.is_removed() {
        table.note(e.name(), &true);
    }
}

// The last element that is seen.
fn last_seen<T: ElementTest>(items: &[PlainElement], seen: T) -> Option<ElementName>
    ensures { result ≡ option_map id (last_seen (T.test seen) items.now) }
{
    let mut last = None;
    for e in items {
        if seen.passes(e) {
            last = Some(e.name());
        }
    }
    last
}

// How long a table is that reaches to each sequenced element.
//
// Returns `OutOfMemory` where that would pass 2^64 - 1.
fn table_length(items: &[PlainElement]) -> Result<usize, OutOfMemory> {
    let mut length: u64 = 0;
    for e in items {
        if let Some(n) = e.name().sequenced_number() {
            length = length.max(n.checked_add(1).ok_or(OutOfMemory)?);
        }
    }
    Ok(length as usize)
}

// A table of so many equal values.
fn filled<V: Copy + Drop>(alloc: Global, value: V, count: usize) -> Result<Vec<V>, OutOfMemory>
    ensures { IfOk result (λ table. table.items ≡ replicate count value) }
{
    let mut table = Vec::with_capacity(alloc, count)?;
    for _i in 0..count {
        push(&mut table, value)?;
    }
    Ok(table)
}

// Puts the value at place `i`, if the table reaches to it.
fn put_in<V: Copy + Drop>(table: &mut Vec<V>, i: usize, value: V)
    ensures { table.new.items ≡ slice_set table.old.items i value }
{
    if i < table.len() {
        table[i] = value;
    }
}
