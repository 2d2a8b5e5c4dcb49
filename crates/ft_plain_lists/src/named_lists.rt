//! Lists of values by the names of the elements that they belong to.

ghost use Rattle.std.specs.Prelude.{◌≡◌, ◌++◌, [], ◌∷◌, OnOk, cond};
ghost use Rattle.ft_props.specs.Element.{ElementId, same_id};
ghost use Rattle.ft_plain_lists.specs.NamedLists.{listed};

use crate::names::ElementName;
use ft_base::OutOfMemory;
use std::alloc::Global;
use std::collections::BTreeMap;

/// For each name the values that were added under it, in that order.
#[derive(Drop)]
pub struct NamedLists<V: Copy + Drop> {
    alloc: Global,
    lists: BTreeMap<ElementName, Vec<V>>,
}

impl<V: Copy + Drop> NamedLists<V> {
    /// No values.
    pub fn new(alloc: Global) -> NamedLists<V>
        ensures { (x : ElementId) → listed x result.lists ≡ [] }
    {
        NamedLists {
            alloc,
            lists: BTreeMap::new(alloc),
        }
    }

    /// Adds the value behind those of that name.
    pub fn add(&mut self, name: ElementName, value: V) -> Result<(), OutOfMemory>
        ensures { OnOk result ((x : ElementId) → listed x self.new.lists ≡ listed x self.old.lists ++ cond (same_id x name) (value ∷ []) []) }
    {
        let list = self.lists.entry(name)?.or_insert(Vec::new(self.alloc));
        list.push(value)?;
        Ok(())
    }

    /// The values of that name.
    pub fn of(&self, name: ElementName) -> &[V]
        ensures { result.now ≡ listed name self.now.lists }
    {
        match self.lists.get(&name) {
            Some(list) => list.as_slice(),
            None => &[],
        }
    }
}
