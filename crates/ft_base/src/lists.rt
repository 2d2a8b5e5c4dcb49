//! Lists of values that can be copied and compared.

ghost use Rattle.std.specs.Prelude.{◌≡◌, ◌↔◌, [], ◌∷◌, ◌++◌, ◌≤◌, IsTrue, IfOk, OnOk, OnErr, drop, length, slice_get, option_copied, take};

use crate::memory::OutOfMemory;
use std::alloc::Global;
use std::marker::Model;

/// A value that can be copied and compared.
pub trait Datum: Sized + Drop {
    /// An equal value.
    fn copy(&self) -> Result<Self, OutOfMemory>
        ensures { IfOk result (λ copy. copy ≡ self.now) };

    /// Whether both values are equal.
    fn same(&self, other: &Self) -> bool
        ensures { IsTrue result ↔ (self.now ≡ other.now) };
}

impl<T: Datum> Datum for Option<T> {
    fn copy(&self) -> Result<Option<T>, OutOfMemory> {
        match self {
            Some(value) => Ok(Some(value.copy()?)),
            None => Ok(None),
        }
    }

    fn same(&self, other: &Option<T>) -> bool {
        match (self, other) {
            (Some(mine), Some(theirs)) => mine.same(theirs),
            (None, None) => true,
            _ => false,
        }
    }
}

/// A list, which contracts see as the list of what its items are seen as.
#[derive(Drop)]
pub struct List<T> {
    items: Vec<T>,
}

impl<T> Model for List<T> {
    ghost use Rattle.std.specs.Prelude.{List};

    ghost Value = { List T };

    ghost view = { λ a. a.items.items };
}

impl<T: Drop> List<T> {
    /// No items.
    pub fn new(alloc: Global) -> List<T>
        ensures { result ≡ [] }
    {
        List {
            items: Vec::new(alloc),
        }
    }

    /// These items.
    pub fn of(items: Vec<T>) -> List<T>
        ensures { result ≡ items.items }
    {
        List { items }
    }

    /// Adds an item at the end.
    ///
    /// Returns `OutOfMemory` where there is no room for it, and then the list is as it was.
    pub fn push(&mut self, item: T) -> Result<(), OutOfMemory>
        ensures ok { OnOk result (self.new ≡ self.old ++ item ∷ []) }
        ensures err { OnErr result (self.new ≡ self.old) }
    {
        self.items.push(item)?;
        Ok(())
    }

    /// Adds all of another list behind these.
    ///
    /// Returns `OutOfMemory` where there is no room for them, and then the list is as it was.
    pub fn append(&mut self, mut more: List<T>) -> Result<(), OutOfMemory>
        ensures ok { OnOk result (self.new ≡ self.old ++ more) }
        ensures err { OnErr result (self.new ≡ self.old) }
    {
        self.items.append(&mut more.items)?;
        Ok(())
    }

    /// Takes all but the first `count` off.
    ///
    /// Returns `OutOfMemory` where there is no room for them, and then the list is as it was.
    pub fn split_off(&mut self, count: usize) -> Result<List<T>, OutOfMemory>
        requires { count ≤ length self.old }
        ensures first { OnOk result (self.new ≡ take count self.old) }
        ensures rest { IfOk result (λ rest. rest ≡ drop count self.old) }
        ensures err { OnErr result (self.new ≡ self.old) }
    {
        Ok(List {
            items: self.items.split_off(count)?,
        })
    }

    /// How many items there are.
    pub fn len(&self) -> usize
        ensures { result ≡ length self.now }
    {
        self.items.len()
    }

    /// Whether there are none.
    pub fn is_empty(&self) -> bool
        ensures { IsTrue result ↔ (self.now ≡ []) }
    {
        self.items.is_empty()
    }

    /// The item at place `i`, counted from 0: None exactly where `i` isn't below the length.
    pub fn at(&self, i: usize) -> Option<&T>
        ensures { option_copied result ≡ slice_get self.now i }
    {
        self.items.get(i)
    }

    /// The items in order.
    pub fn as_slice(&self) -> &[T]
        ensures { result.now ≡ self.now }
    {
        self.items.as_slice()
    }

    /// The items themselves.
    pub fn into_items(self) -> Vec<T>
        ensures { result.items ≡ self }
    {
        self.items
    }

    /// Where the list takes its memory.
    pub fn allocator(&self) -> Global {
        *self.items.allocator()
    }
}

impl<T: Datum> Datum for List<T> {
    fn copy(&self) -> Result<List<T>, OutOfMemory> {
        let mut items = Vec::with_capacity(*self.items.allocator(), self.items.len())?;
        for item in &self.items {
            items.push(item.copy()?)?;
        }
        Ok(List { items })
    }

    fn same(&self, other: &List<T>) -> bool {
        if self.items.len() != other.items.len() {
            return false;
        }
        for (mine, theirs) in self.items.iter().zip(&other.items) {
            if !mine.same(theirs) {
                return false;
            }
        }
        true
    }
}
