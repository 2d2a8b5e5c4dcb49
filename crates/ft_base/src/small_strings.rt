//! Strings of which a few bytes stand in place.

ghost use Rattle.std.specs.Prelude.{◌≡◌, IfOk, string_bytes};
ghost use Rattle.ft_base.specs.SmallStrings.{bytes_of};

use crate::lists::Datum;
use crate::memory::OutOfMemory;
use arrayvec::ArrayString;
use std::alloc::Global;
use std::marker::Model;

/// How many bytes stand in place.
const IN_PLACE: usize = 16;

/// A string: up to 16 bytes in place, more in memory of their own. Most names, keys and values take no memory
/// so. Contracts see its bytes.
#[derive(Drop)]
pub struct SmallString {
    storage: Storage,
    alloc: Global,
}

// The bytes, where they stand.
#[derive(Drop)]
enum Storage {
    Few(ArrayString<IN_PLACE>),
    Many(String),
}

impl Model for SmallString {
    ghost use Rattle.std.specs.Prelude.{List, ℕ};
    ghost use Rattle.ft_base.specs.SmallStrings.{bytes_of};

    ghost Value = { List ℕ };

    ghost view = { λ a. bytes_of a.storage };
}

impl Storage {
    // A copy of `text`.
    fn new(alloc: Global, text: &str) -> Result<Storage, OutOfMemory>
        ensures { IfOk result (λ storage. bytes_of storage ≡ text.now) }
    {
        match ArrayString::from(text) {
            Ok(few) => Ok(Storage::Few(few)),
            Err(_) => Ok(Storage::Many(String::from_str(alloc, text)?)),
        }
    }

    // The string itself, or a copy in place where it has few bytes.
    fn of(text: String) -> Storage
        ensures { bytes_of result ≡ string_bytes text }
    {
        match ArrayString::from(text.as_str()) {
            Ok(few) => Storage::Few(few),
            Err(_) => Storage::Many(text),
        }
    }

    // As a string slice.
    fn as_str(&self) -> &str
        ensures { result.now ≡ bytes_of self.now }
    {
        match self {
            Storage::Few(few) => few.as_str(),
            Storage::Many(many) => many.as_str(),
        }
    }
}

impl SmallString {
    /// A copy of `text`.
    ///
    /// Returns `OutOfMemory` where there is no room for it.
    pub fn new(alloc: Global, text: &str) -> Result<SmallString, OutOfMemory>
        ensures { IfOk result (λ copy. copy ≡ text.now) }
    {
        let storage = Storage::new(alloc, text)?;
        Ok(SmallString { storage, alloc })
    }

    /// The bytes of `text`.
    pub fn from_string(text: String) -> SmallString
        ensures { result ≡ string_bytes text }
    {
        let alloc = *text.allocator();
        SmallString {
            storage: Storage::of(text),
            alloc,
        }
    }

    /// As a string slice.
    pub fn as_str(&self) -> &str
        ensures { result.now ≡ self.now }
    {
        self.storage.as_str()
    }

    /// Where it takes its memory.
    pub fn allocator(&self) -> Global {
        self.alloc
    }
}

impl Datum for SmallString {
    fn copy(&self) -> Result<SmallString, OutOfMemory> {
        SmallString::new(self.alloc, self.as_str())
    }

    fn same(&self, other: &SmallString) -> bool {
        self.as_str() == other.as_str()
    }
}
