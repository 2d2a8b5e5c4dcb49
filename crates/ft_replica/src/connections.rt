//! The connections of a client.

ghost use Rattle.std.specs.Prelude.{◌≡◌, ◌↔◌, [], ◌∷◌, ◌++◌, IsTrue, OnErr, OnOk, nat_eq};
ghost use Rattle.std.specs.List.{list_any};
ghost use Rattle.std.specs.List.Sorted.{IsNonDecreasingBy};

use ft_base::OutOfMemory;
use std::alloc::Global;
use std::marker::Model;

/// Connections in the order of their use. While their numbers rise, each is found by binary search.
#[derive(Drop)]
pub struct Connections {
    numbers: Vec<u32>,
    rise: bool,
}

impl Model for Connections {
    ghost use Rattle.std.specs.Prelude.{◌↔◌, ℕ, List, IsTrue};
    ghost use Rattle.std.specs.List.Sorted.{IsNonDecreasingBy};

    ghost Value = { List ℕ };

    ghost view = { λ a. a.numbers.items };

    ghost invariant = { λ a. IsTrue a.rise ↔ IsNonDecreasingBy (λ n. n) a.numbers.items };
}

impl Connections {
    /// None.
    pub fn new(alloc: Global) -> Connections
        ensures { result ≡ [] }
    {
        Connections {
            numbers: Vec::new(alloc),
            rise: true,
        }
    }

    /// Adds one behind the others.
    ///
    /// Returns `OutOfMemory` where there is no room for it, and then nothing changed.
    pub fn push(&mut self, conn: u32) -> Result<(), OutOfMemory>
        ensures added { OnOk result (self.new ≡ self.old ++ conn ∷ []) }
        ensures err { OnErr result (self.new ≡ self.old) }
    {
        let rise = self.rises_to(conn);
        if self.numbers.push(conn).is_err() {
            return Err(OutOfMemory);
        }
        self.rise = rise;
        Ok(())
    }

    /// Whether it is among them.
    pub fn has(&self, conn: u32) -> bool
        ensures { result ≡ list_any (nat_eq conn) self.now }
    {
        if self.rise {
            self.numbers.as_slice().binary_search(&conn).is_ok()
        } else {
            self.numbers.iter().any(|number| conn == *number)
        }
    }

    // Whether the numbers go on to rise with this one behind them.
    fn rises_to(&self, conn: u32) -> bool
        ensures { IsTrue result ↔ IsNonDecreasingBy (λ n. n) (self.now ++ conn ∷ []) }
    {
        if !self.rise {
            return false;
        }
        match self.numbers.last() {
            Some(last) => *last <= conn,
            None => true,
        }
    }
}
