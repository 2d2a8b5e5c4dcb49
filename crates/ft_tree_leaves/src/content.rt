//! What the leaves of a tree hold.

ghost use Rattle.std.specs.Prelude.{◌≡◌, ℕ, ◌<◌, ◌≤◌, ◌++◌, Bool, List, Option, IsTrue, IfOk, IfErr, OnOk, OnErr, length, take, drop};
ghost use Rattle.ft_base.specs.declared.stamps.Stamp.{Stamp};

use ft_base::OutOfMemory;

/// The content of a leaf: a run of at least one element.
pub trait Content: Sized {
    /// What one element is.
    type Unit;

    ghost units: { Self → List Self.Unit };

    ghost by: { Self → Option Stamp };

    ghost author: { ℕ → ℕ → Option Stamp };

    ghost front: { Self → ℕ → Self };

    ghost rear: { Self → ℕ → Self };

    ghost joins: { Self → Self → Bool };

    ghost joined: { Self → Self → Self };

    ghost stamped: { Self → ℕ → ℕ → Self };

    /// How many elements it holds, at least one.
    fn len(&self) -> u64
        ensures value { result ≡ length (units self.now) }
        ensures some { 1 ≤ result };

    /// Keeps the first `at` elements and returns the rest.
    ///
    /// Returns `OutOfMemory` where there is no room for the rest, and then the content is as it was.
    fn split(&mut self, at: u64) -> Result<Self, OutOfMemory>
        requires low { 1 ≤ at }
        requires high { at < length (units self.old) }
        ensures front { OnOk result (self.new ≡ front self.old at) }
        ensures rear { IfOk result (λ rest. rest ≡ rear self.old at) }
        ensures err { OnErr result (self.new ≡ self.old) };

    /// Whether the other content may be joined to the end of this one.
    fn can_join(&self, other: &Self) -> bool
        ensures { result ≡ joins self.now other.now };

    /// Adds the other content's elements at the end.
    ///
    /// Gives the other content back only where it is out of memory, and then this one is as it was.
    fn join(&mut self, other: Self) -> Result<(), Self>
        requires { IsTrue (joins self.old other) }
        ensures ok { OnOk result (self.new ≡ joined self.old other) }
        ensures back { IfErr result (λ back. back ≡ other) }
        ensures err { OnErr result (self.new ≡ self.old) };

    /// Takes note that the insertion was sequenced under number `seq` of connection `conn`.
    fn stamped(&mut self, seq: u64, conn: u32)
        ensures { self.new ≡ stamped self.old seq conn };

    ghost front_units: { (x : Self) (at : ℕ) → 1 ≤ at → at < length (units x) → units (front x at) ≡ take at (units x) };

    ghost front_by: { (x : Self) (at : ℕ) → 1 ≤ at → at < length (units x) → by (front x at) ≡ by x };

    ghost rear_units: { (x : Self) (at : ℕ) → 1 ≤ at → at < length (units x) → units (rear x at) ≡ drop at (units x) };

    ghost rear_by: { (x : Self) (at : ℕ) → 1 ≤ at → at < length (units x) → by (rear x at) ≡ by x };

    ghost joined_units: { (x y : Self) → IsTrue (joins x y) → units (joined x y) ≡ units x ++ units y };

    ghost joined_by: { (x y : Self) → IsTrue (joins x y) → by (joined x y) ≡ by x };

    ghost joins_by: { (x y : Self) → IsTrue (joins x y) → by y ≡ by x };

    ghost stamped_units: { (x : Self) (s c : ℕ) → units (stamped x s c) ≡ units x };

    ghost stamped_by: { (x : Self) (s c : ℕ) → by (stamped x s c) ≡ author s c };
}
