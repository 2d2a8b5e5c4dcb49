//! An item of the index, and where its ends stand.

ghost use Rattle.std.specs.Prelude.{◌≡◌, ℕ, ℤ, int_lt};

/// An item: its key, and the numbers of its two ends.
#[derive(Clone, Copy, Debug, PartialEq, Eq)]
pub struct Item {
    /// The key, which no other item of an index has.
    pub key: u64,
    /// The number of the end at which it starts.
    pub start: u64,
    /// The number of the end at which it ends.
    pub end: u64,
}

// What a block keeps of the items below it.
#[derive(Clone, Copy, PartialEq, Eq)]
pub(crate) struct Span {
    // The number of the end at which the first of them starts.
    pub(crate) start: u64,
    // The one that ends last.
    pub(crate) last: Item,
}

/// Where ends stand: for each end that it knows, a number, its place.
pub trait Places {
    ghost end_place: { Self → ℕ → ℤ };

    ghost Knows: { Self → ℕ → Type 0 } = { λ _ _. Unit {0} };

    /// The place of an end that it knows.
    fn place(&self, end: u64) -> i64
        requires { Knows self.now end }
        ensures { result ≡ end_place self.now end };

    /// Whether the place of the first end is below that of the second. It knows both ends.
    fn is_before(&self, x: u64, y: u64) -> bool
        requires first { Knows self.now x }
        requires second { Knows self.now y }
        ensures { result ≡ int_lt (end_place self.now x) (end_place self.now y) };
}
