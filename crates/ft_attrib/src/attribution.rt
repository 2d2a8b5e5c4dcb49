//! Attribution.

ghost use Rattle.std.specs.Prelude.{◌≡◌, ◌+◌, ◌*◌, ◌-◌, ◌^◌, ◌<◌, ◌≤◌, [], ◌++◌, IfOk, OnOk, OnErr, length, slice_get, take, drop, replicate};
ghost use Rattle.ft_attrib.specs.Runs.{how_many, origin_runs, same_origin};
ghost use Rattle.ft_attrib.specs.Totals.{AreTotals, totals};

use crate::pieces::{OriginPiece, origin_at, push_piece, runs_within, share, totals_of};
use ft_base::{Datum, OutOfMemory, Steps};
use std::alloc::Global;
use std::marker::Model;
use std::sync::ledger::Ledger;

/// Who inserted an element of the text.
#[derive(Clone, Copy, Debug, PartialEq, Eq)]
pub enum Origin {
    /// The message with this sequence number, by the connection with this number.
    Known { seq: u64, conn: u32 },
    /// Somebody, of whom nothing was kept.
    Unknown,
    /// This client itself, in an edit that isn't sequenced yet.
    Pending,
}

impl Datum for Origin {
    fn copy(&self) -> Result<Origin, OutOfMemory> {
        Ok(*self)
    }

    fn same(&self, other: &Origin) -> bool {
        self == other
    }
}

/// Characters beside one another that have one origin.
#[derive(Clone, Copy, Debug, PartialEq, Eq)]
pub struct AttrRun {
    /// How many characters stand before the first of them.
    pub start: u64,
    /// How many characters stand before what follows them.
    pub end: u64,
    /// Their origin.
    pub who: Origin,
}

impl Datum for AttrRun {
    fn copy(&self) -> Result<AttrRun, OutOfMemory> {
        Ok(*self)
    }

    fn same(&self, other: &AttrRun) -> bool {
        self == other
    }
}

/// How many characters a connection inserted.
#[derive(Clone, Copy, Debug, PartialEq, Eq)]
pub struct Total {
    /// The number of the connection.
    pub conn: u32,
    /// How many characters it inserted.
    pub count: u64,
}

impl Datum for Total {
    fn copy(&self) -> Result<Total, OutOfMemory> {
        Ok(*self)
    }

    fn same(&self, other: &Total) -> bool {
        self == other
    }
}

/// Who inserted each character of a text, which contracts see as the list of the origins. It keeps
/// one piece for each maximal run of equal origins.
#[derive(Drop)]
pub struct Attribution {
    pieces: Vec<OriginPiece>,
    len: u64,
    unknown: u64,
    pending: u64,
}

impl Model for Attribution {
    ghost use Rattle.std.specs.Prelude.{◌≡◌, ◌^◌, ◌<◌, List, length};
    ghost use Rattle.ft_attrib.specs.declared.attribution.Origin.{Origin};
    ghost use Rattle.ft_attrib.specs.declared.attribution.Origin.TheVariants.{Unknown, Pending};

    ghost Value = { List Origin };

    ghost use Rattle.ft_attrib.specs.Runs.{how_many, same_origin};
    ghost use Rattle.ft_attrib.specs.Pieces.{IsCut, spread};

    ghost view = { λ a. spread 0 a.pieces.items };

    ghost invariant = { λ a.
        IsCut 0 a.pieces.items
        × (a.len ≡ length (spread 0 a.pieces.items))
        × (a.len < 2 ^ 53)
        × (a.unknown ≡ how_many (same_origin Unknown) (spread 0 a.pieces.items))
        × (a.pending ≡ how_many (same_origin Pending) (spread 0 a.pieces.items)) };
}

impl Attribution {
    /// No characters.
    pub fn new(alloc: Global) -> Attribution
        ensures { result ≡ [] }
    {
        Attribution {
            pieces: Vec::new(alloc),
            len: 0,
            unknown: 0,
            pending: 0,
        }
    }

    /// Adds `len` characters of one origin at the end: at least one, and at most 2^53 - 1 in all.
    ///
    /// Returns `OutOfMemory` where there is no room for one more piece, and then it is as it was.
    pub fn push(&mut self, len: u64, who: Origin) -> Result<(), OutOfMemory>
        requires some { 1 ≤ len }
        requires few { length self.old + len < 2 ^ 53 }
        ensures ok { OnOk result (self.new ≡ self.old ++ replicate len who) }
        ensures err { OnErr result (self.new ≡ self.old) }
    {
        let end = self.len + len;
        push_piece(&mut self.pieces, end, who)?;
        self.len = end;
        self.unknown += share(Origin::Unknown, who, len);
        self.pending += share(Origin::Pending, who, len);
        Ok(())
    }

    /// How many characters there are.
    pub fn len(&self) -> u64
        ensures len { result ≡ length self.now }
        ensures fits { result < 2 ^ 53 }
    {
        self.len
    }

    /// How many characters are of unknown origin.
    pub fn unknown(&self) -> u64
        ensures { result ≡ how_many (same_origin Origin.Unknown) self.now }
    {
        self.unknown
    }

    /// How many characters are pending.
    pub fn pending(&self) -> u64
        ensures { result ≡ how_many (same_origin Origin.Pending) self.now }
    {
        self.pending
    }

    /// The origin of the character that has `p` characters before it: None exactly where there is
    /// no such character. Each step reads one piece.
    pub fn at<G: Ledger>(&self, p: u64, steps: &mut Steps<G>) -> Option<Origin>
        ensures origin { result ≡ slice_get self.now p }
        ensures counts { steps.old ≤ steps.new }
        ensures cost { 2 ^ (steps.new - steps.old) ≤ 2 * length (origin_runs 0 self.now) + 1 }
    {
        origin_at(self.pieces.as_slice(), p, steps)
    }

    /// The maximal runs among the characters from the `p`-th up to before the `q`-th, counted from
    /// 0, as far as there are any. Their ends are counted in the whole list.
    pub fn runs(&self, p: u64, q: u64) -> Result<Vec<AttrRun>, OutOfMemory>
        ensures { IfOk result (λ runs. runs.items ≡ origin_runs p (take (q - p) (drop p self.now))) }
    {
        runs_within(*self.pieces.allocator(), self.pieces.as_slice(), p, q)
    }

    /// How many characters each connection inserted, by rising connection, those that inserted none
    /// left out.
    pub fn totals(&self) -> Result<Vec<Total>, OutOfMemory>
        ensures totals { IfOk result (λ v. v.items ≡ totals self.now) }
        ensures counts { IfOk result (λ v. AreTotals self.now v.items) }
    {
        totals_of(*self.pieces.allocator(), self.pieces.as_slice())
    }
}
