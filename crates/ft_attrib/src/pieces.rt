//! A list of origins as its maximal pieces, each with its end.

ghost use Rattle.std.specs.Prelude.{◌≡◌, ◌+◌, ◌*◌, ◌-◌, ◌^◌, ◌<◌, ◌≤◌, IfOk, OnOk, OnErr, length, slice_get, take, drop, replicate};
ghost use Rattle.ft_attrib.specs.Runs.{how_many, origin_runs, same_origin};
ghost use Rattle.ft_attrib.specs.Totals.{with_count, with_origin, place_of_total, summed, totals};
ghost use Rattle.ft_attrib.specs.Pieces.{AddsCharacters, IsCut, IsPieceAt, IsRestFrom, clipped, spread};

use crate::attribution::{AttrRun, Origin, Total};
use ft_base::{OutOfMemory, Steps};
use std::alloc::Global;
use std::sync::ledger::Ledger;

/// Characters of one origin, from where the piece before ends up to before `end`.
#[derive(Clone, Copy)]
pub struct OriginPiece {
    /// How many characters stand before what follows the piece.
    pub end: u64,
    /// Their origin.
    pub who: Origin,
}

/// Adds characters of one origin at the end, so that there are `end` in all.
pub fn push_piece(pieces: &mut Vec<OriginPiece>, end: u64, who: Origin) -> Result<(), OutOfMemory>
    requires cut { IsCut 0 pieces.old.items }
    requires more { length (spread 0 pieces.old.items) < end }
    ensures ok { OnOk result (AddsCharacters pieces.old.items pieces.new.items end who) }
    ensures err { OnErr result (pieces.new.items ≡ pieces.old.items) }
{
    let n = pieces.len();
    if n > 0 && pieces[n - 1].who == who {
        pieces[n - 1] = OriginPiece { end, who };
        return Ok(());
    }
    pieces.push(OriginPiece { end, who })?;
    Ok(())
}

/// How many of `len` characters of the origin `who` are of the origin `of`.
pub fn share(of: Origin, who: Origin, len: u64) -> u64
    ensures { result ≡ how_many (same_origin of) (replicate len who) }
{
    if of == who { len } else { 0 }
}

// Reads the piece at place `i`, in one step.
fn read<G: Ledger>(pieces: &[OriginPiece], i: usize, steps: &mut Steps<G>) -> OriginPiece
    requires { i < length pieces.now }
    ensures piece { IsPieceAt pieces.now i result }
    ensures tick { steps.new ≡ steps.old + 1 }
{
    steps.tick();
    pieces[i]
}

/// The origin of the character that has `p` characters before it, by binary search.
pub fn origin_at<G: Ledger>(pieces: &[OriginPiece], p: u64, steps: &mut Steps<G>) -> Option<Origin>
    requires { IsCut 0 pieces.now }
    ensures origin { result ≡ slice_get (spread 0 pieces.now) p }
    ensures counts { steps.old ≤ steps.new }
    ensures cost { 2 ^ (steps.new - steps.old) ≤ 2 * length pieces.now + 1 }
{
    let mut found = None;
    let mut low = 0;
    let mut high = pieces.len();
    while low < high {
        let middle = low + (high - low) / 2;
        let piece = read(pieces, middle, steps);
        if p < piece.end {
            found = Some(piece.who);
            high = middle;
        } else {
            low = middle + 1;
        }
    }
    found
}

// How many pieces end at or before `p`, by binary search.
fn count_up_to(pieces: &[OriginPiece], p: u64) -> usize
    requires { IsCut 0 pieces.now }
    ensures inside { result ≤ length pieces.now }
    ensures goes_on { IsRestFrom p (drop result pieces.now) pieces.now }
{
    let mut low = 0;
    let mut high = pieces.len();
    while low < high {
        let half_way = low + (high - low) / 2;
        if pieces[half_way].end <= p {
            low = half_way + 1;
        } else {
            high = half_way;
        }
    }
    low
}

// The runs of the pieces up to before `q`, the first of which begins at `p`.
fn runs_before(
    alloc: Global,
    pieces: &[OriginPiece],
    p: u64,
    q: u64,
) -> Result<Vec<AttrRun>, OutOfMemory>
    ensures { IfOk result (λ runs. runs.items ≡ clipped q p pieces.now) }
{
    let mut runs = Vec::new(alloc);
    let mut start = p;
    for piece in pieces {
        if q <= start {
            return Ok(runs);
        }
        runs.push(AttrRun {
            start,
            end: piece.end.min(q),
            who: piece.who,
        })?;
        start = piece.end;
    }
    Ok(runs)
}

/// The runs from `p` up to before `q`.
pub fn runs_within(
    alloc: Global,
    pieces: &[OriginPiece],
    p: u64,
    q: u64,
) -> Result<Vec<AttrRun>, OutOfMemory>
    requires { IsCut 0 pieces.now }
    ensures { IfOk result (λ runs. runs.items ≡ origin_runs p (take (q - p) (drop p (spread 0 pieces.now)))) }
{
    let first = count_up_to(pieces, p);
    runs_before(alloc, &pieces[first..], p, q)
}

// The place of the connection's total, or where it would stand.
fn total_place(totals: &[Total], conn: u32) -> usize
    ensures place { result ≡ place_of_total conn totals.now }
    ensures inside { result ≤ length totals.now }
{
    for (i, total) in totals.iter().enumerate() {
        if conn <= total.conn {
            return i;
        }
    }
    totals.len()
}

// Counts `count` more characters of the connection.
fn add_count(totals: &mut Vec<Total>, conn: u32, count: u64) -> Result<(), OutOfMemory>
    requires { summed totals.old.items + count < 2 ^ 53 }
    ensures { OnOk result (totals.new.items ≡ with_count conn count totals.old.items) }
{
    let i = total_place(totals.as_slice(), conn);
    if i < totals.len() && totals[i].conn == conn {
        let sum = totals[i].count + count;
        totals[i] = Total { conn, count: sum };
        return Ok(());
    }
    totals.insert(i, Total { conn, count })?;
    Ok(())
}

// Counts `count` more characters of the origin, if its connection is known.
fn add_origin(totals: &mut Vec<Total>, who: Origin, count: u64) -> Result<(), OutOfMemory>
    requires { summed totals.old.items + count < 2 ^ 53 }
    ensures { OnOk result (totals.new.items ≡ with_origin who count totals.old.items) }
{
    match who {
        Origin::Known { conn, .. } => add_count(totals, conn, count),
        Origin::Unknown | Origin::Pending => Ok(()),
    }
}

/// How many characters each connection inserted.
pub fn totals_of(alloc: Global, pieces: &[OriginPiece]) -> Result<Vec<Total>, OutOfMemory>
    requires cut { IsCut 0 pieces.now }
    requires few { length (spread 0 pieces.now) < 2 ^ 53 }
    ensures { IfOk result (λ v. v.items ≡ totals (spread 0 pieces.now)) }
{
    let mut totals = Vec::new(alloc);
    let mut start = 0;
    for piece in pieces {
        add_origin(&mut totals, piece.who, piece.end - start)?;
        start = piece.end;
    }
    Ok(totals)
}
