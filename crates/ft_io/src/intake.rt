//! A line is put together from the pieces of an input.

ghost use Rattle.std.specs.Prelude.{◌≡◌, ℕ, ◌+◌, ◌<◌, ◌≤◌, true, false, None, List, [], ◌++◌, length, IfOk, OnOk, OnErr, IsErrOf};
ghost use Rattle.std.specs.Result.{result_err};
ghost use Rattle.std.specs.Io.KnownBytes.{Consumes, IsAtEnd, Keeps};
ghost use Rattle.ft_io.specs.Streams.{Rose};
ghost use Rattle.ft_io.specs.Reader.{handed_out, input_limit, Call};
ghost use Rattle.ft_io.specs.LineParts.{CutsLine, answer_at_end};

use crate::byte_lists::Bytes;
use crate::pieces::InputPiece;
use crate::reader::{Line, LineFault};
use crate::streams::Source;
use ft_base::OutOfMemory;
use memchr::memchr;
use std::alloc::Global;

/// The greatest length of an input.
pub const INPUT_LIMIT: usize = 1 << 24;

/// What a piece has of a line.
#[derive(Drop)]
pub enum Part {
    /// The last of it, and its LF: this is the line.
    Last(Line),
    /// More of it, and no LF: this is the line so far.
    More(Line),
}

/// An input: the piece that was read last, how many bytes the source gave, and whether it has said
/// that it is at its end.
#[derive(Drop)]
pub struct Intake {
    pub piece: InputPiece,
    pub given: usize,
    pub ended: bool,
    ghost within: { given ≤ input_limit + 1 },
    ghost none_left: { ended ≡ true → piece ≡ [] },
}

impl Intake {
    ghost use Rattle.ft_io.specs.Intake.{as_reader};

    /// The next line, or the end where there is none. The source is read only while there is no LF.
    pub fn next_line<S: Source>(
        &mut self,
        alloc: Global,
        limit: usize,
        src: &mut S,
    ) -> Result<Line, LineFault>
        requires { self.old.ended ≡ false }
        ensures call { Call (as_reader self.old limit None) (as_reader self.new limit (result_err result))
            (S.remaining src.old) (S.remaining src.new) (S.faults src.old) (S.faults src.new) result }
        ensures steady { OnOk result (S.faults src.new ≡ S.faults src.old) }
        ensures kept { ¬ IsErrOf result LineFault.Read → S.faults src.new ≡ S.faults src.old }
    {
        let mut line = Line::Full(Bytes::new(alloc));
        loop {
            match cut(&mut self.piece, line, limit)? {
                Part::Last(whole) => return Ok(whole),
                Part::More(part) => line = part,
            }
            self.fill(src)?;
            if self.ended {
                return Ok(last(line));
            }
        }
    }

    // Reads the next piece in the place of this one, and takes none for the end.
    fn fill<S: Source>(&mut self, src: &mut S) -> Result<(), LineFault>
        ensures bytes { OnOk result (Consumes (S.remaining src.old) (S.remaining src.new) self.new.piece) }
        ensures given { OnOk result ((self.old.given ≤ input_limit)
            × (self.new.given ≡ self.old.given + length self.new.piece)) }
        ensures goes_on { OnOk result (self.new.ended ≡ false → self.old.given < self.new.given) }
        ensures ended { OnOk result (self.new.ended ≡ true →
            (self.new.piece ≡ []) × IsAtEnd (S.remaining src.new)) }
        ensures err { OnErr result ((self.new.given ≡ self.old.given)
            × Keeps (S.remaining src.old) (S.remaining src.new)) }
        ensures read { IsErrOf result LineFault.Read →
            Rose (S.faults src.old) (S.faults src.new) × (self.old.given ≤ input_limit) }
        ensures limit { IsErrOf result LineFault.InputLimit → input_limit < self.old.given }
        ensures memory { IsErrOf result LineFault.OutOfMemory → ⊥ }
        ensures later { S.faults src.old ≤ S.faults src.new }
        ensures steady { OnOk result (S.faults src.new ≡ S.faults src.old) }
        ensures kept { ¬ IsErrOf result LineFault.Read → S.faults src.new ≡ S.faults src.old }
    {
        if self.given > INPUT_LIMIT {
            return Err(LineFault::InputLimit);
        }
        let n = self.piece.fill(src, INPUT_LIMIT + 1 - self.given)?;
        self.given += n;
        self.ended = n == 0;
        Ok(())
    }
}

// Moves the bytes of the piece up to its first LF to the line.
fn cut(piece: &mut InputPiece, line: Line, limit: usize) -> Result<Part, OutOfMemory>
    ensures { (so_far : List ℕ) → line ≡ handed_out limit so_far
        → IfOk result (CutsLine limit so_far piece.old piece.new) }
{
    let bytes = piece.bytes();
    match memchr(b'\n', bytes) {
        Some(at) => {
            let whole = extended(line, limit, &bytes[..at])?;
            piece.advance(at + 1);
            Ok(Part::Last(whole))
        }
        None => Ok(Part::More(extended(line, limit, bytes)?)),
    }
}

// The line with these bytes at its end.
fn extended(line: Line, limit: usize, bytes: &[u8]) -> Result<Line, OutOfMemory>
    ensures { (so_far : List ℕ) → line ≡ handed_out limit so_far
        → IfOk result (λ longer. longer ≡ handed_out limit (so_far ++ bytes.now)) }
{
    if let Line::Full(mut so_far) = line {
        if so_far.len() <= limit && bytes.len() <= limit - so_far.len() {
            so_far.append(bytes)?;
            return Ok(Line::Full(so_far));
        }
    }
    Ok(Line::TooLong)
}

// What is returned where the input ends behind the line.
fn last(line: Line) -> Line
    ensures { (limit : ℕ) (so_far : List ℕ) → line ≡ handed_out limit so_far → result ≡ answer_at_end limit so_far }
{
    let is_empty = match &line {
        Line::Full(bytes) => bytes.is_empty(),
        _ => false,
    };
    if is_empty { Line::End } else { line }
}
