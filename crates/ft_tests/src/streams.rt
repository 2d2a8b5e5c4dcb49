//! What no case of the command line shows of lines and bytes: reads that fail wherever a line stands, what a reader
//! answers once more at its end, limits of a few bytes, a line as long as an input may be, CR and NUL in a line,
//! and copies of lists of bytes.

use crate::copies::is_copied;
use ft_base::OutOfMemory;
use ft_io::{Bytes, Line, LineFault, Lines, MemSource};
use std::alloc::Global;
use std::test::Fail;

// What a reader hands out: how many whole lines, how many bytes they have, how many lines that are too long, and what it
// answers then, and once more.
type Heard = (u64, usize, u64, [u8; 2]);

// One byte for each answer.
fn mark(answer: &Result<Line, LineFault>) -> u8 {
    match answer {
        Ok(Line::Full(_)) => b'|',
        Ok(Line::TooLong) => b'^',
        Ok(Line::End) => b'.',
        Err(LineFault::Read) => b'R',
        Err(LineFault::InputLimit) => b'I',
        Err(LineFault::OutOfMemory) => b'M',
    }
}

// What the reader hands out up to its end.
fn heard(reader: &mut Lines, src: &mut MemSource) -> Heard {
    let mut lines = 0u64;
    let mut bytes = 0usize;
    let mut too_long = 0u64;
    for _ in 0..20_000_000 {
        match reader.next(src) {
            Ok(Line::Full(line)) => {
                lines = lines.saturating_add(1);
                bytes = bytes.saturating_add(line.len());
            }
            Ok(Line::TooLong) => too_long = too_long.saturating_add(1),
            end => return (
                lines,
                bytes,
                too_long,
                [mark(&end), mark(&reader.next(src))],
            ),
        }
    }
    (lines, bytes, too_long, *b"??")
}

// A text, how often it stands in the input, how many bytes come at a time, which call fails, if one does, the greatest
// length of a line, and what a reader hands out.
type Row = (&'static str, usize, usize, u64, usize, Heard);

static ROWS: [Row; 35] = [
    ("ab\ncd", 1, 1, 1, 9, (0, 0, 0, *b"RR")),
    ("ab\ncd", 1, 1, 3, 9, (0, 0, 0, *b"RR")),
    ("ab\ncd", 1, 1, 4, 9, (1, 2, 0, *b"RR")),
    ("ab\ncd", 1, 1, 5, 9, (1, 2, 0, *b"RR")),
    ("ab\ncd", 1, 1, 6, 9, (1, 2, 0, *b"RR")),
    ("ab\ncd", 1, 1, 7, 9, (2, 4, 0, *b"..")),
    ("ab\ncd", 1, 2, 1, 9, (0, 0, 0, *b"RR")),
    ("ab\ncd", 1, 2, 2, 9, (0, 0, 0, *b"RR")),
    ("ab\ncd", 1, 2, 3, 9, (1, 2, 0, *b"RR")),
    ("ab\ncd", 1, 2, 4, 9, (1, 2, 0, *b"RR")),
    ("ab\ncd", 1, 2, 5, 9, (2, 4, 0, *b"..")),
    ("ab\ncd", 1, 16, 1, 9, (0, 0, 0, *b"RR")),
    ("ab\ncd", 1, 16, 2, 9, (1, 2, 0, *b"RR")),
    ("ab\ncd", 1, 16, 3, 9, (2, 4, 0, *b"..")),
    ("ab\ncd\n", 1, 1, 6, 9, (1, 2, 0, *b"RR")),
    ("ab\ncd\n", 1, 1, 7, 9, (2, 4, 0, *b"RR")),
    ("ab\ncd\n", 1, 1, 8, 9, (2, 4, 0, *b"..")),
    ("ab\ncd\n", 1, 3, 1, 9, (0, 0, 0, *b"RR")),
    ("ab\ncd\n", 1, 3, 2, 9, (1, 2, 0, *b"RR")),
    ("ab\ncd\n", 1, 3, 3, 9, (2, 4, 0, *b"RR")),
    ("ab\ncd\n", 1, 3, 4, 9, (2, 4, 0, *b"..")),
    ("", 1, 1, 0, 0, (0, 0, 0, *b"..")),
    ("\n", 1, 1, 0, 0, (1, 0, 0, *b"..")),
    ("a\n", 1, 1, 0, 0, (0, 0, 1, *b"..")),
    ("abc\n", 1, 2, 0, 3, (1, 3, 0, *b"..")),
    ("abcd\n", 1, 2, 0, 3, (0, 0, 1, *b"..")),
    ("abc", 1, 2, 0, 3, (1, 3, 0, *b"..")),
    ("abcd", 1, 2, 0, 3, (0, 0, 1, *b"..")),
    ("abcdefgh\nx\n\ny", 1, 1, 0, 3, (3, 2, 1, *b"..")),
    ("abcdefgh\nx\n\ny", 1, 2, 0, 3, (3, 2, 1, *b"..")),
    ("abcdefgh\nx\n\ny", 1, 16, 0, 3, (3, 2, 1, *b"..")),
    ("abcdefgh\nx\n\ny", 1, 65_536, 0, 3, (3, 2, 1, *b"..")),
    ("a\r\n\0\n", 1, 1, 0, 9, (2, 3, 0, *b"..")),
    ("a\r\n\0\n", 1, 65_536, 0, 9, (2, 3, 0, *b"..")),
    (
        "0123456789abcdef",
        1_048_576,
        65_536,
        0,
        20_000_000,
        (1, 16_777_216, 0, *b".."),
    ),
];

// The text so many times.
fn repeated(alloc: Global, text: &str, times: usize) -> Result<Vec<u8>, OutOfMemory> {
    let mut bytes = Vec::new(alloc);
    for _ in 0..times {
        bytes.extend_from_slice(text.as_bytes())?;
    }
    Ok(bytes)
}

// A source over these bytes that fails at this call.
fn source(
    alloc: Global,
    bytes: Vec<u8>,
    piece: usize,
    call: u64,
) -> Result<MemSource, OutOfMemory> {
    let fails = vec![in alloc; call]?;
    Ok(MemSource::new(alloc, bytes, piece.max(1), fails))
}

// What a reader hands out of the source.
fn heard_of(alloc: Global, src: &mut MemSource, limit: usize) -> Result<Heard, OutOfMemory> {
    let mut reader = Lines::new(alloc, limit)?;
    Ok(heard(&mut reader, src))
}

// Whether a reader hands out of the input of a row what it should.
fn is_heard(alloc: Global, row: &Row) -> Result<bool, OutOfMemory> {
    let (text, times, piece, call, limit, want) = *row;
    let mut src = source(alloc, repeated(alloc, text, times)?, piece, call)?;
    Ok(heard_of(alloc, &mut src, limit)? == want)
}

#[test]
fn a_source_may_come_in_any_pieces_and_fail_at_any_call(rt: HostRuntime) -> Result<(), Fail> {
    for row in &ROWS {
        assert!(rt;
            is_heard(rt.alloc(), row)?,
            "{:?} by {}, call {}",
            row.0,
            row.2,
            row.3
        );
    }
    Ok(())
}

// The bytes 7 and 8.
fn two_bytes(alloc: Global) -> Result<Bytes, OutOfMemory> {
    let mut bytes = Bytes::new(alloc);
    bytes.push(7)?;
    bytes.push(8)?;
    Ok(bytes)
}

// Whether the list has two bytes, and a copy of it too.
fn are_copied(alloc: Global) -> Result<bool, OutOfMemory> {
    let bytes = two_bytes(alloc)?;
    Ok(is_copied(&bytes)? && bytes.as_slice() == [7, 8].as_slice())
}

#[test]
fn bytes_are_a_list(rt: HostRuntime) -> Result<(), Fail> {
    assert!(rt; are_copied(rt.alloc())?);
    Ok(())
}
