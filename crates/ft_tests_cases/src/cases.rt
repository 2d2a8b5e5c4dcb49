//! A case: what is run, and what it comes to.

use crate::runs::CaseRun;
use ft_base::OutOfMemory;
use ft_tests_input::{Case as ReadCase, Program, outcomes};
use std::alloc::Global;

// How many bytes an output has room for where the case doesn't say it.
const ROOM: usize = 65_536;

// How many bytes a generated session may have.
const GENERATED: usize = 1_048_576;

// How many bytes are read and written at a time in a series where the case doesn't say it.
const PIECE: usize = 65_536;

// How many bytes are read and written at a time in turn where the case doesn't say it.
static PIECES: [usize; 3] = [1, 16, PIECE];

// What differs from one run of a case to the next.
#[derive(Clone, Copy)]
enum Series {
    /// How many bytes are read and written at a time.
    Pieces,
    /// The input: each beginning of it, the shortest first.
    Cuts,
    /// Which read fails: each up to this one.
    Reads(u64),
    /// Which write fails: each up to this one.
    Writes(u64),
}

/// Cases, and what they come to, one after another.
pub struct Cases;

impl Program for Cases {
    fn output(alloc: Global, input: &[u8]) -> Option<Vec<u8>> {
        outcomes::<Case>(alloc, input)
    }
}

/// Runs of the program over memory.
#[derive(Drop)]
pub struct Case {
    words: Vec<String>,
    input: Vec<u8>,
    failing_reads: Vec<u64>,
    failing_writes: Vec<u64>,
    piece: Option<usize>,
    room: usize,
    series: Series,
    views: bool,
}

impl ReadCase for Case {
    fn new(alloc: Global) -> Case {
        Case {
            words: Vec::new(alloc),
            input: Vec::new(alloc),
            failing_reads: Vec::new(alloc),
            failing_writes: Vec::new(alloc),
            piece: None,
            room: ROOM,
            series: Series::Pieces,
            views: false,
        }
    }

    fn set(&mut self, alloc: Global, text: &[u8]) -> Option<bool> {
        let setting = str::from_utf8(text).unwrap_or("");
        let (name, rest) = setting.split_once(' ').unwrap_or((setting, ""));
        self.take_setting(alloc, name, rest).ok()
    }

    fn ends(&mut self, text: &[u8]) -> bool {
        if text == b"end-without-lf".as_slice() {
            self.input.pop();
            return true;
        }
        text == b"end".as_slice()
    }

    fn add_line(&mut self, line: &[u8]) -> Option<()> {
        self.input.extend_from_slice(line).ok()
    }

    fn push_outcome(&self, alloc: Global, output: &mut Vec<u8>) -> Option<()> {
        self.push_series(alloc, output).ok()
    }
}

impl Case {
    // Takes what stands behind the name of a setting, and returns whether there is such a setting.
    fn take_setting(&mut self, alloc: Global, name: &str, rest: &str) -> Result<bool, OutOfMemory> {
        match name {
            "words" => push_words(alloc, &mut self.words, rest)?,
            "failing-reads" => push_numbers(&mut self.failing_reads, rest)?,
            "failing-writes" => push_numbers(&mut self.failing_writes, rest)?,
            "piece" => self.piece = rest.parse().ok(),
            "room" => self.room = rest.parse().unwrap_or(ROOM),
            "repeat" => push_repeated(&mut self.input, rest)?,
            "written-by" => push_written(alloc, &mut self.input, rest)?,
            "times" => push_times(alloc, &mut self.input, rest)?,
            "views" => self.views = true,
            "each-cut" => self.series = Series::Cuts,
            "each-failing-read" => self.series = Series::Reads(rest.parse().unwrap_or(0)),
            "each-failing-write" => self.series = Series::Writes(rest.parse().unwrap_or(0)),
            _ => return Ok(false),
        }
        Ok(true)
    }

    // Adds what the runs of the case come to.
    fn push_series(&self, alloc: Global, output: &mut Vec<u8>) -> Result<(), OutOfMemory> {
        match self.series {
            Series::Pieces => self.push_pieces(alloc, output),
            Series::Cuts => self.push_cuts(alloc, output),
            Series::Reads(last) => self.push_reads(alloc, last, output),
            Series::Writes(last) => self.push_writes(alloc, last, output),
        }
    }

    // Adds what the case comes to in pieces.
    fn push_pieces(&self, alloc: Global, output: &mut Vec<u8>) -> Result<(), OutOfMemory> {
        if let Some(piece) = self.piece {
            return self.run_in(piece).push(alloc, output);
        }
        self.run_in(PIECES[0]).push(alloc, output)?;
        for piece in &PIECES[1..] {
            self.run_in(*piece).push_if_other(alloc, "", output)?;
        }
        Ok(())
    }

    // Adds what the case comes to with each beginning of its input.
    fn push_cuts(&self, alloc: Global, output: &mut Vec<u8>) -> Result<(), OutOfMemory> {
        for end in 0..=self.input.len() {
            let name = format!(in alloc; "cut {end}\n")?;
            let run = CaseRun {
                input: &self.input[..end],
                ..self.run()
            };
            run.push_if_other(alloc, name.as_str(), output)?;
        }
        Ok(())
    }

    // Adds what the case comes to with each read up to this one that fails.
    fn push_reads(
        &self,
        alloc: Global,
        last: u64,
        output: &mut Vec<u8>,
    ) -> Result<(), OutOfMemory> {
        for number in 1..=last {
            let name = format!(in alloc; "read {number}\n")?;
            let run = CaseRun {
                failing_reads: &[number],
                ..self.run()
            };
            run.push_if_other(alloc, name.as_str(), output)?;
        }
        Ok(())
    }

    // Adds what the case comes to with each write up to this one that fails.
    fn push_writes(
        &self,
        alloc: Global,
        last: u64,
        output: &mut Vec<u8>,
    ) -> Result<(), OutOfMemory> {
        for number in 1..=last {
            let name = format!(in alloc; "write {number}\n")?;
            let run = CaseRun {
                failing_writes: &[number],
                ..self.run()
            };
            run.push_if_other(alloc, name.as_str(), output)?;
        }
        Ok(())
    }

    // The run as the case says it.
    fn run(&self) -> CaseRun<'_> {
        self.run_in(self.piece.unwrap_or(PIECE))
    }

    // The same in such pieces.
    fn run_in(&self, piece: usize) -> CaseRun<'_> {
        CaseRun {
            words: &self.words,
            input: self.input.as_slice(),
            failing_reads: self.failing_reads.as_slice(),
            failing_writes: self.failing_writes.as_slice(),
            piece,
            room: self.room,
            views: self.views,
        }
    }
}

// Adds the arguments of a line.
fn push_words(alloc: Global, words: &mut Vec<String>, line: &str) -> Result<(), OutOfMemory> {
    for word in line.split_whitespace() {
        words.push(String::from_str(alloc, word)?)?;
    }
    Ok(())
}

// Adds what the arguments of a line write.
fn push_written(alloc: Global, bytes: &mut Vec<u8>, line: &str) -> Result<(), OutOfMemory> {
    let mut words = Vec::new(alloc);
    push_words(alloc, &mut words, line)?;
    let run = CaseRun {
        words: &words,
        input: &[],
        failing_reads: &[],
        failing_writes: &[],
        piece: PIECE,
        room: GENERATED,
        views: false,
    };
    run.push_written(alloc, bytes)
}

// Adds the numbers of a line; what is none is passed.
fn push_numbers(numbers: &mut Vec<u64>, line: &str) -> Result<(), OutOfMemory> {
    for word in line.split_whitespace() {
        if let Ok(number) = word.parse() {
            numbers.push(number)?;
        }
    }
    Ok(())
}

// Adds a byte so many times; the line has the byte and the count.
fn push_repeated(bytes: &mut Vec<u8>, line: &str) -> Result<(), OutOfMemory> {
    let (byte, count) = line.split_once(' ').unwrap_or((line, ""));
    let byte: u8 = byte.parse().unwrap_or(0);
    let count: usize = count.parse().unwrap_or(0);
    bytes.resize(bytes.len().saturating_add(count), byte)?;
    Ok(())
}

// Adds a text for each number from a first one to a last one; the line has both numbers and the text.
fn push_times(alloc: Global, bytes: &mut Vec<u8>, line: &str) -> Result<(), OutOfMemory> {
    let (first, rest) = line.split_once(' ').unwrap_or((line, ""));
    let (last, text) = rest.split_once(' ').unwrap_or((rest, ""));
    let first: u64 = first.parse().unwrap_or(1);
    let last: u64 = last.parse().unwrap_or(0);
    for number in first..=last {
        push_numbered(alloc, bytes, number, text)?;
    }
    Ok(())
}

// Adds a text with the number in the place of each `#`, and an LF in that of each `~`.
fn push_numbered(
    alloc: Global,
    bytes: &mut Vec<u8>,
    number: u64,
    text: &str,
) -> Result<(), OutOfMemory> {
    let digits = format!(in alloc; "{number}")?;
    for byte in text.as_bytes() {
        match *byte {
            b'#' => bytes.extend_from_slice(digits.as_bytes())?,
            b'~' => bytes.push(b'\n')?,
            other => bytes.push(other)?,
        }
    }
    Ok(())
}
