//! Runs cases of the command line over memory, and writes what each comes to.
//!
//! A case of standard input is the line `case NAME`, the line `words` with the arguments of the command line
//! behind it, the line `input`, the lines of the input, and the line `end`. Between `case` and `input` may
//! stand: `failing-reads` and `failing-writes` with the numbers of the reads and writes that fail, from 1 on;
//! `piece` with the number of bytes that are read and written at a time (without it the case runs three
//! times, with 1, 16 and 65,536); `room` with the number of bytes that the output has room for; and `repeat`
//! with a byte and a count, which is input. The line `end-without-lf` ends an input whose last line has no
//! LF. Lines that are empty or begin with `#` are passed outside of an input.
//!
//! Before the input, `written-by` puts into it what a run with the arguments behind it writes, and `times` a text for each number
//! from a first one to a last one: both numbers stand before the text, in which `#` is the number and `~` an LF. With `views` only the
//! number of views in the report is written, and how many of them show what the first one shows.
//!
//! One of three lines more makes a case run many times: `each-cut` with each beginning of its input, and
//! `each-failing-read` and `each-failing-write` with each read or write that fails, up to the one of that
//! number. Such a run has its name before its status: `cut`, `read` or `write`, and its number.
//!
//! Of each case standard output gets its `case` line, the line `status` with the status of the run, and the
//! bytes written with one LF more; the latter two again where a further run comes to something else than the
//! one before.
#![tactic(auto)]

mod cases;
mod runs;
mod views;

use crate::cases::Cases;
use ft_tests_input::run;
use std::process::ExitCode;

fn main(rt: HostRuntime) -> ExitCode {
    run::<Cases>(rt.alloc(), rt.stdin(), rt.stdout())
}
