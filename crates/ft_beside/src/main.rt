//! Plays sessions in three worlds, one of clients over plain lists and two of clients over trees, and writes where
//! the reports of the first two differ. In the third world each client tells what changes in its view, and what is kept by these
//! changes is compared with the view after each edit, each message and each compaction.
//!
//! A case of standard input is the line `case NAME`, the line `input`, the lines of a session, and the line `end`.
//! Before `input` may stand the line `hash`, and the line `long`, with which the session begins with a line that is too
//! long. Lines that are empty or begin with `#` are passed outside of an input.
//!
//! Of each case standard output gets its `case` line and a line with three counts of the report: the lines of the
//! session, how many of them were refused, and how many views were shown. The line ends with `followed` where what was
//! kept by changes was each client's view each time, and that world's report is the same, and else with `lost`. With `hash`
//! a line follows with the length of the report and its hash, which begins with 0 and becomes (31 times itself plus the
//! byte) modulo 2^32 at each byte. Where the reports of the first two worlds differ, the first lines that do are written,
//! that of the plain world before that of the trees.
#![tactic(auto)]

mod cases;
mod comparing;
mod difference;
mod follower;
mod listening;
mod sums;
mod views;

use crate::cases::Cases;
use ft_tests_input::run;
use std::process::ExitCode;

fn main(rt: HostRuntime) -> ExitCode {
    run::<Cases>(rt.alloc(), rt.stdin(), rt.stdout())
}
