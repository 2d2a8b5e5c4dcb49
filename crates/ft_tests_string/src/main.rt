//! Plays scripts on a tree of text and the collections of intervals on it, or on a shared text, and writes what these say.
//!
//! Each line of standard input is a step, or `case NAME`, with which a new tree begins, or `string NAME`, with which a new
//! shared text begins, at the beginning of the input or behind an empty line; the latter two are written as they are, and
//! lines that are empty or begin with `#` are passed. A line that is no step, or a step that can't be made, is written behind
//! `refused`. OP is an operation of the text as a message has it, SEQ is a sequence number, and R C are a perspective: what
//! connection C sees up to message R. The client itself is connection 1, and each edit of its own takes the next stage, from 1
//! on.
//!
//! | Step | Says |
//! |---|---|
//! | `hear SEQ R C OP` | a message of connection C; of a group each operation is made for which there are elements |
//! | `edit OP` | an edit of the client: an insertion, a removal, or one of an interval, whose refusal is written |
//! | `acknowledge SEQ` | the first pending stage is sequenced |
//! | `show` | the text is written, and all intervals: label, id, start and end |
//! | `find LABEL ID` | the ends that are shown of this interval are written, or `none` |
//!
//! Refused are positions above the length seen, perspectives below the floor, and groups and annotations as edits.
//!
//! A shared text is that of a client whose join was message 1. It takes each message under the next number, edits of each kind,
//! and `hear`, `edit`, `acknowledge` and `show` as above, but no `find`; and besides:
//!
//! | Step | Says |
//! |---|---|
//! | `pass SEQ` | a message that is no operation |
//! | `reconnect SEQ` | its own join under a new connection: a line `again OP` for each edit that is sent again |
//!
//! Refused are other numbers, messages of connection 1, perspectives above the last message, and edits that are refused.
#![tactic(auto)]

mod edits;
mod faults;
mod hearing;
mod lines;
mod progress;
mod script;
mod shared;
mod sharing;
mod sights;

use crate::script::Scripts;
use ft_tests_input::run;
use std::process::ExitCode;

fn main(rt: HostRuntime) -> ExitCode {
    run::<Scripts>(rt.alloc(), rt.stdin(), rt.stdout())
}
