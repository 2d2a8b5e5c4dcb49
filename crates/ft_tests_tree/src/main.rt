//! Plays scripts on trees of text, and writes what no run of a session shows of them: nodes, leaves, and what is taken out.
//!
//! Each line of standard input is a step, or `case NAME`, with which a new tree begins; the latter is written as it is, and
//! lines that are empty or begin with `#` are passed. A line that is no step, or a step that can't be made, is written behind
//! `refused`. P and Q are numbers of elements seen, SEQ is a sequence number, and R C are a perspective: what connection C
//! sees up to message R. The client itself is connection 1, and each edit of its own takes the next stage, from 1 on.
//!
//! | Step | Says |
//! |---|---|
//! | `insert P TEXT SEQ R C`, `remove P Q SEQ R C` | a message that puts a run in, that removes elements |
//! | `write P TEXT`, `erase P Q` | the same, as edits of the client |
//! | `acknowledge SEQ` | the first pending stage is sequenced |
//! | `unmark STAGE` | what the stage marks of the first leaf is taken back |
//! | `compact FLOOR`, `sweep FLOOR BUDGET` | compaction of all leaves, of so many; how many leaves they take out is written |
//! | `leaves` | the leaves are written, each with its node, its insertion and its removals; and how many elements there are |
//! | `table` | of a table of its own what four perspectives see is written |
//! | `find` | where the 5000th of ten thousand leaves is found is written, in blocks of its own |
//! | `normalise` | of a tree of its own the leaves are written, what is sent again of its two stages, and the leaves once it is normalised |
//!
//! Refused are positions above the length seen, perspectives and floors below the floor, and `acknowledge` after `unmark` and
//! compaction.
#![tactic(auto)]

pub mod bounds;
mod edits;
mod faults;
mod lines;
mod normalising;
mod progress;
mod script;
mod sights;
mod tables;
mod texts;
mod upkeep;

use crate::script::Scripts;
use ft_tests_input::run;
use std::process::ExitCode;

fn main(rt: HostRuntime) -> ExitCode {
    run::<Scripts>(rt.alloc(), rt.stdin(), rt.stdout())
}
