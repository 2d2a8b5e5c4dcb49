//! Bytes in and bytes out: sources and sinks that count their faults, over memory and over standard input
//! and output, and the lines of what a source gives.
//!
//! A call that can't return `OutOfMemory` takes no memory; one that can returns it where there is no room.
#![tactic(auto)]

pub mod byte_lists;
mod intake;
pub mod memory;
mod pieces;
pub mod reader;
pub mod standard;
pub mod streams;

pub use byte_lists::Bytes;
pub use intake::INPUT_LIMIT;
pub use memory::{MemSink, MemSource};
pub use reader::{Line, LineFault, Lines};
pub use standard::{StdSink, StdSource};
pub use streams::{Failed, Sink, Source, write_all};
