//! What a program of tests does: it reads standard input to its end, and writes what comes of that to standard output.
#![tactic(auto)]

mod cases;

pub use cases::{Case, outcomes};
use std::alloc::Global;
use std::io;
use std::io::{ErrorKind, Read, Write};
use std::process::ExitCode;
use std::rt::{Stdin, Stdout};

/// What a program makes of its input.
pub trait Program {
    /// The output for this input: None where there is no room for it.
    fn output(alloc: Global, input: &[u8]) -> Option<Vec<u8>>;
}

/// Runs the program over the standard streams. It fails where one of them does, and where there is no room.
pub fn run<P: Program>(alloc: Global, input: Stdin, output: Stdout) -> ExitCode {
    match answer::<P>(alloc, input, output) {
        Ok(()) => ExitCode::SUCCESS,
        Err(_) => ExitCode::FAILURE,
    }
}

// Reads the input, and writes the output.
fn answer<P: Program>(alloc: Global, mut input: Stdin, mut output: Stdout) -> io::Result<()> {
    let mut bytes = Vec::new(alloc);
    input.read_to_end(&mut bytes)?;
    match P::output(alloc, bytes.as_slice()) {
        Some(made) => output.write_all(made.as_slice()),
        None => Err(io::Error::from(ErrorKind::OutOfMemory)),
    }
}
