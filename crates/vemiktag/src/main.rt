//! Vemiktag's program: its arguments, its standard input and its standard output, given to a run.
//!
//! It ends with 0 where nothing was refused or skipped, 1 where something was, 2 where the arguments are of
//! no command, 3 and 4 where the input or the output failed, 5 where no memory was found, 6 where the input is
//! too long, and 7 where the system doesn't tell the arguments. It writes nothing but what the run writes.
#![tactic(auto)]

ghost use Rattle.std.specs.Prelude.{◌≡◌};
ghost use Rattle.std.specs.Process.{exit_status};
ghost use Rattle.ft_cli.specs.Statuses.{status_code};

use ft_cli::{Status, run};
use ft_io::{StdSink, StdSource};
use std::alloc::AllocError;
use std::process::ExitCode;
use std::{env, io};

/// What the program ends with where the system doesn't tell its arguments.
const NO_WORDS: u8 = 7;

fn main(rt: HostRuntime) -> ExitCode {
    let Ok(words) = told_words(&rt) else {
        return ExitCode::from(NO_WORDS);
    };
    let mut src = StdSource::new(rt.stdin());
    let mut out = StdSink::new(rt.stdout());
    exit_code(run(rt.alloc(), &words, &mut src, &mut out))
}

// What the program ends with after a run of this status.
fn exit_code(status: Status) -> ExitCode
    ensures { exit_status result ≡ status_code status }
{
    ExitCode::from(status.code())
}

// The arguments of the command line, without the program's name.
fn told_words(rt: &HostRuntime) -> io::Result<Vec<String>> {
    let mut words = Vec::new(rt.alloc());
    for word in env::args(rt)?.skip(1) {
        words.push(word).map_err(AllocError::from)?;
    }
    Ok(words)
}
