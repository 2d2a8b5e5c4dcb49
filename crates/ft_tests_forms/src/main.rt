//! Reads texts and writes what each is, in its one spelling, or why it is refused.
//!
//! Each line of standard input is a form, a space and a text, and the line of the same number on standard
//! output is what came of it. A line that is empty or begins with `#` is written as it is. The forms are
//! `value`, `numbers`, `string`, `text`, `grid`, `message`, `draft` and `summary`.
#![tactic(auto)]

mod answers;
mod forms;

use crate::answers::Texts;
use ft_tests_input::run;
use std::process::ExitCode;

fn main(rt: HostRuntime) -> ExitCode {
    run::<Texts>(rt.alloc(), rt.stdin(), rt.stdout())
}
