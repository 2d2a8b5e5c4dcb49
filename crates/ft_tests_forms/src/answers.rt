//! What is written of a line.

use crate::forms::{draft, grid, message, numbers, string, summary, text, value};
use ft_base::OutOfMemory;
use ft_msg::Cause;
use ft_seqr::Refusal;
use ft_sumdoc::SumFault;
use ft_tests_input::Program;
use memchr::memchr;
use std::alloc::Global;

/// Texts, a line each, and what each is.
pub struct Texts;

impl Program for Texts {
    fn output(alloc: Global, input: &[u8]) -> Option<Vec<u8>> {
        answers(alloc, input).ok()
    }
}

// What is written of the lines, each with an LF behind it.
//
// Returns `OutOfMemory` where there is no room for it.
fn answers(alloc: Global, input: &[u8]) -> Result<Vec<u8>, OutOfMemory> {
    let mut output = Vec::new(alloc);
    for line in input.split_inclusive(|byte| *byte == b'\n') {
        let text = &line[..memchr(b'\n', line).unwrap_or(line.len())];
        push_answer(alloc, &mut output, text)?;
        output.push(b'\n')?;
    }
    Ok(output)
}

// Adds what is written of a line.
fn push_answer(alloc: Global, output: &mut Vec<u8>, line: &[u8]) -> Result<(), OutOfMemory> {
    if line.is_empty() || line[0] == b'#' {
        output.extend_from_slice(line)?;
        return Ok(());
    }
    let place = memchr(b' ', line).unwrap_or(line.len());
    let form = str::from_utf8(&line[..place]).unwrap_or("");
    let told = answer(alloc, form, &line[(place + 1).min(line.len())..])?;
    output.extend_from_slice(told.as_bytes())?;
    Ok(())
}

// What the text is, in its one spelling, or why it is refused.
fn answer(alloc: Global, form: &str, bytes: &[u8]) -> Result<String, OutOfMemory> {
    if form == "summary" {
        return match summary(alloc, bytes) {
            Ok(told) => Ok(told),
            Err(fault) => summary_refused(alloc, fault),
        };
    }
    match read(alloc, form, bytes) {
        Ok(told) => Ok(told),
        Err(cause) => refused(alloc, cause),
    }
}

// What the text is, in its one spelling.
fn read(alloc: Global, form: &str, bytes: &[u8]) -> Result<String, Cause> {
    match form {
        "value" => value(alloc, bytes),
        "numbers" => numbers(alloc, bytes),
        "string" => string(alloc, bytes),
        "text" => text(alloc, bytes),
        "grid" => grid(alloc, bytes),
        "message" => message(alloc, bytes),
        "draft" => draft(alloc, bytes),
        _ => Err(Cause::UnknownWord),
    }
}

// Why it is refused, with the refusal's number.
fn refused(alloc: Global, cause: Cause) -> Result<String, OutOfMemory> {
    let refusal = Refusal::of_cause(cause);
    let number = refusal.number();
    Ok(format!(in alloc; "refused {number} {refusal}")?)
}

// Why a summary is refused, with the refusal's number.
fn summary_refused(alloc: Global, fault: SumFault) -> Result<String, OutOfMemory> {
    let number = match fault {
        SumFault::Malformed(_) => 1,
        SumFault::Version(_) => 2,
        SumFault::BadStamp(_) => 3,
        SumFault::BadCount { .. } => 4,
        SumFault::OutOfMemory => return Err(OutOfMemory),
    };
    Ok(format!(in alloc; "refused {number} {fault}")?)
}
