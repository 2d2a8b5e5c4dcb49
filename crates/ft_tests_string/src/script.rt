//! Scripts, line by line.

ghost use Rattle.std.specs.Prelude.{IfSome, OnOk};
ghost use Rattle.ft_op.specs.WellFormed.{IsWellFormedText};
ghost use Rattle.ft_tests_string.specs.Playing.{GoesTogether};

use crate::edits::{Answer, acknowledge, edit};
use crate::faults::StepFault;
use crate::hearing::hear;
use crate::lines::{Line, Verb};
use crate::progress::Progress;
use crate::shared::play_shared;
use crate::sights::{push_found, push_shown};
use ft_base::OutOfMemory;
use ft_interval::Collections;
use ft_json::read_line;
use ft_op::{TextOp, read_text_op};
use ft_tests_input::Program;
use ft_tree::{TextContent, Tree};
use std::alloc::Global;
use std::fmt::Write;
use std::marker::Brand;
use std::sync::ledger::Blank;

/// Scripts, and what each of their steps shows.
pub struct Scripts;

impl Program for Scripts {
    fn output(alloc: Global, input: &[u8]) -> Option<Vec<u8>> {
        let script = str::from_utf8(input).unwrap_or("");
        let made = played(alloc, script).ok()?;
        Some(made.into_bytes())
    }
}

// What is written of a script, case by case.
//
// Returns `OutOfMemory` where there is no room for it, and `TooLarge` where a tree is too large.
fn played(alloc: Global, script: &str) -> Result<String, StepFault> {
    let mut out = String::new(alloc);
    for case in script.split("\n\n") {
        if case.starts_with("string ") {
            play_shared(alloc, case, &mut out)?;
        } else {
            play_case(alloc, case, &mut out)?;
        }
    }
    Ok(out)
}

// Plays one case.
fn play_case(alloc: Global, case: &str, out: &mut String) -> Result<(), StepFault> {
    let mut tree = Tree::new(alloc);
    let mut intervals = Collections::new(alloc);
    let mut progress = Progress::new();
    play_lines(alloc, &mut tree, &mut intervals, &mut progress, case, out)
}

// Plays the lines of a case.
fn play_lines(
    alloc: Global,
    tree: &mut Tree<TextContent>,
    intervals: &mut Collections,
    progress: &mut Progress,
    case: &str,
    out: &mut String,
) -> Result<(), StepFault>
    requires { GoesTogether tree.old intervals.old progress.old }
{
    for line in case.lines() {
        take_line(alloc, tree, intervals, progress, line, out)?;
    }
    Ok(())
}

// Adds a line behind a word.
pub(crate) fn push_line(out: &mut String, word: &str, line: &str) -> Result<(), OutOfMemory> {
    out.push_str(word)?;
    out.push_str(line)?;
    out.push_str("\n")?;
    Ok(())
}

// Takes a line.
fn take_line(
    alloc: Global,
    tree: &mut Tree<TextContent>,
    intervals: &mut Collections,
    progress: &mut Progress,
    text: &str,
    out: &mut String,
) -> Result<(), StepFault>
    requires { GoesTogether tree.old intervals.old progress.old }
    ensures { OnOk result (GoesTogether tree.new intervals.new progress.new) }
{
    if text.is_empty() || text.starts_with("#") {
        return Ok(());
    }
    if text.starts_with("case ") {
        push_line(out, "", text)?;
        return Ok(());
    }
    if !take_step(alloc, tree, intervals, progress, &Line::of(text), out)? {
        push_line(out, "refused ", text)?;
    }
    Ok(())
}

// Takes a step, and tells whether it can be made.
fn take_step(
    alloc: Global,
    tree: &mut Tree<TextContent>,
    intervals: &mut Collections,
    progress: &mut Progress,
    line: &Line,
    out: &mut String,
) -> Result<bool, StepFault>
    requires { GoesTogether tree.old intervals.old progress.old }
    ensures { OnOk result (GoesTogether tree.new intervals.new progress.new) }
{
    match line.verb() {
        Some(Verb::Hear) => hear_line(alloc, tree, intervals, progress, line),
        Some(Verb::Edit) => edit_line(alloc, tree, intervals, progress, line, out),
        Some(Verb::Acknowledge) => acknowledge(tree, intervals, progress, line.number(0)),
        Some(Verb::Show) => {
            push_shown(tree, intervals, out)?;
            Ok(true)
        }
        Some(Verb::Find) => {
            push_found(alloc, tree, intervals, line.before(), line.text(), out)?;
            Ok(true)
        }
        Some(Verb::Pass) | Some(Verb::Reconnect) | None => Ok(false),
    }
}

// The operation that a text is: None where it is none.
pub(crate) fn operation(alloc: Global, text: &str) -> Option<TextOp>
    ensures { IfSome result (λ op. IsWellFormedText op) }
{
    let value = read_line(alloc, text.as_bytes()).ok()?;
    let op = read_text_op(alloc, &value);
    drop(value);
    op.ok()
}

// Hears the operation of a line, and tells whether it can be applied.
fn hear_line(
    alloc: Global,
    tree: &mut Tree<TextContent>,
    intervals: &mut Collections,
    progress: &Progress,
    line: &Line,
) -> Result<bool, StepFault>
    requires { GoesTogether tree.old intervals.old progress.now }
    ensures { OnOk result (GoesTogether tree.new intervals.new progress.now) }
{
    let Some(op) = operation(alloc, line.text()) else {
        return Ok(false);
    };
    let (seq, at) = (line.number(0), line.perspective());
    let is_made = hear::<Brand>(tree, intervals, &op, seq, at, Blank::new(1));
    drop(op);
    is_made
}

// Makes the edit of a line, and tells whether it can be made or was refused by the intervals, which is written.
fn edit_line(
    alloc: Global,
    tree: &mut Tree<TextContent>,
    intervals: &mut Collections,
    progress: &mut Progress,
    line: &Line,
    out: &mut String,
) -> Result<bool, StepFault>
    requires { GoesTogether tree.old intervals.old progress.old }
    ensures { OnOk result (GoesTogether tree.new intervals.new progress.new) }
{
    let Some(op) = operation(alloc, line.text()) else {
        return Ok(false);
    };
    let answer = edit(tree, intervals, progress, &op);
    drop(op);
    told(answer?, out)
}

// Whether an edit was made or refused by the intervals; a refusal is written.
fn told(answer: Answer, out: &mut String) -> Result<bool, StepFault> {
    match answer {
        Answer::Made => Ok(true),
        Answer::Passed => Ok(false),
        Answer::Refused(fault) => {
            write!(out, "refused {fault}\n")?;
            Ok(true)
        }
    }
}
