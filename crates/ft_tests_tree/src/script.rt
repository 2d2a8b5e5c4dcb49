//! Scripts, line by line.

ghost use Rattle.std.specs.Prelude.{OnOk};
ghost use Rattle.ft_tests_tree.specs.Playing.{GoesTogether};

use crate::bounds::push_bound;
use crate::edits::{Edit, Kind, make_edit};
use crate::faults::StepFault;
use crate::lines::{Line, Verb};
use crate::normalising::push_normalised;
use crate::progress::Progress;
use crate::sights::push_leaves;
use crate::tables::push_lengths;
use crate::upkeep::{acknowledge_next, compact, unmark};
use ft_base::OutOfMemory;
use ft_tests_input::Program;
use ft_tree::{TextContent, Tree};
use std::alloc::Global;

/// Scripts, and what each of their steps shows.
pub struct Scripts;

impl Program for Scripts {
    fn output(alloc: Global, input: &[u8]) -> Option<Vec<u8>> {
        let script = str::from_utf8(input).unwrap_or("");
        let made = played(alloc, script).ok()?;
        Some(made.into_bytes())
    }
}

// What is written of a script, case by case.
//
// Returns `OutOfMemory` where there is no room for it, and `TooLarge` where a tree is too large.
fn played(alloc: Global, script: &str) -> Result<String, StepFault> {
    let mut out = String::new(alloc);
    for case in script.split("\n\n") {
        play_case(alloc, case, &mut out)?;
    }
    Ok(out)
}

// Plays one case.
fn play_case(alloc: Global, case: &str, out: &mut String) -> Result<(), StepFault> {
    let mut tree = Tree::new(alloc);
    let mut progress = Progress::new();
    play_lines(alloc, &mut tree, &mut progress, case, out)
}

// Plays the lines of a case.
fn play_lines(
    alloc: Global,
    tree: &mut Tree<TextContent>,
    progress: &mut Progress,
    case: &str,
    out: &mut String,
) -> Result<(), StepFault>
    requires { GoesTogether tree.old progress.old }
{
    for line in case.lines() {
        take_line(alloc, tree, progress, line, out)?;
    }
    Ok(())
}

// Adds a line behind a word.
fn push_line(out: &mut String, word: &str, line: &str) -> Result<(), OutOfMemory> {
    out.push_str(word)?;
    out.push_str(line)?;
    out.push_str("\n")?;
    Ok(())
}

// Takes a line.
fn take_line(
    alloc: Global,
    tree: &mut Tree<TextContent>,
    progress: &mut Progress,
    text: &str,
    out: &mut String,
) -> Result<(), StepFault>
    requires { GoesTogether tree.old progress.old }
    ensures { OnOk result (GoesTogether tree.new progress.new) }
{
    if text.is_empty() || text.starts_with("#") {
        return Ok(());
    }
    if text.starts_with("case ") {
        push_line(out, "", text)?;
        return Ok(());
    }
    if !take_step(alloc, tree, progress, &Line::of(text), out)? {
        push_line(out, "refused ", text)?;
    }
    Ok(())
}

// Takes a step, and tells whether it can be made.
fn take_step(
    alloc: Global,
    tree: &mut Tree<TextContent>,
    progress: &mut Progress,
    line: &Line,
    out: &mut String,
) -> Result<bool, StepFault>
    requires { GoesTogether tree.old progress.old }
    ensures { OnOk result (GoesTogether tree.new progress.new) }
{
    let first = line.number(0);
    match line.verb() {
        Some(Verb::Edit(kind)) => make_edit(alloc, tree, progress, &edit_of(kind, line)),
        Some(Verb::Acknowledge) => acknowledge_next(tree, progress, first),
        Some(Verb::Unmark) => unmark(tree, progress, first),
        Some(Verb::Compact) => compact(alloc, tree, progress, first, None, out),
        Some(Verb::Sweep) => {
            let budget = Some(line.number(1));
            compact(alloc, tree, progress, first, budget, out)
        }
        Some(Verb::Leaves) => {
            push_leaves(tree, out)?;
            Ok(true)
        }
        Some(Verb::Table) => {
            push_lengths(alloc, out)?;
            Ok(true)
        }
        Some(Verb::Find) => {
            push_bound(alloc, out)?;
            Ok(true)
        }
        Some(Verb::Normalise) => {
            push_normalised(alloc, out)?;
            Ok(true)
        }
        None => Ok(false),
    }
}

// The edit that a step is.
fn edit_of<'a>(kind: Kind, line: &Line<'a>) -> Edit<'a> {
    let (seq, at) = match kind {
        Kind::Insert => (line.number(1), line.perspective(2)),
        Kind::Write | Kind::Remove | Kind::Erase => (line.number(2), line.perspective(3)),
    };
    Edit {
        kind,
        p: line.number(0),
        q: line.number(1),
        text: line.text(),
        seq,
        at,
    }
}
