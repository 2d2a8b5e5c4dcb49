//! A segment as contents of leaves, and how they come into a tree: the last one first, each at the same place, so that they
//! stand side by side in their order.

ghost use Rattle.std.specs.Prelude.{◌≡◌, ◌+◌, ◌*◌, ◌≤◌, ◌++◌, ◌∷◌, [], string_bytes, true, IfOk, IsTrue, MatchOption, None, OnOk, chars, drop, flat_map, length, map, take};
ghost use Rattle.std.specs.Str.{IsCharBoundary};
ghost use Rattle.ft_base.specs.declared.stamps.Stamp.TheVariants.{Acked, Local};
ghost use Rattle.ft_base.specs.Scan.{no_run};
ghost use Rattle.ft_block.specs.declared.leaves.LenView.TheVariants.{At};
ghost use Rattle.ft_block.specs.Leaves.{last_stage};
ghost use Rattle.ft_tree_leaves.specs.Elements.{is_pending, new_elements, seen_in};
ghost use Rattle.ft_tree_leaves.specs.TextLeaves.{text_author, text_units};
ghost use Rattle.ft_tree_leaves.specs.TextRuns.{longest_run};
ghost use Rattle.ft_op.specs.Operation.{segment_contents};
ghost use Rattle.ft_props.specs.Element.{Character};
ghost use Rattle.ft_props.specs.Properties.{apply, max_safe_integer};
ghost use Rattle.ft_text.specs.Contents.{PutsIn, are_new, contents_in};

use ft_base::{OutOfMemory, Perspective, Steps};
use ft_op::Seg;
use ft_props::PropSet;
use ft_tree::{MAX_RUN, TextContent, Tree, TreeFault};
use std::alloc::Global;
use std::sync::ledger::Ledger;

/// The contents of the leaves of a segment: the last one, mostly the only one, and those before it in order. A single one takes no
/// list.
#[derive(Drop)]
pub struct Contents {
    pub before: Vec<TextContent>,
    pub last: Option<TextContent>,
}

impl Contents {
    // None.
    fn none(alloc: Global) -> Contents
        ensures { contents_in result ≡ [] }
    {
        Contents {
            before: Vec::new(alloc),
            last: None,
        }
    }

    /// This one alone.
    pub fn one(alloc: Global, content: TextContent) -> Contents
        ensures { contents_in result ≡ content ∷ [] }
    {
        Contents {
            before: Vec::new(alloc),
            last: Some(content),
        }
    }

    // Puts one behind the others.
    fn push(&mut self, content: TextContent) -> Result<(), OutOfMemory>
        ensures { OnOk result (contents_in self.new ≡ contents_in self.old ++ content ∷ []) }
    {
        if let Some(before) = self.last.replace(content) {
            self.before.push(before)?;
        }
        Ok(())
    }

    // Takes the last one off.
    fn pop(&mut self) -> Option<TextContent>
        ensures { MatchOption result (contents_in self.old ≡ []) (λ content. contents_in self.old ≡ contents_in self.new ++ content ∷ []) }
    {
        match self.last.take() {
            Some(content) => Some(content),
            None => self.before.pop(),
        }
    }
}

// The contents of the leaves of a segment.
fn contents_of(alloc: Global, seg: &Seg) -> Result<Contents, OutOfMemory>
    ensures units { IfOk result (λ c. flat_map text_units (contents_in c) ≡ segment_contents seg.now) }
    ensures new { IfOk result (λ c. are_new (contents_in c) ≡ true) }
    ensures one { IfOk result (λ c. length (segment_contents seg.now) ≤ longest_run → length (contents_in c) ≤ 1) }
{
    match seg {
        Seg::Chars { text } => runs_of(alloc, text.as_str()),
        Seg::Marker { ref_type } => Ok(Contents::one(alloc, TextContent::marker(*ref_type))),
    }
}

/// Adds a character to a run.
pub(crate) fn push_character(run: &mut String, c: char) -> Result<(), OutOfMemory>
    ensures { OnOk result (chars (string_bytes run.new) ≡ chars (string_bytes run.old) ++ c ∷ []) }
{
    run.push(c)?;
    Ok(())
}

/// The characters as runs of as many as a leaf may have, but for the last one.
pub fn runs_of(alloc: Global, text: &str) -> Result<Contents, OutOfMemory>
    ensures units { IfOk result (λ c. flat_map text_units (contents_in c) ≡ map Character (chars text.now)) }
    ensures new { IfOk result (λ c. are_new (contents_in c) ≡ true) }
    ensures one { IfOk result (λ c. length (chars text.now) ≤ longest_run → length (contents_in c) ≤ 1) }
{
    let mut contents = Contents::none(alloc);
    let mut rest = text;
    while !rest.is_empty() {
        let at = run_end(rest);
        contents.push(TextContent::run(alloc, &rest[..at])?)?;
        rest = &rest[at..];
    }
    Ok(contents)
}

// How many bytes the first run of a text takes: as many characters as a leaf may have, or all.
fn run_end(text: &str) -> usize
    ensures boundary { IsCharBoundary text.now result }
    ensures front { chars (take result text.now) ≡ take longest_run (chars text.now) }
    ensures rear { chars (drop result text.now) ≡ drop longest_run (chars text.now) }
{
    if text.len() as u64 <= MAX_RUN {
        return text.len();
    }
    let mut rest = text.chars();
    for _ in 0..MAX_RUN {
        rest.next();
    }
    text.len() - rest.as_str().len()
}

/// The characters of a text.
pub(crate) fn characters(alloc: Global, text: &str) -> Result<Vec<char>, OutOfMemory>
    ensures { IfOk result (λ v. v.items ≡ chars text.now) }
{
    let characters = text.chars().collect(alloc)?;
    Ok(characters)
}

/// Puts the elements of a segment in, of a pending stage, directly after the `p`-th element of the local view.
///
/// Returns `OutOfRange` where `p` is above the length of that view, and `OutOfMemory` where there is no room.
pub fn insert_local<G: Ledger>(
    tree: &mut Tree<TextContent>,
    p: u64,
    seg: &Seg,
    props: &PropSet,
    stage: u64,
    steps: &mut Steps<G>,
) -> Result<(), TreeFault>
    requires usable { IsTrue tree.old.usable }
    requires made { tree.old.made + length (segment_contents seg.now) ≤ max_safe_integer }
    ensures ok { let added = new_elements (Local stage) None (apply [] props.now) (segment_contents seg.now) in
        OnOk result (PutsIn (seen_in last_stage) no_run p added tree.old tree.new) }
    ensures reads { length (segment_contents seg.now) ≤ longest_run → steps.new ≤ steps.old + 9 * (tree.old.depth + 1) }
{
    let mut contents = contents_of(tree.allocator(), seg)?;
    while let Some(content) = contents.pop() {
        tree.insert_local(p, content, props, stage, steps)?;
    }
    Ok(())
}

/// Puts the elements of a segment in under number `seq` by the perspective's connection, directly after the `p`-th element
/// that it sees, but past the run of pending elements there.
///
/// Returns `OutOfRange` where `p` is above the length seen, and `OutOfMemory` where there is no room.
pub fn insert_remote<G: Ledger>(
    tree: &mut Tree<TextContent>,
    p: u64,
    seg: &Seg,
    props: &PropSet,
    seq: u64,
    at: Perspective,
    steps: &mut Steps<G>,
) -> Result<(), TreeFault>
    requires usable { IsTrue tree.old.usable }
    requires floor { tree.old.floor ≤ at.r }
    requires made { tree.old.made + length (segment_contents seg.now) ≤ max_safe_integer }
    ensures { let added = new_elements (Acked seq at.c) (text_author seq at.c) (apply [] props.now) (segment_contents seg.now) in
        OnOk result (PutsIn (seen_in (At at)) is_pending p added tree.old tree.new) }
{
    let mut contents = contents_of(tree.allocator(), seg)?;
    while let Some(content) = contents.pop() {
        tree.insert_remote(p, content, props, seq, at, steps)?;
    }
    Ok(())
}
