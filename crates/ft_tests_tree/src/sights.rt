//! What is written of a tree.

ghost use Rattle.std.specs.Prelude.{IsTrue};
ghost use Rattle.ft_block.specs.Leaves.{IsLeafIn};

use crate::faults::StepFault;
use ft_arena::NodeId;
use ft_base::{Element, OutOfMemory, Stamp};
use ft_rebase::{Piece, regenerate};
use ft_tree::{TextContent, Tree};
use std::fmt::Write;

/// Adds the line of a number behind a word.
pub(crate) fn push_count(word: &str, count: u64, out: &mut String) -> Result<(), OutOfMemory> {
    Ok(write!(out, "{word} {count}\n")?)
}

/// Adds a line for each leaf, and one for how many elements there are.
pub(crate) fn push_leaves(tree: &Tree<TextContent>, out: &mut String) -> Result<(), StepFault>
    requires { IsTrue tree.now.usable }
{
    push_each(tree, out)?;
    let count = tree.elements()?.len() as u64;
    push_count("elements", count, out)?;
    Ok(())
}

// Adds a line for each leaf.
fn push_each(tree: &Tree<TextContent>, out: &mut String) -> Result<(), OutOfMemory>
    requires { IsTrue tree.now.usable }
{
    let mut at = tree.first_leaf();
    for _i in 0..1000u64 {
        let Some(id) = at else {
            return Ok(());
        };
        push_leaf(tree, id, out)?;
        at = tree.next_leaf(id);
    }
    Ok(())
}

// Adds the line of a leaf: its node, its text (a marker is `*`), its insertion and its removals.
fn push_leaf(tree: &Tree<TextContent>, id: NodeId, out: &mut String) -> Result<(), OutOfMemory>
    requires usable { IsTrue tree.now.usable }
    requires live { IsLeafIn tree.now.leaves id }
{
    let node = id.0;
    let text = tree.leaf_content(id).text().unwrap_or("*");
    write!(out, "  {node} {text}")?;
    push_stamps(tree.leaf_element(id), out)
}

// Adds the stamps of a leaf, and ends its line.
fn push_stamps(e: &Element, out: &mut String) -> Result<(), OutOfMemory> {
    push_stamp("+", &e.ins, out)?;
    for stamp in e.dels.as_slice() {
        push_stamp("-", stamp, out)?;
    }
    out.push_str("\n")?;
    Ok(())
}

// Adds a stamp behind a sign.
fn push_stamp(sign: &str, stamp: &Stamp, out: &mut String) -> Result<(), OutOfMemory> {
    match stamp {
        Stamp::Acked { seq, conn } => write!(out, " {sign}{seq} by {conn}")?,
        Stamp::Local { stage } => write!(out, " {sign}stage {stage}")?,
    }
    Ok(())
}

/// Adds a line for each of the insertions as which the stage is sent again.
pub(crate) fn push_insertions(
    tree: &Tree<TextContent>,
    stage: u64,
    out: &mut String,
) -> Result<(), OutOfMemory>
    requires { IsTrue tree.now.usable }
{
    for piece in &regenerate(tree, stage)? {
        if let Piece::Insert { pos } = piece {
            push_count("insert", *pos, out)?;
        }
    }
    Ok(())
}
