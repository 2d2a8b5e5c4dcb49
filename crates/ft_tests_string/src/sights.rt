//! What is written of a tree and its intervals.

ghost use Rattle.std.specs.Prelude.{IsTrue};
ghost use Rattle.ft_block.specs.Leaves.{IsLeafIn};
ghost use Rattle.ft_interval.specs.State.{StandsOn};

use ft_arena::NodeId;
use ft_base::{OutOfMemory, Text, seen_at};
use ft_interval::Collections;
use ft_sumdoc::IntervalRec;
use ft_tree::{TextContent, Tree};
use std::alloc::Global;
use std::fmt::Write;

/// Adds the line of the text that the client sees, and one for each interval.
pub(crate) fn push_shown(
    tree: &Tree<TextContent>,
    intervals: &Collections,
    out: &mut String,
) -> Result<(), OutOfMemory>
    requires usable { IsTrue tree.now.usable }
    requires stands { StandsOn tree.now intervals.now }
{
    out.push_str("text ")?;
    push_leaves(tree, out)?;
    out.push_str("\n")?;
    push_intervals(&intervals.all(tree)?, out)
}

// Adds the characters of each leaf that the client sees.
fn push_leaves(tree: &Tree<TextContent>, out: &mut String) -> Result<(), OutOfMemory>
    requires { IsTrue tree.now.usable }
{
    let mut at = tree.first_leaf();
    for _i in 0..1000u64 {
        let Some(id) = at else {
            return Ok(());
        };
        push_leaf(tree, id, out)?;
        at = tree.next_leaf(id);
    }
    Ok(())
}

// Adds the characters of a leaf, where the client sees them; a marker is `*`.
fn push_leaf(tree: &Tree<TextContent>, id: NodeId, out: &mut String) -> Result<(), OutOfMemory>
    requires usable { IsTrue tree.now.usable }
    requires live { IsLeafIn tree.now.leaves id }
{
    if seen_at(tree.leaf_element(id), u64::MAX) {
        out.push_str(tree.leaf_content(id).text().unwrap_or("*"))?;
    }
    Ok(())
}

/// Adds a line for each interval.
pub(crate) fn push_intervals(all: &[IntervalRec], out: &mut String) -> Result<(), OutOfMemory> {
    for interval in all {
        let (label, id) = (interval.label.as_str(), interval.id.as_str());
        let (start, end) = (interval.ends.start, interval.ends.end);
        write!(out, "interval {label} {id} {start} {end}\n")?;
    }
    Ok(())
}

/// Adds the ends that are shown of the interval of that label and id, or that there is none.
pub(crate) fn push_found(
    alloc: Global,
    tree: &Tree<TextContent>,
    intervals: &Collections,
    label: &str,
    id: &str,
    out: &mut String,
) -> Result<(), OutOfMemory>
    requires usable { IsTrue tree.now.usable }
    requires stands { StandsOn tree.now intervals.now }
{
    let (label, id) = (Text::new(alloc, label)?, Text::new(alloc, id)?);
    match intervals.shown(tree, &label, &id) {
        Some(ends) => {
            let (start, end) = (ends.start, ends.end);
            write!(out, "found {start} {end}\n")?;
        }
        None => out.push_str("none\n")?,
    }
    Ok(())
}
