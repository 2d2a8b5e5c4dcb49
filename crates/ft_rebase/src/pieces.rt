//! The pieces as which a pending stage is sent again.

ghost use Rattle.std.specs.Prelude.{◌≡◌, ◌++◌, IsTrue, IfOk, OnOk, map};
ghost use Rattle.ft_tree_leaves.specs.LeafLists.{elements};
ghost use Rattle.ft_props.specs.Steps.{lowered_runs};
ghost use Rattle.ft_rebase.specs.MarkedRuns.{RunsRise};
ghost use Rattle.ft_rebase.specs.Pieces.{pieces};

use crate::marks::{PendingMark, marked_runs};
use crate::positions::insertion_position;
use ft_base::OutOfMemory;
use ft_tree::Tree;
use ft_tree_leaves::Content;

/// A part of what is sent again of a pending stage. A position is a number of elements.
#[derive(Clone, Copy, Debug, PartialEq, Eq)]
pub enum Piece {
    /// Its insertion, behind the first `pos` elements.
    Insert { pos: u64 },
    /// A removal of the elements from `pos1` up to before `pos2`.
    Remove { pos1: u64, pos2: u64 },
    /// Its changes of the elements from `pos1` up to before `pos2`.
    Annotate { pos1: u64, pos2: u64 },
}

/// The pieces as which a pending stage is sent again: its insertion where its elements stand among those that the stage
/// before sees, and one piece for each run of elements there that it marks, leftmost first, with positions as after the
/// earlier pieces. Where nothing of the stage is left there are none. It goes to the leaves that the stage touched, once for each
/// kind of piece, and finds the place of each.
pub fn regenerate<C: Content>(tree: &Tree<C>, stage: u64) -> Result<Vec<Piece>, OutOfMemory>
    requires { IsTrue tree.now.usable }
    ensures { IfOk result (λ v. v.items ≡ pieces stage (elements C.units C.by tree.now.leaves)) }
{
    let mut pieces = Vec::new(tree.allocator());
    if let Some(pos) = insertion_position(tree, stage)? {
        pieces.push(Piece::Insert { pos })?;
    }
    let removed = marked_runs(tree, stage, PendingMark::Removal)?;
    push_removals(&mut pieces, &removed)?;
    let changed = marked_runs(tree, stage, PendingMark::Changes)?;
    push_annotations(&mut pieces, &changed)?;
    Ok(pieces)
}

// Adds a removal of each run, with its position as after those before it.
fn push_removals(pieces: &mut Vec<Piece>, runs: &[(u64, u64)]) -> Result<(), OutOfMemory>
    requires { RunsRise 0 runs.now }
    ensures { OnOk result (pieces.new.items ≡ pieces.old.items ++ map (λ r. Piece.Remove r.0 r.1) (lowered_runs 0 runs.now)) }
{
    let mut removed = 0;
    for (start, end) in runs {
        pieces.push(Piece::Remove {
            pos1: *start - removed,
            pos2: *end - removed,
        })?;
        removed += *end - *start;
    }
    Ok(())
}

// Adds an annotation of each run.
fn push_annotations(pieces: &mut Vec<Piece>, runs: &[(u64, u64)]) -> Result<(), OutOfMemory>
    ensures { OnOk result (pieces.new.items ≡ pieces.old.items ++ map (λ r. Piece.Annotate r.0 r.1) runs.now) }
{
    for (pos1, pos2) in runs {
        pieces.push(Piece::Annotate {
            pos1: *pos1,
            pos2: *pos2,
        })?;
    }
    Ok(())
}
