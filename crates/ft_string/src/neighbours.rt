//! Whether an operation of a message moves ends of intervals as it moves the elements of a shared text.

ghost use Rattle.std.specs.Prelude.{◌≡◌, ◌≤◌, ℕ, List, IsTrue, true};
ghost use Rattle.ft_changes.specs.Beside.{body_moves_ends_alike};
ghost use Rattle.ft_interval_store.specs.State.{text_elements};
ghost use Rattle.ft_msg.specs.declared.messages.Body.TheVariants.{Op};
ghost use Rattle.ft_op.specs.declared.operations.ChannelOp.TheVariants.{Text};
ghost use Rattle.ft_op.specs.Document.{Document};
ghost use Rattle.ft_op.specs.Stages.{Stage};
ghost use Rattle.ft_op.specs.WellFormed.{IsWellFormedBase, IsWellFormedText};
ghost use Rattle.ft_string.specs.Holds.{HoldsText, IsTextSound};
ghost use Rattle.ft_string.specs.Neighbours.{passes_beside};

use crate::strings::SharedString;
use ft_base::Perspective;
use ft_block::LenView;
use ft_op::{BaseOp, TextOp};
use ft_text::lengths::end_of;
use ft_tree::{TextContent, Tree};
use ft_tree_changes::{passes_beside_place, passes_beside_range};

impl SharedString {
    /// Whether an operation of a message of another client moves no end of an interval elsewhere than it moves the elements.
    ///
    /// It may say no where that is so: of a group, of an operation that is out of range, and where it doesn't find out whether
    /// what stands beside the change is seen at each stage. It takes no memory.
    pub fn moves_ends_alike(&self, op: &TextOp, at: Perspective) -> bool
        requires usable { IsTrue self.now.usable }
        requires formed { IsWellFormedText op.now }
        requires floor { self.now.floor ≤ at.r }
        ensures { (last : ℕ) → (doc : Document) → (stages : List Stage) → IsTextSound last doc stages → HoldsText self.now doc stages
            → IsTrue result → body_moves_ends_alike doc at.c at.r (Op (Text op.now)) ≡ true }
    {
        match op {
            TextOp::One(op) => passes_beside(&self.tree, op, at),
            TextOp::Group(_) => false,
            TextOp::IntervalAdd { .. }
            | TextOp::IntervalChange { .. }
            | TextOp::IntervalDelete { .. } => true,
        }
    }
}

// Whether what stands beside an operation on the elements is seen at each stage.
fn passes_beside(tree: &Tree<TextContent>, op: &BaseOp, at: Perspective) -> bool
    requires usable { IsTrue tree.now.usable }
    requires formed { IsWellFormedBase op.now }
    requires floor { tree.now.floor ≤ at.r }
    ensures { IsTrue result → passes_beside at op.now (text_elements tree.now) ≡ true }
{
    let view = LenView::At(at);
    if tree.length(view) < end_of(op) {
        return false;
    }
    match op {
        BaseOp::Insert { pos, .. } => passes_beside_place(tree, *pos, view),
        BaseOp::Remove { pos1, pos2 } => passes_beside_range(tree, *pos1, *pos2, view),
        BaseOp::Annotate { .. } => true,
    }
}
