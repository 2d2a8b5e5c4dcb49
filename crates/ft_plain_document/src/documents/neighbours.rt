//! Whether a message moves ends of intervals as it moves the lists of a document.

ghost use Rattle.std.specs.Prelude.{◌≡◌, IsTrue, true};
ghost use Rattle.ft_op.specs.declared.operations.ChannelOp.TheVariants.{Text};
ghost use Rattle.ft_op.specs.Operation.{OnText};
ghost use Rattle.ft_msg.specs.declared.messages.Body.TheVariants.{Op};
ghost use Rattle.ft_msg.specs.Agreed.{reference_number};
ghost use Rattle.ft_changes.specs.Beside.{body_moves_ends_alike, moves_ends_alike};

use crate::documents::{PlainDocument, reference_number};
use ft_base::Perspective;
use ft_msg::{Body, Entry};
use ft_op::{BaseOp, ChannelOp, GridOp, TextOp};

impl PlainDocument {
    /// Whether an entry moves no end of an interval elsewhere than it moves the lists. It says no of each group.
    pub fn moves_ends_alike(&self, entry: &Entry) -> bool
        ensures { IsTrue result → body_moves_ends_alike self.now entry.now.origin (reference_number entry.now.msg.ref_seq) entry.now.msg.body ≡ true }
    {
        let at = Perspective {
            r: reference_number(entry.msg.ref_seq),
            c: entry.origin,
        };
        match &entry.msg.body {
            Body::Op(op) => self.operation_moves_ends_alike(op, at),
            Body::Nothing | Body::Elsewhere(_) => true,
        }
    }

    // The same of an operation by the perspective.
    fn operation_moves_ends_alike(&self, op: &ChannelOp, at: Perspective) -> bool
        ensures { IsTrue result → body_moves_ends_alike self.now at.c at.r (Op op.now) ≡ true }
    {
        match op {
            ChannelOp::Text(op) => self.text_moves_ends_alike(op, at),
            ChannelOp::Grid(GridOp::One(_)) => true,
            ChannelOp::Grid(GridOp::Group(_)) => false,
        }
    }

    // And of one of the text or its intervals.
    fn text_moves_ends_alike(&self, op: &TextOp, at: Perspective) -> bool
        ensures { IsTrue result → body_moves_ends_alike self.now at.c at.r (Op (Text op.now)) ≡ true }
    {
        match op {
            TextOp::One(op) => self.elements_move_ends_alike(op, at),
            TextOp::Group(_) => false,
            TextOp::IntervalAdd { .. }
            | TextOp::IntervalChange { .. }
            | TextOp::IntervalDelete { .. } => true,
        }
    }

    // And of one of the elements of the text.
    fn elements_move_ends_alike(&self, op: &BaseOp, at: Perspective) -> bool
        ensures { result ≡ moves_ends_alike self.now at.c at.r (OnText op.now) }
    {
        match op {
            BaseOp::Insert { pos, .. } => self.text.passes_beside_place(*pos, at),
            BaseOp::Remove { pos1, pos2 } => self.text.passes_beside_range(*pos1, *pos2, at),
            BaseOp::Annotate { .. } => true,
        }
    }
}
