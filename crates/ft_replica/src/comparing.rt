//! Which of what is shown beside the lists is compared, before a message or an edit and after it.

ghost use Rattle.std.specs.Prelude.{◌≡◌, cond};
ghost use Rattle.std.specs.List.{list_any};
ghost use Rattle.ft_changes.specs.Laws.{sets_cell};
ghost use Rattle.ft_op.specs.Operation.{OnGrid, sub_operations};
ghost use Rattle.ft_replica.specs.declared.comparing.ComparedIntervals.TheVariants.{All as AllIntervals, OfOperationAndStages as OfBoth};
ghost use Rattle.ft_replica.specs.Comparing.{compared_by, compared_by_edit};

use ft_op::{CellOp, ChannelOp, GridOp};

/// Which intervals are compared, with a step of one operation.
#[derive(Clone, Copy)]
pub enum ComparedIntervals {
    /// All.
    All,
    /// Those that the operation adds, changes or deletes.
    OfOperation,
    /// Those that the operation or a pending stage adds, changes or deletes.
    OfOperationAndStages,
}

/// Which of what is shown beside the lists is compared. Of what isn't, the changes of the lists alone lead from the one to
/// the other.
#[derive(Clone, Copy)]
pub struct Compared {
    /// The cells.
    pub cells: bool,
    /// Which intervals.
    pub intervals: ComparedIntervals,
}

impl Compared {
    /// What is compared for another client's message with this operation: cells where it sets some; of intervals those that
    /// it or a pending stage adds, changes or deletes, if it moves the ends of the others as it moves the lists, else all.
    pub(crate) fn by_message(moves_alike: bool, op: &ChannelOp) -> Compared
        ensures { result ≡ compared_by moves_alike op.now }
    {
        Compared {
            cells: sets_cell(op),
            intervals: compared_around(moves_alike),
        }
    }

    /// What is compared for an edit of the client's own: cells where it is one of the table; of intervals those that it adds,
    /// changes or deletes.
    pub(crate) fn by_edit(op: &ChannelOp) -> Compared
        ensures { result ≡ compared_by_edit op.now }
    {
        Compared {
            cells: matches!(op, ChannelOp::Grid(_)),
            intervals: ComparedIntervals::OfOperation,
        }
    }
}

// The intervals that are compared for a message.
fn compared_around(moves_alike: bool) -> ComparedIntervals
    ensures { result ≡ cond moves_alike OfBoth AllIntervals }
{
    if moves_alike {
        ComparedIntervals::OfOperationAndStages
    } else {
        ComparedIntervals::All
    }
}

// Whether it has a sub-operation that sets a cell.
#[tactic(auto, using(crate::proofs::ComparedParts::text_unset, crate::proofs::ComparedParts::any_grid))]
fn sets_cell(op: &ChannelOp) -> bool
    ensures { result ≡ list_any sets_cell (sub_operations op.now) }
{
    match op {
        ChannelOp::Text(_) => false,
        ChannelOp::Grid(GridOp::One(op)) => is_set(op),
        ChannelOp::Grid(GridOp::Group(ops)) => has_set(ops.as_slice()),
    }
}

// Whether one of them sets a cell.
fn has_set(ops: &[CellOp]) -> bool
    ensures { result ≡ list_any (λ op. sets_cell (OnGrid op)) ops.now }
{
    ops.iter().any(|op| is_set(op))
}

// Whether it sets a cell.
fn is_set(op: &CellOp) -> bool
    ensures { result ≡ sets_cell (OnGrid op.now) }
{
    matches!(op, CellOp::Set { .. })
}
