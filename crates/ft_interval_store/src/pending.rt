//! Pending operations on intervals.

ghost use Rattle.std.specs.Prelude.{◌≡◌, ◌≤◌, ◌++◌, [], ◌∷◌, Some, None, OnOk, OnErr, cond, nat_lt, position};
ghost use Rattle.std.specs.List.{list_any, prefix_len};
ghost use Rattle.ft_op.specs.Document.{ends_of};
ghost use Rattle.ft_interval_store.specs.declared.pending.Operation.{Operation};
ghost use Rattle.ft_interval_store.specs.Intervals.{is_on};
ghost use Rattle.ft_interval_store.specs.Shown.{last};
ghost use Rattle.ft_interval_store.specs.State.{StagesRise, is_add, is_at_stage};

use crate::intervals::{EndPair, is_same_name};
use ft_base::moved::push_behind;
use ft_base::{Datum, OutOfMemory, Text};
use ft_op::{Ends, TextOp};
use ft_refs::RefId;
use std::collections::VecDeque;

/// A pending operation on an interval: its stage, the operation as it was made, and references on the elements at its
/// ends.
#[derive(Drop)]
pub struct Operation {
    pub stage: u64,
    pub op: TextOp,
    pub ends: EndPair<RefId>,
}

impl Operation {
    /// Its stage, a number of 64 bits.
    pub fn stage(&self) -> u64
        ensures value { result ≡ self.now.stage }
        ensures fits { self.now.stage ≤ last }
    {
        self.stage
    }
}

/// Adds a copy of an operation with these ends behind all others.
///
/// Returns `OutOfMemory` where there is no room for it, and then nothing changed.
pub fn push_copy(
    pending: &mut VecDeque<Operation>,
    stage: u64,
    op: &TextOp,
    ends: EndPair<RefId>,
) -> Result<(), OutOfMemory>
    ensures ok { let t : Operation = record { stage = stage; op = op.now; ends = ends } in
        OnOk result (pending.new.items ≡ pending.old.items ++ t ∷ []) }
    ensures err { OnErr result (pending.new.items ≡ pending.old.items) }
{
    let op = op.copy()?;
    push_behind(pending, Operation { stage, op, ends })
}

/// The place of the operation of that stage, if it is pending, by a binary search: stages rise.
pub fn place_of_stage(pending: &VecDeque<Operation>, stage: u64) -> Option<usize>
    requires { StagesRise 0 pending.now.items }
    ensures { result ≡ position (is_at_stage stage) pending.now.items }
{
    let place = first_from(pending, stage);
    match pending.get(place) {
        Some(t) => place_if(t.stage == stage, place),
        None => None,
    }
}

// The place of the first operation whose stage is at least this one, or how many there are.
fn first_from(pending: &VecDeque<Operation>, stage: u64) -> usize
    requires { StagesRise 0 pending.now.items }
    ensures { result ≡ prefix_len (λ t. nat_lt t.stage stage) pending.now.items }
{
    pending.partition_point(|t| t.stage < stage)
}

// The place, if it is wanted.
fn place_if(wanted: bool, place: usize) -> Option<usize>
    ensures { result ≡ cond wanted (Some place) None }
{
    if wanted { Some(place) } else { None }
}

/// Whether the operation of that stage is pending.
pub fn has_stage(pending: &VecDeque<Operation>, stage: u64) -> bool
    requires { StagesRise 0 pending.now.items }
    ensures { result ≡ list_any (is_at_stage stage) pending.now.items }
{
    place_of_stage(pending, stage).is_some()
}

/// Whether the operation adds an interval.
pub fn is_add(op: &TextOp) -> bool
    ensures { result ≡ is_add op.now }
{
    matches!(op, TextOp::IntervalAdd { .. })
}

/// The ends that an operation gives, if it gives some.
pub fn given_ends(op: &TextOp) -> Option<Ends>
    ensures { result ≡ ends_of op.now }
{
    match op {
        TextOp::IntervalAdd { ends, .. } => Some(*ends),
        TextOp::IntervalChange { ends, .. } => *ends,
        TextOp::IntervalDelete { .. } | TextOp::One(_) | TextOp::Group(_) => None,
    }
}

/// Whether the operation is on the interval of that label and id.
pub fn is_on(label: &Text, id: &Text, op: &TextOp) -> bool
    ensures { result ≡ is_on (label.now, id.now) op.now }
{
    match op {
        TextOp::IntervalAdd {
            label: to,
            id: of,
            ..
        } => is_same_name(label, id, to, of),
        TextOp::IntervalChange {
            label: to,
            id: of,
            ..
        } => is_same_name(label, id, to, of),
        TextOp::IntervalDelete { label: to, id: of } => is_same_name(label, id, to, of),
        TextOp::One(_) | TextOp::Group(_) => false,
    }
}
