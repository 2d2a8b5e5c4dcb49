//! Of which intervals an operation is.

ghost use Rattle.std.specs.Prelude.{◌≡◌};
ghost use Rattle.ft_op.specs.Operation.{sub_operations};
ghost use Rattle.ft_changes.specs.Beside.{is_changed_by, is_named, is_operation_on};

use ft_base::Text;
use ft_op::{ChannelOp, TextOp};
use ft_props::keys::compare;
use ft_sumdoc::IntervalRec;

/// Whether the operation adds, changes or deletes the interval.
#[tactic(auto, using(crate::proofs::NamedIntervals::changed_by_text))]
pub fn is_changed_by(op: &ChannelOp, interval: &IntervalRec) -> bool
    ensures { result ≡ is_changed_by (sub_operations op.now) interval.now }
{
    match op {
        ChannelOp::Text(op) => is_operation_on(op, interval),
        ChannelOp::Grid(_) => false,
    }
}

/// The same of one of the text.
pub fn is_operation_on(op: &TextOp, interval: &IntervalRec) -> bool
    ensures { result ≡ is_operation_on op.now interval.now }
{
    match op {
        TextOp::IntervalAdd { label, id, .. } => is_named(label, id, interval),
        TextOp::IntervalChange { label, id, .. } => is_named(label, id, interval),
        TextOp::IntervalDelete { label, id } => is_named(label, id, interval),
        TextOp::One(_) | TextOp::Group(_) => false,
    }
}

// Whether it is the interval of that label and id.
fn is_named(label: &Text, id: &Text, interval: &IntervalRec) -> bool
    ensures { result ≡ is_named label.now id.now interval.now }
{
    compare(label.as_str(), interval.label.as_str()).is_eq()
        && compare(id.as_str(), interval.id.as_str()).is_eq()
}
