//! Pending operations on elements.

use ft_op::BaseOp;

/// A pending operation on the elements of a text: its stage, and the operation as it was made.
#[derive(Drop)]
pub struct PendingOp {
    pub stage: u64,
    pub op: BaseOp,
}
