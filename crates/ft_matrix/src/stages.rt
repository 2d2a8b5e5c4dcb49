//! Pending stages of the grid.

use ft_op::CellOp;

/// A pending stage: its number, its operation, and the handles of the row and the column that this names, if it is a cell
/// write.
#[derive(Drop)]
pub struct GridStage {
    pub stage: u64,
    pub op: CellOp,
    pub row: Option<u64>,
    pub col: Option<u64>,
}
