//! The operations of a group, of the text or of the grid.

ghost use Rattle.std.specs.Prelude.{map};
ghost use Rattle.std.specs.List.{AllByRecursion};
ghost use Rattle.serde_json.specs.View.{view};
ghost use Rattle.ft_json.specs.Readers.{Reads};
ghost use Rattle.ft_op.specs.Reading.{read_each};

use crate::operations::OpFault;
use ft_base::List;
use serde_json::Value;
use std::alloc::Global;

/// An operation that may stand in a group.
pub(crate) trait GroupItem: Sized + Drop {
    ghost use Rattle.std.specs.Prelude.{Result};
    ghost use Rattle.serde_json.specs.Data.{Data};
    ghost use Rattle.serde_json.specs.View.{view};
    ghost use Rattle.ft_json.specs.Readers.{Reads};
    ghost use Rattle.ft_op.specs.declared.operations.OpFault.{OpFault};

    /// The operation that an item is, or its first fault.
    ghost item: { Data → Result Self OpFault };

    /// What holds of one that was read.
    ghost IsFormed: { Self → Type 0 };

    /// The operation of an item of a group.
    fn read_item(alloc: Global, value: &Value) -> Result<Self, OpFault>
        ensures { Reads OpFault.OutOfMemory (item (view value.now)) IsFormed result };
}

/// The operations of the items of a group.
pub(crate) fn read_items<T: GroupItem>(alloc: Global, items: &[Value]) -> Result<List<T>, OpFault>
    ensures { Reads OpFault.OutOfMemory (read_each T.item (map view items.now)) (AllByRecursion T.IsFormed) result }
{
    let mut ops = List::new(alloc);
    for item in items {
        let op = T::read_item(alloc, item)?;
        ops.push(op)?;
    }
    Ok(ops)
}
