//! The arrays of what a summary lists.

ghost use Rattle.std.specs.Prelude.{◌≡◌, IfOk, OnOk};
ghost use Rattle.std.specs.List.{AllByRecursion};
ghost use Rattle.serde_json.specs.Data.{array, put};
ghost use Rattle.serde_json.specs.View.{items_view, members_view};
ghost use Rattle.ft_op.specs.Written.{written_items};

use ft_base::OutOfMemory;
use serde_json::{Map, Value, put};
use std::alloc::Global;

/// An item of a list of a summary, which is written.
pub(crate) trait WrittenItem: Sized {
    ghost use Rattle.std.specs.Prelude.{◌≡◌, IfOk};
    ghost use Rattle.serde_json.specs.Data.{Data};
    ghost use Rattle.serde_json.specs.View.{view};

    /// What it is written as.
    ghost written: { Self → Data };

    /// What is asked of one.
    ghost IsWritable: { Self → Type 0 };

    /// What its type promises.
    ghost IsRepresentable: { Self → Type 0 };

    /// The value that it is written as.
    fn to_value(&self, alloc: Global) -> Result<Value, OutOfMemory>
        requires { IsWritable self.now }
        ensures value { IfOk result (λ v. view v ≡ written self.now) }
        ensures representable { IfOk result (λ _. IsRepresentable self.now) };
}

/// The values that the items are written as.
pub(crate) fn written_each<T: WrittenItem>(
    alloc: Global,
    items: &[T],
) -> Result<Vec<Value>, OutOfMemory>
    requires { AllByRecursion T.IsWritable items.now }
    ensures value { IfOk result (λ vs. items_view vs.items ≡ written_items T.written items.now) }
    ensures representable { IfOk result (λ _. AllByRecursion T.IsRepresentable items.now) }
{
    let mut values = Vec::new(alloc);
    for item in items {
        values.push(item.to_value(alloc)?)?;
    }
    Ok(values)
}

/// Puts the array of the items under the key.
pub(crate) fn put_each<T: WrittenItem>(
    members: &mut Map<String, Value>,
    alloc: Global,
    key: &str,
    items: &[T],
) -> Result<(), OutOfMemory>
    requires { AllByRecursion T.IsWritable items.now }
    ensures value { OnOk result (members_view members.new.entries
        ≡ put key.now (array (written_items T.written items.now)) (members_view members.old.entries)) }
    ensures representable { OnOk result (AllByRecursion T.IsRepresentable items.now) }
{
    let values = written_each(alloc, items)?;
    Ok(put(members, alloc, key, Value::Array(values))?)
}
