//! Reading arrays item by item, where each has the form, or none is read.

ghost use Rattle.std.specs.Prelude.{◌≡◌, ◌≢◌, Ok, Err, IfOk, IfErr, map, option_map};
ghost use Rattle.std.specs.List.{AllByRecursion};
ghost use Rattle.serde_json.specs.View.{view};
ghost use Rattle.ft_json.specs.Readers.{Reads};
ghost use Rattle.ft_json.specs.Reading.{needed_field};
ghost use Rattle.ft_op.specs.Reading.{read_each};
ghost use Rattle.ft_sumdoc.specs.Faults.{field_of_summary};
ghost use Rattle.ft_sumdoc.specs.Forms.{array_form, each_of};

use crate::summary::{SumCause, SumFault};
use ft_base::{List, OutOfMemory};
use ft_json::{Field, FieldFault, JsonFault, field, items};
use serde_json::Value;
use std::alloc::Global;

/// An item of an array, as it is read of a value that lives for `'a`.
pub(crate) trait ListedItem<'a>: Sized + Drop {
    ghost use Rattle.std.specs.Prelude.{◌≡◌, Bool, List, Option, IfOk, map, option_map};
    ghost use Rattle.serde_json.specs.Data.{Data};
    ghost use Rattle.serde_json.specs.View.{view};

    /// What its form depends on.
    type Limits: Copy + Drop;

    /// What the grammar gives for an item.
    ghost Meant: { Type 0 };

    /// What an item stands for.
    ghost meaning: { Self → Meant };

    /// What a value gives.
    ghost form: { Self.Limits → Data → Option Meant };

    /// Whether items may stand together.
    ghost together: { List Meant → Bool };

    /// The item that the value is: None where it has not the form.
    fn read_item(
        alloc: Global,
        limits: Self::Limits,
        value: &'a Value,
    ) -> Result<Option<Self>, OutOfMemory>
        ensures { IfOk result (λ item. option_map meaning item ≡ form limits (view value.now)) };

    /// Whether the items may stand together.
    fn may_stand(items: &[Self]) -> bool
        ensures { result ≡ together (map meaning items.now) };
}

/// An item that is kept once its values are read.
pub(crate) trait KeptItem: Sized {
    ghost use Rattle.std.specs.Prelude.{Result};
    ghost use Rattle.ft_json.specs.Readers.{Reads};
    ghost use Rattle.ft_json.specs.declared.faults.JsonFault.{JsonFault};

    /// What is kept of it.
    type Record: Drop;

    /// What the grammar gives for an item.
    ghost Meant: { Type 0 };

    /// What an item stands for.
    ghost meaning: { Self → Meant };

    /// What is kept of one, or the first fault.
    ghost kept: { Meant → Result Self.Record JsonFault };

    /// What is asked of one.
    ghost IsGiven: { Meant → Type 0 };

    /// What holds of one that was kept.
    ghost IsFormed: { Self.Record → Type 0 };

    /// The item, as it is kept.
    fn keep(&self, alloc: Global) -> Result<Self::Record, JsonFault>
        requires { IsGiven (meaning self.now) }
        ensures { Reads JsonFault.OutOfMemory (kept (meaning self.now)) IsFormed result };
}

// The items that the values are: None where one has not the form.
fn read_values<'a, I: ListedItem<'a>>(
    alloc: Global,
    limits: I::Limits,
    values: &'a [Value],
) -> Result<Option<Vec<I>>, OutOfMemory>
    ensures { IfOk result (λ read. option_map (λ found. map I.meaning found.items) read
        ≡ each_of (I.form limits) (map view values.now)) }
{
    let mut found = Vec::new(alloc);
    for value in values {
        let Some(item) = I::read_item(alloc, limits, value)? else {
            return Ok(None);
        };
        found.push(item)?;
    }
    Ok(Some(found))
}

/// The items of the array that the value is: None where it has not the form.
pub(crate) fn read_array<'a, I: ListedItem<'a>>(
    alloc: Global,
    limits: I::Limits,
    value: &'a Value,
) -> Result<Option<Vec<I>>, OutOfMemory>
    ensures { IfOk result (λ read. option_map (λ found. map I.meaning found.items) read
        ≡ array_form (I.form limits) I.together (view value.now)) }
{
    let Some(values) = items(value) else {
        return Ok(None);
    };
    let Some(found) = read_values::<I>(alloc, limits, values)? else {
        return Ok(None);
    };
    if I::may_stand(&found) {
        Ok(Some(found))
    } else {
        Ok(None)
    }
}

/// The items of the array in a field.
///
/// Returns `Missing` exactly where the field isn't there, `WrongKind` exactly where it is and has
/// not the form, and `OutOfMemory` where there is no room for them.
pub(crate) fn read_array_field<'a, I: ListedItem<'a>>(
    alloc: Global,
    limits: I::Limits,
    value: &'a Value,
    f: Field,
) -> Result<Vec<I>, SumFault>
    ensures ok { IfOk result (λ found. field_of_summary (needed_field (array_form (I.form limits) I.together) (view value.now) f)
        ≡ Ok (map I.meaning found.items)) }
    ensures err { IfErr result (λ fault. fault ≢ SumFault.OutOfMemory
        → field_of_summary (needed_field (array_form (I.form limits) I.together) (view value.now) f) ≡ Err fault) }
{
    let found = field(value, f).ok_or(FieldFault::Missing(f))?;
    match read_array::<I>(alloc, limits, found)? {
        Some(found) => Ok(found),
        None => Err(SumFault::Malformed(SumCause::WrongKind(f))),
    }
}

/// The items, as they are kept.
pub(crate) fn keep_each<I: KeptItem>(
    alloc: Global,
    items: &[I],
) -> Result<List<I::Record>, JsonFault>
    requires { AllByRecursion I.IsGiven (map I.meaning items.now) }
    ensures { Reads JsonFault.OutOfMemory (read_each I.kept (map I.meaning items.now)) (AllByRecursion I.IsFormed) result }
{
    let mut records = List::new(alloc);
    for item in items {
        records.push(item.keep(alloc)?)?;
    }
    Ok(records)
}
