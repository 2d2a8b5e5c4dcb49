//! Reading what stands before the lists of a summary.

ghost use Rattle.std.specs.Prelude.{◌≡◌, ◌≢◌, ◌<◌, ◌^◌, Ok, Err, IfOk, IfErr, length, map};
ghost use Rattle.serde_json.specs.View.{view};
ghost use Rattle.ft_json.specs.Readers.{Gives};
ghost use Rattle.ft_json.specs.Reading.{needed_field};
ghost use Rattle.ft_sumdoc.specs.Counts.{are_distinct_names, head, known_version, names_form};
ghost use Rattle.ft_sumdoc.specs.Faults.{field_of_summary};
ghost use Rattle.ft_sumdoc.specs.Forms.{characters, each_of};
ghost use Rattle.ft_sumdoc.specs.Items.{head_of};

use crate::items::HeadItem;
use crate::summary::{SumCause, SumFault, Texts};
use ft_base::{OutOfMemory, Text};
use ft_json::{Field, FieldFault, count_field, field, items};
use serde_json::Value;
use std::alloc::Global;
use std::collections::HashMap;

// The version, if it is one that is read.
fn known_version(version: u64) -> Result<u64, SumFault>
    ensures { result ≡ known_version version }
{
    if version == 1 || version == 2 {
        Ok(version)
    } else {
        Err(SumFault::Version(version))
    }
}

// The string that the value is: None where it is no string.
fn name_item(alloc: Global, value: &Value) -> Result<Option<Text>, OutOfMemory>
    ensures { IfOk result (λ name. name ≡ characters (view value.now)) }
{
    match value.as_str() {
        Some(name) => Ok(Some(Text::new(alloc, name)?)),
        None => Ok(None),
    }
}

// The strings that the values are: None where one is no string.
fn name_items(alloc: Global, values: &[Value]) -> Result<Option<Texts>, OutOfMemory>
    ensures { IfOk result (λ names. names ≡ each_of characters (map view values.now)) }
{
    let mut names = Texts::new(alloc);
    for value in values {
        let Some(name) = name_item(alloc, value)? else {
            return Ok(None);
        };
        names.push(name)?;
    }
    Ok(Some(names))
}

/// Whether no name stands twice.
pub(crate) fn are_distinct(alloc: Global, names: &[Text]) -> Result<bool, OutOfMemory>
    ensures { IfOk result (λ distinct. distinct ≡ are_distinct_names names.now) }
{
    let mut later = HashMap::new(alloc);
    let mut i = names.len();
    while i > 0 {
        i -= 1;
        if later.insert(names[i].as_str(), ())?.is_some() {
            return Ok(false);
        }
    }
    Ok(true)
}

// The names that an array of strings is, none twice: None where it has not the form.
fn whole_names(alloc: Global, value: &Value) -> Result<Option<Texts>, OutOfMemory>
    ensures { IfOk result (λ names. names ≡ names_form (view value.now)) }
{
    let Some(values) = items(value) else {
        return Ok(None);
    };
    let Some(names) = name_items(alloc, values)? else {
        return Ok(None);
    };
    if are_distinct(alloc, names.as_slice())? {
        Ok(Some(names))
    } else {
        Ok(None)
    }
}

// The names of connections, fewer than 2^32.
//
// Returns `Missing` exactly where the field isn't there, `WrongKind` exactly where it is and has
// not the form, and `OutOfMemory` where there is no room for them, and where they are more.
fn read_names(alloc: Global, value: &Value) -> Result<Texts, SumFault>
    ensures reads { Gives SumFault.OutOfMemory (field_of_summary (needed_field names_form (view value.now) Field.Conns)) result }
    ensures few { IfOk result (λ names. length names < 2 ^ 32) }
{
    let f = Field::Conns;
    let found = field(value, f).ok_or(FieldFault::Missing(f))?;
    let Some(names) = whole_names(alloc, found)? else {
        return Err(SumFault::Malformed(SumCause::WrongKind(f)));
    };
    if names.len() <= u32::MAX as usize {
        Ok(names)
    } else {
        Err(SumFault::OutOfMemory)
    }
}

/// What stands before the lists.
#[tactic(auto, unfolding(crate::specs::Counts::head))]
pub(crate) fn read_head(alloc: Global, value: &Value) -> Result<HeadItem, SumFault>
    ensures ok { IfOk result (λ found. head (view value.now) ≡ Ok (head_of found)) }
    ensures err { IfErr result (λ fault. fault ≢ SumFault.OutOfMemory → head (view value.now) ≡ Err fault) }
    ensures few { IfOk result (λ found. length found.conns < 2 ^ 32) }
    ensures seq { IfOk result (λ found. found.seq < 2 ^ 53) }
{
    let version = known_version(count_field(value, Field::Version)?)?;
    let seq = count_field(value, Field::Seq)?;
    let min = count_field(value, Field::Min)?;
    let skipped = count_field(value, Field::Skipped)?;
    let other = count_field(value, Field::Other)?;
    if seq < min {
        return Err(SumFault::Malformed(SumCause::WrongKind(Field::Min)));
    }
    let conns = read_names(alloc, value)?;
    Ok(HeadItem {
        version,
        seq,
        min,
        skipped,
        other,
        conns,
    })
}
