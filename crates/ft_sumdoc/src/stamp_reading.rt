//! Reading the stamps of segments and runs.

ghost use Rattle.std.specs.Prelude.{◌≡◌, IfOk, map, option_map};
ghost use Rattle.serde_json.specs.View.{view};
ghost use Rattle.ft_sumdoc.specs.Forms.{each_of, optional};
ghost use Rattle.ft_sumdoc.specs.Items.{stamps_of};
ghost use Rattle.ft_sumdoc.specs.Narrow.{narrow, narrow_author, narrow_conn, narrow_form, narrow_removals, narrow_stamps};
ghost use Rattle.ft_sumdoc.specs.Stamps.{stamp_of_counts};

use crate::items::StampItem;
use crate::summary::{Mark, Marks};
use ft_base::OutOfMemory;
use ft_json::{Field, count, field, items};
use serde_json::Value;
use std::alloc::Global;

// The number of a connection in 32 bits: 0, which no connection has, where it doesn't fit.
fn narrow_conn(conn: u64) -> u32
    ensures { result ≡ narrow_conn conn }
{
    if conn <= u32::MAX as u64 {
        conn as u32
    } else {
        0
    }
}

// The stamp of two counts.
fn stamp_of_counts(values: &[Value]) -> Option<Mark>
    ensures { result ≡ option_map narrow (stamp_of_counts (map view values.now)) }
{
    let [seq, conn] = values else {
        return None;
    };
    let seq = count(seq)?;
    let conn = count(conn)?;
    Some(Mark {
        seq,
        conn: narrow_conn(conn),
    })
}

// The stamp that the value is.
fn stamp(value: &Value) -> Option<Mark>
    ensures { result ≡ narrow_form (view value.now) }
{
    stamp_of_counts(items(value)?)
}

// The stamp of a field that may be absent: None where it is there and is no stamp.
fn optional_stamp(value: Option<&Value>) -> Option<Option<Mark>>
    ensures { result ≡ optional narrow_form (option_map (λ d. view d.now) value.entry) }
{
    match value {
        Some(value) => Some(Some(stamp(value)?)),
        None => Some(None),
    }
}

// The stamps that the values are: None where one is no stamp.
fn stamps(alloc: Global, values: &[Value]) -> Result<Option<Marks>, OutOfMemory>
    ensures { IfOk result (λ marks. marks ≡ each_of narrow_form (map view values.now)) }
{
    let mut marks = Marks::new(alloc);
    for value in values {
        let Some(mark) = stamp(value) else {
            return Ok(None);
        };
        marks.push(mark)?;
    }
    Ok(Some(marks))
}

// The removals of a field that may be absent: None where it is there and is no array of stamps.
fn removals(alloc: Global, value: Option<&Value>) -> Result<Option<Marks>, OutOfMemory>
    ensures { IfOk result (λ marks. marks ≡ narrow_removals (option_map (λ d. view d.now) value.entry)) }
{
    let Some(value) = value else {
        return Ok(Some(Marks::new(alloc)));
    };
    let Some(values) = items(value) else {
        return Ok(None);
    };
    stamps(alloc, values)
}

/// The author that a segment gives in a summary of this version: None where it is there and is no
/// stamp.
pub(crate) fn author(version: u64, value: &Value) -> Option<Option<Mark>>
    ensures { result ≡ narrow_author version (view value.now) }
{
    if version == 2 {
        optional_stamp(field(value, Field::Inserter))
    } else {
        Some(None)
    }
}

/// The stamps that an object gives beside this author: None where one has not the form.
pub(crate) fn stamp_item(
    alloc: Global,
    author: Option<Mark>,
    value: &Value,
) -> Result<Option<StampItem>, OutOfMemory>
    ensures { IfOk result (λ item. option_map stamps_of item ≡ narrow_stamps author (view value.now)) }
{
    let Some(insertion) = optional_stamp(field(value, Field::Insertion)) else {
        return Ok(None);
    };
    let Some(removals) = removals(alloc, field(value, Field::Removals))? else {
        return Ok(None);
    };
    Ok(Some(StampItem {
        author,
        insertion,
        removals,
    }))
}
