//! The JSON texts that a session writes of a client: its intervals that meet a range, and who inserted
//! its visible text.

ghost use Rattle.std.specs.Prelude.{◌≡◌, [], ◌++◌, IfOk, OnOk, map, option_copied};
ghost use Rattle.std.specs.List.{AllByRecursion};
ghost use Rattle.serde_json.specs.Data.{array, no_members, object};
ghost use Rattle.serde_json.specs.View.{items_view, members_view, view};
ghost use Rattle.serde_json.specs.Written.{compact_text};
ghost use Rattle.ft_json.specs.Canonical.{IsCanonical, value_of};
ghost use Rattle.ft_attrib.specs.Totals.{count_of};
ghost use Rattle.ft_op.specs.Representable.{IsKeyed};
ghost use Rattle.ft_op.specs.Written.{written_count, written_text};
ghost use Rattle.ft_sumdoc.specs.Written.{written_props};
ghost use Rattle.ft_seqr.specs.AnswerTexts.{counted_author, counted_nameless, known_authors, origin_name, origin_number, written_author, written_authors, written_name, written_nameless, written_origin_run, written_overlap};

use crate::writing::{put_number, put_text};
use ft_attrib::{AttrRun, Attribution, Origin, Total};
use ft_base::moved::push;
use ft_base::{OutOfMemory, Text};
use ft_json::{ValText, compact};
use ft_msg::Names;
use ft_props::Props;
use ft_sumdoc::IntervalRec;
use serde_json::{Map, Value, put};
use std::alloc::Global;

/// The text of an interval that meets a range: the array of its id, its ends and its properties, where
/// a value of more than 127 levels is null.
pub fn overlap_text(alloc: Global, interval: &IntervalRec) -> Result<ValText, OutOfMemory>
    ensures { IfOk result (λ text. text ≡ compact_text (written_overlap interval.now)) }
{
    let value = overlap_value(alloc, interval)?;
    compact(alloc, &value)
}

// The array of an interval's id, its ends and its properties.
fn overlap_value(alloc: Global, interval: &IntervalRec) -> Result<Value, OutOfMemory>
    ensures value { IfOk result (λ v. view v ≡ written_overlap interval.now) }
    ensures canonical { IfOk result (λ _. IsCanonical (written_overlap interval.now)) }
{
    let mut items = Vec::new(alloc);
    push_overlap(&mut items, alloc, interval)?;
    Ok(Value::Array(items))
}

// Adds the id, the ends and the properties of an interval to no values.
fn push_overlap(
    items: &mut Vec<Value>,
    alloc: Global,
    interval: &IntervalRec,
) -> Result<(), OutOfMemory>
    requires { items.old.items ≡ [] }
    ensures value { OnOk result (array (items_view items.new.items) ≡ written_overlap interval.now) }
    ensures canonical { OnOk result (IsCanonical (written_overlap interval.now)) }
{
    push(items, text_value(alloc, &interval.id)?)?;
    push(items, Value::from(interval.ends.start))?;
    push(items, Value::from(interval.ends.end))?;
    push(items, props_value(alloc, &interval.props)?)
}

// A count.
fn count_value(count: u64) -> Value
    ensures value { view result ≡ written_count count }
    ensures canonical { IsCanonical (written_count count) }
{
    Value::from(count)
}

// The object of properties.
fn props_value(alloc: Global, props: &Props) -> Result<Value, OutOfMemory>
    ensures value { IfOk result (λ v. view v ≡ written_props props.now) }
    ensures keyed { IfOk result (λ _. IsKeyed props.now) }
    ensures values { IfOk result (λ _. AllByRecursion (λ p. IsCanonical (value_of p.1)) props.now) }
{
    let mut members = Map::new(alloc);
    for (key, value) in props.as_slice() {
        put(&mut members, alloc, key.as_str(), value_of(alloc, value)?)?;
    }
    Ok(Value::Object(members))
}

// The value that the text stands for: null where it has more than 127 levels.
fn value_of(alloc: Global, text: &ValText) -> Result<Value, OutOfMemory>
    ensures value { IfOk result (λ v. view v ≡ value_of text.now) }
    ensures canonical { IfOk result (λ _. IsCanonical (value_of text.now)) }
{
    match Value::from_str(alloc, text.as_str()) {
        Ok(value) => Ok(value),
        Err(error) if error.is_memory() => Err(OutOfMemory),
        Err(_) => Ok(Value::Null),
    }
}

/// The text of a run of characters of one origin: by whom, where it ends, the number of the message,
/// and where it starts.
pub fn origin_run_text(alloc: Global, names: &Names, run: &AttrRun) -> Result<ValText, OutOfMemory>
    ensures { IfOk result (λ text. text ≡ compact_text (written_origin_run names.now run.now)) }
{
    let value = origin_run_value(alloc, names, run)?;
    compact(alloc, &value)
}

// The object of a run of characters of one origin.
fn origin_run_value(alloc: Global, names: &Names, run: &AttrRun) -> Result<Value, OutOfMemory>
    ensures value { IfOk result (λ v. view v ≡ written_origin_run names.now run.now) }
    ensures canonical { IfOk result (λ _. IsCanonical (written_origin_run names.now run.now)) }
{
    let mut members = Map::new(alloc);
    put_origin_run(&mut members, alloc, names, run)?;
    Ok(Value::Object(members))
}

// Puts the members of a run of characters of one origin into an object that has none.
fn put_origin_run(
    members: &mut Map<String, Value>,
    alloc: Global,
    names: &Names,
    run: &AttrRun,
) -> Result<(), OutOfMemory>
    requires { members_view members.old.entries ≡ no_members }
    ensures value { OnOk result (object (members_view members.new.entries) ≡ written_origin_run names.now run.now) }
    ensures canonical { OnOk result (IsCanonical (written_origin_run names.now run.now)) }
{
    put(members, alloc, "by", origin_name(alloc, names, run.who)?)?;
    put_number(members, alloc, "end", run.end)?;
    put(members, alloc, "seq", origin_number(run.who))?;
    put_number(members, alloc, "start", run.start)
}

// The name of an origin's connection, null where it isn't known.
fn origin_name(alloc: Global, names: &Names, who: Origin) -> Result<Value, OutOfMemory>
    ensures value { IfOk result (λ v. view v ≡ origin_name names.now who) }
    ensures canonical { IfOk result (λ _. IsCanonical (origin_name names.now who)) }
{
    match who {
        Origin::Known { conn, .. } => written_name(alloc, names.name(conn)),
        Origin::Unknown | Origin::Pending => Ok(Value::Null),
    }
}

// A name, null where there is none.
fn written_name(alloc: Global, name: Option<&Text>) -> Result<Value, OutOfMemory>
    ensures value { IfOk result (λ v. view v ≡ written_name (option_copied name.entry)) }
    ensures canonical { IfOk result (λ _. IsCanonical (written_name (option_copied name.entry))) }
{
    match name {
        Some(name) => text_value(alloc, name),
        None => Ok(Value::Null),
    }
}

// A text.
fn text_value(alloc: Global, text: &Text) -> Result<Value, OutOfMemory>
    ensures value { IfOk result (λ v. view v ≡ written_text text.now) }
    ensures canonical { IfOk result (λ _. IsCanonical (written_text text.now)) }
{
    Ok(Value::try_from_str(alloc, text.as_str())?)
}

// The number of an origin's message: 0 where it isn't known, null where there is none yet.
fn origin_number(who: Origin) -> Value
    ensures value { view result ≡ origin_number who }
    ensures canonical { IsCanonical (origin_number who) }
{
    match who {
        Origin::Known { seq, .. } => count_value(seq),
        Origin::Unknown => count_value(0),
        Origin::Pending => Value::Null,
    }
}

/// The texts of how many characters each connection inserted, then how many nobody known, then how
/// many are pending; each only where there are some.
pub fn author_texts(
    alloc: Global,
    names: &Names,
    origins: &Attribution,
) -> Result<Vec<ValText>, OutOfMemory>
    ensures { IfOk result (λ texts. texts.items ≡ map compact_text (written_authors names.now origins.now)) }
{
    let mut texts = known_author_texts(alloc, names, origins)?;
    push_nameless(&mut texts, alloc, false, origins.unknown())?;
    push_nameless(&mut texts, alloc, true, origins.pending())?;
    Ok(texts)
}

// The texts of how many characters each connection inserted, unless it has none.
fn known_author_texts(
    alloc: Global,
    names: &Names,
    origins: &Attribution,
) -> Result<Vec<ValText>, OutOfMemory>
    ensures { IfOk result (λ texts. texts.items ≡ map compact_text (known_authors 1 names.now origins.now)) }
{
    let totals = origins.totals()?;
    let mut texts = Vec::new(alloc);
    let mut conn = 1u32;
    while let Some(name) = names.name(conn) {
        let count = count_of(totals.as_slice(), conn);
        push_author(&mut texts, alloc, name, count)?;
        conn = conn.checked_add(1).ok_or(OutOfMemory)?;
    }
    Ok(texts)
}

// How many characters the connection has.
fn count_of(totals: &[Total], conn: u32) -> u64
    ensures { result ≡ count_of conn totals.now }
{
    for total in totals {
        if conn == total.conn {
            return total.count;
        }
    }
    0
}

// Adds the text of how many characters the connection of that name inserted, unless it has none.
fn push_author(
    texts: &mut Vec<ValText>,
    alloc: Global,
    name: &Text,
    count: u64,
) -> Result<(), OutOfMemory>
    ensures { OnOk result (texts.new.items
        ≡ texts.old.items ++ map compact_text (counted_author name.now count)) }
{
    if count == 0 {
        return Ok(());
    }
    let value = author_value(alloc, name, count)?;
    push(texts, compact(alloc, &value)?)
}

// The object of how many characters the connection of that name inserted.
fn author_value(alloc: Global, name: &Text, count: u64) -> Result<Value, OutOfMemory>
    ensures value { IfOk result (λ v. view v ≡ written_author name.now count) }
    ensures canonical { IfOk result (λ _. IsCanonical (written_author name.now count)) }
{
    let mut members = Map::new(alloc);
    put_author(&mut members, alloc, name, count)?;
    Ok(Value::Object(members))
}

// Puts the members of how many characters the connection of that name inserted into an object that has none.
fn put_author(
    members: &mut Map<String, Value>,
    alloc: Global,
    name: &Text,
    count: u64,
) -> Result<(), OutOfMemory>
    requires { members_view members.old.entries ≡ no_members }
    ensures value { OnOk result (object (members_view members.new.entries) ≡ written_author name.now count) }
    ensures canonical { OnOk result (IsCanonical (written_author name.now count)) }
{
    put_text(members, alloc, "by", name)?;
    put_number(members, alloc, "count", count)
}

// Adds the text of how many characters have no name, pending or not, unless there are none.
fn push_nameless(
    texts: &mut Vec<ValText>,
    alloc: Global,
    pending: bool,
    count: u64,
) -> Result<(), OutOfMemory>
    ensures { OnOk result (texts.new.items
        ≡ texts.old.items ++ map compact_text (counted_nameless pending count)) }
{
    if count == 0 {
        return Ok(());
    }
    let value = nameless_value(alloc, pending, count)?;
    push(texts, compact(alloc, &value)?)
}

// The object of how many characters have no name, pending or not.
fn nameless_value(alloc: Global, pending: bool, count: u64) -> Result<Value, OutOfMemory>
    ensures value { IfOk result (λ v. view v ≡ written_nameless pending count) }
    ensures canonical { IfOk result (λ _. IsCanonical (written_nameless pending count)) }
{
    let mut members = Map::new(alloc);
    put_nameless(&mut members, alloc, pending, count)?;
    Ok(Value::Object(members))
}

// Puts the members of how many characters have no name, pending or not, into an object that has none.
fn put_nameless(
    members: &mut Map<String, Value>,
    alloc: Global,
    pending: bool,
    count: u64,
) -> Result<(), OutOfMemory>
    requires { members_view members.old.entries ≡ no_members }
    ensures value { OnOk result (object (members_view members.new.entries) ≡ written_nameless pending count) }
    ensures canonical { OnOk result (IsCanonical (written_nameless pending count)) }
{
    put(members, alloc, "by", Value::Null)?;
    put_number(members, alloc, "count", count)?;
    Ok(put(members, alloc, "pending", Value::from(pending))?)
}
