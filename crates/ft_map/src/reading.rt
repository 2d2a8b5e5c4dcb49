//! Reading the events of a map session.

ghost use Rattle.std.specs.Prelude.{Ok, Err, option_map};
ghost use Rattle.serde_json.specs.View.{view};
ghost use Rattle.ft_json.specs.Readers.{Gives};
ghost use Rattle.ft_map.specs.declared.events.MapEvent.TheVariants.{Connect, Drop, Show, Summary, Ticket, Deliver};
ghost use Rattle.ft_map.specs.MapEventReader.{ReadsMapEvent};
ghost use Rattle.ft_map.specs.MapGrammar.{counted_event, delete_op, edit_event, edit_op, event_for, event_of, event_of_client, map_event, map_op, set_op, set_value, start_event, typed_op};

use crate::events::MapEvent;
use ft_base::Text;
use ft_json::{Field, ValText, canonical, count, field, read_line, str_field, text_field};
use ft_msg::Cause;
use ft_op::is_object;
use ft_seqr::Refusal;
use ft_seqr::reading::{read_client, read_count, read_from};
use ft_shared_map::MapOp;
use serde_json::Value;
use std::alloc::Global;

/// The event that the line is.
///
/// Returns `Malformed` with the first fault in the order in which its fields are tested, and
/// `OutOfMemory` where there is no room for it.
pub fn read_map_event(alloc: Global, line: &[u8]) -> Result<MapEvent, Refusal>
    ensures { ReadsMapEvent line.now result }
{
    Ok(read_event_text(alloc, line)?)
}

// The event that the line is, or the cause why it is none.
#[tactic(auto, unfolding(crate::specs::MapGrammar::map_event))]
fn read_event_text(alloc: Global, line: &[u8]) -> Result<MapEvent, Cause>
    ensures { Gives Cause.OutOfMemory (map_event line.now) result }
{
    let value = read_line(alloc, line)?;
    read_event_value(alloc, &value)
}

// The event that the value is.
#[tactic(auto, unfolding(crate::specs::MapGrammar::event_of))]
fn read_event_value(alloc: Global, value: &Value) -> Result<MapEvent, Cause>
    ensures { Gives Cause.OutOfMemory (event_of (view value.now)) result }
{
    if !is_object(value) {
        return Err(Cause::WrongKind(Field::Line));
    }
    read_event_for(alloc, value, str_field(value, Field::Do)?)
}

// The event of this word.
fn read_event_for(alloc: Global, value: &Value, word: &str) -> Result<MapEvent, Cause>
    ensures { Gives Cause.OutOfMemory (event_for word.now (view value.now)) result }
{
    match word {
        "start" => read_start(alloc, value),
        "connect" => read_connect(alloc, value),
        "drop" => read_drop(alloc, value),
        "edit" => read_edit(alloc, value),
        "ticket" => read_ticket(alloc, value),
        "deliver" => read_deliver(alloc, value),
        "show" => read_show(alloc, value),
        "summary" => read_summary(alloc, value),
        _ => Err(Cause::UnknownWord),
    }
}

// A connection for the client.
#[tactic(auto, unfolding(crate::specs::MapGrammar::event_of_client))]
fn read_connect(alloc: Global, value: &Value) -> Result<MapEvent, Cause>
    ensures { Gives Cause.OutOfMemory (event_of_client Connect (view value.now)) result }
{
    let client = read_client(alloc, value)?;
    Ok(MapEvent::Connect { client })
}

// The loss of the client's connection.
#[tactic(auto, unfolding(crate::specs::MapGrammar::event_of_client))]
fn read_drop(alloc: Global, value: &Value) -> Result<MapEvent, Cause>
    ensures { Gives Cause.OutOfMemory (event_of_client Drop (view value.now)) result }
{
    let client = read_client(alloc, value)?;
    Ok(MapEvent::Drop { client })
}

// The client's view.
#[tactic(auto, unfolding(crate::specs::MapGrammar::event_of_client))]
fn read_show(alloc: Global, value: &Value) -> Result<MapEvent, Cause>
    ensures { Gives Cause.OutOfMemory (event_of_client Show (view value.now)) result }
{
    let client = read_client(alloc, value)?;
    Ok(MapEvent::Show { client })
}

// The client's summary.
#[tactic(auto, unfolding(crate::specs::MapGrammar::event_of_client))]
fn read_summary(alloc: Global, value: &Value) -> Result<MapEvent, Cause>
    ensures { Gives Cause.OutOfMemory (event_of_client Summary (view value.now)) result }
{
    let client = read_client(alloc, value)?;
    Ok(MapEvent::Summary { client })
}

// So many of the client's oldest unsent messages are submitted.
#[tactic(auto, unfolding(crate::specs::MapGrammar::counted_event))]
fn read_ticket(alloc: Global, value: &Value) -> Result<MapEvent, Cause>
    ensures { Gives Cause.OutOfMemory (counted_event Ticket (view value.now)) result }
{
    let client = read_client(alloc, value)?;
    let count = read_count(field(value, Field::Count))?;
    Ok(MapEvent::Ticket { client, count })
}

// The client processes so many of the next messages.
#[tactic(auto, unfolding(crate::specs::MapGrammar::counted_event))]
fn read_deliver(alloc: Global, value: &Value) -> Result<MapEvent, Cause>
    ensures { Gives Cause.OutOfMemory (counted_event Deliver (view value.now)) result }
{
    let client = read_client(alloc, value)?;
    let count = read_count(field(value, Field::Count))?;
    Ok(MapEvent::Deliver { client, count })
}

// A new client.
#[tactic(auto, unfolding(crate::specs::MapGrammar::start_event))]
fn read_start(alloc: Global, value: &Value) -> Result<MapEvent, Cause>
    ensures { Gives Cause.OutOfMemory (start_event (view value.now)) result }
{
    let client = read_client(alloc, value)?;
    let from = read_from(alloc, field(value, Field::From))?;
    Ok(MapEvent::Start { client, from })
}

// An edit of the client's own.
#[tactic(auto, unfolding(crate::specs::MapGrammar::edit_event))]
fn read_edit(alloc: Global, value: &Value) -> Result<MapEvent, Cause>
    ensures { Gives Cause.OutOfMemory (edit_event (view value.now)) result }
{
    let client = read_client(alloc, value)?;
    let op = read_edit_op(alloc, field(value, Field::Op))?;
    Ok(MapEvent::Edit { client, op })
}

// The operation of an edit, which has to be there, and an object.
fn read_edit_op(alloc: Global, value: Option<&Value>) -> Result<MapOp, Cause>
    ensures { Gives Cause.OutOfMemory (edit_op (option_map (λ d. view d.now) value.entry)) result }
{
    let value = value.ok_or(Cause::Missing(Field::Op))?;
    if !is_object(value) {
        return Err(Cause::WrongKind(Field::Op));
    }
    read_op(alloc, value)
}

// The operation that the object is.
#[tactic(auto, unfolding(crate::specs::MapGrammar::map_op))]
fn read_op(alloc: Global, value: &Value) -> Result<MapOp, Cause>
    ensures { Gives Cause.OutOfMemory (map_op (view value.now)) result }
{
    read_typed_op(alloc, value, str_field(value, Field::Kind)?)
}

// The operation of this type.
fn read_typed_op(alloc: Global, value: &Value, word: &str) -> Result<MapOp, Cause>
    ensures { Gives Cause.OutOfMemory (typed_op word.now (view value.now)) result }
{
    match word {
        "set" => read_set(alloc, value),
        "delete" => read_delete(alloc, value),
        "clear" => Ok(MapOp::Clear),
        _ => Err(Cause::WrongKind(Field::Kind)),
    }
}

// A key that gets a value.
#[tactic(auto, unfolding(crate::specs::MapGrammar::set_op))]
fn read_set(alloc: Global, value: &Value) -> Result<MapOp, Cause>
    ensures { Gives Cause.OutOfMemory (set_op (view value.now)) result }
{
    let key = text_field(alloc, value, Field::Key)?;
    let value = read_set_value(alloc, field(value, Field::Value))?;
    Ok(MapOp::Set { key, value })
}

// The text of the value that a key gets, which has to be there.
fn read_set_value(alloc: Global, value: Option<&Value>) -> Result<ValText, Cause>
    ensures { Gives Cause.OutOfMemory (set_value (option_map (λ d. view d.now) value.entry)) result }
{
    let value = value.ok_or(Cause::Missing(Field::Value))?;
    Ok(canonical(alloc, value)?)
}

// A key that is taken away.
#[tactic(auto, unfolding(crate::specs::MapGrammar::delete_op))]
fn read_delete(alloc: Global, value: &Value) -> Result<MapOp, Cause>
    ensures { Gives Cause.OutOfMemory (delete_op (view value.now)) result }
{
    let key = text_field(alloc, value, Field::Key)?;
    Ok(MapOp::Delete { key })
}
