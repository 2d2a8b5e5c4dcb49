//! Reading events.

ghost use Rattle.std.specs.Prelude.{◌≡◌, ◌<◌, ◌^◌, pos, Ok, Err, IfOk, IfErr, chars, option_map};
ghost use Rattle.serde_json.specs.View.{view};
ghost use Rattle.ft_json.specs.Readers.{Gives};
ghost use Rattle.ft_json.specs.Reading.{count, text_field};
ghost use Rattle.ft_msg.specs.Causes.{cause_of_field};
ghost use Rattle.ft_op.specs.Reading.{with_fault};
ghost use Rattle.ft_seqr.specs.Addresses.{word_of};
ghost use Rattle.ft_seqr.specs.ClientEvents.{event_that};
ghost use Rattle.ft_seqr.specs.declared.events.Event.TheVariants.{Guest as Enter, Part, Ticket, Deliver};
ghost use Rattle.ft_seqr.specs.EventGrammar.{addressed_op, blame_event, client_name_field, count_or_all, counted_event, edit_event, edit_op, event, event_for, event_of, event_of_client, given_count, given_from, guest_event, is_known_address, later_event, offer_event, op_for, overlap_event, places, start_event, submit_event};
ghost use Rattle.ft_seqr.specs.EventReader.{ReadsEvent};

use crate::events::{Event, HowMany};
use crate::refusals::Refusal;
use ft_base::Text;
use ft_json::{Field, count, count_field, field, read_line, str_field, text_field};
use ft_msg::Cause;
use ft_op::{ChannelOp, is_object, read_grid_op, read_text_op};
use serde_json::Value;
use std::alloc::Global;

/// The event that the line is.
///
/// Returns `Malformed` with the first fault in the order in which its fields are tested, `CountLimit`
/// where that is too great a count, and `OutOfMemory` where there is no room for it.
pub fn read_event(alloc: Global, line: &[u8]) -> Result<Event, Refusal>
    ensures { ReadsEvent line.now result }
{
    Ok(read_event_text(alloc, line)?)
}

// The event that the line is, or the cause why it is none.
#[tactic(auto, unfolding(crate::specs::EventGrammar::event))]
fn read_event_text(alloc: Global, line: &[u8]) -> Result<Event, Cause>
    ensures { Gives Cause.OutOfMemory (event line.now) result }
{
    let value = read_line(alloc, line)?;
    read_event_value(alloc, &value)
}

// The event that the value is.
#[tactic(auto, unfolding(crate::specs::EventGrammar::event_of))]
fn read_event_value(alloc: Global, value: &Value) -> Result<Event, Cause>
    ensures { Gives Cause.OutOfMemory (event_of (view value.now)) result }
{
    if !is_object(value) {
        return Err(Cause::WrongKind(Field::Line));
    }
    read_event_for(alloc, value, str_field(value, Field::Do)?)
}

// The event of this word.
fn read_event_for(alloc: Global, value: &Value, word: &str) -> Result<Event, Cause>
    ensures { Gives Cause.OutOfMemory (event_for (chars word.now) (view value.now)) result }
{
    read_spelled_event(alloc, value, word)
}

// The event of the word that these bytes spell.
fn read_spelled_event(alloc: Global, value: &Value, word: &str) -> Result<Event, Cause>
    ensures { Gives Cause.OutOfMemory (event_for word.now (view value.now)) result }
{
    match word {
        "start" => read_start(alloc, value),
        "connect" => read_of_client(alloc, value, OfClient::Connect),
        "drop" => read_of_client(alloc, value, OfClient::Drop),
        "edit" => read_edit(alloc, value),
        "ticket" => read_ticket(alloc, value),
        "deliver" => read_deliver(alloc, value),
        "noop" => read_of_client(alloc, value, OfClient::Noop),
        "show" => read_of_client(alloc, value, OfClient::Show),
        "queue" => read_of_client(alloc, value, OfClient::Queue),
        "compact" => read_of_client(alloc, value, OfClient::Compact),
        "summary" => read_of_client(alloc, value, OfClient::Summary),
        _ => read_later_event(alloc, value, word),
    }
}

// The event of this word, of those that have guests, or ask who inserted what and which intervals
// meet a range.
fn read_later_event(alloc: Global, value: &Value, word: &str) -> Result<Event, Cause>
    ensures { Gives Cause.OutOfMemory (later_event word.now (view value.now)) result }
{
    match word {
        "offer" => read_offer(alloc, value),
        "history" => Ok(Event::History),
        "guest" => read_guest(alloc, value),
        "submit" => read_submit(alloc, value),
        "part" => read_part(alloc, value),
        "overlap" => read_overlap(alloc, value),
        "blame" => read_blame(alloc, value),
        "authors" => read_of_client(alloc, value, OfClient::Authors),
        _ => Err(Cause::UnknownWord),
    }
}

/// The client of an event.
///
/// Returns the first fault of the field, and `OutOfMemory` where there is no room for the name.
#[tactic(auto, unfolding(crate::specs::EventGrammar::client_name_field))]
pub fn read_client(alloc: Global, value: &Value) -> Result<Text, Cause>
    ensures { Gives Cause.OutOfMemory (client_name_field (view value.now)) result }
{
    Ok(text_field(alloc, value, Field::Client)?)
}

// What an event does that has a client alone.
#[derive(Clone, Copy)]
enum OfClient {
    Connect,
    Drop,
    Noop,
    Show,
    Queue,
    Compact,
    Summary,
    Authors,
}

// The event that does this to a client.
#[tactic(auto, unfolding(crate::specs::EventGrammar::event_of_client))]
fn read_of_client(alloc: Global, value: &Value, act: OfClient) -> Result<Event, Cause>
    ensures { Gives Cause.OutOfMemory (event_of_client (event_that act) (view value.now)) result }
{
    let client = read_client(alloc, value)?;
    Ok(event_that(act, client))
}

// The event that does this to the client.
fn event_that(act: OfClient, client: Text) -> Event
    ensures { result ≡ event_that act client }
{
    match act {
        OfClient::Connect => Event::Connect { client },
        OfClient::Drop => Event::Drop { client },
        OfClient::Noop => Event::Noop { client },
        OfClient::Show => Event::Show { client },
        OfClient::Queue => Event::Queue { client },
        OfClient::Compact => Event::Compact { client },
        OfClient::Summary => Event::Summary { client },
        OfClient::Authors => Event::Authors { client },
    }
}

// A new guest.
#[tactic(auto, unfolding(crate::specs::EventGrammar::guest_event))]
fn read_guest(alloc: Global, value: &Value) -> Result<Event, Cause>
    ensures { Gives Cause.OutOfMemory (guest_event Enter (view value.now)) result }
{
    let guest = text_field(alloc, value, Field::Guest)?;
    Ok(Event::Guest { guest })
}

// A guest's connection leaves.
#[tactic(auto, unfolding(crate::specs::EventGrammar::guest_event))]
fn read_part(alloc: Global, value: &Value) -> Result<Event, Cause>
    ensures { Gives Cause.OutOfMemory (guest_event Part (view value.now)) result }
{
    let guest = text_field(alloc, value, Field::Guest)?;
    Ok(Event::Part { guest })
}

// So many of the client's oldest unsent messages are submitted.
#[tactic(auto, unfolding(crate::specs::EventGrammar::counted_event))]
fn read_ticket(alloc: Global, value: &Value) -> Result<Event, Cause>
    ensures { Gives Cause.OutOfMemory (counted_event Ticket (view value.now)) result }
{
    let client = read_client(alloc, value)?;
    let count = read_count(field(value, Field::Count))?;
    Ok(Event::Ticket { client, count })
}

// The client processes so many of the next messages.
#[tactic(auto, unfolding(crate::specs::EventGrammar::counted_event))]
fn read_deliver(alloc: Global, value: &Value) -> Result<Event, Cause>
    ensures { Gives Cause.OutOfMemory (counted_event Deliver (view value.now)) result }
{
    let client = read_client(alloc, value)?;
    let count = read_count(field(value, Field::Count))?;
    Ok(Event::Deliver { client, count })
}

/// How many messages the field `count` asks for; 1 without the field.
///
/// Returns `WrongKind` of that field exactly where it is neither a count nor "all".
pub fn read_count(value: Option<&Value>) -> Result<HowMany, Cause>
    ensures { result ≡ given_count (option_map (λ d. view d.now) value.entry) }
{
    match value {
        None => Ok(HowMany::Num(1)),
        Some(value) => read_count_or_all(value),
    }
}

// How many the value says: a count, or the string "all".
fn read_count_or_all(value: &Value) -> Result<HowMany, Cause>
    ensures { result ≡ count_or_all (count (view value.now)) (view value.now) }
{
    if let Some(n) = count(value) {
        return Ok(HowMany::Num(n));
    }
    match value.as_str() {
        Some("all") => Ok(HowMany::All),
        _ => Err(Cause::WrongKind(Field::Count)),
    }
}

// A new client.
#[tactic(auto, unfolding(crate::specs::EventGrammar::start_event))]
fn read_start(alloc: Global, value: &Value) -> Result<Event, Cause>
    ensures { Gives Cause.OutOfMemory (start_event (view value.now)) result }
{
    let client = read_client(alloc, value)?;
    let from = read_from(alloc, field(value, Field::From))?;
    Ok(Event::Start { client, from })
}

/// The client whose summary a new client starts from, if one is named.
///
/// Returns `WrongKind` of the field `from` where that is no string, and `OutOfMemory` where there is no room for it.
pub fn read_from(alloc: Global, value: Option<&Value>) -> Result<Option<Text>, Cause>
    ensures { Gives Cause.OutOfMemory (given_from (option_map (λ d. view d.now) value.entry)) result }
{
    match value {
        None => Ok(None),
        Some(value) => {
            let name = value.as_str().ok_or(Cause::WrongKind(Field::From))?;
            Ok(Some(Text::new(alloc, name)?))
        }
    }
}

// The part of the document that an edit is for.
#[derive(Clone, Copy)]
enum Address {
    Text,
    Grid,
}

// An edit of the client's own.
fn read_edit(alloc: Global, value: &Value) -> Result<Event, Cause>
    ensures { Gives Cause.OutOfMemory (edit_event (view value.now)) result }
{
    let client = read_client(alloc, value)?;
    let op = read_addressed_op(alloc, value)?;
    Ok(Event::Edit { client, op })
}

// The operation of an edit, for the address that the edit gives.
#[tactic(auto, unfolding(crate::specs::EventGrammar::addressed_op))]
fn read_addressed_op(alloc: Global, value: &Value) -> Result<ChannelOp, Cause>
    ensures { Gives Cause.OutOfMemory (addressed_op (view value.now)) result }
{
    let address = known_address(address_word(value)?)?;
    read_edit_op(alloc, address, field(value, Field::Op))
}

// The word in the field `address`.
#[tactic(auto, unfolding(ft_json::specs::Reading::text_field, ft_json::specs::Reading::str_field))]
fn address_word(value: &Value) -> Result<&str, Cause>
    ensures ok { IfOk result (λ word. with_fault cause_of_field (text_field (view value.now) Field.Address) ≡ Ok (chars word.now)) }
    ensures err { IfErr result (λ cause. with_fault cause_of_field (text_field (view value.now) Field.Address) ≡ Err cause) }
{
    Ok(str_field(value, Field::Address)?)
}

// The address of this word, where it is that of the text or of the grid.
fn known_address(word: &str) -> Result<Address, Cause>
    ensures ok { IfOk result (λ address. is_known_address (chars word.now) ≡ Ok (word_of address)) }
    ensures err { IfErr result (λ cause. is_known_address (chars word.now) ≡ Err cause) }
{
    match word {
        "text" => Ok(Address::Text),
        "grid" => Ok(Address::Grid),
        _ => Err(Cause::WrongKind(Field::Address)),
    }
}

// The operation of an edit for the address, which has to be there, and an object.
fn read_edit_op(alloc: Global, address: Address, value: Option<&Value>) -> Result<ChannelOp, Cause>
    ensures { Gives Cause.OutOfMemory (edit_op (word_of address) (option_map (λ d. view d.now) value.entry)) result }
{
    let value = value.ok_or(Cause::Missing(Field::Op))?;
    if !is_object(value) {
        return Err(Cause::WrongKind(Field::Op));
    }
    read_op_for(alloc, address, value)
}

// The operation for the address.
fn read_op_for(alloc: Global, address: Address, value: &Value) -> Result<ChannelOp, Cause>
    ensures { Gives Cause.OutOfMemory (op_for (word_of address) (view value.now)) result }
{
    match address {
        Address::Text => Ok(ChannelOp::Text(read_text_op(alloc, value)?)),
        Address::Grid => Ok(ChannelOp::Grid(read_grid_op(alloc, value)?)),
    }
}

// The client processes the message of a text.
#[tactic(auto, unfolding(crate::specs::EventGrammar::offer_event))]
fn read_offer(alloc: Global, value: &Value) -> Result<Event, Cause>
    ensures { Gives Cause.OutOfMemory (offer_event (view value.now)) result }
{
    let client = read_client(alloc, value)?;
    let message = text_field(alloc, value, Field::Message)?;
    Ok(Event::Offer { client, message })
}

// The draft of a text is submitted for the guest.
#[tactic(auto, unfolding(crate::specs::EventGrammar::submit_event))]
fn read_submit(alloc: Global, value: &Value) -> Result<Event, Cause>
    ensures { Gives Cause.OutOfMemory (submit_event (view value.now)) result }
{
    let guest = text_field(alloc, value, Field::Guest)?;
    let message = text_field(alloc, value, Field::Message)?;
    Ok(Event::Submit { guest, message })
}

// The intervals of a label that meet a range.
#[tactic(auto, unfolding(crate::specs::EventGrammar::overlap_event))]
fn read_overlap(alloc: Global, value: &Value) -> Result<Event, Cause>
    ensures { Gives Cause.OutOfMemory (overlap_event (view value.now)) result }
{
    let client = read_client(alloc, value)?;
    let label = text_field(alloc, value, Field::Label)?;
    let (start, end) = read_places(value)?;
    Ok(Event::Overlap {
        client,
        label,
        start,
        end,
    })
}

// Who inserted the visible elements of a range.
#[tactic(auto, unfolding(crate::specs::EventGrammar::blame_event))]
fn read_blame(alloc: Global, value: &Value) -> Result<Event, Cause>
    ensures { Gives Cause.OutOfMemory (blame_event (view value.now)) result }
{
    let client = read_client(alloc, value)?;
    let (start, end) = read_places(value)?;
    Ok(Event::Blame { client, start, end })
}

// The range from `start` to `end`.
#[tactic(auto, unfolding(crate::specs::EventGrammar::places))]
fn read_places(value: &Value) -> Result<(u64, u64), Cause>
    ensures { result ≡ places (view value.now) }
{
    let start = count_field(value, Field::Start)?;
    let end = count_field(value, Field::End)?;
    if end < start {
        return Err(reversed(start, end));
    }
    Ok((start, end))
}

// The cause of two counts of which the second is less.
fn reversed(first: u64, second: u64) -> Cause
    requires first { first < 2 ^ 53 }
    requires second { second < 2 ^ 53 }
    ensures { result ≡ Cause.Reversed (pos first) (pos second) }
{
    Cause::Reversed {
        pos1: first as i64,
        pos2: second as i64,
    }
}
