//! Writing events.

ghost use Rattle.std.specs.Prelude.{◌≡◌, IfOk, OnOk, codes, option_map};
ghost use Rattle.serde_json.specs.Data.{no_members, object, put, string};
ghost use Rattle.serde_json.specs.View.{members_view, view};
ghost use Rattle.serde_json.specs.Written.{compact_text};
ghost use Rattle.ft_json.specs.Canonical.{IsCanonical};
ghost use Rattle.ft_op.specs.Representable.{IsRepresentable, IsText};
ghost use Rattle.ft_op.specs.WellFormed.{IsWellFormed};
ghost use Rattle.ft_op.specs.Written.{put_given, written, written_count, written_text};
ghost use Rattle.ft_msg.specs.Written.{written_address};
ghost use Rattle.ft_seqr.specs.WellFormedEvent.{IsGivenText, IsRepresentableEvent, IsWellFormedEvent};
ghost use Rattle.ft_seqr.specs.WrittenEvent.{of_count, written_event, written_how_many, written_of_client, written_of_guest};

use crate::events::{Event, HowMany};
use ft_base::{OutOfMemory, Text};
use ft_json::{ValText, compact};
use ft_op::ChannelOp;
use ft_op::writing::op_value;
use serde_json::{Map, Value, put};
use std::alloc::Global;

/// The one text of an event: compact, with the keys of each object in rising order of their bytes. It
/// reads back as the same event.
pub fn write_event(alloc: Global, event: &Event) -> Result<ValText, OutOfMemory>
    requires { IsWellFormedEvent event.now }
    ensures { IfOk result (λ text. text ≡ compact_text (written_event event.now)) }
{
    let value = event_value(alloc, event)?;
    compact(alloc, &value)
}

// The JSON value that an event is written as.
fn event_value(alloc: Global, event: &Event) -> Result<Value, OutOfMemory>
    requires { IsWellFormedEvent event.now }
    ensures value { IfOk result (λ v. view v ≡ written_event event.now) }
    ensures representable { IfOk result (λ _. IsRepresentableEvent event.now) }
{
    let mut members = Map::new(alloc);
    put_event(&mut members, alloc, event)?;
    Ok(Value::Object(members))
}

// Puts the members of an event into an object that has none.
fn put_event(
    members: &mut Map<String, Value>,
    alloc: Global,
    event: &Event,
) -> Result<(), OutOfMemory>
    requires formed { IsWellFormedEvent event.now }
    requires empty { members_view members.old.entries ≡ no_members }
    ensures value { OnOk result (object (members_view members.new.entries) ≡ written_event event.now) }
    ensures representable { OnOk result (IsRepresentableEvent event.now) }
{
    match event {
        Event::Start { client, from } => put_start(members, alloc, client, from),
        Event::Connect { client } => put_client(members, alloc, "connect", client),
        Event::Drop { client } => put_client(members, alloc, "drop", client),
        Event::Edit { client, op } => put_edit(members, alloc, client, op),
        Event::Ticket { client, count } => put_counted(members, alloc, "ticket", client, *count),
        Event::Deliver { client, count } => put_counted(members, alloc, "deliver", client, *count),
        Event::Noop { client } => put_client(members, alloc, "noop", client),
        Event::Show { client } => put_client(members, alloc, "show", client),
        Event::Queue { client } => put_client(members, alloc, "queue", client),
        Event::Compact { client } => put_client(members, alloc, "compact", client),
        Event::Summary { client } => put_client(members, alloc, "summary", client),
        Event::Offer { client, message } => put_offer(members, alloc, client, message),
        Event::History => put_str(members, alloc, "do", "history"),
        Event::Guest { guest } => put_guest(members, alloc, "guest", guest),
        Event::Submit { guest, message } => put_submission(members, alloc, guest, message),
        Event::Part { guest } => put_guest(members, alloc, "part", guest),
        Event::Overlap {
            client,
            label,
            start,
            end,
        } => put_overlap(members, alloc, client, label, *start, *end),
        Event::Blame { client, start, end } => put_blame(members, alloc, client, *start, *end),
        Event::Authors { client } => put_client(members, alloc, "authors", client),
    }
}

// An event of this word that has a client alone.
fn put_client(
    members: &mut Map<String, Value>,
    alloc: Global,
    word: &str,
    client: &Text,
) -> Result<(), OutOfMemory>
    requires { members_view members.old.entries ≡ no_members }
    ensures value { OnOk result (object (members_view members.new.entries) ≡ written_of_client word.now client.now no_members) }
    ensures client { IsText client.now }
{
    put_text(members, alloc, "client", client)?;
    put_str(members, alloc, "do", word)
}

// An event of this word that has a guest alone.
fn put_guest(
    members: &mut Map<String, Value>,
    alloc: Global,
    word: &str,
    guest: &Text,
) -> Result<(), OutOfMemory>
    requires { members_view members.old.entries ≡ no_members }
    ensures value { OnOk result (object (members_view members.new.entries) ≡ written_of_guest word.now guest.now no_members) }
    ensures guest { OnOk result (IsText guest.now) }
{
    put_str(members, alloc, "do", word)?;
    put_text(members, alloc, "guest", guest)
}

// An event of this word that has a client and a count, which is left out where it is 1.
fn put_counted(
    members: &mut Map<String, Value>,
    alloc: Global,
    word: &str,
    client: &Text,
    count: HowMany,
) -> Result<(), OutOfMemory>
    requires { members_view members.old.entries ≡ no_members }
    ensures value { OnOk result (object (members_view members.new.entries) ≡ of_count word.now client.now count) }
    ensures client { IsText client.now }
{
    put_client(members, alloc, word, client)?;
    put_how_many(members, alloc, count)
}

// Puts a count, unless it is 1.
fn put_how_many(
    members: &mut Map<String, Value>,
    alloc: Global,
    count: HowMany,
) -> Result<(), OutOfMemory>
    ensures { OnOk result (members_view members.new.entries
        ≡ put_given (codes "count") (written_how_many count) (members_view members.old.entries)) }
{
    match count {
        HowMany::All => put_str(members, alloc, "count", "all"),
        HowMany::Num(number) => put_limit(members, alloc, number),
    }
}

// Puts this number as the count, unless it is 1.
fn put_limit(
    members: &mut Map<String, Value>,
    alloc: Global,
    number: u64,
) -> Result<(), OutOfMemory>
    ensures { OnOk result (members_view members.new.entries
        ≡ put_given (codes "count") (written_how_many (HowMany.Num number)) (members_view members.old.entries)) }
{
    if number == 1 {
        return Ok(());
    }
    put_number(members, alloc, "count", number)
}

// A new client.
fn put_start(
    members: &mut Map<String, Value>,
    alloc: Global,
    client: &Text,
    from: &Option<Text>,
) -> Result<(), OutOfMemory>
    requires { members_view members.old.entries ≡ no_members }
    ensures value { OnOk result (object (members_view members.new.entries) ≡ written_event (Event.Start client.now from.now)) }
    ensures client { IsText client.now }
    ensures from { OnOk result (IsGivenText from.now) }
{
    put_client(members, alloc, "start", client)?;
    put_from(members, alloc, from)
}

// Puts the name of the client from which a new one starts, if there is one.
fn put_from(
    members: &mut Map<String, Value>,
    alloc: Global,
    from: &Option<Text>,
) -> Result<(), OutOfMemory>
    ensures value { OnOk result (members_view members.new.entries
        ≡ put_given (codes "from") (option_map written_text from.now) (members_view members.old.entries)) }
    ensures from { IsGivenText from.now }
{
    match from {
        Some(from) => put_text(members, alloc, "from", from),
        None => Ok(()),
    }
}

// The address of an operation.
fn address_of(op: &ChannelOp) -> &'static str
    ensures { string result.now ≡ written_address op.now }
{
    match op {
        ChannelOp::Text(_) => "text",
        ChannelOp::Grid(_) => "grid",
    }
}

// An edit of the client's own.
fn put_edit(
    members: &mut Map<String, Value>,
    alloc: Global,
    client: &Text,
    op: &ChannelOp,
) -> Result<(), OutOfMemory>
    requires formed { IsWellFormed op.now }
    requires empty { members_view members.old.entries ≡ no_members }
    ensures value { OnOk result (object (members_view members.new.entries) ≡ written_event (Event.Edit client.now op.now)) }
    ensures client { IsText client.now }
    ensures op { OnOk result (IsRepresentable op.now) }
{
    put_client(members, alloc, "edit", client)?;
    put_str(members, alloc, "address", address_of(op))?;
    put_op(members, alloc, op)
}

// Puts an operation.
fn put_op(
    members: &mut Map<String, Value>,
    alloc: Global,
    op: &ChannelOp,
) -> Result<(), OutOfMemory>
    requires { IsWellFormed op.now }
    ensures value { OnOk result (members_view members.new.entries
        ≡ put (codes "op") (written op.now) (members_view members.old.entries)) }
    ensures op { OnOk result (IsRepresentable op.now) }
{
    let value = op_value(alloc, op)?;
    Ok(put(members, alloc, "op", value)?)
}

// The client processes the message of a text.
fn put_offer(
    members: &mut Map<String, Value>,
    alloc: Global,
    client: &Text,
    message: &Text,
) -> Result<(), OutOfMemory>
    requires { members_view members.old.entries ≡ no_members }
    ensures value { OnOk result (object (members_view members.new.entries) ≡ written_event (Event.Offer client.now message.now)) }
    ensures client { IsText client.now }
    ensures text { OnOk result (IsText message.now) }
{
    put_client(members, alloc, "offer", client)?;
    put_text(members, alloc, "message", message)
}

// The draft of a text is submitted for the guest.
fn put_submission(
    members: &mut Map<String, Value>,
    alloc: Global,
    guest: &Text,
    message: &Text,
) -> Result<(), OutOfMemory>
    requires { members_view members.old.entries ≡ no_members }
    ensures value { OnOk result (object (members_view members.new.entries) ≡ written_event (Event.Submit guest.now message.now)) }
    ensures guest { OnOk result (IsText guest.now) }
    ensures text { OnOk result (IsText message.now) }
{
    put_guest(members, alloc, "submit", guest)?;
    put_text(members, alloc, "message", message)
}

// The intervals of a label that meet a range.
fn put_overlap(
    members: &mut Map<String, Value>,
    alloc: Global,
    client: &Text,
    label: &Text,
    start: u64,
    end: u64,
) -> Result<(), OutOfMemory>
    requires { members_view members.old.entries ≡ no_members }
    ensures value { OnOk result (object (members_view members.new.entries) ≡ written_event (Event.Overlap client.now label.now start end)) }
    ensures client { IsText client.now }
    ensures label { OnOk result (IsText label.now) }
{
    put_client(members, alloc, "overlap", client)?;
    put_text(members, alloc, "label", label)?;
    put_range(members, alloc, start, end)
}

// Who inserted the visible elements of a range.
fn put_blame(
    members: &mut Map<String, Value>,
    alloc: Global,
    client: &Text,
    start: u64,
    end: u64,
) -> Result<(), OutOfMemory>
    requires { members_view members.old.entries ≡ no_members }
    ensures value { OnOk result (object (members_view members.new.entries) ≡ written_event (Event.Blame client.now start end)) }
    ensures client { IsText client.now }
{
    put_client(members, alloc, "blame", client)?;
    put_range(members, alloc, start, end)
}

// Puts the start and the end of a range.
fn put_range(
    members: &mut Map<String, Value>,
    alloc: Global,
    start: u64,
    end: u64,
) -> Result<(), OutOfMemory>
    ensures { OnOk result (members_view members.new.entries
        ≡ put (codes "end") (written_count end) (put (codes "start") (written_count start) (members_view members.old.entries))) }
{
    put_number(members, alloc, "start", start)?;
    put_number(members, alloc, "end", end)
}

// Puts a number under the key.
pub(crate) fn put_number(
    members: &mut Map<String, Value>,
    alloc: Global,
    key: &str,
    number: u64,
) -> Result<(), OutOfMemory>
    ensures value { OnOk result (members_view members.new.entries
        ≡ put key.now (written_count number) (members_view members.old.entries)) }
    ensures canonical { IsCanonical (written_count number) }
{
    Ok(put(members, alloc, key, Value::from(number))?)
}

// Puts a text under the key.
pub(crate) fn put_text(
    members: &mut Map<String, Value>,
    alloc: Global,
    key: &str,
    text: &Text,
) -> Result<(), OutOfMemory>
    ensures value { OnOk result (members_view members.new.entries
        ≡ put key.now (written_text text.now) (members_view members.old.entries)) }
    ensures text { IsText text.now }
{
    put_str(members, alloc, key, text.as_str())
}

// Puts a string under the key.
fn put_str(
    members: &mut Map<String, Value>,
    alloc: Global,
    key: &str,
    text: &str,
) -> Result<(), OutOfMemory>
    ensures { OnOk result (members_view members.new.entries
        ≡ put key.now (string text.now) (members_view members.old.entries)) }
{
    Ok(put(members, alloc, key, Value::try_from_str(alloc, text)?)?)
}
