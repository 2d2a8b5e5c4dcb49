//! What an event does: to one client, or to the session as a whole. The text in it is read here, once.

ghost use Rattle.std.specs.Prelude.{◌≡◌, IfOk, encode_utf8_all};
ghost use Rattle.ft_msg.specs.MessageGrammar.{draft, message};
ghost use Rattle.ft_session.specs.Acts.{IsAct};

use ft_base::moved::boxed;
use ft_base::{OutOfMemory, Text};
use ft_msg::{Cause, Draft, Message, read_draft, read_message};
use ft_op::ChannelOp;
use ft_seqr::{Event, HowMany};
use std::alloc::Global;

/// What an event does.
#[derive(Drop)]
pub(crate) enum Act<'a> {
    /// Something to the client of this name.
    OfClient(&'a Text, ClientAct<'a>),
    /// Something to the session as a whole.
    OfSession(SessionAct<'a>),
}

/// What an event does to its client.
#[derive(Drop)]
pub(crate) enum ClientAct<'a> {
    Connect,
    Drop,
    Edit(&'a ChannelOp),
    Ticket(HowMany),
    Deliver(HowMany),
    Noop,
    Show,
    Queue,
    Compact,
    Summary,
    /// The text that is offered, as it was read.
    Offer(Box<Result<Message, Cause>>),
    /// A label, and the start and the end of a range.
    Overlap(&'a Text, u64, u64),
    /// The start and the end of a range.
    Blame(u64, u64),
    Authors,
}

/// What an event does to the session as a whole.
#[derive(Drop)]
pub(crate) enum SessionAct<'a> {
    /// The name of a new client, and that of the one from which it starts.
    Start(&'a Text, &'a Option<Text>),
    History,
    Guest(&'a Text),
    /// A guest, and the text that is submitted, as it was read.
    Submit(&'a Text, Box<Result<Draft, Cause>>),
    Part(&'a Text),
}

/// What the event does.
///
/// Returns `OutOfMemory` where there is no room to read the text in it.
pub(crate) fn act_of(alloc: Global, event: &Event) -> Result<Act<'_>, OutOfMemory>
    ensures { IfOk result (λ act. IsAct act event.now) }
{
    match event {
        Event::Start { client, from } => Ok(Act::OfSession(SessionAct::Start(client, from))),
        Event::Connect { client } => Ok(Act::OfClient(client, ClientAct::Connect)),
        Event::Drop { client } => Ok(Act::OfClient(client, ClientAct::Drop)),
        Event::Edit { client, op } => Ok(Act::OfClient(client, ClientAct::Edit(op))),
        Event::Ticket { client, count } => Ok(Act::OfClient(client, ClientAct::Ticket(*count))),
        Event::Deliver { client, count } => Ok(Act::OfClient(client, ClientAct::Deliver(*count))),
        Event::Noop { client } => Ok(Act::OfClient(client, ClientAct::Noop)),
        Event::Show { client } => Ok(Act::OfClient(client, ClientAct::Show)),
        Event::Queue { client } => Ok(Act::OfClient(client, ClientAct::Queue)),
        Event::Compact { client } => Ok(Act::OfClient(client, ClientAct::Compact)),
        Event::Summary { client } => Ok(Act::OfClient(client, ClientAct::Summary)),
        Event::Offer { client, message } => offer(alloc, client, message),
        Event::History => Ok(Act::OfSession(SessionAct::History)),
        Event::Guest { guest } => Ok(Act::OfSession(SessionAct::Guest(guest))),
        Event::Submit { guest, message } => submission(alloc, guest, message),
        Event::Part { guest } => Ok(Act::OfSession(SessionAct::Part(guest))),
        Event::Overlap {
            client,
            label,
            start,
            end,
        } => Ok(Act::OfClient(client, ClientAct::Overlap(label, *start, *end))),
        Event::Blame { client, start, end } => {
            Ok(Act::OfClient(client, ClientAct::Blame(*start, *end)))
        }
        Event::Authors { client } => Ok(Act::OfClient(client, ClientAct::Authors)),
    }
}

// The client is offered this text.
fn offer<'a>(alloc: Global, client: &'a Text, text: &Text) -> Result<Act<'a>, OutOfMemory>
    ensures { IfOk result (λ act. IsAct act (Event.Offer client.now text.now)) }
{
    let read = boxed(alloc, offered_message(alloc, text))?;
    Ok(Act::OfClient(client, ClientAct::Offer(read)))
}

// This text is submitted for the guest.
fn submission<'a>(alloc: Global, guest: &'a Text, text: &Text) -> Result<Act<'a>, OutOfMemory>
    ensures { IfOk result (λ act. IsAct act (Event.Submit guest.now text.now)) }
{
    let read = boxed(alloc, submitted_draft(alloc, text))?;
    Ok(Act::OfSession(SessionAct::Submit(guest, read)))
}

// The message of an offered text, or the cause why it is none.
fn offered_message(alloc: Global, text: &Text) -> Result<Result<Message, Cause>, OutOfMemory>
    ensures { IfOk result (λ read. message (encode_utf8_all text.now) ≡ read) }
{
    match read_message(alloc, text.as_str().as_bytes()) {
        Ok(message) => Ok(Ok(message)),
        Err(Cause::OutOfMemory) => Err(OutOfMemory),
        Err(cause) => Ok(Err(cause)),
    }
}

// The draft of a submitted text, or the cause why it is none.
fn submitted_draft(alloc: Global, text: &Text) -> Result<Result<Draft, Cause>, OutOfMemory>
    ensures { IfOk result (λ read. draft (encode_utf8_all text.now) ≡ read) }
{
    match read_draft(alloc, text.as_str().as_bytes()) {
        Ok(draft) => Ok(Ok(draft)),
        Err(Cause::OutOfMemory) => Err(OutOfMemory),
        Err(cause) => Ok(Err(cause)),
    }
}
