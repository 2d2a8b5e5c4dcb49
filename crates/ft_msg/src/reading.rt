//! Reading messages and drafts.

ghost use Rattle.std.specs.Prelude.{◌≡◌, Ok, Err, IfOk, chars, option_map};
ghost use Rattle.serde_json.specs.View.{view};
ghost use Rattle.ft_json.specs.Readers.{Gives, Reads};
ghost use Rattle.ft_msg.specs.MessageGrammar.{body_of, draft, draft_body, draft_of, is_op_kind, kind_of, message, message_of, sender_of};
ghost use Rattle.ft_msg.specs.WellFormed.{HasNumbersInRange, IsWellFormedBody, IsWellFormedDraft, IsWellFormedMessage};

use crate::contents::read_op_body;
use crate::faults::Cause;
use crate::messages::{Body, Draft, Message, MsgKind};
use ft_base::{OutOfMemory, Text};
use ft_json::{Field, count_field, given_field, num_field, read_line, str_field};
use ft_op::is_object;
use serde_json::Value;
use std::alloc::Global;

/// The sequenced message that the bytes are.
///
/// What is read is well formed. Returns the first fault in the order in which its fields are tested,
/// and `OutOfMemory` where there is no room for it.
#[tactic(auto, unfolding(crate::specs::MessageGrammar::message))]
pub fn read_message(alloc: Global, bytes: &[u8]) -> Result<Message, Cause>
    ensures reads { Reads Cause.OutOfMemory (message bytes.now) IsWellFormedMessage result }
    ensures in_range { IfOk result HasNumbersInRange }
{
    let value = read_line(alloc, bytes)?;
    read_message_value(alloc, &value)
}

// The message that the value is.
#[tactic(auto, unfolding(crate::specs::MessageGrammar::message_of))]
fn read_message_value(alloc: Global, value: &Value) -> Result<Message, Cause>
    ensures reads { Gives Cause.OutOfMemory (message_of (view value.now)) result }
    ensures body { IfOk result (λ m. IsWellFormedBody m.body) }
{
    if !is_object(value) {
        return Err(Cause::WrongKind(Field::Message));
    }
    let seq = count_field(value, Field::SequenceNumber)?;
    let min = count_field(value, Field::MinimumSequenceNumber)?;
    let client_seq = num_field(value, Field::ClientSequenceNumber)?;
    let ref_seq = num_field(value, Field::ReferenceSequenceNumber)?;
    let kind = read_kind(alloc, str_field(value, Field::Kind)?)?;
    let client_id = read_sender(alloc, &kind, given_field(value, Field::ClientId))?;
    let body = read_body(alloc, &kind, value)?;
    Ok(Message {
        client_id,
        seq,
        min,
        client_seq,
        ref_seq,
        kind,
        body,
    })
}

// The kind of a message, by its word.
fn read_kind(alloc: Global, word: &str) -> Result<MsgKind, OutOfMemory>
    ensures { IfOk result (λ kind. kind ≡ kind_of (chars word.now)) }
{
    match word {
        "op" => Ok(MsgKind::Op),
        "join" => Ok(MsgKind::Join),
        "leave" => Ok(MsgKind::Leave),
        "noop" => Ok(MsgKind::Noop),
        _ => Ok(MsgKind::Other(Text::new(alloc, word)?)),
    }
}

// Whether it is the kind of an operation.
fn is_op_kind(kind: &MsgKind) -> bool
    ensures { result ≡ is_op_kind kind.now }
{
    matches!(kind, MsgKind::Op)
}

// The name of the connection that sent a message of this kind: none where the field isn't given,
// which is a fault for an operation.
fn read_sender(alloc: Global, kind: &MsgKind, name: Option<&Value>) -> Result<Option<Text>, Cause>
    ensures { Gives Cause.OutOfMemory (sender_of kind.now (option_map (λ d. view d.now) name.entry)) result }
{
    match name {
        Some(name) => {
            let name = name.as_str().ok_or(Cause::WrongKind(Field::ClientId))?;
            Ok(Some(Text::new(alloc, name)?))
        }
        None if is_op_kind(kind) => Err(Cause::WrongKind(Field::ClientId)),
        None => Ok(None),
    }
}

// The body of a message of this kind.
fn read_body(alloc: Global, kind: &MsgKind, value: &Value) -> Result<Body, Cause>
    ensures { Reads Cause.OutOfMemory (body_of kind.now (view value.now)) IsWellFormedBody result }
{
    if !is_op_kind(kind) {
        return Ok(Body::Nothing);
    }
    read_op_body(alloc, value)
}

/// The draft that the bytes are.
///
/// What is read is well formed. Returns the first fault in the order in which its fields are tested,
/// and `OutOfMemory` where there is no room for it.
#[tactic(auto, unfolding(crate::specs::MessageGrammar::draft))]
pub fn read_draft(alloc: Global, bytes: &[u8]) -> Result<Draft, Cause>
    ensures { Reads Cause.OutOfMemory (draft bytes.now) IsWellFormedDraft result }
{
    let value = read_line(alloc, bytes)?;
    read_draft_value(alloc, &value)
}

// The draft that the value is.
#[tactic(auto, unfolding(crate::specs::MessageGrammar::draft_of))]
fn read_draft_value(alloc: Global, value: &Value) -> Result<Draft, Cause>
    ensures reads { Gives Cause.OutOfMemory (draft_of (view value.now)) result }
    ensures body { IfOk result (λ read. IsWellFormedBody read.body) }
{
    if !is_object(value) {
        return Err(Cause::WrongKind(Field::Message));
    }
    let client_seq = count_field(value, Field::ClientSequenceNumber)?;
    let ref_seq = count_field(value, Field::ReferenceSequenceNumber)?;
    let word = str_field(value, Field::Kind)?;
    Ok(Draft {
        client_seq,
        ref_seq,
        body: read_draft_body(alloc, value, word)?,
    })
}

// The body of a draft of this type.
fn read_draft_body(alloc: Global, value: &Value, word: &str) -> Result<Body, Cause>
    ensures { Reads Cause.OutOfMemory (draft_body (view value.now) word.now) IsWellFormedBody result }
{
    match word {
        "op" => read_op_body(alloc, value),
        "noop" => Ok(Body::Nothing),
        _ => Err(Cause::WrongKind(Field::Kind)),
    }
}
