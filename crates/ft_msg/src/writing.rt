//! Writing messages and drafts.

ghost use Rattle.std.specs.Prelude.{◌≡◌, Ok, IfOk, OnOk, codes};
ghost use Rattle.serde_json.specs.Data.{no_members, object, put, string};
ghost use Rattle.serde_json.specs.View.{members_view, view};
ghost use Rattle.serde_json.specs.Written.{compact_text};
ghost use Rattle.ft_op.specs.Written.{written_count, written_number};
ghost use Rattle.ft_msg.specs.MessageGrammar.{draft as draft_of_text, message};
ghost use Rattle.ft_msg.specs.Representable.{IsRepresentableBody, IsRepresentableKind, IsRepresentableMessage, IsRepresentableSender};
ghost use Rattle.ft_msg.specs.WellFormed.{IsWellFormedBody, IsWellFormedDraft, IsWellFormedMessage};
ghost use Rattle.ft_msg.specs.Written.{written_address, written_body, written_contents, written_draft, written_draft_kind, written_kind, written_message, written_sender};

use crate::messages::{Body, Draft, Message, MsgKind};
use ft_base::{OutOfMemory, Text};
use ft_json::{ValText, compact};
use ft_op::ChannelOp;
use ft_op::writing::op_value;
use serde_json::{Map, Value, json, put};
use std::alloc::Global;

// The name of the sender, or null.
fn written_sender(alloc: Global, name: &Option<Text>) -> Result<Value, OutOfMemory>
    ensures value { IfOk result (λ v. view v ≡ written_sender name.now) }
    ensures representable { IfOk result (λ _. IsRepresentableSender name.now) }
{
    match name {
        Some(name) => Ok(Value::try_from_str(alloc, name.as_str())?),
        None => Ok(Value::Null),
    }
}

// The word of the kind.
fn kind_word(kind: &MsgKind) -> &str
    ensures word { string result.now ≡ written_kind kind.now }
    ensures representable { IsRepresentableKind kind.now }
{
    match kind {
        MsgKind::Op => "op",
        MsgKind::Join => "join",
        MsgKind::Leave => "leave",
        MsgKind::Noop => "noop",
        MsgKind::Other(word) => word.as_str(),
    }
}

// The address of an operation.
fn address_of(op: &ChannelOp) -> &'static str
    ensures { string result.now ≡ written_address op.now }
{
    match op {
        ChannelOp::Text(_) => "text",
        ChannelOp::Grid(_) => "grid",
    }
}

// Contents for the address.
fn written_contents(alloc: Global, address: &str, contents: Value) -> Result<Value, OutOfMemory>
    ensures { IfOk result (λ v. view v ≡ written_contents (string address.now) (view contents)) }
{
    Ok(json!(in alloc; {"address": address, "contents": contents})?)
}

// The contents of a message or a draft.
fn written_body(alloc: Global, body: &Body) -> Result<Value, OutOfMemory>
    requires { IsWellFormedBody body.now }
    ensures value { IfOk result (λ v. view v ≡ written_body body.now) }
    ensures representable { IfOk result (λ _. IsRepresentableBody body.now) }
{
    match body {
        Body::Nothing => Ok(Value::Null),
        Body::Op(op) => written_contents(alloc, address_of(op), op_value(alloc, op)?),
        Body::Elsewhere(address) => written_contents(alloc, address.as_str(), Value::Null),
    }
}

// Puts a count under the key.
fn put_count(
    members: &mut Map<String, Value>,
    alloc: Global,
    key: &str,
    count: u64,
) -> Result<(), OutOfMemory>
    ensures { OnOk result (members_view members.new.entries
        ≡ put key.now (written_count count) (members_view members.old.entries)) }
{
    Ok(put(members, alloc, key, Value::from(count))?)
}

// Puts a number under the key, which may be below 0.
fn put_number(
    members: &mut Map<String, Value>,
    alloc: Global,
    key: &str,
    number: i64,
) -> Result<(), OutOfMemory>
    ensures { OnOk result (members_view members.new.entries
        ≡ put key.now (written_number number) (members_view members.old.entries)) }
{
    Ok(put(members, alloc, key, Value::from(number))?)
}

// Puts the contents of a message or a draft under their key.
fn put_body(members: &mut Map<String, Value>, alloc: Global, body: &Body) -> Result<(), OutOfMemory>
    requires { IsWellFormedBody body.now }
    ensures value { OnOk result (members_view members.new.entries
        ≡ put (codes "contents") (written_body body.now) (members_view members.old.entries)) }
    ensures representable { OnOk result (IsRepresentableBody body.now) }
{
    let contents = written_body(alloc, body)?;
    Ok(put(members, alloc, "contents", contents)?)
}

// Puts the word of a kind under its key.
fn put_type(members: &mut Map<String, Value>, alloc: Global, word: &str) -> Result<(), OutOfMemory>
    ensures { OnOk result (members_view members.new.entries
        ≡ put (codes "type") (string word.now) (members_view members.old.entries)) }
{
    let kind = Value::try_from_str(alloc, word)?;
    Ok(put(members, alloc, "type", kind)?)
}

// The JSON value that a message is written as.
fn message_value(alloc: Global, m: &Message) -> Result<Value, OutOfMemory>
    requires { IsWellFormedMessage m.now }
    ensures value { IfOk result (λ v. view v ≡ written_message m.now) }
    ensures representable { IfOk result (λ _. IsRepresentableMessage m.now) }
{
    let mut members = Map::new(alloc);
    put_message(&mut members, alloc, m)?;
    Ok(Value::Object(members))
}

// Puts the members of a message into an object that has none.
fn put_message(
    members: &mut Map<String, Value>,
    alloc: Global,
    m: &Message,
) -> Result<(), OutOfMemory>
    requires formed { IsWellFormedMessage m.now }
    requires empty { members_view members.old.entries ≡ no_members }
    ensures value { OnOk result (object (members_view members.new.entries) ≡ written_message m.now) }
    ensures representable { OnOk result (IsRepresentableMessage m.now) }
{
    let sender = written_sender(alloc, &m.client_id)?;
    put(members, alloc, "clientId", sender)?;
    put_number(members, alloc, "clientSequenceNumber", m.client_seq)?;
    put_body(members, alloc, &m.body)?;
    put_count(members, alloc, "minimumSequenceNumber", m.min)?;
    put_number(members, alloc, "referenceSequenceNumber", m.ref_seq)?;
    put_count(members, alloc, "sequenceNumber", m.seq)?;
    put_type(members, alloc, kind_word(&m.kind))
}

// The word of the type of a draft with this body.
fn draft_word(body: &Body) -> &'static str
    ensures { string result.now ≡ written_draft_kind body.now }
{
    match body {
        Body::Nothing => "noop",
        Body::Op(_) | Body::Elsewhere(_) => "op",
    }
}

// The JSON value that a draft is written as.
fn draft_value(alloc: Global, draft: &Draft) -> Result<Value, OutOfMemory>
    requires { IsWellFormedDraft draft.now }
    ensures value { IfOk result (λ v. view v ≡ written_draft draft.now) }
    ensures representable { IfOk result (λ _. IsRepresentableBody draft.now.body) }
{
    let mut members = Map::new(alloc);
    put_draft(&mut members, alloc, draft)?;
    Ok(Value::Object(members))
}

// Puts the members of a draft into an object that has none.
fn put_draft(
    members: &mut Map<String, Value>,
    alloc: Global,
    draft: &Draft,
) -> Result<(), OutOfMemory>
    requires formed { IsWellFormedDraft draft.now }
    requires empty { members_view members.old.entries ≡ no_members }
    ensures value { OnOk result (object (members_view members.new.entries) ≡ written_draft draft.now) }
    ensures representable { OnOk result (IsRepresentableBody draft.now.body) }
{
    put_count(members, alloc, "clientSequenceNumber", draft.client_seq)?;
    put_body(members, alloc, &draft.body)?;
    put_count(members, alloc, "referenceSequenceNumber", draft.ref_seq)?;
    put_type(members, alloc, draft_word(&draft.body))
}

/// The one text of a message: compact, with the keys of each object in rising order of their bytes.
/// It reads back as the same message.
pub fn write_message(alloc: Global, m: &Message) -> Result<ValText, OutOfMemory>
    requires { IsWellFormedMessage m.now }
    ensures text { IfOk result (λ text. text ≡ compact_text (written_message m.now)) }
    ensures reads_back { IfOk result (λ text. message text ≡ Ok m.now) }
{
    let value = message_value(alloc, m)?;
    compact(alloc, &value)
}

/// The one text of a draft: compact, with the keys of each object in rising order of their bytes. It
/// reads back as the same draft.
pub fn write_draft(alloc: Global, draft: &Draft) -> Result<ValText, OutOfMemory>
    requires { IsWellFormedDraft draft.now }
    ensures text { IfOk result (λ text. text ≡ compact_text (written_draft draft.now)) }
    ensures reads_back { IfOk result (λ text. draft_of_text text ≡ Ok draft.now) }
{
    let value = draft_value(alloc, draft)?;
    compact(alloc, &value)
}
