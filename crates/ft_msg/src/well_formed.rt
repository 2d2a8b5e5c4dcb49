//! Whether messages and drafts are well formed.

ghost use Rattle.std.specs.Prelude.{◌≡◌, ◌↔◌, IsTrue, chars};
ghost use Rattle.ft_msg.specs.WellFormed.{HasItsParts, IsWellFormedBody, IsWellFormedDraft, IsWellFormedKind, IsWellFormedMessage, has_body, is_number};

use crate::messages::{Body, Draft, Message, MsgKind};
use ft_json::GREATEST_NUMBER;
use ft_op::{is_count, is_well_formed};

/// Whether the message is well formed, as each is that is read: its numbers are in range, it has a
/// body exactly where it is an operation, an operation has a sender and is well formed itself, and a
/// word or an address that is kept is none that has a kind of its own.
pub fn is_well_formed_message(msg: &Message) -> bool
    ensures { IsTrue result ↔ IsWellFormedMessage msg.now }
{
    is_count(msg.seq)
        && is_count(msg.min)
        && is_number(msg.client_seq)
        && is_number(msg.ref_seq)
        && is_well_formed_kind(&msg.kind)
        && has_its_parts(msg)
        && is_well_formed_body(&msg.body)
}

/// Whether the draft is well formed: its numbers are in range, and so is its body.
pub fn is_well_formed_draft(draft: &Draft) -> bool
    ensures { IsTrue result ↔ IsWellFormedDraft draft.now }
{
    is_count(draft.client_seq) && is_count(draft.ref_seq) && is_well_formed_body(&draft.body)
}

// Whether it is a whole number from -1 to 2^53 - 1.
fn is_number(z: i64) -> bool
    ensures { result ≡ is_number z }
{
    -1 <= z && z <= GREATEST_NUMBER
}

// Whether another word is none of the four.
fn is_well_formed_kind(kind: &MsgKind) -> bool
    ensures { IsTrue result ↔ IsWellFormedKind kind.now }
{
    match kind {
        MsgKind::Other(word) => is_other_word(word.as_str()),
        MsgKind::Op | MsgKind::Join | MsgKind::Leave | MsgKind::Noop => true,
    }
}

// Whether the word is none of the four that have a kind of their own.
fn is_other_word(word: &str) -> bool
    ensures { IsTrue result ↔ IsWellFormedKind (MsgKind.Other (chars word.now)) }
{
    match word {
        "op" => false,
        "join" => false,
        "leave" => false,
        "noop" => false,
        _ => true,
    }
}

// Whether an operation has a sender and a body, and no other message has a body.
fn has_its_parts(msg: &Message) -> bool
    ensures { IsTrue result ↔ HasItsParts msg.now.kind msg.now.client_id msg.now.body }
{
    match msg.kind {
        MsgKind::Op => msg.client_id.is_some() && has_body(&msg.body),
        MsgKind::Join | MsgKind::Leave | MsgKind::Noop | MsgKind::Other(_) => !has_body(&msg.body),
    }
}

// Whether there is a body.
fn has_body(body: &Body) -> bool
    ensures { result ≡ has_body body.now }
{
    match body {
        Body::Nothing => false,
        Body::Op(_) | Body::Elsewhere(_) => true,
    }
}

// Whether an operation is well formed, and another address neither the text's nor the grid's.
fn is_well_formed_body(body: &Body) -> bool
    ensures { IsTrue result ↔ IsWellFormedBody body.now }
{
    match body {
        Body::Nothing => true,
        Body::Op(op) => is_well_formed(op),
        Body::Elsewhere(address) => is_other_address(address.as_str()),
    }
}

// Whether the address is neither the text's nor the grid's.
fn is_other_address(address: &str) -> bool
    ensures { IsTrue result ↔ IsWellFormedBody (Body.Elsewhere (chars address.now)) }
{
    match address {
        "text" => false,
        "grid" => false,
        _ => true,
    }
}
