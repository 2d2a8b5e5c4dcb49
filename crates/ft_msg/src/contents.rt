//! Reading the contents of messages and drafts.

ghost use Rattle.std.specs.Prelude.{Ok, Err, chars, option_map};
ghost use Rattle.serde_json.specs.View.{view};
ghost use Rattle.ft_json.specs.Readers.{Reads};
ghost use Rattle.ft_msg.specs.MessageGrammar.{body_for, contents_body, grid_body, needed_body, op_body, text_body};
ghost use Rattle.ft_msg.specs.WellFormed.{IsWellFormedBody};

use crate::faults::Cause;
use crate::messages::Body;
use ft_base::Text;
use ft_json::{Field, field};
use ft_op::{ChannelOp, is_object, read_grid_op, read_text_op};
use serde_json::Value;
use std::alloc::Global;

/// The body of a message or a draft that is an operation, whose contents have to be there.
#[tactic(auto, unfolding(crate::specs::MessageGrammar::op_body))]
pub(crate) fn read_op_body(alloc: Global, value: &Value) -> Result<Body, Cause>
    ensures { Reads Cause.OutOfMemory (op_body (view value.now)) IsWellFormedBody result }
{
    let contents = field(value, Field::Contents).ok_or(Cause::Missing(Field::Contents))?;
    read_contents(alloc, contents)
}

// The body that contents are: without an address, an operation of the text.
#[tactic(auto, unfolding(crate::specs::MessageGrammar::contents_body))]
fn read_contents(alloc: Global, contents: &Value) -> Result<Body, Cause>
    ensures { Reads Cause.OutOfMemory (contents_body (view contents.now)) IsWellFormedBody result }
{
    if !is_object(contents) {
        return Err(Cause::WrongKind(Field::Contents));
    }
    let Some(address) = field(contents, Field::Address) else {
        return read_text_body(alloc, contents);
    };
    let address = address.as_str().ok_or(Cause::WrongKind(Field::Address))?;
    read_body_for(alloc, contents, address)
}

// The body that contents for this address are.
fn read_body_for(alloc: Global, contents: &Value, address: &str) -> Result<Body, Cause>
    ensures { Reads Cause.OutOfMemory (body_for (view contents.now) (chars address.now)) IsWellFormedBody result }
{
    match address {
        "text" => read_inner_text(alloc, field(contents, Field::Contents)),
        "grid" => read_inner_grid(alloc, field(contents, Field::Contents)),
        _ => Ok(Body::Elsewhere(Text::new(alloc, address)?)),
    }
}

// The operation of the text in the field `contents` of contents, as a body.
fn read_inner_text(alloc: Global, inner: Option<&Value>) -> Result<Body, Cause>
    ensures { Reads Cause.OutOfMemory (needed_body text_body (option_map (λ d. view d.now) inner.entry)) IsWellFormedBody result }
{
    read_text_body(alloc, inner.ok_or(Cause::Missing(Field::Contents))?)
}

// The operation of the grid in the field `contents` of contents, as a body.
fn read_inner_grid(alloc: Global, inner: Option<&Value>) -> Result<Body, Cause>
    ensures { Reads Cause.OutOfMemory (needed_body grid_body (option_map (λ d. view d.now) inner.entry)) IsWellFormedBody result }
{
    read_grid_body(alloc, inner.ok_or(Cause::Missing(Field::Contents))?)
}

// The operation of the text that the value is, as a body.
#[tactic(auto, unfolding(crate::specs::MessageGrammar::text_body))]
fn read_text_body(alloc: Global, contents: &Value) -> Result<Body, Cause>
    ensures { Reads Cause.OutOfMemory (text_body (view contents.now)) IsWellFormedBody result }
{
    Ok(Body::Op(ChannelOp::Text(read_text_op(alloc, contents)?)))
}

// The operation of the grid that the value is, as a body.
#[tactic(auto, unfolding(crate::specs::MessageGrammar::grid_body))]
fn read_grid_body(alloc: Global, contents: &Value) -> Result<Body, Cause>
    ensures { Reads Cause.OutOfMemory (grid_body (view contents.now)) IsWellFormedBody result }
{
    Ok(Body::Op(ChannelOp::Grid(read_grid_op(alloc, contents)?)))
}
