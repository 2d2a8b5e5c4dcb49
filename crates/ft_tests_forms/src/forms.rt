//! The forms: each reads a text and writes what it read.

ghost use Rattle.std.specs.Prelude.{IsTrue, length};
ghost use Rattle.ft_op.specs.WellFormed.{IsWellFormed, is_count};
ghost use Rattle.ft_msg.specs.WellFormed.{IsWellFormedDraft, IsWellFormedMessage};
ghost use Rattle.ft_sumdoc.specs.Valid.{IsValidSummary};

use ft_base::{Datum, OutOfMemory, Text};
use ft_json::{
    Field, FieldFault, canonical, num_field, quote, read_line, signed_field, text_field,
};
use ft_msg::{Cause, Draft, Message, read_draft, read_message, write_draft, write_message};
use ft_op::{ChannelOp, read_grid_op, read_text_op, write_op};
use ft_seqr::Refusal;
use ft_sumdoc::{SumDoc, SumFault, read_summary, write_summary};
use std::alloc::Global;

// What stands where a copy isn't the same as what it was made of.
const OTHER_COPY: &str = "the copy is another one";

/// A value, as it is kept.
pub fn value(alloc: Global, bytes: &[u8]) -> Result<String, Cause> {
    let value = read_line(alloc, bytes)?;
    let kept = canonical(alloc, &value);
    drop(value);
    Ok(owned(alloc, kept?.as_str())?)
}

/// The field `pos1` as a number from -1 on and as a number of either sign.
pub fn numbers(alloc: Global, bytes: &[u8]) -> Result<String, Cause> {
    let value = read_line(alloc, bytes)?;
    let number = num_field(&value, Field::Pos1);
    let signed = signed_field(&value, Field::Pos1);
    drop(value);
    Ok(both_numbers(alloc, number, signed)?)
}

/// The string of the field `id`.
pub fn string(alloc: Global, bytes: &[u8]) -> Result<String, Cause> {
    let value = read_line(alloc, bytes)?;
    let text = text_field(alloc, &value, Field::Id);
    drop(value);
    Ok(quoted(alloc, &text?)?)
}

/// An operation of the text.
pub fn text(alloc: Global, bytes: &[u8]) -> Result<String, Cause> {
    let value = read_line(alloc, bytes)?;
    let op = read_text_op(alloc, &value);
    drop(value);
    operation(alloc, ChannelOp::Text(op?))
}

/// An operation of the grid.
pub fn grid(alloc: Global, bytes: &[u8]) -> Result<String, Cause> {
    let value = read_line(alloc, bytes)?;
    let op = read_grid_op(alloc, &value);
    drop(value);
    operation(alloc, ChannelOp::Grid(op?))
}

/// A sequenced message.
pub fn message(alloc: Global, bytes: &[u8]) -> Result<String, Cause> {
    let msg = read_message(alloc, bytes)?;
    let told = message_text(alloc, &msg);
    drop(msg);
    told
}

/// A draft.
pub fn draft(alloc: Global, bytes: &[u8]) -> Result<String, Cause> {
    let draft = read_draft(alloc, bytes)?;
    let told = draft_text(alloc, &draft);
    drop(draft);
    told
}

/// A summary.
pub fn summary(alloc: Global, bytes: &[u8]) -> Result<String, SumFault> {
    let sum = read_summary(alloc, bytes)?;
    let told = summary_text(alloc, &sum);
    drop(sum);
    told
}

// An operation, which is done with.
fn operation(alloc: Global, op: ChannelOp) -> Result<String, Cause>
    requires { IsWellFormed op }
{
    let told = operation_text(alloc, &op);
    drop(op);
    told
}

// The text of an operation.
fn operation_text(alloc: Global, op: &ChannelOp) -> Result<String, Cause>
    requires { IsWellFormed op.now }
{
    if !is_copied(op)? {
        return Ok(owned(alloc, OTHER_COPY)?);
    }
    let written = write_op(alloc, op)?;
    Ok(owned(alloc, written.as_str())?)
}

// The text of a message.
fn message_text(alloc: Global, msg: &Message) -> Result<String, Cause>
    requires { IsWellFormedMessage msg.now }
{
    if !is_copied(msg)? {
        return Ok(owned(alloc, OTHER_COPY)?);
    }
    let written = write_message(alloc, msg)?;
    Ok(owned(alloc, written.as_str())?)
}

// The text of a draft.
fn draft_text(alloc: Global, draft: &Draft) -> Result<String, Cause>
    requires { IsWellFormedDraft draft.now }
{
    if !is_copied(draft)? {
        return Ok(owned(alloc, OTHER_COPY)?);
    }
    let written = write_draft(alloc, draft)?;
    Ok(owned(alloc, written.as_str())?)
}

// The text of a summary.
fn summary_text(alloc: Global, sum: &SumDoc) -> Result<String, SumFault>
    requires valid { IsValidSummary sum.now }
    requires conns { IsTrue (is_count (length sum.now.conns)) }
{
    if !is_copied(sum)? {
        return Ok(owned(alloc, OTHER_COPY)?);
    }
    let written = write_summary(alloc, sum)?;
    Ok(owned(alloc, written.as_str())?)
}

// Whether a copy of the value is the same.
fn is_copied<T: Datum>(value: &T) -> Result<bool, OutOfMemory> {
    let copy = value.copy()?;
    Ok(copy.same(value))
}

// Both numbers, or why there are none.
fn both_numbers(
    alloc: Global,
    number: Result<i64, FieldFault>,
    signed: Result<i64, FieldFault>,
) -> Result<String, OutOfMemory> {
    let number = number_text(alloc, number)?;
    let signed = number_text(alloc, signed)?;
    Ok(format!(in alloc; "{number}, {signed}")?)
}

// The number, or why there is none.
fn number_text(alloc: Global, number: Result<i64, FieldFault>) -> Result<String, OutOfMemory> {
    match number {
        Ok(number) => Ok(format!(in alloc; "{number}")?),
        Err(fault) => {
            let refusal = Refusal::of_cause(Cause::from(fault));
            Ok(format!(in alloc; "{refusal}")?)
        }
    }
}

// The string of a text.
fn quoted(alloc: Global, text: &Text) -> Result<String, OutOfMemory> {
    let string = quote(alloc, text)?;
    owned(alloc, string.as_str())
}

// The text as a string of its own.
fn owned(alloc: Global, text: &str) -> Result<String, OutOfMemory> {
    Ok(String::from_str(alloc, text)?)
}
