//! What an event adds to the load of a world.

ghost use Rattle.std.specs.Prelude.{◌≡◌, ◌+◌, IfOk, fold, length, map};
ghost use Rattle.ft_op.specs.Operation.{OnGrid, OnText};
ghost use Rattle.ft_seqr.specs.World.{body_load, inserted_count, op_load};
ghost use Rattle.ft_session.specs.Acts.{act_load, client_load, draft_load, message_load, session_load};

use crate::acts::{Act, ClientAct, SessionAct};
use ft_base::{OutOfMemory, Text};
use ft_msg::{Body, Cause, Draft, Message};
use ft_op::{BaseOp, CellOp, ChannelOp, GridOp, Seg, TextOp};

/// What an event adds that does this: one, and for its operation, or that of the text in it, one for each
/// sub-operation and for each inserted element.
///
/// Returns `OutOfMemory` where the sum would pass 2^64 - 1.
pub(crate) fn act_load(act: &Act<'_>) -> Result<u64, OutOfMemory>
    ensures { IfOk result (λ n. n ≡ 1 + act_load act.now) }
{
    let load = match act {
        Act::OfClient(_, act) => client_load(act)?,
        Act::OfSession(act) => session_load(act)?,
    };
    load.checked_add(1).ok_or(OutOfMemory)
}

// What an event adds that does this to a client.
fn client_load(act: &ClientAct<'_>) -> Result<u64, OutOfMemory>
    ensures { IfOk result (λ n. n ≡ client_load act.now) }
{
    match act {
        ClientAct::Edit(op) => op_load(op),
        ClientAct::Offer(read) => message_load(read),
        _ => Ok(0),
    }
}

// What an event adds that does this to the session as a whole.
fn session_load(act: &SessionAct<'_>) -> Result<u64, OutOfMemory>
    ensures { IfOk result (λ n. n ≡ session_load act.now) }
{
    match act {
        SessionAct::Submit(_, read) => draft_load(read),
        _ => Ok(0),
    }
}

// What the message adds that an offered text is, if it is one.
fn message_load(read: &Result<Message, Cause>) -> Result<u64, OutOfMemory>
    ensures { IfOk result (λ n. n ≡ message_load read.now) }
{
    match read {
        Ok(message) => body_load(&message.body),
        Err(_) => Ok(0),
    }
}

// What the draft adds that a submitted text is, if it is one.
fn draft_load(read: &Result<Draft, Cause>) -> Result<u64, OutOfMemory>
    ensures { IfOk result (λ n. n ≡ draft_load read.now) }
{
    match read {
        Ok(draft) => body_load(&draft.body),
        Err(_) => Ok(0),
    }
}

/// What an operation adds to a load: one for each sub-operation, and one for each inserted element.
///
/// Returns `OutOfMemory` where the sum would pass 2^64 - 1.
pub fn op_load(op: &ChannelOp) -> Result<u64, OutOfMemory>
    ensures { IfOk result (λ n. n ≡ op_load op.now) }
{
    match op {
        ChannelOp::Text(TextOp::One(op)) => load_with(0, inserted_by_base(op)),
        ChannelOp::Text(TextOp::Group(ops)) => base_loads(ops.as_slice()),
        ChannelOp::Text(
            TextOp::IntervalAdd { .. }
            | TextOp::IntervalChange { .. }
            | TextOp::IntervalDelete { .. },
        ) => Ok(1),
        ChannelOp::Grid(GridOp::One(op)) => load_with(0, inserted_by_cell(op)),
        ChannelOp::Grid(GridOp::Group(ops)) => cell_loads(ops.as_slice()),
    }
}

// A load with that of a further sub-operation that inserts so many elements.
fn load_with(load: u64, inserted: u64) -> Result<u64, OutOfMemory>
    ensures { IfOk result (λ n. n ≡ load + (1 + inserted)) }
{
    let more = inserted.checked_add(1).ok_or(OutOfMemory)?;
    load.checked_add(more).ok_or(OutOfMemory)
}

// What sub-operations of the text add.
fn base_loads(ops: &[BaseOp]) -> Result<u64, OutOfMemory>
    ensures { IfOk result (λ n. n ≡ fold (λ n o. n + (1 + inserted_count o)) 0 (map (λ op. OnText op) ops.now)) }
{
    let mut load = 0;
    for op in ops {
        load = load_with(load, inserted_by_base(op))?;
    }
    Ok(load)
}

// What sub-operations of the grid add.
fn cell_loads(ops: &[CellOp]) -> Result<u64, OutOfMemory>
    ensures { IfOk result (λ n. n ≡ fold (λ n o. n + (1 + inserted_count o)) 0 (map (λ op. OnGrid op) ops.now)) }
{
    let mut load = 0;
    for op in ops {
        load = load_with(load, inserted_by_cell(op))?;
    }
    Ok(load)
}

// How many elements a sub-operation of the text inserts.
fn inserted_by_base(op: &BaseOp) -> u64
    ensures { result ≡ inserted_count (OnText op.now) }
{
    match op {
        BaseOp::Insert {
            seg: Seg::Chars { text },
            ..
        } => char_count(text),
        BaseOp::Insert {
            seg: Seg::Marker { .. },
            ..
        } => 1,
        BaseOp::Remove { .. } | BaseOp::Annotate { .. } => 0,
    }
}

// How many characters the text has.
fn char_count(text: &Text) -> u64
    ensures { result ≡ length text.now }
{
    text.as_str().chars().count() as u64
}

// How many units a sub-operation of the grid inserts.
fn inserted_by_cell(op: &CellOp) -> u64
    ensures { result ≡ inserted_count (OnGrid op.now) }
{
    match op {
        CellOp::SpliceIn { count, .. } => *count,
        CellOp::SpliceOut { .. } | CellOp::Set { .. } => 0,
    }
}

/// What the body of a message adds to a load.
///
/// Returns `OutOfMemory` where the sum would pass 2^64 - 1.
pub fn body_load(body: &Body) -> Result<u64, OutOfMemory>
    ensures { IfOk result (λ n. n ≡ body_load body.now) }
{
    match body {
        Body::Op(op) => op_load(op),
        Body::Nothing | Body::Elsewhere(_) => Ok(0),
    }
}
