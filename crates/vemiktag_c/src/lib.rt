//! Vemiktag for C and for what can call C: the functions that `include/vemiktag.h` declares. `vemiktag_report` is a call of
//! `ft_report`, and each other one a call of `ft_door`.
//!
//! A session and a client are structs that C holds. Each call of a closed one returns `CLOSED`, and changes nothing.
#![tactic(auto)]

ghost use Rattle.std.specs.Prelude.{◌≡◌, [], IfOk, None};
ghost use Rattle.ft_door.specs.Clients.{CallsClient, ListensToClient, SendsDraft, ShowsClient, TellsClient};
ghost use Rattle.ft_door.specs.Editors.{call_exceeds, call_step};
ghost use Rattle.ft_report.specs.Reports.{Tells};
ghost use Rattle.vemiktag_c.specs.Asks.{Answers, Counts, IsNewAs};
ghost use Rattle.vemiktag_c.specs.Handles.{Calls, Closes, Frees, Hears, Opens, OpensAs, OpensClient, ReadsOn, ReadsOnClient, WaitsOn, client_waiting, held_run, waiting};

mod asks;
mod handles;
mod held;
mod loose;
mod runs;

use asks::{Ask, Role, answer, new_parts};
use ft_base::OutOfMemory;
use ft_client::Client;
use ft_door::Call;
use ft_door::sessions::CLOSED;
use ft_report::{DONE, OUT_OF_MEMORY, report_into};
use handles::Handle;
use runs::ClientRun;
use std::alloc::Global;

/// Puts the report of the session whose events are the lines of the input into the first bytes of `report`, and into
/// `count` how many bytes it has.
///
/// Returns 0 where it is there, and nothing was refused or skipped, 1 where something was; 4 where it has more bytes than
/// there is room for; 5 where there was no memory; and 6 where the input has more than 16,777,216 bytes. `count` is 0 in
/// the last two, and `report` is as it was in the last three.
#[unsafe(no_mangle)]
pub extern "C" fn vemiktag_report(
    alloc: Global,
    input: &[u8],
    report: &mut [u8],
    count: &mut usize,
) -> u32
    ensures { Tells input.now report.old report.new count.new result }
{
    report_into::<Client>(alloc, input, report, count)
}

/// Opens a session before its first line. One that was open is freed first.
///
/// Returns 0, and 5 where there was no memory: then it is closed.
#[unsafe(no_mangle)]
pub extern "C" fn vemiktag_session_new(alloc: Global, session: &mut Handle) -> u32
    ensures { Opens session.new result }
{
    opened(alloc, session, Role::Session)
}

/// Gives the session a line, without its LF; `count` is how many bytes of its report wait then to be read.
///
/// Returns 0 where it was taken, and 1 where it was refused; 5 where there was no memory, and then the session takes no
/// more lines; 6 where it has heard more than 16,777,216 lines; 7 where it takes none, or is closed.
#[unsafe(no_mangle)]
pub extern "C" fn vemiktag_session_line(
    alloc: Global,
    session: &mut Handle,
    line: &[u8],
    count: &mut usize,
) -> u32
    ensures { Hears session.old session.new line.now count.new result }
{
    asked(alloc, session, Ask::Line, line, &mut [], count)
}

/// Puts the last lines behind what waits to be read; the session takes no more lines then. `count` is how many bytes wait.
///
/// Returns 0 where no line was refused and no sub-operation skipped, and else 1; 5 where there was no memory; 7 where it
/// was closed before.
#[unsafe(no_mangle)]
pub extern "C" fn vemiktag_session_close(
    alloc: Global,
    session: &mut Handle,
    count: &mut usize,
) -> u32
    ensures { Closes session.old session.new count.new result }
{
    asked(alloc, session, Ask::Close, &[], &mut [], count)
}

/// Reads the next bytes of the report into the first of `report`, as many as it has room for; `count` is how many.
///
/// Returns 0, and 7 where the session is closed: then `count` is 0.
#[unsafe(no_mangle)]
pub extern "C" fn vemiktag_session_read(
    alloc: Global,
    session: &mut Handle,
    report: &mut [u8],
    count: &mut usize,
) -> u32
    ensures { ReadsOn session.old session.new report.old report.new count.new result }
{
    asked(alloc, session, Ask::ReadReport, &[], report, count)
}

/// Frees what the session holds: it is closed then.
///
/// Returns 0, and 7 where it was closed before.
#[unsafe(no_mangle)]
pub extern "C" fn vemiktag_session_free(alloc: Global, session: &mut Handle) -> u32
    ensures { Frees session.old session.new result }
{
    match session.take(alloc) {
        Some(held) => {
            drop(held);
            DONE
        }
        None => CLOSED,
    }
}

/// Opens a client: an empty document, no connection. One that was open is freed first.
///
/// Returns 0, and 5 where there was no memory: then it is closed.
#[unsafe(no_mangle)]
pub extern "C" fn vemiktag_client_new(alloc: Global, client: &mut Handle) -> u32
    ensures { OpensClient client.new result }
{
    opened(alloc, client, Role::Client)
}

/// The client starts anew, from the summary that these bytes are. What it had is gone.
///
/// Returns 0 where it did; 1 where the summary was refused, and then why waits to be read; 2 where it was, and there was no memory for that
/// line; 5 where there was no memory, and then the client takes nothing more; 6 where the number of its messages, and thrice that of the elements in its longest list, are
/// more than 2^52; 7 where it takes nothing, or is closed. In all but 0 and 5 the client is as it was.
#[unsafe(no_mangle)]
pub extern "C" fn vemiktag_client_load(alloc: Global, client: &mut Handle, summary: &[u8]) -> u32
    ensures { Calls (λ a b s. CallsClient (call_step Call.Load summary.now) (call_exceeds Call.Load summary.now) a.client b.client s × (b.session ≡ a.session)) (held_run client.old) (held_run client.new) result }
{
    asked(
        alloc,
        client,
        Ask::Call(Call::Load),
        summary,
        &mut [],
        &mut 0,
    )
}

/// The client waits for the join of the connection of this name, from which on it is online.
///
/// Returns 0; 1 where it has a connection, or waits for one; 2 where it has, and there was no memory for the line that says so; 5 where there
/// was no memory, and then the client takes nothing more; 7 where it takes nothing, or is closed.
#[unsafe(no_mangle)]
pub extern "C" fn vemiktag_client_connect(alloc: Global, client: &mut Handle, name: &[u8]) -> u32
    ensures { Calls (λ a b s. CallsClient (call_step Call.Connect name.now) (call_exceeds Call.Connect name.now) a.client b.client s × (b.session ≡ a.session)) (held_run client.old) (held_run client.new) result }
{
    asked(
        alloc,
        client,
        Ask::Call(Call::Connect),
        name,
        &mut [],
        &mut 0,
    )
}

/// The client has no connection any more: its drafts that aren't sent are gone, its edits stay pending.
///
/// Returns 0; 1 where it has none, and waits for none; 2 where it hasn't, and there was no memory for the line that says so; 7 where it takes
/// nothing, or is closed.
#[unsafe(no_mangle)]
pub extern "C" fn vemiktag_client_drop(alloc: Global, client: &mut Handle) -> u32
    ensures { Calls (λ a b s. CallsClient (call_step Call.Drop []) (call_exceeds Call.Drop []) a.client b.client s × (b.session ≡ a.session)) (held_run client.old) (held_run client.new) result }
{
    asked(alloc, client, Ask::Call(Call::Drop), &[], &mut [], &mut 0)
}

/// The client takes an edit of its own, which is the text of an event `edit`; the `client` in there is passed over.
///
/// Returns 0 where it was taken; 1 where it was refused, and then why waits to be read; 2 where it was, and there was no memory for that line; 5
/// where there was no memory, and then the client takes nothing more; 6 where its steps would cost more than 2^52; 7 where it takes nothing, or is closed.
#[unsafe(no_mangle)]
pub extern "C" fn vemiktag_client_edit(alloc: Global, client: &mut Handle, edit: &[u8]) -> u32
    ensures { Calls (λ a b s. CallsClient (call_step Call.Edit edit.now) (call_exceeds Call.Edit edit.now) a.client b.client s × (b.session ≡ a.session)) (held_run client.old) (held_run client.new) result }
{
    asked(alloc, client, Ask::Call(Call::Edit), edit, &mut [], &mut 0)
}

/// The client takes the next message of the log, which is the text of one.
///
/// Returns as `vemiktag_client_edit` does, and 6 also where it has seen 2^32 - 1 connections and this is the next message.
#[unsafe(no_mangle)]
pub extern "C" fn vemiktag_client_process(alloc: Global, client: &mut Handle, message: &[u8]) -> u32
    ensures { Calls (λ a b s. CallsClient (call_step Call.Process message.now) (call_exceeds Call.Process message.now) a.client b.client s × (b.session ≡ a.session)) (held_run client.old) (held_run client.new) result }
{
    asked(
        alloc,
        client,
        Ask::Call(Call::Process),
        message,
        &mut [],
        &mut 0,
    )
}

/// Puts the line of the client's oldest draft that isn't sent behind what waits to be read; it counts as sent then.
///
/// Returns 0; 8 where there is none; 5 where there was no memory; 7 where the client takes nothing, or is closed. In all but 0
/// nothing changed.
#[unsafe(no_mangle)]
pub extern "C" fn vemiktag_client_outgoing(alloc: Global, client: &mut Handle) -> u32
    ensures { Calls (λ a b s. SendsDraft a.client b.client s × (b.session ≡ a.session)) (held_run client.old) (held_run client.new) result }
{
    asked(alloc, client, Ask::Outgoing, &[], &mut [], &mut 0)
}

/// Puts the lines of what the client shows behind what waits to be read.
///
/// Returns 0; 5 where there was no memory; 7 where the client takes nothing, or is closed. In all but 0 nothing changed.
#[unsafe(no_mangle)]
pub extern "C" fn vemiktag_client_view(alloc: Global, client: &mut Handle) -> u32
    ensures { Calls (λ a b s. ShowsClient a.client b.client s × (b.session ≡ a.session)) (held_run client.old) (held_run client.new) result }
{
    asked(alloc, client, Ask::View, &[], &mut [], &mut 0)
}

/// A listener of the client begins, which `vemiktag_client_changes` tells of what changes in what the client shows; or
/// there is none any more. The first changes lead from nothing to what it shows now, and after each load they do so again.
///
/// Returns 0; 5 where there was no memory; 7 where the client takes nothing, or is closed. In all but 0 nothing changed.
#[unsafe(no_mangle)]
pub extern "C" fn vemiktag_client_tell(alloc: Global, client: &mut Handle, listens: bool) -> u32
    ensures { Calls (λ a b s. ListensToClient listens a.client b.client s × (b.session ≡ a.session)) (held_run client.old) (held_run client.new) result }
{
    asked(alloc, client, Ask::Tell(listens), &[], &mut [], &mut 0)
}

/// Puts the changes since it was last asked behind what waits to be read, a JSON object each on a line. Until then they
/// wait in memory.
///
/// Returns 0; 8 where nobody listens; 5 where there was no memory; 7 where the client takes nothing, or is closed. In all but
/// 0 nothing changed.
#[unsafe(no_mangle)]
pub extern "C" fn vemiktag_client_changes(alloc: Global, client: &mut Handle) -> u32
    ensures { Calls (λ a b s. TellsClient a.client b.client s × (b.session ≡ a.session)) (held_run client.old) (held_run client.new) result }
{
    asked(alloc, client, Ask::Changes, &[], &mut [], &mut 0)
}

/// Tells how many bytes wait to be read.
///
/// Returns 0, and 7 where the client is closed: then `count` is 0.
#[unsafe(no_mangle)]
pub extern "C" fn vemiktag_client_waiting(
    alloc: Global,
    client: &mut Handle,
    count: &mut usize,
) -> u32
    ensures { WaitsOn client.old client.new count.new result }
{
    asked(alloc, client, Ask::Waiting, &[], &mut [], count)
}

/// Reads the next bytes that wait into the first of `told`, as many as it has room for; `count` is how many.
///
/// Returns 0, and 7 where the client is closed: then `count` is 0.
#[unsafe(no_mangle)]
pub extern "C" fn vemiktag_client_read(
    alloc: Global,
    client: &mut Handle,
    told: &mut [u8],
    count: &mut usize,
) -> u32
    ensures { ReadsOnClient client.old client.new told.old told.new count.new result }
{
    asked(alloc, client, Ask::ReadTold, &[], told, count)
}

/// Frees what the client holds: it is closed then.
///
/// Returns 0, and 7 where it was closed before.
#[unsafe(no_mangle)]
pub extern "C" fn vemiktag_client_free(alloc: Global, client: &mut Handle) -> u32
    ensures { Frees client.old client.new result }
{
    vemiktag_session_free(alloc, client)
}

// Asks this of the run of a handle, with these bytes, and room for what is read. A closed one answers `CLOSED`, `count` is 0, and the room is as
// it was.
fn asked(
    alloc: Global,
    handle: &mut Handle,
    ask: Ask,
    bytes: &[u8],
    room: &mut [u8],
    count: &mut usize,
) -> u32
    ensures run { Calls (λ a b s. Answers ask bytes.now a.session a.client b.session b.client room.new count.new s) (held_run handle.old) (held_run handle.new) result }
    ensures count { Counts ask (waiting (held_run handle.new)) (client_waiting (held_run handle.new)) room.new count.new }
    ensures closed { held_run handle.old ≡ None → (count.new ≡ 0) × (room.new ≡ room.old) }
{
    *count = 0;
    let Some(mut held) = handle.take(alloc) else {
        return CLOSED;
    };
    let ClientRun { session, client } = &mut *held;
    let status = answer(session, client, ask, bytes, room, count);
    *handle = Handle::open(held);
    status
}

// Opens the handle as this. A run that it had is freed first.
fn opened(alloc: Global, handle: &mut Handle, role: Role) -> u32
    ensures { OpensAs role handle.new result }
{
    vemiktag_session_free(alloc, handle);
    match new_run(alloc, role) {
        Ok(run) => {
            *handle = Handle::open(run);
            DONE
        }
        Err(OutOfMemory) => OUT_OF_MEMORY,
    }
}

// A run that is opened as this.
fn new_run(alloc: Global, role: Role) -> Result<Box<ClientRun>, OutOfMemory>
    ensures { IfOk result (λ b. IsNewAs role b.value.session b.value.client) }
{
    let (session, client) = new_parts::<Client>(alloc, role)?;
    Ok(Box::new(alloc, ClientRun { session, client })?)
}
