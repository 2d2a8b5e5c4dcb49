//! The clients of a map session, and their events.

ghost use Rattle.std.specs.Prelude.{◌≡◌, ◌+◌, Ok, OnOk, drop, take};
ghost use Rattle.ft_seqr.specs.World.{connection_name};
ghost use Rattle.ft_map.specs.MapClient.{after_entries, joining};
ghost use Rattle.ft_map.specs.MapSession.{connect_client, deliver_client, drop_client, edit_client, joined, next_conn, show_client, submit_all, summary_client, ticket_client};
ghost use Rattle.ft_map.specs.MapWorlds.{AnswersTurn, HasNoNack};

use crate::events::MapOut;
use crate::log::{MapDraft, MapEntry};
use crate::replica::MapReplica;
use crate::service::Service;
use crate::summaries::summary_text;
use ft_base::{Datum, OutOfMemory, Text};
use ft_msg::Link;
use ft_seqr::{HowMany, Refusal, conn_of, connection_name, wanted_count};
use ft_shared_map::MapOp;
use std::alloc::Global;
use std::marker::Model;

/// A client of a session, with its name and how often it connected.
#[derive(Drop)]
pub(crate) struct Member {
    pub(crate) name: Text,
    pub(crate) connects: u64,
    pub(crate) client: MapReplica,
}

impl Model for Member {
    ghost use Rattle.ft_map.specs.MapSession.{NamedMapClient};

    ghost Value = { NamedMapClient };

    ghost view = { λ m. record { name = m.name; connects = m.connects; client = m.client } };
}

/// The client gets a connection, which joins.
pub(crate) fn connect(
    alloc: Global,
    member: &mut Member,
    service: &mut Service,
) -> Result<MapOut, Refusal>
    ensures answers { AnswersTurn member.old member.new service.old service.new (connect_client service.old member.old) result }
    ensures name { member.new.name ≡ member.old.name }
{
    let Link::Offline = member.client.link() else {
        return Err(Refusal::AlreadyConnected);
    };
    join(alloc, member, service)?;
    Ok(MapOut::Nothing)
}

// The client's next connection joins.
fn join(alloc: Global, member: &mut Member, service: &mut Service) -> Result<(), OutOfMemory>
    ensures service { OnOk result (service.new ≡ joined (connection_name member.old.name (member.old.connects + 1)) service.old) }
    ensures member { OnOk result (member.new ≡ record { name = member.old.name; connects = member.old.connects + 1; client = joining (next_conn service.old) member.old.client }) }
    ensures name { member.new.name ≡ member.old.name }
{
    let connects = member.connects.checked_add(1).ok_or(OutOfMemory)?;
    let name = connection_name(alloc, &member.name, connects)?;
    let conn = service.join(&name)?;
    member.client.connect(conn)?;
    member.connects = connects;
    Ok(())
}

/// The client's connection leaves, and its unsent messages are gone.
pub(crate) fn drop_link(member: &mut Member, service: &mut Service) -> Result<MapOut, Refusal>
    ensures answers { AnswersTurn member.old member.new service.old service.new (drop_client service.old member.old) result }
    ensures name { member.new.name ≡ member.old.name }
{
    let Some(conn) = conn_of(member.client.link()) else {
        return Err(Refusal::NotConnected);
    };
    service.leave(conn)?;
    member.client.drop_link();
    Ok(MapOut::Nothing)
}

/// An edit of the client's own.
pub(crate) fn edit(member: &mut Member, service: &Service, op: &MapOp) -> Result<MapOut, Refusal>
    ensures answers { AnswersTurn member.old member.new service.now service.now (edit_client op.now service.now member.old) result }
    ensures name { member.new.name ≡ member.old.name }
{
    member.client.edit(op)?;
    Ok(MapOut::Nothing)
}

/// So many of the client's oldest unsent messages are submitted.
pub(crate) fn ticket(
    member: &mut Member,
    service: &mut Service,
    count: HowMany,
) -> Result<MapOut, Refusal>
    requires { HasNoNack (ticket_client count service.old member.old) }
    ensures answers { AnswersTurn member.old member.new service.old service.new (ticket_client count service.old member.old) result }
    ensures name { member.new.name ≡ member.old.name }
{
    let Some(conn) = conn_of(member.client.link()) else {
        return Err(Refusal::NotConnected);
    };
    let have = member.client.queued();
    let Some(wanted) = wanted_count(count, have) else {
        return Err(Refusal::NothingToTicket { have });
    };
    submit_oldest(&mut member.client, service, conn, wanted)?;
    Ok(MapOut::Nothing)
}

// So many of the client's oldest unsent messages are submitted for its connection.
//
// Returns `OutOfMemory` where there is no room for a message.
fn submit_oldest(
    client: &mut MapReplica,
    service: &mut Service,
    conn: u32,
    count: u64,
) -> Result<(), OutOfMemory>
    requires { HasNoNack (submit_all service.old conn (take count client.old.queue)) }
    ensures service { OnOk result (submit_all service.old conn (take count client.old.queue) ≡ Ok service.new) }
    ensures client { OnOk result (client.new ≡ record client.old { queue = drop count client.old.queue }) }
{
    for _ in 0..count {
        submit_next(client, service, conn)?;
    }
    Ok(())
}

// The client's oldest unsent message, if there is one, is submitted for its connection.
//
// Returns `OutOfMemory` where there is no room for it.
fn submit_next(client: &mut MapReplica, service: &mut Service, conn: u32) -> Result<(), OutOfMemory>
    requires { HasNoNack (submit_all service.old conn (take 1 client.old.queue)) }
    ensures service { OnOk result (submit_all service.old conn (take 1 client.old.queue) ≡ Ok service.new) }
    ensures client { OnOk result (client.new ≡ record client.old { queue = drop 1 client.old.queue }) }
{
    match client.take_outgoing() {
        Some(MapDraft { draft, op }) => service.submit(conn, draft, op),
        None => Ok(()),
    }
}

/// The client processes so many of the next messages of the log.
pub(crate) fn deliver(
    member: &mut Member,
    service: &Service,
    count: HowMany,
) -> Result<MapOut, Refusal>
    ensures answers { AnswersTurn member.old member.new service.now service.now (deliver_client count service.now member.old) result }
    ensures name { member.new.name ≡ member.old.name }
{
    if conn_of(member.client.link()).is_none() {
        return Err(Refusal::NotConnected);
    }
    let ahead = ahead_of(service, member.client.seq());
    let have = ahead.len() as u64;
    let Some(wanted) = wanted_count(count, have) else {
        return Err(Refusal::NothingToDeliver { have });
    };
    process_all(&mut member.client, &ahead[..wanted as usize])?;
    Ok(MapOut::Nothing)
}

// The messages of the log beyond this number.
fn ahead_of(service: &Service, number: u64) -> &[MapEntry]
    ensures { result.now ≡ drop number service.now.log }
{
    let log = service.log();
    let number = (number as usize).min(log.len());
    &log[number..]
}

// The client processes messages.
//
// Returns `OutOfMemory` where there is no room for one.
fn process_all(client: &mut MapReplica, entries: &[MapEntry]) -> Result<(), OutOfMemory>
    ensures { OnOk result (client.new ≡ after_entries client.old entries.now) }
{
    for e in entries {
        client.process(e)?;
    }
    Ok(())
}

/// The client's view is written.
pub(crate) fn show(member: &Member, service: &Service) -> Result<MapOut, Refusal>
    ensures { AnswersTurn member.now member.now service.now service.now (show_client service.now member.now) result }
{
    Ok(MapOut::View {
        name: member.name.copy()?,
        numbers: member.client.numbers(),
        pairs: member.client.pairs()?,
    })
}

/// The client's summary is written.
pub(crate) fn summarize(
    alloc: Global,
    member: &Member,
    service: &Service,
) -> Result<MapOut, Refusal>
    ensures { AnswersTurn member.now member.now service.now service.now (summary_client service.now member.now) result }
{
    member.client.nothing_pending()?;
    Ok(MapOut::Summary(summary_text(alloc, &member.client)?))
}
