//! How clients connect and go offline.

ghost use Rattle.std.specs.Prelude.{◌≡◌, ◌+◌, ◌-◌, ◌<◌, ◌^◌, length};
ghost use Rattle.ft_seqr.specs.World.{connect_client, connection_name, drop_client, noop_client};
ghost use Rattle.ft_session.specs.Worlds.{AnswersClient, MeetsSome};

use crate::counts::next_count;
use crate::members::Member;
use crate::outputs::BoxedOut;
use crate::service::Service;
use ft_base::Text;
use ft_msg::Replica;
use ft_seqr::{Refusal, conn_of, connection_name};

/// The client gets a connection, which joins.
pub(crate) fn connect<R: Replica>(
    member: &mut Member<R>,
    service: &mut Service,
) -> Result<BoxedOut, Refusal>
    requires { MeetsSome member.old service.old }
    ensures answers { AnswersClient connect_client member.old member.new service.old service.new result }
    ensures name { member.new.name ≡ member.old.name }
{
    let conn = service.next_conn()?;
    let connects = next_count(member.connects)?;
    let name = connection_name(service.alloc, &member.name, connects)?;
    connect_as(member, service, conn, connects, &name)
}

// The client gets this connection, its `connects`-th, which joins under this name.
fn connect_as<R: Replica>(
    member: &mut Member<R>,
    service: &mut Service,
    conn: u32,
    connects: u64,
    name: &Text,
) -> Result<BoxedOut, Refusal>
    requires meets { MeetsSome member.old service.old }
    requires next { conn ≡ length service.old.names + 1 }
    requires few { length service.old.names < 2 ^ 32 - 1 }
    requires connects { connects ≡ member.old.connects + 1 }
    requires name { name.now ≡ connection_name member.old.name connects }
    ensures answers { AnswersClient connect_client member.old member.new service.old service.new result }
    ensures name { member.new.name ≡ member.old.name }
{
    member.replica.connect(conn)?;
    service.join(name)?;
    member.connects = connects;
    Ok(BoxedOut::nothing())
}

/// The client's connection leaves, and its unsent messages are gone.
pub(crate) fn drop_link<R: Replica>(
    member: &mut Member<R>,
    service: &mut Service,
) -> Result<BoxedOut, Refusal>
    requires { MeetsSome member.old service.old }
    ensures answers { AnswersClient drop_client member.old member.new service.old service.new result }
    ensures name { member.new.name ≡ member.old.name }
{
    let Some(conn) = conn_of(member.replica.numbers().link) else {
        return Err(Refusal::NotConnected);
    };
    service.leave(conn)?;
    member.replica.drop_link()?;
    Ok(BoxedOut::nothing())
}

/// The client queues a noop.
pub(crate) fn noop<R: Replica>(
    member: &mut Member<R>,
    service: &Service,
) -> Result<BoxedOut, Refusal>
    requires { MeetsSome member.old service.now }
    ensures answers { AnswersClient noop_client member.old member.new service.now service.now result }
    ensures name { member.new.name ≡ member.old.name }
{
    member.replica.noop()?;
    Ok(BoxedOut::nothing())
}
