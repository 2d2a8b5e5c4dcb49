//! Edits of a client's own, and how they are submitted.

ghost use Rattle.std.specs.Prelude.{◌≡◌, Ok, Err, IsTrue, OnOk, OnErr, drop, take};
ghost use Rattle.ft_op.specs.WellFormed.{IsWellFormed};
ghost use Rattle.ft_seqr.specs.World.{NaiveWorld, edit_client, quietly, submit_all, ticket_client};
ghost use Rattle.ft_session.specs.Services.{CanSubmit};
ghost use Rattle.ft_session.specs.Worlds.{AnswersClient, MeetsSome, service_of};
ghost use Rattle.ft_msg.specs.Answers.{IsFullyCompacted, with_queue};

use crate::members::Member;
use crate::outputs::BoxedOut;
use crate::service::Service;
use ft_msg::Replica;
use ft_op::ChannelOp;
use ft_seqr::{HowMany, Refusal, conn_of, wanted_count};

/// An edit of the client's own.
pub(crate) fn edit<R: Replica>(
    member: &mut Member<R>,
    service: &Service,
    op: &ChannelOp,
) -> Result<BoxedOut, Refusal>
    requires formed { IsWellFormed op.now }
    requires meets { MeetsSome member.old service.now }
    ensures answers { AnswersClient (λ w c. edit_client w c op.now) member.old member.new service.now service.now result }
    ensures name { member.new.name ≡ member.old.name }
{
    member.replica.edit(op)?;
    Ok(BoxedOut::nothing())
}

/// So many of the client's oldest unsent messages are submitted.
pub(crate) fn ticket<R: Replica>(
    member: &mut Member<R>,
    service: &mut Service,
    count: HowMany,
) -> Result<BoxedOut, Refusal>
    requires { MeetsSome member.old service.old }
    ensures answers { AnswersClient (λ w c. ticket_client w c count) member.old member.new service.old service.new result }
    ensures name { member.new.name ≡ member.old.name }
{
    let Some(conn) = conn_of(member.replica.numbers().link) else {
        return Err(Refusal::NotConnected);
    };
    let have = member.replica.queued() as u64;
    let Some(wanted) = wanted_count(count, have) else {
        return Err(Refusal::NothingToTicket { have });
    };
    submit_oldest(&mut member.replica, service, conn, wanted)?;
    Ok(BoxedOut::nothing())
}

/// The client lets go of what no message can refer to, of all of it where `R::COMPACTS`.
pub(crate) fn compact<R: Replica>(
    member: &mut Member<R>,
    service: &Service,
) -> Result<BoxedOut, Refusal>
    requires { MeetsSome member.old service.now }
    ensures answers { AnswersClient (λ w c. quietly w) member.old member.new service.now service.now result }
    ensures full { IsTrue R.COMPACTS → OnOk result (IsFullyCompacted member.new.replica.client) }
    ensures name { member.new.name ≡ member.old.name }
{
    member.replica.compact()?;
    Ok(BoxedOut::nothing())
}

// So many of the replica's oldest unsent messages are submitted for its connection.
fn submit_oldest<R: Replica>(
    replica: &mut R,
    service: &mut Service,
    conn: u32,
    count: u64,
) -> Result<(), Refusal>
    requires { CanSubmit service.old conn (take count (R.state replica.old).client.queue) }
    ensures service { (w : NaiveWorld) (v : NaiveWorld) → service.old ≡ service_of w → submit_all w conn (take count (R.state replica.old).client.queue) ≡ Ok v
        → OnOk result (service.new ≡ service_of v) }
    ensures replica { OnOk result (R.state replica.new ≡ with_queue (drop count (R.state replica.old).client.queue) (R.state replica.old)) }
    ensures memory { OnErr result (result ≡ Err Refusal.OutOfMemory) }
{
    for _ in 0..count {
        submit_next(replica, service, conn)?;
    }
    Ok(())
}

// The replica's oldest unsent message, if there is one, is submitted for its connection.
fn submit_next<R: Replica>(replica: &mut R, service: &mut Service, conn: u32) -> Result<(), Refusal>
    requires { CanSubmit service.old conn (take 1 (R.state replica.old).client.queue) }
    ensures service { (w : NaiveWorld) (v : NaiveWorld) → service.old ≡ service_of w → submit_all w conn (take 1 (R.state replica.old).client.queue) ≡ Ok v
        → OnOk result (service.new ≡ service_of v) }
    ensures replica { OnOk result (R.state replica.new ≡ with_queue (drop 1 (R.state replica.old).client.queue) (R.state replica.old)) }
    ensures memory { OnErr result (result ≡ Err Refusal.OutOfMemory) }
{
    match replica.take_outgoing() {
        Some(draft) => service.submit(conn, draft),
        None => Ok(()),
    }
}
