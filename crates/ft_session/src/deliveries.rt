//! How clients process messages.

ghost use Rattle.std.specs.Prelude.{◌≡◌, ◌≤◌, drop, length};
ghost use Rattle.ft_seqr.specs.World.{deliver_client, offer_message};
ghost use Rattle.ft_session.specs.Acts.{offered_client};
ghost use Rattle.ft_session.specs.Connected.{HasConnection};
ghost use Rattle.ft_session.specs.Worlds.{AnswersClient, MeetsSome};

use crate::counts::next_count;
use crate::members::Member;
use crate::outputs::BoxedOut;
use crate::service::Service;
use ft_delivery::{offered_entry, process_all, process_one};
use ft_msg::{Cause, Entry, Message, Replica};
use ft_seqr::{HowMany, Refusal, conn_of, wanted_count};

/// The client processes so many of the next messages of the log.
pub(crate) fn deliver<R: Replica>(
    member: &mut Member<R>,
    service: &Service,
    count: HowMany,
) -> Result<BoxedOut, Refusal>
    requires { MeetsSome member.old service.now }
    ensures answers { AnswersClient (λ w c. deliver_client w c count) member.old member.new service.now service.now result }
    ensures name { member.new.name ≡ member.old.name }
{
    let numbers = member.replica.numbers();
    if conn_of(numbers.link).is_none() {
        return Err(Refusal::NotConnected);
    }
    let ahead = ahead_of(service, numbers.seq);
    let have = ahead.len() as u64;
    let Some(wanted) = wanted_count(count, have) else {
        return Err(Refusal::NothingToDeliver { have });
    };
    process_all(&mut member.replica, &ahead[..wanted as usize])?;
    Ok(BoxedOut::nothing())
}

/// The client processes the message that an offered text was read as, if it is the next one and the log
/// has it so.
pub(crate) fn offer<R: Replica>(
    member: &mut Member<R>,
    service: &Service,
    read: &Result<Message, Cause>,
) -> Result<BoxedOut, Refusal>
    requires { MeetsSome member.old service.now }
    ensures answers { AnswersClient (λ w c. offered_client w c read.now) member.old member.new service.now service.now result }
    ensures name { member.new.name ≡ member.old.name }
{
    if conn_of(member.replica.numbers().link).is_none() {
        return Err(Refusal::NotConnected);
    }
    match read {
        Ok(message) => offer_message(member, service, message),
        Err(cause) => Err(Refusal::of_cause(*cause)),
    }
}

// The client processes an offered message, if it is the next one and the log has it so.
fn offer_message<R: Replica>(
    member: &mut Member<R>,
    service: &Service,
    message: &Message,
) -> Result<BoxedOut, Refusal>
    requires meets { MeetsSome member.old service.now }
    requires linked { HasConnection member.old }
    ensures answers { AnswersClient (λ w c. offer_message w c message.now) member.old member.new service.now service.now result }
    ensures name { member.new.name ≡ member.old.name }
{
    let number = member.replica.numbers().seq;
    let expected = next_count(number)?;
    if message.seq != expected {
        return Err(Refusal::OutOfOrder {
            expected,
            got: message.seq,
        });
    }
    let Some(entry) = offered_entry(ahead_of(service, number), message) else {
        return Err(Refusal::Foreign {
            number: message.seq,
        });
    };
    process_one(&mut member.replica, entry)?;
    Ok(BoxedOut::nothing())
}

// The messages of the log beyond this number.
fn ahead_of(service: &Service, number: u64) -> &[Entry]
    requires { number ≤ length service.now.log }
    ensures { result.now ≡ drop number service.now.log }
{
    &service.log[number as usize..]
}
