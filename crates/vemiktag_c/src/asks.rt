//! What a run is opened as, and what is asked of it: calls of `ft_door`, for any replica.

ghost use Rattle.std.specs.Prelude.{IfOk, length};
ghost use Rattle.ft_door.specs.Clients.{unread_by};
ghost use Rattle.ft_door.specs.Runs.{unread_of};
ghost use Rattle.vemiktag_c.specs.Asks.{Answers, Counts, IsNewAs};

use ft_base::OutOfMemory;
use ft_changes::Telling;
use ft_door::{Call, HeldClient, HeldSession};
use ft_report::DONE;
use std::alloc::Global;

/// What is asked of a run.
#[derive(Clone, Copy)]
pub enum Ask {
    /// The session hears a line, which is given without its LF.
    Line,
    /// The session is closed.
    Close,
    /// The next bytes of the report are read.
    ReadReport,
    /// The client is called.
    Call(Call),
    /// The client puts the line of its oldest draft behind what waits.
    Outgoing,
    /// The client puts the lines of what it shows behind what waits.
    View,
    /// A listener of the client begins, or there is none any more.
    Tell(bool),
    /// The client puts the changes since it was last asked behind what waits.
    Changes,
    /// How many bytes of the client wait.
    Waiting,
    /// The next bytes of the client are read.
    ReadTold,
}

/// What a run is opened as; its other part is at its end.
#[derive(Clone, Copy)]
pub enum Role {
    /// A session before its first line.
    Session,
    /// A new client.
    Client,
}

/// The parts of a run that is opened as this.
///
/// Returns `OutOfMemory` where there is no room for them.
pub fn new_parts<R: Telling + Drop>(
    alloc: Global,
    role: Role,
) -> Result<(HeldSession<R>, HeldClient<R>), OutOfMemory>
    ensures { IfOk result (λ parts. IsNewAs role parts.0 parts.1) }
{
    match role {
        Role::Session => {
            let session = HeldSession::new(alloc)?;
            Ok((session, HeldClient::ended(alloc)))
        }
        Role::Client => {
            let client = HeldClient::new(alloc)?;
            Ok((HeldSession::ended(alloc), client))
        }
    }
}

/// Answers this, with these bytes, and room for what is read; returns the status that C is told. `count` is how many bytes were
/// read, where some are, and behind a line, a close or a question for it how many wait.
pub fn answer<R: Telling + Drop>(
    session: &mut HeldSession<R>,
    client: &mut HeldClient<R>,
    ask: Ask,
    bytes: &[u8],
    room: &mut [u8],
    count: &mut usize,
) -> u32
    ensures answer { Answers ask bytes.now session.old client.old session.new client.new room.new count.new result }
    ensures count { Counts ask (length (unread_of session.new)) (length (unread_by client.new)) room.new count.new }
{
    match ask {
        Ask::Line => {
            let status = session.hear(bytes);
            *count = session.unread();
            status
        }
        Ask::Close => {
            let status = session.close();
            *count = session.unread();
            status
        }
        Ask::ReadReport => {
            *count = session.read(room);
            DONE
        }
        Ask::Call(call) => client.call(call, bytes),
        Ask::Outgoing => client.outgoing(),
        Ask::View => client.view(),
        Ask::Tell(listens) => client.tell(listens),
        Ask::Changes => client.changes(),
        Ask::Waiting => {
            *count = client.unread();
            DONE
        }
        Ask::ReadTold => {
            *count = client.read(room);
            DONE
        }
    }
}
