//! The opening of a session.

ghost use Rattle.std.specs.Prelude.{◌≡◌, ◌+◌, ◌≤◌, ◌∷◌, IfSome};
ghost use Rattle.ft_seqr.specs.WellFormedEvent.{IsWellFormedEvent};
ghost use Rattle.ft_gen.specs.Acts.{act_event};
ghost use Rattle.ft_gen.specs.Opening.{IsOpening, greetings_from, grid_lessons_from, opening_left, opening_to_come, starts_from};

use crate::acts::{Act, Deed};
use ft_op::Target;

/// Who does what next in the opening.
#[derive(Clone, Copy)]
pub enum Opening {
    /// A client starts.
    Start(u64),
    /// The same client connects.
    Connect(u64),
    /// A client learns who is there.
    Greet(u64),
    /// The first client adds rows.
    Rows,
    /// The first client adds columns.
    Cols,
    /// The first client submits them.
    Submit,
    /// A client learns of them.
    Learn(u64),
}

impl Opening {
    /// What is done, and what is next, if anything is left of the opening.
    pub fn step(self, clients: u64) -> (Act, Option<Opening>)
        requires first { 1 ≤ clients }
        requires sound { IsOpening clients self }
        requires few { clients ≤ 16 }
        ensures told { opening_to_come clients self ≡ act_event result.0 ∷ opening_left clients result.1 }
        ensures well_formed { IsWellFormedEvent (act_event result.0) }
        ensures sound { IfSome result.1 (IsOpening clients) }
    {
        match self {
            Opening::Start(client) => (
                Act::new(client, Deed::Start),
                Some(Opening::Connect(client)),
            ),
            Opening::Connect(client) => (
                Act::new(client, Deed::Connect),
                Some(start(client + 1, clients)),
            ),
            Opening::Greet(client) => (
                Act::new(client, Deed::Deliver),
                Some(greet(client + 1, clients)),
            ),
            Opening::Rows => (
                Act::new(1, Deed::AddFour(Target::Rows)),
                Some(Opening::Cols),
            ),
            Opening::Cols => (
                Act::new(1, Deed::AddFour(Target::Cols)),
                Some(Opening::Submit),
            ),
            Opening::Submit => (Act::new(1, Deed::Ticket), Some(Opening::Learn(1))),
            Opening::Learn(client) => (Act::new(client, Deed::Deliver), learn(client + 1, clients)),
        }
    }
}

// The start of this client, or what is behind all starts.
fn start(client: u64, clients: u64) -> Opening
    requires first { 1 ≤ clients }
    requires next { client ≤ clients + 1 }
    ensures told { starts_from clients client ≡ opening_to_come clients result }
    ensures sound { IsOpening clients result }
{
    if client <= clients {
        Opening::Start(client)
    } else {
        Opening::Greet(1)
    }
}

// The greeting of this client, or what is behind all greetings.
fn greet(client: u64, clients: u64) -> Opening
    requires next { client ≤ clients + 1 }
    ensures told { greetings_from clients client ≡ opening_to_come clients result }
    ensures sound { IsOpening clients result }
{
    if client <= clients {
        Opening::Greet(client)
    } else {
        Opening::Rows
    }
}

// What this client learns of the grid, if there is such a client.
fn learn(client: u64, clients: u64) -> Option<Opening>
    requires next { client ≤ clients + 1 }
    ensures told { grid_lessons_from clients client ≡ opening_left clients result }
    ensures sound { IfSome result (IsOpening clients) }
{
    if client <= clients {
        Some(Opening::Learn(client))
    } else {
        None
    }
}
