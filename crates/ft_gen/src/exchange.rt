//! How all clients get to know all edits of a round.

ghost use Rattle.std.specs.Prelude.{◌≡◌, ℕ, ◌+◌, ◌≤◌, ◌∷◌, IfSome, Some};
ghost use Rattle.ft_seqr.specs.WellFormedEvent.{IsWellFormedEvent};
ghost use Rattle.ft_gen.specs.Acts.{act_event};
ghost use Rattle.ft_gen.specs.Rounds.{exchange};
ghost use Rattle.ft_gen.specs.Exchange.{IsExchange, compacts_from, exchange_left, exchange_to_come, lessons_from, noop_lessons_from, noops_from, submissions_from};

use crate::acts::{Act, Deed};

/// Who does what next once all clients have made their edits.
#[derive(Clone, Copy)]
pub enum Exchange {
    /// A client submits its edits. The dropped client, if there is one, has to wait.
    Submit { client: u64, dropped: Option<u64> },
    /// The dropped client connects.
    Return { dropped: u64 },
    /// The dropped client learns what the others submitted.
    CatchUp { dropped: u64 },
    /// The dropped client submits its edits.
    Resubmit { dropped: u64 },
    /// A client learns of all edits.
    Learn(u64),
    /// A client queues a noop.
    Noop(u64),
    /// The same client submits it.
    SubmitNoop(u64),
    /// A client learns of all noops.
    LearnNoops(u64),
    /// A client lets go of what no message can refer to.
    Compact(u64),
}

impl Exchange {
    /// What is done first.
    pub fn first(clients: u64, dropped: Option<u64>, round: u64) -> Exchange
        requires first { 1 ≤ clients }
        requires few { clients ≤ 16 }
        ensures told { exchange clients round dropped ≡ exchange_to_come clients round result }
        ensures sound { IsExchange clients result }
    {
        submit(1, clients, dropped)
    }

    /// What is done, and what is next, if anything is left of it.
    pub fn step(self, clients: u64, round: u64) -> (Act, Option<Exchange>)
        requires first { 1 ≤ clients }
        requires sound { IsExchange clients self }
        requires few { clients ≤ 16 }
        ensures told { exchange_to_come clients round self ≡ act_event result.0 ∷ exchange_left clients round result.1 }
        ensures well_formed { IsWellFormedEvent (act_event result.0) }
        ensures sound { IfSome result.1 (IsExchange clients) }
    {
        match self {
            Exchange::Submit { client, dropped } => {
                does(client, Deed::Ticket, submit(client + 1, clients, dropped))
            }
            Exchange::Return { dropped } => {
                does(dropped, Deed::Connect, Exchange::CatchUp { dropped })
            }
            Exchange::CatchUp { dropped } => {
                does(dropped, Deed::Deliver, Exchange::Resubmit { dropped })
            }
            Exchange::Resubmit { dropped } => does(dropped, Deed::Ticket, Exchange::Learn(1)),
            Exchange::Learn(client) => (
                Act::new(client, Deed::Deliver),
                learn(client + 1, clients, round),
            ),
            Exchange::Noop(client) => does(client, Deed::Noop, Exchange::SubmitNoop(client)),
            Exchange::SubmitNoop(client) => does(client, Deed::Ticket, noop(client + 1, clients)),
            Exchange::LearnNoops(client) => {
                does(client, Deed::Deliver, learn_noops(client + 1, clients))
            }
            Exchange::Compact(client) => (
                Act::new(client, Deed::Compact),
                compact(client + 1, clients),
            ),
        }
    }
}

// The act of that client, and what is next.
fn does(client: u64, deed: Deed, next: Exchange) -> (Act, Option<Exchange>)
    ensures { result ≡ (record { client = client; deed = deed }, Some next) }
{
    (Act::new(client, deed), Some(next))
}

// The submission of the first client from this one on that isn't dropped, or what is behind all
// submissions.
fn submit(first: u64, clients: u64, dropped: Option<u64>) -> Exchange
    requires first { 1 ≤ clients }
    requires few { clients ≤ 16 }
    requires next { first ≤ clients + 1 }
    ensures told { (round : ℕ) → submissions_from clients round first dropped ≡ exchange_to_come clients round result }
    ensures sound { IsExchange clients result }
{
    for client in first..clients + 1 {
        if dropped != Some(client) {
            return Exchange::Submit { client, dropped };
        }
    }
    match dropped {
        Some(dropped) => Exchange::Return { dropped },
        None => Exchange::Learn(1),
    }
}

// What this client learns of the edits, or what is behind that, if anything is.
fn learn(client: u64, clients: u64, round: u64) -> Option<Exchange>
    requires first { 1 ≤ clients }
    requires next { client ≤ clients + 1 }
    ensures told { lessons_from clients round client ≡ exchange_left clients round result }
    ensures sound { IfSome result (IsExchange clients) }
{
    if client <= clients {
        Some(Exchange::Learn(client))
    } else if round % 16 == 15 {
        Some(Exchange::Noop(1))
    } else {
        None
    }
}

// The noop of this client, or what is behind all noops.
fn noop(client: u64, clients: u64) -> Exchange
    requires first { 1 ≤ clients }
    requires next { client ≤ clients + 1 }
    ensures told { (round : ℕ) → noops_from clients client ≡ exchange_to_come clients round result }
    ensures sound { IsExchange clients result }
{
    if client <= clients {
        Exchange::Noop(client)
    } else {
        Exchange::LearnNoops(1)
    }
}

// What this client learns of the noops, or what is behind that.
fn learn_noops(client: u64, clients: u64) -> Exchange
    requires first { 1 ≤ clients }
    requires next { client ≤ clients + 1 }
    ensures told { (round : ℕ) → noop_lessons_from clients client ≡ exchange_to_come clients round result }
    ensures sound { IsExchange clients result }
{
    if client <= clients {
        Exchange::LearnNoops(client)
    } else {
        Exchange::Compact(1)
    }
}

// The compaction of this client, if there is such a client.
fn compact(client: u64, clients: u64) -> Option<Exchange>
    requires next { client ≤ clients + 1 }
    ensures told { (round : ℕ) → compacts_from clients client ≡ exchange_left clients round result }
    ensures sound { IfSome result (IsExchange clients) }
{
    if client <= clients {
        Some(Exchange::Compact(client))
    } else {
        None
    }
}
