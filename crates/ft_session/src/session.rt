//! The events of a session.

ghost use Rattle.std.specs.Prelude.{◌≡◌, [], IfOk};
ghost use Rattle.ft_seqr.specs.Sequencer.{new_sequencer};
ghost use Rattle.ft_seqr.specs.World.{of_client};
ghost use Rattle.ft_session.specs.Acts.{ActEffect, ClientActEffect, IsWellFormedAct, IsWellFormedClientAct, NamedActEffect, SessionActEffect, act_step, client_step, session_step};
ghost use Rattle.ft_session.specs.Worlds.{AnswersClient, AnswersHappening, MeetsSome, SessionStandsForSome};

use crate::acts::{Act, ClientAct, SessionAct};
use crate::asked::{authors, blame, overlap, queue, show, summarize};
use crate::deliveries::{deliver, offer};
use crate::edits::{compact, edit, ticket};
use crate::guests::Guest;
use crate::links::{connect, drop_link, noop};
use crate::members::Member;
use crate::outputs::BoxedOut;
use crate::service::Service;
use ft_base::Text;
use ft_delivery::place_of;
use ft_msg::Replica;
use ft_seqr::Refusal;
use indexmap::IndexMap;
use std::alloc::Global;
use std::marker::Model;

/// A session: its replicas, its guests, and what orders their messages.
#[derive(Drop)]
pub(crate) struct Session<R: Replica> {
    /// In the order in which they came, each under its name.
    pub(crate) members: IndexMap<String, Member<R>>,
    pub(crate) guests: Vec<Guest>,
    pub(crate) service: Service,
}

impl<R: Replica> Model for Session<R> {
    ghost use Rattle.indexmap.specs.IndexMap.{values};
    ghost use Rattle.ft_delivery.specs.Kept.{AreUnderNames};
    ghost use Rattle.ft_session.specs.Worlds.{MemberState, SessionState};

    ghost Value = { SessionState };

    ghost view = { λ s. record { members = values s.members; guests = s.guests.items; service = s.service } };

    ghost invariant = { λ s. AreUnderNames (λ (m : MemberState). m.name) s.members.entries };
}

impl<R: Replica + Drop> Session<R> {
    /// A session without clients and guests.
    pub(crate) fn new(alloc: Global) -> Session<R>
        ensures { result ≡ record { members = []; guests = []; service = record { sequencer = new_sequencer; names = []; log = [] } } }
    {
        Session {
            members: IndexMap::new(alloc),
            guests: Vec::new(alloc),
            service: Service::new(alloc),
        }
    }

    /// What an event does happens.
    pub(crate) fn happen(&mut self, act: Act<'_>) -> Result<BoxedOut, Refusal>
        requires formed { IsWellFormedAct act }
        requires stands { SessionStandsForSome self.old }
        ensures answers { AnswersHappening (λ w. act_step w act.entry) self.old self.new result }
        ensures effect { IfOk result (λ out. ActEffect R.COMPACTS act.entry self.old self.new out) }
    {
        match act {
            Act::OfClient(name, act) => self.happen_to(name, &act),
            Act::OfSession(act) => self.happen_here(act),
        }
    }

    // What an event does to the session as a whole happens.
    fn happen_here(&mut self, act: SessionAct<'_>) -> Result<BoxedOut, Refusal>
        requires { SessionStandsForSome self.old }
        ensures answers { AnswersHappening (λ w. session_step w act.entry) self.old self.new result }
        ensures effect { IfOk result (λ out. SessionActEffect R.COMPACTS act.entry self.old self.new out) }
    {
        match act {
            SessionAct::Start(client, from) => self.begin(client, from),
            SessionAct::History => self.history(),
            SessionAct::Guest(guest) => self.enter(guest),
            SessionAct::Submit(guest, read) => self.submit(guest, read),
            SessionAct::Part(guest) => self.part(guest),
        }
    }

    // What an event does happens to the client of that name.
    fn happen_to(&mut self, name: &Text, act: &ClientAct<'_>) -> Result<BoxedOut, Refusal>
        requires formed { IsWellFormedClientAct act.now }
        requires stands { SessionStandsForSome self.old }
        ensures answers { AnswersHappening (λ w. of_client w name.now (client_step act.now w)) self.old self.new result }
        ensures effect { IfOk result (λ out. NamedActEffect R.COMPACTS act.now name.now self.new out) }
    {
        let Some(place) = place_of(&self.members, name) else {
            return Err(Refusal::UnknownClient);
        };
        happen_to_member(&mut self.members[place], &mut self.service, act)
    }
}

// What an event does happens to its client.
fn happen_to_member<R: Replica>(
    member: &mut Member<R>,
    service: &mut Service,
    act: &ClientAct<'_>,
) -> Result<BoxedOut, Refusal>
    requires formed { IsWellFormedClientAct act.now }
    requires meets { MeetsSome member.old service.old }
    ensures answers { AnswersClient (client_step act.now) member.old member.new service.old service.new result }
    ensures effect { IfOk result (λ out. ClientActEffect R.COMPACTS act.now member.new out) }
    ensures name { member.new.name ≡ member.old.name }
{
    match act {
        ClientAct::Connect => connect(member, service),
        ClientAct::Drop => drop_link(member, service),
        ClientAct::Edit(op) => edit(member, service, op),
        ClientAct::Ticket(count) => ticket(member, service, *count),
        ClientAct::Deliver(count) => deliver(member, service, *count),
        ClientAct::Noop => noop(member, service),
        ClientAct::Show => show(member, service),
        ClientAct::Queue => queue(member, service),
        ClientAct::Compact => compact(member, service),
        ClientAct::Summary => summarize(member, service),
        ClientAct::Offer(read) => offer(member, service, read),
        ClientAct::Overlap(label, start, end) => overlap(member, service, label, *start, *end),
        ClientAct::Blame(start, end) => blame(member, service, *start, *end),
        ClientAct::Authors => authors(member, service),
    }
}
