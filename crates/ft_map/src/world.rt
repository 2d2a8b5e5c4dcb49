//! Worlds of maps.

ghost use Rattle.std.specs.Prelude.{◌≡◌, [], ◌∷◌, ◌++◌, Some, OnOk, false};
ghost use Rattle.std.specs.List.{list_any};
ghost use Rattle.ft_map.specs.MapViews.{IsReached};
ghost use Rattle.ft_map.specs.MapSession.{is_client, name_fault, new_session, of_client, step};
ghost use Rattle.ft_map.specs.MapActs.{turn_of};
ghost use Rattle.ft_map.specs.MapWorlds.{AnswersMapEvent, AnswersName, AnswersSession, AnswersStart, AnswersTurn, HasNoNack};

use crate::events::{MapEvent, MapOut};
use crate::members::{Member, connect, deliver, drop_link, edit, show, summarize, ticket};
use crate::replica::MapReplica;
use crate::service::Service;
use ft_base::{Datum, OutOfMemory, Text};
use ft_delivery::{keep, place_of};
use ft_seqr::{HowMany, NAME_LIMIT, Refusal};
use ft_shared_map::{MapOp, SharedMap};
use indexmap::IndexMap;
use std::alloc::Global;
use std::marker::Model;

/// Clients that change one map over one log, which a sequencer orders. Contracts see it as its clients, what orders
/// their messages, and whether it stopped.
#[derive(Drop)]
pub struct MapWorld {
    session: Session,
    stopped: bool,
}

impl Model for MapWorld {
    ghost use Rattle.std.specs.Prelude.{◌≡◌, false};
    ghost use Rattle.ft_map.specs.MapViews.{IsReached};
    ghost use Rattle.ft_map.specs.MapWorlds.{MapWorldState};

    ghost Value = { MapWorldState };

    ghost view = { λ w. record { session = w.session; stopped = w.stopped } };

    ghost invariant = { λ w. w.stopped ≡ false → IsReached w.session };
}

impl MapWorld {
    /// A world before the first event. It takes no memory.
    pub fn new(alloc: Global) -> MapWorld
        ensures { result ≡ record { session = new_session; stopped = false } }
    {
        MapWorld {
            session: Session {
                alloc,
                members: IndexMap::new(alloc),
                service: Service::new(alloc),
            },
            stopped: false,
        }
    }

    /// An event happens. What it writes is what the naive session writes, and while nothing stopped, that session is one that
    /// events reach: so each view is an agreed map, and no draft is refused (`laws`).
    ///
    /// Returns `Stopped` exactly where an earlier event found no memory; then `UnknownClient`, `NameInUse`, `ClientLimit`,
    /// `AlreadyConnected`, `NotConnected`, `NothingToTicket`, `NothingToDeliver` or `Pending` exactly where the naive session
    /// does, and nothing changed; and `OutOfMemory` where there is no room, after which the world has stopped.
    pub fn step(&mut self, event: &MapEvent) -> Result<MapOut, Refusal>
        ensures answers { AnswersMapEvent event.now self.old self.new result }
        ensures reached { self.new.stopped ≡ false → IsReached self.new.session }
    {
        if self.stopped {
            return Err(Refusal::Stopped);
        }
        match self.session.happen(event) {
            Ok(out) => Ok(out),
            Err(why) => {
                self.stopped = why.is_want();
                Err(why)
            }
        }
    }
}

// The clients of a session, and what orders their messages.
#[derive(Drop)]
struct Session {
    alloc: Global,
    // In the order in which they came, each under its name.
    members: IndexMap<String, Member>,
    service: Service,
}

impl Model for Session {
    ghost use Rattle.indexmap.specs.IndexMap.{values};
    ghost use Rattle.ft_delivery.specs.Kept.{AreUnderNames};
    ghost use Rattle.ft_map.specs.MapSession.{MapSession, NamedMapClient};

    ghost Value = { MapSession };

    ghost view = { λ s. record { clients = values s.members; service = s.service } };

    ghost invariant = { λ s. AreUnderNames (λ (c : NamedMapClient). c.name) s.members.entries };
}

impl Session {
    // An event happens.
    fn happen(&mut self, event: &MapEvent) -> Result<MapOut, Refusal>
        requires { HasNoNack (step self.old event.now) }
        ensures { AnswersSession self.old self.new (step self.old event.now) result }
    {
        match event {
            MapEvent::Start { client, from } => self.start(client, from),
            MapEvent::Connect { client } => self.happen_to(client, MapAct::Connect),
            MapEvent::Drop { client } => self.happen_to(client, MapAct::Drop),
            MapEvent::Edit { client, op } => self.happen_to(client, MapAct::Edit(op)),
            MapEvent::Ticket { client, count } => self.happen_to(client, MapAct::Ticket(*count)),
            MapEvent::Deliver { client, count } => self.happen_to(client, MapAct::Deliver(*count)),
            MapEvent::Show { client } => self.happen_to(client, MapAct::Show),
            MapEvent::Summary { client } => self.happen_to(client, MapAct::Summary),
        }
    }

    // This happens to the client of that name.
    fn happen_to(&mut self, name: &Text, act: MapAct<'_>) -> Result<MapOut, Refusal>
        requires { HasNoNack (of_client self.old name.now (turn_of act)) }
        ensures { AnswersSession self.old self.new (of_client self.old name.now (turn_of act.entry)) result }
    {
        let Some(place) = place_of(&self.members, name) else {
            return Err(Refusal::UnknownClient);
        };
        happen_to_member(self.alloc, &mut self.members[place], &mut self.service, act)
    }

    // A new client, empty, or with the map and the numbers of the client of the second name.
    fn start(&mut self, name: &Text, from: &Option<Text>) -> Result<MapOut, Refusal>
        ensures { AnswersSession self.old self.new (step self.old (MapEvent.Start name.now from.now)) result }
    {
        self.free_name(name)?;
        let client = self.begun(from)?;
        self.admit(name, client)?;
        Ok(MapOut::Nothing)
    }

    // Whether the name can be given.
    //
    // Returns `NameInUse` exactly where a client has it, and `ClientLimit` exactly where there are 16 of these.
    fn free_name(&self, name: &Text) -> Result<(), Refusal>
        ensures fault { AnswersName (name_fault self.now name.now) result }
        ensures free { OnOk result (list_any (is_client name.now) self.now.clients ≡ false) }
    {
        if place_of(&self.members, name).is_some() {
            return Err(Refusal::NameInUse);
        }
        if NAME_LIMIT <= self.members.len() {
            return Err(Refusal::ClientLimit);
        }
        Ok(())
    }

    // A client that is empty, or has the map and the numbers of the client of this name.
    fn begun(&self, from: &Option<Text>) -> Result<MapReplica, Refusal>
        ensures { AnswersStart self.now from.now result }
    {
        match from {
            Some(from) => self.copied(from),
            None => Ok(MapReplica::over(self.alloc, SharedMap::new(self.alloc), 0, 0)),
        }
    }

    // A client with the map and the numbers of the client of this name.
    fn copied(&self, from: &Text) -> Result<MapReplica, Refusal>
        ensures { AnswersStart self.now (Some from.now) result }
    {
        let Some(place) = place_of(&self.members, from) else {
            return Err(Refusal::UnknownClient);
        };
        let client = &self.members[place].client;
        client.nothing_pending()?;
        Ok(client.successor()?)
    }

    // A client comes in under a new name.
    fn admit(&mut self, name: &Text, client: MapReplica) -> Result<(), OutOfMemory>
        requires { list_any (is_client name.now) self.old.clients ≡ false }
        ensures { OnOk result (self.new ≡ record self.old { clients = self.old.clients ++ record { name = name.now; connects = 0; client = client } ∷ [] }) }
    {
        let member = Member {
            name: name.copy()?,
            connects: 0,
            client,
        };
        keep(&mut self.members, name, member)
    }
}

// What happens to a client.
#[derive(Clone, Copy)]
enum MapAct<'a> {
    Connect,
    Drop,
    Edit(&'a MapOp),
    Ticket(HowMany),
    Deliver(HowMany),
    Show,
    Summary,
}

// This happens to a client.
fn happen_to_member(
    alloc: Global,
    member: &mut Member,
    service: &mut Service,
    act: MapAct<'_>,
) -> Result<MapOut, Refusal>
    requires { HasNoNack (turn_of act service.old member.old) }
    ensures answers { AnswersTurn member.old member.new service.old service.new (turn_of act.entry service.old member.old) result }
    ensures name { member.new.name ≡ member.old.name }
{
    match act {
        MapAct::Connect => connect(alloc, member, service),
        MapAct::Drop => drop_link(member, service),
        MapAct::Edit(op) => edit(member, service, op),
        MapAct::Ticket(count) => ticket(member, service, count),
        MapAct::Deliver(count) => deliver(member, service, count),
        MapAct::Show => show(member, service),
        MapAct::Summary => summarize(alloc, member, service),
    }
}
