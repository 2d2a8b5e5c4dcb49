//! How clients come into a session.

ghost use Rattle.std.specs.Prelude.{◌≡◌, ◌∷◌, ◌++◌, [], None, Some, Err, ⊤, false, IfOk, IfErr, OnOk, find};
ghost use Rattle.std.specs.List.{list_any};
ghost use Rattle.ft_props.specs.Properties.{Characters};
ghost use Rattle.ft_sumdoc.specs.Valid.{IsValidSummary};
ghost use Rattle.ft_seqr.specs.World.{NaiveWorld, NamedClient, happen, is_client, name_fault, start_client};
ghost use Rattle.ft_seqr.specs.declared.events.Event.TheVariants as event;
ghost use Rattle.ft_laws_sessions.specs.MadeWorlds.{IsMade};
ghost use Rattle.ft_session.specs.Effects.{KeepsTrimmed, SessionEffect, StartsTrimmed};
ghost use Rattle.ft_session.specs.Entrances.{AnswersName, IsCopyOf, StartsFrom, new_member};
ghost use Rattle.ft_seqr.specs.RefusalKinds.{MeansOf, refusal_kind};
ghost use Rattle.ft_session.specs.Worlds.{AnswersHappening, SessionStands, SessionStandsForSome, has_name};

use crate::asked::summary_of;
use crate::guests::has_guest;
use crate::members::Member;
use crate::outputs::BoxedOut;
use crate::session::Session;
use ft_base::{Datum, OutOfMemory, Text};
use ft_delivery::{keep, place_of};
use ft_msg::Replica;
use ft_seqr::{NAME_LIMIT, Refusal};
use ft_sumdoc::SumDoc;
use std::alloc::Global;

impl<R: Replica + Drop> Session<R> {
    /// A new client, empty, or over the document of the client of the second name.
    pub(crate) fn begin(&mut self, name: &Text, from: &Option<Text>) -> Result<BoxedOut, Refusal>
        requires { SessionStandsForSome self.old }
        ensures answers { AnswersHappening (λ w. happen w (event.Start name.now from.now)) self.old self.new result }
        ensures effect { IfOk result (λ out. SessionEffect R.COMPACTS (event.Start name.now from.now) self.old self.new out) }
    {
        match from {
            Some(from) => self.start_from(name, from),
            None => self.start(name),
        }
    }

    // A new client, which is empty.
    fn start(&mut self, name: &Text) -> Result<BoxedOut, Refusal>
        requires { SessionStandsForSome self.old }
        ensures { AnswersHappening (λ w. happen w (event.Start name.now None)) self.old self.new result }
    {
        self.free_name(name)?;
        let replica = R::start(self.service.alloc)?;
        self.admit(name, replica)?;
        Ok(BoxedOut::nothing())
    }

    // A new client over the document of the client of that name.
    fn start_from(&mut self, name: &Text, from: &Text) -> Result<BoxedOut, Refusal>
        requires { SessionStandsForSome self.old }
        ensures answers { AnswersHappening (λ w. happen w (event.Start name.now (Some from.now))) self.old self.new result }
        ensures trimmed { OnOk result (StartsTrimmed name.now from.now self.old self.new) }
    {
        self.free_name(name)?;
        let replica = self.copy_of(from)?;
        self.admit(name, replica)?;
        Ok(BoxedOut::nothing())
    }

    /// Whether the name can be given.
    ///
    /// Returns `NameInUse` exactly where a client or a guest has it, and `ClientLimit` exactly where there
    /// are 16 of these.
    pub(crate) fn free_name(&self, name: &Text) -> Result<(), Refusal>
        ensures fault { (w : NaiveWorld) → SessionStands self.now w → AnswersName (name_fault w name.now) result }
        ensures free { OnOk result (list_any (has_name name.now) self.now.members ≡ false) }
    {
        if place_of(&self.members, name).is_some() || has_guest(self.guests.as_slice(), name) {
            return Err(Refusal::NameInUse);
        }
        if NAME_LIMIT <= self.members.len() + self.guests.len() {
            return Err(Refusal::ClientLimit);
        }
        Ok(())
    }

    // A replica over the document of the client of that name, of which it keeps what a summary keeps.
    fn copy_of(&self, from: &Text) -> Result<R, Refusal>
        requires { SessionStandsForSome self.now }
        ensures ok { IfOk result (λ r. (w : NaiveWorld) → IsMade w → SessionStands self.now w → (name : Characters) → name_fault w name ≡ None → IsCopyOf w name from.now (R.state r)) }
        ensures err { IfErr result (λ why. (w : NaiveWorld) → IsMade w → SessionStands self.now w → (name : Characters) → MeansOf (refusal_kind why) ⊤ (start_client w name (Some from.now) ≡ Err why)) }
        ensures trimmed { IfOk result (λ r. (w : NaiveWorld) → IsMade w → SessionStands self.now w → (c : NamedClient) → find (is_client from.now) w.clients ≡ Some c → KeepsTrimmed (R.state r) c.client.doc) }
    {
        let Some(place) = place_of(&self.members, from) else {
            return Err(Refusal::UnknownClient);
        };
        let summary = summary_of(&self.members[place], &self.service)?;
        replica_over(self.service.alloc, &summary)
    }

    // A replica comes in under a new name.
    fn admit(&mut self, name: &Text, replica: R) -> Result<(), OutOfMemory>
        requires { list_any (has_name name.now) self.old.members ≡ false }
        ensures { OnOk result (self.new ≡ record self.old { members = self.old.members ++ new_member name.now (R.state replica) ∷ [] }) }
    {
        let member = Member {
            name: name.copy()?,
            replica,
            connects: 0,
        };
        keep(&mut self.members, name, member)
    }
}

// A replica over the document of a summary.
fn replica_over<R: Replica>(alloc: Global, summary: &SumDoc) -> Result<R, Refusal>
    requires { IsValidSummary summary.now }
    ensures starts { IfOk result (λ r. StartsFrom summary.now (R.state r)) }
    ensures err { IfErr result (λ why. why ≡ Refusal.OutOfMemory) }
{
    Ok(R::from_summary(alloc, summary)?)
}
