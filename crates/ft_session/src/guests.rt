//! Guests: names without a client, each with a connection.

ghost use Rattle.std.specs.Prelude.{◌≡◌, ◌+◌, ◌-◌, ◌<◌, ◌^◌, ◌∷◌, ◌++◌, [], None, IfOk, OnOk, length, map};
ghost use Rattle.serde_json.specs.Written.{compact_text};
ghost use Rattle.std.specs.List.{list_any, position};
ghost use Rattle.ft_laws_agreement.specs.Sequencing.{Each};
ghost use Rattle.ft_msg.specs.WellFormed.{IsWellFormedMessage};
ghost use Rattle.ft_msg.specs.Written.{written_message};
ghost use Rattle.ft_seqr.specs.World.{NaiveWorld, connection_name, happen, is_guest, name_fault, of_guest};
ghost use Rattle.ft_seqr.specs.declared.events.Event.TheVariants as event;
ghost use Rattle.ft_session.specs.Acts.{submitted_guest, submitted_or_refused};
ghost use Rattle.ft_session.specs.Services.{AnswersService};
ghost use Rattle.ft_session.specs.Worlds.{AnswersHappening, SessionStands, SessionStandsForSome, service_of};

use crate::outputs::{BoxedOut, Values, push_text};
use crate::service::Service;
use crate::session::Session;
use ft_base::moved::push;
use ft_base::{Datum, OutOfMemory, Text};
use ft_msg::{Cause, Draft, Entry, Replica, write_message};
use ft_seqr::{Refusal, connection_name};
use std::alloc::Global;
use std::marker::Model;

/// A guest.
#[derive(Drop)]
pub(crate) struct Guest {
    name: Text,
    conn: u32,
}

impl Model for Guest {
    ghost use Rattle.ft_seqr.specs.World.{NamedGuest};

    ghost Value = { NamedGuest };

    ghost view = { λ g. record { name = g.name; conn = g.conn } };
}

impl<R: Replica + Drop> Session<R> {
    /// A new name without a client, with a connection, which joins.
    pub(crate) fn enter(&mut self, name: &Text) -> Result<BoxedOut, Refusal>
        requires { SessionStandsForSome self.old }
        ensures { AnswersHappening (λ w. happen w (event.Guest name.now)) self.old self.new result }
    {
        self.free_name(name)?;
        let conn = self.service.next_conn()?;
        let label = connection_name(self.service.alloc, name, 1)?;
        self.enter_as(name, conn, &label)
    }

    // A new name without a client, with this connection, which joins under this label.
    fn enter_as(&mut self, name: &Text, conn: u32, label: &Text) -> Result<BoxedOut, Refusal>
        requires stands { SessionStandsForSome self.old }
        requires free { (w : NaiveWorld) → SessionStands self.old w → name_fault w name.now ≡ None }
        requires next { conn ≡ length self.old.service.names + 1 }
        requires few { length self.old.service.names < 2 ^ 32 - 1 }
        requires label { label.now ≡ connection_name name.now 1 }
        ensures { AnswersHappening (λ w. happen w (event.Guest name.now)) self.old self.new result }
    {
        self.service.join(label)?;
        self.add_guest(name, conn)?;
        Ok(BoxedOut::nothing())
    }

    /// The draft that a submitted text was read as comes from the guest.
    pub(crate) fn submit(
        &mut self,
        name: &Text,
        read: Box<Result<Draft, Cause>>,
    ) -> Result<BoxedOut, Refusal>
        requires { SessionStandsForSome self.old }
        ensures { AnswersHappening (λ w. of_guest w name.now (λ g. submitted_guest w g read.value)) self.old self.new result }
    {
        let Some(place) = guest_place(self.guests.as_slice(), name) else {
            return Err(Refusal::UnknownClient);
        };
        submit_read(&mut self.service, self.guests[place].conn, read)?;
        Ok(BoxedOut::nothing())
    }

    /// The guest's connection leaves.
    pub(crate) fn part(&mut self, name: &Text) -> Result<BoxedOut, Refusal>
        requires { SessionStandsForSome self.old }
        ensures { AnswersHappening (λ w. happen w (event.Part name.now)) self.old self.new result }
    {
        let Some(place) = guest_place(self.guests.as_slice(), name) else {
            return Err(Refusal::UnknownClient);
        };
        self.service.leave(self.guests[place].conn)?;
        Ok(BoxedOut::nothing())
    }

    // A guest comes in with this connection.
    fn add_guest(&mut self, name: &Text, conn: u32) -> Result<(), OutOfMemory>
        ensures { OnOk result (self.new ≡ record self.old { guests = self.old.guests ++ record { name = name.now; conn = conn } ∷ [] }) }
    {
        let name = name.copy()?;
        push(&mut self.guests, Guest { name, conn })
    }

    /// The messages of the log.
    pub(crate) fn history(&self) -> Result<BoxedOut, Refusal>
        requires { SessionStandsForSome self.now }
        ensures { AnswersHappening (λ w. happen w event.History) self.now self.now result }
    {
        BoxedOut::of_texts(self.service.alloc, log_texts(&self.service))
    }
}

/// Whether a guest has the name.
pub(crate) fn has_guest(guests: &[Guest], name: &Text) -> bool
    ensures { result ≡ list_any (is_guest name.now) guests.now }
{
    guest_place(guests, name).is_some()
}

// The place of the guest of that name.
fn guest_place(guests: &[Guest], name: &Text) -> Option<usize>
    ensures { result ≡ position (is_guest name.now) guests.now }
{
    guests.iter().position(|guest| name.same(&guest.name))
}

// The texts of the messages of the log.
fn log_texts(service: &Service) -> Result<Values, OutOfMemory>
    requires { Each (λ entry. IsWellFormedMessage entry.msg) service.now.log }
    ensures { IfOk result (λ values. values ≡ map compact_text (map (λ entry. written_message entry.msg) service.now.log)) }
{
    message_texts(service.alloc, service.log.as_slice())
}

// The texts of messages.
fn message_texts(alloc: Global, entries: &[Entry]) -> Result<Values, OutOfMemory>
    requires { Each (λ entry. IsWellFormedMessage entry.msg) entries.now }
    ensures { IfOk result (λ values. values ≡ map compact_text (map (λ entry. written_message entry.msg) entries.now)) }
{
    let mut values = Values::new(alloc);
    for entry in entries {
        push_text(&mut values, write_message(alloc, &entry.msg))?;
    }
    Ok(values)
}

// The draft that a submitted text was read as comes from the connection.
fn submit_read(
    service: &mut Service,
    conn: u32,
    read: Box<Result<Draft, Cause>>,
) -> Result<(), Refusal>
    ensures { (w : NaiveWorld) → service.old ≡ service_of w → AnswersService service.old service.new (submitted_or_refused w conn read.value) result }
{
    match Box::into_inner(read) {
        Ok(draft) => service.submit(conn, draft),
        Err(cause) => Err(Refusal::of_cause(cause)),
    }
}
