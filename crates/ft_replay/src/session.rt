//! The session of a run.

ghost use Rattle.std.specs.Prelude.{ℕ, List, IfOk};
ghost use Rattle.ft_seqr.specs.declared.events.Event.{Event};
ghost use Rattle.ft_seqr.specs.EventReader.{ReadsEvent};
ghost use Rattle.ft_seqr.specs.SessionReport.{answer, as_shown, take_line};
ghost use Rattle.ft_seqr.specs.WellFormedEvent.{IsWellFormedEvent};
ghost use Rattle.ft_seqr.specs.World.{NaiveWorld, new_world, step};
ghost use Rattle.ft_session.specs.Worlds.{AnswersEvent, WorldStands, WorldState};
ghost use Rattle.ft_replay.specs.Listening.{IsStep};

use crate::event_lines::told_output;
use crate::listener::{LINE_LIMIT, Listener, Told};
use crate::refusals::told_refused;
use ft_base::OutOfMemory;
use ft_laws_sessions::formed::reads_are_well_formed;
use ft_msg::Replica;
use ft_seqr::{Event, Refusal, read_event};
use ft_session::{Counts, Out, World};
use std::alloc::Global;

/// The session of a run: a world that takes the events that its lines are, and that always found
/// memory.
#[derive(Drop)]
pub struct SessionRun<R: Replica> {
    alloc: Global,
    world: World<R>,
}

impl<R: Replica + Drop> Listener for SessionRun<R> {
    ghost use Rattle.ft_seqr.specs.SessionReport.{as_shown};
    ghost use Rattle.ft_seqr.specs.World.{NaiveWorld};
    ghost use Rattle.ft_session.specs.Worlds.{WorldStands};
    ghost use Rattle.ft_replay.specs.Forms.{session_form};

    ghost Made = { NaiveWorld };

    ghost form = { session_form as_shown };

    ghost holds = { λ a w. WorldStands a.world w };

    ghost size = { λ a. 0 };

    fn start(alloc: Global) -> Result<SessionRun<R>, OutOfMemory> {
        Ok(SessionRun::new(alloc))
    }

    fn limit(&self) -> usize {
        LINE_LIMIT
    }

    fn take(&mut self, line: &[u8]) -> Result<Told, OutOfMemory> {
        reads_are_well_formed();
        let read = read_event(self.alloc, line);
        let told = self.take_read(&read);
        drop(read);
        told
    }

    fn view_text(&self) -> Result<String, OutOfMemory> {
        Ok(String::new(self.alloc))
    }

    fn counts(&self) -> Option<Counts> {
        Some(self.world.counts())
    }
}

impl<R: Replica + Drop> SessionRun<R> {
    /// A session before its first event. It takes no memory.
    pub fn new(alloc: Global) -> SessionRun<R>
        ensures { WorldStands result.world new_world }
    {
        SessionRun {
            alloc,
            world: World::new(alloc),
        }
    }

    // Takes the event that a line is, if it is one, and says what is told of it.
    fn take_read(&mut self, read: &Result<Event, Refusal>) -> Result<Told, OutOfMemory>
        requires { IfOk read.now IsWellFormedEvent }
        ensures { (w : NaiveWorld) (line : List ℕ) → WorldStands self.old.world w → ReadsEvent line read.now
            → IfOk result (λ told. IsStep (WorldStands self.new.world) told (take_line as_shown w line)) }
    {
        match read {
            Ok(event) => self.tell(event),
            Err(refusal) => told_refused(*refusal),
        }
    }

    // Takes an event, and says what is told of it.
    fn tell(&mut self, event: &Event) -> Result<Told, OutOfMemory>
        requires { IsWellFormedEvent event.now }
        ensures { (w : NaiveWorld) → WorldStands self.old.world w
            → IfOk result (λ told. IsStep (WorldStands self.new.world) told (answer as_shown w (step w event.now))) }
    {
        let answered = self.world.step(event);
        told_answer(self.alloc, &answered)
    }
}

// What is told of an event that the world answered so.
fn told_answer(alloc: Global, answered: &Result<Out, Refusal>) -> Result<Told, OutOfMemory>
    ensures { (e : Event) (old new : WorldState) (w : NaiveWorld) → WorldStands old w → AnswersEvent e old new answered.now
        → IfOk result (λ told. IsStep (WorldStands new) told (answer as_shown w (step w e))) }
{
    match answered {
        Ok(out) => told_output(alloc, out),
        Err(refusal) => told_refused(*refusal),
    }
}
