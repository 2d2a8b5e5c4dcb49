//! The map session of a run.

ghost use Rattle.std.specs.Prelude.{◌≡◌, ℕ, List, IfOk};
ghost use Rattle.ft_map.specs.declared.events.MapEvent.{MapEvent};
ghost use Rattle.ft_map.specs.MapEventReader.{ReadsMapEvent};
ghost use Rattle.ft_map.specs.MapReport.{answer, take_line};
ghost use Rattle.ft_map.specs.MapSession.{MapSession, step};
ghost use Rattle.ft_map.specs.MapWorlds.{AnswersMapEvent, MapWorldState};
ghost use Rattle.ft_replay.specs.Listening.{IsStep};
ghost use Rattle.ft_replay.specs.MapRuns.{running};

use crate::listener::{LINE_LIMIT, Listener, Told};
use crate::map_lines::told_map_output;
use crate::refusals::told_refused;
use ft_base::OutOfMemory;
use ft_map::{MapEvent, MapOut, MapWorld, read_map_event};
use ft_seqr::Refusal;
use ft_session::Counts;
use std::alloc::Global;

/// The map session of a run: a world that takes the events that its lines are, and that always found memory.
#[derive(Drop)]
pub struct MapRun {
    alloc: Global,
    world: MapWorld,
}

impl Listener for MapRun {
    ghost use Rattle.std.specs.Prelude.{◌≡◌};
    ghost use Rattle.ft_map.specs.MapSession.{MapSession};
    ghost use Rattle.ft_replay.specs.MapRuns.{running};
    ghost use Rattle.ft_replay.specs.Forms.{map_form};

    ghost Made = { MapSession };

    ghost form = { map_form };

    ghost holds = { λ a w. a.world ≡ running w };

    ghost size = { λ a. 0 };

    fn start(alloc: Global) -> Result<MapRun, OutOfMemory> {
        Ok(MapRun {
            alloc,
            world: MapWorld::new(alloc),
        })
    }

    fn limit(&self) -> usize {
        LINE_LIMIT
    }

    fn take(&mut self, line: &[u8]) -> Result<Told, OutOfMemory> {
        let read = read_map_event(self.alloc, line);
        let told = self.take_read(&read);
        drop(read);
        told
    }

    fn view_text(&self) -> Result<String, OutOfMemory> {
        Ok(String::new(self.alloc))
    }

    fn counts(&self) -> Option<Counts> {
        None
    }
}

impl MapRun {
    // Takes the event that a line is, if it is one, and says what is told of it.
    fn take_read(&mut self, read: &Result<MapEvent, Refusal>) -> Result<Told, OutOfMemory>
        ensures { (w : MapSession) (line : List ℕ) → self.old.world ≡ running w → ReadsMapEvent line read.now
            → IfOk result (λ told. IsStep (λ v. self.new.world ≡ running v) told (take_line w line)) }
    {
        match read {
            Ok(event) => self.tell(event),
            Err(refusal) => told_refused(*refusal),
        }
    }

    // Takes an event, and says what is told of it.
    fn tell(&mut self, event: &MapEvent) -> Result<Told, OutOfMemory>
        ensures { (w : MapSession) → self.old.world ≡ running w → IfOk result (λ told. IsStep (λ v. self.new.world ≡ running v) told (answer w (step w event.now))) }
    {
        let answered = self.world.step(event);
        told_answer(self.alloc, &answered)
    }
}

// What is told of an event that the world answered so.
fn told_answer(alloc: Global, answered: &Result<MapOut, Refusal>) -> Result<Told, OutOfMemory>
    ensures { (e : MapEvent) (old new : MapWorldState) (w : MapSession) → old ≡ running w → AnswersMapEvent e old new answered.now
        → IfOk result (λ told. IsStep (λ v. new ≡ running v) told (answer w (step w e))) }
{
    match answered {
        Ok(out) => told_map_output(alloc, out),
        Err(refusal) => told_refused(*refusal),
    }
}
