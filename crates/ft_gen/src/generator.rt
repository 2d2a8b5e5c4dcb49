//! The generator.

ghost use Rattle.std.specs.Prelude.{◌≡◌, ◌≤◌, IfOk, OnErr};
ghost use Rattle.ft_gen.specs.Generated.{IsNext, generated};

use crate::course::Course;
use ft_base::OutOfMemory;
use ft_seqr::Event;
use std::alloc::Global;
use std::marker::Model;

/// A generated session, which contracts see as the list of the events still to come.
#[derive(Drop)]
pub struct Generator {
    alloc: Global,
    course: Course,
}

impl Model for Generator {
    ghost use Rattle.std.specs.Prelude.{List};
    ghost use Rattle.ft_seqr.specs.declared.events.Event.{Event};
    ghost use Rattle.ft_gen.specs.Course.{IsCourse, to_come};

    ghost Value = { List Event };

    ghost view = { λ a. to_come a.course };

    ghost invariant = { λ a. IsCourse a.course };
}

impl Generator {
    /// The session of so many clients, with so many edits, drawn from the seed.
    pub fn new(alloc: Global, clients: u64, edits: u64, seed: u64) -> Generator
        requires first { 1 ≤ clients }
        requires few { clients ≤ 16 }
        requires edits { edits ≤ 1000000 }
        ensures { result ≡ generated clients edits seed }
    {
        Generator {
            alloc,
            course: Course::new(clients, edits, seed),
        }
    }

    /// The next event: None exactly where none is left.
    ///
    /// Returns `OutOfMemory` where there is no room for it, and then it is still to come.
    pub fn next(&mut self) -> Result<Option<Event>, OutOfMemory>
        ensures ok { IfOk result (λ answer. IsNext self.old answer self.new) }
        ensures err { OnErr result (self.new ≡ self.old) }
    {
        let Some((act, course)) = self.course.step() else {
            return Ok(None);
        };
        let event = act.event(self.alloc)?;
        self.course = course;
        Ok(Some(event))
    }
}
