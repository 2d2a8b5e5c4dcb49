//! Worlds.

ghost use Rattle.std.specs.Prelude.{◌≡◌, ◌+◌, ◌<◌, ◌≤◌, ◌^◌, IfOk, OnErr};
ghost use Rattle.indexmap.specs.IndexMap.{values};
ghost use Rattle.ft_seqr.specs.WellFormedEvent.{IsWellFormedEvent};
ghost use Rattle.ft_seqr.specs.World.{NaiveWorld, new_world};
ghost use Rattle.ft_seqr.specs.declared.events.Event.{Event};
ghost use Rattle.ft_session.specs.Acts.{ActEffect, IsAct, IsWellFormedAct, act_load};
ghost use Rattle.ft_session.specs.Outputs.{counts_of};
ghost use Rattle.ft_session.specs.Effects.{SessionEffect};
ghost use Rattle.ft_session.specs.Steps.{AnswersLoaded, StandsAtLoadForSome, further_numbers};
ghost use Rattle.ft_session.specs.Worlds.{AnswersEvent, MembersStand, WorldStands};

use crate::acts::{Act, act_of};
use crate::loads::act_load;
use crate::members::Member;
use crate::outputs::{BoxedOut, Counts, Out};
use crate::session::Session;
use ft_base::OutOfMemory;
use ft_base::moved::beside;
use ft_msg::{Numbers, Replica};
use ft_seqr::{Event, Refusal};
use indexmap::IndexMap;
use std::alloc::Global;
use std::marker::Model;

// The greatest load of a world.
const LOAD_LIMIT: u64 = 1 << 52;

/// Clients and guests that edit one document over one log, which a sequencer orders. Contracts see it
/// as its replicas, its guests, its sequencer with the names and the log, its load, its counts, and
/// whether it stopped; it stands for a naive world, in which each client is the one for which its replica
/// stands.
#[derive(Drop)]
pub struct World<R: Replica> {
    session: Session<R>,
    load: u64,
    counts: Counts,
    stopped: bool,
}

impl<R: Replica> Model for World<R> {
    ghost use Rattle.ft_session.specs.Worlds.{RunsForSome, WorldState};

    ghost Value = { WorldState };

    ghost view = { λ w. record { session = w.session; load = w.load; counts = w.counts; stopped = w.stopped } };

    ghost invariant = { λ w. RunsForSome (record { session = w.session; load = w.load; counts = w.counts; stopped = w.stopped }) };
}

/// What an event that was taken wrote, and the load and the counts after it.
#[derive(Drop)]
pub(crate) struct Taken {
    out: BoxedOut,
    load: u64,
    counts: Counts,
}

impl<R: Replica + Drop> World<R> {
    /// A world before the first event. It takes no memory.
    pub fn new(alloc: Global) -> World<R>
        ensures { WorldStands result new_world }
    {
        World {
            session: Session::new(alloc),
            load: 0,
            counts: Counts {
                skipped: 0,
                other: 0,
            },
            stopped: false,
        }
    }

    /// An event happens. What it writes is what the naive world writes. A view has the numbers of its
    /// client's replica; where `R::COMPACTS`, a compaction takes away everything of its client's replica
    /// that nobody can see any more; and a client that starts from another one keeps what a summary keeps
    /// of that one's document, and no more. `laws` says what holds of each world that it returns: views are what
    /// all would see with the pending edits sequenced next; equal numbers show, count and attribute alike;
    /// an own join changes no view.
    ///
    /// Returns `Stopped` exactly where an earlier event found no memory; then the refusal of the naive
    /// world, and nothing changed; and `OutOfMemory` where there is no room, or the load would pass
    /// 2^52, after which the world has stopped.
    pub fn step(&mut self, event: &Event) -> Result<Out, Refusal>
        requires { IsWellFormedEvent event.now }
        ensures answers { AnswersEvent event.now self.old self.new result }
        ensures effect { IfOk result (λ out. SessionEffect R.COMPACTS event.now self.old.session self.new.session out) }
    {
        if self.stopped {
            return Err(Refusal::Stopped);
        }
        match take(&mut self.session, self.load, event) {
            Ok(taken) => {
                self.load = taken.load;
                self.counts = taken.counts;
                Ok(taken.out.into_out())
            }
            Err(why) => {
                self.stopped = why.is_want();
                Err(why)
            }
        }
    }

    /// The counts of the client with the greatest number, 0 without clients; of a world that stopped those
    /// before the event that stopped it. It takes no memory.
    pub fn counts(&self) -> Counts
        ensures told { result ≡ self.now.counts }
        ensures stands { (w : NaiveWorld) → WorldStands self.now w → result ≡ counts_of w }
    {
        self.counts
    }
}

// The counts of the client with the greatest number, 0 without clients.
fn furthest_counts<R: Replica>(members: &IndexMap<String, Member<R>>) -> Counts
    ensures { (w : NaiveWorld) → MembersStand w.log (values members.now) w.clients → result ≡ counts_of w }
{
    let mut furthest = Furthest {
        seq: 0,
        counts: Counts {
            skipped: 0,
            other: 0,
        },
    };
    for member in members.values() {
        furthest = furthest_of(furthest, member.replica.numbers());
    }
    furthest.counts
}

// The greatest number of a client, and the counts of the first client that has it.
#[derive(Clone, Copy)]
struct Furthest {
    seq: u64,
    counts: Counts,
}

// The first, unless these numbers are further.
fn furthest_of(furthest: Furthest, numbers: Numbers) -> Furthest
    ensures { result ≡ further_numbers furthest numbers }
{
    if furthest.seq < numbers.seq {
        Furthest {
            seq: numbers.seq,
            counts: Counts {
                skipped: numbers.skipped,
                other: numbers.other,
            },
        }
    } else {
        furthest
    }
}

// An event happens, and its load is added.
fn take<R: Replica + Drop>(
    session: &mut Session<R>,
    load: u64,
    event: &Event,
) -> Result<Taken, Refusal>
    requires formed { IsWellFormedEvent event.now }
    requires stands { StandsAtLoadForSome session.old load }
    ensures answers { AnswersLoaded event.now session.old session.new load result }
    ensures effect { IfOk result (λ taken. SessionEffect R.COMPACTS event.now session.old session.new taken.out) }
{
    let act = act_of(session.service.alloc, event)?;
    take_act(session, load, act)
}

// What an event does happens, and its load is added.
fn take_act<R: Replica + Drop>(
    session: &mut Session<R>,
    load: u64,
    act: Act<'_>,
) -> Result<Taken, Refusal>
    requires formed { IsWellFormedAct act }
    requires stands { StandsAtLoadForSome session.old load }
    ensures answers { (e : Event) → IsWellFormedEvent e → IsAct act.entry e → AnswersLoaded e session.old session.new load result }
    ensures effect { IfOk result (λ taken. ActEffect R.COMPACTS act.entry session.old session.new taken.out) }
{
    let raised = load_after(load, &act);
    let (load, act) = beside(raised, act)?;
    let out = session.happen(act)?;
    let counts = furthest_counts(&session.members);
    Ok(Taken { out, load, counts })
}

// A load with that of what an event does.
//
// Returns `OutOfMemory` where it would pass the greatest one.
fn load_after(load: u64, act: &Act<'_>) -> Result<u64, OutOfMemory>
    ensures sum { IfOk result (λ sum. sum ≡ load + (1 + act_load act.now)) }
    ensures low { IfOk result (λ sum. sum ≤ 2 ^ 52) }
{
    let more = act_load(act)?;
    raised(load, more)
}

// A load with so much more.
//
// Returns `OutOfMemory` exactly where it would pass the greatest one.
fn raised(load: u64, more: u64) -> Result<u64, OutOfMemory>
    ensures sum { IfOk result (λ sum. sum ≡ load + more) }
    ensures low { IfOk result (λ sum. sum ≤ 2 ^ 52) }
    ensures high { OnErr result (2 ^ 52 < load + more) }
{
    match load.checked_add(more) {
        Some(sum) if sum <= LOAD_LIMIT => Ok(sum),
        _ => Err(OutOfMemory),
    }
}
