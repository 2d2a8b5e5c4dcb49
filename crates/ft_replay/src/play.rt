//! A generated session, played.

ghost use Rattle.std.specs.Prelude.{◌≡◌, ◌≢◌, ◌+◌, ◌++◌, List, IfOk, IsErrOf, OnOk, string_bytes};
ghost use Rattle.ft_io.specs.Lines.{with_lf};
ghost use Rattle.ft_seqr.specs.WellFormedEvent.{IsWellFormedEvent};
ghost use Rattle.ft_seqr.specs.World.{NamedClient, Output, furthest};
ghost use Rattle.ft_session.specs.Outputs.{Tells};
ghost use Rattle.ft_replay.specs.LineForm.{bytes_of, whole_ending};
ghost use Rattle.ft_replay.specs.Play.{Played, after_event, agreement_line, lines_of_play, newly_shown, nothing_played, play_lines, play_ending, session_play, settings_line};
ghost use Rattle.ft_replay.specs.Playing.{HasShown, Plays};
ghost use Rattle.ft_replay.specs.Generated.{IsWithinLimits};
ghost use Rattle.ft_replay.specs.Writing.{WritesBytes};

use crate::endings::{Ending, Fault};
use crate::generated::session_events;
use crate::report::{ending_by, push_closing};
use crate::settings::Settings;
use crate::showing::Showing;
use crate::sums::added;
use crate::writing::put_text;
use ft_base::OutOfMemory;
use ft_base::moved::after;
use ft_io::Sink;
use ft_msg::Replica;
use ft_seqr::{Event, Refusal};
use ft_session::{Out, World};
use std::alloc::Global;
use std::fmt::Write;

/// A session as far as it was played: a world that always found memory, how many events it refused, and
/// the clients that it showed.
#[derive(Drop)]
pub struct Play<R: Replica> {
    alloc: Global,
    world: World<R>,
    refused: u64,
    showing: Showing,
}

/// Plays the session that is generated with these settings, and writes what became of its clients, which
/// are such replicas. Returns whether no event was refused and no sub-operation skipped.
///
/// Returns `Write` only where the sink's count of faults rose, and `OutOfMemory` where there is no room
/// for what the events make, or more than 2^64 - 1 of them are refused.
pub fn write_play<R: Replica + Drop, K: Sink>(
    alloc: Global,
    settings: Settings,
    out: &mut K,
) -> Result<Ending, Fault>
    requires { IsWithinLimits settings }
    ensures ends { IfOk result (λ ending. ending ≡ play_ending settings) }
    ensures writes { WritesBytes (K.contents out.old) (K.contents out.new) (K.faults out.old) (K.faults out.new) (bytes_of (play_lines settings)) result }
    ensures steady { OnOk result (K.faults out.new ≡ K.faults out.old) }
    ensures kept { ¬ IsErrOf result Fault.Write → K.faults out.new ≡ K.faults out.old }
{
    let mut play = Play::<R>::new(alloc);
    let played = play.take_session(settings);
    let ending = write_played(&play, played, settings, out);
    drop(play);
    ending
}

// Writes what became of the clients of a session, if it was played.
fn write_played<R: Replica + Drop, K: Sink>(
    play: &Play<R>,
    played: Result<(), OutOfMemory>,
    settings: Settings,
    out: &mut K,
) -> Result<Ending, Fault>
    ensures ends { (at : Played) → OnOk played (Plays play.now at) → IfOk result (λ ending. ending ≡ whole_ending at.refused (furthest at.made)) }
    ensures writes { (at : Played) → OnOk played (Plays play.now at)
        → WritesBytes (K.contents out.old) (K.contents out.new) (K.faults out.old) (K.faults out.new) (bytes_of (lines_of_play settings at)) result }
    ensures steady { OnOk result (K.faults out.new ≡ K.faults out.old) }
    ensures kept { ¬ IsErrOf result Fault.Write → K.faults out.new ≡ K.faults out.old }
{
    played?;
    put_text(out, play.text(settings))?;
    Ok(play.ending())
}

impl<R: Replica + Drop> Play<R> {
    // Before the first event.
    fn new(alloc: Global) -> Play<R>
        ensures { Plays result nothing_played }
    {
        Play {
            alloc,
            world: World::new(alloc),
            refused: 0,
            showing: Showing::new(alloc),
        }
    }

    // Takes the events of the session that is generated with these settings, behind no other.
    fn take_session(&mut self, settings: Settings) -> Result<(), OutOfMemory>
        requires within { IsWithinLimits settings }
        requires first { Plays self.old nothing_played }
        ensures { OnOk result (Plays self.new (session_play settings)) }
    {
        let mut events = session_events(self.alloc, settings);
        'session: while let Some(event) = events.next()? {
            self.take_whole(event)?;
        }
        Ok(())
    }

    // Takes an event, which is done with.
    fn take_whole(&mut self, event: Event) -> Result<(), OutOfMemory>
        requires { IsWellFormedEvent event }
        ensures { (at : Played) → Plays self.old at → OnOk result (Plays self.new (after_event at event)) }
    {
        let taken = self.take(&event);
        drop(event);
        taken
    }

    // Takes an event.
    fn take(&mut self, event: &Event) -> Result<(), OutOfMemory>
        requires { IsWellFormedEvent event.now }
        ensures { (at : Played) → Plays self.old at → OnOk result (Plays self.new (after_event at event.now)) }
    {
        match self.world.step(event) {
            Ok(out) => add_shown(self.alloc, &mut self.showing, out),
            Err(why) => self.count_refused(why),
        }
    }

    // Counts an event that is refused so.
    //
    // Returns `OutOfMemory` where it is for want of memory, or there are too many.
    fn count_refused(&mut self, why: Refusal) -> Result<(), OutOfMemory>
        ensures found { OnOk result (why ≢ Refusal.OutOfMemory) }
        ensures count { OnOk result (self.new.refused ≡ self.old.refused + 1) }
        ensures world { self.new.world ≡ self.old.world }
        ensures showing { self.new.showing ≡ self.old.showing }
    {
        match why {
            Refusal::OutOfMemory => Err(OutOfMemory),
            _ => {
                self.refused = added(self.refused, 1)?;
                Ok(())
            }
        }
    }

    // What is written of it.
    fn text(&self, settings: Settings) -> Result<String, OutOfMemory>
        ensures { (at : Played) → Plays self.now at → IfOk result (λ text. string_bytes text ≡ bytes_of (lines_of_play settings at)) }
    {
        let mut text = String::new(self.alloc);
        let pushed = self.push_text(&mut text, settings);
        after(pushed, text)
    }

    // Adds what is written of it.
    fn push_text(&self, text: &mut String, settings: Settings) -> Result<(), OutOfMemory>
        ensures { (at : Played) → Plays self.now at → OnOk result (string_bytes text.new ≡ string_bytes text.old ++ bytes_of (lines_of_play settings at)) }
    {
        push_settings(text, settings)?;
        text.push_str(self.showing.lines.as_str())?;
        text.push_str(agreement_text(self.showing.agreement.all))?;
        push_closing(text, self.refused, self.world.counts())
    }

    // How that ends.
    fn ending(&self) -> Ending
        ensures { (at : Played) → Plays self.now at → result ≡ whole_ending at.refused (furthest at.made) }
    {
        ending_by(self.refused, self.world.counts().skipped)
    }
}

// Adds the client that is shown by this, if one is.
fn add_shown(alloc: Global, showing: &mut Showing, out: Out) -> Result<(), OutOfMemory>
    ensures { (shown : List NamedClient) (output : Output) → HasShown showing.old shown → Tells output out
        → OnOk result (HasShown showing.new (shown ++ newly_shown output)) }
{
    match out {
        Out::View { name, view } => showing.add(alloc, &name, view),
        Out::Nothing | Out::Texts(_) => Ok(()),
    }
}

// Adds the first line.
#[tactic(auto, unfolding(crate::specs::Play::settings_line))]
fn push_settings(text: &mut String, settings: Settings) -> Result<(), OutOfMemory>
    ensures { OnOk result (string_bytes text.new ≡ string_bytes text.old ++ with_lf (settings_line settings)) }
{
    let clients = settings.clients;
    let edits = settings.edits;
    let seed = settings.seed;
    Ok(write!(text, "play {clients} {edits} {seed}\n")?)
}

// The line that says whether the clients agree, with its LF.
fn agreement_text(agree: bool) -> &'static str
    ensures { result.now ≡ with_lf (agreement_line agree) }
{
    if agree { "agree yes\n" } else { "agree no\n" }
}
