//! The observer of a log.

ghost use Rattle.std.specs.Prelude.{◌≡◌, ◌≢◌, ◌+◌, ◌-◌, ◌∷◌, ◌<◌, ◌≤◌, ◌^◌, IfOk, IsTrue, Ok, OnOk, OnErr, length, string_bytes};
ghost use Rattle.ft_sumdoc.specs.Counts.{are_distinct_names};
ghost use Rattle.ft_sumdoc.specs.Valid.{IsValidSummary};
ghost use Rattle.ft_msg.specs.declared.messages.Entry.{Entry};
ghost use Rattle.ft_msg.specs.declared.views.View.{View};
ghost use Rattle.ft_msg.specs.Answers.{view_content};
ghost use Rattle.ft_msg.specs.Client.{client_over};
ghost use Rattle.ft_msg.specs.Process.{process};
ghost use Rattle.ft_msg.specs.WellFormed.{IsWellFormedMessage};
ghost use Rattle.ft_seqr.specs.Refusals.{refusal_of_process};
ghost use Rattle.ft_seqr.specs.ViewLines.{content_lines, numbers_line};
ghost use Rattle.ft_replay.specs.LineForm.{bytes_of};
ghost use Rattle.ft_replay.specs.Listening.{IsStep};
ghost use Rattle.ft_replay.specs.Loading.{observation_of};
ghost use Rattle.ft_replay.specs.Observation.{Observation, numbered_entry, names_with, observe_answer, observe_message, sender_number};
ghost use Rattle.ft_replay.specs.Observers.{Observes};

use crate::listener::{LINE_LIMIT, Listener, Told};
use crate::view_lines::view_text;
use ft_base::moved::{beside, both};
use ft_base::{OutOfMemory, Text};
use ft_msg::{Cause, Entry, Message, Names, ProcessFault, Replica, View, ViewFault, read_message};
use ft_seqr::Refusal;
use ft_session::Counts;
use ft_sumdoc::{SumDoc, Texts};
use std::alloc::Global;

/// The observer of a log: the names of the connections so far, and a replica that takes the messages and sends
/// none, and that always found memory.
#[derive(Drop)]
pub struct Observer<R: Replica> {
    alloc: Global,
    names: Names,
    replica: R,
}

impl<R: Replica + Drop> Listener for Observer<R> {
    ghost use Rattle.std.specs.Prelude.{length};
    ghost use Rattle.ft_replay.specs.Observation.{Observation};
    ghost use Rattle.ft_replay.specs.Observers.{Observes};
    ghost use Rattle.ft_replay.specs.Forms.{log_form};

    ghost Made = { Observation };

    ghost form = { log_form };

    ghost holds = { λ a seen. Observes a.names (R.state a.replica) seen };

    ghost size = { λ a. length a.names };

    fn start(alloc: Global) -> Result<Observer<R>, OutOfMemory> {
        let replica = R::start(alloc)?;
        Ok(Observer {
            alloc,
            names: Names::new(alloc),
            replica,
        })
    }

    fn limit(&self) -> usize {
        LINE_LIMIT
    }

    fn take(&mut self, line: &[u8]) -> Result<Told, OutOfMemory> {
        match read_message(self.alloc, line) {
            Ok(message) => self.take_message(message),
            Err(Cause::OutOfMemory) => Err(OutOfMemory),
            Err(cause) => Ok(Told::Refused(Refusal::of_cause(cause))),
        }
    }

    fn view_text(&self) -> Result<String, OutOfMemory> {
        let shown = self.replica.view();
        shown_text(self.alloc, &shown)
    }

    fn counts(&self) -> Option<Counts> {
        let numbers = self.replica.numbers();
        Some(Counts {
            skipped: numbers.skipped,
            other: numbers.other,
        })
    }
}

impl<R: Replica + Drop> Observer<R> {
    /// The observer that starts from a summary.
    pub fn of_summary(alloc: Global, sum: &SumDoc) -> Result<Observer<R>, OutOfMemory>
        requires valid { IsValidSummary sum.now }
        requires few { length sum.now.conns < 2 ^ 32 }
        ensures { IfOk result (λ a. Observes a.names (R.state a.replica) (observation_of sum.now)) }
    {
        let table = table_of(alloc, &sum.conns);
        let made = R::from_summary(alloc, sum);
        let (names, replica) = both(table, made)?;
        Ok(Observer {
            alloc,
            names,
            replica,
        })
    }

    // Takes a message, and says what is told of it.
    fn take_message(&mut self, msg: Message) -> Result<Told, OutOfMemory>
        requires room { length self.old.names < 2 ^ 32 - 1 }
        requires formed { IsWellFormedMessage msg }
        ensures step { (seen : Observation) → Observes self.old.names (R.state self.old.replica) seen
            → IfOk result (λ told. IsStep (Observes self.new.names (R.state self.new.replica)) told (observe_message seen msg)) }
        ensures names { length self.new.names ≤ length self.old.names + 1 }
    {
        let made = number_sender(&mut self.names, msg);
        let told = give_made(&mut self.replica, &made);
        drop(made);
        told
    }
}

// The lines of what is shown, if it is.
fn shown_text(alloc: Global, shown: &Result<View, ViewFault>) -> Result<String, OutOfMemory>
    ensures { IfOk result (λ text. (view : View) × (shown.now ≡ Ok view) × (string_bytes text ≡ bytes_of (numbers_line view.numbers ∷ content_lines (view_content view)))) }
{
    match shown {
        Ok(view) => view_text(alloc, view),
        Err(_) => Err(OutOfMemory),
    }
}

/// The table of these names, each with its place as its number, from 1 on.
pub fn table_of(alloc: Global, conns: &Texts) -> Result<Names, OutOfMemory>
    requires distinct { IsTrue (are_distinct_names conns.now) }
    requires few { length conns.now < 2 ^ 32 }
    ensures { IfOk result (λ names. names ≡ conns.now) }
{
    let mut names = Names::new(alloc);
    for name in conns.as_slice() {
        names.number(name)?;
    }
    Ok(names)
}

// The message with the number of the connection that sent it, a new one where its name has none yet.
//
// Returns `OutOfMemory` where there is no room for a new name, and then nothing changed.
fn number_sender(names: &mut Names, msg: Message) -> Result<Entry, OutOfMemory>
    requires { length names.old < 2 ^ 32 - 1 }
    ensures ok { IfOk result (λ entry. entry ≡ numbered_entry names.old msg) }
    ensures names { OnOk result (names.new ≡ names_with names.old msg.client_id) }
    ensures err { OnErr result (names.new ≡ names.old) }
{
    let number = sender_number(names, &msg.client_id);
    let (origin, msg) = beside(number, msg)?;
    Ok(Entry { msg, origin })
}

/// The number of the connection with this name, a new one where it has none yet; 0 for no name.
///
/// Returns `OutOfMemory` where there is no room for a new name, and then nothing changed.
pub fn sender_number(names: &mut Names, sender: &Option<Text>) -> Result<u32, OutOfMemory>
    requires { length names.old < 2 ^ 32 - 1 }
    ensures ok { IfOk result (λ number. number ≡ sender_number names.old sender.now) }
    ensures names { OnOk result (names.new ≡ names_with names.old sender.now) }
    ensures err { OnErr result (names.new ≡ names.old) }
{
    match sender {
        Some(name) => names.number(name),
        None => Ok(0),
    }
}

// Gives the replica a message, if it was made, and returns what is told of it.
fn give_made<R: Replica>(
    replica: &mut R,
    made: &Result<Entry, OutOfMemory>,
) -> Result<Told, OutOfMemory>
    requires { IfOk made.now (λ entry. IsWellFormedMessage entry.msg) }
    ensures { IfOk result (λ told. (entry : Entry) × (made.now ≡ Ok entry) × ((seen : Observation) → Observes seen.names (R.state replica.old) seen
        → IsStep (Observes seen.names (R.state replica.new)) told (observe_answer seen (process (client_over seen.doc) entry)))) }
{
    match made {
        Ok(entry) => give(replica, entry),
        Err(_) => Err(OutOfMemory),
    }
}

// Gives the replica a message, and returns what is told of it.
fn give<R: Replica>(replica: &mut R, entry: &Entry) -> Result<Told, OutOfMemory>
    requires { IsWellFormedMessage entry.now.msg }
    ensures { (seen : Observation) → Observes seen.names (R.state replica.old) seen
        → IfOk result (λ told. IsStep (Observes seen.names (R.state replica.new)) told (observe_answer seen (process (client_over seen.doc) entry.now))) }
{
    match replica.process(entry) {
        Ok(()) => Ok(Told::Nothing),
        Err(fault) => told_of(entry.msg.seq, fault),
    }
}

// What is told of the message with this number for this fault of a replica; a stop was `OutOfMemory`.
fn told_of(number: u64, fault: ProcessFault) -> Result<Told, OutOfMemory>
    ensures refusal { IfOk result (λ told. told ≡ Told.Refused (refusal_of_process number fault)) }
    ensures found { IfOk result (λ told. fault ≢ ProcessFault.OutOfMemory) }
{
    match fault {
        ProcessFault::OutOfMemory | ProcessFault::Stopped { .. } => Err(OutOfMemory),
        ProcessFault::OutOfOrder { .. } | ProcessFault::BadNumbers { .. } | ProcessFault::NotSent =>
            Ok(Told::Refused(Refusal::of_process(number, fault))),
    }
}
