//! What an editor has, and what each call makes of it.

ghost use Rattle.std.specs.Prelude.{[], Option, None, OnErr, OnOk, is_some, ◌≡◌, ◌+◌, ◌*◌, ◌<◌, ◌≤◌, ◌^◌, ◌&&◌, ℕ, List, true, not, Some, Ok, IfOk, IfNone, IfSome, IsTrue, false, chars, drop, length, option_copied, option_map, slice_get, string_bytes};
ghost use Rattle.ft_op.specs.WellFormed.{IsWellFormed};
ghost use Rattle.ft_json.specs.Readers.{Reads};
ghost use Rattle.ft_sumdoc.specs.Summary.{summary};
ghost use Rattle.ft_sumdoc.specs.Valid.{IsValidSummary};
ghost use Rattle.ft_msg.specs.declared.messages.Draft.{Draft};
ghost use Rattle.ft_msg.specs.declared.messages.Message.{Message};
ghost use Rattle.ft_msg.specs.Answers.{RunsFor, numbers_of, view_content};
ghost use Rattle.ft_msg.specs.Client.{NaiveClient};
ghost use Rattle.ft_change_lines.specs.FromNothing.{told_from_nothing};
ghost use Rattle.ft_msg.specs.Content.{content};
ghost use Rattle.ft_msg.specs.Process.{process};
ghost use Rattle.ft_msg.specs.Reached.{IsReached};
ghost use Rattle.ft_msg.specs.WellFormed.{HasNumbersInRange, IsWellFormedDraft, IsWellFormedMessage};
ghost use Rattle.ft_seqr.specs.declared.refusals.Refusal.TheVariants.{NotConnected};
ghost use Rattle.ft_seqr.specs.EventReader.{ReadsEvent};
ghost use Rattle.ft_seqr.specs.Refusals.{refusal_of_process};
ghost use Rattle.ft_seqr.specs.WellFormedEvent.{IsWellFormedEvent};
ghost use Rattle.ft_seqr.specs.World.{body_load, op_load};
ghost use Rattle.ft_replay.specs.LineForm.{bytes_of};
ghost use Rattle.ft_replay.specs.Observation.{names_with, numbered_entry};
ghost use Rattle.ft_changes.specs.Shown.{ShownContent};
ghost use Rattle.ft_change_lines.specs.ChangeTexts.{changes_text};
ghost use Rattle.ft_door.specs.Editors.{EditorState, AnswersStep, IsEditor, IsNextFor, IsSomeEditor, Leads, NaiveEditor, TakesJoin, TellsStep, call_exceeds, call_step, client_after, connect_as, connect_line, draft_bytes, drop_step, dropped_unless, edit_event, edit_exceeds, edit_line, edit_line_exceeds, edited, edited_op, editor_of, informed, is_awaited_by, is_join, is_offline, is_sender, joining_as, listening, load_limit, load_line, load_line_exceeds, load_of, load_reading, load_reading_exceeds, message_exceeds, message_refusal, never_exceeds, new_editor, next_exceeds, no_name, oldest_bytes, process_line, process_line_exceeds, shown_lines, shown_link, table_limit, take_message, take_next, told_of, waits_after, with_listener, with_queue};

use crate::calls::{Call, Told};
use crate::giving::{begin_join, give_edit, give_entry, lose_link, order_fault};
use ft_base::moved::both;
use ft_base::{Datum, OutOfMemory, Text};
use ft_change_lines::{changes_text, told_from_nothing};
use ft_changes::{Telling, ViewChanges};
use ft_laws_sessions::formed::reads_are_well_formed;
use ft_msg::{
    Body, Cause, Draft, Entry, Link, Message, MsgKind, Names, Numbers, ProcessFault, Replica, View,
    ViewFault, read_message, write_draft,
};
use ft_op::ChannelOp;
use ft_replay::{client_text, sender_number, table_of};
use ft_seqr::{Event, Refusal, read_event};
use ft_session::{body_load, op_load};
use ft_sumdoc::{SumDoc, SumFault, read_summary};
use std::alloc::Global;
use std::marker::Model;
use std::mem;

// How many names there may be before the next message: a number has 32 bits.
const TABLE_LIMIT: u64 = 4_294_967_295;

// The greatest load of an editor.
const LOAD_LIMIT: u64 = 1 << 52;

/// What an editor has: a replica, and what is known of connections. Nothing is said of it once a call found no memory.
///
/// The number of a connection goes by its first appearance in the log, so it isn't known before its join comes. Until then the
/// replica is offline, where it takes messages and edits as one that is joining does.
#[derive(Drop)]
pub struct Parts<R: Telling> {
    alloc: Global,
    replica: R,
    /// The names of the connections in the messages that it took.
    names: Names,
    /// The name of its connection, the last one if it has none; empty before the first.
    name: Text,
    /// Whether it waits for the join of that one.
    waits: bool,
    /// What its steps cost: one each, and one for each sub-operation and each inserted element.
    load: u64,
    /// The changes that wait to be told, if somebody listens.
    told: Option<ViewChanges>,
}

impl<R: Telling> Model for Parts<R> {
    ghost use Rattle.ft_door.specs.Editors.{EditorState};

    ghost Value = { EditorState };

    ghost view = { λ a. record { replica = R.state a.replica; names = a.names; name = a.name; waits = a.waits; load = a.load; told = a.told } };
}

impl<R: Telling + Drop> Parts<R> {
    /// Those of a new editor: an empty document, no connection.
    ///
    /// Returns `OutOfMemory` where there is no room for them.
    pub fn new(alloc: Global) -> Result<Parts<R>, OutOfMemory>
        ensures { IfOk result (λ a. IsEditor a new_editor) }
    {
        let name = Text::new(alloc, "");
        let (name, replica) = both(name, R::start(alloc))?;
        Ok(Parts {
            alloc,
            replica,
            names: Names::new(alloc),
            name,
            waits: false,
            load: 0,
            told: None,
        })
    }

    /// Takes a call, with the bytes that are given with it.
    ///
    /// Returns `OutOfMemory` where there is no room for what the call makes.
    pub fn take(&mut self, call: Call, bytes: &[u8]) -> Result<Told, OutOfMemory>
        requires { IsSomeEditor self.old }
        ensures { IfOk result (λ told. TellsStep told self.old self.new (call_step call bytes.now) (call_exceeds call bytes.now)) }
    {
        match call {
            Call::Load => self.load(bytes),
            Call::Connect => self.connect(bytes),
            Call::Drop => self.drop_link(),
            Call::Edit => self.edit(bytes),
            Call::Process => self.process(bytes),
        }
    }

    /// The line of the oldest draft that isn't sent, if there is one, with its LF.
    ///
    /// Returns `OutOfMemory` where there is no room for the line.
    pub fn draft(&self) -> Result<Option<String>, OutOfMemory>
        requires { (d : Draft) → Some d ≡ slice_get self.now.replica.client.queue 0 → IsWellFormedDraft d }
        ensures { (x : NaiveEditor) → IsEditor self.now x
            → IfOk result (λ line. option_map (λ text. string_bytes text) line ≡ oldest_bytes x.client.queue) }
    {
        match self.replica.queue_at(0) {
            None => Ok(None),
            Some(draft) => some_line(self.alloc, draft),
        }
    }

    /// The oldest draft counts as sent.
    pub fn sent(&mut self)
        ensures { (x : NaiveEditor) → IsEditor self.old x → IsEditor self.new (with_queue (drop 1 x.client.queue) x) }
    {
        drop(self.replica.take_outgoing());
    }

    /// The lines of what is shown, each with its LF.
    ///
    /// Returns `OutOfMemory` where there is no room for them.
    pub fn view_text(&self) -> Result<String, OutOfMemory>
        ensures { (x : NaiveEditor) → IsEditor self.now x
            → IfOk result (λ text. string_bytes text ≡ bytes_of (shown_lines x)) }
    {
        match self.replica.view() {
            Ok(view) => self.text_of(view),
            Err(ViewFault::OutOfMemory | ViewFault::Stopped { .. }) => Err(OutOfMemory),
        }
    }

    /// A listener begins to be told what changes, from nothing on, or nobody listens any more.
    ///
    /// Returns `OutOfMemory` where there is no room for what is told, and then nothing changed.
    pub fn tell(&mut self, listens: bool) -> Result<(), OutOfMemory>
        ensures ok { (x : NaiveEditor) → IsEditor self.old x → OnOk result (IsEditor self.new (with_listener (listening listens) x)) }
        ensures err { OnErr result (self.new ≡ self.old) }
    {
        let told = told_anew(self.alloc, &self.replica, listens)?;
        drop(mem::replace(&mut self.told, told));
        Ok(())
    }

    /// The texts of the changes that wait to be told, each on a line, if somebody listens.
    ///
    /// Returns `OutOfMemory` where there is no room for them.
    pub fn changes_text(&self) -> Result<Option<String>, OutOfMemory>
        ensures { IfOk result (λ lines. option_map (λ text. string_bytes text) lines ≡ option_map changes_text self.now.told) }
    {
        match &self.told {
            None => Ok(None),
            Some(changes) => some_changes(self.alloc, changes),
        }
    }

    /// All changes count as told.
    pub fn informed(&mut self)
        ensures editor { (x : NaiveEditor) → IsEditor self.old x → IsEditor self.new (informed x) }
        ensures none { self.new.told ≡ option_map (λ _. []) self.old.told }
    {
        let told = emptied(self.alloc, &self.told);
        drop(mem::replace(&mut self.told, told));
    }

    // Takes an edit of its own.
    fn edit(&mut self, line: &[u8]) -> Result<Told, OutOfMemory>
        ensures { IfOk result (λ told. TellsStep told self.old self.new (edit_line line.now) (edit_line_exceeds line.now)) }
    {
        reads_are_well_formed();
        let read = read_event(self.alloc, line);
        let told = self.take_read(&read);
        drop(read);
        told
    }

    // Takes the event that a line is, if it is one, which is to be an edit.
    fn take_read(&mut self, read: &Result<Event, Refusal>) -> Result<Told, OutOfMemory>
        requires { IfOk read.now IsWellFormedEvent }
        ensures { (line : List ℕ) → ReadsEvent line read.now → IfOk result (λ told. TellsStep told self.old self.new (edit_line line) (edit_line_exceeds line)) }
    {
        match read {
            Ok(event) => self.take_event(event),
            Err(Refusal::OutOfMemory) => Err(OutOfMemory),
            Err(refusal) => Ok(Told::Refused(*refusal)),
        }
    }

    // Takes an event, which is to be an edit.
    fn take_event(&mut self, event: &Event) -> Result<Told, OutOfMemory>
        requires { IsWellFormedEvent event.now }
        ensures { IfOk result (λ told. TellsStep told self.old self.new (λ x. edit_event x (edited_op event.now)) (λ x. edit_exceeds x (edited_op event.now))) }
    {
        match edited_op(event) {
            Some(op) => self.take_edit(op),
            None => Ok(Told::Refused(Refusal::Malformed(Cause::UnknownWord))),
        }
    }

    // Takes an edit.
    fn take_edit(&mut self, op: &ChannelOp) -> Result<Told, OutOfMemory>
        requires { IsWellFormed op.now }
        ensures { IfOk result (λ told. TellsStep told self.old self.new (λ x. edited x op.now) (λ x. edit_exceeds x (Some op.now))) }
    {
        let Some(load) = load_with(self.load, op_load(op)?) else {
            return Ok(Told::Full);
        };
        self.edit_at(op, load)
    }

    // Takes an edit, with which the load is this.
    fn edit_at(&mut self, op: &ChannelOp, load: u64) -> Result<Told, OutOfMemory>
        requires formed { IsWellFormed op.now }
        requires sum { load ≡ self.old.load + (1 + op_load op.now) }
        requires low { load ≤ load_limit }
        ensures { IfOk result (λ told. TellsStep told self.old self.new (λ x. edited x op.now) (λ x. edit_exceeds x (Some op.now))) }
    {
        let mut told = self.told.take();
        let refusal = give_edit(&mut self.replica, op, &mut told)?;
        drop(mem::replace(&mut self.told, told));
        self.load = load_of(refusal, self.load, load);
        Ok(told_of(refusal))
    }

    // Takes the next message of the log.
    fn process(&mut self, line: &[u8]) -> Result<Told, OutOfMemory>
        requires { IsSomeEditor self.old }
        ensures { IfOk result (λ told. TellsStep told self.old self.new (process_line line.now) (process_line_exceeds line.now)) }
    {
        match read_message(self.alloc, line) {
            Ok(msg) => self.take_whole(msg),
            Err(Cause::OutOfMemory) => Err(OutOfMemory),
            Err(cause) => Ok(Told::Refused(Refusal::of_cause(cause))),
        }
    }

    // Takes a message, which is done with.
    fn take_whole(&mut self, msg: Message) -> Result<Told, OutOfMemory>
        requires formed { IsWellFormedMessage msg }
        requires in_range { HasNumbersInRange msg }
        requires some { IsSomeEditor self.old }
        ensures { IfOk result (λ told. TellsStep told self.old self.new (λ x. take_message x msg) (λ x. message_exceeds x msg)) }
    {
        let mut entry = Entry { msg, origin: 0 };
        let told = self.take_message(&mut entry);
        drop(entry);
        told
    }

    // Takes a message, whose entry gets the number of its sender.
    fn take_message(&mut self, entry: &mut Entry) -> Result<Told, OutOfMemory>
        requires formed { IsWellFormedMessage entry.old.msg }
        requires in_range { HasNumbersInRange entry.old.msg }
        requires some { IsSomeEditor self.old }
        ensures { IfOk result (λ told. TellsStep told self.old self.new (λ x. take_message x entry.old.msg) (λ x. message_exceeds x entry.old.msg)) }
    {
        let refusal = self.order_refusal(&entry.msg)?;
        match refusal {
            None => self.take_next(entry),
            Some(why) => Ok(Told::Refused(why)),
        }
    }

    // Why the message is refused whoever sent it, if it is.
    fn order_refusal(&self, msg: &Message) -> Result<Option<Refusal>, OutOfMemory>
        requires { HasNumbersInRange msg.now }
        ensures { (x : NaiveEditor) → IsEditor self.now x → IfOk result (λ why. why ≡ message_refusal x msg.now) }
    {
        let numbers = self.replica.numbers();
        let fault = order_fault(numbers.seq, numbers.min, msg)?;
        Ok(fault_refusal(msg.seq, fault))
    }

    // Takes the next message.
    fn take_next(&mut self, entry: &mut Entry) -> Result<Told, OutOfMemory>
        requires formed { IsWellFormedMessage entry.old.msg }
        requires next { IsNextFor self.old entry.old.msg }
        ensures { IfOk result (λ told. TellsStep told self.old self.new (λ x. take_next x entry.old.msg) (λ x. next_exceeds x entry.old.msg.body)) }
    {
        let found = self.load_after(&entry.msg.body)?;
        match found {
            Some(load) => self.take_at(entry, load),
            None => Ok(Told::Full),
        }
    }

    // The load after a message with this body, if it may be so great and there may be a name more.
    fn load_after(&self, body: &Body) -> Result<Option<u64>, OutOfMemory>
        ensures load { IfOk result (λ found. IfSome found (λ load. (load ≡ self.now.load + (1 + body_load body.now)) × (load ≤ load_limit))) }
        ensures room { IfOk result (λ found. IfSome found (λ load. length self.now.names < table_limit)) }
        ensures full { IfOk result (λ found. IfNone found ((x : NaiveEditor) → IsEditor self.now x → IsTrue (next_exceeds x body.now))) }
    {
        if self.names.len() as u64 >= TABLE_LIMIT {
            return Ok(None);
        }
        Ok(load_with(self.load, body_load(body)?))
    }

    // Takes the next message, with which the load is this.
    fn take_at(&mut self, entry: &mut Entry, load: u64) -> Result<Told, OutOfMemory>
        requires formed { IsWellFormedMessage entry.old.msg }
        requires room { length self.old.names < table_limit }
        requires sum { load ≡ self.old.load + (1 + body_load entry.old.msg.body) }
        requires low { load ≤ load_limit }
        requires next { IsNextFor self.old entry.old.msg }
        ensures { IfOk result (λ told. TellsStep told self.old self.new (λ x. take_next x entry.old.msg) (λ x. next_exceeds x entry.old.msg.body)) }
    {
        let joins = is_awaited(self.waits, &entry.msg, &self.name);
        let origin = sender_number(&mut self.names, &entry.msg.client_id)?;
        entry.origin = origin;
        self.take_entry(entry, joins, load)
    }

    // Takes an entry whose sender has its number, and which is the join that it waits for, or isn't.
    fn take_entry(&mut self, entry: &Entry, joins: bool, load: u64) -> Result<Told, OutOfMemory>
        requires formed { IsWellFormedMessage entry.now.msg }
        requires low { load ≤ load_limit }
        requires join { joins ≡ true → TakesJoin self.old.replica entry.now }
        ensures { (s : EditorState) (m : Message) → entry.now ≡ numbered_entry s.names m → self.old ≡ record s { names = names_with s.names m.client_id }
            → joins ≡ is_awaited_by s m → load ≡ s.load + (1 + body_load m.body)
            → IfOk result (λ told. TellsStep told s self.new (λ x. take_next x m) (λ x. next_exceeds x m.body)) }
    {
        let mut told = self.told.take();
        let refusal = receive(&mut self.replica, joins, entry, &mut told)?;
        drop(mem::replace(&mut self.told, told));
        self.waits = waits_after(refusal, self.waits, joins);
        self.load = load_of(refusal, self.load, load);
        Ok(told_of(refusal))
    }

    // Waits for the join of the connection whose name these bytes are.
    fn connect(&mut self, line: &[u8]) -> Result<Told, OutOfMemory>
        ensures { IfOk result (λ told. TellsStep told self.old self.new (connect_line line.now) never_exceeds) }
    {
        let Ok(name) = str::from_utf8(line) else {
            return Ok(Told::Refused(Refusal::Malformed(Cause::NotUtf8)));
        };
        self.connect_as(name)
    }

    // Waits for the join of the connection of this name.
    fn connect_as(&mut self, name: &str) -> Result<Told, OutOfMemory>
        ensures { IfOk result (λ told. TellsStep told self.old self.new (connect_as (chars name.now)) never_exceeds) }
    {
        if is_free(self.waits, self.replica.numbers().link) {
            self.wait_as(name)
        } else {
            Ok(Told::Refused(Refusal::AlreadyConnected))
        }
    }

    // Waits for the join of the connection of this name, where it has none and waits for none.
    fn wait_as(&mut self, text: &str) -> Result<Told, OutOfMemory>
        requires { not self.old.waits && is_offline self.old.replica.client.link ≡ true }
        ensures { IfOk result (λ told. TellsStep told self.old self.new (connect_as (chars text.now)) never_exceeds) }
    {
        let name = Text::new(self.alloc, text)?;
        self.name = name;
        self.waits = true;
        Ok(Told::Taken)
    }

    // Is without a connection, or waits for none any more.
    fn drop_link(&mut self) -> Result<Told, OutOfMemory>
        ensures { IfOk result (λ told. TellsStep told self.old self.new drop_step never_exceeds) }
    {
        let refusal = drop_unless(&mut self.replica, self.waits)?;
        self.waits = false;
        Ok(told_of(refusal))
    }

    // Starts anew, from the summary that these bytes are.
    fn load(&mut self, line: &[u8]) -> Result<Told, OutOfMemory>
        ensures { IfOk result (λ told. TellsStep told self.old self.new (load_line line.now) (load_line_exceeds line.now)) }
    {
        let read = read_summary(self.alloc, line);
        let told = self.load_read(&read);
        drop(read);
        told
    }

    // Starts anew, from the summary that bytes are, if they are one.
    fn load_read(&mut self, read: &Result<SumDoc, SumFault>) -> Result<Told, OutOfMemory>
        requires valid { IfOk read.now IsValidSummary }
        requires few { IfOk read.now (λ sum. length sum.conns < 2 ^ 32) }
        ensures { (line : List ℕ) → Reads SumFault.OutOfMemory (summary line) IsValidSummary read.now
            → IfOk result (λ told. TellsStep told self.old self.new (load_line line) (load_line_exceeds line)) }
    {
        match read {
            Ok(sum) => self.start_from(sum),
            Err(SumFault::OutOfMemory) => Err(OutOfMemory),
            Err(fault) => Ok(Told::Refused(Refusal::Summary(*fault))),
        }
    }

    // Starts anew, from the summary, where the load isn't too great.
    fn start_from(&mut self, sum: &SumDoc) -> Result<Told, OutOfMemory>
        requires valid { IsValidSummary sum.now }
        requires few { length sum.now.conns < 2 ^ 32 }
        ensures { IfOk result (λ told. TellsStep told self.old self.new (λ x. load_reading x (Ok sum.now)) (λ x. load_reading_exceeds (Ok sum.now))) }
    {
        let replica = R::from_summary(self.alloc, sum)?;
        let told = told_anew(self.alloc, &replica, self.told.is_some())?;
        match start_load(replica.numbers()) {
            Some(load) => self.begin(sum, replica, load, told),
            None => Ok(Told::Full),
        }
    }

    // Starts anew, with this replica over the document of the summary, and with what is told then.
    fn begin(
        &mut self,
        sum: &SumDoc,
        replica: R,
        load: u64,
        changes: Option<ViewChanges>,
    ) -> Result<Told, OutOfMemory>
        requires valid { IsValidSummary sum.now }
        requires few { length sum.now.conns < 2 ^ 32 }
        ensures { ((x : NaiveEditor) → IsEditor self.old x
            → IsEditor (record { replica = R.state replica; names = sum.now.conns; name = no_name; waits = false; load = load; told = changes }) (editor_of (is_some x.listener) sum.now))
            → IfOk result (λ told. TellsStep told self.old self.new (λ x. load_reading x (Ok sum.now)) (λ x. load_reading_exceeds (Ok sum.now))) }
    {
        let alloc = self.alloc;
        let table = table_of(alloc, &sum.conns);
        let (names, name) = both(table, Text::new(alloc, ""))?;
        let parts = Parts {
            alloc,
            replica,
            names,
            name,
            waits: false,
            load,
            told: changes,
        };
        drop(mem::replace(self, parts));
        Ok(Told::Taken)
    }

    // The lines of this view of its replica, each with its LF.
    fn text_of(&self, view: View) -> Result<String, OutOfMemory>
        ensures { (x : NaiveEditor) → IsEditor self.now x → view.numbers ≡ numbers_of self.now.replica → view_content view ≡ content x.client
            → IfOk result (λ text. string_bytes text ≡ bytes_of (shown_lines x)) }
    {
        let mut view = view;
        let link = shown_link(self.waits, view.numbers.link);
        view.numbers.link = link;
        let text = client_text(self.alloc, &self.name, &view);
        drop(view);
        text
    }
}

// The refusal of the message with this number, if there is a fault.
fn fault_refusal(number: u64, fault: Option<ProcessFault>) -> Option<Refusal>
    ensures { result ≡ option_map (refusal_of_process number) fault }
{
    match fault {
        None => None,
        Some(fault) => Some(Refusal::of_process(number, fault)),
    }
}

// Gives the replica the next message, before which it begins to join under the number of its sender, where it
// joins. What changes in the view is added to what is told, if somebody listens.
fn receive<R: Telling>(
    replica: &mut R,
    joins: bool,
    entry: &Entry,
    told: &mut Option<ViewChanges>,
) -> Result<Option<Refusal>, OutOfMemory>
    requires formed { IsWellFormedMessage entry.now.msg }
    requires join { joins ≡ true → TakesJoin (R.state replica.old) entry.now }
    ensures answers { (x : NaiveClient) → IsReached x → RunsFor (R.state replica.old) x
        → IfOk result (AnswersStep (refusal_of_process entry.now.msg.seq) (R.state replica.old) (R.state replica.new) (process (joining_as joins entry.now.origin x) entry.now)) }
    ensures leads { (x : NaiveClient) (shown : Option ShownContent) → IsReached x → RunsFor (R.state replica.old) x → Leads shown told.old x
        → IfOk result (λ _. Leads shown told.new (client_after x (process (joining_as joins entry.now.origin x) entry.now))) }
{
    if joins {
        take_join(replica, entry, told)
    } else {
        give_entry(replica, entry, told)
    }
}

// Gives the replica its join, before which it begins to join under the number of its sender. Its client takes that, so it
// isn't refused.
fn take_join<R: Telling>(
    replica: &mut R,
    entry: &Entry,
    told: &mut Option<ViewChanges>,
) -> Result<Option<Refusal>, OutOfMemory>
    requires formed { IsWellFormedMessage entry.now.msg }
    requires join { TakesJoin (R.state replica.old) entry.now }
    ensures answers { (x : NaiveClient) → IsReached x → RunsFor (R.state replica.old) x
        → IfOk result (AnswersStep (refusal_of_process entry.now.msg.seq) (R.state replica.old) (R.state replica.new) (process (joining_as true entry.now.origin x) entry.now)) }
    ensures leads { (x : NaiveClient) (shown : Option ShownContent) → IsReached x → RunsFor (R.state replica.old) x → Leads shown told.old x
        → IfOk result (λ _. Leads shown told.new (client_after x (process (joining_as true entry.now.origin x) entry.now))) }
{
    begin_join(replica, entry.origin)?;
    give_entry(replica, entry, told)
}

// The replica loses its connection, unless it only waits for one. Returns why that is refused, if it is.
fn drop_unless<R: Replica>(replica: &mut R, waits: bool) -> Result<Option<Refusal>, OutOfMemory>
    ensures { (x : NaiveClient) → IsReached x → RunsFor (R.state replica.old) x
        → IfOk result (AnswersStep (λ _. NotConnected) (R.state replica.old) (R.state replica.new) (dropped_unless waits x)) }
{
    if waits { Ok(None) } else { lose_link(replica) }
}

// What is told to a listener that begins, if somebody listens: what leads from nothing to what the replica shows.
//
// Returns `OutOfMemory` where there is no room for it, or the replica has stopped.
fn told_anew<R: Telling>(
    alloc: Global,
    replica: &R,
    listens: bool,
) -> Result<Option<ViewChanges>, OutOfMemory>
    ensures { (x : NaiveClient) → IsReached x → RunsFor (R.state replica.now) x → IfOk result (λ told. Leads (listening listens) told x) }
{
    if !listens {
        return Ok(None);
    }
    match replica.view() {
        Ok(view) => told_of_view(alloc, view),
        Err(ViewFault::OutOfMemory | ViewFault::Stopped { .. }) => Err(OutOfMemory),
    }
}

// What leads from nothing to what this view shows.
fn told_of_view(alloc: Global, view: View) -> Result<Option<ViewChanges>, OutOfMemory>
    ensures { IfOk result (λ told. told ≡ Some (told_from_nothing (view_content view))) }
{
    let told = told_from_nothing(alloc, &view);
    drop(view);
    Ok(Some(told?))
}

// No changes, if somebody listens.
fn emptied(alloc: Global, told: &Option<ViewChanges>) -> Option<ViewChanges>
    ensures { result ≡ option_map (λ _. []) told.now }
{
    match told {
        None => None,
        Some(_) => Some(ViewChanges::new(alloc)),
    }
}

// The texts of changes, each on a line.
fn some_changes(alloc: Global, changes: &ViewChanges) -> Result<Option<String>, OutOfMemory>
    ensures { IfOk result (λ lines. option_map (λ text. string_bytes text) lines ≡ Some (changes_text changes.now)) }
{
    let text = changes_text(alloc, changes.as_slice())?;
    Ok(Some(text))
}

// What is told of a step that is refused so, if it is.
fn told_of(refusal: Option<Refusal>) -> Told
    ensures { result ≡ told_of refusal }
{
    match refusal {
        None => Told::Taken,
        Some(why) => Told::Refused(why),
    }
}

// The load after a step that is refused so, if it is.
fn load_of(refusal: Option<Refusal>, load: u64, load_after: u64) -> u64
    ensures { result ≡ load_of refusal load load_after }
{
    if refusal.is_none() { load_after } else { load }
}

// Whether it waits after a step that is refused so, if it is, and is its join or isn't.
fn waits_after(refusal: Option<Refusal>, waits: bool, joins: bool) -> bool
    ensures { result ≡ waits_after refusal waits joins }
{
    waits && (refusal.is_some() || !joins)
}

// The operation of the event, if it is an edit.
fn edited_op(event: &Event) -> Option<&ChannelOp>
    ensures { option_copied result ≡ edited_op event.now }
{
    if let Event::Edit { op, .. } = event {
        Some(op)
    } else {
        None
    }
}

// The load after a step that costs one and so much more, if it may be so great.
fn load_with(load: u64, more: u64) -> Option<u64>
    ensures some { IfSome result (λ sum. (sum ≡ load + (1 + more)) × (sum ≤ load_limit)) }
    ensures none { IfNone result (load_limit < load + (1 + more)) }
{
    let cost = more.checked_add(1)?;
    let sum = load.checked_add(cost)?;
    if sum <= LOAD_LIMIT { Some(sum) } else { None }
}

// The load of the start from a document with these numbers, if it may be so great.
fn start_load(numbers: Numbers) -> Option<u64>
    ensures some { IfSome result (λ sum. (sum ≡ numbers.made * 3 + numbers.seq) × (sum ≤ load_limit)) }
    ensures none { IfNone result (load_limit < numbers.made * 3 + numbers.seq) }
{
    let most = numbers.made.checked_mul(3)?;
    let sum = most.checked_add(numbers.seq)?;
    if sum <= LOAD_LIMIT { Some(sum) } else { None }
}

// Whether the message is the join that is waited for.
fn is_awaited(waits: bool, msg: &Message, name: &Text) -> bool
    ensures { result ≡ (waits && (is_join msg.now.kind && is_sender name.now msg.now.client_id)) }
{
    waits && is_join_of(msg, name)
}

// Whether the message is the join of the connection of this name.
fn is_join_of(msg: &Message, name: &Text) -> bool
    ensures { result ≡ (is_join msg.now.kind && is_sender name.now msg.now.client_id) }
{
    matches!(msg.kind, MsgKind::Join) && is_sender(name, &msg.client_id)
}

// Whether the connection of this name sent it.
fn is_sender(name: &Text, sender: &Option<Text>) -> bool
    ensures { result ≡ is_sender name.now sender.now }
{
    match sender {
        None => false,
        Some(other) => name.same(other),
    }
}

// Whether there is no connection, and none is waited for.
fn is_free(waits: bool, link: Link) -> bool
    ensures { result ≡ (not waits && is_offline link) }
{
    !waits && is_offline(link)
}

// Whether there is no connection.
fn is_offline(link: Link) -> bool
    ensures { result ≡ is_offline link }
{
    match link {
        Link::Offline => true,
        Link::Joining { .. } | Link::Online { .. } => false,
    }
}

// The link that is shown of an editor that waits or doesn't.
fn shown_link(waits: bool, link: Link) -> Link
    ensures { result ≡ shown_link waits link }
{
    if waits {
        Link::Joining { conn: 0 }
    } else {
        link
    }
}

// The line of a draft, which there is, with its LF.
fn some_line(alloc: Global, draft: &Draft) -> Result<Option<String>, OutOfMemory>
    requires { IsWellFormedDraft draft.now }
    ensures { IfOk result (λ line. option_map (λ text. string_bytes text) line ≡ Some (draft_bytes draft.now)) }
{
    let line = draft_line(alloc, draft)?;
    Ok(Some(line))
}

// The line of a draft, with its LF.
fn draft_line(alloc: Global, draft: &Draft) -> Result<String, OutOfMemory>
    requires { IsWellFormedDraft draft.now }
    ensures { IfOk result (λ line. string_bytes line ≡ draft_bytes draft.now) }
{
    let text = write_draft(alloc, draft)?;
    let line = text.as_str();
    Ok(format!(in alloc; "{line}\n")?)
}
