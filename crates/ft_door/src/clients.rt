//! A client that is held between calls.

ghost use Rattle.std.specs.Prelude.{◌≡◌, [], Bool, IfOk, None, OnErr, OnOk, Some, drop, length, option_map, string_bytes};
ghost use Rattle.ft_seqr.specs.Walk.{Step};
ghost use Rattle.ft_replay.specs.LineForm.{bytes_of};
ghost use Rattle.ft_change_lines.specs.ChangeTexts.{changes_text};
ghost use Rattle.ft_door.specs.Clients.{CallsClient, ClientGoesOn, IsNew, ListensToClient, ReadsClient, SendsDraft, ShowsClient, TellsClient, changes_of, refusal_bytes, unread_by};
ghost use Rattle.ft_door.specs.Editors.{EditorState, NaiveEditor, TellsStep, call_exceeds, call_step, informed, listening, oldest_bytes, shown_lines, with_listener, with_queue};

use crate::calls::{Call, Told};
use crate::editors::Editor;
use crate::sessions::CLOSED;
use crate::waiting::Waiting;
use ft_base::OutOfMemory;
use ft_changes::Telling;
use ft_report::{DONE, OUT_OF_MEMORY, SOME_REFUSED, TOO_LONG};
use ft_seqr::Refusal;
use std::alloc::Global;

/// The call was refused, and there was no memory for the line that tells why.
pub const UNTOLD: u32 = 2;

/// There is nothing to send, or nobody is told.
pub const NOTHING: u32 = 8;

/// A client that is held between calls: what takes its edits and messages, and what was written and isn't read yet.
#[derive(Drop)]
pub struct HeldClient<R: Telling + Drop> {
    alloc: Global,
    // None from its end on.
    client: Option<Editor<R>>,
    waiting: Waiting,
}

impl<R: Telling + Drop> HeldClient<R> {
    /// A new client: an empty document, no connection.
    ///
    /// Returns `OutOfMemory` where there is no room for it.
    pub fn new(alloc: Global) -> Result<HeldClient<R>, OutOfMemory>
        ensures { IfOk result (λ run. IsNew run) }
    {
        let client = Editor::new(alloc)?;
        Ok(HeldClient {
            alloc,
            client: Some(client),
            waiting: Waiting::new(alloc),
        })
    }

    /// One that is at its end.
    pub fn ended(alloc: Global) -> HeldClient<R>
        ensures { result.client ≡ None }
    {
        HeldClient {
            alloc,
            client: None,
            waiting: Waiting::new(alloc),
        }
    }

    /// Does this with the bytes that are given with it.
    ///
    /// Returns `DONE` where it was taken; `SOME_REFUSED` where it was refused, and then why is put behind what isn't read yet;
    /// `UNTOLD` where it was refused and there is no room for that line; `OUT_OF_MEMORY` where there is no room for what it makes, and then the client is at its end; `TOO_LONG` where its steps would
    /// cost more than 2^52, or the next message comes where it has seen 2^32 - 1 connections, and `CLOSED` where it is at its end: then
    /// nothing changed.
    pub fn call(&mut self, call: Call, bytes: &[u8]) -> u32
        ensures { CallsClient (call_step call bytes.now) (call_exceeds call bytes.now) self.old self.new result }
    {
        let Some(client) = self.client.take() else {
            return CLOSED;
        };
        match client.take(call, bytes) {
            Ok((client, told)) => {
                drop(self.client.replace(client));
                self.settle(told)
            }
            Err(OutOfMemory) => OUT_OF_MEMORY,
        }
    }

    /// Puts the line of its oldest draft that isn't sent behind what isn't read yet; it counts as sent then.
    ///
    /// Returns `DONE`, and `NOTHING` where there is none; `OUT_OF_MEMORY` where there is no room for the line, and `CLOSED` where
    /// the client is at its end: then nothing changed.
    pub fn outgoing(&mut self) -> u32
        ensures { SendsDraft self.old self.new result }
    {
        match &self.client {
            None => CLOSED,
            Some(client) => {
                let line = client.draft();
                self.send(&line)
            }
        }
    }

    /// Puts the lines of what it shows behind what isn't read yet.
    ///
    /// Returns `DONE`; `OUT_OF_MEMORY` where there is no room for the lines, and `CLOSED` where the client is at its end: then
    /// nothing changed.
    pub fn view(&mut self) -> u32
        ensures { ShowsClient self.old self.new result }
    {
        match &self.client {
            None => CLOSED,
            Some(client) => {
                let lines = client.view_text();
                self.show(&lines)
            }
        }
    }

    /// A listener begins to be told what changes in what the client shows: the first changes lead from nothing to what it
    /// shows now, and after each start from a summary they do so again. Or nobody listens any more: then nothing is kept to be
    /// told. What is told waits in memory until it is asked for.
    ///
    /// Returns `DONE`; `OUT_OF_MEMORY` where there is no room for what is told, and `CLOSED` where the client is at its end: then
    /// nothing changed.
    pub fn tell(&mut self, listens: bool) -> u32
        ensures { ListensToClient listens self.old self.new result }
    {
        if self.client.is_none() {
            CLOSED
        } else {
            self.tell_open(listens)
        }
    }

    /// Puts the texts of the changes since it was last asked behind what isn't read yet, each on a line.
    ///
    /// Returns `DONE`, and `NOTHING` where nobody listens; `OUT_OF_MEMORY` where there is no room for the lines, and `CLOSED`
    /// where the client is at its end: then nothing changed.
    pub fn changes(&mut self) -> u32
        ensures { TellsClient self.old self.new result }
    {
        match &self.client {
            None => CLOSED,
            Some(client) => {
                let lines = client.changes_text();
                self.give(&lines)
            }
        }
    }

    /// How many bytes of what was written weren't read yet.
    pub fn unread(&self) -> usize
        ensures { result ≡ length (unread_by self.now) }
    {
        self.waiting.len()
    }

    /// Reads the next bytes of what was written into the first of the room, as many as it has room for, and returns how many.
    pub fn read(&mut self, room: &mut [u8]) -> usize
        ensures { ReadsClient self.old self.new room.new result }
    {
        self.waiting.read(room)
    }

    // Puts the lines of what it shows behind what waits, if they were made.
    fn show(&mut self, lines: &Result<String, OutOfMemory>) -> u32
        requires { self.old.client ≡ None → ⊥ }
        ensures { ((x : NaiveEditor) → ClientGoesOn self.old.client x → IfOk lines.now (λ text. string_bytes text ≡ bytes_of (shown_lines x))) → ShowsClient self.old self.new result }
    {
        match self.waiting.push_made(lines) {
            Ok(()) => DONE,
            Err(OutOfMemory) => OUT_OF_MEMORY,
        }
    }

    // What is told of a call, and is written of it where it is refused.
    fn settle(&mut self, told: Told) -> u32
        ensures { (s t : EditorState) (step : NaiveEditor → Step NaiveEditor) (exceeds : NaiveEditor → Bool) → self.old.client ≡ Some t → TellsStep told s t step exceeds
            → CallsClient step exceeds (record self.old { client = Some s }) self.new result }
    {
        match told {
            Told::Taken => DONE,
            Told::Refused(why) => self.refuse(why),
            Told::Full => TOO_LONG,
        }
    }

    // Writes why a call was refused; without memory for that the line is lost.
    fn refuse(&mut self, why: Refusal) -> u32
        ensures { (s t : EditorState) (step : NaiveEditor → Step NaiveEditor) (exceeds : NaiveEditor → Bool) → self.old.client ≡ Some t → TellsStep (Told.Refused why) s t step exceeds
            → CallsClient step exceeds (record self.old { client = Some s }) self.new result }
    {
        let line = refusal_line(self.alloc, why);
        match self.waiting.push_made(&line) {
            Ok(()) => SOME_REFUSED,
            Err(OutOfMemory) => UNTOLD,
        }
    }

    // Puts the line of its oldest draft behind what waits, if there is one and it was made; the draft counts as sent then.
    fn send(&mut self, made: &Result<Option<String>, OutOfMemory>) -> u32
        requires { self.old.client ≡ None → ⊥ }
        ensures { ((x : NaiveEditor) → ClientGoesOn self.old.client x → IfOk made.now (λ line. option_map (λ text. string_bytes text) line ≡ oldest_bytes x.client.queue))
            → SendsDraft self.old self.new result }
    {
        let Ok(line) = made else {
            return OUT_OF_MEMORY;
        };
        match line {
            Some(text) => self.send_line(text.as_str()),
            None => NOTHING,
        }
    }

    // Puts the line of its oldest draft behind what waits, which counts as sent then.
    fn send_line(&mut self, line: &str) -> u32
        requires { self.old.client ≡ None → ⊥ }
        ensures { ((x : NaiveEditor) → ClientGoesOn self.old.client x → oldest_bytes x.client.queue ≡ Some line.now) → SendsDraft self.old self.new result }
    {
        match self.waiting.push(line.as_bytes()) {
            Ok(()) => {
                count_sent(&mut self.client);
                DONE
            }
            Err(OutOfMemory) => OUT_OF_MEMORY,
        }
    }

    // As `tell`, where the client isn't at its end.
    fn tell_open(&mut self, listens: bool) -> u32
        requires { self.old.client ≡ None → ⊥ }
        ensures { ListensToClient listens self.old self.new result }
    {
        match tell_client(&mut self.client, listens) {
            Ok(()) => DONE,
            Err(OutOfMemory) => OUT_OF_MEMORY,
        }
    }

    // Puts the lines of changes behind what waits, if somebody listens and they were made; they count as told then.
    fn give(&mut self, made: &Result<Option<String>, OutOfMemory>) -> u32
        requires { self.old.client ≡ None → ⊥ }
        ensures { IfOk made.now (λ lines. option_map (λ text. string_bytes text) lines ≡ option_map changes_text (changes_of self.old.client)) → TellsClient self.old self.new result }
    {
        let Ok(lines) = made else {
            return OUT_OF_MEMORY;
        };
        match lines {
            Some(text) => self.give_lines(text.as_str()),
            None => NOTHING,
        }
    }

    // Puts the lines of the changes behind what waits, which count as told then.
    fn give_lines(&mut self, lines: &str) -> u32
        requires { self.old.client ≡ None → ⊥ }
        ensures { option_map changes_text (changes_of self.old.client) ≡ Some lines.now → TellsClient self.old self.new result }
    {
        match self.waiting.push(lines.as_bytes()) {
            Ok(()) => {
                count_told(&mut self.client);
                DONE
            }
            Err(OutOfMemory) => OUT_OF_MEMORY,
        }
    }
}

// What is written of a refusal, with its LF.
fn refusal_line(alloc: Global, why: Refusal) -> Result<String, OutOfMemory>
    ensures { IfOk result (λ text. string_bytes text ≡ refusal_bytes why) }
{
    let number = why.number();
    Ok(format!(in alloc; "refused {number} {why}\n")?)
}

// The oldest draft of the client counts as sent, if there is a client.
fn count_sent<R: Telling + Drop>(client: &mut Option<Editor<R>>)
    ensures { (x : NaiveEditor) → ClientGoesOn client.old x → ClientGoesOn client.new (with_queue (drop 1 x.client.queue) x) }
{
    if let Some(client) = client {
        client.sent();
    }
}

// A listener of the client begins, or there is none any more, if there is a client.
//
// Returns `OutOfMemory` where there is no room for what is told, and then nothing changed.
fn tell_client<R: Telling + Drop>(
    client: &mut Option<Editor<R>>,
    listens: bool,
) -> Result<(), OutOfMemory>
    ensures ok { (x : NaiveEditor) → ClientGoesOn client.old x → OnOk result (ClientGoesOn client.new (with_listener (listening listens) x)) }
    ensures err { OnErr result (client.new ≡ client.old) }
{
    match client {
        Some(client) => client.tell(listens),
        None => Ok(()),
    }
}

// All changes of the client count as told, if there is a client.
fn count_told<R: Telling + Drop>(client: &mut Option<Editor<R>>)
    ensures editor { (x : NaiveEditor) → ClientGoesOn client.old x → ClientGoesOn client.new (informed x) }
    ensures none { changes_of client.new ≡ option_map (λ _. []) (changes_of client.old) }
{
    if let Some(client) = client {
        client.informed();
    }
}
