//! One client alone, whose messages go over a network of its own.

ghost use Rattle.std.specs.Prelude.{◌≡◌, [], IfOk, OnErr, OnOk, drop, option_map, string_bytes};
ghost use Rattle.ft_replay.specs.LineForm.{bytes_of};
ghost use Rattle.ft_change_lines.specs.ChangeTexts.{changes_text};
ghost use Rattle.ft_door.specs.Editors.{IsEditor, NaiveEditor, TellsStep, call_exceeds, call_step, informed, listening, new_editor, oldest_bytes, shown_lines, with_listener, with_queue};

use crate::calls::{Call, Told};
use crate::parts::Parts;
use ft_base::OutOfMemory;
use ft_base::moved::beside;
use ft_changes::Telling;
use ft_laws_sessions::formed::client_drafts_are_well_formed;
use std::alloc::Global;
use std::marker::Model;

/// One client alone, which always found memory. Contracts see what it has; it stands for some editor of the definition.
#[derive(Drop)]
pub struct Editor<R: Telling> {
    parts: Parts<R>,
}

impl<R: Telling> Model for Editor<R> {
    ghost use Rattle.ft_door.specs.Editors.{EditorState, IsSomeEditor};

    ghost Value = { EditorState };

    ghost view = { λ a. a.parts };

    ghost invariant = { λ a. IsSomeEditor a.parts };
}

impl<R: Telling + Drop> Editor<R> {
    /// A new one: an empty document, no connection.
    ///
    /// Returns `OutOfMemory` where there is no room for it.
    pub fn new(alloc: Global) -> Result<Editor<R>, OutOfMemory>
        ensures { IfOk result (λ a. IsEditor a new_editor) }
    {
        let parts = Parts::new(alloc)?;
        let editor = Editor { parts };
        Ok(editor)
    }

    /// The editor after a call, with the bytes that are given with it.
    ///
    /// Returns `OutOfMemory` where there is no room for what the call makes, and then the editor is gone.
    pub fn take(self, call: Call, bytes: &[u8]) -> Result<(Editor<R>, Told), OutOfMemory>
        ensures { IfOk result (λ p. TellsStep p.1 self p.0 (call_step call bytes.now) (call_exceeds call bytes.now)) }
    {
        let Editor { mut parts } = self;
        let told = parts.take(call, bytes);
        let (told, parts) = beside(told, parts)?;
        let editor = Editor { parts };
        Ok((editor, told))
    }

    /// The line of its oldest draft that isn't sent, if there is one, with its LF.
    ///
    /// Returns `OutOfMemory` where there is no room for the line.
    pub fn draft(&self) -> Result<Option<String>, OutOfMemory>
        ensures { (x : NaiveEditor) → IsEditor self.now x
            → IfOk result (λ line. option_map (λ text. string_bytes text) line ≡ oldest_bytes x.client.queue) }
    {
        client_drafts_are_well_formed();
        self.parts.draft()
    }

    /// The oldest draft counts as sent.
    pub fn sent(&mut self)
        ensures { (x : NaiveEditor) → IsEditor self.old x → IsEditor self.new (with_queue (drop 1 x.client.queue) x) }
    {
        self.parts.sent();
    }

    /// The lines of what it shows, each with its LF.
    ///
    /// Returns `OutOfMemory` where there is no room for them.
    pub fn view_text(&self) -> Result<String, OutOfMemory>
        ensures { (x : NaiveEditor) → IsEditor self.now x
            → IfOk result (λ text. string_bytes text ≡ bytes_of (shown_lines x)) }
    {
        self.parts.view_text()
    }

    /// A listener begins to be told what changes, from nothing on, or nobody listens any more.
    ///
    /// Returns `OutOfMemory` where there is no room for what is told, and then nothing changed.
    pub fn tell(&mut self, listens: bool) -> Result<(), OutOfMemory>
        ensures ok { (x : NaiveEditor) → IsEditor self.old x → OnOk result (IsEditor self.new (with_listener (listening listens) x)) }
        ensures err { OnErr result (self.new ≡ self.old) }
    {
        self.parts.tell(listens)
    }

    /// The texts of the changes that wait to be told, each on a line, if somebody listens.
    ///
    /// Returns `OutOfMemory` where there is no room for them.
    pub fn changes_text(&self) -> Result<Option<String>, OutOfMemory>
        ensures { IfOk result (λ lines. option_map (λ text. string_bytes text) lines ≡ option_map changes_text self.now.told) }
    {
        self.parts.changes_text()
    }

    /// All changes count as told.
    pub fn informed(&mut self)
        ensures editor { (x : NaiveEditor) → IsEditor self.old x → IsEditor self.new (informed x) }
        ensures none { self.new.told ≡ option_map (λ _. []) self.old.told }
    {
        self.parts.informed();
    }
}
