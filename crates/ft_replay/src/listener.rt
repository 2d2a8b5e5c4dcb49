//! What a run reads lines for.

use ft_base::OutOfMemory;
use ft_seqr::Refusal;
use ft_session::Counts;
use std::alloc::Global;

/// The greatest length of a line, without its LF.
pub const LINE_LIMIT: usize = 1 << 20;

/// What is told of a line that is read.
#[derive(Drop)]
pub enum Told {
    /// Nothing is written of it.
    Nothing,
    /// It writes this: whole lines, each with its LF.
    Text(String),
    /// It is refused.
    Refused(Refusal),
}

/// What hears the lines of a command. Contracts see for which states of the command's definition it stands: it
/// holds what the definition makes of the lines so far.
pub trait Listener: Sized + Drop {
    ghost use Rattle.std.specs.Prelude.{◌≡◌, ℕ, ◌+◌, ◌-◌, ◌<◌, ◌≤◌, ◌^◌, IfOk, length, string_bytes};
    ghost use Rattle.ft_io.specs.Reader.{input_limit};
    ghost use Rattle.ft_seqr.specs.Walk.{line_limit};
    ghost use Rattle.ft_replay.specs.LineForm.{LineForm, bytes_of};
    ghost use Rattle.ft_replay.specs.Listening.{IsStep, given_counts};

    /// What lines make.
    ghost Made: { Type 0 };

    /// The command's definition.
    ghost form: { LineForm Made };

    /// It holds what was made.
    ghost holds: { Self → Made → Type 0 };

    /// How many connections it has numbered, or may have before its next line: at most one for each
    /// line beside those that a line as long as an input names. A number has 32 bits.
    ghost size: { Self → ℕ };

    /// A listener before the first line.
    fn start(alloc: Global) -> Result<Self, OutOfMemory>
        ensures first { IfOk result (λ a. holds a form.first) }
        ensures size { IfOk result (λ a. size a ≤ input_limit) };

    /// The greatest length of the next line, if it isn't blank.
    fn limit(&self) -> usize
        ensures longest { (made : Made) → holds self.now made → result ≡ form.longest made }
        ensures least { line_limit ≤ result }
        ensures most { result ≤ input_limit };

    /// Takes a line that is neither blank nor too long, and returns what is told of it.
    ///
    /// Returns `OutOfMemory` where there is no room for what the line makes, and nothing is said of what the listener
    /// holds then.
    fn take(&mut self, line: &[u8]) -> Result<Told, OutOfMemory>
        requires few { size self.old < 2 ^ 32 - 1 }
        requires within { length line.now ≤ input_limit }
        ensures step { (made : Made) → holds self.old made → IfOk result (λ told. IsStep (holds self.new) told (form.read made line.now)) }
        ensures size { size self.new ≤ size self.old + 1 };

    /// The lines that show at the end what was made, each with its LF.
    fn view_text(&self) -> Result<String, OutOfMemory>
        ensures { (made : Made) → holds self.now made → IfOk result (λ text. string_bytes text ≡ bytes_of (form.shown made)) };

    /// How many sub-operations were skipped, and how many messages were for others: None exactly where the command doesn't count these.
    fn counts(&self) -> Option<Counts>
        ensures { (made : Made) → holds self.now made → result ≡ given_counts (form.counted made) };
}
