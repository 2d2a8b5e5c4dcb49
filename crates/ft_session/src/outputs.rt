//! What an event of a session is answered.

ghost use Rattle.std.specs.Prelude.{◌≡◌, OnOk};
ghost use Rattle.ft_session.specs.declared.outputs.Out.TheVariants as out;
ghost use Rattle.ft_session.specs.Outputs.{AddsText, Writes, WritesAs};

use ft_base::moved::{beside, boxed};
use ft_base::{List, OutOfMemory, Text};
use ft_json::ValText;
use ft_msg::View;
use ft_seqr::Refusal;
use std::alloc::Global;
use std::marker::Model;

/// JSON values, in order.
pub type Values = List<ValText>;

/// What an event writes.
#[derive(Drop)]
pub enum Out {
    /// Nothing.
    Nothing,
    /// The view of the client of this name.
    View { name: Text, view: View },
    /// JSON values, one a line.
    Texts(Values),
}

/// What an event writes, as the functions of this crate hand it on: two words, and no memory where nothing is
/// written. Contracts see what is written.
#[derive(Drop)]
pub(crate) struct BoxedOut {
    // None where nothing is written.
    out: Option<Box<Out>>,
}

impl Model for BoxedOut {
    ghost use Rattle.ft_session.specs.declared.outputs.Out.{Out};

    ghost Value = { Out };

    ghost use Rattle.ft_session.specs.Outputs.{unboxed};

    ghost view = { λ b. unboxed b.out };
}

impl BoxedOut {
    /// Nothing. It takes no memory.
    pub(crate) fn nothing() -> BoxedOut
        ensures { result ≡ out.Nothing }
    {
        BoxedOut { out: None }
    }

    // This, on the heap.
    //
    // Returns `OutOfMemory` where there is no room for it.
    fn of(alloc: Global, written: Out) -> Result<BoxedOut, Refusal>
        ensures { Writes written result }
    {
        let out = boxed(alloc, Ok(written))?;
        Ok(BoxedOut { out: Some(out) })
    }

    /// The texts, on the heap.
    ///
    /// Returns `OutOfMemory` where there was or is no room for them.
    pub(crate) fn of_texts(
        alloc: Global,
        texts: Result<Values, OutOfMemory>,
    ) -> Result<BoxedOut, Refusal>
        ensures { WritesAs (λ ts. out.Texts ts) texts result }
    {
        BoxedOut::of(alloc, Out::Texts(texts?))
    }

    /// The view of the client of that name, on the heap.
    ///
    /// Returns `OutOfMemory` where there was or is no room for them.
    pub(crate) fn of_view(
        alloc: Global,
        name: Result<Text, OutOfMemory>,
        view: View,
    ) -> Result<BoxedOut, Refusal>
        ensures { WritesAs (λ name. out.View name view) name result }
    {
        let (name, view) = beside(name, view)?;
        BoxedOut::of(alloc, Out::View { name, view })
    }

    /// What is written, no longer on the heap.
    pub(crate) fn into_out(self) -> Out
        ensures { result ≡ self }
    {
        match self.out {
            Some(out) => Box::into_inner(out),
            None => Out::Nothing,
        }
    }
}

/// Adds a text at the end, unless there was no memory for it.
///
/// Returns `OutOfMemory` where there was or is no room for it.
pub(crate) fn push_text(
    texts: &mut Values,
    text: Result<ValText, OutOfMemory>,
) -> Result<(), OutOfMemory>
    ensures { OnOk result (AddsText text texts.old texts.new) }
{
    texts.push(text?)
}

/// How many sub-operations were skipped, and how many messages were for another address.
#[derive(Clone, Copy, Debug, PartialEq, Eq)]
pub struct Counts {
    pub skipped: u64,
    pub other: u64,
}
