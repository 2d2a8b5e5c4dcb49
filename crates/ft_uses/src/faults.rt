//! Why the editors stop early.

use ft_base::OutOfMemory;
use ft_msg::{EditFault, LinkFault, ProcessFault, ViewFault};
use ft_seqr::{LeaveFault, SubmitFault};
use ft_sumdoc::SumFault;
use std::alloc::AllocError;
use thiserror::Error;

/// Why the editors stop early.
#[derive(Clone, Copy, Debug, Error)]
pub enum Fault {
    /// There was no memory for a value.
    #[error("no memory")]
    Memory(#[from] OutOfMemory),
    /// There was no memory for a message or a line.
    #[error("no memory")]
    Room(#[from(alloc)] AllocError),
    /// A client refused an edit.
    #[error("an edit: {0}")]
    Edit(#[from] EditFault),
    /// A client refused a message.
    #[error("a message: {0}")]
    Process(#[from] ProcessFault),
    /// A client refused to connect or to go offline.
    #[error("a connection: {0}")]
    Link(#[from] LinkFault),
    /// A client showed nothing.
    #[error("a view: {0}")]
    View(#[from] ViewFault),
    /// A text is no summary.
    #[error("a summary: {0}")]
    Summary(#[from] SumFault),
    /// The sequencer refused a draft.
    #[error("a draft: {0}")]
    Submit(#[from] SubmitFault),
    /// The sequencer refused to let a connection go.
    #[error("a departure: {0}")]
    Leave(#[from] LeaveFault),
    /// A client without a connection sends, or leaves.
    #[error("no connection")]
    Offline,
    /// What an editor shows isn't what its client has.
    #[error("an editor that shows something else than its client has")]
    Differs,
    /// A message isn't well formed, so no client may be given it.
    #[error("an ill-formed message")]
    IllFormed,
}
