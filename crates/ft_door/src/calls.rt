//! What is asked of a client that is held, and what is told of it.

use ft_seqr::Refusal;

/// What is asked of a client, with the bytes that are given with it.
#[derive(Clone, Copy, Debug, PartialEq, Eq)]
pub enum Call {
    /// To start anew from a summary, whose text is given.
    Load,
    /// To wait for the join of a connection, whose name is given. It is refused where the client has a connection, or waits for
    /// one.
    Connect,
    /// To be without a connection: its drafts that aren't sent are gone; or to wait for none any more. Nothing is given. It is
    /// refused where the client has none, and waits for none.
    Drop,
    /// To take an edit of its own, which is given as the text of an event `edit`; the `client` in there is passed over.
    Edit,
    /// To take the next message of the log, whose text is given.
    Process,
}

/// What is told of a call.
#[derive(Clone, Copy, Debug, PartialEq, Eq)]
pub enum Told {
    /// It was taken.
    Taken,
    /// It is refused.
    Refused(Refusal),
    /// It is too much: a count would pass its greatest number. Nothing changed.
    Full,
}
