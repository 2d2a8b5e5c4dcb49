//! What the grammars read is well formed.

ghost use Rattle.ft_laws_sessions.specs.ClientDrafts.{DraftsOfClientsAreFormed};
ghost use Rattle.ft_laws_sessions.specs.FormedReads.{DraftsAreFormed, EventsAreFormed, MessagesAreFormed, SessionEntriesAreWellFormed, SummariesNameFew};

/// A draft, a message or an event that a text is is well formed. So is each message of the log of a
/// session, where the load stays below 2^53.
pub fn reads_are_well_formed()
    ensures drafts { DraftsAreFormed }
    ensures messages { MessagesAreFormed }
    ensures events { EventsAreFormed }
    ensures entries { SessionEntriesAreWellFormed }
{}

/// A summary that a text is has fewer names of connections than the text has bytes.
pub fn read_summaries_name_few()
    ensures { SummariesNameFew }
{}

/// What one client alone has to send is well formed, where its edits and messages were, and what its steps cost is below 2^53.
pub fn client_drafts_are_well_formed()
    ensures { DraftsOfClientsAreFormed }
{}
