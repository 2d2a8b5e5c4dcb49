//! Laws, each the contract of a function that does nothing.

ghost use Rattle.ft_msg.specs.Laws.{DraftsReadBack, DraftsTellApart, MessagesReadBack, MessagesTellApart};

/// A well-formed message is read back from its text, and no other has the same text.
pub fn messages_are_read_back()
    ensures read_back { MessagesReadBack }
    ensures tell_apart { MessagesTellApart }
{}

/// A well-formed draft is read back from its text, and no other has the same text.
pub fn drafts_are_read_back()
    ensures read_back { DraftsReadBack }
    ensures tell_apart { DraftsTellApart }
{}
