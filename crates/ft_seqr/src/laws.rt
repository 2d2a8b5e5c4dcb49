//! Laws, each the contract of a function that does nothing.

ghost use Rattle.ft_seqr.specs.EventLaws.{EventsReadBack, EventsTellApart};

/// A well-formed event is read back from its text, and no other has the same text.
pub fn events_are_read_back()
    ensures read_back { EventsReadBack }
    ensures tell_apart { EventsTellApart }
{}
