//! Laws, each the contract of a function that does nothing.

ghost use Rattle.ft_sumdoc.specs.Laws.{ReadSummariesAreValid, SummariesReadBack, SummariesTellApart};

/// A valid summary that is cut as what is written is read back from its text, and no other such one
/// has the same text.
pub fn summaries_are_read_back()
    ensures read_back { SummariesReadBack }
    ensures tell_apart { SummariesTellApart }
{}

/// A summary that is read is valid, if its values are.
pub fn read_summaries_are_valid()
    ensures { ReadSummariesAreValid }
{}
