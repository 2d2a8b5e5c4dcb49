//! What is known of the summary of a client with nothing pending, whatever it began with.

ghost use Rattle.ft_laws_summaries.specs.Summaries.{SummariesAreValid, SummariesAreWellCut, SummariesGiveDocuments};

/// The summary of a client with nothing pending gives what a summary keeps of its document, and is valid and cut as what
/// is written, where each message that the client took was well formed and its sender known, and the numbers are small.
pub fn summaries_of_clients()
    ensures gives { SummariesGiveDocuments }
    ensures valid { SummariesAreValid }
    ensures cut { SummariesAreWellCut }
{}
