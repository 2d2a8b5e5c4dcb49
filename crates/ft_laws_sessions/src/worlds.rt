//! What holds of every world that events make of the empty one.

ghost use Rattle.ft_laws_sessions.specs.Worlds.{AttributionsAgree, ClientsAreOfLog, ClientsAttributeTheSame, ClientsShowTheSame, CountsAreAgreed, EventsHaveTheirRefusals, LogIsInOrder, ViewsAreApplied};
ghost use Rattle.ft_laws_sessions.specs.FormedLogs.{EntriesAreWellFormed};
ghost use Rattle.ft_laws_sessions.specs.Load.{CountsAreWithinLoad, ElementsAreWithinLoad, NumberIsWithinLoad};
ghost use Rattle.ft_laws_sessions.specs.NewNames.{ConnectionsHaveNewNames, GuestsHaveNewNames};
ghost use Rattle.ft_laws_sessions.specs.Offers.{OffersAreOfTheLog};
ghost use Rattle.ft_laws_sessions.specs.Summaries.{SummariesAreValid, SummariesAreWellCut, SummariesGiveDocuments, SummariesGoOn};
ghost use Rattle.ft_laws_sessions.specs.Reports.{OpenedReportsAreOne, ReportsAreOne};

/// The log's messages follow one another: their numbers are 1, 2, 3 and so on, minimums never fall,
/// and each operation refers to a number from the minimum before it up to below its own.
pub fn logs_are_in_order()
    ensures { LogIsInOrder }
{}

/// Each client made steps of its own from the empty document on, refusing none, and took the first
/// messages of the log. One that started from another goes on with the steps of that one.
pub fn clients_are_of_the_log()
    ensures { ClientsAreOfLog }
{}

/// An event has the refusals of its row alone: no message of the log is refused by a client, nor a
/// client's own draft by the sequencer.
pub fn events_have_their_refusals()
    ensures { EventsHaveTheirRefusals }
{}

/// An offered message that a client takes is the next one of the log: what the client makes of the
/// offer is what it makes of the log's message.
pub fn offers_are_of_the_log()
    ensures { OffersAreOfTheLog }
{}

/// Each client shows the messages that it processed with its pending operations sequenced next. Two
/// clients with the same number and nothing pending show the same.
pub fn views_are_applied()
    ensures applied { ViewsAreApplied }
    ensures same { ClientsShowTheSame }
{}

/// The report of a session is the same whether each view is what its client shows, or what the log
/// shows of the messages that the client processed with its pending operations sequenced next.
pub fn reports_are_one()
    ensures whole { ReportsAreOne }
    ensures opened { OpenedReportsAreOne }
{}

/// The counts of a client are those of the messages that it processed, and so is, with nothing
/// pending, who inserted its text. Two clients with the same number and nothing pending tell the same
/// of who inserted it.
pub fn counts_and_attributions_agree()
    ensures counts { CountsAreAgreed }
    ensures attributions { AttributionsAgree }
    ensures same { ClientsAttributeTheSame }
{}

/// The name of each new connection is a new one, so a table of names gives it the next number.
pub fn connections_have_new_names()
    ensures clients { ConnectionsHaveNewNames }
    ensures guests { GuestsHaveNewNames }
{}

/// The load of a world bounds what it counts: the number of its sequencer, the elements that each list
/// of each client ever held, the sub-operations that a client skipped and the messages for others. So
/// each is below 2^53 where the load is.
pub fn loads_bound()
    ensures number { NumberIsWithinLoad }
    ensures elements { ElementsAreWithinLoad }
    ensures counts { CountsAreWithinLoad }
{}

/// Each message of a log is well formed, where each event was when it was taken, and the load with
/// what the event would add was below 2^53.
pub fn entries_are_well_formed()
    ensures { EntriesAreWellFormed }
{}

/// Whoever begins with what a summary keeps of the document of a client with nothing pending shows
/// after each further message of the log what the log shows up to there.
pub fn summaries_go_on()
    ensures { SummariesGoOn }
{}

/// The summary of a client with nothing pending gives what a summary keeps of its document, but for the
/// names of elements.
pub fn summaries_give_documents()
    ensures { SummariesGiveDocuments }
{}

/// The summary of a client with nothing pending is cut as what is written, where the load is below 2^53:
/// its text into chunks, and these, rows and columns into segments and runs as long as they can be.
pub fn summaries_are_well_cut()
    ensures { SummariesAreWellCut }
{}

/// The summary of a client with nothing pending is valid, where each event was well formed when it was
/// taken and the load is at most 2^52.
pub fn summaries_are_valid()
    ensures { SummariesAreValid }
{}
