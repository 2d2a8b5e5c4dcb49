//! The laws of agreement for clients that began with the document of a summary.

ghost use Rattle.ft_laws_agreement.specs.Corollaries.{OwnJoinComesBack, SameNumberShowsTheSame};
ghost use Rattle.ft_laws_agreement.specs.Starts.{ReachedAreRunsFromStart, ClientIsReadyFromStart, ClientsAgreeFromStart, EmptyIsSoundStart, EntriesAreCountedFromStart, IdleClientsAgreeFromStart, IdleClientsShowFromStart, JoinChangesNothingFromStart, PendingStaysOnTopFromStart, ReconnectionAgreesFromStart, ReconnectionKeepsViewsFromStart, RunsAreRunsFromEmpty, SummaryIsSoundStart};

/// A client may begin with the empty document, or with that of any valid summary.
pub fn sound_starts()
    ensures empty { EmptyIsSoundStart }
    ensures summary { SummaryIsSoundStart }
    ensures runs { RunsAreRunsFromEmpty }
    ensures reached { ReachedAreRunsFromStart }
{}

/// Without what is pending, the document of a client is the one that it began with and then the entries
/// that it took; it shows that with its pending operations sequenced next, whatever is pending and
/// whatever its link, and the same after its own join.
pub fn clients_from_a_start()
    ensures pending { ClientsAgreeFromStart }
    ensures idle { IdleClientsAgreeFromStart }
    ensures shown { IdleClientsShowFromStart }
    ensures counted { EntriesAreCountedFromStart }
    ensures ready { ClientIsReadyFromStart }
    ensures on_top { PendingStaysOnTopFromStart }
    ensures joins { JoinChangesNothingFromStart }
    ensures views { ReconnectionKeepsViewsFromStart }
    ensures agrees { ReconnectionAgreesFromStart }
{}

/// A client that processes its own join shows what it showed, and its queue holds just its pending edits
/// as they are sent again. Two clients with nothing pending that took the first entries of one log and
/// have the same number show the same.
pub fn seen_from_outside()
    ensures comes_back { OwnJoinComesBack }
    ensures same_number { SameNumberShowsTheSame }
{}
