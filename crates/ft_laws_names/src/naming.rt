//! Two well named clients that are indexed alike answer every step alike, and stay so.

ghost use Rattle.ft_laws_names.specs.Naming.{ClientsCanBeNamed, ListsCanBeNamed};
ghost use Rattle.ft_laws_names.specs.Renaming.{ClientsAreWellNamed, CompactionsIgnoreNames, ConnectsIgnoreNames, DropsIgnoreNames, EditsIgnoreNames, EntriesIgnoreNames, IdlesIgnoreNames, KeptAreWellNamed, MadeOrKeptAreWellNamed, OneCompactionServesAll, OneConnectAnswersAll, OneDropAnswersAll, OneEditAnswersAll, OneEntryAnswersAll, OneIdleAnswersAll, OneSummaryAnswersAll, OneViewAnswersAll, RestartsIgnoreNames, SendsIgnoreNames, StepsKeepNames, SummariesAreWellNamed, SummaryStartShowsTheSame, ViewsIgnoreNames};

/// Two well named clients that are indexed alike refuse an edit of their own, an entry or a change of
/// their link with one fault, or both take it, and are indexed alike and well named again.
pub fn steps()
    ensures edits { EditsIgnoreNames }
    ensures entries { EntriesIgnoreNames }
    ensures connects { ConnectsIgnoreNames }
    ensures drops { DropsIgnoreNames }
    ensures idles { IdlesIgnoreNames }
    ensures sends { SendsIgnoreNames }
    ensures restarts { RestartsIgnoreNames }
    ensures compactions { CompactionsIgnoreNames }
{}

/// They show the same, and would send their pending edits again as the same operations.
pub fn views()
    ensures same { ViewsIgnoreNames }
{}

/// Each step leaves a well named client well named; so each client that its steps made is, and what
/// keeps it is too.
pub fn well_named()
    ensures steps { StepsKeepNames }
    ensures clients { ClientsAreWellNamed }
    ensures summaries { SummariesAreWellNamed }
    ensures kept { KeptAreWellNamed }
    ensures made_or_kept { MadeOrKeptAreWellNamed }
{}

/// So what a replica does on one well named client that it shows, it answers for each client for which
/// it stands.
pub fn replicas()
    ensures edits { OneEditAnswersAll }
    ensures entries { OneEntryAnswersAll }
    ensures connects { OneConnectAnswersAll }
    ensures drops { OneDropAnswersAll }
    ensures idles { OneIdleAnswersAll }
    ensures shows { OneViewAnswersAll }
    ensures sums { OneSummaryAnswersAll }
    ensures compacts { OneCompactionServesAll }
{}

/// Elements without names can be given names of their own, and so can what a well named client shows.
pub fn names()
    ensures lists { ListsCanBeNamed }
    ensures clients { ClientsCanBeNamed }
{}

/// A client that starts from a summary of another, which numbers its elements anew, goes on as one that
/// starts from the other's document.
pub fn summary_starts()
    ensures { SummaryStartShowsTheSame }
{}
