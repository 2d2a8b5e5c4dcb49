//! A compacted client takes and refuses what the whole one does, stays compacted, and shows the same.

ghost use Rattle.ft_laws_compaction.specs.Keeping.{CompactedShowsTheSame, CompactedStepsAlike, CompactingKeeps, ConnectsAlike, DropsAlike, EditsAnswerAlike, EntriesAnswerAlike, IdlesAlike, KeptIsReady, KeptIsSound, ReplicaCompacts, ReplicaConnects, ReplicaDrops, ReplicaEdits, ReplicaIdles, ReplicaOverlaps, ReplicaProcesses, ReplicaShows, ReplicaSums, RestartsAlike, SendsAlike};
ghost use Rattle.ft_laws_compaction.specs.StageRuns.{StagesStandInRuns};

/// A compacted client refuses an edit of its own, an entry or a change of its link with the fault of
/// the whole one, or takes it as that does and stays compacted.
pub fn answers()
    ensures edits { EditsAnswerAlike }
    ensures entries { EntriesAnswerAlike }
    ensures connects { ConnectsAlike }
    ensures drops { DropsAlike }
    ensures idles { IdlesAlike }
    ensures sends { SendsAlike }
    ensures restarts { RestartsAlike }
{}

/// It shows the same, and its queue, its link and its numbers are the same.
pub fn views()
    ensures same { CompactedShowsTheSame }
{}

/// A client that is compacted in between steps, any number of times, takes the steps of one that
/// isn't, no others, and stays a compacted form of it.
pub fn all_steps()
    ensures alike { CompactedStepsAlike }
    ensures keeps { CompactingKeeps }
{}

/// So a replica that does each step on every client that it shows answers it for every client for which
/// it stands, as is promised of a replica, and stands for the same clients after it compacts them.
pub fn replicas()
    ensures edits { ReplicaEdits }
    ensures entries { ReplicaProcesses }
    ensures connects { ReplicaConnects }
    ensures drops { ReplicaDrops }
    ensures idles { ReplicaIdles }
    ensures compacts { ReplicaCompacts }
    ensures sound { KeptIsSound }
    ensures ready { KeptIsReady }
    ensures runs { StagesStandInRuns }
{}

/// A replica that shows what every client shows that it keeps, shows what every client shows for which
/// it stands.
pub fn shown()
    ensures content { ReplicaShows }
    ensures overlap { ReplicaOverlaps }
    ensures summary { ReplicaSums }
{}
