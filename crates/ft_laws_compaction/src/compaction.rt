//! What may be left out of a client.

ghost use Rattle.ft_laws_compaction.specs.ExampleCompaction.{ExampleForgets};
ghost use Rattle.ft_laws_compaction.specs.Keeping.{CompactsFurther, FullyCompacted, KeepsItself, StartsFromSummary, SummariesAlike, TombstonesAreFree, TrimmedRunsShowTheSame, TrimmedStartShowsTheSame};

/// What keeps a compacted client keeps the whole one.
pub fn compaction()
    ensures itself { KeepsItself }
    ensures further { CompactsFurther }
{}

/// In every client an element that was removed at or below the floor carries nothing pending, isn't
/// named, and stands before no pending element. So all of them may be left out.
pub fn tombstones()
    ensures are_free { TombstonesAreFree }
    ensures all { FullyCompacted }
{}

/// A client that starts from a summary keeps one that starts from the document, and the summary of a
/// compacted client is that of the whole one.
pub fn summaries()
    ensures keeps { StartsFromSummary }
    ensures alike { SummariesAlike }
{}

/// Trimmed at any moment, the document of a client's entries shows the same after those that it took
/// later. A client that starts from the trimmed document of another with nothing pending takes the
/// steps that one takes which starts from the whole document, and shows the same.
pub fn trimmed_starts()
    ensures runs { TrimmedRunsShowTheSame }
    ensures starts { TrimmedStartShowsTheSame }
{}

/// A run in which the compacted client has forgotten the one element of the text.
pub fn example()
    ensures forgets { ExampleForgets }
{}
