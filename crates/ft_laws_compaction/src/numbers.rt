//! The reference numbers of pending edits, and the floor.

ghost use Rattle.ft_laws_compaction.specs.Floors.{EntriesAreAboveFloor, FloorNeverFalls, FloorStays, OldestHasLeast, ReferencesRise};

/// The reference numbers of a client's pending edits rise, up to at most its number. So the oldest edit
/// has the least.
pub fn pending_references()
    ensures rise { ReferencesRise }
    ensures oldest { OldestHasLeast }
{}

/// The floor of a client never falls, and each operation that the client takes afterwards has a
/// reference number at or above it.
pub fn floor()
    ensures stays { FloorStays }
    ensures never_falls { FloorNeverFalls }
    ensures above { EntriesAreAboveFloor }
{}
