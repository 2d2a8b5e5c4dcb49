//! Laws of what is told, each a clause of a function without code.

ghost use Rattle.ft_changes.specs.Laws.{AckMovesNoInterval, AckTellsNothing, CellsToldAreSet, EditsLeaveCells, EditsTellTheirIntervals, KeptAckTellsNothing, KeptEditsLeaveCells, KeptEditsTellTheirIntervals, KeptIsShown, KeptJoinTellsNothing, KeptMessagesTellTheirIntervals, KeptQuietIntervals, KeptTells, KeptTellsEdits, KeptTellsTheSame, KeptUnsetCellsTellNothing, MessagesTellTheirIntervals, NamelessIsShown, OwnJoinTellsNothing, QuietIntervals, ShownIsContent, ToldEditLeadsOn, ToldInPlaceOf, ToldLeadsOn, ToldListsLead, UnsetCellsTellNothing};

/// What an editor keeps of the text as elements is what the view has; and an editor that applies what it is told of an
/// entry or of an edit of its own shows what the client shows after it. But for cells and intervals the changes of the
/// lists lead there alone. Of its own join a client tells nothing, and its own message moves no interval as it comes
/// back, so it tells nothing of that either. Of a message that sets no cell none is told, and else only cells that it
/// sets; and no interval, where nothing is pending and the message has no interval operation. Of an edit only intervals
/// are told that it adds, changes or deletes, whatever is pending, and of one that isn't on the table no cell. Of a
/// message only those are told that it or a pending edit adds, changes or deletes, where nothing is pending, or where it
/// has one sub-operation at most and each stage sees what stands beside the elements that it puts in or takes out.
pub fn telling()
    ensures kept { ShownIsContent }
    ensures lists { ToldListsLead }
    ensures leads { ToldLeadsOn }
    ensures edits { ToldEditLeadsOn }
    ensures joins { OwnJoinTellsNothing }
    ensures acks { AckMovesNoInterval }
    ensures own { AckTellsNothing }
    ensures cells { UnsetCellsTellNothing }
    ensures quiet { QuietIntervals }
    ensures set { CellsToldAreSet }
    ensures texts { EditsLeaveCells }
    ensures edited { EditsTellTheirIntervals }
    ensures told { MessagesTellTheirIntervals }
{}

/// A client that keeps another but for what compaction takes away shows the same as elements too, and tells just the
/// same; and what is told by one that shows the same before and after an entry leads on the editor of the whole one. So
/// what a compacted client tells of entries and of edits leads it on, and it tells nothing where the whole one doesn't.
/// And what is shown doesn't depend on the names of elements.
pub fn telling_of_kept()
    ensures shown { KeptIsShown }
    ensures leads { ToldInPlaceOf }
    ensures tells { KeptTells }
    ensures edits { KeptTellsEdits }
    ensures nameless { NamelessIsShown }
    ensures joins { KeptJoinTellsNothing }
    ensures acks { KeptAckTellsNothing }
    ensures same { KeptTellsTheSame }
    ensures cells { KeptUnsetCellsTellNothing }
    ensures quiet { KeptQuietIntervals }
    ensures texts { KeptEditsLeaveCells }
    ensures edited { KeptEditsTellTheirIntervals }
    ensures told { KeptMessagesTellTheirIntervals }
{}
