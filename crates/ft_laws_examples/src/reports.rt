//! Worked examples of sessions, from their lines to their reports.

ghost use Rattle.ft_laws_examples.specs.RowsOfReports.{OrdinarySession, GuestNacks, OffersRefused, TrueOfferTaken, GuestGroupHalfSkipped, SummaryKeepsRecentRemoval, SummaryKeepsAuthor, HistoryWritten, ReconnectMovesPendingText, ReconnectSendsOnlyUnsequenced, RemovalRegeneratedInRuns, CompactionKeepsFloor, IntervalRefusals, EditRange, OverlapShown, OverlapReversed, BlameAndAuthors, BlameRange, AdjustOnTop, DeepCellThroughSummary, EndpointSettlesStageByStage, GroupRegenerated, PendingCellOnTop, PendingPropertyOnTop, ReconnectSettlesInterval, RecycledRowIsEmpty, RemoteInsertPassesPendingRun, SummaryKeepsAuthorCompacted, SessionRefusals};

/// What is written of sessions, from their lines on.
pub fn reports()
    ensures ordinary_session { OrdinarySession }
    ensures guest_nacks { GuestNacks }
    ensures offers_refused { OffersRefused }
    ensures true_offer_taken { TrueOfferTaken }
    ensures guest_group_half_skipped { GuestGroupHalfSkipped }
    ensures summary_keeps_recent_removal { SummaryKeepsRecentRemoval }
    ensures summary_keeps_author { SummaryKeepsAuthor }
    ensures history_written { HistoryWritten }
    ensures reconnect_moves_pending_text { ReconnectMovesPendingText }
    ensures reconnect_sends_only_unsequenced { ReconnectSendsOnlyUnsequenced }
    ensures removal_regenerated_in_runs { RemovalRegeneratedInRuns }
    ensures compaction_keeps_floor { CompactionKeepsFloor }
    ensures interval_refusals { IntervalRefusals }
    ensures edit_range { EditRange }
    ensures overlap_shown { OverlapShown }
    ensures overlap_reversed { OverlapReversed }
    ensures blame_and_authors { BlameAndAuthors }
    ensures blame_range { BlameRange }
    ensures adjust_on_top { AdjustOnTop }
    ensures deep_cell_through_summary { DeepCellThroughSummary }
    ensures endpoint_settles_stage_by_stage { EndpointSettlesStageByStage }
    ensures group_regenerated { GroupRegenerated }
    ensures pending_cell_on_top { PendingCellOnTop }
    ensures pending_property_on_top { PendingPropertyOnTop }
    ensures reconnect_settles_interval { ReconnectSettlesInterval }
    ensures recycled_row_is_empty { RecycledRowIsEmpty }
    ensures remote_insert_passes_pending_run { RemoteInsertPassesPendingRun }
    ensures summary_keeps_author_compacted { SummaryKeepsAuthorCompacted }
    ensures session_refusals { SessionRefusals }
{}
