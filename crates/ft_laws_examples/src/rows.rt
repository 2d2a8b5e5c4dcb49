//! Worked examples, each a clause that the definitions compute.

ghost use Rattle.ft_laws_examples.specs.RowsOfLogs.{TwoAtTheHead, TwoAtOnePlace, BesideATombstone, RemovedByTwo, EndsSlideBack, EndsDetach, EndsSlideOn, EndsSlideInAGroup, CellsByUnit, GroupAtOnePlace, RaisedToMin, Adjusted, KeptInRange, SkipsOne, Nothing, MarkedAndOthers, OnlyNumbers};
ghost use Rattle.ft_laws_examples.specs.RowsOfRefusals.{NeverSent, Nacks, ReferenceAhead, MinimumBack, WrongOrder, Repeated, History, ReadBack, ReadBackNumbers, Links};
ghost use Rattle.ft_laws_examples.specs.RowsOfSessions.{PastThePendingRun, RegeneratedBesideARemoval, RegeneratedInterval, KeptByTheFloor, SentOnce, PendingProperties, RegeneratedGroup, RegeneratedRemoval, SettledStageByStage, AdjustedOnce, PendingCells, RefusedPlaces, RefusedIntervals, Overlaps, Blames, Saved, SavedAuthor, Loaded, StartedFrom, DeepCell, RemovedRow, OrdinaryViews};

/// What is shown of sequenced messages alone.
pub fn logs()
    ensures nothing { Nothing }
    ensures two_at_the_head { TwoAtTheHead }
    ensures two_at_one_place { TwoAtOnePlace }
    ensures beside_a_tombstone { BesideATombstone }
    ensures removed_by_two { RemovedByTwo }
    ensures ends_slide_back { EndsSlideBack }
    ensures ends_detach { EndsDetach }
    ensures ends_slide_on { EndsSlideOn }
    ensures ends_slide_in_a_group { EndsSlideInAGroup }
    ensures cells_by_unit { CellsByUnit }
    ensures group_at_one_place { GroupAtOnePlace }
    ensures raised_to_min { RaisedToMin }
    ensures adjusted { Adjusted }
    ensures kept_in_range { KeptInRange }
    ensures skips_one { SkipsOne }
    ensures marked_and_others { MarkedAndOthers }
    ensures only_numbers { OnlyNumbers }
{}

/// What clients show in sessions. Each shown view is also that of the agreed document with the
/// client's pending operations applied.
pub fn sessions()
    ensures past_the_pending_run { PastThePendingRun }
    ensures regenerated_beside_a_removal { RegeneratedBesideARemoval }
    ensures regenerated_interval { RegeneratedInterval }
    ensures kept_by_the_floor { KeptByTheFloor }
    ensures sent_once { SentOnce }
    ensures pending_properties { PendingProperties }
    ensures regenerated_group { RegeneratedGroup }
    ensures regenerated_removal { RegeneratedRemoval }
    ensures settled_stage_by_stage { SettledStageByStage }
    ensures adjusted_once { AdjustedOnce }
    ensures pending_cells { PendingCells }
    ensures refused_places { RefusedPlaces }
    ensures refused_intervals { RefusedIntervals }
    ensures overlaps { Overlaps }
    ensures blames { Blames }
    ensures saved { Saved }
    ensures saved_author { SavedAuthor }
    ensures loaded { Loaded }
    ensures started_from { StartedFrom }
    ensures deep_cell { DeepCell }
    ensures removed_row { RemovedRow }
    ensures ordinary { OrdinaryViews }
{}

/// What a client and the sequencer refuse.
pub fn refusals()
    ensures wrong_order { WrongOrder }
    ensures repeated { Repeated }
    ensures reference_ahead { ReferenceAhead }
    ensures minimum_back { MinimumBack }
    ensures never_sent { NeverSent }
    ensures links { Links }
    ensures nacks { Nacks }
    ensures history { History }
    ensures read_back { ReadBack }
    ensures read_back_numbers { ReadBackNumbers }
{}
