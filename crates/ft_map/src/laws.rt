//! Laws, each the contract of a function that does nothing.

ghost use Rattle.ft_map.specs.MapRows.{PendingClear, Reconnected, SentAgain, SequencedClear};
ghost use Rattle.ft_map.specs.MapViews.{IdleClientsAgree, NoDraftIsRefused, ReconnectionsChangeNothing, ViewsAreAgreedMaps};

/// Each view is the map that the messages up to the client's number make, with its pending operations put in order.
pub fn views_are_agreed_maps()
    ensures { ViewsAreAgreedMaps }
{}

/// Two clients with the same number and nothing pending show the same.
pub fn idle_clients_agree()
    ensures { IdleClientsAgree }
{
    views_are_agreed_maps();
}

/// Neither a connection, nor its loss, nor its join changes a view.
pub fn reconnections_change_nothing()
    ensures { ReconnectionsChangeNothing }
{}

/// No draft of a client is refused by the sequencer.
pub fn no_draft_is_refused()
    ensures { NoDraftIsRefused }
{}

/// Worked examples, computed by the definitions: a foreign set under an own pending clear, and a reconnection.
pub fn worked_examples()
    ensures pending_clear { PendingClear }
    ensures sequenced_clear { SequencedClear }
    ensures reconnected { Reconnected }
    ensures sent_again { SentAgain }
{}
