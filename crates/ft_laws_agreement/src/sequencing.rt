//! What a client shows is what everybody will see once its pending edits are sequenced, if nobody else
//! edits before.

ghost use Rattle.ft_laws_agreement.specs.Examples.{ExampleIsReady};
ghost use Rattle.ft_laws_agreement.specs.ReadyClients.{EntriesAreCounted, EveryClientIsReady, EveryJoinChangesNothing, PendingStaysOnTop};
ghost use Rattle.ft_laws_agreement.specs.Sequencing.{PendingIsOnTop, ReadyIsOrderly};

/// A client whose document without what is pending is that of the messages which it processed shows the
/// agreed document with its regenerated operations sequenced next. Such a client is also in order for a
/// reconnection.
pub fn pending_edits()
    ensures in_order { ReadyIsOrderly }
    ensures on_top { PendingIsOnTop }
{}

/// A client that put "a" behind another's "b", removed "b", and put "x" behind "a" is such a client.
pub fn ready_client()
    ensures ready { ExampleIsReady }
{}

/// Every client is such a client, whatever steps it takes from the empty document on, own joins with
/// pending edits among them. So it shows the entries of the log which it took with its regenerated
/// operations sequenced next, and shows the same after its own join.
pub fn every_client()
    ensures ready { EveryClientIsReady }
    ensures counted { EntriesAreCounted }
    ensures on_top { PendingStaysOnTop }
    ensures joins { EveryJoinChangesNothing }
{}
