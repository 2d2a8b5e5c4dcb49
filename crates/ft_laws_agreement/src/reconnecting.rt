//! A client that comes back under a new connection shows what it showed before, and sends its pending
//! edits again as operations on what it sees now.

ghost use Rattle.ft_laws_agreement.specs.Reconnecting.{JoinChangesNothing, JoinSendsAgain};

/// A client whose pending elements are in place shows the same after its own join, and its queue has
/// its regenerated operations, in order, with client sequence numbers from 1.
pub fn own_join()
    ensures changes_nothing { JoinChangesNothing }
    ensures sends_again { JoinSendsAgain }
{}
