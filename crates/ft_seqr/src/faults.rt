//! Faults of calls as refusals of the events that made them.

use crate::nacks::{LeaveFault, SubmitFault};
use crate::refusals::Refusal;
use ft_base::OutOfMemory;
use ft_msg::{Cause, EditFault, LinkFault, SummaryFault, ViewFault};

impl From<OutOfMemory> for Refusal {
    ghost use Rattle.std.specs.Prelude.{◌≡◌};
    ghost use Rattle.ft_seqr.specs.declared.refusals.Refusal.TheVariants.{OutOfMemory as WantOfMemory};

    ghost from_gives = { λ fault refusal. refusal ≡ WantOfMemory };

    fn from(_: OutOfMemory) -> Refusal {
        Refusal::OutOfMemory
    }
}

impl From<Cause> for Refusal {
    ghost use Rattle.std.specs.Prelude.{◌≡◌};
    ghost use Rattle.ft_seqr.specs.Refusals.{refusal_of_reading};

    ghost from_gives = { λ cause refusal. refusal ≡ refusal_of_reading cause };

    fn from(cause: Cause) -> Refusal {
        match cause {
            Cause::OutOfMemory => Refusal::OutOfMemory,
            cause => Refusal::of_cause(cause),
        }
    }
}

impl From<EditFault> for Refusal {
    ghost use Rattle.std.specs.Prelude.{◌≡◌};
    ghost use Rattle.ft_seqr.specs.Refusals.{refusal_of_edit};

    ghost from_gives = { λ fault refusal. refusal ≡ refusal_of_edit fault };

    fn from(fault: EditFault) -> Refusal {
        match fault {
            EditFault::OutOfMemory => Refusal::OutOfMemory,
            EditFault::Stopped { .. } => Refusal::Stopped,
            EditFault::IdInUse => Refusal::IdInUse,
            EditFault::NoSuchInterval => Refusal::NoSuchInterval,
            EditFault::OutOfRange { length } => Refusal::OutOfRange { length },
        }
    }
}

impl From<LinkFault> for Refusal {
    ghost use Rattle.std.specs.Prelude.{◌≡◌};
    ghost use Rattle.ft_seqr.specs.Refusals.{refusal_of_link};

    ghost from_gives = { λ fault refusal. refusal ≡ refusal_of_link fault };

    fn from(fault: LinkFault) -> Refusal {
        match fault {
            LinkFault::AlreadyConnected => Refusal::AlreadyConnected,
            LinkFault::NotConnected => Refusal::NotConnected,
            LinkFault::OutOfMemory => Refusal::OutOfMemory,
            LinkFault::Stopped { .. } => Refusal::Stopped,
        }
    }
}

impl From<ViewFault> for Refusal {
    ghost use Rattle.std.specs.Prelude.{◌≡◌};
    ghost use Rattle.ft_seqr.specs.Refusals.{refusal_of_view};

    ghost from_gives = { λ fault refusal. refusal ≡ refusal_of_view fault };

    fn from(fault: ViewFault) -> Refusal {
        match fault {
            ViewFault::OutOfMemory => Refusal::OutOfMemory,
            ViewFault::Stopped { .. } => Refusal::Stopped,
        }
    }
}

impl From<SummaryFault> for Refusal {
    ghost use Rattle.std.specs.Prelude.{◌≡◌};
    ghost use Rattle.ft_seqr.specs.Refusals.{refusal_of_summary};

    ghost from_gives = { λ fault refusal. refusal ≡ refusal_of_summary fault };

    fn from(fault: SummaryFault) -> Refusal {
        match fault {
            SummaryFault::OutOfMemory => Refusal::OutOfMemory,
            SummaryFault::Stopped { .. } => Refusal::Stopped,
            SummaryFault::Pending { count } => Refusal::Pending { count },
        }
    }
}

impl From<LeaveFault> for Refusal {
    ghost use Rattle.std.specs.Prelude.{◌≡◌};
    ghost use Rattle.ft_seqr.specs.Refusals.{refusal_of_leaving};

    ghost from_gives = { λ fault refusal. refusal ≡ refusal_of_leaving fault };

    fn from(fault: LeaveFault) -> Refusal {
        match fault {
            LeaveFault::NotJoined => Refusal::NotConnected,
            LeaveFault::OutOfMemory => Refusal::OutOfMemory,
        }
    }
}

impl From<SubmitFault> for Refusal {
    ghost use Rattle.std.specs.Prelude.{◌≡◌};
    ghost use Rattle.ft_seqr.specs.Refusals.{refusal_of_submission};

    ghost from_gives = { λ fault refusal. refusal ≡ refusal_of_submission fault };

    fn from(fault: SubmitFault) -> Refusal {
        match fault {
            SubmitFault::Nack(nack) => Refusal::Nacked(nack),
            SubmitFault::OutOfMemory => Refusal::OutOfMemory,
        }
    }
}
