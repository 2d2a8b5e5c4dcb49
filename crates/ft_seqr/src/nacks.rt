//! What the sequencer refuses.

ghost use Rattle.std.specs.Prelude.{◌++◌, codes, decimal};
ghost use Rattle.std.specs.Fmt.{WritesOnOk};

use ft_base::OutOfMemory;
use std::error::Error;
use std::fmt;

// Writes two numbers behind these words, the one that was to be and the one that came.
pub(crate) fn write_numbers<W: fmt::Write>(
    f: &mut fmt::Formatter<W>,
    words: &str,
    number: u64,
    got: u64,
) -> fmt::Result
    ensures { WritesOnOk W.write_str_gives f.old result (words.now ++ (decimal number ++ (codes " got " ++ decimal got))) f.new }
{
    write!(f, "{words}{number} got {got}")
}

/// Why a draft is refused: the first of these that holds.
#[derive(Clone, Copy, Debug, PartialEq, Eq)]
pub enum Nack {
    /// The connection isn't joined.
    NotJoined,
    /// The draft isn't the next of its connection.
    ClientSeq { expected: u64, got: u64 },
    /// Its reference number is below the minimum sequence number.
    RefBelow { min: u64, got: u64 },
    /// Its reference number is below that of the connection's last message.
    RefBack { last: u64, got: u64 },
    /// Its reference number is above the newest sequence number.
    RefAhead { seq: u64, got: u64 },
}

impl fmt::Display for Nack {
    ghost use Rattle.std.specs.Prelude.{Some};
    ghost use Rattle.ft_seqr.specs.Refusals.{nack_text};

    ghost output = { λ nack. Some (nack_text nack) };

    fn fmt<W: fmt::Write>(&self, f: &mut fmt::Formatter<W>) -> fmt::Result {
        match *self {
            Nack::NotJoined => f.write_str("NotJoined"),
            Nack::ClientSeq { expected, got } => {
                write_numbers(f, "ClientSeq expected ", expected, got)
            }
            Nack::RefBelow { min, got } => write_numbers(f, "RefBelow min ", min, got),
            Nack::RefBack { last, got } => write_numbers(f, "RefBack last ", last, got),
            Nack::RefAhead { seq, got } => write_numbers(f, "RefAhead seq ", seq, got),
        }
    }
}

impl Error for Nack {}

/// Why a connection can't leave.
#[derive(Clone, Copy, Debug, PartialEq, Eq)]
pub enum LeaveFault {
    /// It isn't joined.
    NotJoined,
    /// There was no memory.
    OutOfMemory,
}

impl fmt::Display for LeaveFault {
    ghost use Rattle.std.specs.Prelude.{Some};
    ghost use Rattle.ft_seqr.specs.Refusals.{leave_fault_text};

    ghost output = { λ fault. Some (leave_fault_text fault) };

    fn fmt<W: fmt::Write>(&self, f: &mut fmt::Formatter<W>) -> fmt::Result {
        match *self {
            LeaveFault::NotJoined => f.write_str("NotJoined"),
            LeaveFault::OutOfMemory => f.write_str("OutOfMemory"),
        }
    }
}

impl Error for LeaveFault {}

impl From<OutOfMemory> for LeaveFault {
    ghost use Rattle.std.specs.Prelude.{◌≡◌};
    ghost use Rattle.ft_seqr.specs.declared.nacks.LeaveFault.TheVariants.{OutOfMemory as WantOfMemory};

    ghost from_gives = { λ _ fault. fault ≡ WantOfMemory };

    fn from(_error: OutOfMemory) -> LeaveFault {
        LeaveFault::OutOfMemory
    }
}

/// Why a draft isn't sequenced.
#[derive(Clone, Copy, Debug, PartialEq, Eq)]
pub enum SubmitFault {
    /// It is refused.
    Nack(Nack),
    /// There was no memory.
    OutOfMemory,
}

impl fmt::Display for SubmitFault {
    ghost use Rattle.std.specs.Prelude.{Some};
    ghost use Rattle.ft_seqr.specs.Refusals.{submit_fault_text};

    ghost output = { λ fault. Some (submit_fault_text fault) };

    fn fmt<W: fmt::Write>(&self, f: &mut fmt::Formatter<W>) -> fmt::Result {
        match *self {
            SubmitFault::Nack(nack) => fmt::Display::fmt(&nack, f),
            SubmitFault::OutOfMemory => f.write_str("OutOfMemory"),
        }
    }
}

impl Error for SubmitFault {}

impl From<OutOfMemory> for SubmitFault {
    ghost use Rattle.std.specs.Prelude.{◌≡◌};
    ghost use Rattle.ft_seqr.specs.declared.nacks.SubmitFault.TheVariants.{OutOfMemory as WantOfMemory};

    ghost from_gives = { λ _ fault. fault ≡ WantOfMemory };

    fn from(_error: OutOfMemory) -> SubmitFault {
        SubmitFault::OutOfMemory
    }
}
