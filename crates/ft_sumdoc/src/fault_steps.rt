//! The faults of texts, values and fields, as faults of a summary.

use crate::summary::{SumCause, SumFault};
use ft_base::OutOfMemory;
use ft_json::{FieldFault, JsonFault};

impl From<OutOfMemory> for SumFault {
    ghost use Rattle.std.specs.Prelude.{◌≡◌};
    ghost use Rattle.ft_sumdoc.specs.declared.summary.SumFault.TheVariants.{OutOfMemory as WantOfMemory};

    ghost from_gives = { λ _ fault. fault ≡ WantOfMemory };

    fn from(_error: OutOfMemory) -> SumFault {
        SumFault::OutOfMemory
    }
}

impl From<JsonFault> for SumFault {
    ghost use Rattle.std.specs.Prelude.{◌≡◌};
    ghost use Rattle.ft_sumdoc.specs.Faults.{fault_of_json};

    ghost from_gives = { λ fault made. made ≡ fault_of_json fault };

    fn from(fault: JsonFault) -> SumFault {
        match fault {
            JsonFault::NotUtf8 => SumFault::Malformed(SumCause::NotUtf8),
            JsonFault::NotJson => SumFault::Malformed(SumCause::NotJson),
            JsonFault::Fraction => SumFault::Malformed(SumCause::Fraction),
            JsonFault::TooDeep => SumFault::Malformed(SumCause::TooDeep),
            JsonFault::OutOfMemory => SumFault::OutOfMemory,
        }
    }
}

impl From<FieldFault> for SumFault {
    ghost use Rattle.std.specs.Prelude.{◌≡◌};
    ghost use Rattle.ft_sumdoc.specs.Faults.{fault_of_field};

    ghost from_gives = { λ fault made. made ≡ fault_of_field fault };

    fn from(fault: FieldFault) -> SumFault {
        match fault {
            FieldFault::Missing(field) => SumFault::Malformed(SumCause::Missing(field)),
            FieldFault::WrongKind(field) => SumFault::Malformed(SumCause::WrongKind(field)),
            FieldFault::OutOfMemory => SumFault::OutOfMemory,
        }
    }
}
