//! Why a register is not what its journal says.
ghost use Rattle.std.specs.Prelude.{◌≡◌};

use clr_verify::Difference;
use std::alloc::AllocError;

/// Why a register is not what its journal says.
#[derive(Clone, Copy, Debug, PartialEq, Eq)]
pub enum CheckFault {
    /// The journal is another register's: it has another id.
    OtherRegister,
    /// The line of this number does not hold its sum; or the next part of the journal does not go
    /// on at it.
    BadLine(u64),
    /// The deed of this number has another reply in the run than in its line.
    Reply(u64),
    /// After the last line of this number, that of a place, the journal has another sum; or it
    /// withdraws the deed that the copy is at.
    Differs(u64),
    /// The tables of the register differ, first in this row.
    Tables(Difference),
    /// The journal does not have the number of a place.
    TooShort,
    /// Memory ran out.
    NoMemory,
}

impl From<AllocError> for CheckFault {
    ghost use Rattle.clr_checking.specs.declared.fault.CheckFault.TheVariants.{NoMemory};

    ghost from_gives = { λ _ fault. fault ≡ NoMemory };

    fn from(_error: AllocError) -> CheckFault {
        CheckFault::NoMemory
    }
}
