//! Why a desk is not given a journal.
ghost use Rattle.std.specs.Prelude.{◌≡◌};
ghost use Rattle.clr_level.specs.declared.fault.OpeningFault.TheVariants.{Desk};
ghost use Rattle.clr_desk.specs.declared.desk_fault.DeskFault.TheVariants.{NoMemory};

use clr_desk::DeskFault;
use std::alloc::AllocError;

/// Why a register and a journal are not opened together.
#[derive(Clone, Copy, Debug, PartialEq, Eq)]
pub enum OpeningFault {
    /// The journal goes by other rules, of this number.
    OtherRules(u64),
    /// The journal is another register's.
    OtherRegister,
    /// The journal ends before the number of the register.
    TooShort,
    /// At this number the journal has another sum than the register, or withdraws its deed; or
    /// the deed of this number was answered otherwise.
    Differs(u64),
    /// The line of this number does not hold its sum, and an accepted one comes after it.
    BadLine(u64),
    /// A deed was not carried out, or memory ran out.
    Desk(DeskFault),
}

impl From<DeskFault> for OpeningFault {
    ghost from_gives = { λ cause fault. fault ≡ Desk cause };

    fn from(cause: DeskFault) -> OpeningFault {
        OpeningFault::Desk(cause)
    }
}

impl From<AllocError> for OpeningFault {
    ghost from_gives = { λ _ fault. fault ≡ Desk NoMemory };

    fn from(_error: AllocError) -> OpeningFault {
        OpeningFault::Desk(DeskFault::NoMemory)
    }
}
