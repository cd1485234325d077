//! Why the desk did not carry out a command, or was not opened.
ghost use Rattle.std.specs.Prelude.{◌≡◌};
ghost use Rattle.clr_desk.specs.Faults.{of_store};
ghost use Rattle.clr_desk.specs.declared.desk_fault.DeskFault.TheVariants.{NoMemory};

use clr_load::StoreFault;
use std::alloc::{AllocError, AllocFailed};

/// Why the desk did not carry out a command, or was not opened.
#[derive(Clone, Copy, Debug, PartialEq, Eq)]
pub enum DeskFault {
    /// The store answered this fault, which is never `NoMemory`.
    Store(StoreFault),
    /// The journal was not written.
    Journal,
    /// Memory ran out.
    NoMemory,
}

impl From<AllocError> for DeskFault {
    ghost from_gives = { λ _ fault. fault ≡ NoMemory };

    fn from(_error: AllocError) -> DeskFault {
        DeskFault::NoMemory
    }
}

impl<T: Drop> From<AllocFailed<T>> for DeskFault {
    ghost from_gives = { λ _ fault. fault ≡ NoMemory };

    fn from(_error: AllocFailed<T>) -> DeskFault {
        DeskFault::NoMemory
    }
}

impl From<StoreFault> for DeskFault {
    ghost from_gives = { λ cause fault. fault ≡ of_store cause };

    fn from(cause: StoreFault) -> DeskFault {
        match cause {
            StoreFault::NoMemory => DeskFault::NoMemory,
            _ => DeskFault::Store(cause),
        }
    }
}
