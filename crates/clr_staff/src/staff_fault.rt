//! Why rows are no staff.
ghost use Rattle.std.specs.Prelude.{◌≡◌};
ghost use Rattle.clr_staff.specs.declared.staff_fault.StaffFault.TheVariants.{NoMemory};

use std::alloc::AllocError;
use thiserror::Error;

/// Why rows are no staff. Rows count from 1, and `Twice` names the later row.
///
/// The first fault in the order of the variants is answered, and of the rows that have it the
/// least.
#[derive(Clone, Copy, Debug, PartialEq, Eq, Error)]
pub enum StaffFault {
    /// This row has the name of an earlier one.
    #[error("row {0} of the staff has the name of an earlier row")]
    Twice(usize),
    /// This row has a supervisor who is not among the staff.
    #[error("row {0} of the staff has a supervisor who is none of the staff")]
    UnknownSupervisor(usize),
    /// This row has its own name as its supervisor.
    #[error("row {0} of the staff is its own supervisor")]
    OwnSupervisor(usize),
    /// There are more than 2,000 rows.
    #[error("there are more than 2,000 rows of the staff")]
    TooMany,
    /// Memory ran out.
    #[error("out of memory")]
    NoMemory,
}

impl From<AllocError> for StaffFault {
    ghost from_gives = { λ _ fault. fault ≡ NoMemory };

    fn from(_error: AllocError) -> StaffFault {
        StaffFault::NoMemory
    }
}
