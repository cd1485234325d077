//! Why rows are no network.
ghost use Rattle.std.specs.Prelude.{◌≡◌};
ghost use Rattle.clr_net.specs.declared.net_fault.NetFault.TheVariants.{NoMemory};

use std::alloc::AllocError;
use thiserror::Error;

/// Why rows are no network. Rows count from 1, and a "twice" fault names the later row.
///
/// The first fault in the order of the variants is answered, and of the rows that have it the
/// least.
#[derive(Clone, Copy, Debug, PartialEq, Eq, Error)]
pub enum NetFault {
    /// There is no section.
    #[error("there is no section")]
    NoSections,
    /// There are more than 5,000 sections or more than 10,000 points.
    #[error("there are more than 5,000 sections or 10,000 points")]
    TooLarge,
    /// This row of the sections has the name of an earlier one.
    #[error("row {0} of the sections has the name of an earlier row")]
    SectionTwice(usize),
    /// This row of the points has the name of an earlier one.
    #[error("row {0} of the points has the name of an earlier row")]
    PointTwice(usize),
    /// This row of the points has an end that is no section.
    #[error("row {0} of the points has an end that is no section")]
    UnknownEnd(usize),
    /// This row of the points has one section at both ends.
    #[error("row {0} of the points has one section at both ends")]
    SameEnds(usize),
    /// Memory ran out.
    #[error("out of memory")]
    NoMemory,
}

impl From<AllocError> for NetFault {
    ghost from_gives = { λ _ fault. fault ≡ NoMemory };

    fn from(_error: AllocError) -> NetFault {
        NetFault::NoMemory
    }
}
