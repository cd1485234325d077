//! Why a journal was not opened, or not begun.
ghost use Rattle.std.specs.Prelude.{◌≡◌};
ghost use Rattle.clr_chain.specs.Faults.{of_opening};

use clr_journal::OpenFault;
use thiserror::Error;

/// Why the journal of a register was not opened.
#[derive(Clone, Copy, Debug, PartialEq, Eq, Error)]
pub enum ChainFault {
    /// The disk failed.
    #[error("the journal was not opened")]
    OpenFailed,
    /// Memory ran out.
    #[error("out of memory")]
    NoMemory,
    /// The journal goes by other rules, of this number.
    #[error("the journal goes by rules {0}")]
    OtherRules(u64),
    /// The journal is another register's: it has another id.
    #[error("the journal is another register's")]
    OtherRegister,
    /// The journal ends before the register's number.
    #[error("the journal is too short")]
    TooShort,
    /// At this number, the register's, the journal has another sum, or withdraws the deed.
    #[error("the journal differs at {0}")]
    Differs(u64),
    /// The line of this number does not hold its sum, and an accepted one comes after it.
    #[error("line {0} of the journal is bad")]
    BadLine(u64),
}

impl From<OpenFault> for ChainFault {
    ghost from_gives = { λ cause fault. fault ≡ of_opening cause };

    fn from(cause: OpenFault) -> ChainFault {
        match cause {
            OpenFault::OpenFailed => ChainFault::OpenFailed,
            OpenFault::NoMemory => ChainFault::NoMemory,
        }
    }
}

/// Why a journal was not begun.
#[derive(Clone, Copy, Debug, PartialEq, Eq, Error)]
pub enum NewFault {
    /// The disk holds bytes already.
    #[error("the journal has bytes already")]
    HasBytes,
    /// The disk failed. Of the first line a part may have been written.
    #[error("the journal was not written")]
    WriteFailed,
    /// The first line would have more than 4,096 bytes.
    #[error("the journal's id is too long")]
    TooLong,
    /// Memory ran out.
    #[error("out of memory")]
    NoMemory,
}
