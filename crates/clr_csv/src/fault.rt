//! Why a file gives no rows.
ghost use Rattle.std.specs.Prelude.{◌≡◌};
ghost use Rattle.clr_csv.specs.declared.fault.CsvFault.TheVariants.{NoMemory};

use std::alloc::{AllocError, AllocFailed};
use thiserror::Error;

/// Why a file gives no rows. Rows and columns count from 1; the row under the header is row 1, and
/// an empty line is no row.
#[derive(Clone, Copy, Debug, PartialEq, Eq, Error)]
pub enum CsvFault {
    /// The reader failed.
    #[error("the file could not be read")]
    ReadFailed,
    /// The file has more bytes than the limit.
    #[error("the file has more bytes than the limit")]
    TooLong,
    /// The first record is not the header that the file is to have, or there is none.
    #[error("the file does not begin with its header")]
    Header,
    /// A field of this row is not UTF-8.
    #[error("row {0} is not UTF-8")]
    NotText(usize),
    /// This row has fewer or more fields than the header.
    #[error("row {0} has not as many fields as the header")]
    FieldCount(usize),
    /// The field of this row and column is not a name, or not a login.
    #[error("row {0}, column {1}: no name")]
    BadName(usize, usize),
    /// The field of this row and column is not a word that may be there.
    #[error("row {0}, column {1}: not a word that may stand there")]
    BadWord(usize, usize),
    /// Memory ran out.
    #[error("out of memory")]
    NoMemory,
}

impl From<AllocError> for CsvFault {
    ghost from_gives = { λ _ fault. fault ≡ NoMemory };

    fn from(_error: AllocError) -> CsvFault {
        CsvFault::NoMemory
    }
}

impl<T: Drop> From<AllocFailed<T>> for CsvFault {
    ghost from_gives = { λ _ fault. fault ≡ NoMemory };

    fn from(_error: AllocFailed<T>) -> CsvFault {
        CsvFault::NoMemory
    }
}
