//! Why the store did not do what it was asked.
ghost use Rattle.std.specs.Prelude.{◌≡◌};
ghost use Rattle.clr_load.specs.Cause.{fault_of};
ghost use Rattle.clr_load.specs.declared.fault.StoreFault.TheVariants.{BadRow, NoMemory};

use crate::TableName;
use sqlite::{Error, ErrorCode};
use std::alloc::{AllocError, AllocFailed};

/// Why the store did not do what it was asked.
#[derive(Clone, Copy, Debug, PartialEq, Eq)]
pub enum StoreFault {
    /// The database refused or failed.
    Sql,
    /// The tables are of this version, which is not the one that is read.
    WrongVersion(i64),
    /// A row of the table reads no value of its type.
    BadRow(TableName),
    /// The tables are not those of a register: there is another table, index, view or trigger, one
    /// is missing or is of another form, `meta` has another row, `journal` has not one row, or
    /// `point` has rows beside `network_point`.
    OtherTables,
    /// Memory ran out.
    NoMemory,
}

impl From<Error> for StoreFault {
    ghost from_gives = { λ error fault. fault ≡ fault_of error };

    fn from(error: Error) -> StoreFault {
        match error {
            Error::SqliteFailure(ErrorCode::OutOfMemory) => StoreFault::NoMemory,
            _ => StoreFault::Sql,
        }
    }
}

impl From<TableName> for StoreFault {
    ghost from_gives = { λ table fault. fault ≡ BadRow table };

    fn from(table: TableName) -> StoreFault {
        StoreFault::BadRow(table)
    }
}

impl From<AllocError> for StoreFault {
    ghost from_gives = { λ _ fault. fault ≡ NoMemory };

    fn from(_error: AllocError) -> StoreFault {
        StoreFault::NoMemory
    }
}

impl<T: Drop> From<AllocFailed<T>> for StoreFault {
    ghost from_gives = { λ _ fault. fault ≡ NoMemory };

    fn from(_error: AllocFailed<T>) -> StoreFault {
        StoreFault::NoMemory
    }
}
