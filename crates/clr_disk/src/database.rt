//! The database at a path.
ghost use Rattle.std.specs.Prelude.{◌≡◌, ◌⊎◌, IfErr, IfOk, IsTrue};
ghost use Rattle.sqlite.specs.Opening.{is_open_error};
ghost use Rattle.clr_disk.specs.Opened.{AreLetGo, IsNoFile, IsOpenedAt, IsShutAt};

use crate::create::over_files;
use crate::system::System;
use sqlite::{Connection, Error, ErrorCode, FileStore, Options};
use sqlite_disk::Files;
use sqlite_std_file::OpenError;
use std::alloc::Global;
use std::io::ErrorKind;

/// A database in its files.
pub type Database<D> = Connection<FileStore<D>>;

/// Opens the database at a path, as the kit's `Connection::open_from` does: one that is not there
/// is made, in smaller pages. What the files held is found where the disk is clean.
pub fn open_database<Y: System>(
    alloc: Global,
    system: &mut Y,
    path: &str,
) -> Result<Database<Y::Medium>, Error>
    ensures opened { IfOk result (λ connection.
        IsOpenedAt Y.has_files Y.Medium.Disk system.old path.now connection system.new) }
    ensures refused { IfErr result (λ error. IsShutAt Y.has_files Y.lacks_files Y.lets_go
        Y.lacks_seed Y.Medium.Disk system.old path.now error system.new) }
    ensures fault { IfErr result (λ error. IsTrue (is_open_error error)) }
{
    let options = options(system)?;
    let files = files_at(system, path)?;
    match over_files(alloc, files, options) {
        Ok(connection) => Ok(connection),
        Err((error, left)) => {
            let_go(system, left.into_files());
            Err(error)
        }
    }
}

/// Lets the files of a database go.
pub fn let_go<Y: System>(system: &mut Y, files: Files<Y::Medium>)
    ensures { AreLetGo Y.lets_go system.old files.log files.db system.new }
{
    let Files { log, db } = files;
    system.let_go(log);
    system.let_go(db);
}

/// How long the log grows before it is copied into the database file, in pages: 8.3 MB. A log of
/// the kit's own 1,000 pages is copied four times as often.
const LOG_PAGES: usize = 4_000;

/// How the database is kept in its pages, with a seed of its own.
fn options<Y: System>(system: &Y) -> Result<Options, Error>
    ensures fault { IfErr result (λ error. IsTrue (is_open_error error)) }
    ensures unseeded { IfErr result (λ _. Y.lacks_seed system.now) }
{
    match system.seed() {
        Ok(seed) => Ok(Options {
            checkpoint_frames: LOG_PAGES,
            ..Options::new(seed)
        }),
        Err(_) => Err(Error::SqliteFailure(ErrorCode::CannotOpen)),
    }
}

/// Opens the file at a path and its log, and makes those that are not there. A path that SQLite
/// would not take for that of a file is refused.
fn files_at<Y: System>(system: &mut Y, path: &str) -> Result<Files<Y::Medium>, Error>
    ensures log { IfOk result (λ files. IsTrue (Y.Medium.Disk.is_usable files.log)) }
    ensures db { IfOk result (λ files. IsTrue (Y.Medium.Disk.is_usable files.db)) }
    ensures has { IfOk result (λ files. Y.has_files system.old path.now files system.new) }
    ensures lacks { IfErr result (λ _. ((system.new ≡ system.old) × IsNoFile path.now)
        ⊎ Y.lacks_files system.old path.now system.new) }
    ensures fault { IfErr result (λ error. IsTrue (is_open_error error)) }
{
    if path == ":memory:" || path.starts_with("file:") {
        return Err(Error::SqliteFailure(ErrorCode::CannotOpen));
    }
    match system.files(path) {
        Ok(files) => Ok(files),
        Err(error) => Err(Error::SqliteFailure(code_of(error))),
    }
}

/// The code for an error of the files.
fn code_of(error: OpenError) -> ErrorCode
    ensures { IsTrue (is_open_error (Error.SqliteFailure result)) }
{
    match error {
        OpenError::OutOfMemory => ErrorCode::OutOfMemory,
        OpenError::Io(error) if error.kind() == ErrorKind::OutOfMemory => ErrorCode::OutOfMemory,
        OpenError::Busy => ErrorCode::DatabaseBusy,
        _ => ErrorCode::CannotOpen,
    }
}
