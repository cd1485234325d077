//! A database that is made in files that have none, in small pages.
ghost use Rattle.std.specs.Prelude.{◌≡◌, ◌↔◌, ◌≤◌, ◌⊎◌, [], IfErr, IfOk, IsTrue, false, ⊤};
ghost use Rattle.sqlite.specs.Files.{FailsToOpenFiles, IsCleanLeft, IsTooLong, LeavesFiles};
ghost use Rattle.sqlite.specs.Files.{faults_of, image_of, tally_left};
ghost use Rattle.sqlite.specs.Opening.{FailsFor, FailsToMake, IsMade, blurred, is_open_error};
ghost use Rattle.sqlite.specs.Opening.{probed, renamed, reported};
ghost use Rattle.sqlite.specs.State.{store_error};
ghost use Rattle.sqlite_pool.specs.Stored.{used_size};
ghost use Rattle.sqlite_store.specs.FileStore.{is_shielded, view};
ghost use Rattle.sqlite_store.specs.Report.{named};
ghost use Rattle.sqlite_store.specs.Unopened.{AreUsable, Creates, files_of, state_of, wanted_by};
ghost use Rattle.sqlite_wal.specs.PageSize.{bytes_of};
ghost use Rattle.sqlite_wal.specs.Reads.{AreClean, OnlyReads, tally_of_files};
ghost use Rattle.clr_disk.specs.Opened.{FailsWith, IsEmptyOver, IsOpenedOver, IsUnharmed, IsUnmade};
ghost use Rattle.clr_disk.specs.Opened.{LeavesNone};

use crate::database::Database;
use sqlite::{Connection, Error, ErrorCode, FileStore, Leftover, Options};
use sqlite_disk::{Disk, Files, Tally};
use sqlite_pager::Pager;
use sqlite_pool::probe_blank;
use sqlite_store::{OpenError, Unopened, name_fault};
use sqlite_trees::error::StoreError;
use sqlite_wal::PageSize;
use std::alloc::{AllocFailed, Global};

/// The bytes of a page of a new database. A commit writes each page that it changes whole: with the
/// kit's 4,096 bytes a command takes half as long again.
const PAGE_BYTES: usize = 2_048;

const NO_MEMORY: Error = Error::SqliteFailure(ErrorCode::OutOfMemory);

const IO: Error = Error::SqliteFailure(ErrorCode::SystemIoFailure);

/// The error for a store that could not be made.
fn refusal(error: OpenError) -> Error
    ensures named { IsTrue (is_open_error result) }
    ensures value { result ≡ reported error }
{
    Error::SqliteFailure(match error {
        OpenError::OutOfMemory => ErrorCode::OutOfMemory,
        OpenError::Io => ErrorCode::SystemIoFailure,
        OpenError::Full => ErrorCode::DiskFull,
        OpenError::Refused => ErrorCode::DatabaseCorrupt,
    })
}

/// The error for files that could not be read.
fn unread(error: sqlite_wal::Error) -> Error
    ensures named { IsTrue (is_open_error result) }
    ensures value { result ≡ probed error }
{
    Error::SqliteFailure(match error {
        sqlite_wal::Error::OutOfMemory => ErrorCode::OutOfMemory,
        sqlite_wal::Error::Io(_) => ErrorCode::SystemIoFailure,
        sqlite_wal::Error::Full => ErrorCode::DiskFull,
        _ => ErrorCode::NotADatabase,
    })
}

/// The error for a failure of the disk that has a name.
fn failure(kind: StoreError) -> Error
    ensures named { IsTrue (is_open_error result) }
    ensures value { result ≡ store_error kind }
{
    Error::SqliteFailure(match kind {
        StoreError::OutOfMemory => ErrorCode::OutOfMemory,
        StoreError::Io => ErrorCode::SystemIoFailure,
        StoreError::Corrupt => ErrorCode::DatabaseCorrupt,
        StoreError::Full => ErrorCode::DiskFull,
        StoreError::Broken => ErrorCode::Closed,
        StoreError::Unstorable => ErrorCode::TooBig,
    })
}

/// The error of a new connection, where each failure of the disk is one.
fn unnamed(error: Error) -> Error
    ensures named { IsTrue (is_open_error error) → IsTrue (is_open_error result) }
    ensures value { result ≡ blurred error }
{
    match error {
        Error::SqliteFailure(ErrorCode::DatabaseCorrupt | ErrorCode::DiskFull) => IO,
        other => other,
    }
}

/// The error where a failure of the disk has its name.
fn by_name(kind: StoreError, error: Error) -> Error
    ensures named { IsTrue (is_open_error error) → IsTrue (is_open_error result) }
    ensures value { result ≡ renamed kind error }
{
    match error {
        Error::SqliteFailure(ErrorCode::SystemIoFailure) => failure(kind),
        other => other,
    }
}

/// What the files have met.
fn tally_of<D: Disk>(left: &Leftover<D>) -> Tally
    ensures { result ≡ tally_left left.now }
{
    match left {
        Leftover::Files(files) => files.tally(),
        Leftover::Unopened(files) => files.tally(),
        Leftover::Store(store) => store.tally(),
    }
}

/// Whether files have no database yet. Nothing is written.
fn is_unmade<D: Disk>(alloc: Global, files: &mut Files<D>, size: PageSize) -> Result<bool, Error>
    requires log { IsTrue (D.Disk.is_usable files.old.log) }
    requires db { IsTrue (D.Disk.is_usable files.old.db) }
    requires size { bytes_of size ≡ 2048 }
    ensures named { IfErr result (λ e. IsTrue (is_open_error e)) }
    ensures ok { IfOk result (λ b. AreClean D.Disk files.new.log files.new.db
        → (IsTrue b ↔ IsUnmade (image_of D.Disk files.old))) }
    ensures cause { IfErr result (λ e. AreClean D.Disk files.new.log files.new.db
        → FailsFor (faults_of D.Disk files.old) (faults_of D.Disk files.new)
        (IsTooLong (image_of D.Disk files.old)) ⊤ e) }
    ensures log { OnlyReads D.Disk files.old.log files.new.log }
    ensures db { OnlyReads D.Disk files.old.db files.new.db }
{
    match probe_blank(alloc, files, size, false) {
        Ok(is_blank) => Ok(is_blank),
        Err(error) => Err(unread(error)),
    }
}

/// Files of which nothing is known yet, for a database of no tables.
fn unopened<D: Disk>(
    alloc: Global,
    files: Files<D>,
    size: PageSize,
    options: Options,
) -> Result<Unopened<D>, Files<D>>
    ensures back { IfErr result (λ left. (left.log ≡ files.log) × (left.db ≡ files.db)) }
    ensures files { IfOk result (λ it. files_of it ≡ (files.log, files.db)) }
    ensures size { IfOk result (λ it. (state_of it).page_size ≡ used_size (bytes_of size) false) }
    ensures none { IfOk result (λ it. wanted_by it ≡ []) }
{
    let pager = match Pager::new(alloc, files, size, options) {
        Ok(pager) => pager,
        Err(AllocFailed { value }) => return Err(value),
    };
    match Unopened::with_sums(alloc, pager, &[], false) {
        Ok(fresh) => Ok(fresh),
        Err(AllocFailed { value }) => Err(value.close()),
    }
}

/// Makes the first page.
fn begin<D: Disk>(files: Unopened<D>) -> Result<FileStore<D>, (Error, Unopened<D>)>
    requires usable { AreUsable files }
    requires none { wanted_by files ≡ [] }
    ensures named { IfErr result (λ e. IsTrue (is_open_error e.0)) }
    ensures honest { IfOk result (λ store. IsTrue (view store).is_clean
        → IsTrue (state_of files).is_clean) }
    ensures falls { IfErr result (λ e. IsTrue (state_of e.1).is_clean
        → IsTrue (state_of files).is_clean) }
    ensures guarded { IfOk result (λ store. IsTrue (view store).is_clean → is_shielded store) }
    ensures ok { IfOk result (λ store. IsTrue (view store).is_clean → IsMade files store) }
    ensures cause { IfErr result (λ e. IsTrue (state_of e.1).is_clean
        → FailsToMake files e.1 e.0) }
    ensures counts { IfErr result (λ e. IsTrue (state_of e.1).is_clean
        → (state_of files).faults ≤ (state_of e.1).faults) }
    ensures kept { IfErr result (λ e. IsTrue (state_of e.1).is_clean
        → Creates files (state_of e.1)) }
{
    match files.create() {
        Ok(store) => Ok(store),
        Err((error, left)) => Err((refusal(error), left)),
    }
}

/// A new store in files that have none.
fn new_store<D: Disk>(
    alloc: Global,
    files: Files<D>,
    size: PageSize,
    options: Options,
) -> Result<FileStore<D>, (Error, Leftover<D>)>
    requires log { IsTrue (D.Disk.is_usable files.log) }
    requires db { IsTrue (D.Disk.is_usable files.db) }
    requires size { bytes_of size ≡ 2048 }
    requires unmade { AreClean D.Disk files.log files.db → IsUnmade (image_of D.Disk files) }
    ensures named { IfErr result (λ e. IsTrue (is_open_error e.0)) }
    ensures guarded { IfOk result (λ store. IsTrue (view store).is_clean → is_shielded store) }
    ensures ok { IfOk result (λ store. IsTrue (view store).is_clean → IsEmptyOver files store) }
    ensures cause { IfErr result (λ e. IsCleanLeft e.1 → FailsWith StoreError.Io files e.1 e.0) }
    ensures unharmed { IfErr result (λ e. IsCleanLeft e.1 → LeavesFiles files e.1
        ⊎ LeavesNone files e.1) }
{
    let fresh = match unopened(alloc, files, size, options) {
        Ok(fresh) => fresh,
        Err(left) => return Err((NO_MEMORY, Leftover::Files(left))),
    };
    match begin(fresh) {
        Ok(store) => Ok(store),
        Err((error, left)) => Err((error, Leftover::Unopened(left))),
    }
}

/// A connection to it, where each failure of the disk is one error.
fn connect<D: Disk + Drop>(
    alloc: Global,
    files: Files<D>,
    size: PageSize,
    options: Options,
) -> Result<Database<D>, (Error, Leftover<D>)>
    requires log { IsTrue (D.Disk.is_usable files.log) }
    requires db { IsTrue (D.Disk.is_usable files.db) }
    requires size { bytes_of size ≡ 2048 }
    requires unmade { AreClean D.Disk files.log files.db → IsUnmade (image_of D.Disk files) }
    ensures named { IfErr result (λ e. IsTrue (is_open_error e.0)) }
    ensures over { IfOk result (λ c. IsOpenedOver (image_of D.Disk files) c) }
    ensures cause { IfErr result (λ e. IsCleanLeft e.1 → FailsWith StoreError.Io files e.1 e.0) }
    ensures unharmed { IfErr result (λ e. IsCleanLeft e.1 → LeavesFiles files e.1
        ⊎ LeavesNone files e.1) }
{
    let store = new_store(alloc, files, size, options)?;
    match Connection::over(alloc, store) {
        Ok(conn) => Ok(conn),
        Err((error, store)) => Err((unnamed(error), Leftover::Store(store))),
    }
}

/// Makes a database in files that have none.
fn make<D: Disk + Drop>(
    alloc: Global,
    files: Files<D>,
    size: PageSize,
    options: Options,
) -> Result<Database<D>, (Error, Leftover<D>)>
    requires log { IsTrue (D.Disk.is_usable files.log) }
    requires db { IsTrue (D.Disk.is_usable files.db) }
    requires size { bytes_of size ≡ 2048 }
    requires unmade { AreClean D.Disk files.log files.db → IsUnmade (image_of D.Disk files) }
    ensures fault { IfErr result (λ e. IsTrue (is_open_error e.0)) }
    ensures over { IfOk result (λ c. IsOpenedOver (image_of D.Disk files) c) }
    ensures cause { IfErr result (λ e. IsCleanLeft e.1 → FailsWith
        (named (tally_of_files D.Disk (files.log, files.db)) (tally_left e.1)) files e.1 e.0) }
    ensures unharmed { IfErr result (λ e. IsCleanLeft e.1 → LeavesFiles files e.1
        ⊎ LeavesNone files e.1) }
{
    let before = files.tally();
    match connect(alloc, files, size, options) {
        Ok(conn) => Ok(conn),
        Err((error, left)) => {
            let kind = name_fault(before, tally_of(&left));
            Err((by_name(kind, error), left))
        }
    }
}

/// Opens what the files hold.
fn open_held<D: Disk + Drop>(
    alloc: Global,
    files: Files<D>,
    options: Options,
) -> Result<Database<D>, (Error, Leftover<D>)>
    requires log { IsTrue (D.Disk.is_usable files.log) }
    requires db { IsTrue (D.Disk.is_usable files.db) }
    ensures fault { IfErr result (λ e. IsTrue (is_open_error e.0)) }
    ensures over { IfOk result (λ c. IsOpenedOver (image_of D.Disk files) c) }
    ensures cause { IfErr result (λ e. IsCleanLeft e.1 → FailsToOpenFiles files e.1 e.0) }
    ensures unharmed { IfErr result (λ e. IsCleanLeft e.1 → LeavesFiles files e.1) }
{
    match Connection::open_files(alloc, files, options) {
        Ok(conn) => Ok(conn),
        Err((error, left)) => Err((error, left)),
    }
}

/// Opens the database in its files, or makes it where they have none. Or it gives back what is left
/// of the files.
pub(crate) fn over_files<D: Disk + Drop>(
    alloc: Global,
    mut files: Files<D>,
    options: Options,
) -> Result<Database<D>, (Error, Leftover<D>)>
    requires log { IsTrue (D.Disk.is_usable files.log) }
    requires db { IsTrue (D.Disk.is_usable files.db) }
    ensures over { IfOk result (λ connection. IsOpenedOver (image_of D.Disk files) connection) }
    ensures unharmed { IfErr result (λ back. IsUnharmed files back.1 back.0) }
    ensures fault { IfErr result (λ back. IsTrue (is_open_error back.0)) }
{
    let before = files.tally();
    let size = PageSize::new(PAGE_BYTES).unwrap();
    match is_unmade(alloc, &mut files, size) {
        Ok(true) => make(alloc, files, size, options),
        Ok(false) => open_held(alloc, files, options),
        Err(error) => {
            let kind = name_fault(before, files.tally());
            Err((by_name(kind, error), Leftover::Files(files)))
        }
    }
}
