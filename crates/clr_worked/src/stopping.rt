//! A log and a database file in memory, of which one stops after n calls.
use clr_load::StoreFault;
use sqlite::{Alter, Connection, FileStore, Files, Options};
use sqlite_disk::{Crash, Disk, Fuse, Memory};
use std::alloc::{AllocError, Global};
use std::test::Fail;

/// A file in memory that passes n calls on, and then fails each.
type Fused = Fuse<Memory>;

/// The bytes of a log and of its database file.
#[derive(Drop)]
pub struct Held {
    pub log: Vec<u8>,
    pub db: Vec<u8>,
}

impl Held {
    /// Two files without a byte.
    pub fn nothing(alloc: Global) -> Held {
        Held {
            log: Vec::new(alloc),
            db: Vec::new(alloc),
        }
    }
}

/// Which of the two files stops.
#[derive(Clone, Copy, Debug)]
pub enum Part {
    Log,
    Db,
}

/// What a file holds as it stops.
#[derive(PartialEq, Drop)]
pub struct Left {
    /// What a read would give, as it stays where the process is killed.
    pub seen: Vec<u8>,
    /// What was synced, as it stays where the machine loses all else.
    pub synced: Vec<u8>,
}

/// A file that holds these bytes, and stops after n calls.
fn fused(alloc: Global, bytes: &[u8], calls: u64) -> Result<Fused, Fail> {
    let mut memory = Memory::new(alloc);
    memory.write_at(0, bytes)?;
    memory.sync()?;
    Ok(Fuse::new(memory, calls))
}

/// What both files hold after some work on them.
#[derive(PartialEq, Drop)]
pub struct Behind {
    pub log: Left,
    pub db: Left,
    /// Whether each file passes one call more.
    pub is_whole: bool,
}

impl Behind {
    /// What a read of the files would give.
    pub fn seen(self) -> Held {
        let Behind { log, db, .. } = self;
        Held {
            log: log.seen,
            db: db.seen,
        }
    }

    /// What was synced of them.
    pub fn synced(self) -> Held {
        let Behind { log, db, .. } = self;
        Held {
            log: log.synced,
            db: db.synced,
        }
    }
}

/// Work over a connection. It is stated for any store: what a check makes of a database of two
/// files is made once, in `over_files`.
pub trait Work {
    type Outcome: Drop;

    fn go<S: Alter + Drop>(self, connection: Connection<S>) -> (Self::Outcome, Connection<S>);
}

/// Does some work over the database of two files, of which one stops after n calls, where a
/// connection can be opened. Where none stops it can be, but for refused memory, which ends the
/// test: a file in memory that is refused a growth fails as a disk does, so that the fault is
/// `Sql`.
pub fn over_files<W: Work + Drop>(
    alloc: Global,
    held: &Held,
    part: Part,
    calls: u64,
    work: W,
) -> Result<(Result<W::Outcome, StoreFault>, Behind), Fail> {
    let files = files_of(alloc, held, part, calls)?;
    let (outcome, files) = in_files(alloc, files, work);
    let behind = left_behind(alloc, files)?;
    if outcome.is_err() && calls == u64::MAX {
        return Err(AllocError.into());
    }
    Ok((outcome, behind))
}

/// Does some work over the database of two files, where a connection can be opened.
fn in_files<D: Disk + Drop, W: Work + Drop>(
    alloc: Global,
    files: Files<D>,
    work: W,
) -> (Result<W::Outcome, StoreFault>, Files<D>) {
    match connect(alloc, files) {
        Ok(connection) => {
            let (outcome, connection) = work.go(connection);
            (Ok(outcome), close(connection))
        }
        Err((fault, files)) => (Err(fault), files),
    }
}

/// Both files, of which one stops after n calls.
fn files_of(alloc: Global, held: &Held, part: Part, calls: u64) -> Result<Files<Fused>, Fail> {
    let (log_calls, db_calls) = match part {
        Part::Log => (calls, u64::MAX),
        Part::Db => (u64::MAX, calls),
    };
    let log = fused(alloc, held.log.as_slice(), log_calls)?;
    let db = fused(alloc, held.db.as_slice(), db_calls)?;
    Ok(Files { log, db })
}

/// Opens the database of two files, or hands the files back with the fault.
fn connect<D: Disk + Drop>(
    alloc: Global,
    files: Files<D>,
) -> Result<Connection<FileStore<D>>, (StoreFault, Files<D>)> {
    if !files.may_be_used() {
        return Err((StoreFault::Sql, files));
    }
    // The page cache is made again at each opening, and these files have few pages.
    let options = Options {
        cache_pages: 64,
        ..Options::new(1)
    };
    match Connection::open_files(alloc, files, options) {
        Ok(connection) => Ok(connection),
        Err((error, left)) => Err((error.into(), left.into_files())),
    }
}

/// Folds the log into the database file, where neither has stopped, and hands both back.
fn close<D: Disk + Drop>(connection: Connection<FileStore<D>>) -> Files<D> {
    match connection.close_files() {
        Ok(files) => files,
        Err((_error, store)) => store.close(),
    }
}

/// Whether a file passes one call more.
fn passes_one(file: &mut Fused) -> bool {
    file.may_be_used() && file.len().is_ok()
}

/// What both files hold, and whether each passes one call more than it was asked for.
fn left_behind(alloc: Global, mut files: Files<Fused>) -> Result<Behind, Fail> {
    let is_whole = passes_one(&mut files.log) && passes_one(&mut files.db);
    let log = left_by(alloc, files.log)?;
    let db = left_by(alloc, files.db)?;
    Ok(Behind { log, db, is_whole })
}

/// What a file holds.
fn left_by(alloc: Global, mut file: Fused) -> Result<Left, Fail> {
    let seen = file.inner().bytes().to_vec(alloc)?;
    file.crash();
    let synced = file.inner().bytes().to_vec(alloc)?;
    Ok(Left { seen, synced })
}
