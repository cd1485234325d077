//! Databases with nothing in them, over disks that give back what was written to them.
ghost use Rattle.std.specs.Prelude.{◌≡◌, false, IfOk, IsTrue, None};
ghost use Rattle.clr_known.specs.Known.{IsAlwaysClean};

use clr_edge::fault::DatabaseFault;
use clr_journal::{Journal, OnDisk};
use clr_load::StoreFault;
use sqlite::{Alter, Connection, FileStore, Options};
use sqlite_disk::{Disk, Files, Memory};
use std::alloc::Global;

/// What makes such databases, and closes them. None keeps what is written to it.
pub trait Blank {
    /// What the tables of a database are kept in.
    type Tables: Alter + Drop;

    /// What a journal would be kept in.
    type Log: Journal + Drop;

    /// A database with nothing in it.
    fn empty(&self, alloc: Global) -> Result<Connection<Self::Tables>, DatabaseFault>
        ensures mode { IfOk result (λ connection. connection.in_transaction ≡ false) };

    /// Takes the connection out of a place, and closes it.
    fn close(&self, place: &mut Option<Connection<Self::Tables>>) -> Result<(), DatabaseFault>
        ensures taken { place.new ≡ None };

    /// Each disk gives back what was written to it.
    ghost clean: { IsAlwaysClean Self.Tables.Store };
}

/// Files in memory.
#[derive(Drop)]
pub struct InMemory;

impl Blank for InMemory {
    ghost use Rattle.std.specs.Prelude.{◌≡◌};
    ghost use Rattle.clr_known.specs.Clean.{always_clean};

    type Tables = FileStore<Memory>;

    type Log = OnDisk<Memory>;

    ghost clean = { λ connection. always_clean connection };

    fn empty(&self, alloc: Global) -> Result<Connection<FileStore<Memory>>, DatabaseFault>
        ensures mode { IfOk result (λ connection. connection.in_transaction ≡ false) }
    {
        let files = Files {
            log: Memory::new(alloc),
            db: Memory::new(alloc),
        };
        opened(alloc, files)
    }

    fn close(&self, place: &mut Option<Connection<FileStore<Memory>>>) -> Result<(), DatabaseFault>
        ensures taken { place.new ≡ None }
    {
        closed(place.take())
    }
}

/// The database in files.
fn opened<D: Disk + Drop>(
    alloc: Global,
    files: Files<D>,
) -> Result<Connection<FileStore<D>>, DatabaseFault>
    requires log { IsTrue (D.Disk.is_usable files.log) }
    requires db { IsTrue (D.Disk.is_usable files.db) }
    ensures mode { IfOk result (λ connection. connection.in_transaction ≡ false) }
{
    match Connection::open_files(alloc, files, Options::new(1)) {
        Ok(connection) => Ok(connection),
        Err((error, _)) => Err(DatabaseFault::of_store(StoreFault::from(error))),
    }
}

/// Closes a database, of which nothing is kept.
fn closed<D: Disk + Drop>(
    connection: Option<Connection<FileStore<D>>>,
) -> Result<(), DatabaseFault> {
    let Some(connection) = connection else {
        return Ok(());
    };
    match connection.close_files() {
        Ok(_) => Ok(()),
        Err((error, _)) => Err(DatabaseFault::of_store(StoreFault::from(error))),
    }
}
