//! The system itself.
ghost use Rattle.std.specs.Prelude.{◌≡◌, false, true, IfErr, IfOk, IsTrue, None, Some, ⊤};
ghost use Rattle.sqlite.specs.Files.{image_of};
ghost use Rattle.sqlite_std_file.specs.File.{IsFresh, file_is_usable};
ghost use Rattle.sqlite_wal.specs.Files.{image_at};

use crate::host_place::place_at;
use crate::place::Place;
use crate::system::System;
use crate::watch::Event;
use sqlite::{FileFrom, Start};
use sqlite_disk::{Disk, Files};
use sqlite_std_file::OpenError;
use std::hash::{BuildHasher, RandomState};
use std::net::{SocketAddr, TcpListener};
use std::time::Instant;
use std::{fs, io};

/// The system that the program runs on. It opens the files of one database and of one journal: of
/// each only once, since two pairs of files under one `Start` could be shown to disagree.
#[derive(Drop)]
pub struct Host<S: Start + Drop, J: Start + Drop> {
    rt: HostRuntime,
    /// What the files of the database hold, until they are opened. It is for contracts alone.
    database: Option<S>,
    /// The same of the journal.
    journal: Option<J>,
}

impl<S: Start + Drop, J: Start + Drop> Host<S, J> {
    /// The system of a runtime, whose database and journal are not opened yet.
    pub fn new(rt: &HostRuntime, database: S, journal: J) -> Host<S, J>
        ensures runtime { result.rt ≡ rt.now }
        ensures database { result.database ≡ Some database }
        ensures journal { result.journal ≡ Some journal }
    {
        Host {
            rt: *rt,
            database: Some(database),
            journal: Some(journal),
        }
    }

    /// The system of a runtime that opens no database and no journal.
    pub fn of_files(rt: &HostRuntime) -> Host<S, J>
        ensures runtime { result.rt ≡ rt.now }
        ensures database { result.database ≡ None }
        ensures journal { result.journal ≡ None }
    {
        Host {
            rt: *rt,
            database: None,
            journal: None,
        }
    }

    /// The runtime of the system.
    pub fn rt(&self) -> &HostRuntime
        ensures { result.now ≡ self.now.rt }
    {
        &self.rt
    }
}

/// Each method is one call of the system. Of what the system has by a name no clause can speak.
impl<S: Start + Drop, J: Start + Drop> System for Host<S, J> {
    type File = fs::File;

    type Medium = FileFrom<S>;

    type JournalMedium = FileFrom<J>;

    type Clock = HostRuntime;

    ghost is_file = { λ _ _. ⊤ };

    ghost lacks_file = { λ _ _. ⊤ };

    ghost has_size = { λ _ _. ⊤ };

    ghost lacks_size = { λ _ _. ⊤ };

    ghost is_place = { λ _ _. ⊤ };

    ghost lacks_place = { λ _ _. ⊤ };

    ghost lacks_seed = { λ _. ⊤ };

    ghost has_clock = { λ host clock. clock ≡ host.rt };

    ghost is_now = { λ _ _. ⊤ };

    ghost has_files = { λ old _ files new. (new ≡ record old { database = None })
        × (image_of ⟦<FileFrom<S> as Disk>⟧ files ≡ image_at S.Start) };

    ghost lacks_files = { λ old _ new. new ≡ record old { database = None } };

    ghost lets_go = { λ old _ new. new ≡ old };

    ghost has_journal_files = { λ old _ files new. (new ≡ record old { journal = None })
        × (image_of ⟦<FileFrom<J> as Disk>⟧ files ≡ image_at J.Start) };

    ghost lacks_journal_files = { λ old _ new. new ≡ record old { journal = None } };

    ghost lets_journal_go = { λ old _ new. new ≡ old };

    ghost listens = { λ old _ _ new. new ≡ old };

    ghost refuses = { λ old _ _ new. new ≡ old };

    fn file(&self, path: &str) -> io::Result<fs::File>
        ensures is { IfOk result (λ _. ⊤) }
        ensures lacks { IfErr result (λ _. ⊤) }
    {
        fs::open(&self.rt, path)
    }

    fn size(&self, path: &str) -> io::Result<u64>
        ensures has { IfOk result (λ _. ⊤) }
        ensures lacks { IfErr result (λ _. ⊤) }
    {
        let metadata = fs::metadata(&self.rt, path)?;
        Ok(metadata.len())
    }

    fn place(&self, path: &str) -> io::Result<Place>
        ensures is { IfOk result (λ _. ⊤) }
        ensures lacks { IfErr result (λ _. ⊤) }
    {
        place_at(&self.rt, path)
    }

    fn seed(&self) -> io::Result<u64>
        ensures { IfErr result (λ _. ⊤) }
    {
        let state = RandomState::new(&self.rt)?;
        Ok(state.hash_one(&0u8))
    }

    fn clock(&self) -> HostRuntime
        ensures { result ≡ self.now.rt }
    {
        self.rt
    }

    fn now(&self) -> io::Result<Instant>
        ensures { IfOk result (λ _. ⊤) }
    {
        Instant::now(&self.rt)
    }

    fn files(&mut self, path: &str) -> Result<Files<FileFrom<S>>, OpenError>
        ensures log { IfOk result (λ files. IsTrue (file_is_usable S.Start files.log)) }
        ensures db { IfOk result (λ files. IsTrue (file_is_usable S.Start files.db)) }
        ensures has { IfOk result (λ files. (self.new ≡ record self.old { database = None })
            × (image_of ⟦<FileFrom<S> as Disk>⟧ files ≡ image_at S.Start)) }
        ensures lacks { IfErr result (λ _. self.new ≡ record self.old { database = None }) }
    {
        opened(&self.rt, path, self.database.take())
    }

    fn show(&self, _event: Event) {}

    fn let_go(&mut self, file: FileFrom<S>)
        ensures { self.new ≡ self.old }
    {
        drop(file);
    }

    fn journal_files(&mut self, path: &str) -> Result<Files<FileFrom<J>>, OpenError>
        ensures log { IfOk result (λ files. IsTrue (file_is_usable J.Start files.log)) }
        ensures db { IfOk result (λ files. IsTrue (file_is_usable J.Start files.db)) }
        ensures has { IfOk result (λ files. (self.new ≡ record self.old { journal = None })
            × (image_of ⟦<FileFrom<J> as Disk>⟧ files ≡ image_at J.Start)) }
        ensures lacks { IfErr result (λ _. self.new ≡ record self.old { journal = None }) }
    {
        opened(&self.rt, path, self.journal.take())
    }

    fn let_journal_go(&mut self, file: FileFrom<J>)
        ensures { self.new ≡ self.old }
    {
        drop(file);
    }

    fn listener(&mut self, address: SocketAddr) -> io::Result<TcpListener>
        ensures listens { IfOk result (λ _. self.new ≡ self.old) }
        ensures refuses { IfErr result (λ _. self.new ≡ self.old) }
    {
        TcpListener::bind(&self.rt, address)
    }
}

/// Opens the file at a path and its log, which hold what the start says; without one, none.
fn opened<S: Start + Drop>(
    rt: &HostRuntime,
    path: &str,
    start: Option<S>,
) -> Result<Files<FileFrom<S>>, OpenError>
    ensures log { IfOk result (λ files. IsTrue (file_is_usable S.Start files.log)) }
    ensures db { IfOk result (λ files. IsTrue (file_is_usable S.Start files.db)) }
    ensures has { IfOk result (λ files.
        image_of ⟦<FileFrom<S> as Disk>⟧ files ≡ image_at S.Start) }
{
    match start {
        Some(start) => sqlite_std_file::open(rt, path, start),
        None => Err(OpenError::Busy),
    }
}
