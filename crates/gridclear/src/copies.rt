//! The system of the program, with a copy of its database and the next part of its journal.
ghost use Rattle.std.specs.Prelude.{◌≡◌, ◌⊎◌, false, true, None, Some, ⊤};
ghost use Rattle.sqlite.specs.Files.{image_of};
ghost use Rattle.sqlite_wal.specs.Files.{image_at};

use crate::either::Either;
use clr_disk::{Event, Host, Place, System};
use sqlite::{FileFrom, Start};
use sqlite_disk::{Disk, Files};
use sqlite_std_file::OpenError;
use std::net::{SocketAddr, TcpListener};
use std::time::Instant;
use std::{fs, io};

/// The file of a database, or that of its copy; or that of a journal, or of its next part.
type Medium<S, C> = Either<FileFrom<S>, FileFrom<C>>;

/// The system that the program runs on. It opens the files of one database and of one journal, and
/// then those of one database and one journal more, of which nothing is supposed together with the
/// first.
#[derive(Drop)]
pub struct WithCopy<S: Start + Drop, C: Start + Drop, J: Start + Drop, N: Start + Drop> {
    host: Host<S, J>,
    /// The system that opens the further database and the further journal.
    further: Host<C, N>,
    /// Whether the files of the first database were asked for.
    is_used: bool,
    /// Whether the files of the first journal were asked for.
    is_logged: bool,
}

impl<S: Start + Drop, C: Start + Drop, J: Start + Drop, N: Start + Drop> WithCopy<S, C, J, N> {
    /// The system of a runtime, which has opened nothing yet.
    pub fn new(rt: &HostRuntime, database: S, copy: C, journal: J, next: N) -> WithCopy<S, C, J, N>
        ensures runtime { result.host.rt ≡ rt.now }
        ensures database { result.host.database ≡ Some database }
        ensures copy { result.further.database ≡ Some copy }
        ensures journal { result.host.journal ≡ Some journal }
        ensures next { result.further.journal ≡ Some next }
        ensures used { result.is_used ≡ false }
        ensures logged { result.is_logged ≡ false }
    {
        WithCopy {
            host: Host::new(rt, database, journal),
            further: Host::new(rt, copy, next),
            is_used: false,
            is_logged: false,
        }
    }

    /// The system of a runtime that opens no database and no journal.
    pub fn of_files(rt: &HostRuntime) -> WithCopy<S, C, J, N>
        ensures runtime { result.host.rt ≡ rt.now }
        ensures database { result.host.database ≡ None }
        ensures copy { result.further.database ≡ None }
        ensures journal { result.host.journal ≡ None }
        ensures next { result.further.journal ≡ None }
    {
        WithCopy {
            host: Host::of_files(rt),
            further: Host::of_files(rt),
            is_used: false,
            is_logged: false,
        }
    }
}

/// Each method is that of the host, but for the files of a further database or journal.
impl<S, C, J, N> System for WithCopy<S, C, J, N>
where
    S: Start + Drop,
    C: Start + Drop,
    J: Start + Drop,
    N: Start + Drop,
{
    type File = fs::File;

    type Medium = Medium<S, C>;

    type JournalMedium = Medium<J, N>;

    type Clock = HostRuntime;

    ghost is_file = { λ _ _. ⊤ };

    ghost lacks_file = { λ _ _. ⊤ };

    ghost has_size = { λ _ _. ⊤ };

    ghost lacks_size = { λ _ _. ⊤ };

    ghost is_place = { λ _ _. ⊤ };

    ghost lacks_place = { λ _ _. ⊤ };

    ghost lacks_seed = { λ _. ⊤ };

    ghost has_clock = { λ it clock. clock ≡ it.host.rt };

    ghost is_now = { λ _ _. ⊤ };

    ghost has_files = { λ old _ files new.
        ((old.is_used ≡ false)
        × (new ≡ record old { host = record old.host { database = None }; is_used = true })
        × (image_of ⟦<Medium<S, C> as Disk>⟧ files ≡ image_at S.Start))
        ⊎ ((old.is_used ≡ true)
        × (new ≡ record old { further = record old.further { database = None } })
        × (image_of ⟦<Medium<S, C> as Disk>⟧ files ≡ image_at C.Start)) };

    ghost lacks_files = { λ old _ new.
        ((old.is_used ≡ false)
        × (new ≡ record old { host = record old.host { database = None }; is_used = true }))
        ⊎ ((old.is_used ≡ true)
        × (new ≡ record old { further = record old.further { database = None } })) };

    ghost lets_go = { λ old _ new. new ≡ old };

    ghost has_journal_files = { λ old _ files new.
        ((old.is_logged ≡ false)
        × (new ≡ record old { host = record old.host { journal = None }; is_logged = true })
        × (image_of ⟦<Medium<J, N> as Disk>⟧ files ≡ image_at J.Start))
        ⊎ ((old.is_logged ≡ true)
        × (new ≡ record old { further = record old.further { journal = None } })
        × (image_of ⟦<Medium<J, N> as Disk>⟧ files ≡ image_at N.Start)) };

    ghost lacks_journal_files = { λ old _ new.
        ((old.is_logged ≡ false)
        × (new ≡ record old { host = record old.host { journal = None }; is_logged = true }))
        ⊎ ((old.is_logged ≡ true)
        × (new ≡ record old { further = record old.further { journal = None } })) };

    ghost lets_journal_go = { λ old _ new. new ≡ old };

    ghost listens = { λ old _ _ new. new ≡ old };

    ghost refuses = { λ old _ _ new. new ≡ old };

    fn file(&self, path: &str) -> io::Result<fs::File> {
        self.host.file(path)
    }

    fn size(&self, path: &str) -> io::Result<u64> {
        self.host.size(path)
    }

    fn place(&self, path: &str) -> io::Result<Place> {
        self.host.place(path)
    }

    fn seed(&self) -> io::Result<u64> {
        self.host.seed()
    }

    fn clock(&self) -> HostRuntime {
        self.host.clock()
    }

    fn now(&self) -> io::Result<Instant> {
        self.host.now()
    }

    fn files(&mut self, path: &str) -> Result<Files<Medium<S, C>>, OpenError> {
        if self.is_used {
            let Files { log, db } = self.further.files(path)?;
            let (log, db) = (Either::Second(log), Either::Second(db));
            return Ok(Files { log, db });
        }
        self.is_used = true;
        let Files { log, db } = self.host.files(path)?;
        let (log, db) = (Either::First(log), Either::First(db));
        Ok(Files { log, db })
    }

    fn show(&self, _event: Event) {}

    fn let_go(&mut self, file: Medium<S, C>) {
        match file {
            Either::First(file) => self.host.let_go(file),
            Either::Second(file) => self.further.let_go(file),
        }
    }

    fn journal_files(&mut self, path: &str) -> Result<Files<Medium<J, N>>, OpenError> {
        if self.is_logged {
            let Files { log, db } = self.further.journal_files(path)?;
            let (log, db) = (Either::Second(log), Either::Second(db));
            return Ok(Files { log, db });
        }
        self.is_logged = true;
        let Files { log, db } = self.host.journal_files(path)?;
        let (log, db) = (Either::First(log), Either::First(db));
        Ok(Files { log, db })
    }

    fn let_journal_go(&mut self, file: Medium<J, N>) {
        match file {
            Either::First(file) => self.host.let_journal_go(file),
            Either::Second(file) => self.further.let_journal_go(file),
        }
    }

    fn listener(&mut self, address: SocketAddr) -> io::Result<TcpListener> {
        self.host.listener(address)
    }
}
