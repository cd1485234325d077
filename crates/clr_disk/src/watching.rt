//! A system that shows how the opening of a database goes.
ghost use Rattle.std.specs.Prelude.{◌≡◌};
ghost use Rattle.clr_disk.specs.Opened.{files_under};

use crate::place::Place;
use crate::system::System;
use crate::watch::{Event, Watch};
use crate::watched::Watched;
use sqlite_disk::Files;
use sqlite_std_file::OpenError;
use std::io;
use std::net::{SocketAddr, TcpListener};
use std::rt::Clock;
use std::time::Instant;

/// A system under a watch, which sees the reads of its databases' files and what is shown to it.
#[derive(Drop)]
pub struct Watching<'a, Y: System, K> {
    system: Y,
    watch: &'a Watch<K>,
}

impl<'a, Y: System, K: Clock> Watching<'a, Y, K> {
    /// A system, and what watches it.
    pub fn new(system: Y, watch: &'a Watch<K>) -> Watching<'a, Y, K>
        ensures { result.system ≡ system }
    {
        Watching { system, watch }
    }
}

/// What is said of the system is said of it when it is watched, of the disks under the watch.
impl<'a, Y: System, K: Clock> System for Watching<'a, Y, K> {
    type File = Y::File;

    type Medium = Watched<'a, Y::Medium, K>;

    type JournalMedium = Y::JournalMedium;

    type Clock = Y::Clock;

    ghost is_file = { Y.is_file };

    ghost lacks_file = { Y.lacks_file };

    ghost has_size = { Y.has_size };

    ghost lacks_size = { Y.lacks_size };

    ghost is_place = { Y.is_place };

    ghost lacks_place = { Y.lacks_place };

    ghost lacks_seed = { λ it. Y.lacks_seed it.system };

    ghost has_clock = { λ it clock. Y.has_clock it.system clock };

    ghost is_now = { λ it now. Y.is_now it.system now };

    ghost has_files = { λ old path files new.
        Y.has_files old.system path (files_under (λ it. it.disk) files) new.system };

    ghost lacks_files = { λ old path new. Y.lacks_files old.system path new.system };

    ghost lets_go = { λ old file new. Y.lets_go old.system file.disk new.system };

    ghost has_journal_files = { λ old path files new.
        Y.has_journal_files old.system path files new.system };

    ghost lacks_journal_files = { λ old path new.
        Y.lacks_journal_files old.system path new.system };

    ghost lets_journal_go = { λ old file new. Y.lets_journal_go old.system file new.system };

    ghost listens = { λ old address listener new.
        Y.listens old.system address listener new.system };

    ghost refuses = { λ old address kind new. Y.refuses old.system address kind new.system };

    fn file(&self, path: &str) -> io::Result<Y::File> {
        self.system.file(path)
    }

    fn size(&self, path: &str) -> io::Result<u64> {
        self.system.size(path)
    }

    fn place(&self, path: &str) -> io::Result<Place> {
        self.system.place(path)
    }

    fn seed(&self) -> io::Result<u64> {
        self.system.seed()
    }

    fn clock(&self) -> Y::Clock {
        self.system.clock()
    }

    fn now(&self) -> io::Result<Instant> {
        self.system.now()
    }

    fn files(&mut self, path: &str) -> Result<Files<Watched<'a, Y::Medium, K>>, OpenError> {
        let files = self.system.files(path)?;
        Ok(Files {
            log: Watched::new(files.log, self.watch),
            db: Watched::new(files.db, self.watch),
        })
    }

    fn show(&self, event: Event) {
        self.watch.see(event);
    }

    fn let_go(&mut self, file: Watched<'a, Y::Medium, K>) {
        self.system.let_go(file.end());
    }

    fn journal_files(&mut self, path: &str) -> Result<Files<Y::JournalMedium>, OpenError> {
        self.system.journal_files(path)
    }

    fn let_journal_go(&mut self, file: Y::JournalMedium) {
        self.system.let_journal_go(file);
    }

    fn listener(&mut self, address: SocketAddr) -> io::Result<TcpListener> {
        self.system.listener(address)
    }
}
