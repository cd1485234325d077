//! What the program asks of the system by a name.
ghost use Rattle.std.specs.Prelude.{◌≡◌, ℕ, List, IfErr, IfOk, IsTrue};
ghost use Rattle.std.specs.IoError.{error_kind};
ghost use Rattle.std.specs.declared.io.ErrorKind.{ErrorKind};
ghost use Rattle.std.specs.declared.net.tcp.TcpListener.{TcpListener as AnyListener};
ghost use Rattle.std.specs.declared.net.socket_addr.SocketAddr.{SocketAddr as AnySocketAddr};
ghost use Rattle.std.specs.declared.time.Instant.{Instant as AnyInstant};
ghost use Rattle.sqlite_disk.specs.declared.Files.{Files as DiskFiles};
ghost use Rattle.clr_disk.specs.declared.place.Place.{Place as AnyPlace};

use crate::place::Place;
use crate::watch::Event;
use sqlite_disk::{Disk, Files};
use sqlite_std_file::OpenError;
use std::io;
use std::io::Read;
use std::net::{SocketAddr, TcpListener};
use std::rt::Clock;
use std::time::Instant;

/// What the program asks of the system by a name: a file, the files of a database, an address.
/// What is given is what was asked for by that name, so a clause that names it says so.
pub trait System {
    /// A file that is read.
    type File: Read + Drop;

    /// A file of a database.
    type Medium: Disk + Drop;

    /// A file of a journal. What is supposed of it is apart from what is supposed of a database.
    type JournalMedium: Disk + Drop;

    /// A clock.
    type Clock: Clock + Copy;

    /// That a file was opened at a path. Only `file` says so.
    ghost is_file: { List ℕ → Self.File → Type 0 };

    /// That none was, for this reason. Only `file` says so.
    ghost lacks_file: { List ℕ → ErrorKind → Type 0 };

    /// That the file at a path has this number of bytes. Only `size` says so.
    ghost has_size: { List ℕ → ℕ → Type 0 };

    /// That this number was not had, for this reason. Only `size` says so.
    ghost lacks_size: { List ℕ → ErrorKind → Type 0 };

    /// That a path leads to this place. Only `place` says so.
    ghost is_place: { List ℕ → AnyPlace → Type 0 };

    /// That it could not be followed, for this reason. Only `place` says so.
    ghost lacks_place: { List ℕ → ErrorKind → Type 0 };

    /// That no number was had that cannot be guessed. Only `seed` says so.
    ghost lacks_seed: { Self → Type 0 };

    /// That this clock is the system's. Only `clock` says so.
    ghost has_clock: { Self → Self.Clock → Type 0 };

    /// That the system's clock showed this moment. Only `now` says so.
    ghost is_now: { Self → AnyInstant → Type 0 };

    /// That the files of the database at a path were opened. Only `files` says so.
    ghost has_files: { Self → List ℕ → DiskFiles Self.Medium → Self → Type 0 };

    /// That they could not be opened. Only `files` says so.
    ghost lacks_files: { Self → List ℕ → Self → Type 0 };

    /// That a file of a database was let go as it was then. Only `let_go` says so.
    ghost lets_go: { Self → Self.Medium → Self → Type 0 };

    /// That the files of the journal at a path were opened. Only `journal_files` says so.
    ghost has_journal_files: { Self → List ℕ → DiskFiles Self.JournalMedium → Self → Type 0 };

    /// That they could not be opened. Only `journal_files` says so.
    ghost lacks_journal_files: { Self → List ℕ → Self → Type 0 };

    /// That a file of a journal was let go as it was then. Only `let_journal_go` says so.
    ghost lets_journal_go: { Self → Self.JournalMedium → Self → Type 0 };

    /// That a listener was had on an address. Only `listener` says so.
    ghost listens: { Self → AnySocketAddr → AnyListener → Self → Type 0 };

    /// That an address could not be had, for this reason. Only `listener` says so.
    ghost refuses: { Self → AnySocketAddr → ErrorKind → Self → Type 0 };

    /// Opens the file at a path to be read.
    fn file(&self, path: &str) -> io::Result<Self::File>
        ensures is { IfOk result (is_file path.now) }
        ensures lacks { IfErr result (λ error. lacks_file path.now (error_kind error)) };

    /// How many bytes the file at a path has.
    fn size(&self, path: &str) -> io::Result<u64>
        ensures has { IfOk result (has_size path.now) }
        ensures lacks { IfErr result (λ error. lacks_size path.now (error_kind error)) };

    /// Where a path leads, also where no file is there yet.
    fn place(&self, path: &str) -> io::Result<Place>
        ensures is { IfOk result (is_place path.now) }
        ensures lacks { IfErr result (λ error. lacks_place path.now (error_kind error)) };

    /// A number that cannot be guessed.
    fn seed(&self) -> io::Result<u64>
        ensures { IfErr result (λ _. lacks_seed self.now) };

    /// What shows the time.
    fn clock(&self) -> Self::Clock
        ensures { has_clock self.now result };

    /// The moment that it is now, by that clock.
    fn now(&self) -> io::Result<Instant>
        ensures { IfOk result (is_now self.now) };

    /// Opens the database file at a path and its log, and makes those that are not there.
    fn files(&mut self, path: &str) -> Result<Files<Self::Medium>, OpenError>
        ensures log { IfOk result (λ files. IsTrue (Self.Medium.Disk.is_usable files.log)) }
        ensures db { IfOk result (λ files. IsTrue (Self.Medium.Disk.is_usable files.db)) }
        ensures has { IfOk result (λ files. has_files self.old path.now files self.new) }
        ensures lacks { IfErr result (λ _. lacks_files self.old path.now self.new) };

    /// Shows how the opening of a database goes, if the system shows that.
    fn show(&self, event: Event);

    /// Lets a file of a database go.
    fn let_go(&mut self, file: Self::Medium)
        ensures { lets_go self.old file self.new };

    /// Opens the journal file at a path and its log, and makes those that are not there.
    fn journal_files(&mut self, path: &str) -> Result<Files<Self::JournalMedium>, OpenError>
        ensures log { IfOk result (λ files.
            IsTrue (Self.JournalMedium.Disk.is_usable files.log)) }
        ensures db { IfOk result (λ files.
            IsTrue (Self.JournalMedium.Disk.is_usable files.db)) }
        ensures has { IfOk result (λ files.
            has_journal_files self.old path.now files self.new) }
        ensures lacks { IfErr result (λ _. lacks_journal_files self.old path.now self.new) };

    /// Lets a file of a journal go.
    fn let_journal_go(&mut self, file: Self::JournalMedium)
        ensures { lets_journal_go self.old file self.new };

    /// Listens on an address.
    fn listener(&mut self, address: SocketAddr) -> io::Result<TcpListener>
        ensures listens { IfOk result (λ listener.
            Self.listens self.old address listener self.new) }
        ensures refuses { IfErr result (λ error.
            Self.refuses self.old address (error_kind error) self.new) };
}
