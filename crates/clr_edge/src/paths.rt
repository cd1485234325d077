//! Files at the paths that a command line names.
ghost use Rattle.std.specs.Prelude.{◌≡◌, ◌⊎◌, ℕ, List, None, Option, Err, Ok, false, true, ⊤};
ghost use Rattle.clr_disk.specs.Place.{IsOther, IsOwn};

use crate::files::Source;
use clr_csv::CsvFault;
use clr_disk::{System, is_own};
use clr_stream::CountedRead;
use std::alloc::{AllocError, Global};
use std::io;
use std::io::Read;

/// What has the files at paths.
pub trait Opens<'a> {
    type File: Source + Drop;

    /// What the file at a path holds, where that is known.
    ghost bytes_at: { Self → List ℕ → Option (List ℕ) };

    /// That a file of the database at the first path is at the second. Only `is_own` says so.
    ghost owns: { Self → List ℕ → List ℕ → Type 0 };

    /// That none of them is. Only `is_own` says so.
    ghost spares: { Self → List ℕ → List ℕ → Type 0 };

    /// The file at a path. It is not opened yet.
    fn at(&self, path: &'a str) -> Self::File
        ensures { Self.File.remaining result ≡ bytes_at self.now path.entry.now };

    /// Whether a path leads to a file of the database at another: the database file, or one that
    /// SQLite keeps beside it.
    fn is_own(&self, alloc: Global, database: &str, path: &str) -> Result<bool, AllocError>
        ensures owns { result ≡ Ok true → owns self.now database.now path.now }
        ensures spares { result ≡ Ok false → spares self.now database.now path.now };
}

/// The paths of a system.
#[derive(Drop)]
pub struct Paths<'a, Y> {
    system: &'a Y,
}

impl<'a, Y> Paths<'a, Y> {
    /// Paths that a system opens.
    pub fn new(system: &'a Y) -> Paths<'a, Y>
        ensures { result.system ≡ system.entry }
    {
        Paths { system }
    }
}

impl<'a, Y: System> Opens<'a> for Paths<'a, Y> {
    ghost use Rattle.std.specs.Prelude.{None};
    ghost use Rattle.clr_disk.specs.Place.{IsOther, IsOwn};

    type File = AtPath<'a, Y>;

    ghost bytes_at = { λ _ _. None };

    ghost owns = { λ _ database path. IsOwn Y.is_place database path };

    ghost spares = { λ _ database path. IsOther Y.is_place Y.lacks_place database path };

    fn at(&self, path: &'a str) -> AtPath<'a, Y>
        ensures bytes { ⊤ }

        // It is that path which is opened later, and by that system.
        ensures path { result.path ≡ path.entry }
        ensures system { result.system ≡ self.now.system }
        ensures unopened { result.file ≡ None }
        ensures uncounted { result.failures ≡ 0 }
    {
        AtPath {
            system: self.system,
            path,
            file: None,
            failures: 0,
        }
    }

    fn is_own(&self, alloc: Global, database: &str, path: &str) -> Result<bool, AllocError>
        ensures owns { result ≡ Ok true → IsOwn Y.is_place database.now path.now }
        ensures spares { result ≡ Ok false
            → IsOther Y.is_place Y.lacks_place database.now path.now }
    {
        is_own(alloc, self.system, database, path)
    }
}

/// The file at a path.
#[derive(Drop)]
pub struct AtPath<'a, Y: System> {
    system: &'a Y,
    path: &'a str,
    file: Option<Y::File>,
    failures: u64,
}

impl<'a, Y: System> AtPath<'a, Y> {
    ghost use Rattle.clr_stream.specs.Failures.{count_after};

    /// Adds a failure to the count, if this was one.
    fn count<T>(&mut self, answer: &io::Result<T>)
        ensures { self.new ≡ record self.old {
          failures = count_after answer.now self.old.failures;
        } }
    {
        if answer.is_err() {
            self.failures = self.failures.saturating_add(1);
        }
    }
}

impl<'a, Y: System> Read for AtPath<'a, Y> {
    ghost use Rattle.std.specs.Prelude.{None};
    ghost use Rattle.std.specs.Io.{ReadsAtMost};
    ghost use Rattle.std.specs.Io.KnownBytes.{ReadConsumes};
    ghost use Rattle.clr_stream.specs.Failures.{count_after};
    ghost use Rattle.clr_edge.specs.Files.{ReadsOpened};

    ghost remaining = { λ _. None };

    fn read(&mut self, buf: &mut [u8]) -> io::Result<usize>
        ensures bound { ReadsAtMost result buf.new }
        ensures bytes { ReadConsumes None None result buf.new }
        ensures count { self.new.failures ≡ count_after result self.old.failures }

        // So a file ends only where the file itself does, and not where it could not be read on, or
        // was not opened.
        ensures opened { ReadsOpened Y.File.remaining self.old.file self.new.file result buf.new }
    {
        let answer = match &mut self.file {
            Some(file) => file.read(buf),
            None => Err(io::Error::from(io::ErrorKind::NotFound)),
        };
        self.count(&answer);
        answer
    }
}

impl<'a, Y: System> CountedRead for AtPath<'a, Y> {
    ghost use Rattle.std.specs.Prelude.{None};
    ghost use Rattle.std.specs.Io.{ReadsAtMost};
    ghost use Rattle.std.specs.Io.KnownBytes.{ReadConsumes};
    ghost use Rattle.clr_stream.specs.Failures.{count_after};
    ghost use Rattle.clr_edge.specs.Files.{ReadsOpened};

    ghost failure_count = { λ s. s.failures };

    fn failures(&self) -> u64 {
        self.failures
    }

    fn read_counted(&mut self, buf: &mut [u8]) -> io::Result<usize>
        ensures bound { ReadsAtMost result buf.new }
        ensures bytes { ReadConsumes None None result buf.new }
        ensures count { self.new.failures ≡ count_after result self.old.failures }

        // It is one read, so no part of a file is passed over.
        ensures opened { ReadsOpened Y.File.remaining self.old.file self.new.file result buf.new }
    {
        self.read(buf)
    }
}

impl<'a, Y: System> Source for AtPath<'a, Y> {
    ghost use Rattle.std.specs.Prelude.{◌≢◌, IfErr, IsErrOf, IsSomeAnd, OnOk, ⊤};
    ghost use Rattle.std.specs.declared.io.ErrorKind.{ErrorKind};
    ghost use Rattle.clr_stream.specs.Failures.{Rose};
    ghost use Rattle.clr_edge.specs.Files.{open_fault};

    fn open(&mut self) -> Result<(), CsvFault>
        ensures bytes { ⊤ }
        ensures fault { IfErr result (λ fault.
            (fault ≡ CsvFault.NoMemory) ⊎ (fault ≡ CsvFault.ReadFailed)) }
        ensures cause { IsErrOf result CsvFault.ReadFailed
            → Rose self.old.failures self.new.failures }
        ensures others { result ≢ Err CsvFault.ReadFailed
            → self.new.failures ≡ self.old.failures }

        // So one that could not be opened is never taken for an empty file, and none for another.
        ensures opened { OnOk result (IsSomeAnd self.new.file (λ file.
            Y.is_file self.old.path.now file)) }

        // And one is reported so only where the system could not open it.
        ensures unopened { IfErr result (λ fault. (kind : ErrorKind)
            × Y.lacks_file self.old.path.now kind × (fault ≡ open_fault kind)) }
    {
        match self.system.file(self.path) {
            Ok(file) => {
                self.file = Some(file);
                Ok(())
            }
            Err(error) => match error.kind() {
                io::ErrorKind::OutOfMemory => Err(CsvFault::NoMemory),
                _ => {
                    self.failures = self.failures.saturating_add(1);
                    Err(CsvFault::ReadFailed)
                }
            },
        }
    }
}
