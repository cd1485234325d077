//! The journals of registers, each opened or begun when its turn comes.
ghost use Rattle.std.specs.Prelude.{◌≡◌, ◌⊎◌, ◌/◌, ℕ, Bool, List, IfErr, IfOk, IsTrue, ⊤};
ghost use Rattle.std.specs.IoError.{error_kind};
ghost use Rattle.std.specs.Time.{system_time_nanos};
ghost use Rattle.clr_disk.specs.Opened.{HasBytes};
ghost use Rattle.clr_chain.specs.declared.finding.Ahead.{Ahead as AnyAhead};
ghost use Rattle.clr_edge.specs.Journals.{HasJournalDisk, HasNoJournal, IsBegunAt, IsChainAt};
ghost use Rattle.clr_edge.specs.Journals.{IsNew};
ghost use Rattle.clr_edge.specs.Journals.{IsOfBeginning, IsOfOpening, IsUnbegunAt, IsUnopenedAt};
ghost use Rattle.clr_edge.specs.Journals.{of_chain, of_new, size_fault};
ghost use Rattle.clr_edge.specs.declared.fault.Fault.{Fault as AnyFault};
ghost use Rattle.clr_rules.specs.declared.place.Place.{Place as AnyPlace};

use crate::fault::{Fault, JournalFault};
use crate::machine::Machine;
use clr_chain::{Ahead, ChainFault, Clock, NewFault, new_chain, open_chain};
use clr_disk::System;
use clr_journal::{Journal, OnDisk};
use clr_rules::Place;
use sqlite_disk::Files;
use sqlite_std_file::OpenError;
use std::time::{SystemTime, UNIX_EPOCH};
use std::{io, rt};

/// A journal that was opened, and its lines that come after the place of its register.
#[derive(Drop)]
pub struct OpenedJournal<J: Journal + Drop> {
    pub journal: J,
    pub ahead: Ahead,
}

/// What opens and begins journals. Each step leads from one state of it to the next, so a clause
/// that names the steps names all that was opened.
pub trait Journals {
    /// What a journal is kept in.
    type Log: Journal + Drop;

    /// What gives the moments of its lines.
    type Time: Clock;

    /// That the journal at a path was opened at a place of a register, with the lines after that.
    /// Only `journal` says so.
    ghost opens_journal: { Self → List ℕ → AnyPlace → Self.Log → AnyAhead → Self → Type 0 };

    /// That it was not opened. Only `journal` says so.
    ghost shuts_journal: { Self → List ℕ → AnyPlace → AnyFault → Self → Type 0 };

    /// That a journal was begun at a path, with this first line. Only `begin_journal` says so.
    ghost begins_journal: { Self → List ℕ → AnyPlace → Self.Log → Self → Type 0 };

    /// That none was begun there. Only `begin_journal` says so.
    ghost spares_journal: { Self → List ℕ → AnyPlace → AnyFault → Self → Type 0 };

    /// That a journal was let go as it was then. Only `let_journal_go` says so.
    ghost lets_journal_go: { Self → Self.Log → Self → Type 0 };

    /// That this is its clock. Only `time` says so.
    ghost has_time: { Self → Self.Time → Type 0 };

    /// Whether what a journal lies in gave back what was written to it.
    ghost is_clean: { Self.Log → Bool };

    /// Opens the journal in a file, at the place that a register has in it. A file that is not
    /// there, or is empty, is refused, and none is made.
    fn journal(&mut self, path: &str, place: &Place) -> Result<OpenedJournal<Self::Log>, Fault>
        ensures opens_journal { IfOk result (λ opened. opens_journal self.old path.now place.now
            opened.journal opened.ahead self.new) }
        ensures shuts_journal { IfErr result (λ fault.
            shuts_journal self.old path.now place.now fault self.new) }
        ensures whole { IfOk result (λ opened.
            Self.Log.found opened.journal ≡ Self.Log.text opened.journal) }
        ensures fault { IfErr result IsOfOpening };

    /// Begins a journal in a file, with this first line, synced. A file that is not there is made;
    /// one that has bytes is refused.
    fn begin_journal(&mut self, path: &str, first: &Place) -> Result<Self::Log, Fault>
        ensures begins_journal { IfOk result (λ journal.
            begins_journal self.old path.now first.now journal self.new) }
        ensures new { IfOk result (IsNew Self.Log.Journal is_clean first.now) }
        ensures spares_journal { IfErr result (λ fault.
            spares_journal self.old path.now first.now fault self.new) }
        ensures fault { IfErr result IsOfBeginning };

    /// Lets a journal go.
    fn let_journal_go(&mut self, journal: Self::Log)
        ensures { lets_journal_go self.old journal self.new };

    /// The clock of a journal.
    fn time(&self) -> Self::Time
        ensures { has_time self.now result };
}

/// A journal lies in the file at that path, and has what that held. No other file is opened.
impl<Y: System> Journals for Machine<Y> {
    type Log = OnDisk<Y::JournalMedium>;

    type Time = Seconds<Y::Clock>;

    ghost opens_journal = { λ old path place journal ahead new. HasBytes Y.has_size path
        × IsChainAt Y.has_journal_files Y.lets_journal_go Y.JournalMedium.Disk
        ⟦<OnDisk<Y::JournalMedium> as Journal>⟧ (λ it. it.disk)
        old.system path place journal ahead new.system };

    ghost shuts_journal = { λ old path place fault new.
        ((new.system ≡ old.system) × HasNoJournal Y.has_size Y.lacks_size path fault)
        ⊎ IsUnopenedAt Y.has_journal_files Y.lacks_journal_files Y.lets_journal_go
        Y.JournalMedium.Disk old.system path place fault new.system };

    ghost begins_journal = { λ old path first journal new. IsBegunAt Y.has_journal_files
        Y.lets_journal_go Y.JournalMedium.Disk ⟦<OnDisk<Y::JournalMedium> as Journal>⟧
        (λ it. it.disk) old.system path first journal new.system };

    ghost spares_journal = { λ old path first fault new. IsUnbegunAt Y.has_journal_files
        Y.lacks_journal_files Y.lets_journal_go Y.JournalMedium.Disk
        old.system path first fault new.system };

    ghost lets_journal_go = { λ old journal new.
        Y.lets_journal_go old.system journal.disk new.system };

    ghost has_time = { λ machine time. Y.has_clock machine.system time.clock };

    ghost is_clean = { λ journal. Y.JournalMedium.Disk.is_clean journal.disk };

    fn journal(
        &mut self,
        path: &str,
        place: &Place,
    ) -> Result<OpenedJournal<OnDisk<Y::JournalMedium>>, Fault>
        ensures opens_journal { IfOk result (λ opened. HasBytes Y.has_size path.now
            × IsChainAt Y.has_journal_files Y.lets_journal_go Y.JournalMedium.Disk
            ⟦<OnDisk<Y::JournalMedium> as Journal>⟧ (λ it. it.disk) self.old.system path.now
            place.now opened.journal opened.ahead self.new.system) }
        ensures shuts_journal { IfErr result (λ fault.
            ((self.new.system ≡ self.old.system)
            × HasNoJournal Y.has_size Y.lacks_size path.now fault)
            ⊎ IsUnopenedAt Y.has_journal_files Y.lacks_journal_files Y.lets_journal_go
            Y.JournalMedium.Disk self.old.system path.now place.now fault self.new.system) }
        ensures whole { IfOk result (λ opened.
            ⟦<OnDisk<Y::JournalMedium> as Journal>⟧.found opened.journal
            ≡ ⟦<OnDisk<Y::JournalMedium> as Journal>⟧.text opened.journal) }
        ensures fault { IfErr result IsOfOpening }
    {
        expect_journal(&self.system, path)?;
        match self.opened_chain(path, place) {
            Ok(opened) => Ok(opened),
            Err(fault) => Err(fault),
        }
    }

    fn begin_journal(
        &mut self,
        path: &str,
        first: &Place,
    ) -> Result<OnDisk<Y::JournalMedium>, Fault>
        ensures begins_journal { IfOk result (λ journal. IsBegunAt Y.has_journal_files
            Y.lets_journal_go Y.JournalMedium.Disk ⟦<OnDisk<Y::JournalMedium> as Journal>⟧
            (λ it. it.disk) self.old.system path.now first.now journal self.new.system) }
        ensures new { IfOk result (IsNew ⟦<OnDisk<Y::JournalMedium> as Journal>⟧
            (λ it. Y.JournalMedium.Disk.is_clean it.disk) first.now) }
        ensures spares_journal { IfErr result (λ fault. IsUnbegunAt Y.has_journal_files
            Y.lacks_journal_files Y.lets_journal_go Y.JournalMedium.Disk self.old.system
            path.now first.now fault self.new.system) }
        ensures fault { IfErr result IsOfBeginning }
    {
        let disk = self.journal_disk(path)?;
        match new_chain(self.alloc, first, disk) {
            Ok(journal) => Ok(journal),
            Err((fault, back)) => {
                self.system.let_journal_go(back);
                Err(of_new(fault))
            }
        }
    }

    fn let_journal_go(&mut self, journal: OnDisk<Y::JournalMedium>)
        ensures { Y.lets_journal_go self.old.system journal.disk self.new.system }
    {
        self.system.let_journal_go(journal.into_disk());
    }

    fn time(&self) -> Seconds<Y::Clock>
        ensures { Y.has_clock self.now.system result.clock }
    {
        Seconds {
            clock: self.system.clock(),
        }
    }
}

impl<Y: System> Machine<Y> {
    /// What the file of a journal at a path holds. Its log is let go unchanged.
    fn journal_disk(&mut self, path: &str) -> Result<Y::JournalMedium, Fault>
        ensures had { IfOk result (HasJournalDisk Y.has_journal_files Y.lets_journal_go
            self.old.system path.now self.new.system) }
        ensures usable { IfOk result (λ disk. IsTrue (Y.JournalMedium.Disk.is_usable disk)) }
        ensures lacks { IfErr result (λ fault. Y.lacks_journal_files self.old.system path.now
            self.new.system × ((fault ≡ Fault.Memory)
            ⊎ (fault ≡ Fault.Journal JournalFault.OpenFailed))) }
    {
        let files = match self.system.journal_files(path) {
            Ok(files) => files,
            Err(OpenError::OutOfMemory) => return Err(Fault::Memory),
            Err(_) => return Err(Fault::Journal(JournalFault::OpenFailed)),
        };
        let Files { log, db } = files;
        self.system.let_journal_go(log);
        Ok(db)
    }

    /// The journal in the file at a path, which is opened at a place.
    fn opened_chain(
        &mut self,
        path: &str,
        place: &Place,
    ) -> Result<OpenedJournal<OnDisk<Y::JournalMedium>>, Fault>
        ensures opened { IfOk result (λ opened. IsChainAt Y.has_journal_files Y.lets_journal_go
            Y.JournalMedium.Disk ⟦<OnDisk<Y::JournalMedium> as Journal>⟧ (λ it. it.disk)
            self.old.system path.now place.now opened.journal opened.ahead self.new.system) }
        ensures refused { IfErr result (λ fault. IsUnopenedAt Y.has_journal_files
            Y.lacks_journal_files Y.lets_journal_go Y.JournalMedium.Disk self.old.system
            path.now place.now fault self.new.system) }
        ensures fault { IfErr result IsOfOpening }
    {
        let disk = self.journal_disk(path)?;
        match open_chain(self.alloc, place, disk) {
            Ok(opened) => Ok(OpenedJournal {
                journal: opened.journal,
                ahead: opened.ahead,
            }),
            Err((fault, disk)) => {
                self.system.let_journal_go(disk);
                Err(of_chain(fault))
            }
        }
    }
}

/// Refuses a file that is not there, cannot be looked at or is empty: it has no journal.
fn expect_journal<Y: System>(system: &Y, path: &str) -> Result<(), Fault>
    ensures size { IfOk result (λ _. HasBytes Y.has_size path.now) }
    ensures none { IfErr result (HasNoJournal Y.has_size Y.lacks_size path.now) }
    ensures fault { IfErr result IsOfOpening }
{
    match system.size(path) {
        Ok(size) if size > 0 => Ok(()),
        Ok(_) => Err(Fault::Journal(JournalFault::OpenFailed)),
        Err(error) => Err(size_fault(&error)),
    }
}

/// What is reported where the size of a journal could not be read.
fn size_fault(error: &io::Error) -> Fault
    ensures value { result ≡ size_fault (error_kind error.now) }
    ensures opening { IsOfOpening result }
{
    match error.kind() {
        io::ErrorKind::OutOfMemory => Fault::Memory,
        _ => Fault::Journal(JournalFault::OpenFailed),
    }
}

/// Why a journal was not opened.
fn of_chain(fault: ChainFault) -> Fault
    ensures value { result ≡ of_chain fault }
    ensures opening { IsOfOpening result }
{
    match fault {
        ChainFault::OpenFailed => Fault::Journal(JournalFault::OpenFailed),
        ChainFault::NoMemory => Fault::Memory,
        ChainFault::OtherRules(number) => Fault::Journal(JournalFault::OtherRules(number)),
        ChainFault::OtherRegister => Fault::Journal(JournalFault::OtherRegister),
        ChainFault::TooShort => Fault::Journal(JournalFault::TooShort),
        ChainFault::Differs(number) => Fault::Journal(JournalFault::Differs(number)),
        ChainFault::BadLine(number) => Fault::Journal(JournalFault::BadLine(number)),
    }
}

/// Why a journal was not begun.
fn of_new(fault: NewFault) -> Fault
    ensures value { result ≡ of_new fault }
    ensures beginning { IsOfBeginning result }
{
    match fault {
        NewFault::HasBytes => Fault::Journal(JournalFault::HasBytes),
        NewFault::WriteFailed => Fault::Journal(JournalFault::WriteFailed),
        NewFault::TooLong => Fault::Journal(JournalFault::TooLong),
        NewFault::NoMemory => Fault::Memory,
    }
}

/// The seconds of a clock, 0 where it gives none.
#[derive(Drop)]
pub struct Seconds<K: rt::Clock + Drop> {
    clock: K,
}

/// Of what a clock shows no clause can speak.
impl<K: rt::Clock + Drop> Clock for Seconds<K> {
    ghost shows = { λ _ _. ⊤ };

    fn seconds(&self) -> u64 {
        match SystemTime::now(&self.clock) {
            Ok(now) => seconds_of(now),
            Err(_) => 0,
        }
    }
}

/// The whole seconds since 1970 at a moment.
fn seconds_of(now: SystemTime) -> u64
    ensures { result ≡ system_time_nanos now / 1_000_000_000 }
{
    match now.duration_since(UNIX_EPOCH) {
        Ok(passed) => passed.as_secs(),
        Err(_) => 0,
    }
}
