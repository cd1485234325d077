//! A journal on a disk.
ghost use Rattle.std.specs.Prelude.{◌≡◌, ◌+◌, ◌^◌, ◌<◌, ◌≤◌, length, take, false, true, IsErrOf};
ghost use Rattle.std.specs.Prelude.{IsTrue, OnErr, OnOk, List, ℕ, ◌++◌};
ghost use Rattle.sqlite_disk.specs.Disk.{Follows, MoreFaults, Only};
ghost use Rattle.clr_journal.specs.Journal.{BeginsWith, Grown};

use crate::fault::WriteFault;
use crate::journal::Journal;
use sqlite_disk::Disk;

/// A journal on a disk, as a file: its text is up to `end`, and what comes after it a failed append
/// has left.
#[derive(Drop)]
pub struct OnDisk<D: Disk> {
    pub(crate) disk: D,
    end: usize,
    is_torn: bool,
    ghost within: { end ≤ length (D.Disk.seen disk) },
    ghost whole: { is_torn ≡ false → length (D.Disk.seen disk) ≡ end },
}

impl<D: Disk> OnDisk<D> {
    /// The journal of a disk that holds its text alone.
    pub(crate) fn new(disk: D, end: usize) -> OnDisk<D>
        requires { length (D.Disk.seen disk) ≡ end }
        ensures disk { result.disk ≡ disk }
        ensures end { result.end ≡ end }
    {
        OnDisk {
            disk,
            end,
            is_torn: false,
        }
    }

    /// The disk, which another journal may be opened on.
    pub fn into_disk(self) -> D
        ensures { result ≡ self.disk }
    {
        self.disk
    }

    /// Takes off what a failed append has left.
    fn cut_off(&mut self) -> Result<(), WriteFault>
        requires { IsTrue (D.Disk.is_usable self.old.disk) }
        ensures end { self.new.end ≡ self.old.end }
        ensures text { take self.old.end (D.Disk.seen self.new.disk)
            ≡ take self.old.end (D.Disk.seen self.old.disk) }
        ensures whole { OnOk result (self.new.is_torn ≡ false) }
        ensures crash { Follows (Grown self.old.end 0)
            (D.Disk.may_leave self.old.disk) (D.Disk.may_leave self.new.disk) }
        ensures failed { IsErrOf result WriteFault.NoMemory → false ≡ true }
        ensures cause { OnErr result
            (MoreFaults (D.Disk.faults self.old.disk) (D.Disk.faults self.new.disk)) }
        ensures count { OnOk result (D.Disk.faults self.new.disk ≡ D.Disk.faults self.old.disk) }
        ensures usable { IsTrue (D.Disk.is_usable self.new.disk) }
    {
        if !self.is_torn {
            return Ok(());
        }
        let end = self.end;
        match self.disk.set_len(end) {
            Ok(()) => {
                self.is_torn = false;
                Ok(())
            }
            Err(_) => Err(WriteFault::WriteFailed),
        }
    }

    /// Writes bytes at the end of the text.
    fn write(&mut self, bytes: &[u8]) -> Result<(), WriteFault>
        requires usable { IsTrue (D.Disk.is_usable self.old.disk) }
        requires whole { self.old.is_torn ≡ false }
        requires some { 0 < length bytes.now }
        ensures written { OnOk result
            (D.Disk.seen self.new.disk ≡ D.Disk.seen self.old.disk ++ bytes.now) }
        ensures end { OnOk result (self.new.end ≡ self.old.end + length bytes.now) }
        ensures same { OnErr result (self.new.end ≡ self.old.end) }
        ensures text { take self.old.end (D.Disk.seen self.new.disk) ≡ D.Disk.seen self.old.disk }
        ensures crash { Follows (Grown self.old.end (length bytes.now))
            (D.Disk.may_leave self.old.disk) (D.Disk.may_leave self.new.disk) }
        ensures failed { IsErrOf result WriteFault.NoMemory → false ≡ true }
        ensures cause { self.old.end + length bytes.now < 2 ^ 64 → OnErr result
            (MoreFaults (D.Disk.faults self.old.disk) (D.Disk.faults self.new.disk)) }
        ensures usable { IsTrue (D.Disk.is_usable self.new.disk) }
    {
        let end = self.end;
        let Some(after) = end.checked_add(bytes.len()) else {
            return Err(WriteFault::WriteFailed);
        };
        match self.disk.write_at(end, bytes) {
            Ok(()) => {
                self.end = after;
                Ok(())
            }
            Err(_) => {
                self.is_torn = true;
                Err(WriteFault::WriteFailed)
            }
        }
    }
}

impl<D: Disk> Journal for OnDisk<D> {
    ghost text = { λ j. take j.end (D.Disk.seen j.disk) };

    ghost found = { λ j. D.Disk.seen j.disk };

    ghost may_leave = { λ j. D.Disk.may_leave j.disk };

    ghost is_usable = { λ j. D.Disk.is_usable j.disk };

    ghost faults = { λ j. D.Disk.faults j.disk };

    fn may_be_used(&self) -> bool {
        self.disk.may_be_used()
    }

    fn append(&mut self, line: String) -> Result<(), WriteFault> {
        let mut line = line;
        line.push_str("\n")?;
        self.cut_off()?;
        self.write(line.as_bytes())
    }

    fn sync(&mut self) -> Result<(), WriteFault> {
        match self.disk.sync() {
            Ok(()) => Ok(()),
            Err(_) => Err(WriteFault::WriteFailed),
        }
    }
}
