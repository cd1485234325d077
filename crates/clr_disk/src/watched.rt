//! A disk whose reads a watch sees.
ghost use Rattle.std.specs.Prelude.{◌≡◌};

use crate::watch::{Event, Watch};
use sqlite_disk::{Disk, Tally};
use std::io;
use std::rt::Clock;

/// A disk whose reads a watch sees.
#[derive(Drop)]
pub struct Watched<'a, D: Disk, K: Clock> {
    disk: D,
    watch: &'a Watch<K>,
}

impl<'a, D: Disk, K: Clock> Watched<'a, D, K> {
    /// A disk, and what watches it.
    pub fn new(disk: D, watch: &'a Watch<K>) -> Watched<'a, D, K>
        ensures { result.disk ≡ disk }
    {
        Watched { disk, watch }
    }

    /// The disk itself.
    pub fn end(self) -> D
        ensures { result ≡ self.entry.disk }
    {
        self.disk
    }

    /// Lets the watch see a read.
    fn see(&self, bytes: usize) {
        self.watch.see(Event::Reads(bytes));
    }
}

/// What is said of the disk is said of it when it is watched.
impl<'a, D: Disk, K: Clock> Disk for Watched<'a, D, K> {
    ghost seen = { λ w. D.Disk.seen w.disk };

    ghost may_leave = { λ w. D.Disk.may_leave w.disk };

    ghost is_usable = { λ w. D.Disk.is_usable w.disk };

    ghost faults = { λ w. D.Disk.faults w.disk };

    ghost tally_of = { λ w. D.Disk.tally_of w.disk };

    ghost is_clean = { λ w. D.Disk.is_clean w.disk };

    ghost key_of = { λ w. D.Disk.key_of w.disk };

    ghost is_fair = { λ w. D.Disk.is_fair w.disk };

    ghost is_frozen = { λ w. D.Disk.is_frozen w.disk };

    ghost is_rotten = { λ w. D.Disk.is_rotten w.disk };

    ghost is_mixing = { λ w. D.Disk.is_mixing w.disk };

    ghost fair_if_clean = { λ w. D.Disk.fair_if_clean w.disk };

    ghost seen_may_stay = { λ w. D.Disk.seen_may_stay w.disk };

    fn mixes(&self) -> bool {
        self.disk.mixes()
    }

    fn key(&self) -> u64 {
        self.disk.key()
    }

    fn tally(&self) -> Tally {
        self.disk.tally()
    }

    fn may_be_used(&self) -> bool {
        self.disk.may_be_used()
    }

    fn len(&mut self) -> io::Result<usize> {
        self.disk.len()
    }

    fn read_at(&mut self, at: usize, buf: &mut [u8]) -> io::Result<()> {
        self.see(buf.len());
        self.disk.read_at(at, buf)
    }

    fn read_checked(&mut self, key: u64, want: u64, at: usize, buf: &mut [u8]) -> io::Result<()> {
        self.see(buf.len());
        self.disk.read_checked(key, want, at, buf)
    }

    fn write_at(&mut self, at: usize, bytes: &[u8]) -> io::Result<()> {
        self.disk.write_at(at, bytes)
    }

    fn set_len(&mut self, len: usize) -> io::Result<()> {
        self.disk.set_len(len)
    }

    fn sync(&mut self) -> io::Result<()> {
        self.disk.sync()
    }
}
