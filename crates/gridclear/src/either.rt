//! A disk that is one of two.
ghost use Rattle.gridclear.specs.declared.either.Either.TheVariants.{First, Second};

use sqlite_disk::{Disk, Tally};
use std::io;

/// A disk of one type or of another.
#[derive(Drop)]
pub enum Either<A, B> {
    First(A),
    Second(B),
}

/// What is said of the disk that it is, is said of it.
impl<A: Disk, B: Disk> Disk for Either<A, B> {
    ghost seen = { elim [ First a ↦ A.Disk.seen a | Second b ↦ B.Disk.seen b ] };

    ghost may_leave = { elim [ First a ↦ A.Disk.may_leave a | Second b ↦ B.Disk.may_leave b ] };

    ghost is_usable = { elim [ First a ↦ A.Disk.is_usable a | Second b ↦ B.Disk.is_usable b ] };

    ghost faults = { elim [ First a ↦ A.Disk.faults a | Second b ↦ B.Disk.faults b ] };

    ghost tally_of = { elim [ First a ↦ A.Disk.tally_of a | Second b ↦ B.Disk.tally_of b ] };

    ghost is_clean = { elim [ First a ↦ A.Disk.is_clean a | Second b ↦ B.Disk.is_clean b ] };

    ghost key_of = { elim [ First a ↦ A.Disk.key_of a | Second b ↦ B.Disk.key_of b ] };

    ghost is_fair = { elim [ First a ↦ A.Disk.is_fair a | Second b ↦ B.Disk.is_fair b ] };

    ghost is_frozen = { elim [ First a ↦ A.Disk.is_frozen a | Second b ↦ B.Disk.is_frozen b ] };

    ghost is_rotten = { elim [ First a ↦ A.Disk.is_rotten a | Second b ↦ B.Disk.is_rotten b ] };

    ghost is_mixing = { elim [ First a ↦ A.Disk.is_mixing a | Second b ↦ B.Disk.is_mixing b ] };

    ghost fair_if_clean = { elim [
      | First a ↦ A.Disk.fair_if_clean a
      | Second b ↦ B.Disk.fair_if_clean b
    ] };

    ghost seen_may_stay = { elim [
      | First a ↦ A.Disk.seen_may_stay a
      | Second b ↦ B.Disk.seen_may_stay b
    ] };

    fn mixes(&self) -> bool {
        match self {
            Either::First(disk) => disk.mixes(),
            Either::Second(disk) => disk.mixes(),
        }
    }

    fn key(&self) -> u64 {
        match self {
            Either::First(disk) => disk.key(),
            Either::Second(disk) => disk.key(),
        }
    }

    fn tally(&self) -> Tally {
        match self {
            Either::First(disk) => disk.tally(),
            Either::Second(disk) => disk.tally(),
        }
    }

    fn may_be_used(&self) -> bool {
        match self {
            Either::First(disk) => disk.may_be_used(),
            Either::Second(disk) => disk.may_be_used(),
        }
    }

    fn len(&mut self) -> io::Result<usize> {
        match self {
            Either::First(disk) => disk.len(),
            Either::Second(disk) => disk.len(),
        }
    }

    fn read_at(&mut self, at: usize, buf: &mut [u8]) -> io::Result<()> {
        match self {
            Either::First(disk) => disk.read_at(at, buf),
            Either::Second(disk) => disk.read_at(at, buf),
        }
    }

    fn read_checked(&mut self, key: u64, want: u64, at: usize, buf: &mut [u8]) -> io::Result<()> {
        match self {
            Either::First(disk) => disk.read_checked(key, want, at, buf),
            Either::Second(disk) => disk.read_checked(key, want, at, buf),
        }
    }

    fn write_at(&mut self, at: usize, bytes: &[u8]) -> io::Result<()> {
        match self {
            Either::First(disk) => disk.write_at(at, bytes),
            Either::Second(disk) => disk.write_at(at, bytes),
        }
    }

    fn set_len(&mut self, len: usize) -> io::Result<()> {
        match self {
            Either::First(disk) => disk.set_len(len),
            Either::Second(disk) => disk.set_len(len),
        }
    }

    fn sync(&mut self) -> io::Result<()> {
        match self {
            Either::First(disk) => disk.sync(),
            Either::Second(disk) => disk.sync(),
        }
    }
}
