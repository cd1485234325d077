//! What a crash may leave of a file: writes since its last sync that are lost, torn or reordered.
ghost use Rattle.std.specs.Prelude.{◌<◌};

use clr_worked::{Behind, Held, Left, Part};
use std::alloc::Global;
use std::test::Fail;

/// How many bytes a disk writes whole.
const SECTOR: usize = 512;

/// Numbers that follow from a seed.
#[derive(Drop)]
struct Dice {
    state: u64,
}

impl Dice {
    fn new(seed: u64) -> Dice {
        Dice { state: seed }
    }

    /// A number below n sides.
    fn roll(&mut self, sides: u64) -> u64
        requires { 0 < sides }
        ensures { result < sides }
    {
        self.state = self
            .state
            .wrapping_mul(6364136223846793005)
            .wrapping_add(1442695040888963407);
        (self.state >> 33) % sides
    }
}

/// The contents of a file from its last sync on: first what was synced, then what each call left.
#[derive(Drop)]
struct Moments {
    contents: Vec<Vec<u8>>,
}

impl Moments {
    fn new(alloc: Global) -> Moments {
        Moments {
            contents: Vec::new(alloc),
        }
    }

    /// Adds what a call left. A sync begins the contents again.
    fn note(&mut self, alloc: Global, left: &Left) -> Result<(), Fail> {
        if !has(self.contents.first(), &left.synced) {
            self.contents.clear();
            self.contents.push(left.synced.to_vec(alloc)?)?;
        }
        if !has(self.contents.last(), &left.seen) {
            self.contents.push(left.seen.to_vec(alloc)?)?;
        }
        Ok(())
    }

    /// The sectors that were written since the last sync, by their places.
    fn written(&self, alloc: Global) -> Result<Vec<usize>, Fail> {
        let mut places = Vec::new(alloc);
        for place in 0..self.longest().len().div_ceil(SECTOR) {
            let start = place.saturating_mul(SECTOR);
            if self.differs(start, start.saturating_add(SECTOR)) {
                places.push(place)?;
            }
        }
        Ok(places)
    }

    /// Whether the bytes from `start` to `end` were not the same at all moments.
    fn differs(&self, start: usize, end: usize) -> bool {
        let Some(first) = self.contents.first() else {
            return false;
        };
        let first = cut(first, start, end);
        for bytes in &self.contents {
            if cut(bytes, start, end) != first {
                return true;
            }
        }
        false
    }

    /// The longest contents.
    fn longest(&self) -> &[u8] {
        let mut longest: &[u8] = &[];
        for bytes in &self.contents {
            if longest.len() <= bytes.len() {
                longest = bytes.as_slice();
            }
        }
        longest
    }

    /// What a crash leaves, as the dice fall: of some or all of the written sectors each has what
    /// it had at a moment of its own, or noise, and the length is that of a moment or between two.
    fn crashed(&self, alloc: Global, written: &[usize], dice: &mut Dice) -> Result<Vec<u8>, Fail> {
        let mut bytes = self.longest().to_vec(alloc)?;
        if let Some(last) = self.contents.last() {
            overwrite(&mut bytes, last.as_slice());
        }
        let len = self.some_len(dice);
        bytes.truncate(len);
        let rare = 1 + dice.roll(8);
        for place in written {
            if dice.roll(rare) == 0 {
                self.tear(&mut bytes, place.saturating_mul(SECTOR), dice);
            }
        }
        Ok(bytes)
    }

    /// The length of some moment, or one below the longest.
    fn some_len(&self, dice: &mut Dice) -> usize {
        let longest = self.longest().len();
        if dice.roll(4) == 0 {
            return self.below_longest(dice);
        }
        match self.some_moment(dice) {
            Some(bytes) => bytes.len(),
            None => longest,
        }
    }

    /// A length between the shortest and the longest.
    fn below_longest(&self, dice: &mut Dice) -> usize {
        let longest = self.longest().len();
        let mut shortest = longest;
        for bytes in &self.contents {
            shortest = shortest.min(bytes.len());
        }
        let more = dice.roll((longest.saturating_sub(shortest) as u64).max(1));
        shortest.saturating_add(more as usize)
    }

    /// The contents at some moment since the last sync.
    fn some_moment(&self, dice: &mut Dice) -> Option<&Vec<u8>> {
        let place = dice.roll((self.contents.len() as u64).max(1));
        self.contents.get(place as usize)
    }

    /// Gives the sector at this offset what it had at some moment, or noise where it was written.
    fn tear(&self, bytes: &mut [u8], start: usize, dice: &mut Dice) {
        let end = start.saturating_add(SECTOR);
        let is_noise = dice.roll(4) == 0;
        let moment = self.some_moment(dice);
        for at in start..end {
            let Some(cell) = bytes.get_mut(at) else {
                return;
            };
            if is_noise {
                if self.differs(at, at.saturating_add(1)) {
                    *cell = dice.roll(256) as u8;
                }
            } else if let Some(bytes) = moment
                && at < bytes.len()
            {
                *cell = bytes[at];
            }
        }
    }
}

/// What a crash may leave of both files, as one is stopped after one call more each time.
#[derive(Drop)]
pub struct Crashes {
    log: Moments,
    db: Moments,
}

impl Crashes {
    pub fn new(alloc: Global) -> Crashes {
        Crashes {
            log: Moments::new(alloc),
            db: Moments::new(alloc),
        }
    }

    /// Adds what a stop left. Of the other file no moments are known but its sync and the last.
    pub fn note(&mut self, alloc: Global, part: Part, behind: &Behind) -> Result<(), Fail> {
        match part {
            Part::Log => self.db.contents.clear(),
            Part::Db => self.log.contents.clear(),
        }
        self.log.note(alloc, &behind.log)?;
        self.db.note(alloc, &behind.db)
    }

    /// What n crashes leave. None where all that was written is synced.
    pub fn some(&self, alloc: Global, count: u64) -> Result<Vec<Held>, Fail> {
        let log = self.log.written(alloc)?;
        let db = self.db.written(alloc)?;
        let is_synced = log.is_empty() && db.is_empty();
        let mut left = Vec::new(alloc);
        let count = if is_synced { 0 } else { count };
        for seed in 0..count {
            left.push(self.one(alloc, &log, &db, seed)?)?;
        }
        Ok(left)
    }

    /// What one crash leaves, by the written sectors of both files.
    fn one(&self, alloc: Global, log: &[usize], db: &[usize], seed: u64) -> Result<Held, Fail> {
        let mut dice = Dice::new(seed);
        let log = self.log.crashed(alloc, log, &mut dice)?;
        Ok(Held {
            log,
            db: self.db.crashed(alloc, db, &mut dice)?,
        })
    }
}

/// Whether a file had these bytes at a moment.
fn has(moment: Option<&Vec<u8>>, bytes: &[u8]) -> bool {
    match moment {
        Some(held) => held.as_slice() == bytes,
        None => false,
    }
}

/// The bytes from `start` to `end`, as far as there are any.
fn cut(bytes: &[u8], start: usize, end: usize) -> &[u8] {
    let end = end.min(bytes.len());
    let start = start.min(end);
    &bytes[start..end]
}

/// Puts bytes over the first of others.
fn overwrite(bytes: &mut [u8], first: &[u8]) {
    for (cell, byte) in bytes.iter_mut().zip(first) {
        *cell = *byte;
    }
}
