//! Work over two files, of which one stops at each of its calls in turn.
use crate::stops::crashes::Crashes;
use clr_worked::{Behind, Held, Part};
use std::alloc::Global;
use std::process::Abort;
use std::test::Fail;

/// How many crashes are tried of each stop, beside what was synced and what was frozen.
const CRASHES: u64 = 100;

/// More calls than any work here makes of a file.
const MOST_CALLS: u64 = 10_000;

/// Work over two files that goes step by step, of which one may stop.
pub trait Trial {
    /// How many steps the work has.
    fn steps(&self) -> usize;

    /// Does the work over files, of which one stops after n calls.
    fn act(&self, alloc: Global, before: &Held, part: Part, calls: u64) -> Result<Stop, Fail>;

    /// Whether files hold what is there after this many steps, or after one more, and what is left
    /// to do is done from there as if nothing had stopped.
    fn is_sound(&self, alloc: Global, held: &Held, answered: usize) -> Result<bool, Fail>;
}

/// What work came to that was stopped: how many steps were answered, and what the files hold.
#[derive(PartialEq, Drop)]
pub struct Stop {
    pub answered: usize,
    pub behind: Behind,
}

/// Files that hold these bytes.
fn held(alloc: Global, log: &[u8], db: &[u8]) -> Result<Held, Fail> {
    Ok(Held {
        log: log.to_vec(alloc)?,
        db: db.to_vec(alloc)?,
    })
}

/// What a stop leaves: what crashes make of it, what was synced, and what was frozen.
fn all_left(alloc: Global, behind: &Behind, crashes: &Crashes) -> Result<Vec<Held>, Fail> {
    let Behind { log, db, .. } = behind;
    let mut left = crashes.some(alloc, CRASHES)?;
    left.push(held(alloc, &log.synced, &db.synced)?)?;
    left.push(held(alloc, &log.seen, &db.seen)?)?;
    Ok(left)
}

/// Which of what a stop leaves is not sound, by its place.
fn unsound_place<T: Trial>(
    alloc: Global,
    trial: &T,
    stop: &Stop,
    crashes: &Crashes,
) -> Result<Option<usize>, Fail> {
    let left = all_left(alloc, &stop.behind, crashes)?;
    for (place, held) in left.iter().enumerate() {
        if !trial.is_sound(alloc, held, stop.answered)? {
            return Ok(Some(place));
        }
    }
    Ok(None)
}

/// Stops a file at each of its calls, and returns how many there are: the first work that leaves it
/// a call is that of one call more. A stop that leaves all as the one before it is sound as that
/// was.
pub fn stops<R: Abort, T: Trial>(
    rt: &R,
    alloc: Global,
    trial: &T,
    before: &Held,
    part: Part,
) -> Result<u64, Fail> {
    let mut crashes = Crashes::new(alloc);
    let mut last = None;
    for calls in 0..MOST_CALLS {
        let stop = trial.act(alloc, before, part, calls)?;
        if last.as_ref() != Some(&stop) {
            crashes.note(alloc, part, &stop.behind)?;
            let unsound = unsound_place(alloc, trial, &stop, &crashes)?;
            assert_eq!(rt; unsound, None, "{part:?} at {calls}");
        }
        if stop.behind.is_whole {
            return whole_count(trial, stop.answered, calls);
        }
        last = Some(stop);
    }
    Err("work that stops at each call".into())
}

/// How many calls work made that had one left. Where it did not come to its end, no call of the
/// files failed, so it was out of memory.
fn whole_count<T: Trial>(trial: &T, answered: usize, calls: u64) -> Result<u64, Fail> {
    if answered == trial.steps() {
        Ok(calls.saturating_sub(1))
    } else {
        Err(Fail::new("out of memory"))
    }
}
