//! The watch over the opening of a database.
//!
//! Of what a cell holds, and of a terminal, no clause speaks: what is shown, and when, the clauses
//! of `Opening` say.
ghost use Rattle.std.specs.Prelude.{◌≡◌, ◌<◌, ◌/◌, ◌^◌};
ghost use Rattle.std.specs.Duration.{as_nanos};

use crate::opening::Opening;
use clr_stream::Counted;
use std::cell::Cell;
use std::io::IsTerminal;
use std::rt::{Clock, Stderr};
use std::time::{Duration, Instant};

/// What a watch is shown.
#[derive(Clone, Copy)]
pub enum Event {
    /// The opening of a file of this number of bytes begins.
    Begins(u64),
    /// This number of bytes was read.
    Reads(usize),
    /// The opening has ended, or the program goes on to what comes after it.
    Ends,
}

/// The watch over an opening, which has a clock and standard error, and no more of the machine.
/// Where standard error is a terminal, it shows there how far an opening has come that takes more
/// than a second, until it ends.
#[derive(Drop)]
pub struct Watch<K> {
    clock: K,
    errors: Stderr,
    opening: Cell<Option<(Opening, Instant)>>,
}

impl<K: Clock> Watch<K> {
    /// A watch that has nothing to show yet.
    pub fn new(clock: K, errors: Stderr) -> Watch<K>
        ensures clock { result.clock ≡ clock }
        ensures errors { result.errors ≡ errors }
    {
        Watch {
            clock,
            errors,
            opening: Cell::new(None),
        }
    }

    /// Sees what happens. Where no opening is under way, only the beginning of one counts.
    pub fn see(&self, event: Event) {
        let mut errors = Counted::new(self.errors);
        let under_way = match (event, self.opening.get()) {
            (Event::Begins(size), _) => {
                let opening = Opening::begun(self.errors.is_terminal(), size);
                opening.zip(Instant::now(&self.clock).ok())
            }
            (_, None) => return,
            (Event::Reads(bytes), Some((opening, since))) => match Instant::now(&self.clock) {
                Ok(now) => {
                    let millis = millis_of(now.saturating_duration_since(since));
                    Some((opening.read_on(bytes, millis, &mut errors), since))
                }
                Err(_) => Some((opening, since)),
            },
            (Event::Ends, Some((opening, _))) => {
                opening.end(&mut errors);
                None
            }
        };
        self.opening.set(under_way);
    }
}

/// The whole milliseconds of a time, up to 2^64 - 1.
fn millis_of(time: Duration) -> u64
    ensures { as_nanos time / 1000000 < 2 ^ 64 → result ≡ as_nanos time / 1000000 }
{
    u64::try_from(time.as_millis()).unwrap_or(u64::MAX)
}
