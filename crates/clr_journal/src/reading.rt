//! Which line of a journal is the next.
ghost use Rattle.std.specs.Prelude.{◌≡◌, ◌==◌, ◌+◌};
ghost use Rattle.clr_journal.specs.Journals.{first_turn, is_next, turn_after};
ghost use Rattle.clr_journal.specs.Line.{entry_of};

use crate::line::{Line, is_accepted};

/// Where a journal has come to.
#[derive(Clone, Copy)]
pub struct Turn {
    /// The number of its last deed; 0 where it has none.
    pub last: u64,
    /// Whether that deed may be withdrawn: the last line accepted it.
    pub is_open: bool,
}

impl Turn {
    /// Before the first line.
    pub fn first() -> Turn
        ensures { result ≡ first_turn }
    {
        Turn {
            last: 0,
            is_open: false,
        }
    }

    /// After a line.
    pub fn after(line: &Line) -> Turn
        ensures { result ≡ turn_after (entry_of line.now) }
    {
        match line {
            Line::Carried(carried) => Turn {
                last: carried.receipt.number,
                is_open: is_accepted(&carried.reply),
            },
            Line::Withdrawn(number) => Turn {
                last: *number,
                is_open: false,
            },
        }
    }

    /// Whether a line is the next.
    pub fn is_next(self, line: &Line) -> bool
        ensures { result ≡ is_next self (entry_of line.now) }
    {
        match line {
            Line::Carried(carried) => follows(self.last, carried.receipt.number),
            Line::Withdrawn(number) => self.is_open && *number == self.last,
        }
    }
}

/// Whether a number comes next after another.
fn follows(last: u64, number: u64) -> bool
    ensures { result ≡ (number == last + 1) }
{
    number > 0 && number - 1 == last
}
