//! The report of an update.
ghost use Rattle.std.specs.Prelude.{◌≡◌, IfOk};
ghost use Rattle.clr_changes.specs.Shown.{as_update};
ghost use Rattle.clr_changes.specs.Report.{IsReport};

use crate::outcome::{Outcome, outcome_of};
use crate::print::print_changes;
use crate::update::Update;
use clr_book::Book;
use clr_rules::{Hold, PointState, Record, StepRow};
use clr_shelf::Shelf;
use clr_update::Obstacle;
use std::alloc::{AllocError, Global};

/// The report of an update.
#[derive(Drop)]
pub enum Report {
    /// This is in its way.
    InTheWay(Obstacle),
    /// What changes, a line each.
    Changes(String),
}

/// The report of an update of a book, which stays as it is.
pub fn report_of<P, C, T, H>(
    alloc: Global,
    book: &Book<P, C, T, H>,
    update: Update,
) -> Result<Report, AllocError>
where
    P: Shelf<PointState>,
    C: Shelf<Record>,
    T: Shelf<StepRow>,
    H: Shelf<Hold>,
    ensures { IfOk result (IsReport book.now.register (as_update update)) }
{
    let outcome = outcome_of(alloc, book, update)?;
    match outcome {
        Outcome::InTheWay(obstacle) => Ok(Report::InTheWay(obstacle)),
        Outcome::Accepted(after) => {
            let lines = print_changes(alloc, &after.changes)?;
            Ok(Report::Changes(lines))
        }
    }
}
