//! Which records are past, and which clearances give up their steps.
ghost use Rattle.std.specs.Prelude.{◌≡◌};
ghost use Rattle.clr_rules.specs.Prelude.{is_some_step, steps_of};
ghost use Rattle.clr_changes.specs.Archive.{gives_up, is_past, is_printed};

use clr_book::Book;
use clr_rules::{ClearanceId, Hold, Moment, Phase, PointState, Record, StepRow};
use clr_shelf::Shelf;

/// Whether a record is Closed, and its last moment is before this one.
pub(crate) fn is_past(record: &Record, before: Moment) -> bool
    ensures { result ≡ is_past before record.now }
{
    matches!(record.phase, Phase::Closed) && record.last.seconds() < before.seconds()
}

/// Whether a clearance gives up its steps.
pub(crate) fn gives_up<P, C, T, H>(book: &Book<P, C, T, H>, id: ClearanceId, before: Moment) -> bool
where
    P: Shelf<PointState>,
    C: Shelf<Record>,
    T: Shelf<StepRow>,
    H: Shelf<Hold>,
    ensures { result ≡ gives_up before book.now.register id }
{
    match book.record(&id) {
        Some(record) => is_past(record, before),
        None => false,
    }
}

/// Whether a record is printed: it is past, and has steps.
pub(crate) fn is_printed<P, C, T, H>(
    book: &Book<P, C, T, H>,
    record: &Record,
    before: Moment,
) -> bool
where
    P: Shelf<PointState>,
    C: Shelf<Record>,
    T: Shelf<StepRow>,
    H: Shelf<Hold>,
    ensures { result ≡ is_printed before book.now.register record.now }
{
    is_past(record, before) && has_steps(book, record.id)
}

/// Whether a clearance has steps.
fn has_steps<P, C, T, H>(book: &Book<P, C, T, H>, id: ClearanceId) -> bool
where
    P: Shelf<PointState>,
    C: Shelf<Record>,
    T: Shelf<StepRow>,
    H: Shelf<Hold>,
    ensures { result ≡ is_some_step (steps_of book.now.register.steps id) }
{
    let (_, _, steps, _) = book.shelves();
    match steps.last(&id) {
        Some(_last) => true,
        None => false,
    }
}
