//! The book after an archive.
ghost use Rattle.std.specs.Prelude.{◌≡◌, IfOk, filter, not};
ghost use Rattle.clr_changes.specs.Archive.{archived, gives_up};

use crate::past::gives_up;
use clr_book::{Book, all_rows, filled};
use clr_rules::{Hold, Moment, PointState, Record, StepRow};
use clr_shelf::{Row, Shelf};
use std::alloc::{AllocError, Global};

/// The book after an archive: without the steps of the records that were closed before a moment.
/// Its other rows are copied.
pub fn archived_book<P, C, T, H>(
    alloc: Global,
    book: Book<P, C, T, H>,
    before: Moment,
) -> Result<Book<P, C, T, H>, AllocError>
where
    P: Shelf<PointState>,
    C: Shelf<Record>,
    T: Shelf<StepRow>,
    H: Shelf<Hold>,
    ensures register { IfOk result (λ after. after.register ≡ archived before book.register) }
    ensures network { IfOk result (λ after. after.network ≡ book.network) }
{
    let (_, records, steps, holds) = book.shelves();
    let records = copied(alloc, records)?;
    let holds = copied(alloc, holds)?;
    let steps = left(alloc, &book, steps, before)?;
    let after = book.with_shelves(records, steps, holds)?;
    Ok(after)
}

/// A shelf with copies of the rows of a shelf.
fn copied<R: Row + Copy, S: Shelf<R>>(alloc: Global, shelf: &S) -> Result<S, AllocError>
    ensures { IfOk result (λ copy. S.rows copy ≡ S.rows shelf.now) }
{
    let rows = all_rows(alloc, shelf)?;
    filled(alloc, rows.as_slice())
}

/// A shelf with copies of the steps that stay.
fn left<P, C, T, H>(
    alloc: Global,
    book: &Book<P, C, T, H>,
    steps: &T,
    before: Moment,
) -> Result<T, AllocError>
where
    P: Shelf<PointState>,
    C: Shelf<Record>,
    T: Shelf<StepRow>,
    H: Shelf<Hold>,
    ensures { IfOk result (λ shelf. T.rows shelf
        ≡ filter (λ row. not (gives_up before book.now.register row.id)) (T.rows steps.now)) }
{
    let rows = all_rows(alloc, steps)?;
    let kept = kept_among(alloc, book, rows.as_slice(), before)?;
    filled(alloc, kept.as_slice())
}

/// Those of some steps that stay.
fn kept_among<'a, P, C, T, H>(
    alloc: Global,
    book: &Book<P, C, T, H>,
    rows: &[&'a StepRow],
    before: Moment,
) -> Result<Vec<&'a StepRow>, AllocError>
where
    P: Shelf<PointState>,
    C: Shelf<Record>,
    T: Shelf<StepRow>,
    H: Shelf<Hold>,
    ensures { IfOk result (λ kept. kept.items
        ≡ filter (λ row. not (gives_up before book.now.register row.now.id)) rows.now) }
{
    rows.iter()
        .copied()
        .filter(|row| !gives_up(book, row.id, before))
        .collect(alloc)
}
