//! The records that an archive prints, and the steps that go.
ghost use Rattle.std.specs.Prelude.{◌≡◌, IfOk, filter, map};
ghost use Rattle.clr_rules.specs.StepKey.{step_key};
ghost use Rattle.clr_changes.specs.Archive.{gives_up, is_printed, printed_records, steps_that_go};

use crate::past::{gives_up, is_printed};
use clr_book::{Book, all_rows};
use clr_rules::{Hold, Moment, PointState, Record, StepKey, StepRow};
use clr_shelf::{Row, Shelf};
use std::alloc::{AllocError, Global};

/// The records that were closed before a moment and have steps, in the order of their clearances.
/// Each is printed with its steps, and these go.
pub fn printed_records<P, C, T, H>(
    alloc: Global,
    book: &Book<P, C, T, H>,
    before: Moment,
) -> Result<Vec<&Record>, AllocError>
where
    P: Shelf<PointState>,
    C: Shelf<Record>,
    T: Shelf<StepRow>,
    H: Shelf<Hold>,
    ensures { IfOk result (λ found. map (λ row. row.now) found.items
        ≡ printed_records before book.now.register) }
{
    let records = book.records()?;
    let found = printed_among(alloc, book, records.as_slice(), before)?;
    Ok(found)
}

/// Those of some records that are printed.
fn printed_among<'a, P, C, T, H>(
    alloc: Global,
    book: &Book<P, C, T, H>,
    records: &[&'a Record],
    before: Moment,
) -> Result<Vec<&'a Record>, AllocError>
where
    P: Shelf<PointState>,
    C: Shelf<Record>,
    T: Shelf<StepRow>,
    H: Shelf<Hold>,
    ensures { IfOk result (λ found. found.items
        ≡ filter (λ row. is_printed before book.now.register row.now) records.now) }
{
    records
        .iter()
        .copied()
        .filter(|record| is_printed(book, *record, before))
        .collect(alloc)
}

/// The keys of the steps that go, in their order.
pub fn keys_that_go<P, C, T, H>(
    alloc: Global,
    book: &Book<P, C, T, H>,
    before: Moment,
) -> Result<Vec<StepKey>, AllocError>
where
    P: Shelf<PointState>,
    C: Shelf<Record>,
    T: Shelf<StepRow>,
    H: Shelf<Hold>,
    ensures { IfOk result (λ keys. keys.items
        ≡ map step_key (steps_that_go before book.now.register)) }
{
    let (_, _, steps, _) = book.shelves();
    let rows = all_rows(alloc, steps)?;
    let keys = keys_among(alloc, book, rows.as_slice(), before)?;
    Ok(keys)
}

/// The keys of those of some steps that go.
fn keys_among<P, C, T, H>(
    alloc: Global,
    book: &Book<P, C, T, H>,
    rows: &[&StepRow],
    before: Moment,
) -> Result<Vec<StepKey>, AllocError>
where
    P: Shelf<PointState>,
    C: Shelf<Record>,
    T: Shelf<StepRow>,
    H: Shelf<Hold>,
    ensures { IfOk result (λ keys. keys.items
        ≡ map (λ row. step_key row.now)
        (filter (λ row. gives_up before book.now.register row.now.id) rows.now)) }
{
    rows.iter()
        .copied()
        .filter(|row| gives_up(book, row.id, before))
        .map(|row| row.key())
        .collect(alloc)
}
