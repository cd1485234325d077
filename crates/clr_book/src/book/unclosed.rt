//! The shelf of the records that are not closed.
ghost use Rattle.std.specs.Prelude.{◌≡◌, ◌+◌, ◌<◌, ◌≤◌, List, true, IfOk, filter};
ghost use Rattle.clr_shelf.specs.Rows.{in_key_order, with_row};
ghost use Rattle.clr_rules.specs.Id.{id_cmp};
ghost use Rattle.clr_rules.specs.Records.{is_open, record_key};
ghost use Rattle.clr_rules.specs.declared.record.Record.{Record};
ghost use Rattle.clr_book.specs.Book.{open_in};

use crate::book::rows::{all_rows, filled};
use clr_rules::{Phase, Record};
use clr_shelf::Shelf;
use std::alloc::{AllocError, Global};

/// Whether a record is not closed.
fn is_open(record: &Record) -> bool
    ensures { result ≡ is_open record.now.phase }
{
    match record.phase {
        Phase::Closed => false,
        Phase::Requested
        | Phase::Ordered
        | Phase::Granted
        | Phase::Released
        | Phase::Restoring
        | Phase::Switching => true,
    }
}

/// A shelf with copies of the records of a shelf that are not closed.
pub(crate) fn open_shelf<C: Shelf<Record>>(alloc: Global, records: &C) -> Result<C, AllocError>
    ensures { IfOk result (λ found. C.rows found ≡ open_in (C.rows records.now)) }
{
    let rows = all_rows(alloc, records)?;
    let found = open_among(alloc, &rows)?;
    filled(alloc, &found)
}

/// Those of some records that are not closed.
fn open_among<'a>(alloc: Global, records: &[&'a Record]) -> Result<Vec<&'a Record>, AllocError>
    ensures { IfOk result (λ found. found.items
        ≡ filter (λ row. is_open row.now.phase) records.now) }
{
    records
        .iter()
        .copied()
        .filter(|record| is_open(record))
        .collect(alloc)
}

/// Puts a record on the shelf of those that are not closed. A closed one is taken out of it.
pub(crate) fn put_if_open<C: Shelf<Record>>(shelf: &mut C, row: &Record)
    requires { 0 < C.room shelf.old }
    ensures rows { (records : List Record) → in_key_order id_cmp record_key records ≡ true
        → C.rows shelf.old ≡ open_in records
        → C.rows shelf.new ≡ open_in (with_row id_cmp record_key row.now records) }
    ensures room { C.room shelf.old ≤ C.room shelf.new + 1 }
{
    if is_open(row) {
        shelf.put(*row);
    } else {
        let _taken = shelf.take(&row.id);
    }
}
