//! The rows of a file: its header, and under it a row to each record.
ghost use Rattle.std.specs.Prelude.{◌≡◌, ◌≢◌, ℕ, ◌+◌, ◌^◌, ◌<◌, Err, IfSome, IsErrOf, List, Result};
ghost use Rattle.std.specs.Prelude.{length, map, true};
ghost use Rattle.csv.specs.Reading.{default_config, records, strip_bom};
ghost use Rattle.csv.specs.Records.{fields_of};
ghost use Rattle.clr_csv.specs.Answers.{Gives, GivesUnlessFailed};
ghost use Rattle.clr_stream.specs.Failures.{Rose};
ghost use Rattle.clr_csv.specs.Rows.{is_ascii, is_text, row_of, rows_from, rows_in, rows_of};
ghost use Rattle.clr_csv.specs.Rows.{within_limit};
ghost use Rattle.clr_csv.specs.Rows.{same_fields, under_header};
ghost use Rattle.clr_stream.specs.Whole.{TakesAtMost};

use crate::columns::ColumnFault;
use crate::fault::CsvFault;
use crate::table::Table;
use clr_stream::{CountedRead, ReadFault, read_whole};
use csv::StringRecord;
use std::alloc::Global;

/// The most bytes that a file has.
const MAX_FILE_BYTES: usize = 4_194_304;

/// A kind of row, of which a file holds one to each record under its header.
pub(crate) trait FileRow: Sized + Drop {
    ghost use Rattle.clr_csv.specs.declared.columns.ColumnFault.{ColumnFault};

    /// The names of the columns.
    ghost header: { List (List ℕ) };

    /// What the fields of a row read as, where there are as many as columns.
    ghost columns: { List (List ℕ) → Result Self ColumnFault };

    /// The names of the columns, from the left.
    fn header() -> &'static [&'static str]
        ensures names { map (λ name. name.now) result.now ≡ header }
        ensures ascii { is_ascii header ≡ true };

    /// Reads the fields of a row from the left, up to the first that does not read.
    fn read(fields: &StringRecord) -> Result<Self, ColumnFault>
        ensures { result ≡ columns (fields_of fields.now) };
}

/// Whether a record has exactly these fields.
fn has_fields(found: &StringRecord, fields: &[&str]) -> bool
    ensures { result ≡ same_fields (map (λ field. field.now) fields.now) (fields_of found.now) }
{
    if found.len() != fields.len() {
        return false;
    }
    for (place, field) in fields.iter().enumerate() {
        if Some(*field) != found.get(place) {
            return false;
        }
    }
    true
}

/// Reads one row.
#[tactic(auto, unfolding(crate::specs::Rows::row_of))]
fn read_row<T: FileRow>(row: usize, fields: &StringRecord) -> Result<T, CsvFault>
    requires { is_text (fields_of fields.now) ≡ true }
    ensures { result ≡ row_of T.header T.columns row (fields_of fields.now) }
{
    if fields.len() != T::header().len() {
        return Err(CsvFault::FieldCount(row));
    }
    T::read(fields).map_err(|fault| fault.in_row(row))
}

/// Reads the first record, which is to be the header.
fn read_header(alloc: Global, table: &mut Table<'_>, header: &[&str]) -> Result<(), CsvFault>
    requires { is_ascii (map (λ name. name.now) header.now) ≡ true }
    ensures { Gives (λ done. table.new)
        (under_header (map (λ name. name.now) header.now) table.old) result }
{
    let mut fields = StringRecord::new(alloc);
    let found = table.next(&mut fields, CsvFault::Header)?;
    if found && has_fields(&fields, header) {
        Ok(())
    } else {
        Err(CsvFault::Header)
    }
}

/// Reads the rows under the header.
fn read_table<T: FileRow>(alloc: Global, table: &mut Table<'_>) -> Result<Vec<T>, CsvFault>
    requires { length table.old + 1 < 2 ^ 64 }
    ensures { Gives (λ rows. rows.items)
        (rows_from (row_of T.header T.columns) 1 table.old) result }
{
    let mut fields = StringRecord::new(alloc);
    let mut rows = Vec::new(alloc);
    let mut row = 1;
    while table.next(&mut fields, CsvFault::NotText(row))? {
        rows.push(read_row(row, &fields)?)?;
        row += 1;
    }
    Ok(rows)
}

/// Reads the rows of a file that is in memory.
#[tactic(auto, unfolding(crate::specs::Rows::rows_in))]
fn rows_in<T: FileRow>(alloc: Global, bytes: &[u8]) -> Result<Vec<T>, CsvFault>
    ensures { Gives (λ rows. rows.items)
        (rows_in T.header T.columns (records default_config (strip_bom bytes.now))) result }
{
    let mut table = Table::new(alloc, bytes);
    read_header(alloc, &mut table, T::header())?;
    let rows = read_table(alloc, &mut table)?;
    Ok(rows)
}

/// Reads a file to its end.
fn read_file<R: CountedRead>(alloc: Global, reader: &mut R) -> Result<Vec<u8>, CsvFault>
    ensures bytes { IfSome (R.remaining reader.old) (λ bytes.
        GivesUnlessFailed (λ read. read.items) (within_limit bytes) result) }
    ensures bounded { TakesAtMost 4194305 (R.remaining reader.old) (R.remaining reader.new) }
    ensures cause { IsErrOf result CsvFault.ReadFailed
        → Rose (R.failure_count reader.old) (R.failure_count reader.new) }
    ensures others { result ≢ Err CsvFault.ReadFailed
        → R.failure_count reader.new ≡ R.failure_count reader.old }
{
    match read_whole(alloc, reader, MAX_FILE_BYTES) {
        Ok(bytes) => Ok(bytes),
        Err(ReadFault::ReadFailed) => Err(CsvFault::ReadFailed),
        Err(ReadFault::TooLong) => Err(CsvFault::TooLong),
        Err(ReadFault::NoMemory) => Err(CsvFault::NoMemory),
    }
}

/// Reads a file to its end, and then its rows.
#[tactic(auto, unfolding(crate::specs::Rows::rows_of))]
pub(crate) fn read_rows<T: FileRow, R: CountedRead>(
    alloc: Global,
    reader: &mut R,
) -> Result<Vec<T>, CsvFault>
    ensures rows { IfSome (R.remaining reader.old) (λ bytes.
        GivesUnlessFailed (λ rows. rows.items) (rows_of T.header T.columns bytes) result) }
    ensures bounded { TakesAtMost 4194305 (R.remaining reader.old) (R.remaining reader.new) }
    ensures cause { IsErrOf result CsvFault.ReadFailed
        → Rose (R.failure_count reader.old) (R.failure_count reader.new) }
    ensures others { result ≢ Err CsvFault.ReadFailed
        → R.failure_count reader.new ≡ R.failure_count reader.old }
{
    let bytes = read_file(alloc, reader)?;
    let rows = rows_in(alloc, bytes.as_slice())?;
    Ok(rows)
}
