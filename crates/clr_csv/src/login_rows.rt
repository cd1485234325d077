//! The file of logins.
ghost use Rattle.std.specs.Prelude.{◌≡◌, ◌≢◌, Err, IfSome, IsErrOf};
ghost use Rattle.clr_csv.specs.Answers.{GivesUnlessFailed};
ghost use Rattle.clr_stream.specs.Failures.{Rose};
ghost use Rattle.clr_csv.specs.LoginRows.{login_row_in, logins_header, logins_of};
ghost use Rattle.clr_stream.specs.Whole.{TakesAtMost};

use crate::columns::{ColumnFault, login_in, name_in};
use crate::fault::CsvFault;
use crate::rows::{FileRow, read_rows};
use clr_staff::LoginRow;
use clr_stream::CountedRead;
use csv::StringRecord;
use std::alloc::Global;

impl FileRow for LoginRow {
    ghost header = { logins_header };

    ghost columns = { login_row_in };

    fn header() -> &'static [&'static str] {
        &["login", "employee"]
    }

    fn read(fields: &StringRecord) -> Result<LoginRow, ColumnFault> {
        let login = login_in(1, fields)?;
        let employee = name_in(2, fields)?;
        Ok(LoginRow { login, employee })
    }
}

/// Reads the file of logins, to its end: the header `login,employee`, and under it a row for each
/// employee for whom a login may speak. A login may have several rows.
pub fn read_logins<R: CountedRead>(alloc: Global, reader: &mut R) -> Result<Vec<LoginRow>, CsvFault>
    ensures rows { IfSome (R.remaining reader.old) (λ file.
        GivesUnlessFailed (λ rows. rows.items) (logins_of file) result) }
    ensures bounded { TakesAtMost 4194305 (R.remaining reader.old) (R.remaining reader.new) }
    ensures cause { IsErrOf result CsvFault.ReadFailed
        → Rose (R.failure_count reader.old) (R.failure_count reader.new) }
    ensures others { result ≢ Err CsvFault.ReadFailed
        → R.failure_count reader.new ≡ R.failure_count reader.old }
{
    let rows = read_rows(alloc, reader)?;
    Ok(rows)
}
