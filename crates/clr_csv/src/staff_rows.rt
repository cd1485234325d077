//! The file of the staff.
ghost use Rattle.std.specs.Prelude.{◌≡◌, ◌≢◌, Err, IfSome, IsErrOf};
ghost use Rattle.clr_csv.specs.Answers.{GivesUnlessFailed};
ghost use Rattle.clr_stream.specs.Failures.{Rose};
ghost use Rattle.clr_csv.specs.StaffRows.{staff_header, staff_row_in, staff_of};
ghost use Rattle.clr_stream.specs.Whole.{TakesAtMost};

use crate::columns::{ColumnFault, name_in, name_or_none_in, role_in};
use crate::fault::CsvFault;
use crate::rows::{FileRow, read_rows};
use clr_staff::StaffRow;
use clr_stream::CountedRead;
use csv::StringRecord;
use std::alloc::Global;

impl FileRow for StaffRow {
    ghost header = { staff_header };

    ghost columns = { staff_row_in };

    fn header() -> &'static [&'static str] {
        &["employee", "role", "supervisor"]
    }

    fn read(fields: &StringRecord) -> Result<StaffRow, ColumnFault> {
        let name = name_in(1, fields)?;
        let role = role_in(2, fields)?;
        let supervisor = name_or_none_in(3, fields)?;
        Ok(StaffRow {
            name,
            role,
            supervisor,
        })
    }
}

/// Reads the file of the staff, to its end: the header `employee,role,supervisor`, and under it a
/// row for each employee, with the name, with `operator`, `field` or `charge`, and with the
/// supervisor's name, empty where there is none.
pub fn read_staff<R: CountedRead>(alloc: Global, reader: &mut R) -> Result<Vec<StaffRow>, CsvFault>
    ensures rows { IfSome (R.remaining reader.old) (λ file.
        GivesUnlessFailed (λ rows. rows.items) (staff_of file) result) }
    ensures bounded { TakesAtMost 4194305 (R.remaining reader.old) (R.remaining reader.new) }
    ensures cause { IsErrOf result CsvFault.ReadFailed
        → Rose (R.failure_count reader.old) (R.failure_count reader.new) }
    ensures others { result ≢ Err CsvFault.ReadFailed
        → R.failure_count reader.new ≡ R.failure_count reader.old }
{
    let rows = read_rows(alloc, reader)?;
    Ok(rows)
}
