//! The file of the switching points.
ghost use Rattle.std.specs.Prelude.{◌≡◌, ◌≢◌, Err, IfSome, IsErrOf};
ghost use Rattle.clr_csv.specs.Answers.{GivesUnlessFailed};
ghost use Rattle.clr_stream.specs.Failures.{Rose};
ghost use Rattle.clr_csv.specs.Points.{point_header, point_in, points_of};
ghost use Rattle.clr_stream.specs.Whole.{TakesAtMost};

use crate::columns::{ColumnFault, name_in, position_in, yes_no_in};
use crate::fault::CsvFault;
use crate::rows::{FileRow, read_rows};
use clr_net::PointRow;
use clr_stream::CountedRead;
use csv::StringRecord;
use std::alloc::Global;

impl FileRow for PointRow {
    ghost header = { point_header };

    ghost columns = { point_in };

    fn header() -> &'static [&'static str] {
        &["point", "from", "to", "lockable", "remote", "position"]
    }

    fn read(fields: &StringRecord) -> Result<PointRow, ColumnFault> {
        let name = name_in(1, fields)?;
        let from_end = name_in(2, fields)?;
        let to_end = name_in(3, fields)?;
        let lockable = yes_no_in(4, fields)?;
        let remote = yes_no_in(5, fields)?;
        let position = position_in(6, fields)?;
        Ok(PointRow {
            name,
            from_end,
            to_end,
            lockable,
            remote,
            position,
            jumper: false,
        })
    }
}

/// Reads the file of the switching points, to its end: the header
/// `point,from,to,lockable,remote,position`, and under it a row for each point, with its name, the
/// sections at its ends, `yes` or `no` for lockable and for remote, and `open` or `closed`. No
/// point of a file is a jumper.
pub fn read_points<R: CountedRead>(alloc: Global, reader: &mut R) -> Result<Vec<PointRow>, CsvFault>
    ensures rows { IfSome (R.remaining reader.old) (λ file.
        GivesUnlessFailed (λ rows. rows.items) (points_of file) result) }
    ensures bounded { TakesAtMost 4194305 (R.remaining reader.old) (R.remaining reader.new) }
    ensures cause { IsErrOf result CsvFault.ReadFailed
        → Rose (R.failure_count reader.old) (R.failure_count reader.new) }
    ensures others { result ≢ Err CsvFault.ReadFailed
        → R.failure_count reader.new ≡ R.failure_count reader.old }
{
    let rows = read_rows(alloc, reader)?;
    Ok(rows)
}
