//! The file of the sections.
ghost use Rattle.std.specs.Prelude.{◌≡◌, ◌≢◌, Err, IfSome, IsErrOf};
ghost use Rattle.clr_csv.specs.Answers.{GivesUnlessFailed};
ghost use Rattle.clr_stream.specs.Failures.{Rose};
ghost use Rattle.clr_csv.specs.Sections.{section_header, section_in, sections_of};
ghost use Rattle.clr_stream.specs.Whole.{TakesAtMost};

use crate::columns::{ColumnFault, name_in, yes_no_in};
use crate::fault::CsvFault;
use crate::rows::{FileRow, read_rows};
use clr_net::SectionRow;
use clr_stream::CountedRead;
use csv::StringRecord;
use std::alloc::Global;

impl FileRow for SectionRow {
    ghost header = { section_header };

    ghost columns = { section_in };

    fn header() -> &'static [&'static str] {
        &["section", "source"]
    }

    fn read(fields: &StringRecord) -> Result<SectionRow, ColumnFault> {
        let name = name_in(1, fields)?;
        let source = yes_no_in(2, fields)?;
        Ok(SectionRow { name, source })
    }
}

/// Reads the file of the sections, to its end: the header `section,source`, and under it a row for
/// each section, with its name and with `yes` where it is a source and `no` where it is not.
pub fn read_sections<R: CountedRead>(
    alloc: Global,
    reader: &mut R,
) -> Result<Vec<SectionRow>, CsvFault>
    ensures rows { IfSome (R.remaining reader.old) (λ file.
        GivesUnlessFailed (λ rows. rows.items) (sections_of file) result) }
    ensures bounded { TakesAtMost 4194305 (R.remaining reader.old) (R.remaining reader.new) }
    ensures cause { IsErrOf result CsvFault.ReadFailed
        → Rose (R.failure_count reader.old) (R.failure_count reader.new) }
    ensures others { result ≢ Err CsvFault.ReadFailed
        → R.failure_count reader.new ≡ R.failure_count reader.old }
{
    let rows = read_rows(alloc, reader)?;
    Ok(rows)
}
