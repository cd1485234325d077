//! The records of a file that is in memory.
ghost use Rattle.std.specs.Prelude.{◌≡◌, ◌+◌, ◌≤◌, length};
ghost use Rattle.csv.specs.Reading.{default_config, records, strip_bom};
ghost use Rattle.csv.specs.Records.{fields_of};

use crate::fault::CsvFault;
use csv::{ErrorKind, Reader, ReaderBuilder, StringRecord};
use std::alloc::Global;
use std::marker::Model;

/// The records of a file that are still to be read, the header among them.
#[derive(Drop)]
pub(crate) struct Table<'a> {
    reader: Reader<&'a [u8]>,
}

impl<'a> Model for Table<'a> {
    ghost use Rattle.std.specs.Prelude.{List, ℕ};
    ghost use Rattle.clr_csv.specs.Table.{records_left, IsSetUpOrFailed};

    ghost Value = { List (List (List ℕ)) };

    ghost view = { λ t. records_left t.reader };

    ghost invariant = { λ t. IsSetUpOrFailed t.reader };
}

impl<'a> Table<'a> {
    ghost use Rattle.clr_csv.specs.Table.{TakesRecord};

    /// All records of a file.
    pub(crate) fn new(alloc: Global, bytes: &'a [u8]) -> Table<'a>
        ensures records { result ≡ records default_config (strip_bom bytes.now) }
        ensures few { length result ≤ length bytes.now + 1 }
    {
        let reader = ReaderBuilder::new()
            .has_headers(false)
            .flexible(true)
            .from_reader(alloc, bytes);
        Table { reader }
    }

    /// Reads the next record, and whether there is one. One that is not UTF-8 is the fault
    /// `not_text`.
    pub(crate) fn next(
        &mut self,
        fields: &mut StringRecord,
        not_text: CsvFault,
    ) -> Result<bool, CsvFault>
        ensures { TakesRecord self.old self.new not_text (fields_of fields.new) result }
    {
        match self.reader.read_record(fields) {
            Ok(found) => Ok(found),
            Err(error) => match error.kind() {
                ErrorKind::Utf8 { .. } => Err(not_text),
                // The bytes are in memory, so there is no device that could fail.
                ErrorKind::OutOfMemory | ErrorKind::Io(_) => Err(CsvFault::NoMemory),
                // Records may have any length, and nothing is made of them here.
                ErrorKind::UnequalLengths { .. }
                | ErrorKind::Serialize(_)
                | ErrorKind::Deserialize { .. } => unreachable!(),
            },
        }
    }
}
