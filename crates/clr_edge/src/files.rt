//! The files that are read into rows, each opened when its turn comes.
ghost use Rattle.std.specs.Prelude.{◌≡◌, ◌≢◌, ◌⊎◌, Err, IfErr, IfSome, IsErrOf};
ghost use Rattle.clr_csv.specs.Answers.{GivesUnlessFailed};
ghost use Rattle.clr_stream.specs.Failures.{Rose};
ghost use Rattle.clr_csv.specs.LoginRows.{logins_of};
ghost use Rattle.clr_csv.specs.Points.{points_of};
ghost use Rattle.clr_csv.specs.Sections.{sections_of};
ghost use Rattle.clr_csv.specs.StaffRows.{staff_of};
ghost use Rattle.clr_edge.specs.Fault.{IsOfFile};
ghost use Rattle.clr_edge.specs.Files.{GivesBytes, GivesFile, GivesRows, told_of};

use crate::fault::{Fault, ImportFile};
use clr_csv::{CsvFault, read_logins, read_points, read_sections, read_staff};
use clr_net::{PointRow, SectionRow};
use clr_staff::{LoginRow, StaffRow};
use clr_stream::{Counted, CountedRead, ReadFault, read_whole};
use std::alloc::Global;
use std::io::Read;

/// A file that is opened when its turn comes. It counts its failures, an open that fails among
/// them.
pub trait Source: CountedRead {
    /// Opens the file at its start. One that cannot be opened counts as one that cannot be read.
    fn open(&mut self) -> Result<(), CsvFault>
        ensures bytes { Self.remaining self.new ≡ Self.remaining self.old }
        ensures fault { IfErr result (λ fault.
            (fault ≡ CsvFault.NoMemory) ⊎ (fault ≡ CsvFault.ReadFailed)) }
        ensures cause { IsErrOf result CsvFault.ReadFailed
            → Rose (Self.failure_count self.old) (Self.failure_count self.new) }
        ensures others { result ≢ Err CsvFault.ReadFailed
            → Self.failure_count self.new ≡ Self.failure_count self.old };
}

/// A reader at its start is open already.
impl<R: Read> Source for Counted<R> {
    fn open(&mut self) -> Result<(), CsvFault> {
        Ok(())
    }
}

/// The rows of the file of sections.
pub fn sections_from<S: Source>(alloc: Global, source: &mut S) -> Result<Vec<SectionRow>, Fault>
    ensures rows { IfSome (S.remaining source.old) (λ file. GivesRows ImportFile.Sections
        (λ rows. rows.items) (told_of ImportFile.Sections (sections_of file)) result) }
    ensures fault { IfErr result (IsOfFile ImportFile.Sections) }
    ensures cause { IsErrOf result (Fault.File ImportFile.Sections CsvFault.ReadFailed)
        → Rose (S.failure_count source.old) (S.failure_count source.new) }
{
    told_of(ImportFile::Sections, sections_in(alloc, source))
}

fn sections_in<S: Source>(alloc: Global, source: &mut S) -> Result<Vec<SectionRow>, CsvFault>
    ensures rows { IfSome (S.remaining source.old) (λ file.
        GivesUnlessFailed (λ rows. rows.items) (sections_of file) result) }
    ensures cause { IsErrOf result CsvFault.ReadFailed
        → Rose (S.failure_count source.old) (S.failure_count source.new) }
{
    source.open()?;
    let rows = read_sections(alloc, source)?;
    Ok(rows)
}

/// The rows of the file of switching points.
pub fn points_from<S: Source>(alloc: Global, source: &mut S) -> Result<Vec<PointRow>, Fault>
    ensures rows { IfSome (S.remaining source.old) (λ file. GivesRows ImportFile.Points
        (λ rows. rows.items) (told_of ImportFile.Points (points_of file)) result) }
    ensures fault { IfErr result (IsOfFile ImportFile.Points) }
    ensures cause { IsErrOf result (Fault.File ImportFile.Points CsvFault.ReadFailed)
        → Rose (S.failure_count source.old) (S.failure_count source.new) }
{
    told_of(ImportFile::Points, points_in(alloc, source))
}

fn points_in<S: Source>(alloc: Global, source: &mut S) -> Result<Vec<PointRow>, CsvFault>
    ensures rows { IfSome (S.remaining source.old) (λ file.
        GivesUnlessFailed (λ rows. rows.items) (points_of file) result) }
    ensures cause { IsErrOf result CsvFault.ReadFailed
        → Rose (S.failure_count source.old) (S.failure_count source.new) }
{
    source.open()?;
    let rows = read_points(alloc, source)?;
    Ok(rows)
}

/// The rows of the file of the staff.
pub fn staff_from<S: Source>(alloc: Global, source: &mut S) -> Result<Vec<StaffRow>, Fault>
    ensures rows { IfSome (S.remaining source.old) (λ file. GivesRows ImportFile.Staff
        (λ rows. rows.items) (told_of ImportFile.Staff (staff_of file)) result) }
    ensures fault { IfErr result (IsOfFile ImportFile.Staff) }
    ensures cause { IsErrOf result (Fault.File ImportFile.Staff CsvFault.ReadFailed)
        → Rose (S.failure_count source.old) (S.failure_count source.new) }
{
    told_of(ImportFile::Staff, staff_in(alloc, source))
}

fn staff_in<S: Source>(alloc: Global, source: &mut S) -> Result<Vec<StaffRow>, CsvFault>
    ensures rows { IfSome (S.remaining source.old) (λ file.
        GivesUnlessFailed (λ rows. rows.items) (staff_of file) result) }
    ensures cause { IsErrOf result CsvFault.ReadFailed
        → Rose (S.failure_count source.old) (S.failure_count source.new) }
{
    source.open()?;
    let rows = read_staff(alloc, source)?;
    Ok(rows)
}

/// The rows of the file of logins.
pub fn logins_from<S: Source>(alloc: Global, source: &mut S) -> Result<Vec<LoginRow>, Fault>
    ensures rows { IfSome (S.remaining source.old) (λ file. GivesRows ImportFile.Logins
        (λ rows. rows.items) (told_of ImportFile.Logins (logins_of file)) result) }
    ensures fault { IfErr result (IsOfFile ImportFile.Logins) }
    ensures cause { IsErrOf result (Fault.File ImportFile.Logins CsvFault.ReadFailed)
        → Rose (S.failure_count source.old) (S.failure_count source.new) }
{
    told_of(ImportFile::Logins, logins_in(alloc, source))
}

fn logins_in<S: Source>(alloc: Global, source: &mut S) -> Result<Vec<LoginRow>, CsvFault>
    ensures rows { IfSome (S.remaining source.old) (λ file.
        GivesUnlessFailed (λ rows. rows.items) (logins_of file) result) }
    ensures cause { IsErrOf result CsvFault.ReadFailed
        → Rose (S.failure_count source.old) (S.failure_count source.new) }
{
    source.open()?;
    let rows = read_logins(alloc, source)?;
    Ok(rows)
}

/// The most bytes of a file of rows.
const MAX_FILE_BYTES: usize = 4_194_304;

/// The bytes of a file of rows, so that their sum can be made beside the rows.
pub fn bytes_from<S: Source>(
    alloc: Global,
    source: &mut S,
    file: ImportFile,
) -> Result<Vec<u8>, Fault>
    ensures bytes { IfSome (S.remaining source.old) (λ known. GivesFile file known result) }
    ensures fault { IfErr result (IsOfFile file) }
    ensures cause { IsErrOf result (Fault.File file CsvFault.ReadFailed)
        → Rose (S.failure_count source.old) (S.failure_count source.new) }
{
    told_of(file, bytes_in(alloc, source))
}

fn bytes_in<S: Source>(alloc: Global, source: &mut S) -> Result<Vec<u8>, CsvFault>
    ensures bytes { IfSome (S.remaining source.old) (λ known. GivesBytes known result) }
    ensures cause { IsErrOf result CsvFault.ReadFailed
        → Rose (S.failure_count source.old) (S.failure_count source.new) }
{
    source.open()?;
    match read_whole(alloc, source, MAX_FILE_BYTES) {
        Ok(bytes) => Ok(bytes),
        Err(ReadFault::ReadFailed) => Err(CsvFault::ReadFailed),
        Err(ReadFault::TooLong) => Err(CsvFault::TooLong),
        Err(ReadFault::NoMemory) => Err(CsvFault::NoMemory),
    }
}

/// The rows of a file; a fault names the file that has it.
fn told_of<T>(file: ImportFile, rows: Result<T, CsvFault>) -> Result<T, Fault>
    ensures { result ≡ told_of file rows }
{
    match rows {
        Ok(rows) => Ok(rows),
        Err(cause) => Err(Fault::of_file(file, cause)),
    }
}
