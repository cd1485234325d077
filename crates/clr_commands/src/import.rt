//! The three files of a network and its staff, each read before the next is opened.
ghost use Rattle.std.specs.Prelude.{◌≡◌, ◌≢◌, IfErr, IfOk, IfSome, Ok};
ghost use Rattle.clr_csv.specs.Points.{points_of};
ghost use Rattle.clr_csv.specs.Sections.{sections_of};
ghost use Rattle.clr_csv.specs.StaffRows.{staff_of};
ghost use Rattle.clr_edge.specs.Fault.{IsOfFile};
ghost use Rattle.clr_edge.specs.Files.{GivesFile, GivesRows, HasCause, WaitsFor, told_of};
ghost use Rattle.clr_commands.specs.Import.{AreKnown, AreRead, AreReadAt, IsOfAnyFile, as_lists};
ghost use Rattle.clr_commands.specs.Import.{contents_of, lists_of, of_memory, rows_of};
ghost use Rattle.clr_commands.specs.Import.{rows_told};
ghost use Rattle.clr_edge.specs.Paths.{HasCauseAt, at_paths};

use clr_args::asked::Files;
use clr_csv::{CsvFault, read_points, read_sections, read_staff};
use clr_edge::fault::{Fault, ImportFile};
use clr_edge::files::{Source, bytes_from, points_from, sections_from, staff_from};
use clr_edge::paths::Opens;
use clr_net::{PointRow, SectionRow};
use clr_staff::StaffRow;
use clr_stream::Counted;
use std::alloc::Global;

/// The rows of the three files.
#[derive(Drop)]
pub struct Rows {
    pub sections: Vec<SectionRow>,
    pub points: Vec<PointRow>,
    pub staff: Vec<StaffRow>,
}

/// The rows of the files at three paths.
pub fn rows_at<'a, O: Opens<'a>>(alloc: Global, paths: &O, files: &Files<'a>) -> Result<Rows, Fault>
    ensures rows { AreReadAt
        (at_paths O.File.remaining O.File.failure_count (O.bytes_at paths.now))
        files.now (as_lists result) }
    ensures fault { IfErr result IsOfAnyFile }
{
    let mut sections = paths.at(files.sections);
    let mut points = paths.at(files.points);
    let mut staff = paths.at(files.staff);
    rows_from(alloc, &mut sections, &mut points, &mut staff)
}

/// The rows of three files. They are read in this order, each before the next is opened.
pub fn rows_from<S: Source, P: Source, E: Source>(
    alloc: Global,
    sections: &mut S,
    points: &mut P,
    staff: &mut E,
) -> Result<Rows, Fault>
    ensures rows { AreRead (S.remaining sections.old) (P.remaining points.old)
        (E.remaining staff.old) (as_lists result) }
    ensures sections_cause { HasCause ImportFile.Sections result
        (S.failure_count sections.old) (S.failure_count sections.new) }
    ensures points_cause { HasCause ImportFile.Points result
        (P.failure_count points.old) (P.failure_count points.new) }
    ensures staff_cause { HasCause ImportFile.Staff result
        (E.failure_count staff.old) (E.failure_count staff.new) }
    ensures points_wait { WaitsFor (S.remaining sections.old) sections_of ImportFile.Points result
        points.old points.new }
    ensures staff_waits { WaitsFor (S.remaining sections.old) sections_of ImportFile.Staff result
        staff.old staff.new }
    ensures staff_waits_too { WaitsFor (P.remaining points.old) points_of ImportFile.Staff result
        staff.old staff.new }
    ensures fault { IfErr result IsOfAnyFile }
{
    let sections = sections_from(alloc, sections)?;
    let points = points_from(alloc, points)?;
    let staff = staff_from(alloc, staff)?;
    Ok(Rows {
        sections,
        points,
        staff,
    })
}

/// The bytes of the three files.
#[derive(Drop)]
pub struct Texts {
    pub sections: Vec<u8>,
    pub points: Vec<u8>,
    pub staff: Vec<u8>,
}

/// The rows of the files at three paths, and the bytes that give them. Each is read, and its rows
/// are, before the next is opened.
pub fn rows_and_texts_at<'a, O: Opens<'a>>(
    alloc: Global,
    paths: &O,
    files: &Files<'a>,
) -> Result<(Rows, Texts), Fault>
    ensures rows { AreReadAt
        (at_paths O.File.remaining O.File.failure_count (O.bytes_at paths.now))
        files.now (rows_told result) }
    ensures texts { IfOk result (λ read. rows_of (contents_of read.1) ≡ Ok (lists_of read.0)) }
    ensures known { IfOk result (λ read. AreKnown (O.bytes_at paths.now) files.now
        (contents_of read.1)) }
    ensures fault { IfErr result IsOfAnyFile }
{
    let (section_rows, sections) = sections_at(alloc, paths, files.sections)?;
    let (point_rows, points) = points_at(alloc, paths, files.points)?;
    let (staff_rows, staff) = staff_at(alloc, paths, files.staff)?;
    let rows = Rows {
        sections: section_rows,
        points: point_rows,
        staff: staff_rows,
    };
    let texts = Texts {
        sections,
        points,
        staff,
    };
    Ok((rows, texts))
}

/// The rows of the file of sections at a path, and the bytes that give them.
fn sections_at<'a, O: Opens<'a>>(
    alloc: Global,
    paths: &O,
    path: &'a str,
) -> Result<(Vec<SectionRow>, Vec<u8>), Fault>
    ensures rows { IfSome (O.bytes_at paths.now path.entry.now) (λ file.
        GivesRows ImportFile.Sections (λ read. read.0.items)
        (told_of ImportFile.Sections (sections_of file)) result) }
    ensures text { IfOk result (λ read.
        told_of ImportFile.Sections (sections_of read.1.items) ≡ Ok read.0.items) }
    ensures known { IfOk result (λ read.
        IfSome (O.bytes_at paths.now path.entry.now) (λ known. read.1.items ≡ known)) }
    ensures fault { IfErr result (IsOfFile ImportFile.Sections) }
    ensures cause { HasCauseAt
        (at_paths O.File.remaining O.File.failure_count (O.bytes_at paths.now))
        path.entry.now ImportFile.Sections result }
{
    let bytes = bytes_at(alloc, paths, path, ImportFile::Sections)?;
    let rows = section_rows(alloc, bytes.as_slice())?;
    Ok((rows, bytes))
}

/// The rows that these bytes give.
fn section_rows(alloc: Global, bytes: &[u8]) -> Result<Vec<SectionRow>, Fault>
    ensures rows { GivesRows ImportFile.Sections (λ rows. rows.items)
        (told_of ImportFile.Sections (sections_of bytes.now)) result }
    ensures fault { IfErr result (IsOfFile ImportFile.Sections) }
    ensures read { IfErr result (λ fault.
        fault ≢ Fault.File ImportFile.Sections CsvFault.ReadFailed) }
{
    match read_sections(alloc, &mut Counted::new(bytes)) {
        Ok(rows) => Ok(rows),
        Err(cause) => Err(of_memory(ImportFile::Sections, cause)),
    }
}

/// The rows of the file of switching points at a path, and the bytes that give them.
fn points_at<'a, O: Opens<'a>>(
    alloc: Global,
    paths: &O,
    path: &'a str,
) -> Result<(Vec<PointRow>, Vec<u8>), Fault>
    ensures rows { IfSome (O.bytes_at paths.now path.entry.now) (λ file.
        GivesRows ImportFile.Points (λ read. read.0.items)
        (told_of ImportFile.Points (points_of file)) result) }
    ensures text { IfOk result (λ read.
        told_of ImportFile.Points (points_of read.1.items) ≡ Ok read.0.items) }
    ensures known { IfOk result (λ read.
        IfSome (O.bytes_at paths.now path.entry.now) (λ known. read.1.items ≡ known)) }
    ensures fault { IfErr result (IsOfFile ImportFile.Points) }
    ensures cause { HasCauseAt
        (at_paths O.File.remaining O.File.failure_count (O.bytes_at paths.now))
        path.entry.now ImportFile.Points result }
{
    let bytes = bytes_at(alloc, paths, path, ImportFile::Points)?;
    let rows = point_rows(alloc, bytes.as_slice())?;
    Ok((rows, bytes))
}

/// The rows that these bytes give.
fn point_rows(alloc: Global, bytes: &[u8]) -> Result<Vec<PointRow>, Fault>
    ensures rows { GivesRows ImportFile.Points (λ rows. rows.items)
        (told_of ImportFile.Points (points_of bytes.now)) result }
    ensures fault { IfErr result (IsOfFile ImportFile.Points) }
    ensures read { IfErr result (λ fault.
        fault ≢ Fault.File ImportFile.Points CsvFault.ReadFailed) }
{
    match read_points(alloc, &mut Counted::new(bytes)) {
        Ok(rows) => Ok(rows),
        Err(cause) => Err(of_memory(ImportFile::Points, cause)),
    }
}

/// The rows of the file of the staff at a path, and the bytes that give them.
fn staff_at<'a, O: Opens<'a>>(
    alloc: Global,
    paths: &O,
    path: &'a str,
) -> Result<(Vec<StaffRow>, Vec<u8>), Fault>
    ensures rows { IfSome (O.bytes_at paths.now path.entry.now) (λ file.
        GivesRows ImportFile.Staff (λ read. read.0.items)
        (told_of ImportFile.Staff (staff_of file)) result) }
    ensures text { IfOk result (λ read.
        told_of ImportFile.Staff (staff_of read.1.items) ≡ Ok read.0.items) }
    ensures known { IfOk result (λ read.
        IfSome (O.bytes_at paths.now path.entry.now) (λ known. read.1.items ≡ known)) }
    ensures fault { IfErr result (IsOfFile ImportFile.Staff) }
    ensures cause { HasCauseAt
        (at_paths O.File.remaining O.File.failure_count (O.bytes_at paths.now))
        path.entry.now ImportFile.Staff result }
{
    let bytes = bytes_at(alloc, paths, path, ImportFile::Staff)?;
    let rows = staff_rows(alloc, bytes.as_slice())?;
    Ok((rows, bytes))
}

/// The rows that these bytes give.
fn staff_rows(alloc: Global, bytes: &[u8]) -> Result<Vec<StaffRow>, Fault>
    ensures rows { GivesRows ImportFile.Staff (λ rows. rows.items)
        (told_of ImportFile.Staff (staff_of bytes.now)) result }
    ensures fault { IfErr result (IsOfFile ImportFile.Staff) }
    ensures read { IfErr result (λ fault.
        fault ≢ Fault.File ImportFile.Staff CsvFault.ReadFailed) }
{
    match read_staff(alloc, &mut Counted::new(bytes)) {
        Ok(rows) => Ok(rows),
        Err(cause) => Err(of_memory(ImportFile::Staff, cause)),
    }
}

/// Why bytes that are in memory give no rows: they do not fail to be read.
fn of_memory(file: ImportFile, cause: CsvFault) -> Fault
    ensures { result ≡ of_memory file cause }
{
    match cause {
        CsvFault::NoMemory | CsvFault::ReadFailed => Fault::Memory,
        _ => Fault::File(file, cause),
    }
}

/// The bytes of the file of rows at a path.
fn bytes_at<'a, O: Opens<'a>>(
    alloc: Global,
    paths: &O,
    path: &'a str,
    file: ImportFile,
) -> Result<Vec<u8>, Fault>
    ensures bytes { IfSome (O.bytes_at paths.now path.entry.now) (λ known.
        GivesFile file known result) }
    ensures fault { IfErr result (IsOfFile file) }
    ensures cause { HasCauseAt
        (at_paths O.File.remaining O.File.failure_count (O.bytes_at paths.now))
        path.entry.now file result }
{
    let mut source = paths.at(path);
    bytes_from(alloc, &mut source, file)
}
