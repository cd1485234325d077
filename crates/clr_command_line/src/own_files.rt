//! Files that are named beside a database, none of which is to be one of the database's own.
ghost use Rattle.std.specs.Prelude.{◌≡◌, IfErr, OnOk, map};
ghost use Rattle.clr_command_line.specs.OwnFiles.{NamesOthers, NamesOwn, OwnsDatabase, OwnsFile};
ghost use Rattle.clr_command_line.specs.OwnFiles.{OwnsMade, OwnsNext, OwnsOne, OwnsPart};
ghost use Rattle.clr_command_line.specs.OwnFiles.{OwnsServed, SparesDatabase};
ghost use Rattle.clr_command_line.specs.OwnFiles.{OwnsUpdated, OwnsVerified, OwnsVerifiedFrom};
ghost use Rattle.clr_command_line.specs.OwnFiles.{SparesFiles, SparesMade, SparesNext, SparesOne};
ghost use Rattle.clr_command_line.specs.OwnFiles.{SparesParts, SparesServed, SparesUpdated};
ghost use Rattle.clr_command_line.specs.OwnFiles.{SparesVerified, SparesVerifiedFrom};
ghost use Rattle.clr_command_line.specs.OwnFiles.{UnlessMemory};

use clr_args::asked::{
    Asked, Files, NextPartArgs, RunArgs, ServeArgs, StoredArgs, UpdateArgs, VerifyArgs,
    VerifyFromArgs,
};
use clr_edge::fault::{Fault, ImportFile, JournalFault};
use clr_edge::paths::Opens;
use std::alloc::{AllocError, Global};

/// Refuses the first file that is asked for beside a database and is one of the database's own.
/// Nothing is opened for it.
pub(crate) fn expect_others<'a, O: Opens<'a>>(
    alloc: Global,
    paths: &O,
    asked: &Asked<'a>,
) -> Result<(), Fault>
    ensures others { OnOk result (NamesOthers (O.spares paths.now) asked.now) }
    ensures own { IfErr result (UnlessMemory (NamesOwn (O.owns paths.now) asked.now)) }
{
    match asked {
        Asked::Init(args) => match &args.stored {
            Some(stored) => expect_made(alloc, paths, stored, &args.files),
            None => Ok(()),
        },
        Asked::Run(RunArgs::Stored(args)) => expect_journal(alloc, paths, args),
        Asked::Serve(args) => expect_served(alloc, paths, args),
        Asked::Verify(args) => expect_verified(alloc, paths, args),
        Asked::VerifyFrom(args) => expect_verified_from(alloc, paths, args),
        Asked::Update(args) => expect_updated(alloc, paths, args),
        Asked::Archive(args) => expect_journal_of(alloc, paths, args.database, args.journal),
        Asked::NextPart(args) => expect_next(alloc, paths, args),
        Asked::Migrate(args) => expect_journal_of(alloc, paths, args.database, args.journal),
        _ => Ok(()),
    }
}

/// Refuses a journal that is a file of the database.
fn expect_journal<'a, O: Opens<'a>>(
    alloc: Global,
    paths: &O,
    args: &StoredArgs<'a>,
) -> Result<(), Fault>
    ensures others { OnOk result
        (SparesOne (O.spares paths.now) args.now.database.now args.now.journal) }
    ensures own { IfErr result (UnlessMemory (OwnsOne (O.owns paths.now) args.now.database.now
        args.now.journal (Fault.Journal JournalFault.SameFile))) }
{
    let fault = Fault::Journal(JournalFault::SameFile);
    match args.journal {
        Some(journal) => expect_other(alloc, paths, args.database, journal, fault),
        None => Ok(()),
    }
}

/// The same of a database and a journal of it.
fn expect_journal_of<'a, O: Opens<'a>>(
    alloc: Global,
    paths: &O,
    database: &'a str,
    journal: Option<&'a str>,
) -> Result<(), Fault>
    ensures others { OnOk result (SparesOne (O.spares paths.now) database.now
        journal.entry) }
    ensures own { IfErr result (UnlessMemory (OwnsOne (O.owns paths.now) database.now journal.entry
        (Fault.Journal JournalFault.SameFile))) }
{
    let stored = StoredArgs { database, journal };
    expect_journal(alloc, paths, &stored)
}

/// Refuses files of an update, or a journal, that are a file of the database.
fn expect_updated<'a, O: Opens<'a>>(
    alloc: Global,
    paths: &O,
    args: &UpdateArgs<'a>,
) -> Result<(), Fault>
    ensures others { OnOk result (SparesUpdated (O.spares paths.now) args.now) }
    ensures own { IfErr result (UnlessMemory (OwnsUpdated (O.owns paths.now) args.now)) }
{
    expect_files(alloc, paths, args.database, &args.files)?;
    expect_journal_of(alloc, paths, args.database, args.journal)
}

/// Refuses files to begin with, or a journal to begin, that are a file of the database to make; and
/// a database to make that is a file of the journal.
fn expect_made<'a, O: Opens<'a>>(
    alloc: Global,
    paths: &O,
    stored: &StoredArgs<'a>,
    files: &Files<'a>,
) -> Result<(), Fault>
    ensures others { OnOk result (SparesMade (O.spares paths.now) stored.now files.now) }
    ensures own { IfErr result (UnlessMemory (OwnsMade (O.owns paths.now) stored.now files.now)) }
{
    expect_files(alloc, paths, stored.database, files)?;
    expect_journal(alloc, paths, stored)?;
    expect_database(alloc, paths, stored)
}

/// Refuses a database that is a file of its journal.
fn expect_database<'a, O: Opens<'a>>(
    alloc: Global,
    paths: &O,
    stored: &StoredArgs<'a>,
) -> Result<(), Fault>
    ensures other { OnOk result (SparesDatabase (O.spares paths.now) stored.now) }
    ensures own { IfErr result (UnlessMemory (OwnsDatabase (O.owns paths.now) stored.now)) }
{
    let fault = Fault::Journal(JournalFault::SameFile);
    match stored.journal {
        Some(journal) => expect_other(alloc, paths, journal, stored.database, fault),
        None => Ok(()),
    }
}

/// Refuses parts of a journal that are a file of the database.
fn expect_parts<'a, O: Opens<'a>>(
    alloc: Global,
    paths: &O,
    database: &str,
    parts: &[&'a str],
) -> Result<(), Fault>
    ensures others { OnOk result (SparesParts (O.spares paths.now) database.now
        (map (λ path. path.now) parts.now)) }
    ensures own { IfErr result (UnlessMemory (OwnsPart (O.owns paths.now) database.now
        (map (λ path. path.now) parts.now))) }
{
    for path in parts {
        let fault = Fault::Journal(JournalFault::SameFile);
        expect_other(alloc, paths, database, *path, fault)?;
    }
    Ok(())
}

/// Refuses a part of a journal, or the next one, that is a file of the database.
fn expect_next<'a, O: Opens<'a>>(
    alloc: Global,
    paths: &O,
    args: &NextPartArgs<'a>,
) -> Result<(), Fault>
    ensures others { OnOk result (SparesNext (O.spares paths.now) args.now) }
    ensures own { IfErr result (UnlessMemory (OwnsNext (O.owns paths.now) args.now)) }
{
    let fault = Fault::Journal(JournalFault::SameFile);
    expect_other(alloc, paths, args.database, args.path, fault)?;
    let fault_of_next = Fault::Journal(JournalFault::SameFile);
    expect_other(alloc, paths, args.database, args.next, fault_of_next)
}

/// Refuses logins or a journal that are a file of the database.
fn expect_served<'a, O: Opens<'a>>(
    alloc: Global,
    paths: &O,
    args: &ServeArgs<'a>,
) -> Result<(), Fault>
    ensures others { OnOk result (SparesServed (O.spares paths.now) args.now) }
    ensures own { IfErr result (UnlessMemory (OwnsServed (O.owns paths.now) args.now)) }
{
    if let Some(logins) = args.logins {
        let fault = Fault::SameFile(ImportFile::Logins);
        expect_other(alloc, paths, args.database, logins, fault)?;
    }
    expect_journal_of(alloc, paths, args.database, args.journal)
}

/// Refuses a journal or files to begin with that are a file of the database.
fn expect_verified<'a, O: Opens<'a>>(
    alloc: Global,
    paths: &O,
    args: &VerifyArgs<'a>,
) -> Result<(), Fault>
    ensures others { OnOk result (SparesVerified (O.spares paths.now) args.now) }
    ensures own { IfErr result (UnlessMemory (OwnsVerified (O.owns paths.now) args.now)) }
{
    expect_journal_of(alloc, paths, args.database, Some(args.journal))?;
    expect_parts(alloc, paths, args.database, args.parts.as_slice())?;
    expect_files(alloc, paths, args.database, &args.files)
}

/// Refuses a journal that is a file of the database, or of the copy to begin with.
fn expect_verified_from<'a, O: Opens<'a>>(
    alloc: Global,
    paths: &O,
    args: &VerifyFromArgs<'a>,
) -> Result<(), Fault>
    ensures others { OnOk result (SparesVerifiedFrom (O.spares paths.now) args.now) }
    ensures own { IfErr result (UnlessMemory (OwnsVerifiedFrom (O.owns paths.now) args.now)) }
{
    let fault = Fault::Journal(JournalFault::SameFile);
    expect_other(alloc, paths, args.database, args.journal, fault)?;
    let fault_by_copy = Fault::Journal(JournalFault::SameFile);
    expect_other(alloc, paths, args.copy, args.journal, fault_by_copy)?;
    expect_parts(alloc, paths, args.database, args.parts.as_slice())?;
    expect_parts(alloc, paths, args.copy, args.parts.as_slice())
}

/// Refuses three files of which one is a file of the database.
fn expect_files<'a, O: Opens<'a>>(
    alloc: Global,
    paths: &O,
    database: &str,
    files: &Files<'a>,
) -> Result<(), Fault>
    ensures others { OnOk result (SparesFiles (O.spares paths.now) database.now files.now) }
    ensures own { IfErr result
        (UnlessMemory (OwnsFile (O.owns paths.now) database.now files.now)) }
{
    let (sections, points) = (ImportFile::Sections, ImportFile::Points);
    expect_other(
        alloc,
        paths,
        database,
        files.sections,
        Fault::SameFile(sections),
    )?;
    expect_other(
        alloc,
        paths,
        database,
        files.points,
        Fault::SameFile(points),
    )?;
    let staff = Fault::SameFile(ImportFile::Staff);
    expect_other(alloc, paths, database, files.staff, staff)
}

/// Refuses a file of the database, with this fault.
fn expect_other<'a, O: Opens<'a>>(
    alloc: Global,
    paths: &O,
    database: &str,
    path: &str,
    fault: Fault,
) -> Result<(), Fault>
    ensures other { OnOk result (O.spares paths.now database.now path.now) }
    ensures own { IfErr result (UnlessMemory (λ told.
        O.owns paths.now database.now path.now × (told ≡ fault))) }
{
    match paths.is_own(alloc, database, path) {
        Ok(true) => Err(fault),
        Ok(false) => Ok(()),
        Err(AllocError) => Err(Fault::Memory),
    }
}
