//! The subcommand `init`: the check of the files of a network and its staff, and a register of
//! them.
ghost use Rattle.std.specs.Prelude.{◌≡◌, IfErr, IfOk, string_bytes};
ghost use Rattle.clr_commands.specs.Answers.{GivesText, IsMemory};
ghost use Rattle.clr_commands.specs.Faults.{IsOfSubcommand};
ghost use Rattle.clr_commands.specs.Import.{contents_of, lists_of};
ghost use Rattle.clr_commands.specs.Init.{InitsAt, InitsInto, InitsWith, IsBuilt, RefusesRows};
ghost use Rattle.clr_commands.specs.Init.{Stores, StoresWith, counts_line, counts_of};
ghost use Rattle.clr_edge.specs.Paths.{at_paths};
ghost use Rattle.clr_keeping.specs.Beginning.{MakesRegisterAt};
ghost use Rattle.clr_keeping.specs.TakenUp.{logs};
ghost use Rattle.clr_edge.specs.Visit.{Alone, Comes, MakesRegister};

use crate::first::first_place;
use crate::import::{Rows, Texts, rows_and_texts_at, rows_at};
use clr_args::asked::{Files, InitArgs, StoredArgs};
use clr_chain::Clock;
use clr_edge::database::{Makes, store_register};
use clr_edge::fault::Fault;
use clr_edge::journals::Journals;
use clr_edge::paths::Opens;
use clr_keeping::beginning::begin_register;
use clr_net::Network;
use clr_staff::Staff;
use std::alloc::{AllocError, Global};

/// What `init SECTIONS POINTS STAFF [--db FILE [--journal FILE]]` prints. The journal is begun
/// after the files were read, and the database opened after that.
///
/// `Journal(HasBytes)` where the journal's file has bytes already. `Journal(Begun)` where the
/// journal was begun and the register was not made: the journal is to be removed.
pub fn init<'a, R: Makes + Journals, O: Opens<'a>>(
    alloc: Global,
    rt: &mut R,
    paths: &O,
    args: &InitArgs<'a>,
) -> Result<String, Fault>
    ensures visit { InitsAt
        (at_paths O.File.remaining O.File.failure_count (O.bytes_at paths.now))
        (λ path register. Comes R.makes R.shuts R.ends path
        (Alone (MakesRegister R.Tables.Store register)))
        (InitsWith (logs R.Journals R.Log.Journal R.Time.shows)
        (λ path register first. Comes R.makes R.shuts R.ends path
        (Alone (MakesRegisterAt R.Tables.Store register first)))) args.now result rt.old rt.new }
    ensures faults { IfErr result IsOfSubcommand }
{
    match args.stored {
        None => {
            let rows = rows_at(alloc, paths, &args.files)?;
            counts_of_rows(alloc, rows)
        }
        Some(stored) => init_stored(alloc, rt, paths, &args.files, &stored),
    }
}

/// The same line, once the register of the files is made in a database, with a journal or without
/// one.
fn init_stored<'a, R: Makes + Journals, O: Opens<'a>>(
    alloc: Global,
    rt: &mut R,
    paths: &O,
    files: &Files<'a>,
    stored: &StoredArgs<'_>,
) -> Result<String, Fault>
    ensures visit { InitsInto
        (at_paths O.File.remaining O.File.failure_count (O.bytes_at paths.now))
        (λ path register. Comes R.makes R.shuts R.ends path
        (Alone (MakesRegister R.Tables.Store register)))
        (InitsWith (logs R.Journals R.Log.Journal R.Time.shows)
        (λ path register first. Comes R.makes R.shuts R.ends path
        (Alone (MakesRegisterAt R.Tables.Store register first)))) files.now stored.now.database.now
        stored.now.journal result rt.old rt.new }
    ensures faults { IfErr result IsOfSubcommand }
{
    match stored.journal {
        None => {
            let rows = rows_at(alloc, paths, files)?;
            register_of_rows(alloc, rt, rows, stored.database)
        }
        Some(journal) => init_logged(alloc, rt, paths, files, stored.database, journal),
    }
}

/// The same line, once the register of the files is made in the database at a path, and its journal
/// begun at another.
fn init_logged<'a, R: Makes + Journals, O: Opens<'a>>(
    alloc: Global,
    rt: &mut R,
    paths: &O,
    files: &Files<'a>,
    database: &str,
    journal: &str,
) -> Result<String, Fault>
    ensures visit { InitsWith (logs R.Journals R.Log.Journal R.Time.shows)
        (λ path register first. Comes R.makes R.shuts R.ends path
        (Alone (MakesRegisterAt R.Tables.Store register first)))
        (at_paths O.File.remaining O.File.failure_count (O.bytes_at paths.now)) files.now
        database.now journal.now result rt.old rt.new }
    ensures faults { IfErr result IsOfSubcommand }
{
    let (rows, texts) = rows_and_texts_at(alloc, paths, files)?;
    register_with_journal(alloc, rt, rows, &texts, database, journal)
}

/// The same of rows, and of the bytes that give them.
fn register_with_journal<R: Makes + Journals>(
    alloc: Global,
    rt: &mut R,
    rows: Rows,
    texts: &Texts,
    database: &str,
    journal: &str,
) -> Result<String, Fault>
    ensures visit { StoresWith (logs R.Journals R.Log.Journal R.Time.shows)
        (λ path register first. Comes R.makes R.shuts R.ends path
        (Alone (MakesRegisterAt R.Tables.Store register first)))
        (contents_of texts.now) (lists_of rows) database.now journal.now result rt.old rt.new }
    ensures faults { IfErr result IsOfSubcommand }
{
    let time = rt.time();
    let moment = time.seconds();
    let first = first_place(alloc, texts, moment, database, journal)?;
    let (network, staff, line) = built(alloc, rows)?;
    begin_register(rt, database, journal, &first, &network, &staff)?;
    Ok(line)
}

/// The network and the staff of rows, and the line of their counts.
fn built(alloc: Global, rows: Rows) -> Result<(Network, Staff, String), Fault>
    ensures built { IfOk result (λ parts.
        IsBuilt (lists_of rows) parts.0 parts.1 (string_bytes parts.2)) }
    ensures refused { IfErr result (RefusesRows (lists_of rows)) }
    ensures faults { IfErr result IsOfSubcommand }
{
    let (section_count, point_count, staff_count) = (
        rows.sections.len(),
        rows.points.len(),
        rows.staff.len(),
    );
    let network = Network::build(alloc, rows.sections, rows.points)?;
    let staff = Staff::build(alloc, rows.staff)?;
    let line = counts_text(alloc, section_count, point_count, staff_count)?;
    Ok((network, staff, line))
}

/// The same line as by `counts_of_rows`, once the register of the rows is made in the database at a
/// path.
pub fn register_of_rows<R: Makes>(
    alloc: Global,
    rt: &mut R,
    rows: Rows,
    path: &str,
) -> Result<String, Fault>
    ensures visit { Stores (λ register. Comes R.makes R.shuts R.ends path.now
        (Alone (MakesRegister R.Tables.Store register))) (lists_of rows) result rt.old rt.new }
    ensures faults { IfErr result IsOfSubcommand }
{
    let (network, staff, line) = built(alloc, rows)?;
    store_register(alloc, rt, path, network, staff)?;
    Ok(line)
}

/// The line that says how many rows there are of each kind, if they are a network and a staff.
pub fn counts_of_rows(alloc: Global, rows: Rows) -> Result<String, Fault>
    ensures answer { GivesText IsMemory (counts_of (lists_of rows)) result }
    ensures faults { IfErr result IsOfSubcommand }
{
    match built(alloc, rows) {
        Ok((_network, _staff, line)) => Ok(line),
        Err(fault) => Err(fault),
    }
}

/// The line of these counts.
fn counts_text(
    alloc: Global,
    sections: usize,
    points: usize,
    staff: usize,
) -> Result<String, AllocError>
    ensures { IfOk result (λ text. string_bytes text ≡ counts_line sections points staff) }
{
    let text = format!(in alloc; "sections {sections} points {points} staff {staff}\n")?;
    Ok(text)
}
