//! The subcommand `migrate`: the tables of a register brought to the version that is read, or a
//! journal begun for it.
ghost use Rattle.std.specs.Prelude.{◌≡◌, IfErr, IfOk, false, string_bytes};
ghost use Rattle.clr_commands.specs.Faults.{IsOfSubcommand};
ghost use Rattle.clr_commands.specs.First.{board_files, first_place, made_at};
ghost use Rattle.clr_commands.specs.Migrate.{BeginsJournal, BeginsOver, BeginsWith, Migrates};
ghost use Rattle.clr_commands.specs.Migrate.{MigratesAt, MovesUnless, journal_line};
ghost use Rattle.clr_keeping.specs.TakenUp.{logs};
ghost use Rattle.clr_edge.specs.Visit.{Alone, Comes, MovesRegister};

use crate::first::first_place;
use crate::import::Texts;
use crate::part_after::begin_after;
use clr_args::asked::MigrateArgs;
use clr_chain::Clock;
use clr_desk::{Desk, DeskBook};
use clr_edge::database::{Databases, close, first_fault, move_register};
use clr_edge::fault::{Fault, JournalFault};
use clr_edge::journals::Journals;
use clr_keeping::beginning::begin_journal_of;
use clr_keeping::taking_up::unlogged_desk;
use clr_print::print_board;
use clr_rules::Place;
use clr_store::Store;
use sqlite::{Alter, Connection};
use std::alloc::{AllocError, Global};

/// What `migrate DB [--journal FILE]` prints: the version, once the tables are of it; with a
/// journal its id, once it is begun and the register has its place in it, and no tables are moved.
/// With a number too, that number, once a part is begun after it.
pub fn migrate<R: Databases + Journals>(
    alloc: Global,
    rt: &mut R,
    args: &MigrateArgs<'_>,
) -> Result<String, Fault>
    ensures visit { MigratesAt (logs R.Journals R.Log.Journal R.Time.shows)
        R.Tables.Store R.opens R.shuts R.ends args.now result rt.old rt.new }
    ensures faults { IfErr result IsOfSubcommand }
{
    match args.journal {
        None => move_unless(alloc, rt, args.database, args.after),
        Some(journal) => begin_with(alloc, rt, args.database, journal, args.after),
    }
}

/// The version of the tables, once they are of it, where no number is named.
fn move_unless<R: Databases>(
    alloc: Global,
    rt: &mut R,
    path: &str,
    after: Option<&str>,
) -> Result<String, Fault>
    ensures visit { MovesUnless (Comes R.opens R.shuts R.ends path.now
        (Alone (MovesRegister R.Tables.Store))) after.entry result rt.old rt.new }
    ensures faults { IfErr result IsOfSubcommand }
{
    match after {
        None => move_tables(alloc, rt, path),
        Some(_number) => Err(Fault::Journal(JournalFault::Missing)),
    }
}

/// What is printed of a journal that is begun, or of a part, where a number is named.
fn begin_with<R: Databases + Journals>(
    alloc: Global,
    rt: &mut R,
    path: &str,
    journal: &str,
    after: Option<&str>,
) -> Result<String, Fault>
    ensures visit { BeginsWith (logs R.Journals R.Log.Journal R.Time.shows)
        R.Tables.Store R.opens R.shuts R.ends path.now journal.now after.entry
        result rt.old rt.new }
    ensures faults { IfErr result IsOfSubcommand }
{
    match after {
        None => begin_for(alloc, rt, path, journal),
        Some(number) => begin_after(alloc, rt, path, journal, number),
    }
}

/// The version of the tables, once they are of it.
fn move_tables<R: Databases>(alloc: Global, rt: &mut R, path: &str) -> Result<String, Fault>
    ensures visit { Migrates (Comes R.opens R.shuts R.ends path.now
        (Alone (MovesRegister R.Tables.Store))) result rt.old rt.new }
    ensures faults { IfErr result IsOfSubcommand }
{
    let line = String::from_str(alloc, "version 2\n")?;
    move_register(rt, path)?;
    Ok(line)
}

/// The id of a journal that is begun for the register of the database at a path, which has none.
///
/// `Journal(Missing)` where it has one already.
fn begin_for<R: Databases + Journals>(
    alloc: Global,
    rt: &mut R,
    path: &str,
    journal: &str,
) -> Result<String, Fault>
    ensures visit { BeginsJournal (logs R.Journals R.Log.Journal R.Time.shows)
        R.Tables.Store R.opens R.shuts R.ends path.now journal.now result rt.old rt.new }
    ensures faults { IfErr result IsOfSubcommand }
{
    let time = rt.time();
    let moment = time.seconds();
    let desk = unlogged_desk(alloc, rt, path)?;
    let (report, connection) = begin_over(alloc, rt, desk, moment, path, journal);
    let closed = close(rt, connection);
    first_fault(report, closed)
}

/// The same over a desk, whose database is given back.
fn begin_over<S: Alter + Drop, R: Journals>(
    alloc: Global,
    rt: &mut R,
    desk: Desk<Store<S>>,
    moment: u64,
    path: &str,
    journal: &str,
) -> (Result<String, Fault>, Connection<S>)
    ensures begun { BeginsOver S.Store (logs R.Journals R.Log.Journal R.Time.shows)
        (first_place (board_files desk.book.register) (made_at moment path.now journal.now))
        journal.now result.0 rt.old rt.new desk.store result.1 }
    ensures faults { IfErr result.0 IsOfSubcommand }
    ensures mode { result.1.in_transaction ≡ false }
{
    match first_of(alloc, desk.book(), moment, path, journal) {
        Ok((first, line)) => {
            let (begun, connection) = begin_journal_of(rt, desk, journal, &first);
            match begun {
                Ok(()) => (Ok(line), connection),
                Err(fault) => (Err(fault), connection),
            }
        }
        Err(AllocError) => (Err(Fault::Memory), desk.end().end()),
    }
}

/// The first place of the register of a book in a journal, and the line that says its id.
fn first_of(
    alloc: Global,
    book: &DeskBook,
    moment: u64,
    path: &str,
    journal: &str,
) -> Result<(Place, String), AllocError>
    ensures place { IfOk result (λ found. found.0 ≡ first_place (board_files book.now.register)
        (made_at moment path.now journal.now)) }
    ensures line { IfOk result (λ found. string_bytes found.1 ≡ journal_line found.0.id) }
{
    let board = print_board(alloc, book, 0)?;
    let sections = Vec::from_slice(alloc, board.as_bytes())?;
    let points = Vec::new(alloc);
    let staff = Vec::new(alloc);
    let texts = Texts {
        sections,
        points,
        staff,
    };
    let place = first_place(alloc, &texts, moment, path, journal)?;
    let line = format!(in alloc; "journal {}\n", place.id.as_str())?;
    Ok((place, line))
}
