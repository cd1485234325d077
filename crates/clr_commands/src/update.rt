//! The subcommand `update`: network and staff of a register become those of three files.
ghost use Rattle.std.specs.Prelude.{◌≡◌, IfErr, IfOk, OnErr, map};
ghost use Rattle.sqlite.specs.Held.{state};
ghost use Rattle.clr_net.specs.NameText.{read_name};
ghost use Rattle.clr_rules.specs.Fit.{IsFit};
ghost use Rattle.clr_rules.specs.Staffed.{IsStaffed};
ghost use Rattle.clr_update.specs.Changes.{changes as changes_of};
ghost use Rattle.clr_update.specs.Laws.{IsAccepted};
ghost use Rattle.clr_update.specs.Shown.{as_changes};
ghost use Rattle.clr_update.specs.Update.{Update as AnyUpdate, updated};
ghost use Rattle.clr_changes.specs.Shown.{as_update};
ghost use Rattle.clr_changes.specs.Deeds.{update as update_by};
ghost use Rattle.clr_journal.specs.Answered.{deed_reply};
ghost use Rattle.clr_journal.specs.Line.{done};
ghost use Rattle.clr_desk.specs.Faults.{FailsAsStore};
ghost use Rattle.clr_level.specs.Journaling.{FailsToo};
ghost use Rattle.clr_commands.specs.Answers.{Gives, IsMemory};
ghost use Rattle.clr_commands.specs.Faults.{IsOfSubcommand};
ghost use Rattle.clr_commands.specs.Fence.{argument};
ghost use Rattle.clr_commands.specs.Import.{lists_of};
ghost use Rattle.clr_edge.specs.Paths.{at_paths};
ghost use Rattle.clr_commands.specs.Update.{AreSaid, IsDone, IsRenewed, IsUpdateTo, IsUpdated};
ghost use Rattle.clr_commands.specs.Update.{NotesUpdate, RefusesUpdate, ReportsUpdate, UpdatesAt};
ghost use Rattle.clr_commands.specs.Update.{UpdatesFiles, UpdatesTo, names_said, reported};
ghost use Rattle.clr_commands.specs.Update.{text_reported};
ghost use Rattle.clr_keeping.specs.Keeping.{StaysLevel, StaysSafe, StaysSound};
ghost use Rattle.clr_keeping.specs.TakenUp.{logs};

use crate::import::{Rows, rows_at};
use clr_args::asked::UpdateArgs;
use clr_chain::Clock;
use clr_changes::{After, Deed, Outcome, Report, Update, outcome_of, print_changes, report_of};
use clr_desk::{Commit, CommitAt, Desk, DeskBook, DeskFault};
use clr_edge::database::{Databases, close, first_fault};
use clr_edge::fault::Fault;
use clr_edge::journals::Journals;
use clr_edge::paths::Opens;
use clr_journal::{Journal, can_be_said};
use clr_keeping::taking_up::{Opened, let_go, take_up};
use clr_level::{Keeper, renew};
use clr_net::{Name, Network};
use clr_staff::Staff;
use clr_store::Store;
use clr_update::Changes;
use clr_update::laws::{changes_say_all, updates_keep_good};
use sqlite::Alter;
use std::alloc::{AllocError, Global};

/// What `update DB SECTIONS POINTS STAFF [--journal FILE] [--dry-run] [--without JUMPER]...`
/// prints: what changes, a line each, once it is in the tables; with `--dry-run` nothing is
/// written. The database is opened after the files were read. With a journal the changes are a line
/// of it, which is durable before they are in the tables. They can be said, so that line is read
/// back.
///
/// `Update` names what is in the way.
pub fn update<'a, R: Databases + Journals, O: Opens<'a>>(
    alloc: Global,
    rt: &mut R,
    paths: &O,
    args: &UpdateArgs<'a>,
) -> Result<String, Fault>
    ensures visit { UpdatesFiles
        (at_paths O.File.remaining O.File.failure_count (O.bytes_at paths.now))
        (logs R.Journals R.Log.Journal R.Time.shows) R.Tables.Store R.opens R.shuts R.ends
        args.now result rt.old rt.new }
    ensures faults { IfErr result IsOfSubcommand }
{
    let rows = rows_at(alloc, paths, &args.files)?;
    update_to_rows(alloc, rt, rows, args)
}

/// The same, once the files are read.
fn update_to_rows<R: Databases + Journals>(
    alloc: Global,
    rt: &mut R,
    rows: Rows,
    args: &UpdateArgs<'_>,
) -> Result<String, Fault>
    ensures visit { UpdatesTo (UpdatesAt (logs R.Journals R.Log.Journal R.Time.shows)
        R.Tables.Store R.opens R.shuts R.ends args.now) (lists_of rows)
        (map (λ word. word.now) args.now.without.items) rt.old rt.new result }
    ensures faults { IfErr result IsOfSubcommand }
{
    let update = update_to(alloc, rows, args.without.as_slice())?;
    update_register(alloc, rt, args, update)
}

/// The update to the network and the staff of these rows, without the jumpers that words name.
fn update_to(alloc: Global, rows: Rows, without: &[&str]) -> Result<Update, Fault>
    ensures update { IfOk result (λ update. IsUpdateTo (lists_of rows)
        (map (λ word. word.now) without.now) (as_update update)) }
    ensures refused { OnErr result (RefusesUpdate (lists_of rows)
        (map (λ word. word.now) without.now) result) }
    ensures faults { IfErr result IsOfSubcommand }
{
    let network = Network::build(alloc, rows.sections, rows.points)?;
    let staff = Staff::build(alloc, rows.staff)?;
    let without = names_said(alloc, without)?;
    Ok(Update {
        network,
        staff,
        without,
    })
}

/// The names that words say. The first word from the left that says none is reported.
fn names_said(alloc: Global, words: &[&str]) -> Result<Vec<Name>, Fault>
    ensures answer { Gives IsMemory (λ names. names.items)
        (names_said (map (λ word. word.now) words.now)) result }
    ensures faults { IfErr result IsOfSubcommand }
{
    let mut names = Vec::new(alloc);
    for word in words {
        names.push(name_said(word)?)?;
    }
    Ok(names)
}

/// The name that a word says.
fn name_said(word: &str) -> Result<Name, Fault>
    ensures answer { result ≡ argument (read_name word.now) }
    ensures faults { IfErr result IsOfSubcommand }
{
    let name = Name::read(word)?;
    Ok(name)
}

/// Updates the register of a database, which is closed after it.
fn update_register<R: Databases + Journals>(
    alloc: Global,
    rt: &mut R,
    args: &UpdateArgs<'_>,
    update: Update,
) -> Result<String, Fault>
    ensures visit { UpdatesAt (logs R.Journals R.Log.Journal R.Time.shows)
        R.Tables.Store R.opens R.shuts R.ends args.now (as_update update) result rt.old rt.new }
    ensures faults { IfErr result IsOfSubcommand }
{
    let opened = take_up(alloc, rt, args.database, args.journal)?;
    match opened {
        Opened::Plain(desk) => {
            let (report, store) = update_desk(alloc, desk, update, args.dry_run);
            let closed = close(rt, store.end());
            first_fault(report, closed)
        }
        Opened::Logged(desk) => {
            let (report, desk) = renew_desk(alloc, desk, update, args.dry_run);
            let closed = let_go(rt, Opened::Logged(desk));
            first_fault(report, closed)
        }
    }
}

/// Ends a desk, with what comes of an update of its register.
fn update_desk<S: Alter + Drop>(
    alloc: Global,
    desk: Desk<Store<S>>,
    update: Update,
    dry_run: bool,
) -> (Result<String, Fault>, Store<S>)
    requires { IsFit desk.book.register }
    ensures reports { ReportsUpdate FailsAsStore desk.book.register (as_update update) result.0 }
    ensures done { IsDone (state S.Store) dry_run desk.book.register (as_update update) result.0
        desk.store result.1 }
{
    if dry_run {
        (try_update(alloc, desk.book(), update), desk.end())
    } else {
        make_update(alloc, desk, update)
    }
}

/// What an update of a book would change.
fn try_update(alloc: Global, book: &DeskBook, update: Update) -> Result<String, Fault>
    ensures { ReportsUpdate (λ _. ⊥) book.now.register (as_update update) result }
{
    match report_of(alloc, book, update) {
        Ok(report) => text_of(Ok(report)),
        Err(AllocError) => Err(Fault::Memory),
    }
}

/// Ends a desk, and updates its register in the tables.
fn make_update<S: Alter + Drop>(
    alloc: Global,
    desk: Desk<Store<S>>,
    update: Update,
) -> (Result<String, Fault>, Store<S>)
    requires { IsFit desk.book.register }
    ensures reports { ReportsUpdate FailsAsStore desk.book.register (as_update update) result.0 }
    ensures updated { IsUpdated (state S.Store) desk.book.register (as_update update) result.0
        desk.store result.1 }
{
    update.is_read();
    updates_keep_good();
    let (report, store) = desk.update(alloc, update);
    (text_of(report), store)
}

/// What is printed of an update, or its fault.
fn text_of(report: Result<Report, DeskFault>) -> Result<String, Fault>
    ensures { result ≡ text_reported report }
{
    match report {
        Ok(Report::Changes(lines)) => Ok(lines),
        Ok(Report::InTheWay(obstacle)) => Err(Fault::Update(obstacle)),
        Err(fault) => Err(Fault::from(fault)),
    }
}

/// What comes of an update of the register of a desk with a journal. A fault after its line may
/// leave the keeper in doubt: then the next opening carries the changes out, if the register lacks
/// them.
fn renew_desk<K: CommitAt, J: Journal + Drop, C: Clock>(
    alloc: Global,
    desk: Desk<Keeper<K, J, C>>,
    update: Update,
    dry_run: bool,
) -> (Result<String, Fault>, Desk<Keeper<K, J, C>>)
    requires { IsFit desk.book.register }
    ensures reports { ReportsUpdate (FailsToo K.fails) desk.book.register (as_update update)
        result.0 }
    ensures done { IsDone (⟦<Keeper<K, J, C> as Commit>⟧.kept) dry_run desk.book.register
        (as_update update) result.0 desk.store result.1.store }
    ensures said { AreSaid (as_update update) desk result.1 }
    ensures noted { NotesUpdate K.kept K.has_place K.fails C.shows J.Journal dry_run
        (as_update update) result.0 desk result.1 }
    ensures level { StaysLevel K.kept K.has_place J.text desk result.1 }
    ensures sound { StaysSound J.text J.found J.may_leave desk result.1 }
    ensures safe { StaysSafe K.kept K.has_place J.text J.may_leave desk result.1 }
{
    if dry_run {
        (try_update(alloc, desk.book(), update), desk)
    } else {
        renew_unless(alloc, desk, update)
    }
}

/// The same where it is no dry run.
fn renew_unless<K: CommitAt, J: Journal + Drop, C: Clock>(
    alloc: Global,
    desk: Desk<Keeper<K, J, C>>,
    update: Update,
) -> (Result<String, Fault>, Desk<Keeper<K, J, C>>)
    requires { IsFit desk.book.register }
    ensures renewed { IsRenewed K.kept K.has_place K.fails C.shows J.Journal desk result.1
        (as_update update) result.0 }
    ensures level { StaysLevel K.kept K.has_place J.text desk result.1 }
    ensures sound { StaysSound J.text J.found J.may_leave desk result.1 }
    ensures safe { StaysSafe K.kept K.has_place J.text J.may_leave desk result.1 }
{
    update.is_read();
    changes_say_all();
    match outcome_of(alloc, desk.book(), update) {
        Ok(outcome) => match outcome {
            Outcome::InTheWay(obstacle) => (Err(Fault::Update(obstacle)), desk),
            Outcome::Accepted(after) => {
                let After { changes, .. } = after;
                renew_by(alloc, desk, changes)
            }
        },
        Err(AllocError) => (Err(Fault::Memory), desk),
    }
}

/// Makes changes that can be made in the register of a desk with a journal. They are those of an
/// update, whichever it is.
fn renew_by<K: CommitAt, J: Journal + Drop, C: Clock>(
    alloc: Global,
    desk: Desk<Keeper<K, J, C>>,
    changes: Changes,
) -> (Result<String, Fault>, Desk<Keeper<K, J, C>>)
    requires { deed_reply desk.book.register (update_by (as_changes changes)) ≡ done }
    ensures renewed { (u : AnyUpdate) → IsStaffed desk.book.register
        → IsAccepted desk.book.register u
        → as_changes changes ≡ changes_of desk.book.register (updated desk.book.register u)
        → IsRenewed K.kept K.has_place K.fails C.shows J.Journal desk result.1 u result.0 }
    ensures level { StaysLevel K.kept K.has_place J.text desk result.1 }
    ensures sound { StaysSound J.text J.found J.may_leave desk result.1 }
    ensures safe { StaysSafe K.kept K.has_place J.text J.may_leave desk result.1 }
{
    updates_keep_good();
    changes_say_all();
    can_be_said(&changes);
    match print_changes(alloc, &changes) {
        Ok(lines) => {
            let (came, desk) = renew(alloc, desk, Deed::Update(changes));
            (reported(lines, came), desk)
        }
        Err(AllocError) => (Err(Fault::Memory), desk),
    }
}

/// The lines of what changed, or the fault.
fn reported(lines: String, came: Result<(), DeskFault>) -> Result<String, Fault>
    ensures { result ≡ reported lines came }
{
    match came {
        Ok(()) => Ok(lines),
        Err(fault) => Err(Fault::from(fault)),
    }
}
