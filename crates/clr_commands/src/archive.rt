//! The subcommand `archive`: the steps of records that were closed before a moment are printed, and
//! then leave the tables.
ghost use Rattle.std.specs.Prelude.{◌≡◌, IfErr, IsTrue, OnErr, OnOk, Some};
ghost use Rattle.sqlite.specs.Held.{state};
ghost use Rattle.clr_rules.specs.Good.{IsGood};
ghost use Rattle.clr_rules.specs.Moment.{new_moment};
ghost use Rattle.clr_stream.specs.Streams.{WentOut};
ghost use Rattle.clr_changes.specs.Deeds.{archive as of_archive};
ghost use Rattle.clr_desk.specs.Faults.{FailsAsStore};
ghost use Rattle.clr_keeping.specs.Keeping.{StaysLevel, StaysSafe, StaysSound};
ghost use Rattle.clr_keeping.specs.TakenUp.{logs};
ghost use Rattle.clr_commands.specs.Archive.{ArchivesAt, IsArchived, IsUnsent, TakesOut};
ghost use Rattle.clr_commands.specs.ArchiveText.{archive_text};
ghost use Rattle.clr_commands.specs.DeedLines.{IsJournaled};
ghost use Rattle.clr_commands.specs.Faults.{IsOfDesk, done_of};

use crate::archive_text::archive_text;
use clr_args::asked::ArchiveArgs;
use clr_book::Book;
use clr_chain::Clock;
use clr_changes::Deed;
use clr_desk::{Commit, CommitAt, Desk, DeskFault};
use clr_edge::database::{Databases, close, first_fault};
use clr_edge::fault::Fault;
use clr_edge::journals::Journals;
use clr_edge::output::write_out;
use clr_journal::Journal;
use clr_keeping::taking_up::{Opened, let_go, take_up};
use clr_level::{Keeper, renew};
use clr_rules::{Hold, Moment, PointState, Record, StepRow};
use clr_shelf::Shelf;
use clr_store::Store;
use clr_stream::CountedFlush;
use sqlite::Alter;
use std::alloc::Global;

/// What `archive DB [--journal FILE] --before MOMENT` does: the records that were closed before the
/// moment go out to `output`, each with its steps as a line of JSON, and are flushed. Then these
/// steps leave the tables, in one transaction. With a journal the archive is a line of it, which is
/// durable before that.
///
/// `Output` where they could not be written or flushed: then no step left the tables. At any other
/// fault nothing went out, or all of it did, and the tables are as they were, or only closing the
/// database failed. With a journal the next opening may then carry the archive out.
pub fn archive<R: Databases + Journals, W: CountedFlush>(
    alloc: Global,
    rt: &mut R,
    args: &ArchiveArgs<'_>,
    output: &mut W,
) -> Result<(), Fault>
    ensures visit { ArchivesAt (logs R.Journals R.Log.Journal R.Time.shows) R.Tables.Store
        R.opens R.shuts R.ends args.now (W.stream output.old) (W.stream output.new) result
        rt.old rt.new }
{
    let opened = take_up(alloc, rt, args.database, args.journal)?;
    let before = moment_of(args);
    match opened {
        Opened::Plain(desk) => {
            let (archived, store) = archive_desk(alloc, desk, before, output);
            let closed = close(rt, store.end());
            first_fault(archived, closed)
        }
        Opened::Logged(desk) => {
            let (archived, desk) = archive_logged(alloc, desk, before, output);
            let closed = let_go(rt, Opened::Logged(desk));
            first_fault(archived, closed)
        }
    }
}

/// The moment that is asked for.
fn moment_of(args: &ArchiveArgs<'_>) -> Moment
    ensures { result ≡ args.now.before }
{
    match Moment::new(args.before) {
        Some(moment) => moment,
        None => unreachable!(),
    }
}

/// Ends a desk: what gives up its steps goes out, and then the steps leave the tables.
fn archive_desk<S: Alter + Drop, W: CountedFlush>(
    alloc: Global,
    desk: Desk<Store<S>>,
    before: Moment,
    output: &mut W,
) -> (Result<(), Fault>, Store<S>)
    ensures { IsArchived ⟦<Store<S> as Commit>⟧ before (W.stream output.old)
        (W.stream output.new) desk.book.register result.0 desk.store result.1 }
{
    match send(alloc, desk.book(), before, output) {
        Ok(()) => take_out(alloc, desk, before),
        Err(fault) => (Err(fault), desk.end()),
    }
}

/// The same at a desk with a journal. A fault after its line may leave the keeper in doubt: then
/// the next opening carries the archive out, if the register lacks it.
fn archive_logged<K: CommitAt, J: Journal + Drop, C: Clock, W: CountedFlush>(
    alloc: Global,
    desk: Desk<Keeper<K, J, C>>,
    before: Moment,
    output: &mut W,
) -> (Result<(), Fault>, Desk<Keeper<K, J, C>>)
    requires { IsGood desk.book.register }
    ensures archived { IsArchived ⟦<Keeper<K, J, C> as Commit>⟧ before (W.stream output.old)
        (W.stream output.new) desk.book.register result.0 desk.store result.1.store }
    ensures noted { IsJournaled K.kept K.has_place K.fails C.shows J.Journal desk
        (of_archive before) result.0 result.1 }
    ensures level { StaysLevel K.kept K.has_place J.text desk result.1 }
    ensures sound { StaysSound J.text J.found J.may_leave desk result.1 }
    ensures safe { StaysSafe K.kept K.has_place J.text J.may_leave desk result.1 }
{
    match send(alloc, desk.book(), before, output) {
        Ok(()) => {
            let (came, desk) = renew(alloc, desk, Deed::Archive(before));
            (done_of(came), desk)
        }
        Err(fault) => (Err(fault), desk),
    }
}

/// Writes the records that give up their steps, with these, and flushes them.
fn send<P, C, T, H, W: CountedFlush>(
    alloc: Global,
    book: &Book<P, C, T, H>,
    before: Moment,
    output: &mut W,
) -> Result<(), Fault>
where
    P: Shelf<PointState>,
    C: Shelf<Record>,
    T: Shelf<StepRow>,
    H: Shelf<Hold>,
    ensures sent { OnOk result (WentOut (W.stream output.old) (W.stream output.new)
        (archive_text before book.now.register)) }
    ensures unsent { IfErr result (IsUnsent (W.stream output.old) (W.stream output.new)
        (archive_text before book.now.register)) }
{
    let text = archive_text(alloc, book, before)?;
    write_out(text.as_str(), output)
}

/// Takes the steps of records that were closed before a moment out of the tables.
fn take_out<S: Alter + Drop>(
    alloc: Global,
    desk: Desk<Store<S>>,
    before: Moment,
) -> (Result<(), Fault>, Store<S>)
    ensures taken { TakesOut (state S.Store) before desk.book.register result.0 desk.store
        result.1 }
    ensures fault { IfErr result.0 (IsOfDesk FailsAsStore) }
{
    let (came, store) = desk.archive(alloc, before);
    (done_of(came), store)
}

/// What came of a call of a desk.
fn done_of(came: Result<(), DeskFault>) -> Result<(), Fault>
    ensures { result ≡ done_of came }
{
    match came {
        Ok(()) => Ok(()),
        Err(fault) => Err(Fault::from(fault)),
    }
}
