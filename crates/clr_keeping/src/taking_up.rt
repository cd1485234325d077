//! A register is taken up from a database, with its journal or without one, and let go.
ghost use Rattle.std.specs.Prelude.{◌≡◌, IfErr, IfOk, None, false};
ghost use Rattle.sqlite.specs.Held.{state};
ghost use Rattle.clr_rules.specs.Fit.{IsFit};
ghost use Rattle.clr_rules.specs.Good.{IsGood};
ghost use Rattle.clr_desk.specs.Kept.{Keeps};
ghost use Rattle.clr_level.specs.Journaling.{HasText, IsSound};
ghost use Rattle.clr_level.specs.declared.last.Last.TheVariants.{Settled};
ghost use Rattle.clr_keeping.specs.Keeping.{IsEnded, IsLetGo, IsNotUp, IsNotUpWith, IsUp, IsUpWith};
ghost use Rattle.clr_keeping.specs.Keeping.{logged, plain, unlogged};
ghost use Rattle.clr_keeping.specs.TakenUp.{HasPlace, IsGiven, IsNotGiven, IsOfTakingUp};
ghost use Rattle.clr_keeping.specs.TakenUp.{LacksPlace};
ghost use Rattle.clr_keeping.specs.TakenUp.{LeavesFronts, MissesOne, OpensLevel, RollsForward};
ghost use Rattle.clr_keeping.specs.TakenUp.{StaysRead, StopsForward, entries_of, logs, of_opening};

use clr_chain::{Ahead, Clock};
use clr_desk::{Commit, CommitAt, Desk};
use clr_edge::database::{Databases, close, desk_over};
use clr_edge::fault::{DatabaseFault, Fault, JournalFault};
use clr_edge::journals::{Journals, OpenedJournal};
use clr_journal::Journal;
use clr_level::{Keeper, OpeningFault, with_journal};
use clr_rules::Place;
use clr_store::Store;
use sqlite::{Alter, Connection};
use std::alloc::Global;

/// A register that was taken up: a desk over what keeps its changes, with a journal or without one.
#[derive(Drop)]
pub enum Opened<K: CommitAt, J: Journal + Drop, C: Clock> {
    /// A deed goes to what keeps its change.
    Plain(Desk<K>),
    /// It has its line in a journal first, and its change is kept with the place at that line.
    Logged(Desk<Keeper<K, J, C>>),
}

/// Takes up the register of the database at a path, to be changed: with the journal at another
/// path, if one is named. The database is opened first, then the journal, at the place that the
/// register has in it. What was accepted after that place, and not withdrawn, is carried out. At a
/// fault neither stays open.
///
/// The faults of the database are those of `desk_over`, and `Store(BadRow)` also where the place
/// does not read. `Journal(Missing)` where the register has a journal and none is named,
/// `OtherRegister` also where it has none and one is named. Those of the journal are that it was
/// not opened, is another register's, ends too early, differs, or has a bad line.
pub fn take_up<R: Databases + Journals>(
    alloc: Global,
    rt: &mut R,
    path: &str,
    journal: Option<&str>,
) -> Result<Opened<Store<R::Tables>, R::Log, R::Time>, Fault>
    ensures up { IfOk result (IsUpWith R.Tables.Store R.opens path.now
        (logs R.Journals R.Log.Journal R.Time.shows) journal.entry rt.old rt.new) }
    ensures none { IfErr result (IsNotUpWith R.Tables.Store R.opens R.shuts R.ends path.now
        (logs R.Journals R.Log.Journal R.Time.shows) journal.entry rt.old rt.new) }
    ensures fault { IfErr result IsOfTakingUp }
{
    match journal {
        Some(journal) => match logged_desk(alloc, rt, path, journal) {
            Ok(desk) => Ok(Opened::Logged(desk)),
            Err(fault) => Err(fault),
        },
        None => match unlogged_desk(alloc, rt, path) {
            Ok(desk) => Ok(Opened::Plain(desk)),
            Err(fault) => Err(fault),
        },
    }
}

/// Opens a desk over the register of the database at a path, which is only read, whether it has a
/// journal or not. A fault closes the database.
pub fn open_desk<R: Databases>(
    alloc: Global,
    rt: &mut R,
    path: &str,
) -> Result<Desk<Store<R::Tables>>, Fault>
    ensures up { IfOk result (IsUp R.opens path.now (plain R.Tables.Store)
        rt.old rt.new) }
    ensures none { IfErr result (IsNotUp R.opens R.shuts R.ends path.now
        (plain R.Tables.Store) rt.old rt.new) }
    ensures fault { IfErr result IsOfTakingUp }
{
    let connection = rt.stored(path)?;
    match desk_over(alloc, connection) {
        Ok(desk) => Ok(desk),
        Err((fault, connection)) => {
            let _closed = close(rt, connection);
            Err(fault)
        }
    }
}

/// Opens a desk over a register that has no journal, so that it may be changed without one. One
/// that has a journal is refused. A fault closes the database.
pub fn unlogged_desk<R: Databases>(
    alloc: Global,
    rt: &mut R,
    path: &str,
) -> Result<Desk<Store<R::Tables>>, Fault>
    ensures up { IfOk result (IsUp R.opens path.now (unlogged R.Tables.Store)
        rt.old rt.new) }
    ensures none { IfErr result (IsNotUp R.opens R.shuts R.ends path.now
        (unlogged R.Tables.Store) rt.old rt.new) }
    ensures fault { IfErr result IsOfTakingUp }
{
    let desk = open_desk(alloc, rt, path)?;
    match unlogged(desk) {
        Ok(desk) => Ok(desk),
        Err((fault, connection)) => {
            let _closed = close(rt, connection);
            Err(fault)
        }
    }
}

/// A desk whose register has no journal. A fault gives the database back.
fn unlogged<S: Alter + Drop>(desk: Desk<Store<S>>) -> Result<Desk<Store<S>>, (Fault, Connection<S>)>
    ensures book { IfOk result (λ found. found.book ≡ desk.book) }
    ensures faults { IfOk result (λ found. found.faults ≡ 0) }
    ensures placed { IfOk result (λ found.
        HasPlace S.Store desk.store found.store None) }
    ensures read { IfOk result (λ found.
        StaysRead (state S.Store desk.store) (state S.Store found.store)) }
    ensures missing { IfErr result (λ back. MissesOne S.Store desk.store back.0 back.1) }
    ensures read_too { IfErr result (λ back.
        StaysRead (state S.Store desk.store) (state S.Store back.1)) }
    ensures mode { IfErr result (λ back. back.1.in_transaction ≡ false) }
{
    match placed(desk) {
        Ok((desk, place)) => match place {
            None => Ok(desk),
            Some(_place) => {
                let fault = Fault::Journal(JournalFault::Missing);
                Err((fault, desk.end().end()))
            }
        },
        Err((fault, connection)) => Err((fault, connection)),
    }
}

/// A desk with the place that its register has in a journal, if it has one. A fault gives the
/// database back.
pub fn placed<S: Alter + Drop>(
    desk: Desk<Store<S>>,
) -> Result<(Desk<Store<S>>, Option<Place>), (Fault, Connection<S>)>
    ensures book { IfOk result (λ found. found.0.book ≡ desk.book) }
    ensures faults { IfOk result (λ found. found.0.faults ≡ 0) }
    ensures placed { IfOk result (λ found.
        HasPlace S.Store desk.store found.0.store found.1) }
    ensures read { IfOk result (λ found.
        StaysRead (state S.Store desk.store) (state S.Store found.0.store)) }
    ensures lacks { IfErr result (λ back. LacksPlace S.Store desk.store back.0 back.1) }
    ensures read_too { IfErr result (λ back.
        StaysRead (state S.Store desk.store) (state S.Store back.1)) }
    ensures mode { IfErr result (λ back. back.1.in_transaction ≡ false) }
{
    let (book, store) = desk.parted();
    let mut store = store;
    match store.place() {
        Ok(place) => Ok((Desk::of(book, store, 0), place)),
        Err(cause) => Err((Fault::from(cause), store.end())),
    }
}

/// Takes a register up with the journal at another path. A fault lets the journal go as it was
/// opened, and closes the database.
fn logged_desk<R: Databases + Journals>(
    alloc: Global,
    rt: &mut R,
    path: &str,
    journal: &str,
) -> Result<Desk<Keeper<Store<R::Tables>, R::Log, R::Time>>, Fault>
    ensures up { IfOk result (IsUp R.opens path.now
        (logged R.Tables.Store (logs R.Journals R.Log.Journal R.Time.shows) journal.now)
        rt.old rt.new) }
    ensures none { IfErr result (IsNotUp R.opens R.shuts R.ends path.now
        (logged R.Tables.Store (logs R.Journals R.Log.Journal R.Time.shows) journal.now)
        rt.old rt.new) }
    ensures fault { IfErr result IsOfTakingUp }
{
    let desk = open_desk(alloc, rt, path)?;
    match logged(alloc, rt, desk, journal) {
        Ok(desk) => Ok(desk),
        Err((fault, connection)) => {
            let _closed = close(rt, connection);
            Err(fault)
        }
    }
}

/// Gives a desk the journal at a path, at the place that its register has. A fault lets the journal
/// go as it was opened, and gives the database back.
fn logged<S: Alter + Drop, R: Journals>(
    alloc: Global,
    rt: &mut R,
    desk: Desk<Store<S>>,
    path: &str,
) -> Result<Desk<Keeper<Store<S>, R::Log, R::Time>>, (Fault, Connection<S>)>
    ensures taken { IfOk result (λ taken. IsGiven S.Store
        (logs R.Journals R.Log.Journal R.Time.shows) path.now rt.old rt.new
        desk.store desk.book.register taken.store taken.book.register) }
    ensures faults { IfOk result (λ taken. taken.faults ≡ 0) }
    ensures refused { IfErr result (λ back. IsNotGiven S.Store
        (logs R.Journals R.Log.Journal R.Time.shows) path.now rt.old rt.new
        desk.store desk.book.register back.0 back.1) }
    ensures fault { IfErr result (λ back. IsOfTakingUp back.0) }
    ensures mode { IfErr result (λ back. back.1.in_transaction ≡ false) }
{
    let (desk, found) = match placed(desk) {
        Ok((desk, found)) => (desk, found),
        Err((fault, connection)) => return Err((fault, connection)),
    };
    let place = match found {
        Some(place) => place,
        None => {
            let fault = Fault::Journal(JournalFault::OtherRegister);
            return Err((fault, desk.end().end()));
        }
    };
    let opened = match rt.journal(path, &place) {
        Ok(opened) => opened,
        Err(fault) => return Err((fault, desk.end().end())),
    };
    let time = rt.time();
    match taken_up(alloc, desk, opened, place, time) {
        Ok(desk) => Ok(uncounted(desk)),
        Err((fault, connection, journal)) => {
            rt.let_journal_go(journal);
            Err((fault, connection))
        }
    }
}

/// Lets a register go: its journal, if it has one, with the withdrawal that is owed, and then its
/// database is closed.
pub fn let_go<R: Databases + Journals>(
    rt: &mut R,
    opened: Opened<Store<R::Tables>, R::Log, R::Time>,
) -> Result<(), DatabaseFault>
    ensures { IsLetGo R.ends (logs R.Journals R.Log.Journal R.Time.shows) opened result
        rt.old rt.new }
{
    let (connection, log) = ended(opened);
    match log {
        Some(log) => {
            rt.let_journal_go(log);
            close(rt, connection)
        }
        None => close(rt, connection),
    }
}

/// Ends a desk, and hands back its database, and its journal if it has one.
fn ended<S: Alter + Drop, J: Journal + Drop, C: Clock>(
    opened: Opened<Store<S>, J, C>,
) -> (Connection<S>, Option<J>)
    ensures { IsEnded J.Journal opened result.0 result.1 }
{
    match opened {
        Opened::Plain(desk) => (desk.end().end(), None),
        Opened::Logged(desk) => {
            let (store, log) = desk.end().finish();
            (store.end(), Some(log))
        }
    }
}

/// Gives a desk a journal that was opened at its place. A fault gives back the database, as far as
/// the register has come, and the journal as it was opened.
fn taken_up<S: Alter + Drop, J: Journal + Drop, C: Clock>(
    alloc: Global,
    desk: Desk<Store<S>>,
    opened: OpenedJournal<J>,
    place: Place,
    clock: C,
) -> Result<Desk<Keeper<Store<S>, J, C>>, (Fault, Connection<S>, J)>
    ensures journal { IfOk result (λ taken. taken.store.journal ≡ opened.journal) }
    ensures clock { IfOk result (λ taken. taken.store.clock ≡ clock) }
    ensures settled { IfOk result (λ taken. taken.store.last ≡ Settled) }
    ensures level { IfOk result (λ taken. OpensLevel S.Store J.text desk.store
        desk.book.register place (entries_of opened.ahead) taken.store taken.book.register) }
    ensures sound { IfOk result (λ taken. HasText J.text J.found taken.store.journal
        → IsSound J.text J.found J.may_leave taken.store) }
    ensures rolled { IfOk result (λ taken. IsGood desk.book.register → RollsForward S.Store
        desk.store desk.book.register place (entries_of opened.ahead) taken.store
        taken.book.register) }
    ensures kept { IfOk result (λ taken. Keeps (state S.Store desk.store) desk.book.register
        (state S.Store taken.store.keeper) taken.book.register) }
    ensures fit { IfOk result (λ taken. IsFit desk.book.register → IsFit taken.book.register) }
    ensures left { IfOk result (λ taken. LeavesFronts S.Store desk.store desk.store
        desk.book.register place (entries_of opened.ahead) taken.store.keeper) }
    ensures stops { IfErr result (λ back. IsGood desk.book.register
        → StopsForward S.Store desk.store desk.book.register place (entries_of opened.ahead)
        back.0 back.1) }
    ensures fault { IfErr result (λ back. IsOfTakingUp back.0) }
    ensures unwritten { IfErr result (λ back. back.2 ≡ opened.journal) }
    ensures mode { IfErr result (λ back. back.1.in_transaction ≡ false) }
{
    let OpenedJournal { journal, ahead } = opened;
    let Ahead { lines, .. } = ahead;
    match with_journal(alloc, desk, journal, place, lines, clock) {
        Ok(desk) => Ok(desk),
        Err((fault, desk, journal)) => Err((of_opening(fault), desk.end().end(), journal)),
    }
}

/// A desk that has answered no fault.
fn uncounted<K: Commit>(desk: Desk<K>) -> Desk<K>
    ensures book { result.book ≡ desk.book }
    ensures store { result.store ≡ desk.store }
    ensures faults { result.faults ≡ 0 }
{
    let (book, store) = desk.parted();
    Desk::of(book, store, 0)
}

/// Why a register and its journal were not taken up together.
fn of_opening(fault: OpeningFault) -> Fault
    ensures { result ≡ of_opening fault }
{
    match fault {
        OpeningFault::OtherRules(number) => Fault::Journal(JournalFault::OtherRules(number)),
        OpeningFault::OtherRegister => Fault::Journal(JournalFault::OtherRegister),
        OpeningFault::TooShort => Fault::Journal(JournalFault::TooShort),
        OpeningFault::Differs(number) => Fault::Journal(JournalFault::Differs(number)),
        OpeningFault::BadLine(number) => Fault::Journal(JournalFault::BadLine(number)),
        OpeningFault::Desk(cause) => Fault::from(cause),
    }
}
