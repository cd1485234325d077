//! The journal of a register is begun: with the register, or for one that has none.
ghost use Rattle.std.specs.Prelude.{◌≡◌, ◌⊎◌, IfErr, IfOk, OnErr, OnOk, false};
ghost use Rattle.clr_rules.specs.Register.{opening};
ghost use Rattle.clr_level.specs.declared.last.Last.TheVariants.{Settled};
ghost use Rattle.clr_keeping.specs.Beginning.{BeginsFirst, BeginsNextAt, GoesOnAt, IsMadeAt};
ghost use Rattle.clr_keeping.specs.Beginning.{IsOfBegun};
ghost use Rattle.clr_keeping.specs.Beginning.{IsPlacedOrNot, IsUnmadeAt, MakesRegisterAt, PlacesAt};
ghost use Rattle.clr_keeping.specs.Beginning.{begun_or};
ghost use Rattle.clr_keeping.specs.TakenUp.{IsOfTakingUp, logs};
ghost use Rattle.clr_edge.specs.Visit.{Alone, Comes, reported};

use crate::taking_up::{Opened, take_up};
use clr_chain::Clock;
use clr_desk::{CommitAt, Desk};
use clr_edge::database::{Databases, Makes, close, first_fault, settled};
use clr_edge::fault::{DatabaseFault, Fault, JournalFault};
use clr_edge::journals::Journals;
use clr_journal::Journal;
use clr_level::Keeper;
use clr_net::Network;
use clr_rules::{Change, Place, Text};
use clr_staff::Staff;
use clr_store::{Back, Store};
use sqlite::{Alter, Connection};
use std::alloc::{AllocError, Global};

/// Begins a journal at a path, with this first line, and then makes the tables of an opening
/// register, with that place, in the database at another path, which has to be empty.
///
/// The faults of a journal that is not begun come before the database is opened.
/// `Journal(Begun)` where the journal was begun and the register was not made: the journal is to be
/// removed.
pub fn begin_register<R: Makes + Journals>(
    rt: &mut R,
    path: &str,
    journal: &str,
    first: &Place,
    network: &Network,
    staff: &Staff,
) -> Result<(), Fault>
    ensures begun { BeginsFirst (logs R.Journals R.Log.Journal R.Time.shows) journal.now first.now
        (λ outcome old new. Comes R.makes R.shuts R.ends path.now
        (Alone (MakesRegisterAt R.Tables.Store (opening network.now staff.now) first.now))
        outcome old new) result rt.old rt.new }
    ensures fault { IfErr result IsOfBegun }
{
    let log = rt.begin_journal(journal, first)?;
    rt.let_journal_go(log);
    let made = store_register_at(rt, path, network, staff, first);
    begun_or(made)
}

/// Makes the tables of an opening register that has a journal, with its first place there, in the
/// database at a path, which has to be empty, and closes it. A file that is not there is made.
fn store_register_at<R: Makes>(
    rt: &mut R,
    path: &str,
    network: &Network,
    staff: &Staff,
    first: &Place,
) -> Result<(), DatabaseFault>
    ensures { Comes R.makes R.shuts R.ends path.now
        (Alone (MakesRegisterAt R.Tables.Store (opening network.now staff.now) first.now))
        (reported result) rt.old rt.new }
{
    let connection = rt.database(path)?;
    let (made, connection) = register_made_at(connection, network, staff, first);
    let closed = close(rt, connection);
    made.and(closed)
}

/// Makes the tables of an opening register, with its first place in a journal, in a database, which
/// has to be empty.
fn register_made_at<S: Alter + Drop>(
    connection: Connection<S>,
    network: &Network,
    staff: &Staff,
    first: &Place,
) -> (Result<(), DatabaseFault>, Connection<S>)
    ensures made { OnOk result.0
        (IsMadeAt S.Store connection (opening network.now staff.now) first.now result.1) }
    ensures unmade { OnErr result.0
        (IsUnmadeAt S.Store connection (opening network.now staff.now) first.now result.1) }
{
    settled(&connection);
    match Store::create_with_place(connection, network, staff, first) {
        Ok(store) => (Ok(()), store.end()),
        Err(Back { fault, connection }) => {
            settled(&connection);
            (Err(DatabaseFault::of_store(fault)), connection)
        }
    }
}

/// Begins a journal at a path, with this first line, for the register of a desk that has none, and
/// gives the register that place. The database is given back.
///
/// `Journal(Begun)` where the journal was begun and the register was not given the place: the
/// journal is to be removed.
pub fn begin_journal_of<S: Alter + Drop, R: Journals>(
    rt: &mut R,
    desk: Desk<Store<S>>,
    path: &str,
    first: &Place,
) -> (Result<(), Fault>, Connection<S>)
    ensures placed { PlacesAt S.Store (logs R.Journals R.Log.Journal R.Time.shows) path.now
        first.now result.0 rt.old rt.new desk.store result.1 }
    ensures fault { IfErr result.0 IsOfBegun }
    ensures mode { result.1.in_transaction ≡ false }
{
    let log = match rt.begin_journal(path, first) {
        Ok(log) => log,
        Err(fault) => return (Err(fault), desk.end().end()),
    };
    rt.let_journal_go(log);
    let (placed, connection) = place_in(desk.end(), first);
    (begun_or(placed), connection)
}

/// Gives the register of a store that has no journal a place in one.
fn place_in<S: Alter + Drop>(
    store: Store<S>,
    first: &Place,
) -> (Result<(), DatabaseFault>, Connection<S>)
    ensures placed { IsPlacedOrNot S.Store store first.now (reported result.0) result.1 }
    ensures mode { result.1.in_transaction ≡ false }
{
    let mut store = store;
    match store.begin_at(first) {
        Ok(()) => (Ok(()), store.end()),
        Err(cause) => (Err(DatabaseFault::of_store(cause)), store.end()),
    }
}

/// What is reported once a journal was begun: any fault of the database says that it is to be
/// removed.
fn begun_or(outcome: Result<(), DatabaseFault>) -> Result<(), Fault>
    ensures { result ≡ begun_or outcome }
{
    match outcome {
        Ok(()) => Ok(()),
        Err(_) => Err(Fault::Journal(JournalFault::Begun)),
    }
}

/// Ends the part of a journal that is at a path, and begins the next one at another: the journal's
/// id, number and sum are its first line. The register is taken up first, so what was accepted
/// after its place is carried out; then it goes to that place. Gives its number.
///
/// `Journal(Begun)` where the next part was begun and the register did not go to its place: the
/// next part is to be removed.
pub fn begin_next<R: Databases + Journals>(
    alloc: Global,
    rt: &mut R,
    path: &str,
    journal: &str,
    next: &str,
) -> Result<u64, Fault>
    ensures visit { BeginsNextAt (logs R.Journals R.Log.Journal R.Time.shows) R.Tables.Store
        R.opens R.shuts R.ends path.now journal.now next.now result rt.old rt.new }
    ensures fault { IfErr result (λ fault. IsOfTakingUp fault ⊎ IsOfBegun fault) }
{
    match take_up(alloc, rt, path, Some(journal))? {
        Opened::Plain(desk) => {
            let _closed = close(rt, desk.end().end());
            Err(Fault::Journal(JournalFault::OtherRegister))
        }
        Opened::Logged(desk) => {
            let (begun, connection) = go_on(alloc, rt, desk, next);
            let closed = close(rt, connection);
            first_fault(begun, closed)
        }
    }
}

/// The same over a desk that was taken up, whose journal is let go, and its database given back.
fn go_on<S: Alter + Drop, R: Journals>(
    alloc: Global,
    rt: &mut R,
    desk: Desk<Keeper<Store<S>, R::Log, R::Time>>,
    next: &str,
) -> (Result<u64, Fault>, Connection<S>)
    ensures next { GoesOnAt S.Store (logs R.Journals R.Log.Journal R.Time.shows) next.now
        result.0 rt.old rt.new desk.store result.1 }
    ensures fault { IfErr result.0 IsOfBegun }
    ensures mode { result.1.in_transaction ≡ false }
{
    let keeper = desk.end();
    let come_to = place_of(alloc, &keeper);
    let (store, log) = keeper.end();
    rt.let_journal_go(log);
    let Ok(first) = come_to else {
        return (Err(Fault::Memory), store.end());
    };
    let log = match rt.begin_journal(next, &first) {
        Ok(log) => log,
        Err(fault) => return (Err(fault), store.end()),
    };
    rt.let_journal_go(log);
    let (placed, connection) = move_in(alloc, store, &first);
    match begun_or(placed) {
        Ok(()) => (Ok(first.number), connection),
        Err(fault) => (Err(fault), connection),
    }
}

/// Where the journal of a keeper has come to, if its last deed was carried out, refused or
/// withdrawn.
fn place_of<K: CommitAt, J: Journal + Drop, C: Clock>(
    alloc: Global,
    keeper: &Keeper<K, J, C>,
) -> Result<Place, AllocError>
    ensures { IfOk result (λ place. (place ≡ keeper.now.at) × (keeper.now.last ≡ Settled)) }
{
    match keeper.at() {
        Some(at) => copy_of(alloc, at),
        None => Err(AllocError),
    }
}

/// A copy of a place.
fn copy_of(alloc: Global, place: &Place) -> Result<Place, AllocError>
    ensures { IfOk result (λ copy. copy ≡ place.now) }
{
    let id = String::from_str(alloc, place.id.as_str())?;
    let sum = String::from_str(alloc, place.sum.as_str())?;
    Ok(Place {
        id: Text::new(id),
        number: place.number,
        sum: Text::new(sum),
    })
}

/// Sets the place of the register of a store. Its tables stay as they are.
fn move_in<S: Alter + Drop>(
    alloc: Global,
    store: Store<S>,
    first: &Place,
) -> (Result<(), DatabaseFault>, Connection<S>)
    ensures placed { IsPlacedOrNot S.Store store first.now (reported result.0) result.1 }
    ensures mode { result.1.in_transaction ≡ false }
{
    let mut store = store;
    let change = Change {
        edits: Vec::new(alloc),
    };
    match store.commit(&change, Some(first)) {
        Ok(()) => (Ok(()), store.end()),
        Err(cause) => (Err(DatabaseFault::of_store(cause)), store.end()),
    }
}
