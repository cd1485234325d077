//! An update of the register of a desk: network and staff change in the tables.
ghost use Rattle.std.specs.Prelude.{◌≡◌, IfOk, string_bytes};
ghost use Rattle.clr_changes.specs.Lines.{change_lines};
ghost use Rattle.clr_changes.specs.Outcome.{IsOutcome, register_after};
ghost use Rattle.clr_changes.specs.Shown.{as_update};
ghost use Rattle.clr_store.specs.Renewed.{AreStatesOf};
ghost use Rattle.clr_load.specs.TypedRows.{IsTyped};
ghost use Rattle.clr_update.specs.Shown.{as_changes};
ghost use Rattle.clr_desk.specs.Answering.{fault_of};
ghost use Rattle.clr_desk.specs.Faults.{count_after};
ghost use Rattle.clr_desk.specs.Planning.{IsPlan, MakesRenewal};
ghost use Rattle.clr_desk.specs.Renewing.{IsUpdatedAt};
ghost use Rattle.clr_desk.specs.Updating.{UpdatesTables};

use crate::book::{DeskBook, network_and_staff};
use crate::commit_at::CommitAt;
use crate::desk::Desk;
use crate::desk_fault::DeskFault;
use crate::stated::book_with;
use clr_changes::{After, Outcome, Report, Update, outcome_of, print_changes};
use clr_rules::{Place, PointState};
use clr_store::Store;
use clr_update::Obstacle;
use sqlite::Alter;
use std::alloc::{AllocError, Global};

impl<S: Alter + Drop> Desk<Store<S>> {
    /// Ends the desk, and updates network and staff of its register in the tables, in one
    /// transaction, where nothing is in the way. The store is handed back.
    ///
    /// `Store(Sql)` where the database refuses or fails, `NoMemory` where memory runs out. On a
    /// fault, and where something is in the way, the tables are as they were. A place in a journal
    /// stays as it is.
    pub fn update(self, alloc: Global, update: Update) -> (Result<Report, DeskFault>, Store<S>)
        ensures { UpdatesTables S.Store self.book.register (as_update update) self.store
            result.0 result.1 }
    {
        let (book, mut store) = self.parted();
        let done = update_tables(alloc, &mut store, &book, update);
        (done, store)
    }
}

/// What comes of an update of a book.
fn outcome_in(alloc: Global, book: &DeskBook, update: Update) -> Result<Outcome, AllocError>
    ensures { IfOk result (IsOutcome book.now.register (as_update update)) }
{
    outcome_of(alloc, book, update)
}

/// Updates network and staff in the tables of a book's register.
fn update_tables<S: Alter + Drop>(
    alloc: Global,
    store: &mut Store<S>,
    book: &DeskBook,
    update: Update,
) -> Result<Report, DeskFault>
    ensures { UpdatesTables S.Store book.now.register (as_update update) store.old result
        store.new }
{
    update.is_read();
    let outcome = outcome_in(alloc, book, update)?;
    match outcome {
        Outcome::InTheWay(obstacle) => Ok(Report::InTheWay(obstacle)),
        Outcome::Accepted(after) => {
            let lines = print_changes(alloc, &after.changes)?;
            store.update(&after.network, &after.staff, &after.states, None)?;
            Ok(Report::Changes(lines))
        }
    }
}

/// What an accepted update makes of a book, before anything is written.
#[derive(Drop)]
struct Renewal {
    /// The book after it.
    book: DeskBook,
    /// The states of its points.
    states: Vec<PointState>,
    /// The lines of what changes.
    lines: String,
}

/// What is to be done of an update.
#[derive(Drop)]
enum Plan {
    InTheWay(Obstacle),
    Accepted(Renewal),
}

/// What an update makes of a book, by what is after it.
fn renewal_of(alloc: Global, book: &DeskBook, after: After) -> Result<Renewal, AllocError>
    requires { AreStatesOf after.network.points after.states.items }
    ensures register { IfOk result (λ it. it.book.register
        ≡ register_after book.now.register after) }
    ensures network { IfOk result (λ it. it.book.network ≡ after.network) }
    ensures states { IfOk result (λ it. it.states.items ≡ after.states.items) }
    ensures lines { IfOk result (λ it. string_bytes it.lines
        ≡ change_lines (as_changes after.changes)) }
    ensures typed { IfOk result (λ it. IsTyped it.book.register) }
{
    let lines = print_changes(alloc, &after.changes)?;
    let After {
        network,
        staff,
        states,
        changes: _changes,
    } = after;
    let book = book_with(alloc, book, network, staff, &states)?;
    Ok(Renewal {
        book,
        states,
        lines,
    })
}

/// What is to be done of an update of a book, which stays as it is.
fn plan_of(alloc: Global, book: &DeskBook, update: Update) -> Result<Plan, AllocError>
    ensures { IfOk result (IsPlan book.now.register (as_update update)) }
{
    update.is_read();
    let outcome = outcome_in(alloc, book, update)?;
    match outcome {
        Outcome::InTheWay(obstacle) => Ok(Plan::InTheWay(obstacle)),
        Outcome::Accepted(after) => {
            let renewal = renewal_of(alloc, book, after)?;
            Ok(Plan::Accepted(renewal))
        }
    }
}

/// Keeps what an update makes of a desk, and the place after it: both, or the desk stays as it is.
fn keep_at<K: CommitAt>(
    desk: Desk<K>,
    renewal: Renewal,
    place: &Place,
) -> (Result<Report, DeskFault>, Desk<K>)
    requires { AreStatesOf renewal.book.network.points renewal.states.items }
    ensures updated { (u : _) → MakesRenewal desk.book.register u renewal
        → IsUpdatedAt K.kept K.has_place K.fails desk result.1 u place.now result.0 }
    ensures faults { result.1.faults ≡ count_after (fault_of result.0) desk.faults }
{
    let faults = desk.faults();
    let (book, mut keeper) = desk.parted();
    let Renewal {
        book: after,
        states,
        lines,
    } = renewal;
    let (network, staff) = network_and_staff(&after);
    match keeper.update_at(network, staff, &states, place) {
        Ok(()) => (Ok(Report::Changes(lines)), Desk::of(after, keeper, faults)),
        Err(fault) => (Err(fault), Desk::of(book, keeper, faults.saturating_add(1))),
    }
}

impl<K: CommitAt> Desk<K> {
    /// Updates network and staff of the register, where nothing is in the way, and keeps the place
    /// after it, both at once. The desk goes on with the register after the update.
    ///
    /// On a fault, and where something is in the way, register and place are as they were. A fault
    /// is counted.
    pub fn update_at(
        self,
        alloc: Global,
        update: Update,
        place: &Place,
    ) -> (Result<Report, DeskFault>, Desk<K>)
        ensures updated { IsUpdatedAt K.kept K.has_place K.fails self result.1 (as_update update)
            place.now result.0 }
        ensures faults { result.1.faults ≡ count_after (fault_of result.0) self.faults }
    {
        let faults = self.faults();
        let (book, keeper) = self.parted();
        match plan_of(alloc, &book, update) {
            Ok(Plan::InTheWay(obstacle)) => (
                Ok(Report::InTheWay(obstacle)),
                Desk::of(book, keeper, faults),
            ),
            Ok(Plan::Accepted(renewal)) => keep_at(Desk::of(book, keeper, faults), renewal, place),
            Err(_) => {
                let faults = faults.saturating_add(1);
                (Err(DeskFault::NoMemory), Desk::of(book, keeper, faults))
            }
        }
    }
}
