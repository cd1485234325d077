//! An archive of the register of a desk: the steps of its past records leave the tables.
ghost use Rattle.std.specs.Prelude.{◌≡◌, ⊤, IfOk, None, map};
ghost use Rattle.sqlite.specs.Held.{state};
ghost use Rattle.clr_changes.specs.Archive.{archived, steps_that_go};
ghost use Rattle.clr_rules.specs.StepKey.{step_key};
ghost use Rattle.clr_store.specs.StepsTaken.{without_steps};
ghost use Rattle.clr_store.specs.Transaction.{PlacesAs, Transacts};
ghost use Rattle.clr_desk.specs.Answering.{fault_of};
ghost use Rattle.clr_desk.specs.Faults.{IsOfCommand, count_after};
ghost use Rattle.clr_desk.specs.Planning.{IsLeft};
ghost use Rattle.clr_desk.specs.Renewing.{ComesTo};

use crate::book::DeskBook;
use crate::commit_at::CommitAt;
use crate::desk::Desk;
use crate::desk_fault::DeskFault;
use crate::renewing::book_archived;
use clr_changes::keys_that_go;
use clr_rules::{Moment, Place, StepKey};
use clr_store::Store;
use sqlite::Alter;
use std::alloc::{AllocError, Global};

impl<S: Alter + Drop> Desk<Store<S>> {
    /// Ends the desk, and takes the steps of each record that was closed before a moment out of the
    /// tables, in one transaction. The store is handed back.
    ///
    /// `Store(Sql)` where the database refuses or fails, `NoMemory` where memory runs out. On a
    /// fault the tables are as they were. A place in a journal stays as it is.
    pub fn archive(self, alloc: Global, before: Moment) -> (Result<(), DeskFault>, Store<S>)
        ensures { Transacts (PlacesAs None) (λ _ _. IsOfCommand) (state S.Store self.store)
            (state S.Store result.1)
            (without_steps (map step_key (steps_that_go before self.book.register))) result.0 }
    {
        let (book, mut store) = self.parted();
        let done = archive_tables(alloc, &mut store, &book, before);
        (done, store)
    }
}

/// The keys of the steps of a book that go.
fn keys_of(alloc: Global, book: &DeskBook, before: Moment) -> Result<Vec<StepKey>, AllocError>
    ensures { IfOk result (λ keys. keys.items
        ≡ map step_key (steps_that_go before book.now.register)) }
{
    keys_that_go(alloc, book, before)
}

/// Takes the steps that go out of the tables of a book's register.
fn archive_tables<S: Alter + Drop>(
    alloc: Global,
    store: &mut Store<S>,
    book: &DeskBook,
    before: Moment,
) -> Result<(), DeskFault>
    ensures { Transacts (PlacesAs None) (λ _ _. IsOfCommand) (state S.Store store.old)
        (state S.Store store.new)
        (without_steps (map step_key (steps_that_go before book.now.register))) result }
{
    let keys = keys_of(alloc, book, before)?;
    store.take_steps(keys.as_slice(), None)?;
    Ok(())
}

/// What an archive is carried out with: it is made before anything is written.
#[derive(Drop)]
struct Left {
    /// The keys of the steps that go.
    keys: Vec<StepKey>,
    /// The book after it.
    book: DeskBook,
}

/// What an archive of a book is carried out with. The book stays as it is.
fn left_of(alloc: Global, book: &DeskBook, before: Moment) -> Result<Left, AllocError>
    ensures { IfOk result (IsLeft before book.now.register) }
{
    let keys = keys_of(alloc, book, before)?;
    let book = book_archived(alloc, book, before)?;
    Ok(Left { keys, book })
}

/// Keeps what an archive leaves of a desk, and the place after it: both, or the desk stays as it
/// is.
fn leave_at<K: CommitAt>(
    desk: Desk<K>,
    left: Left,
    before: Moment,
    place: &Place,
) -> (Result<(), DeskFault>, Desk<K>)
    requires { IsLeft before desk.book.register left }
    ensures archived { ComesTo K.kept K.has_place K.fails ⊤ desk result.1
        (archived before desk.book.register) place.now result.0 }
    ensures faults { result.1.faults ≡ count_after (fault_of result.0) desk.faults }
{
    let faults = desk.faults();
    let (book, mut keeper) = desk.parted();
    let Left { keys, book: after } = left;
    match keeper.take_steps_at(&keys, place) {
        Ok(()) => (Ok(()), Desk::of(after, keeper, faults)),
        Err(fault) => (Err(fault), Desk::of(book, keeper, faults.saturating_add(1))),
    }
}

impl<K: CommitAt> Desk<K> {
    /// Takes the steps of each record that was closed before a moment out of the register, and
    /// keeps the place after it, both at once. The desk goes on with the register that is left.
    ///
    /// On a fault, register and place are as they were. A fault is counted.
    pub fn archive_at(
        self,
        alloc: Global,
        before: Moment,
        place: &Place,
    ) -> (Result<(), DeskFault>, Desk<K>)
        ensures archived { ComesTo K.kept K.has_place K.fails ⊤ self result.1
            (archived before self.book.register) place.now result.0 }
        ensures faults { result.1.faults ≡ count_after (fault_of result.0) self.faults }
    {
        let faults = self.faults();
        let (book, keeper) = self.parted();
        match left_of(alloc, &book, before) {
            Ok(left) => leave_at(Desk::of(book, keeper, faults), left, before, place),
            Err(_) => {
                let faults = faults.saturating_add(1);
                (Err(DeskFault::NoMemory), Desk::of(book, keeper, faults))
            }
        }
    }
}
