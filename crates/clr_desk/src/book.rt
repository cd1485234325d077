//! The book of a desk, and what a desk does with it.
ghost use Rattle.std.specs.Prelude.{◌≡◌, true, IfOk, OnOk};
ghost use Rattle.clr_book.specs.Book.{Fits, needs};
ghost use Rattle.clr_book.specs.Growth.{network_after_all};
ghost use Rattle.clr_rules.specs.Edits.{after_edits, fit};
ghost use Rattle.clr_rules.specs.Register.{opening};
ghost use Rattle.clr_rules.specs.Run.{IsReached};
ghost use Rattle.clr_load.specs.TypedRows.{IsTyped};

use crate::typed::Typed;
use clr_book::Book;
use clr_net::Network;
use clr_rules::{Change, Edit, Hold, PointState, Record, StepRow};
use clr_shelf::{Shelf, SortedShelf};
use clr_staff::Staff;
use std::alloc::{AllocError, Global};

/// The book of a desk.
pub type DeskBook = Book<
    SortedShelf<PointState>,
    SortedShelf<Record>,
    SortedShelf<StepRow>,
    SortedShelf<Hold>,
>;

/// The book of an opening register: each point in the position that its row gives, in nobody's
/// hand, and no clearance.
pub(crate) fn opening_book(
    alloc: Global,
    network: Network,
    staff: Staff,
) -> Result<DeskBook, AllocError>
    ensures register { IfOk result (λ book. book.register ≡ opening network staff) }
    ensures network { IfOk result (λ book. book.network ≡ network) }
    ensures reached { IfOk result (λ book. IsReached book.register) }
    ensures typed { IfOk result (λ book. IsTyped book.register) }
{
    network.typed();
    staff.typed();
    let book = DeskBook::opening(alloc, network, staff)?;
    Ok(book)
}

/// The network and the staff of a desk's book.
pub(crate) fn network_and_staff(book: &DeskBook) -> (&Network, &Staff)
    ensures network { result.0.now ≡ book.now.network }
    ensures staff { result.1.now ≡ book.now.register.staff }
{
    of_book(book)
}

/// The network and the staff of a book.
fn of_book<P, C, T, H>(book: &Book<P, C, T, H>) -> (&Network, &Staff)
where
    P: Shelf<PointState>,
    C: Shelf<Record>,
    T: Shelf<StepRow>,
    H: Shelf<Hold>,
    ensures network { result.0.now ≡ book.now.network }
    ensures staff { result.1.now ≡ book.now.register.staff }
{
    (book.network(), book.staff())
}

/// Makes a change for which there is room, and which the network takes.
pub(crate) fn apply(book: &mut DeskBook, change: Change)
    requires room { Fits (needs change.edits.items) book.old.room }
    requires fits { fit book.old.register.net change.edits.items ≡ true }
    ensures register { book.new.register ≡ after_edits change.edits.items book.old.register }
    ensures network { book.new.network ≡ network_after_all change.edits.items book.old.network }
{
    book.apply(change);
}

/// Makes edits that a network takes, if there is room for them.
pub(crate) fn make(book: &mut DeskBook, edits: Vec<Edit>) -> Result<(), AllocError>
    requires { fit book.old.register.net edits.items ≡ true }
    ensures register { OnOk result
        (book.new.register ≡ after_edits edits.items book.old.register) }
    ensures network { OnOk result
        (book.new.network ≡ network_after_all edits.items book.old.network) }
{
    let change = Change { edits };
    book.reserve(&change)?;
    apply(book, change);
    Ok(())
}
