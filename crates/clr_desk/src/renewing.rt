//! The book after changes and after an archive, and a desk that goes on with it where it keeps
//! nothing.
ghost use Rattle.std.specs.Prelude.{◌≡◌, IfOk, OnErr, OnOk, Some};
ghost use Rattle.clr_changes.specs.Archive.{archived};
ghost use Rattle.clr_changes.specs.Made.{IsMade};
ghost use Rattle.clr_rules.specs.Good.{IsGood};
ghost use Rattle.clr_load.specs.TypedRows.{IsTyped};
ghost use Rattle.clr_update.specs.Changes.{Changes};
ghost use Rattle.clr_update.specs.Delta.{after_changes};
ghost use Rattle.clr_desk.specs.Making.{IsAfterSome};

use crate::book::DeskBook;
use crate::commit::Unkept;
use crate::copy::typed_copy;
use crate::desk::Desk;
use crate::stated::book_with;
use clr_changes::{After, archived_book};
use clr_rules::Moment;
use std::alloc::{AllocError, Global};

/// The book after changes that can be made in a book, by what is after them. That book stays as it
/// is, and its records, steps and holds are copied.
pub fn book_after(alloc: Global, book: &DeskBook, after: After) -> Result<DeskBook, AllocError>
    requires { IsAfterSome book.now.register after }
    ensures register { (of : Changes) → IsMade book.now.register of (Some after)
        → IfOk result (λ made. made.register ≡ after_changes book.now.register of) }
    ensures network { IfOk result (λ made. made.network ≡ after.network) }
    ensures typed { IfOk result (λ made. IsTyped made.register) }
{
    let After {
        network,
        staff,
        states,
        changes: _changes,
    } = after;
    book_with(alloc, book, network, staff, &states)
}

/// The book after an archive of a book, which stays as it is. It is made of the rows of a good
/// register, as every one that is reached.
pub fn book_archived(alloc: Global, book: &DeskBook, before: Moment) -> Result<DeskBook, AllocError>
    ensures register { IsGood book.now.register
        → IfOk result (λ left. left.register ≡ archived before book.now.register) }
    ensures typed { IfOk result (λ left. IsTyped left.register) }
{
    let copy = typed_copy(alloc, book)?;
    let left = archived_book(alloc, copy, before)?;
    Ok(left)
}

impl Desk<Unkept> {
    /// Goes on with the register after changes that can be made in its own, by what is after them.
    ///
    /// Where memory is refused, the desk stays as it is, and no fault is counted.
    pub fn renew(&mut self, alloc: Global, after: After) -> Result<(), AllocError>
        requires { IsAfterSome self.old.book.register after }
        ensures register { (of : Changes) → IsMade self.old.book.register of (Some after)
            → OnOk result (self.new.book.register ≡ after_changes self.old.book.register of) }
        ensures network { OnOk result (self.new.book.network ≡ after.network) }
        ensures typed { OnOk result (IsTyped self.new.book.register) }
        ensures unchanged { OnErr result (self.new ≡ self.old) }
        ensures others { self.new ≡ record self.old { book = self.new.book } }
    {
        let book = book_after(alloc, self.book(), after)?;
        self.go_on_with(book);
        Ok(())
    }

    /// Goes on with the register after an archive of its own: without the steps of the records that
    /// were closed before a moment.
    ///
    /// Where memory is refused, the desk stays as it is, and no fault is counted.
    pub fn archive_here(&mut self, alloc: Global, before: Moment) -> Result<(), AllocError>
        ensures register { IsGood self.old.book.register
            → OnOk result (self.new.book.register ≡ archived before self.old.book.register) }
        ensures typed { OnOk result (IsTyped self.new.book.register) }
        ensures unchanged { OnErr result (self.new ≡ self.old) }
        ensures others { self.new ≡ record self.old { book = self.new.book } }
    {
        let book = book_archived(alloc, self.book(), before)?;
        self.go_on_with(book);
        Ok(())
    }
}
