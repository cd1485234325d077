//! What is done for one command before its change is committed: it is answered, and room is made
//! for its change.
ghost use Rattle.std.specs.Prelude.{◌≡◌, true, IfOk};
ghost use Rattle.clr_answer.specs.Decision.{ChangesIfAccepted, answer_of_decision};
ghost use Rattle.clr_book.specs.Book.{Fits, needs};
ghost use Rattle.clr_rules.specs.Edits.{fit};
ghost use Rattle.clr_book.specs.Own.{asked_answer};

use crate::book::DeskBook;
use clr_answer::Decision;
use clr_book::Book;
use clr_book::own::answer;
use clr_rules::{Command, Hold, PointState, Record, StepRow};
use clr_shelf::Shelf;
use std::alloc::AllocError;

/// What the book answers to a command. Then there is room in the book for its change, which is not
/// made yet.
///
/// Where memory runs out the book has the rows that it had, and so has its network.
pub(crate) fn prepare(book: &mut DeskBook, command: &Command) -> Result<Decision, AllocError>
    ensures answer { IfOk result
        (λ d. answer_of_decision d ≡ asked_answer book.old.register command.now) }
    ensures nothing { IfOk result ChangesIfAccepted }
    ensures fits { IfOk result (λ d. fit book.new.register.net d.change.edits.items ≡ true) }
    ensures room { IfOk result (λ d. Fits (needs d.change.edits.items) book.new.room) }
    ensures register { book.new.register ≡ book.old.register }
    ensures network { book.new.network ≡ book.old.network }
{
    prepared(book, command)
}

/// The same of a book on any shelves.
fn prepared<P, C, T, H>(
    book: &mut Book<P, C, T, H>,
    command: &Command,
) -> Result<Decision, AllocError>
where
    P: Shelf<PointState>,
    C: Shelf<Record>,
    T: Shelf<StepRow>,
    H: Shelf<Hold>,
    ensures answer { IfOk result
        (λ d. answer_of_decision d ≡ asked_answer book.old.register command.now) }
    ensures nothing { IfOk result ChangesIfAccepted }
    ensures fits { IfOk result (λ d. fit book.new.register.net d.change.edits.items ≡ true) }
    ensures room { IfOk result (λ d. Fits (needs d.change.edits.items) book.new.room) }
    ensures register { book.new.register ≡ book.old.register }
    ensures network { book.new.network ≡ book.old.network }
{
    let decision = answer(book, command)?;
    book.reserve(&decision.change)?;
    Ok(decision)
}
