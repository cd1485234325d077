//! A book whose points are put into given states: what the book after an update is made of before
//! anything is written.
ghost use Rattle.std.specs.Prelude.{◌≡◌, IfOk, OnOk, map};
ghost use Rattle.clr_changes.specs.Renewed.{renewed};
ghost use Rattle.clr_rules.specs.Edits.{after_edits};
ghost use Rattle.clr_rules.specs.Register.{opening};
ghost use Rattle.clr_store.specs.Renewed.{AreStatesOf};
ghost use Rattle.clr_load.specs.TypedRows.{IsTyped};
ghost use Rattle.clr_desk.specs.Filling.{hand_edit, position_edit};

use crate::book::{DeskBook, make, opening_book};
use crate::opening::put_in_hands;
use crate::shelves::{refilled, shelves_in};
use crate::typed::all_typed;
use clr_net::Network;
use clr_rules::{Edit, PointState};
use clr_staff::Staff;
use std::alloc::{AllocError, Global};

/// The edits that put each point into the position where it is.
fn position_edits(alloc: Global, states: &[PointState]) -> Result<Vec<Edit>, AllocError>
    ensures { IfOk result (λ edits. edits.items ≡ map position_edit states.now) }
{
    let positions = states.iter().map(|state| Edit::SetPosition {
        point: state.point,
        position: state.position,
    });
    positions.collect(alloc)
}

/// Puts each point of a book into the position where it is.
fn put_in_positions(
    alloc: Global,
    book: &mut DeskBook,
    states: &[PointState],
) -> Result<(), AllocError>
    ensures register { OnOk result
        (book.new.register ≡ after_edits (map position_edit states.now) book.old.register) }
    ensures network { OnOk result (book.new.network ≡ book.old.network) }
{
    let positions = position_edits(alloc, states)?;
    make(book, positions)?;
    Ok(())
}

/// Puts each point of a book into its position and its hand.
fn put_in_states(
    alloc: Global,
    book: &mut DeskBook,
    states: &[PointState],
) -> Result<(), AllocError>
    ensures register { OnOk result (book.new.register ≡ after_edits (map hand_edit states.now)
        (after_edits (map position_edit states.now) book.old.register)) }
    ensures network { OnOk result (book.new.network ≡ book.old.network) }
{
    put_in_positions(alloc, book, states)?;
    put_in_hands(alloc, book, states)?;
    Ok(())
}

/// The book of a network and a staff, each point of the network in its state, and no clearance.
pub(crate) fn stated_book(
    alloc: Global,
    network: Network,
    staff: Staff,
    states: &[PointState],
) -> Result<DeskBook, AllocError>
    requires { AreStatesOf network.points states.now }
    ensures register { IfOk result (λ book. book.register
        ≡ record (opening network staff) { states = states.now }) }
    ensures network { IfOk result (λ book. book.network ≡ network) }
    ensures typed { IfOk result (λ book. IsTyped book.register) }
{
    network.is_network();
    all_typed(states);
    let mut book = opening_book(alloc, network, staff)?;
    put_in_states(alloc, &mut book, states)?;
    Ok(book)
}

/// The book of a network and a staff, each point in its state, with the records, steps and holds of
/// a book.
pub(crate) fn book_with(
    alloc: Global,
    book: &DeskBook,
    network: Network,
    staff: Staff,
    states: &[PointState],
) -> Result<DeskBook, AllocError>
    requires { AreStatesOf network.points states.now }
    ensures register { IfOk result (λ made. made.register
        ≡ renewed book.now.register network staff states.now) }
    ensures network { IfOk result (λ made. made.network ≡ network) }
    ensures typed { IfOk result (λ made. IsTyped made.register) }
{
    let shelves = shelves_in(alloc, book)?;
    let made = stated_book(alloc, network, staff, states)?;
    refilled(made, shelves)
}
