//! What is open of a book: a book of its own, in which the commands of a way back are tried.
ghost use Rattle.std.specs.Prelude.{◌≡◌, [], IfOk, map};
ghost use Rattle.clr_desk.specs.Filling.{grid_now};
ghost use Rattle.clr_rules.specs.Good.{IsGood};
ghost use Rattle.clr_wayback.specs.Open.{LacksOnly, bare_register, over_in};

use clr_book::{Book, all_rows, filled, rows_in};
use clr_desk::{copied, hand_edits, points_now};
use clr_net::Network;
use clr_rules::{Change, ClearanceId, Hold, PointState, Record, StepRow};
use clr_shelf::Shelf;
use clr_staff::Staff;
use std::alloc::{AllocError, Global};

/// A book of what is open in a good book: without its closed records and their steps, none of which
/// is looked at.
pub(crate) fn open_part<P, C, T, H>(
    alloc: Global,
    book: &Book<P, C, T, H>,
) -> Result<Book<P, C, T, H>, AllocError>
where
    P: Shelf<PointState>,
    C: Shelf<Record>,
    T: Shelf<StepRow>,
    H: Shelf<Hold>,
    ensures { IsGood book.now.register → IfOk result (λ part.
        LacksOnly (over_in book.now.register) book.now.register part.register) }
{
    let (_, _, steps, holds) = book.shelves();
    let open = book.open_records()?;
    let steps = rows_in(alloc, steps, &ids_of(alloc, &open)?)?;
    let holds = all_rows(alloc, holds)?;
    let records = filled(alloc, &open)?;
    let steps = filled(alloc, &steps)?;
    let holds = filled(alloc, &holds)?;
    let part = bare_book(alloc, book)?.with_shelves(records, steps, holds)?;
    Ok(part)
}

/// The clearances of these records.
fn ids_of(alloc: Global, records: &[&Record]) -> Result<Vec<ClearanceId>, AllocError>
    ensures { IfOk result (λ ids. ids.items ≡ map (λ r. r.now.id) records.now) }
{
    records.iter().map(|record| record.id).collect(alloc)
}

/// A book with the network and the staff of a good book, its points in their states, and no
/// clearance.
fn bare_book<P, C, T, H>(
    alloc: Global,
    book: &Book<P, C, T, H>,
) -> Result<Book<P, C, T, H>, AllocError>
where
    P: Shelf<PointState>,
    C: Shelf<Record>,
    T: Shelf<StepRow>,
    H: Shelf<Hold>,
    ensures { IsGood book.now.register → IfOk result (λ made.
        made.register ≡ record (bare_register book.now.register) { holds = [] }) }
{
    let (states, _, _, _) = book.shelves();
    let states = copied(alloc, states)?;
    let change = Change {
        edits: hand_edits(alloc, &states)?,
    };
    let network = network_now(alloc, book)?;
    let staff = same_staff(alloc, book)?;
    let mut made = Book::opening(alloc, network, staff)?;
    made.reserve(&change)?;
    made.apply(change);
    Ok(made)
}

/// The network of a good book, each point in its present position.
fn network_now<P, C, T, H>(alloc: Global, book: &Book<P, C, T, H>) -> Result<Network, AllocError>
where
    P: Shelf<PointState>,
    C: Shelf<Record>,
    T: Shelf<StepRow>,
    H: Shelf<Hold>,
    ensures { IsGood book.now.register → IfOk result (λ network.
        network ≡ grid_now book.now.register) }
{
    let sections = Vec::from_slice(alloc, book.network().sections())?;
    let points = points_now(alloc, book, book.network().points())?;
    match Network::build(alloc, sections, points) {
        Ok(network) => Ok(network),
        Err(_) => Err(AllocError),
    }
}

/// The staff of a good book.
fn same_staff<P, C, T, H>(alloc: Global, book: &Book<P, C, T, H>) -> Result<Staff, AllocError>
where
    P: Shelf<PointState>,
    C: Shelf<Record>,
    T: Shelf<StepRow>,
    H: Shelf<Hold>,
    ensures { IsGood book.now.register → IfOk result (λ staff. staff ≡ book.now.register.staff) }
{
    let rows = Vec::from_slice(alloc, book.staff().rows())?;
    match Staff::build(alloc, rows) {
        Ok(staff) => Ok(staff),
        Err(_) => Err(AllocError),
    }
}
