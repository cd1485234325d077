//! The update that changes say, and what is after it.
ghost use Rattle.std.specs.Prelude.{◌≡◌, ◌++◌, not, IfOk, filter};
ghost use Rattle.std.specs.List.{list_any};
ghost use Rattle.clr_net.specs.Grid.{point_names};
ghost use Rattle.clr_net.specs.Names.{has_name};
ghost use Rattle.clr_update.specs.Changes.{lacking};
ghost use Rattle.clr_update.specs.Delta.{all_there, jumpers_gone, passed};
ghost use Rattle.clr_update.specs.Shown.{as_changes};
ghost use Rattle.clr_changes.specs.Made.{IsMade, IsNetworkOf, IsStaffOfChanges, IsUpdateOf};

use crate::growing::has_point;
use crate::outcome::{After, Outcome, outcome_of, own_jumpers};
use crate::rows::{Compared, lacking, unplaced_rows};
use crate::update::Update;
use clr_book::Book;
use clr_net::{Name, NetFault, Network, PointRow};
use clr_rules::{Hold, PointState, Record, StepRow};
use clr_shelf::Shelf;
use clr_staff::{Staff, StaffFault};
use clr_update::Changes;
use std::alloc::{AllocError, Global};

/// What is after changes of a book, if they can be made. The book stays as it is.
#[tactic(auto, unfolding(clr_update::specs::Delta::can_be_made))]
pub fn made_of<P, C, T, H>(
    alloc: Global,
    book: &Book<P, C, T, H>,
    changes: &Changes,
) -> Result<Option<After>, AllocError>
where
    P: Shelf<PointState>,
    C: Shelf<Record>,
    T: Shelf<StepRow>,
    H: Shelf<Hold>,
    ensures { IfOk result (IsMade book.now.register (as_changes changes.now)) }
{
    let said = update_of(alloc, book, changes)?;
    let Some(update) = said else {
        return Ok(None);
    };
    let outcome = outcome_of(alloc, book, update)?;
    match outcome {
        Outcome::InTheWay(_) => Ok(None),
        Outcome::Accepted(after) => Ok(Some(after)),
    }
}

/// The update that changes of a book say, if the rows that go are there, and those that come make a
/// network and a staff with the others.
pub fn update_of<P, C, T, H>(
    alloc: Global,
    book: &Book<P, C, T, H>,
    changes: &Changes,
) -> Result<Option<Update>, AllocError>
where
    P: Shelf<PointState>,
    C: Shelf<Record>,
    T: Shelf<StepRow>,
    H: Shelf<Hold>,
    ensures { IfOk result (IsUpdateOf book.now.register (as_changes changes.now)) }
{
    if !all_there(alloc, book, changes)? {
        return Ok(None);
    }
    let found = network_of(alloc, book, changes)?;
    let Some(network) = found else {
        return Ok(None);
    };
    let found = staff_of(alloc, book, changes)?;
    let Some(staff) = found else {
        return Ok(None);
    };
    let without = jumpers_gone(alloc, book, &network)?;
    Ok(Some(Update {
        network,
        staff,
        without,
    }))
}

/// Whether all rows that go are there.
fn all_there<P, C, T, H>(
    alloc: Global,
    book: &Book<P, C, T, H>,
    changes: &Changes,
) -> Result<bool, AllocError>
where
    P: Shelf<PointState>,
    C: Shelf<Record>,
    T: Shelf<StepRow>,
    H: Shelf<Hold>,
    ensures { IfOk result (λ all. all ≡ all_there book.now.register (as_changes changes.now)) }
{
    let sections = lacking(alloc, book.network().sections(), &changes.sections_go)?;
    let was = unplaced_rows(alloc, book.network().points())?;
    let points = lacking(alloc, &was, &changes.points_go)?;
    let staff = lacking(alloc, book.staff().rows(), &changes.staff_goes)?;
    Ok(sections.is_empty() && points.is_empty() && staff.is_empty())
}

/// The network that changes lead to, if their rows make one with the others.
fn network_of<P, C, T, H>(
    alloc: Global,
    book: &Book<P, C, T, H>,
    changes: &Changes,
) -> Result<Option<Network>, AllocError>
where
    P: Shelf<PointState>,
    C: Shelf<Record>,
    T: Shelf<StepRow>,
    H: Shelf<Hold>,
    ensures { IfOk result (IsNetworkOf book.now.register (as_changes changes.now)) }
{
    let was = book.network().sections();
    let sections = passed(alloc, &changes.sections_go, &changes.sections_come, was)?;
    let was = unplaced_rows(alloc, book.network().points())?;
    let points = passed(alloc, &changes.points_go, &changes.points_come, &was)?;
    match Network::build(alloc, sections, points) {
        Ok(network) => Ok(Some(network)),
        Err(NetFault::NoMemory) => Err(AllocError),
        Err(_) => Ok(None),
    }
}

/// The staff that changes lead to, if their rows make one with the others.
fn staff_of<P, C, T, H>(
    alloc: Global,
    book: &Book<P, C, T, H>,
    changes: &Changes,
) -> Result<Option<Staff>, AllocError>
where
    P: Shelf<PointState>,
    C: Shelf<Record>,
    T: Shelf<StepRow>,
    H: Shelf<Hold>,
    ensures { IfOk result (IsStaffOfChanges book.now.register (as_changes changes.now)) }
{
    let was = book.staff().rows();
    let rows = passed(alloc, &changes.staff_goes, &changes.staff_comes, was)?;
    match Staff::build(alloc, rows) {
        Ok(staff) => Ok(Some(staff)),
        Err(StaffFault::NoMemory) => Err(AllocError),
        Err(_) => Ok(None),
    }
}

/// The rows that do not go, and those that come.
fn passed<R: Compared + Copy>(
    alloc: Global,
    go: &[R],
    come: &[R],
    rows: &[R],
) -> Result<Vec<R>, AllocError>
    ensures { IfOk result (λ found. found.items ≡ passed R.same go.now come.now rows.now) }
{
    let mut found = left(alloc, go, rows)?;
    for row in come {
        found.push(*row)?;
    }
    Ok(found)
}

/// The rows that do not go.
fn left<R: Compared + Copy>(alloc: Global, go: &[R], rows: &[R]) -> Result<Vec<R>, AllocError>
    ensures { IfOk result (λ found. found.items ≡ lacking R.same go.now rows.now) }
{
    let mut found = Vec::new(alloc);
    for row in rows {
        if !is_one_of(go, row) {
            found.push(*row)?;
        }
    }
    Ok(found)
}

/// Whether a row is one of these, in whatever order they are.
fn is_one_of<R: Compared>(rows: &[R], row: &R) -> bool
    ensures { result ≡ list_any (R.same row.now) rows.now }
{
    for other in rows {
        if row.is_same(other) {
            return true;
        }
    }
    false
}

/// The names of the jumpers of a book of which a network has no point.
fn jumpers_gone<P, C, T, H>(
    alloc: Global,
    book: &Book<P, C, T, H>,
    network: &Network,
) -> Result<Vec<Name>, AllocError>
where
    P: Shelf<PointState>,
    C: Shelf<Record>,
    T: Shelf<StepRow>,
    H: Shelf<Hold>,
    ensures { IfOk result (λ found. found.items
        ≡ jumpers_gone book.now.register network.now) }
{
    let was = own_jumpers(alloc, book)?;
    let gone = names_gone(alloc, &was, network)?;
    Ok(gone)
}

/// The names of points of which a network has none.
fn names_gone(
    alloc: Global,
    points: &[PointRow],
    network: &Network,
) -> Result<Vec<Name>, AllocError>
    ensures { IfOk result (λ found. found.items
        ≡ filter (λ p. not (has_name (point_names network.now.points) p))
        (point_names points.now)) }
{
    let mut gone = Vec::new(alloc);
    for point in points {
        if !has_point(network, point.name) {
            gone.push(point.name)?;
        }
    }
    Ok(gone)
}
