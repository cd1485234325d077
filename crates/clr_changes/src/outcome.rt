//! What comes of an update.
ghost use Rattle.std.specs.Prelude.{◌≡◌, true, false, IfOk, IfNone, IfSome};
ghost use Rattle.clr_rules.specs.Edits.{fit};
ghost use Rattle.clr_update.specs.Update.{first_obstacle, jumpers};
ghost use Rattle.clr_changes.specs.Growing.{added, grown};
ghost use Rattle.clr_changes.specs.Outcome.{IsMadeOf, IsOutcome, IsRenewal, renewal};
ghost use Rattle.clr_changes.specs.Parts.{row_obstacles};
ghost use Rattle.clr_changes.specs.Shown.{as_update};

use crate::changes::changes_to;
use crate::growing::{add_points, add_sections};
use crate::naming::name_obstacle;
use crate::needs::Renewal;
use crate::states::states_after;
use crate::staying::{joined, jumpers, staying};
use crate::update::Update;
use clr_book::Book;
use clr_net::{Network, PointRow, SectionRow};
use clr_rules::{Hold, PointState, Record, StepRow};
use clr_shelf::Shelf;
use clr_staff::Staff;
use clr_update::{Changes, Obstacle};
use std::alloc::{AllocError, Global};

/// Network, staff and states after an update, and what changes.
#[derive(Drop)]
pub struct After {
    /// Each point in the position of the files; one that no file has is open.
    pub network: Network,
    pub staff: Staff,
    pub states: Vec<PointState>,
    pub changes: Changes,
}

/// What comes of an update.
#[derive(Drop)]
pub enum Outcome {
    InTheWay(Obstacle),
    Accepted(After),
}

/// What comes of an update of a book: the first obstacle in its way, or what is after it. The book
/// stays as it is.
pub fn outcome_of<P, C, T, H>(
    alloc: Global,
    book: &Book<P, C, T, H>,
    update: Update,
) -> Result<Outcome, AllocError>
where
    P: Shelf<PointState>,
    C: Shelf<Record>,
    T: Shelf<StepRow>,
    H: Shelf<Hold>,
    ensures { IfOk result (IsOutcome book.now.register (as_update update)) }
{
    let was = own_jumpers(alloc, book)?;
    let named = name_obstacle(&update, &was);
    if let Some(obstacle) = named {
        return Ok(Outcome::InTheWay(obstacle));
    }
    let renewal = renewal_of(alloc, book, update, &was)?;
    let Some(after) = renewal else {
        return Ok(Outcome::InTheWay(Obstacle::TooLarge));
    };
    let found = row_obstacle(alloc, book, &after)?;
    match found {
        Some(obstacle) => Ok(Outcome::InTheWay(obstacle)),
        None => Ok(Outcome::Accepted(after)),
    }
}

/// The jumpers of a book, without the positions of their rows.
pub(crate) fn own_jumpers<P, C, T, H>(
    alloc: Global,
    book: &Book<P, C, T, H>,
) -> Result<Vec<PointRow>, AllocError>
where
    P: Shelf<PointState>,
    C: Shelf<Record>,
    T: Shelf<StepRow>,
    H: Shelf<Hold>,
    ensures { IfOk result (λ found. found.items ≡ jumpers book.now.register) }
{
    let found = jumpers(alloc, book.network().points())?;
    Ok(found)
}

/// What is after an update, unless what is added to its network does not fit.
fn renewal_of<P, C, T, H>(
    alloc: Global,
    book: &Book<P, C, T, H>,
    update: Update,
    was: &[PointRow],
) -> Result<Option<After>, AllocError>
where
    P: Shelf<PointState>,
    C: Shelf<Record>,
    T: Shelf<StepRow>,
    H: Shelf<Hold>,
    requires { was.now ≡ jumpers book.now.register }
    ensures { IfOk result (IsRenewal book.now.register (as_update update)) }
{
    let points = staying(alloc, &update, was)?;
    let sections = joined(alloc, &update, book.network().sections(), &points)?;
    let Update {
        network,
        staff,
        without: _without,
    } = update;
    let more = grown(network, &sections, &points);
    let Some(network) = more else {
        return Ok(None);
    };
    let after = after_of(alloc, book, network, staff)?;
    Ok(Some(after))
}

/// A network with these sections and points more, if they fit.
fn grown(mut network: Network, sections: &[SectionRow], points: &[PointRow]) -> Option<Network>
    ensures some { IfSome result (λ more. (fit network (added sections.now points.now) ≡ true)
        × (more ≡ grown (added sections.now points.now) network)) }
    ensures none { IfNone result (fit network (added sections.now points.now) ≡ false) }
{
    if !add_sections(&mut network, sections) {
        return None;
    }
    if !add_points(&mut network, points) {
        return None;
    }
    Some(network)
}

/// What is after an update, by the network and the staff after it.
fn after_of<P, C, T, H>(
    alloc: Global,
    book: &Book<P, C, T, H>,
    network: Network,
    staff: Staff,
) -> Result<After, AllocError>
where
    P: Shelf<PointState>,
    C: Shelf<Record>,
    T: Shelf<StepRow>,
    H: Shelf<Hold>,
    ensures { IfOk result (IsMadeOf book.now.register network staff) }
{
    let states = states_after(alloc, book, network.points())?;
    let changes = changes_to(alloc, book, &network, &staff, &states)?;
    Ok(After {
        network,
        staff,
        states,
        changes,
    })
}

/// The first obstacle among what records and the register need.
fn row_obstacle<P, C, T, H>(
    alloc: Global,
    book: &Book<P, C, T, H>,
    after: &After,
) -> Result<Option<Obstacle>, AllocError>
where
    P: Shelf<PointState>,
    C: Shelf<Record>,
    T: Shelf<StepRow>,
    H: Shelf<Hold>,
    ensures { IfOk result (λ found. found
        ≡ first_obstacle (row_obstacles (renewal book.now.register after.now))) }
{
    let renewal = Renewal {
        alloc,
        book,
        network: &after.network,
        staff: &after.staff,
        states: &after.states,
        changes: &after.changes,
    };
    let found = renewal.first_obstacle()?;
    Ok(found)
}
