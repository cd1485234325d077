//! What changes from one register to the next in network and staff.
ghost use Rattle.std.specs.Prelude.{◌≡◌, IfOk};
ghost use Rattle.clr_update.specs.Changes.{changes};
ghost use Rattle.clr_update.specs.Shown.{as_changes};
ghost use Rattle.clr_changes.specs.Renewed.{renewed};

use crate::rows::{lacking, unplaced_rows};
use crate::states::placed;
use clr_book::Book;
use clr_net::Network;
use clr_rules::{Hold, PointState, Record, StepRow};
use clr_shelf::Shelf;
use clr_staff::Staff;
use clr_update::Changes;
use std::alloc::{AllocError, Global};

/// What changes from a book's register to the one with this network, staff and states.
pub(crate) fn changes_to<P, C, T, H>(
    alloc: Global,
    book: &Book<P, C, T, H>,
    network: &Network,
    staff: &Staff,
    states: &[PointState],
) -> Result<Changes, AllocError>
where
    P: Shelf<PointState>,
    C: Shelf<Record>,
    T: Shelf<StepRow>,
    H: Shelf<Hold>,
    ensures { IfOk result (λ found. as_changes found ≡ changes book.now.register
        (renewed book.now.register network.now staff.now states.now)) }
{
    let was = book.network();
    let sections_go = lacking(alloc, network.sections(), was.sections())?;
    let sections_come = lacking(alloc, was.sections(), network.sections())?;
    let old = unplaced_rows(alloc, was.points())?;
    let new = unplaced_rows(alloc, network.points())?;
    let points_go = lacking(alloc, &new, &old)?;
    let come = lacking(alloc, &old, &new)?;
    let points_come = placed(alloc, states, &come)?;
    let staff_goes = lacking(alloc, staff.rows(), book.staff().rows())?;
    let staff_comes = lacking(alloc, book.staff().rows(), staff.rows())?;
    Ok(Changes {
        sections_go,
        sections_come,
        points_go,
        points_come,
        staff_goes,
        staff_comes,
    })
}
