//! Which list of a register is at fault.
ghost use Rattle.std.specs.Prelude.{◌≡◌, ◌↔◌, IfOk, None};
ghost use Rattle.clr_rules.specs.Good.{IsGood};
ghost use Rattle.clr_rules.specs.Staffed.{IsStaffed};
ghost use Rattle.clr_good.specs.Fault.{list_at_fault};

use crate::shelves::Shelves;
use clr_book::Book;
use clr_rules::{Hold, PointState, Record, StepRow};
use clr_shelf::Shelf;
use std::alloc::{AllocError, Global};

/// A list of a register.
#[derive(Clone, Copy, Debug, PartialEq, Eq)]
pub enum ListAtFault {
    /// The states of the points.
    Points,
    /// The records of clearances and switch orders.
    Clearances,
    /// Their steps.
    Steps,
    /// What they hold.
    Holds,
}

/// The first list of a book that does not fit, in the order of points, clearances, steps and
/// holds; none exactly where the register is good and staffed.
pub fn list_at_fault<P, C, T, H>(
    alloc: Global,
    book: &Book<P, C, T, H>,
) -> Result<Option<ListAtFault>, AllocError>
where
    P: Shelf<PointState>,
    C: Shelf<Record>,
    T: Shelf<StepRow>,
    H: Shelf<Hold>,
    ensures good { IfOk result (λ fault. (fault ≡ None)
        ↔ (IsGood book.now.register × IsStaffed book.now.register)) }
    ensures first { IfOk result (λ fault. fault ≡ list_at_fault book.now.register) }
{
    let shelves = Shelves::of(alloc, book);
    shelves.is_kept();
    let fault = shelves.first_unfit()?;
    Ok(fault)
}

impl<'a, P: Shelf<PointState>, C: Shelf<Record>, T: Shelf<StepRow>, H: Shelf<Hold>> Shelves<
    'a,
    P,
    C,
    T,
    H,
> {
    /// The first list that does not fit.
    fn first_unfit(&self) -> Result<Option<ListAtFault>, AllocError>
        ensures { IfOk result (λ fault. fault ≡ list_at_fault self.now) }
    {
        if !self.points_fit()? {
            return Ok(Some(ListAtFault::Points));
        }
        if !self.clearances_fit()? || !self.holders_fit()? {
            return Ok(Some(ListAtFault::Clearances));
        }
        if !self.steps_fit()? || !self.steps_staffed()? {
            return Ok(Some(ListAtFault::Steps));
        }
        if !self.holds_fit()? || !self.holds_staffed()? {
            return Ok(Some(ListAtFault::Holds));
        }
        Ok(None)
    }
}
