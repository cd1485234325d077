//! The fence around the work section of a clearance, kept while its tests and grounds are read.
ghost use Rattle.std.specs.Prelude.{◌≡◌, IfOk, IfSome};
ghost use Rattle.clr_net.specs.Grid.{section_names};
ghost use Rattle.clr_good.specs.Around.{IsAround, fence_cut};

use crate::rounds::of_round;
use crate::shelves::Shelves;
use crate::steps::points_of;
use clr_net::{Fence, Name};
use clr_rules::{ClearanceId, Hold, PointState, Record, StepRow};
use clr_shelf::Shelf;
use std::alloc::AllocError;

/// The fence that the first round of a clearance cuts out around a work section.
#[derive(Drop)]
pub(crate) struct Around<'a> {
    pub(crate) id: ClearanceId,
    pub(crate) work: Name,
    pub(crate) fence: Fence<'a>,
}

impl<'a, P: Shelf<PointState>, C: Shelf<Record>, T: Shelf<StepRow>, H: Shelf<Hold>> Shelves<
    'a,
    P,
    C,
    T,
    H,
> {
    /// The fence around a clearance's work section: the last one, where it is that one.
    pub(crate) fn around(
        &self,
        last: Option<Around<'a>>,
        id: ClearanceId,
        work: Name,
    ) -> Result<Around<'a>, AllocError>
        requires { IfSome last (IsAround self.now) }
        ensures id { IfOk result (λ found. found.id ≡ id) }
        ensures work { IfOk result (λ found. found.work ≡ work) }
        ensures fence { IfOk result (IsAround self.now) }
    {
        if let Some(last) = last {
            if last.id == id && last.work == work {
                return Ok(last);
            }
        }
        let fence = self.fence_cut(id, work)?;
        Ok(Around { id, work, fence })
    }

    /// The fence that the first round of a clearance cuts out around a work section.
    #[tactic(auto, unfolding(clr_rules::specs::Steps::steps_of))]
    fn fence_cut(&self, id: ClearanceId, work: Name) -> Result<Fence<'a>, AllocError>
        ensures { IfOk result (λ fence. section_names fence.sections ≡ fence_cut self.now id work) }
    {
        let steps = self.steps.group(&id)?;
        let first = of_round(self.alloc, &steps, 1)?;
        let points = points_of(self.alloc, &first)?;
        let fence = self.network.fence(&work, &points)?;
        Ok(fence)
    }
}
