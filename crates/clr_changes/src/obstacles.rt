//! The first obstacle to an update among what records and the register need.
ghost use Rattle.std.specs.Prelude.{◌≡◌, [], ◌∷◌, IfOk, map};
ghost use Rattle.clr_update.specs.Update.{first_obstacle, open_records, standing_records};
ghost use Rattle.clr_changes.specs.Parts.{first_rows, row_obstacles, staff_obstacles};
ghost use Rattle.clr_changes.specs.declared.needs.Need.TheVariants.{Holder, Point, Reader};
ghost use Rattle.clr_changes.specs.declared.needs.Need.TheVariants.{Requester, Section, Step};
ghost use Rattle.clr_changes.specs.declared.needs.Need.TheVariants.{Work};

use crate::needs::{Need, Renewal};
use crate::phases::{open_of, standing_of};
use crate::staffing::missing;
use clr_book::all_rows;
use clr_rules::{Hold, PointState, Record, StepRow};
use clr_shelf::Shelf;
use clr_update::Obstacle;
use std::alloc::AllocError;

impl<'a, P: Shelf<PointState>, C: Shelf<Record>, T: Shelf<StepRow>, H: Shelf<Hold>> Renewal<
    'a,
    P,
    C,
    T,
    H,
> {
    /// The first obstacle of all: what records need, and then whom the register needs.
    pub(crate) fn first_obstacle(&self) -> Result<Option<Obstacle>, AllocError>
        ensures { IfOk result (λ found. found ≡ first_obstacle (row_obstacles self.now)) }
    {
        let records = self.book.records()?;
        let near = self.first_near(&records)?;
        if near.is_some() {
            return Ok(near);
        }
        let unclosed = self.first_open(&records)?;
        if unclosed.is_some() {
            return Ok(unclosed);
        }
        let missing = self.first_missing()?;
        Ok(missing)
    }

    /// The first of what those of the records need whose orders are in force.
    fn first_near(&self, records: &[&Record]) -> Result<Option<Obstacle>, AllocError>
        requires { map (λ r. r.now) records.now ≡ self.now.before.records }
        ensures { IfOk result (λ found. found ≡ first_obstacle
            (first_rows self.now (Section ∷ Point ∷ []) (standing_records self.now.before))) }
    {
        let standing = standing_of(self.alloc, records)?;
        let found = self.first_needed(&[Need::Section, Need::Point], &standing)?;
        Ok(found)
    }

    /// The first of what those of the records need that are open.
    fn first_open(&self, records: &[&Record]) -> Result<Option<Obstacle>, AllocError>
        requires { map (λ r. r.now) records.now ≡ self.now.before.records }
        ensures { IfOk result (λ found. found ≡ first_obstacle
            (first_rows self.now (Step ∷ Work ∷ Holder ∷ Reader ∷ Requester ∷ [])
            (open_records self.now.before))) }
    {
        let unclosed = open_of(self.alloc, records)?;
        let needs = [
            Need::Step,
            Need::Work,
            Need::Holder,
            Need::Reader,
            Need::Requester,
        ];
        let found = self.first_needed(&needs, &unclosed)?;
        Ok(found)
    }

    /// The first row of these kinds, one kind after the other, that one of the records needs.
    fn first_needed(
        &self,
        needs: &[Need],
        records: &[&Record],
    ) -> Result<Option<Obstacle>, AllocError>
        ensures { IfOk result (λ found. found ≡ first_obstacle
            (first_rows self.now needs.now (map (λ r. r.now) records.now))) }
    {
        for need in needs {
            let found = self.first_row(*need, records)?;
            if let Some(obstacle) = found {
                return Ok(Some(obstacle));
            }
        }
        Ok(None)
    }

    /// Whom the register needs, and the staff has not.
    fn first_missing(&self) -> Result<Option<Obstacle>, AllocError>
        ensures { IfOk result (λ found. found ≡ first_obstacle (staff_obstacles self.now)) }
    {
        let (_, _, all_steps, all_holds) = self.book.shelves();
        let steps: Vec<&StepRow> = all_rows(self.alloc, all_steps)?;
        let holds: Vec<&Hold> = all_rows(self.alloc, all_holds)?;
        Ok(missing(&steps, &holds, self.staff.rows()))
    }
}
