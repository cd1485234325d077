//! What open records need as it is, of what an update changes.
ghost use Rattle.std.specs.Prelude.{◌≡◌, IfOk, [], Some, map};
ghost use Rattle.clr_net.specs.Grid.{section_names};
ghost use Rattle.clr_net.specs.Names.{has_name};
ghost use Rattle.clr_rules.specs.Fences.{record_fence, work_fence};
ghost use Rattle.clr_rules.specs.Steps.{points_of, steps_in};
ghost use Rattle.clr_update.specs.Update.{its_holder, its_readers, its_requester, work_section};
ghost use Rattle.clr_changes.specs.Needs.{first_row, obstacle_of, rows_needed};
ghost use Rattle.clr_changes.specs.Touched.{first_of, points_of_steps, points_touching};
ghost use Rattle.clr_changes.specs.Touched.{sections_inside};

use crate::growing::has_section;
use crate::staffing::{its_holder, its_reader, its_requester};
use crate::touched::{first_at_steps, first_inside, first_of_both, first_points};
use clr_book::Book;
use clr_net::{Fence, Name, Network};
use clr_rules::{ClearanceId, Hold, PointState, Record, StepRow};
use clr_shelf::Shelf;
use clr_staff::Staff;
use clr_update::{Changes, Obstacle};
use std::alloc::{AllocError, Global};
use std::marker::Model;

/// A kind of row that a record needs as it is.
#[derive(Clone, Copy)]
pub(crate) enum Need {
    Section,
    Point,
    Step,
    Work,
    Holder,
    Reader,
    Requester,
}

impl Need {
    /// What a row that a clearance needs is in the way of.
    fn obstacle(self, name: Name, id: ClearanceId) -> Obstacle
        ensures { result ≡ obstacle_of self name id }
    {
        match self {
            Need::Section => Obstacle::Section(name, id),
            Need::Point => Obstacle::Point(name, id),
            Need::Step => Obstacle::Step(name, id),
            Need::Work => Obstacle::Work(name, id),
            Need::Holder => Obstacle::Holder(name, id),
            Need::Reader => Obstacle::Reader(name, id),
            Need::Requester => Obstacle::Requester(name, id),
        }
    }
}

/// A book, the network and the staff after an update, and what changes.
#[derive(Drop)]
pub(crate) struct Renewal<
    'a,
    P: Shelf<PointState>,
    C: Shelf<Record>,
    T: Shelf<StepRow>,
    H: Shelf<Hold>,
> {
    pub(crate) alloc: Global,
    pub(crate) book: &'a Book<P, C, T, H>,
    pub(crate) network: &'a Network,
    pub(crate) staff: &'a Staff,
    pub(crate) states: &'a [PointState],
    pub(crate) changes: &'a Changes,
}

impl<'a, P: Shelf<PointState>, C: Shelf<Record>, T: Shelf<StepRow>, H: Shelf<Hold>> Model
    for Renewal<'a, P, C, T, H> {
    ghost use Rattle.clr_changes.specs.Needs.{Renewal};
    ghost use Rattle.clr_changes.specs.Renewed.{renewed};
    ghost use Rattle.clr_update.specs.Shown.{as_changes};

    ghost Value = { Renewal };

    ghost view = { λ v. record {
      before = v.book.now.register;
      after = renewed v.book.now.register v.network.now v.staff.now v.states.now;
      changes = as_changes v.changes.now;
    } };
}

impl<'a, P: Shelf<PointState>, C: Shelf<Record>, T: Shelf<StepRow>, H: Shelf<Hold>> Renewal<
    'a,
    P,
    C,
    T,
    H,
> {
    /// The first row of a kind that one of the records needs, and that the update changes.
    pub(crate) fn first_row(
        &self,
        need: Need,
        records: &[&Record],
    ) -> Result<Option<Obstacle>, AllocError>
        ensures { IfOk result (λ found. found
            ≡ first_row self.now need (map (λ r. r.now) records.now)) }
    {
        for record in records {
            let found = self.row_needed(need, record)?;
            if let Some(name) = found {
                return Ok(Some(need.obstacle(name, record.id)));
            }
        }
        Ok(None)
    }

    /// The first row of a kind that a record needs, and that the update changes.
    fn row_needed(&self, need: Need, clearance: &Record) -> Result<Option<Name>, AllocError>
        ensures { IfOk result (λ found. found
            ≡ first_of (rows_needed self.now need clearance.now)) }
    {
        match need {
            Need::Section => self.section_inside(clearance),
            Need::Point => self.point_touching(clearance),
            Need::Step => self.point_of_steps(clearance),
            Need::Work => Ok(self.work_section(clearance)),
            Need::Holder => Ok(self.holder(clearance)),
            Need::Reader => self.reader(clearance),
            Need::Requester => Ok(self.requester(clearance)),
        }
    }

    /// A section of its fence that goes or changes.
    fn section_inside(&self, clearance: &Record) -> Result<Option<Name>, AllocError>
        ensures { IfOk result (λ found. found
            ≡ first_of (sections_inside self.now.before clearance.now self.now.changes)) }
    {
        let fence = self.fence_of(clearance)?;
        Ok(first_inside(&self.changes.sections_go, &fence))
    }

    /// A point with an end in its fence that goes, comes or changes.
    fn point_touching(&self, clearance: &Record) -> Result<Option<Name>, AllocError>
        ensures { IfOk result (λ found. found
            ≡ first_of (points_touching self.now.before clearance.now self.now.changes)) }
    {
        let fence = self.fence_of(clearance)?;
        let changes = self.changes;
        Ok(first_of_both(&changes.points_go, &changes.points_come, &fence))
    }

    /// A point of its steps that goes or changes.
    fn point_of_steps(&self, clearance: &Record) -> Result<Option<Name>, AllocError>
        ensures { IfOk result (λ found. found
            ≡ first_of (points_of_steps self.now.before clearance.now self.now.changes)) }
    {
        let steps = self.book.steps(&clearance.id)?;
        Ok(first_at_steps(&self.changes.points_go, &steps))
    }

    /// Its work section, if that goes.
    fn work_section(&self, clearance: &Record) -> Option<Name>
        ensures { result
            ≡ first_of (work_section self.now.before self.now.after clearance.now) }
    {
        let Some(work) = clearance.work else {
            return None;
        };
        if self.has_section(work) {
            None
        } else {
            Some(work)
        }
    }

    /// Whether the network has a section after the update.
    fn has_section(&self, name: Name) -> bool
        ensures { result ≡ has_name (section_names self.now.after.net.sections) name }
    {
        has_section(self.network, name)
    }

    /// Its holder, if the staff no longer has the role that a holder needs.
    fn holder(&self, clearance: &Record) -> Option<Name>
        ensures { result
            ≡ first_of (its_holder self.now.before self.now.after clearance.now) }
    {
        its_holder(self.staff, clearance)
    }

    /// Its requester, if that becomes an operator, or ceases to be one.
    fn requester(&self, clearance: &Record) -> Option<Name>
        ensures { result
            ≡ first_of (its_requester self.now.before self.now.after clearance.now) }
    {
        its_requester(self.book.staff(), self.staff, clearance)
    }

    /// Of those who repeated one of its steps that is not reported, one who is no field employee
    /// any more.
    fn reader(&self, clearance: &Record) -> Result<Option<Name>, AllocError>
        ensures { IfOk result (λ found. found
            ≡ first_of (its_readers self.now.before self.now.after clearance.now)) }
    {
        let steps = self.book.steps(&clearance.id)?;
        Ok(its_reader(self.staff, &steps))
    }

    /// The fence of a record; an empty one, if it has none.
    fn fence_of(&self, clearance: &Record) -> Result<Fence<'a>, AllocError>
        ensures { IfOk result (λ fence. section_names fence.sections
            ≡ record_fence self.now.before.net self.now.before.steps clearance.now) }
    {
        if !clearance.phase.is_fenced() {
            return Ok(no_fence(self.alloc));
        }
        let Some(work) = clearance.work else {
            return Ok(no_fence(self.alloc));
        };
        let fence = self.fence_cut(clearance.id, work)?;
        Ok(fence)
    }

    /// The fence that the first round of a clearance cuts out around a work section.
    fn fence_cut(&self, id: ClearanceId, work: Name) -> Result<Fence<'a>, AllocError>
        ensures { IfOk result (λ fence. section_names fence.sections
            ≡ work_fence self.now.before.net (Some work)
            (points_of (steps_in self.now.before.steps id 1))) }
    {
        let steps = self.book.steps(&id)?;
        let points = first_points(self.alloc, &steps)?;
        let fence = self.book.network().fence(&work, &points)?;
        Ok(fence)
    }
}

/// Where there is no fence.
fn no_fence<'a>(alloc: Global) -> Fence<'a>
    ensures { section_names result.sections ≡ [] }
{
    Fence::of_rows(Vec::new(alloc), Vec::new(alloc))
}
