//! What is known of the register beside its rows: the greatest number of a requester, and the
//! sections of a fence.
ghost use Rattle.std.specs.Prelude.{◌≡◌, ◌≤◌, ◌==◌, [], IfOk, map, filter, filter_map, slice_get};
ghost use Rattle.std.specs.List.Sorted.{IsStrictlySortedBy};
ghost use Rattle.clr_net.specs.Grid.{Grid, section_names};
ghost use Rattle.clr_net.specs.Name.{name_cmp};
ghost use Rattle.clr_rules.specs.Answer.{fence_for, requester_for};
ghost use Rattle.clr_rules.specs.Command.{named_clearance};
ghost use Rattle.clr_rules.specs.Fences.{record_fence, work_fence};
ghost use Rattle.clr_rules.specs.Records.{greatest_number};
ghost use Rattle.clr_book.specs.FencePlaces.{IsFenceAt};

use crate::book::Book;
use clr_net::{Name, RowPlaces, SectionRow};
use clr_rules::{ClearanceId, Command, Hold, Kind, PointState, Record, StepRow};
use clr_shelf::Shelf;
use std::alloc::{AllocError, Global};

/// The names of a fence's sections, in their order, and where the fence is in the network.
#[derive(Drop)]
pub(crate) struct FenceNames {
    pub(crate) sections: Vec<Name>,
    pub(crate) places: RowPlaces,
}

impl FenceNames {
    /// Where there is no fence.
    fn none(alloc: Global) -> Self
        ensures sections { result.sections.items ≡ [] }
        ensures places { (g : Grid) → IsFenceAt g result.sections.items result.places }
        ensures rising { IsStrictlySortedBy name_cmp result.sections.items }
    {
        FenceNames {
            sections: Vec::new(alloc),
            places: RowPlaces {
                sections: Vec::new(alloc),
                touching: Vec::new(alloc),
            },
        }
    }
}

impl<P: Shelf<PointState>, C: Shelf<Record>, T: Shelf<StepRow>, H: Shelf<Hold>> Book<P, C, T, H> {
    /// The greatest number of the clearances of the requester whose clearance is named, or of the
    /// caller; 0 where there is none. It is that of the last.
    pub(crate) fn greatest_for(&self, command: &Command) -> u16
        ensures value { result
            ≡ greatest_number self.now.register.records
            (requester_for command.now.caller (named_clearance command.now.kind)) }
        ensures range { result ≤ 9999 }
    {
        let requester = requester_for(command.caller, command.kind.clearance());
        match self.records.last(&requester) {
            Some(record) => record.id.number(),
            None => 0,
        }
    }

    /// The clearance's fence, or the fence that the order would make.
    pub(crate) fn fence_for(&self, kind: &Kind) -> Result<FenceNames, AllocError>
        ensures sections { IfOk result (λ fence. fence.sections.items
            ≡ fence_for self.now.register kind.now) }
        ensures places { IfOk result (λ fence.
            IsFenceAt self.now.network fence.sections.items fence.places) }
        ensures rising { IfOk result (λ fence. IsStrictlySortedBy name_cmp fence.sections.items) }
    {
        let Some(id) = kind.clearance() else {
            return Ok(FenceNames::none(self.alloc));
        };
        let Some(record) = self.records.get(&id) else {
            return Ok(FenceNames::none(self.alloc));
        };
        let fence = match kind {
            Kind::Order { points, .. } => self.work_fence(record.work, points.as_slice())?,
            _ => self.record_fence(record)?,
        };
        Ok(fence)
    }

    /// A clearance's fence, which is cut at the points of its first round.
    pub(crate) fn record_fence(&self, clearance: &Record) -> Result<FenceNames, AllocError>
        ensures sections { IfOk result (λ fence. fence.sections.items
            ≡ record_fence self.now.register.net self.now.register.steps clearance.now) }
        ensures places { IfOk result (λ fence.
            IsFenceAt self.now.network fence.sections.items fence.places) }
        ensures rising { IfOk result (λ fence. IsStrictlySortedBy name_cmp fence.sections.items) }
    {
        if !clearance.phase.is_fenced() {
            return Ok(FenceNames::none(self.alloc));
        }
        let steps = self.steps.group(&clearance.id)?;
        let points = first_points(self.alloc, &steps)?;
        let fence = self.work_fence(clearance.work, &points)?;
        Ok(fence)
    }

    /// The fence of a work section, cut at these points; none without a work section.
    fn work_fence(&self, work: Option<Name>, cut: &[Name]) -> Result<FenceNames, AllocError>
        ensures sections { IfOk result (λ fence. fence.sections.items
            ≡ work_fence self.now.register.net work cut.now) }
        ensures places { IfOk result (λ fence.
            IsFenceAt self.now.network fence.sections.items fence.places) }
        ensures rising { IfOk result (λ fence. IsStrictlySortedBy name_cmp fence.sections.items) }
    {
        let Some(work) = work else {
            return Ok(FenceNames::none(self.alloc));
        };
        let places = self.network.fence_places(&work, cut)?;
        let sections = names_at(self.alloc, self.network.sections(), &places.sections)?;
        Ok(FenceNames { sections, places })
    }
}

/// Whose numbers count: those of the requester of the clearance that is named; a new clearance is
/// the caller's.
fn requester_for(caller: Name, named: Option<ClearanceId>) -> Name
    ensures { result ≡ requester_for caller named }
{
    match named {
        Some(id) => id.requester(),
        None => caller,
    }
}

/// The points of the first round of these steps, in their order.
fn first_points(alloc: Global, steps: &[&StepRow]) -> Result<Vec<Name>, AllocError>
    ensures { IfOk result (λ points. points.items
        ≡ map (λ row. row.step.point)
        (filter (λ row. row.round == 1) (map (λ row. row.now) steps.now))) }
{
    let mut points = Vec::with_capacity(alloc, steps.len())?;
    for row in steps {
        if row.round == 1 {
            points.push(row.step.point)?;
        }
    }
    Ok(points)
}

/// The names of the sections at these places.
fn names_at(
    alloc: Global,
    sections: &[SectionRow],
    places: &[usize],
) -> Result<Vec<Name>, AllocError>
    ensures { IfOk result (λ names. names.items
        ≡ section_names (filter_map (slice_get sections.now) places.now)) }
{
    let mut names = Vec::with_capacity(alloc, places.len())?;
    for place in places {
        if let Some(row) = sections.get(*place) {
            names.push(row.name)?;
        }
    }
    Ok(names)
}
