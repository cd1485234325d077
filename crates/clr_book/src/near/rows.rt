//! Gives a command the rows that it looks at.
ghost use Rattle.std.specs.Prelude.{◌≡◌, ◌||◌, ℕ, List, false, IfOk, map, filter};
ghost use Rattle.std.specs.List.{list_any};
ghost use Rattle.std.specs.List.Sorted.{IsStrictlySortedBy};
ghost use Rattle.clr_net.specs.Name.{name_cmp, same_name};
ghost use Rattle.clr_net.specs.Names.{has_name};
ghost use Rattle.clr_rules.specs.Answer.{answer_with};
ghost use Rattle.clr_rules.specs.Hold.{hold_group_cmp, is_in_hold_group};
ghost use Rattle.clr_rules.specs.Holds.{is_near_hold, is_own};
ghost use Rattle.clr_rules.specs.Command.{is_jumper};
ghost use Rattle.clr_rules.specs.Near.{is_asked, near_of};
ghost use Rattle.clr_rules.specs.declared.hold.Hold.{Hold};
ghost use Rattle.clr_rules.specs.declared.hold.HoldGroup.TheVariants as group;
ghost use Rattle.clr_book.specs.FencePlaces.{IsFenceAt};

use crate::book::Book;
use crate::near::fence::FenceNames;
use crate::near::groups::rows_in;
use crate::near::named::rows_named;
use crate::near::points::PointsBeside;
use clr_answer::{Near, in_order};
use clr_net::{Name, SectionRow, rows_at};
use clr_rules::{ClearanceId, Command, Hold, HoldGroup, Kind, PointState, Record, StepRow};
use clr_shelf::Shelf;
use std::alloc::{AllocError, Global};

impl<P: Shelf<PointState>, C: Shelf<Record>, T: Shelf<StepRow>, H: Shelf<Hold>> Book<P, C, T, H> {
    /// What a command looks at, and no other row: the near part of the book's register.
    pub fn near(&self, command: &Command) -> Result<Near<'_>, AllocError>
        ensures { IfOk result (λ near. near ≡ near_of self.now.register command.now) }
    {
        match &command.kind {
            Kind::Jumper { from, to, .. } => self.network_near(command, *from, *to),
            _ => self.near_clearance(command),
        }
    }

    /// What the answer to a command looks at: what is near it, for a jumper without the records and
    /// steps.
    pub(crate) fn near_answer(&self, command: &Command) -> Result<Near<'_>, AllocError>
        ensures { IfOk result (λ near. answer_with near.known near.rows command.now
            ≡ answer_with (near_of self.now.register command.now).known
            (near_of self.now.register command.now).rows command.now) }
    {
        match &command.kind {
            Kind::Jumper { from, to, .. } => self.network_alone(command, *from, *to),
            _ => self.near_clearance(command),
        }
    }

    /// What a command looks at that is no jumper.
    fn near_clearance(&self, command: &Command) -> Result<Near<'_>, AllocError>
        requires { is_jumper command.now.kind ≡ false }
        ensures { IfOk result (λ near. near ≡ near_of self.now.register command.now) }
    {
        self.network.is_network();
        let kind = &command.kind;
        let own = kind.clearance();
        let fence = self.fence_for(kind)?;
        let sections = self.sections_near(kind, &fence)?;
        let PointsBeside {
            names: beside,
            rows: points,
            states,
        } = self.points_beside(kind, &fence)?;
        let near = Near {
            alloc: self.alloc,
            greatest: self.greatest_for(command),
            sections,
            points,
            staff: &self.staff,
            states,
            records: self.own_records(own)?,
            steps: self.own_steps(own)?,
            holds: self.holds_near(&fence.sections, &beside, own)?,
            fence: fence.sections,
            crossed: None,
        };
        Ok(near)
    }

    /// The sections of the fence, and the one that a request asks for.
    fn sections_near(&self, kind: &Kind, fence: &FenceNames) -> Result<Vec<&SectionRow>, AllocError>
        requires { IsFenceAt self.now.network fence.now.sections.items fence.now.places }
        ensures { IfOk result (λ found. map (λ row. row.now) found.items
            ≡ filter (λ row. has_name fence.now.sections.items row.name
            || is_asked kind.now row.name) self.now.register.net.sections) }
    {
        match kind {
            Kind::Request { section } => {
                let found = self.sections_with(&fence.sections, *section)?;
                Ok(found)
            }
            _ => {
                let places = &fence.places.sections;
                let found = rows_at(self.alloc, self.network.sections(), places)?;
                Ok(found)
            }
        }
    }

    /// The sections of a fence and one more. Each is looked up.
    fn sections_with(&self, fence: &[Name], section: Name) -> Result<Vec<&SectionRow>, AllocError>
        ensures { IfOk result (λ found. map (λ row. row.now) found.items
            ≡ filter (λ row. has_name fence.now row.name
            || same_name section row.name) self.now.register.net.sections) }
    {
        let listed = with_section(self.alloc, fence, section)?;
        rows_named(self.alloc, self.network.sections(), &listed)
    }

    /// The states of these points. Each is looked up.
    pub(crate) fn states_near(&self, beside: &[Name]) -> Result<Vec<&PointState>, AllocError>
        requires { IsStrictlySortedBy name_cmp beside.now }
        ensures { IfOk result (λ found. map (λ row. row.now) found.items
            ≡ filter (λ state. has_name beside.now state.point) self.now.register.states) }
    {
        let found = rows_in(self.alloc, &self.states, beside)?;
        Ok(found)
    }

    /// The record of the clearance that is named.
    fn own_records(&self, own: Option<ClearanceId>) -> Result<Vec<&Record>, AllocError>
        ensures { IfOk result (λ found. map (λ row. row.now) found.items
            ≡ filter (λ r. is_own own r.id) self.now.register.records) }
    {
        let Some(id) = own else {
            return Ok(Vec::new(self.alloc));
        };
        let Some(record) = self.records.get(&id) else {
            return Ok(Vec::new(self.alloc));
        };
        let mut found = Vec::new(self.alloc);
        found.push(record)?;
        Ok(found)
    }

    /// The steps of the clearance that is named.
    fn own_steps(&self, own: Option<ClearanceId>) -> Result<Vec<&StepRow>, AllocError>
        ensures { IfOk result (λ found. map (λ row. row.now) found.items
            ≡ filter (λ row. is_own own row.id) self.now.register.steps) }
    {
        match own {
            Some(id) => self.steps.group(&id),
            None => Ok(Vec::new(self.alloc)),
        }
    }

    /// The holds at these sections and points, and the crews of the clearance that is named.
    fn holds_near(
        &self,
        fence: &[Name],
        beside: &[Name],
        own: Option<ClearanceId>,
    ) -> Result<Vec<&Hold>, AllocError>
        requires sections { IsStrictlySortedBy name_cmp fence.now }
        requires points { IsStrictlySortedBy name_cmp beside.now }
        ensures { IfOk result (λ found. map (λ row. row.now) found.items
            ≡ filter (is_near_hold (has_name fence.now)
            (has_name beside.now) own) self.now.register.holds) }
    {
        let groups = groups_near(self.alloc, fence, beside, own)?;
        let found = rows_in(self.alloc, &self.holds, &groups)?;
        Ok(found)
    }
}

/// The sections of a fence and one more, in order, each once.
fn with_section(alloc: Global, fence: &[Name], section: Name) -> Result<Vec<Name>, AllocError>
    ensures rising { IfOk result (λ names. IsStrictlySortedBy name_cmp names.items) }
    ensures same { IfOk result (λ names. (s : List ℕ)
        → has_name names.items s ≡ (has_name fence.now s || same_name section s)) }
{
    let mut names = fence.to_vec(alloc)?;
    names.push(section)?;
    Ok(in_order(names))
}

/// The groups of the holds at these points.
fn groups_at_points(alloc: Global, points: &[Name]) -> Result<Vec<HoldGroup>, AllocError>
    ensures { IfOk result (λ groups. groups.items ≡ map (λ point. group.AtPoint point) points.now) }
{
    points
        .iter()
        .map(|point| HoldGroup::AtPoint(*point))
        .collect(alloc)
}

/// The groups of the holds at these sections.
fn groups_at_sections(alloc: Global, sections: &[Name]) -> Result<Vec<HoldGroup>, AllocError>
    ensures { IfOk result (λ groups. groups.items
        ≡ map (λ section. group.AtSection section) sections.now) }
{
    sections
        .iter()
        .map(|section| HoldGroup::AtSection(*section))
        .collect(alloc)
}

/// The groups of the holds at these sections and points, and of the crews of the clearance that is
/// named; in their order.
pub fn groups_near(
    alloc: Global,
    fence: &[Name],
    beside: &[Name],
    own: Option<ClearanceId>,
) -> Result<Vec<HoldGroup>, AllocError>
    requires sections { IsStrictlySortedBy name_cmp fence.now }
    requires points { IsStrictlySortedBy name_cmp beside.now }
    ensures rising { IfOk result (λ groups. IsStrictlySortedBy hold_group_cmp groups.items) }
    ensures same { IfOk result (λ groups. (hold : Hold)
        → list_any (λ group. is_in_hold_group group hold) groups.items
        ≡ is_near_hold (has_name fence.now) (has_name beside.now) own hold) }
{
    let mut groups = groups_at_points(alloc, beside)?;
    let sections = groups_at_sections(alloc, fence)?;
    groups.extend_from_slice(&sections)?;
    match own {
        Some(id) => {
            groups.push(HoldGroup::CrewsOf(id))?;
            Ok(groups)
        }
        None => Ok(groups),
    }
}
