//! The points near a command.
ghost use Rattle.std.specs.Prelude.{◌≡◌, ◌||◌, ℕ, List, IfOk, filter, map, option_copied};
ghost use Rattle.std.specs.List.Sorted.{IsStrictlySortedBy};
ghost use Rattle.clr_net.specs.Name.{name_cmp};
ghost use Rattle.clr_net.specs.Names.{has_name};
ghost use Rattle.clr_rules.specs.Fences.{touching_names};
ghost use Rattle.clr_rules.specs.Near.{switched_points, switched_in, touches_fence};
ghost use Rattle.clr_rules.specs.States.{state_of};
ghost use Rattle.clr_book.specs.FencePlaces.{IsFenceAt};

use crate::book::Book;
use crate::near::fence::FenceNames;
use crate::near::named::rows_named;
use clr_answer::in_order;
use clr_net::{Name, PointRow, rows_at};
use clr_order::Step;
use clr_rules::{ClearanceId, Hold, Kind, PointState, Record, StepRow};
use clr_shelf::Shelf;
use std::alloc::{AllocError, Global};

/// The points near a command: their names in order, their rows, and their states.
#[derive(Drop)]
pub(crate) struct PointsBeside<'a> {
    pub(crate) names: Vec<Name>,
    pub(crate) rows: Vec<&'a PointRow>,
    pub(crate) states: Vec<&'a PointState>,
}

impl<P: Shelf<PointState>, C: Shelf<Record>, T: Shelf<StepRow>, H: Shelf<Hold>> Book<P, C, T, H> {
    /// The points that touch the fence, and those of the switch order that the command makes or
    /// names: in order, each once.
    pub(crate) fn points_beside(
        &self,
        kind: &Kind,
        fence: &FenceNames,
    ) -> Result<PointsBeside<'_>, AllocError>
        requires { IsFenceAt self.now.network fence.now.sections.items fence.now.places }
        ensures rising { IfOk result (λ beside. IsStrictlySortedBy name_cmp beside.names.items) }
        ensures same { IfOk result (λ beside. (p : List ℕ)
            → has_name beside.names.items p
            ≡ (touches_fence self.now.register.net (has_name fence.now.sections.items) p
            || has_name (switched_points self.now.register kind.now) p)) }
        ensures rows { IfOk result (λ beside. map (λ row. row.now) beside.rows.items
            ≡ filter (λ p. has_name beside.names.items p.name) self.now.network.points) }
        ensures states { IfOk result (λ beside. map (λ row. row.now) beside.states.items
            ≡ filter (λ state. has_name beside.names.items state.point)
            self.now.register.states) }
    {
        let switched = self.switched_points(kind)?;
        if switched.is_empty() {
            let beside = self.points_touching(fence)?;
            return Ok(beside);
        }
        let beside = self.points_with(fence, &switched)?;
        Ok(beside)
    }

    /// The points that touch a fence. Nothing is looked up by its name.
    fn points_touching(&self, fence: &FenceNames) -> Result<PointsBeside<'_>, AllocError>
        requires { IsFenceAt self.now.network fence.now.sections.items fence.now.places }
        ensures rising { IfOk result (λ beside. IsStrictlySortedBy name_cmp beside.names.items) }
        ensures same { IfOk result (λ beside. beside.names.items
            ≡ touching_names self.now.register.net (has_name fence.now.sections.items)) }
        ensures rows { IfOk result (λ beside. map (λ row. row.now) beside.rows.items
            ≡ filter (λ p. has_name beside.names.items p.name) self.now.network.points) }
        ensures states { IfOk result (λ beside. map (λ row. row.now) beside.states.items
            ≡ filter (λ state. has_name beside.names.items state.point)
            self.now.register.states) }
    {
        let places = &fence.places.touching;
        let rows = rows_at(self.alloc, self.network.points(), places)?;
        let names = names_of_points(self.alloc, &rows)?;
        let states = self.states_at(&names, places)?;
        Ok(PointsBeside {
            names,
            rows,
            states,
        })
    }

    /// The points that touch a fence, and others. Each is looked up.
    fn points_with(
        &self,
        fence: &FenceNames,
        others: &[Name],
    ) -> Result<PointsBeside<'_>, AllocError>
        requires { IsFenceAt self.now.network fence.now.sections.items fence.now.places }
        ensures rising { IfOk result (λ beside. IsStrictlySortedBy name_cmp beside.names.items) }
        ensures same { IfOk result (λ beside. (p : List ℕ)
            → has_name beside.names.items p
            ≡ (touches_fence self.now.register.net (has_name fence.now.sections.items) p
            || has_name others.now p)) }
        ensures rows { IfOk result (λ beside. map (λ row. row.now) beside.rows.items
            ≡ filter (λ p. has_name beside.names.items p.name) self.now.network.points) }
        ensures states { IfOk result (λ beside. map (λ row. row.now) beside.states.items
            ≡ filter (λ state. has_name beside.names.items state.point)
            self.now.register.states) }
    {
        let touching = rows_at(self.alloc, self.network.points(), &fence.places.touching)?;
        let mut all = names_of_points(self.alloc, &touching)?;
        all.extend_from_slice(others)?;
        let names = in_order(all);
        let rows = rows_named(self.alloc, self.network.points(), &names)?;
        let states = self.states_near(&names)?;
        Ok(PointsBeside {
            names,
            rows,
            states,
        })
    }

    /// The states of these points, which are at these places of the network.
    fn states_at(&self, points: &[Name], places: &[usize]) -> Result<Vec<&PointState>, AllocError>
        requires { IsStrictlySortedBy name_cmp points.now }
        ensures { IfOk result (λ found. map (λ row. row.now) found.items
            ≡ filter (λ state. has_name points.now state.point) self.now.register.states) }
    {
        let mut found = Vec::with_capacity(self.alloc, points.len())?;
        for (k, point) in points.iter().enumerate() {
            if let Some(state) = self.state_at(point, places.get(k)) {
                found.push(state)?;
            }
        }
        Ok(found)
    }

    /// The state of a point, which is looked up only if it is not at this place.
    fn state_at(&self, point: &Name, place: Option<&usize>) -> Option<&PointState>
        ensures { option_copied result ≡ state_of self.now.register.states point.now }
    {
        if let Some(place) = place {
            if let Some(state) = self.states.at(*place) {
                if state.point == *point {
                    return Some(state);
                }
            }
        }
        self.states.get(point)
    }

    /// The points of the switch order that a command makes or names.
    fn switched_points(&self, kind: &Kind) -> Result<Vec<Name>, AllocError>
        ensures { IfOk result (λ names. names.items ≡ switched_points self.now.register kind.now) }
    {
        match kind {
            Kind::Switch { steps } => {
                let points = task_points(self.alloc, steps.as_slice())?;
                Ok(points)
            }
            _ => self.switched_in(kind.clearance()),
        }
    }

    /// The points of a clearance that is a switch order.
    fn switched_in(&self, named: Option<ClearanceId>) -> Result<Vec<Name>, AllocError>
        ensures { IfOk result (λ names. names.items ≡ switched_in self.now.register named) }
    {
        let Some(id) = named else {
            return Ok(Vec::new(self.alloc));
        };
        let Some(record) = self.records.get(&id) else {
            return Ok(Vec::new(self.alloc));
        };
        if !record.is_switch_order() {
            return Ok(Vec::new(self.alloc));
        }
        let steps = self.steps.group(&id)?;
        let points = points_of(self.alloc, &steps)?;
        Ok(points)
    }
}

/// The points of the steps of an order.
fn task_points(alloc: Global, steps: &[Step]) -> Result<Vec<Name>, AllocError>
    ensures { IfOk result (λ points. points.items ≡ map (λ step. step.point) steps.now) }
{
    steps.iter().map(|step| step.point).collect(alloc)
}

/// The points of these steps.
fn points_of(alloc: Global, steps: &[&StepRow]) -> Result<Vec<Name>, AllocError>
    ensures { IfOk result (λ points. points.items ≡ map (λ row. row.now.step.point) steps.now) }
{
    steps.iter().map(|row| row.step.point).collect(alloc)
}

/// The names of these points.
fn names_of_points(alloc: Global, points: &[&PointRow]) -> Result<Vec<Name>, AllocError>
    ensures { IfOk result (λ names. names.items ≡ map (λ row. row.now.name) points.now) }
{
    points.iter().map(|row| row.name).collect(alloc)
}
