//! Whether the list of steps fits.
ghost use Rattle.std.specs.Prelude.{◌≡◌, IfOk, List, map, not};
ghost use Rattle.std.specs.List.{list_all, list_any};
ghost use Rattle.std.specs.Option.{is_some};
ghost use Rattle.clr_net.specs.Grid.{point_names};
ghost use Rattle.clr_net.specs.Names.{has_name};
ghost use Rattle.clr_order.specs.Isolating.{isolating_fault};
ghost use Rattle.clr_order.specs.Step.{task};
ghost use Rattle.clr_rules.specs.Good.{has_record};
ghost use Rattle.clr_rules.specs.GoodByPhase.{of_round, present_of};
ghost use Rattle.clr_rules.specs.Holds.{hinders};
ghost use Rattle.clr_rules.specs.States.{has_in_hand};
ghost use Rattle.clr_rules.specs.declared.step_row.StepRow.{StepRow};
ghost use Rattle.clr_rules.specs.Records.{record_of};
ghost use Rattle.clr_good.specs.Steps.{closing_fits, found_closed, isolates, point_fits};
ghost use Rattle.clr_good.specs.Steps.{record_steps_fit, step_fits, steps_fit, steps_suit};

use crate::clearances::is_closed;
use crate::rounds::{
    active_within, all_done, has_steps, is_closing, of_round, only_switch, rounds_go_in_turn,
    some_active,
};
use crate::shelves::Shelves;
use clr_answer::{each_once, hinders};
use clr_book::all_rows;
use clr_net::{Fence, Name};
use clr_order::{Step, check_isolating};
use clr_rules::{ClearanceId, Hold, HoldGroup, HoldKind, Phase, PointState, Record, StepRow};
use clr_shelf::Shelf;
use std::alloc::{AllocError, Global};

impl<'a, P: Shelf<PointState>, C: Shelf<Record>, T: Shelf<StepRow>, H: Shelf<Hold>> Shelves<
    'a,
    P,
    C,
    T,
    H,
> {
    /// Whether each step has its record, its point and, while it is given out, its hand, no Close
    /// that is given out is hindered, and each record has the steps that its phase wants.
    pub(crate) fn steps_fit(&self) -> Result<bool, AllocError>
        ensures { IfOk result (λ fit. fit ≡ steps_fit self.now) }
    {
        let steps: Vec<&StepRow> = all_rows(self.alloc, self.steps)?;
        if !self.each_step_fits(&steps)? {
            return Ok(false);
        }
        let records: Vec<&Record> = all_rows(self.alloc, self.records)?;
        let fit = self.orders_fit(&records)?;
        Ok(fit)
    }

    fn each_step_fits(&self, steps: &[&StepRow]) -> Result<bool, AllocError>
        ensures { IfOk result (λ fit. fit
            ≡ list_all (step_fits self.now) (map (λ row. row.now) steps.now)) }
    {
        for row in steps {
            if !self.step_fits(row)? {
                return Ok(false);
            }
        }
        Ok(true)
    }

    fn step_fits(&self, row: &StepRow) -> Result<bool, AllocError>
        ensures { IfOk result (λ fits. fits ≡ step_fits self.now row.now) }
    {
        let placed = self.has_record(row.id) && self.point_fits(row);
        if !placed {
            return Ok(false);
        }
        if row.is_active() && !self.has_in_hand(row.id, row.step.point) {
            return Ok(false);
        }
        let fits = self.closing_fits(row)?;
        Ok(fits)
    }

    pub(crate) fn has_record(&self, id: ClearanceId) -> bool
        ensures { result ≡ has_record self.now.records id }
    {
        self.records.get(&id).is_some()
    }

    /// Whether a step is at a point of the network, or of a closed record.
    fn point_fits(&self, row: &StepRow) -> bool
        ensures { result ≡ point_fits self.now row.now }
    {
        self.is_of_closed(row.id) || self.has_point(row.step.point)
    }

    fn is_of_closed(&self, id: ClearanceId) -> bool
        ensures { result ≡ found_closed (record_of self.now.records id) }
    {
        match self.records.get(&id) {
            Some(record) => is_closed(record.phase),
            None => false,
        }
    }

    fn has_point(&self, name: Name) -> bool
        ensures { result ≡ has_name (point_names self.now.net.points) name }
    {
        self.network.point(&name).is_some()
    }

    fn has_in_hand(&self, id: ClearanceId, point: Name) -> bool
        ensures { result ≡ has_in_hand self.now.states id point }
    {
        let Some(state) = self.states.get(&point) else {
            return false;
        };
        match state.hand {
            Some(by) => id == by,
            None => false,
        }
    }

    /// Whether a Close that is given out is kept by no hold from being done.
    fn closing_fits(&self, row: &StepRow) -> Result<bool, AllocError>
        ensures { IfOk result (λ fits. fits ≡ closing_fits self.now row.now) }
    {
        if !is_closing(row) {
            return Ok(true);
        }
        let hindered = self.is_hindered(row.id, row.step.point)?;
        Ok(!hindered)
    }

    /// Whether a hold keeps a clearance from closing a point.
    fn is_hindered(&self, id: ClearanceId, point: Name) -> Result<bool, AllocError>
        ensures { IfOk result (λ hindered. hindered
            ≡ list_any (hinders id point) self.now.holds) }
    {
        let holds = self.holds.group(&HoldGroup::AtPoint(point))?;
        Ok(any_hinders(&holds, id, point))
    }

    fn orders_fit(&self, records: &[&Record]) -> Result<bool, AllocError>
        ensures { IfOk result (λ fit. fit
            ≡ list_all (record_steps_fit self.now) (map (λ r. r.now) records.now)) }
    {
        for record in records {
            if !self.order_fits(record)? {
                return Ok(false);
            }
        }
        Ok(true)
    }

    #[tactic(auto, unfolding(clr_rules::specs::Steps::steps_of))]
    fn order_fits(&self, clearance: &Record) -> Result<bool, AllocError>
        ensures { IfOk result (λ fits. fits ≡ record_steps_fit self.now clearance.now) }
    {
        let steps = self.steps.group(&clearance.id)?;
        if !rounds_go_in_turn(&steps) {
            return Ok(false);
        }
        let suit = self.steps_suit(clearance.phase, clearance.work, &steps)?;
        Ok(suit)
    }

    /// Whether the steps of a record are as its phase wants them.
    fn steps_suit(
        &self,
        phase: Phase,
        work: Option<Name>,
        steps: &[&StepRow],
    ) -> Result<bool, AllocError>
        ensures { IfOk result (λ suit. suit
            ≡ steps_suit self.now.net phase work (map (λ row. row.now) steps.now)) }
    {
        let first = of_round(self.alloc, steps, 1)?;
        let second = of_round(self.alloc, steps, 2)?;
        match phase {
            Phase::Requested => Ok(!has_steps(steps)),
            Phase::Ordered => {
                let sound = self.isolates(work, &first)?;
                Ok(sound && (!has_steps(&second) && active_within(1, steps)))
            }
            Phase::Granted => {
                let sound = self.isolates(work, &first)?;
                let rests = all_done(&first) && !some_active(steps);
                Ok(sound && (!has_steps(&second) && rests))
            }
            Phase::Released => {
                let sound = self.isolates(work, &first)?;
                Ok(sound && (!has_steps(&second) && !some_active(steps)))
            }
            Phase::Restoring => {
                let sound = self.isolates(work, &first)?;
                Ok(sound && (has_steps(&second) && active_within(2, steps)))
            }
            Phase::Switching => {
                let round = present_round(&first, &second);
                let switch = only_switch(steps);
                Ok(switch && (!has_steps(&second) && active_within(round, steps)))
            }
            Phase::Closed => Ok(!some_active(steps)),
        }
    }

    /// Whether steps isolate a work section.
    fn isolates(&self, work: Option<Name>, first: &[&StepRow]) -> Result<bool, AllocError>
        ensures { IfOk result (λ sound. sound
            ≡ isolates self.now.net work (map (λ row. row.now) first.now)) }
    {
        let Some(work) = work else {
            return Ok(false);
        };
        let listed = points_of(self.alloc, first)?;
        let points = each_once(self.alloc, &listed)?;
        let steps = steps_of(self.alloc, first)?;
        let fence = self.network.fence(&work, &points)?;
        Ok(is_sound(&fence, &points, &steps))
    }
}

/// Whether an order with these points and steps isolates the sections of a fence.
fn is_sound(fence: &Fence, points: &[Name], steps: &[Step]) -> bool
    ensures { result
        ≡ not (is_some (isolating_fault fence.now points.now (map task steps.now))) }
{
    check_isolating(fence, points, steps).is_ok()
}

/// The present round: the second where there is one, or the first; 0 without steps in either.
fn present_round(first: &[&StepRow], second: &[&StepRow]) -> u8
    ensures { (steps : List StepRow) → map (λ row. row.now) first.now ≡ of_round steps 1
        → map (λ row. row.now) second.now ≡ of_round steps 2 → result ≡ present_of steps }
{
    if has_steps(second) {
        2
    } else if has_steps(first) {
        1
    } else {
        0
    }
}

/// The points of these steps.
pub(crate) fn points_of(alloc: Global, steps: &[&StepRow]) -> Result<Vec<Name>, AllocError>
    ensures { IfOk result (λ points. points.items ≡ map (λ row. row.now.step.point) steps.now) }
{
    steps.iter().map(|row| row.step.point).collect(alloc)
}

/// What these rows have to do.
fn steps_of(alloc: Global, rows: &[&StepRow]) -> Result<Vec<Step>, AllocError>
    ensures { IfOk result (λ steps. steps.items ≡ map (λ row. row.now.step) rows.now) }
{
    rows.iter().map(|row| row.step).collect(alloc)
}

/// Whether one of these holds keeps a clearance from closing a point.
fn any_hinders(holds: &[&Hold], id: ClearanceId, point: Name) -> bool
    ensures { result ≡ list_any (hinders id point) (map (λ hold. hold.now) holds.now) }
{
    for hold in holds {
        if hinders(hold, id, point) {
            return true;
        }
    }
    false
}
