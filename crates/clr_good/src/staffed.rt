//! Whether the lists are staffed: the test of what the staff needs to end each clearance.
ghost use Rattle.std.specs.Prelude.{◌≡◌, IfOk, map, find};
ghost use Rattle.std.specs.List.{list_all, list_any};
ghost use Rattle.clr_rules.specs.Checks.{employee, has_role, is_field, is_operator};
ghost use Rattle.clr_rules.specs.Holds.{has_hold};
ghost use Rattle.clr_rules.specs.Staffed.{fits_holder, has_some_role};
ghost use Rattle.clr_rules.specs.Steps.{points_of};
ghost use Rattle.clr_rules.specs.declared.hold_kind.HoldKind.TheVariants.{HeldOpen};
ghost use Rattle.clr_good.specs.Staffed.{has_step_left, holder_fits, holders_fit};
ghost use Rattle.clr_good.specs.Staffed.{holds_some_point, holds_staffed, round_fits};
ghost use Rattle.clr_good.specs.Staffed.{some_at_point, steps_staffed};

use crate::clearances::is_closed;
use crate::rounds::{all_done, has_steps, of_round};
use crate::shelves::Shelves;
use clr_book::all_rows;
use clr_net::Name;
use clr_rules::{ClearanceId, Hold, HoldKind, PointState, Record, StepRow};
use clr_shelf::Shelf;
use clr_staff::{Role, StaffRow};
use std::alloc::AllocError;

impl<'a, P: Shelf<PointState>, C: Shelf<Record>, T: Shelf<StepRow>, H: Shelf<Hold>> Shelves<
    'a,
    P,
    C,
    T,
    H,
> {
    /// Whether the holder of each open record is in the staff, in his role.
    pub(crate) fn holders_fit(&self) -> Result<bool, AllocError>
        ensures { IfOk result (λ fit. fit ≡ holders_fit self.now) }
    {
        let records: Vec<&Record> = all_rows(self.alloc, self.records)?;
        Ok(self.each_holder_fits(&records))
    }

    fn each_holder_fits(&self, records: &[&Record]) -> bool
        ensures { result ≡ list_all (holder_fits self.now) (map (λ r. r.now) records.now) }
    {
        for record in records {
            if !self.holder_fits(record) {
                return false;
            }
        }
        true
    }

    fn holder_fits(&self, clearance: &Record) -> bool
        ensures { result ≡ holder_fits self.now clearance.now }
    {
        is_closed(clearance.phase) || self.has_holder(clearance.holder, clearance.work)
    }

    fn has_holder(&self, holder: Name, work: Option<Name>) -> bool
        ensures { result ≡ has_role (fits_holder work) (employee self.now.staff holder) }
    {
        let Some(row) = self.staff.find(&holder) else {
            return false;
        };
        match work {
            Some(_) => matches!(row.role, Role::Charge),
            None => matches!(row.role, Role::Operator),
        }
    }

    fn has_operator(&self) -> bool
        ensures { result ≡ has_some_role self.now.staff is_operator }
    {
        first_operator(self.staff.rows()).is_some()
    }

    fn has_field_employee(&self) -> bool
        ensures { result ≡ has_some_role self.now.staff is_field }
    {
        first_field(self.staff.rows()).is_some()
    }

    /// Whether there is an operator for the steps, each that is given out is of the first round or
    /// the second, and each Restoring record has a step left.
    pub(crate) fn steps_staffed(&self) -> Result<bool, AllocError>
        ensures { IfOk result (λ staffed. staffed ≡ steps_staffed self.now) }
    {
        let steps: Vec<&StepRow> = all_rows(self.alloc, self.steps)?;
        if has_steps(&steps) && !self.has_operator() {
            return Ok(false);
        }
        if !rounds_fit(&steps) {
            return Ok(false);
        }
        let records: Vec<&Record> = all_rows(self.alloc, self.records)?;
        let left = self.each_has_step_left(&records)?;
        Ok(left)
    }

    fn each_has_step_left(&self, records: &[&Record]) -> Result<bool, AllocError>
        ensures { IfOk result (λ left. left
            ≡ list_all (has_step_left self.now) (map (λ r. r.now) records.now)) }
    {
        for record in records {
            if !self.has_step_left(record)? {
                return Ok(false);
            }
        }
        Ok(true)
    }

    #[tactic(auto, unfolding(clr_rules::specs::Steps::steps_of))]
    fn has_step_left(&self, clearance: &Record) -> Result<bool, AllocError>
        ensures { IfOk result (λ left. left ≡ has_step_left self.now clearance.now) }
    {
        if !clearance.phase.is_restoring() {
            return Ok(true);
        }
        let steps = self.steps.group(&clearance.id)?;
        let second = of_round(self.alloc, &steps, 2)?;
        Ok(!all_done(&second))
    }

    /// Whether there is a field employee for what is held at points, and each Released record
    /// holds some point open.
    pub(crate) fn holds_staffed(&self) -> Result<bool, AllocError>
        ensures { IfOk result (λ staffed. staffed ≡ holds_staffed self.now) }
    {
        let holds: Vec<&Hold> = all_rows(self.alloc, self.holds)?;
        if some_at_point(&holds) && !self.has_field_employee() {
            return Ok(false);
        }
        let records: Vec<&Record> = all_rows(self.alloc, self.records)?;
        let some = self.each_holds_some_point(&records)?;
        Ok(some)
    }

    fn each_holds_some_point(&self, records: &[&Record]) -> Result<bool, AllocError>
        ensures { IfOk result (λ some. some
            ≡ list_all (holds_some_point self.now) (map (λ r. r.now) records.now)) }
    {
        for record in records {
            if !self.holds_some_point(record)? {
                return Ok(false);
            }
        }
        Ok(true)
    }

    #[tactic(auto, unfolding(clr_rules::specs::Steps::steps_of))]
    fn holds_some_point(&self, clearance: &Record) -> Result<bool, AllocError>
        ensures { IfOk result (λ some. some ≡ holds_some_point self.now clearance.now) }
    {
        if !clearance.phase.is_released() {
            return Ok(true);
        }
        let steps = self.steps.group(&clearance.id)?;
        let first = of_round(self.alloc, &steps, 1)?;
        Ok(self.some_held_open(clearance.id, &first))
    }

    /// Whether a clearance holds open a point of these steps.
    fn some_held_open(&self, id: ClearanceId, steps: &[&StepRow]) -> bool
        ensures { result ≡ list_any (has_hold self.now.holds id HeldOpen)
            (points_of (map (λ row. row.now) steps.now)) }
    {
        for row in steps {
            if self.has_hold(id, HoldKind::HeldOpen, row.step.point) {
                return true;
            }
        }
        false
    }
}

/// Whether one of these holds is at a point.
fn some_at_point(holds: &[&Hold]) -> bool
    ensures { result ≡ some_at_point (map (λ hold. hold.now) holds.now) }
{
    for hold in holds {
        if hold.kind.stands_at_point() {
            return true;
        }
    }
    false
}

/// Whether the steps that are given out are of the first round or the second.
fn rounds_fit(steps: &[&StepRow]) -> bool
    ensures { result ≡ list_all round_fits (map (λ row. row.now) steps.now) }
{
    for row in steps {
        if row.is_active() && !(row.round == 1 || row.round == 2) {
            return false;
        }
    }
    true
}

fn is_operator(row: &StaffRow) -> bool
    ensures { result ≡ is_operator row.now.role }
{
    matches!(row.role, Role::Operator)
}

fn is_field(row: &StaffRow) -> bool
    ensures { result ≡ is_field row.now.role }
{
    matches!(row.role, Role::Field)
}

fn first_operator(staff: &[StaffRow]) -> Option<StaffRow>
    ensures { result ≡ find (λ row. is_operator row.role) staff.now }
{
    staff.iter().copied().find(|row| is_operator(row))
}

fn first_field(staff: &[StaffRow]) -> Option<StaffRow>
    ensures { result ≡ find (λ row. is_field row.role) staff.now }
{
    staff.iter().copied().find(|row| is_field(row))
}
