//! Whom records need, and in what roles.
ghost use Rattle.std.specs.Prelude.{◌≡◌, ◌&&◌, ◌||◌, [], ◌∷◌, filter, find, map, not};
ghost use Rattle.std.specs.List.{flat_map, list_any};
ghost use Rattle.clr_rules.specs.Checks.{employee, has_role, is_field, is_operator};
ghost use Rattle.clr_rules.specs.HoldKind.{is_point_kind};
ghost use Rattle.clr_rules.specs.Staffed.{fits_holder, has_some_role};
ghost use Rattle.clr_rules.specs.Steps.{is_active, is_some_step, some_active};
ghost use Rattle.clr_update.specs.Rows.{same_flag};
ghost use Rattle.clr_update.specs.Update.{first_obstacle, names_in, unless};
ghost use Rattle.clr_changes.specs.Parts.{missing_roles};
ghost use Rattle.clr_changes.specs.Touched.{first_of};

use clr_net::Name;
use clr_rules::{Hold, Record, StepRow};
use clr_staff::{Role, Staff, StaffRow};
use clr_update::Obstacle;

/// The holder of a record, if the staff does not have the role that a holder needs.
pub(crate) fn its_holder(staff: &Staff, clearance: &Record) -> Option<Name>
    ensures { result ≡ first_of (unless (has_role (fits_holder clearance.now.work)
        (employee staff.now clearance.now.holder)) (clearance.now.holder ∷ [])) }
{
    if has_holder(staff, clearance.holder, clearance.work) {
        None
    } else {
        Some(clearance.holder)
    }
}

/// Whether the staff has a holder, in the role that a work section wants, or none.
fn has_holder(staff: &Staff, holder: Name, work: Option<Name>) -> bool
    ensures { result ≡ has_role (fits_holder work) (employee staff.now holder) }
{
    let Some(row) = staff.find(&holder) else {
        return false;
    };
    match work {
        Some(_) => matches!(row.role, Role::Charge),
        None => matches!(row.role, Role::Operator),
    }
}

/// The first of those who repeated a step that is not reported, who is no field employee.
pub(crate) fn its_reader(staff: &Staff, steps: &[&StepRow]) -> Option<Name>
    ensures { result ≡ first_of
        (filter (λ name. not (has_role is_field (employee staff.now name)))
        (flat_map (λ row. names_in row.step.reader)
        (filter (λ row. is_active row.step.state) (map (λ row. row.now) steps.now)))) }
{
    for row in steps {
        if row.is_active() {
            if let Some(name) = unfit_reader(staff, row.step.reader) {
                return Some(name);
            }
        }
    }
    None
}

/// A reader, if there is one who is no field employee.
fn unfit_reader(staff: &Staff, reader: Option<Name>) -> Option<Name>
    ensures { result ≡ first_of
        (filter (λ name. not (has_role is_field (employee staff.now name))) (names_in reader)) }
{
    let name = reader?;
    if is_field_employee(staff, name) {
        None
    } else {
        Some(name)
    }
}

/// The requester of a record, if one staff has an operator of this name and the other has not.
pub(crate) fn its_requester(was: &Staff, staff: &Staff, clearance: &Record) -> Option<Name>
    ensures { result ≡ first_of (unless (same_flag
        (has_role is_operator (employee was.now clearance.now.id.requester))
        (has_role is_operator (employee staff.now clearance.now.id.requester)))
        (clearance.now.id.requester ∷ [])) }
{
    let requester = clearance.id.requester();
    if same(is_operator(was, requester), is_operator(staff, requester)) {
        None
    } else {
        Some(requester)
    }
}

fn same(a: bool, b: bool) -> bool
    ensures { result ≡ same_flag a b }
{
    if a { b } else { !b }
}

/// Whether an employee is an operator.
fn is_operator(staff: &Staff, name: Name) -> bool
    ensures { result ≡ has_role is_operator (employee staff.now name) }
{
    match staff.find(&name) {
        Some(row) => matches!(row.role, Role::Operator),
        None => false,
    }
}

/// Whether an employee is a field employee.
fn is_field_employee(staff: &Staff, name: Name) -> bool
    ensures { result ≡ has_role is_field (employee staff.now name) }
{
    match staff.find(&name) {
        Some(row) => matches!(row.role, Role::Field),
        None => false,
    }
}

/// Whether the staff has an operator.
fn has_operator(staff: &[StaffRow]) -> bool
    ensures { result ≡ has_some_role staff.now is_operator }
{
    first_operator(staff).is_some()
}

/// Whether the staff has a field employee.
fn has_field_employee(staff: &[StaffRow]) -> bool
    ensures { result ≡ has_some_role staff.now is_field }
{
    first_field(staff).is_some()
}

fn first_operator(staff: &[StaffRow]) -> Option<StaffRow>
    ensures { result ≡ find (λ row. is_operator row.role) staff.now }
{
    staff
        .iter()
        .copied()
        .find(|row| matches!(row.role, Role::Operator))
}

fn first_field(staff: &[StaffRow]) -> Option<StaffRow>
    ensures { result ≡ find (λ row. is_field row.role) staff.now }
{
    staff
        .iter()
        .copied()
        .find(|row| matches!(row.role, Role::Field))
}

/// Whom a register with these steps and holds needs, and the staff has not: an operator where there
/// is a step, a field employee where something is held at a point or a step is given out.
pub(crate) fn missing(steps: &[&StepRow], holds: &[&Hold], staff: &[StaffRow]) -> Option<Obstacle>
    ensures { result ≡ first_obstacle (missing_roles (map (λ row. row.now) steps.now)
        (map (λ h. h.now) holds.now) staff.now) }
{
    if has_steps(steps) && !has_operator(staff) {
        return Some(Obstacle::NoOperator);
    }
    if needs_field(steps, holds) && !has_field_employee(staff) {
        return Some(Obstacle::NoField);
    }
    None
}

/// Whether there is a step among these.
fn has_steps(steps: &[&StepRow]) -> bool
    ensures { result ≡ is_some_step (map (λ row. row.now) steps.now) }
{
    !steps.is_empty()
}

/// Whether something is held at a point, or a step is given out.
fn needs_field(steps: &[&StepRow], holds: &[&Hold]) -> bool
    ensures { result ≡ (list_any (λ h. is_point_kind h.kind) (map (λ h. h.now) holds.now)
        || some_active (map (λ row. row.now) steps.now)) }
{
    some_at_point(holds) || some_active(steps)
}

/// Whether one of these holds is at a point.
fn some_at_point(holds: &[&Hold]) -> bool
    ensures { result ≡ list_any (λ h. is_point_kind h.kind) (map (λ h. h.now) holds.now) }
{
    for hold in holds {
        if hold.kind.stands_at_point() {
            return true;
        }
    }
    false
}

/// Whether one of these steps is given out and not reported.
fn some_active(steps: &[&StepRow]) -> bool
    ensures { result ≡ some_active (map (λ row. row.now) steps.now) }
{
    for row in steps {
        if row.is_active() {
            return true;
        }
    }
    false
}
