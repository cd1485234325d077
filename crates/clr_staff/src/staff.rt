//! The staff: every employee, checked and in the order of their names.
ghost use Rattle.std.specs.Prelude.{◌≡◌, ◌≤◌, IfOk, IsTrue, All, OnOk, false, find, length, map};
ghost use Rattle.std.specs.Prelude.{not, position};
ghost use Rattle.std.specs.Option.{option_copied};
ghost use Rattle.std.specs.List.{IsDistinct};
ghost use Rattle.std.specs.List.Sorted.{IsPermutation, IsStrictlySortedBy};
ghost use Rattle.clr_net.specs.Name.{name_cmp, same_name};
ghost use Rattle.clr_staff.specs.Staff.{Builds, IsStaff, Passes, has_known_supervisor, is_known};
ghost use Rattle.clr_staff.specs.Staff.{is_own_supervisor, name_fault, size_fault, staff_names};
ghost use Rattle.clr_staff.specs.Staff.{supervisor_fault};

use crate::employee::StaffRow;
use crate::staff_fault::StaffFault;
use clr_net::{Name, place_of, repeat_place, row_of, sort_by_name};
use std::alloc::{AllocError, Global};
use std::marker::Model;

/// The most employees of a staff.
pub const MAX_STAFF: usize = 2000;

/// The staff: every employee whom a command may name, by name.
#[derive(Debug, Drop)]
pub struct Staff {
    rows: Vec<StaffRow>,
}

impl Model for Staff {
    ghost use Rattle.std.specs.Prelude.{List};
    ghost use Rattle.clr_staff.specs.declared.employee.StaffRow.{StaffRow};
    ghost use Rattle.clr_staff.specs.Staff.{IsStaff};

    ghost Value = { List StaffRow };

    ghost view = { λ staff. staff.rows.items };

    ghost invariant = { λ staff. IsStaff staff.rows.items };
}

impl Staff {
    /// The staff of these rows, with the rows in the order of their names.
    pub fn build(alloc: Global, rows: Vec<StaffRow>) -> Result<Staff, StaffFault>
        ensures { Builds rows.items result }
    {
        check_names(alloc, &rows)?;
        let by_name = in_order(alloc, &rows)?;
        check_supervisors(&by_name, &rows)?;
        check_size(&rows)?;
        Ok(Staff { rows: by_name })
    }

    /// A staff is one within the limits: a law, with nothing to do.
    pub fn is_staff(&self)
        ensures { IsStaff self.now }
    {
        let _rows = &self.rows;
    }

    /// The employee of this name.
    pub fn find(&self, name: &Name) -> Option<&StaffRow>
        ensures { option_copied result ≡ find (λ row. same_name name.now row.name) self.now }
    {
        row_of(&self.rows, *name)
    }

    /// All employees, in the order of their names.
    pub fn rows(&self) -> &[StaffRow]
        ensures rows { result.now ≡ self.now }
        ensures staff { IsStaff self.now }
    {
        &self.rows
    }
}

/// The names that come twice, as a stage of the checks.
fn check_names(alloc: Global, rows: &[StaffRow]) -> Result<(), StaffFault>
    ensures passes { Passes (name_fault rows.now) result }
    ensures once { OnOk result (IsDistinct same_name (staff_names rows.now)) }
{
    if let Some(place) = repeat_place(alloc, rows)? {
        return Err(StaffFault::Twice(place + 1));
    }
    Ok(())
}

/// A copy of the rows, in the order of their names.
fn in_order(alloc: Global, rows: &[StaffRow]) -> Result<Vec<StaffRow>, AllocError>
    requires { IsDistinct same_name (staff_names rows.now) }
    ensures all { IfOk result (λ by_name. IsPermutation rows.now by_name.items) }
    ensures rising { IfOk result (λ by_name.
        IsStrictlySortedBy name_cmp (staff_names by_name.items)) }
{
    let mut by_name: Vec<StaffRow> = rows.iter().copied().collect(alloc)?;
    sort_by_name(&mut by_name);
    Ok(by_name)
}

/// The supervisors of rows, as a stage of the checks. Each is looked for in `by_name`, which is
/// in the order of names.
fn check_supervisors(by_name: &[StaffRow], rows: &[StaffRow]) -> Result<(), StaffFault>
    requires { IsStrictlySortedBy name_cmp (staff_names by_name.now) }
    ensures passes { Passes (supervisor_fault (staff_names by_name.now) rows.now) result }
    ensures known { OnOk result
        (All (λ row. IsTrue (has_known_supervisor (staff_names by_name.now) row)) rows.now) }
    ensures differ { OnOk result (All (λ row. is_own_supervisor row ≡ false) rows.now) }
{
    if let Some(place) = unknown_supervisor(by_name, rows) {
        return Err(StaffFault::UnknownSupervisor(place + 1));
    }
    if let Some(place) = own_supervisor(rows) {
        return Err(StaffFault::OwnSupervisor(place + 1));
    }
    Ok(())
}

/// The first place of a row with a supervisor who is not among the staff.
fn unknown_supervisor(by_name: &[StaffRow], rows: &[StaffRow]) -> Option<usize>
    requires { IsStrictlySortedBy name_cmp (staff_names by_name.now) }
    ensures { result
        ≡ position (λ row. not (has_known_supervisor (staff_names by_name.now) row)) rows.now }
{
    rows.iter()
        .position(|row| !is_known(by_name, row.supervisor))
}

/// Whether a supervisor, if there is one, is among the staff.
fn is_known(by_name: &[StaffRow], supervisor: Option<Name>) -> bool
    requires { IsStrictlySortedBy name_cmp (staff_names by_name.now) }
    ensures { result ≡ is_known (staff_names by_name.now) supervisor }
{
    match supervisor {
        Some(name) => place_of(by_name, name).is_some(),
        None => true,
    }
}

/// The first place of a row whose supervisor is the row's own name.
fn own_supervisor(rows: &[StaffRow]) -> Option<usize>
    ensures { result ≡ position is_own_supervisor rows.now }
{
    rows.iter().position(|row| row.supervisor == Some(row.name))
}

/// The number of rows, as a stage of the checks.
fn check_size(rows: &[StaffRow]) -> Result<(), StaffFault>
    ensures passes { Passes (size_fault rows.now) result }
    ensures fits { OnOk result (length rows.now ≤ 2000) }
{
    if rows.len() > MAX_STAFF {
        return Err(StaffFault::TooMany);
    }
    Ok(())
}
