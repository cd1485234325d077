//! The logins of a service, of which each row names an employee of the staff.
ghost use Rattle.std.specs.Prelude.{◌≡◌, not, position};
ghost use Rattle.clr_edge.specs.Logins.{is_employee, known_logins};

use crate::fault::Fault;
use clr_net::Name;
use clr_staff::{LoginRow, Logins, Staff};

/// These logins. A row whose employee the staff lacks is a fault, which names the first.
pub fn known_logins(staff: &Staff, logins: Logins) -> Result<Logins, Fault>
    ensures { result ≡ known_logins staff.now logins }
{
    match unknown_row(staff, logins.rows()) {
        Some(place) => Err(Fault::UnknownEmployee(place + 1)),
        None => Ok(logins),
    }
}

/// The place of the first row whose employee the staff lacks.
fn unknown_row(staff: &Staff, rows: &[LoginRow]) -> Option<usize>
    ensures { result ≡ position (λ row. not (is_employee staff.now row.employee)) rows.now }
{
    rows.iter()
        .position(|row| !is_employee(staff, &row.employee))
}

/// Whether a staff has an employee of this name.
fn is_employee(staff: &Staff, name: &Name) -> bool
    ensures { result ≡ is_employee staff.now name.now }
{
    staff.find(name).is_some()
}
