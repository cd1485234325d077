//! An employee as a row of the staff.
use clr_net::{Name, Named};

/// What an employee may do.
#[derive(Clone, Copy, Debug, PartialEq, Eq)]
pub enum Role {
    /// Operates the system: orders, instructs and grants.
    Operator,
    /// Works at the switching points: repeats and reports.
    Field,
    /// May be in charge of a clearance.
    Charge,
}

/// An employee.
#[derive(Clone, Copy, Debug, PartialEq, Eq)]
pub struct StaffRow {
    pub name: Name,
    pub role: Role,
    /// The employee who may act for this one in an emergency, if there is one.
    pub supervisor: Option<Name>,
}

impl Named for StaffRow {
    ghost name_of = { λ row. row.name };

    fn name(&self) -> Name {
        self.name
    }
}
