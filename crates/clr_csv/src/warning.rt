//! A warning.
use clr_net::Name;

/// What is worth a warning in a network and a staff, though both are accepted.
#[derive(Clone, Copy)]
pub enum Warning {
    /// No section is a source: every line would be taken for dead.
    NoSource,
    /// No employee is an operator: nobody orders, instructs or grants.
    NoOperator,
    /// No employee is a field employee: nobody repeats and reports a step.
    NoField,
    /// This employee may hold a clearance and has no supervisor, so that nobody can replace the
    /// holder in an emergency: 29 CFR 1910.269(m)(3)(ix).
    NoSupervisor(Name),
    /// No point joins this section to another one.
    NotJoined(Name),
    /// No source reaches this section, whatever the points' positions.
    NotReached(Name),
    /// The design of this point does not permit that it is made inoperable: (m)(3)(ii).
    NotLocked(Name),
    /// These two names of one kind differ by one letter, so that they are easily taken for one
    /// another when they are read out.
    Alike(Names, Name, Name),
}

/// What names are of. Only names of one kind are compared.
#[derive(Clone, Copy)]
pub enum Names {
    Sections,
    Points,
    Employees,
}
