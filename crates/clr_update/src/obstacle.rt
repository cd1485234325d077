//! What is in the way of an update.
use clr_net::Name;
use clr_rules::ClearanceId;

/// What is in the way of an update: the row, and the least clearance that needs it as it is.
///
/// The first in the order of the variants is named, of those the least clearance, and of its rows
/// the first.
#[derive(Clone, Copy, Debug, PartialEq, Eq)]
pub enum Obstacle {
    /// It is to be taken out, and is no jumper of the register, or the files have it.
    NoJumper(Name),
    /// A point of the files that has a jumper's name, and does not join what the jumper joins.
    JumperName(Name),
    /// With the jumpers that stay there are more than 5,000 sections or 10,000 points.
    TooLarge,
    /// A section in the fence of a standing clearance, which would go or change.
    Section(Name, ClearanceId),
    /// A point with an end in the fence of a standing clearance, which would come, go or change.
    Point(Name, ClearanceId),
    /// A point of an open record's steps, which would go or change.
    Step(Name, ClearanceId),
    /// The work section of an open record, which would go.
    Work(Name, ClearanceId),
    /// The holder of an open record, who would go or change role.
    Holder(Name, ClearanceId),
    /// Who repeated a step that is not reported, and would go or change role.
    Reader(Name, ClearanceId),
    /// The requester of an open record, who would become an operator, or cease to be one.
    Requester(Name, ClearanceId),
    /// The staff would have no operator, and the register has steps.
    NoOperator,
    /// The staff would have no field employee, and something is held at a point, or a step is given
    /// out.
    NoField,
}
