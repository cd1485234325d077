//! The near part: which rows of the register a command looks at.
ghost use Rattle.clr_rules.specs.laws.Near.{GreatestIsGreatest, NamedLooksAtItsFence};
ghost use Rattle.clr_rules.specs.laws.Near.{NearHasNoOtherRows, NearIsInOrder};
ghost use Rattle.clr_rules.specs.laws.Near.{OrderLooksAtFenceToBe, OrderPointsTouchTheFence};
ghost use Rattle.clr_rules.specs.laws.Near.{JumperLooksAtTheNetwork, OwnHoldsAreNear};
ghost use Rattle.clr_rules.specs.laws.Near.{PointsHaveOneRow};
ghost use Rattle.clr_rules.specs.laws.Near.{RequestLooksAtItsSection, SwitchLooksAtItsPoints};
ghost use Rattle.clr_rules.specs.laws.Near.{SwitchOrderHasItsPoints};

/// A command that names a clearance looks at its record, steps and crews, at the sections of its
/// fence, at the points that touch the fence with their positions and hands, and at all holds at
/// these sections and points.
pub fn named_looks_at_its_fence()
    ensures { NamedLooksAtItsFence }
{}

/// An order looks at the same of the fence that it would make.
pub fn order_looks_at_fence_to_be()
    ensures { OrderLooksAtFenceToBe }
{}

/// A command that names a switch order looks at its record, its steps and their points.
pub fn switch_order_has_its_points()
    ensures { SwitchOrderHasItsPoints }
{}

/// A request looks at the row of its section, and at no other row.
pub fn request_looks_at_its_section()
    ensures { RequestLooksAtItsSection }
{}

/// A switch order that is made looks at the points of its steps and at the holds there.
pub fn switch_looks_at_its_points()
    ensures { SwitchLooksAtItsPoints }
{}

/// A jumper looks at the network, at all records and at the steps of all first rounds, which show
/// whose fence it would cross, and at no other row.
pub fn jumper_looks_at_the_network()
    ensures { JumperLooksAtTheNetwork }
{}

/// A point of a network has one row.
pub fn points_have_one_row()
    ensures { PointsHaveOneRow }
{}

/// No record of a requester has a number above the greatest, which is that of one of them, or 0.
pub fn greatest_is_greatest()
    ensures { GreatestIsGreatest }
{}

/// Each list of the near part has rows of the register's list, in its order.
pub fn near_has_no_other_rows()
    ensures rows { NearHasNoOtherRows }
    ensures order { NearIsInOrder }
{}

/// In a good register all holds of a clearance are near a command that names it: the points of a
/// order in force touch its fence.
pub fn own_holds_are_near()
    ensures points { OrderPointsTouchTheFence }
    ensures holds { OwnHoldsAreNear }
{}
