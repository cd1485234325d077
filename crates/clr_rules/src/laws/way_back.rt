//! Laws of the way back: the staff can close each record that is not Closed.
ghost use Rattle.clr_rules.specs.laws.WayBack.{ThereIsAWayBack};

/// From every good and staffed register the way back of a record closes it, where the staff has a
/// field employee or no step of the record is given out. Its commands are all accepted, one after
/// the other, and none opens or closes a point. Every other record stays as it is, but for steps
/// that are given out at points of this one: they wait again.
pub fn there_is_a_way_back()
    ensures { ThereIsAWayBack }
{}
