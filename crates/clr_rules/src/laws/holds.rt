//! Which hold keeps a clearance from closing a point.
ghost use Rattle.clr_rules.specs.laws.Holds.{LeastHoldIsNamed, NoneIsNamedWhereNoneHinders};

/// The hold that is named is one of those that keep the clearance from closing the point, and the
/// least of them: by clearance, then by kind. None is named exactly where none does.
pub fn least_hold_is_named()
    ensures least { LeastHoldIsNamed }
    ensures none { NoneIsNamedWhereNoneHinders }
{}
