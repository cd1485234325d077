//! Laws of live sections: what closed points join to a source.
ghost use Rattle.clr_rules.specs.laws.Live.{ClosedPointsCarryOn, LiveIsClosedWalks, LiveIsLeast};
ghost use Rattle.clr_rules.specs.laws.Live.{LiveIsWalks, SoundOrdersKeepFencesDead, SourcesAreLive};

/// Each source of the network is live.
pub fn sources_are_live()
    ensures { SourcesAreLive }
{}

/// A closed point carries current on: both of its ends are live, or neither is.
pub fn closed_points_carry_on()
    ensures { ClosedPointsCarryOn }
{}

/// Nothing else is live: each set of sections that has the sources and that no closed point leaves
/// has every live section.
pub fn live_is_least()
    ensures { LiveIsLeast }
{}

/// A section is live exactly where a walk leads to it from a source over points that are not open,
/// which is one over closed points.
pub fn live_is_walks()
    ensures walks { LiveIsWalks }
    ensures closed_walks { LiveIsClosedWalks }
{}

/// While every point of a sound order is open, no section of its fence is live.
pub fn sound_orders_keep_fences_dead()
    ensures { SoundOrdersKeepFencesDead }
{}
