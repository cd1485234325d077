//! Laws of work: what those who work on a line rest on.
ghost use Rattle.clr_rules.specs.laws.Work.{ClosingsFeedNoGround, CrewsWorkSafelyInRuns};
ghost use Rattle.clr_rules.specs.laws.Work.{GrantedFencesStayDead, GrantedPointsBearAllHolds};
ghost use Rattle.clr_rules.specs.laws.Work.{GrantedWorkIsDead, GoodRegistersAreSafe};
ghost use Rattle.clr_rules.specs.laws.Work.{GroundedSectionsAreDead, NoSourceFeedsGrounds};

/// While a clearance is granted, no section of its fence is live, and its work section is one of
/// these.
pub fn granted_fences_stay_dead()
    ensures fence { GrantedFencesStayDead }
    ensures work { GrantedWorkIsDead }
{}

/// No section that bears a ground is live: closed points lead from no source to it.
pub fn grounded_sections_are_dead()
    ensures dead { GroundedSectionsAreDead }
    ensures unfed { NoSourceFeedsGrounds }
{}

/// After each command, a closing that is reported done too, no section that bears a ground is live.
pub fn closings_feed_no_ground()
    ensures { ClosingsFeedNoGround }
{}

/// A point that was opened for a granted clearance is open, held open and tagged, blocked where it
/// can be locked, and controlled where it is controlled from afar.
pub fn granted_points_bear_all_holds()
    ensures { GrantedPointsBearAllHolds }
{}

/// Crews are safe in every good register, and work safely in every run from one, whoever commands:
/// while a crew is on, its clearance is Granted, its work section grounded, its whole fence dead,
/// and each point of its order open and held. No closing feeds a ground, and a tag is taken only by
/// its own clearance's Untag.
pub fn crews_work_safely()
    ensures registers { GoodRegistersAreSafe }
    ensures runs { CrewsWorkSafelyInRuns }
{}
