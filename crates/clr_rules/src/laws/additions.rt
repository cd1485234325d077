//! Laws of edits that add to the network.
ghost use Rattle.clr_rules.specs.laws.Additions.{AnswersFit, FittingEditsKeepNetworks};
ghost use Rattle.clr_rules.specs.laws.Additions.{AddedPointsAreFree, AdditionsChangeByMarks};
ghost use Rattle.clr_rules.specs.laws.Additions.{PositionsAreNoPart};
ghost use Rattle.clr_rules.specs.laws.Additions.{LeastCrossedIsNamed};

/// What is added to a network whose rows have positions is added to that of the register, which has
/// none, and fits in both or in neither.
pub fn positions_are_no_part()
    ensures { PositionsAreNoPart }
{}

/// Edits that fit keep a network one within the limits.
pub fn fitting_edits_keep_networks()
    ensures { FittingEditsKeepNetworks }
{}

/// The edits of an answer fit the register's network.
pub fn answers_fit()
    ensures { AnswersFit }
{}

/// An added section, an added point of a free name, and both, change what is near a clearance
/// exactly by their marks.
pub fn additions_change_by_marks()
    ensures { AdditionsChangeByMarks }
{}

/// In a good register a name that no point has is free: no state and no hold has it.
pub fn added_points_are_free()
    ensures { AddedPointsAreFree }
{}

/// The clearance that a jumper is refused for is the least of those whose fence it would cross;
/// where it is refused for none, it would cross no fence.
pub fn least_crossed_is_named()
    ensures { LeastCrossedIsNamed }
{}
