//! Laws of footprints: what edits leave alone.
ghost use Rattle.clr_rules.specs.Footprint.{SparingEditsLeaveAlone};
ghost use Rattle.clr_rules.specs.laws.Frame.{OneOutlookChanges, OthersEditsSpare};
ghost use Rattle.clr_rules.specs.laws.Frame.{OthersEditsSpareAnywhere, OthersKeepHeldOpen};
ghost use Rattle.clr_rules.specs.laws.Frame.{OthersKeepOutlook, SparingEditsKeepOutlook};
ghost use Rattle.clr_rules.specs.Isolation.{OthersSpare};

/// Edits that spare a clearance in the register before them leave its record, its steps and its
/// holds as they are, clear no hand of it, and close no point that it holds open; all that the
/// register has of it is the same.
pub fn sparing_edits_leave_alone()
    ensures frame { SparingEditsLeaveAlone }
    ensures outlook { SparingEditsKeepOutlook }
{}

/// The edits of a command of others spare a clearance: those of a report where the hands match the
/// steps, those of a jumper where points are those of the network, those of any other command in
/// every register.
pub fn edits_of_others_spare()
    ensures matched { OthersEditsSpare }
    ensures anywhere { OthersEditsSpareAnywhere }
{}

/// In a good register a command of others leaves a clearance's record, steps and
/// holds as they are, clears no hand of it, and closes no point that it holds open.
pub fn commands_of_others_leave_alone()
    ensures frame { OthersSpare }
    ensures open { OthersKeepHeldOpen }
{}

/// Where the hands match the steps, a command changes what the register has of one clearance alone,
/// the one that it names or makes: the record, the steps, the holds and the hands of all others are
/// the same.
pub fn commands_change_one_clearance()
    ensures one { OneOutlookChanges }
    ensures others { OthersKeepOutlook }
{}
